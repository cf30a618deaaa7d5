ghost use Rattle.std.specs.Prelude.{◌≡◌, ◌≢◌, ℕ, List, [], ◌++◌, Option, option_map, Result};
ghost use Rattle.shelf_io.specs.declared.outside.Failed.{Failed};
ghost use Rattle.shelf_io.specs.Shelf.{Files, with_file, content};
ghost use Rattle.shelf_io.specs.WholeFile.{all_appended, IsPutInPart, IsPutAll, IsWritten};

/// Bytes that are put into a file just made are the file.
pub fn put_into_a_made_file()
    ensures { (files : Files) (name bytes : List ℕ)
        → all_appended name bytes (with_file files name []) ≡ with_file files name bytes }
{}

/// Bytes that are put into a file stand behind its bytes, and every other file stays.
pub fn put_behind_a_file()
    ensures file { (files : Files) (name bytes : List ℕ)
        → content (all_appended name bytes files) name ≡ content files name ++ bytes }
    ensures others { (files : Files) (name bytes other : List ℕ) → other ≢ name
        → all_appended name bytes files other ≡ files other }
{}

/// Bytes that are put in two parts are put, and where one of the parts fails they are put in part.
pub fn put_in_two_parts()
    ensures both { (name first second : List ℕ) (old mid new : Option Files)
        → mid ≡ option_map (all_appended name first) old
        → new ≡ option_map (all_appended name second) mid
        → new ≡ option_map (all_appended name (first ++ second)) old }
    ensures second_fails { (name first second : List ℕ) (old mid new : Option Files)
        → mid ≡ option_map (all_appended name first) old → IsPutInPart name second mid new
        → IsPutInPart name (first ++ second) old new }
    ensures first_fails { (name first second : List ℕ) (old new : Option Files)
        → IsPutInPart name first old new → IsPutInPart name (first ++ second) old new }
{}

/// A file that is made, and has all bytes put into it, is written.
pub fn put_all_into_a_made_file()
    ensures { (name bytes : List ℕ) (old made new : Option Files)
        (result : Result (Unit {0}) Failed)
        → made ≡ option_map (λ files. with_file files name []) old
        → IsPutAll name bytes made new result
        → IsWritten name bytes old new result }
{}
