ghost use Rattle.std.specs.Prelude.{◌↔◌, All, IsTrue};
ghost use Rattle.constraint_spec.specs.Word.{IsFactor};

use symbol_base::ByteList;

/// Whether none of the forbidden words is a part of the word.
pub fn avoids(forbid: &[ByteList], word: &[u8]) -> bool
    ensures { IsTrue result ↔ All (λ forbidden. IsFactor forbidden word.now → ⊥) forbid.now }
{
    for forbidden in forbid {
        if has_part(word, forbidden.as_slice()) {
            return false;
        }
    }
    true
}

/// Whether the part stands at some place of the word.
fn has_part(word: &[u8], part: &[u8]) -> bool
    ensures { IsTrue result ↔ IsFactor part.now word.now }
{
    for at in 0..=word.len() {
        if word[at..].starts_with(part) {
            return true;
        }
    }
    false
}
