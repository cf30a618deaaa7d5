ghost use Rattle.std.specs.Prelude.{◌≡◌, ◌≢◌, ◌↔◌, ℕ, List, slice_get, Some, Result, Ok, Err, Contains};
ghost use Rattle.toml.specs.Data.{Members};
ghost use Rattle.constraint_spec.specs.Constraint.{ConstraintData};
ghost use Rattle.constraint_spec.specs.Ranges.{IsConstraint};
ghost use Rattle.constraint_file_spec.specs.declared.file.Key.{Key};
ghost use Rattle.constraint_file_spec.specs.declared.file.ListedEdge.{ListedEdge};
ghost use Rattle.constraint_file_spec.specs.declared.fault.ConstraintFault.{ConstraintFault};
ghost use Rattle.constraint_file_spec.specs.declared.fault.ConstraintFault.TheVariants.{UnknownKey, NoMemory};
ghost use Rattle.constraint_file_spec.specs.Keys.{all_keys, key_name};
ghost use Rattle.constraint_file_spec.specs.Listed.{listed_parts, wrong_type};
ghost use Rattle.constraint_file_spec.specs.Refusals.{mentions, state_names};
ghost use Rattle.constraint_file_spec.specs.ConstraintFile.{document_of, numbered, IsAscendingOf, ReadsConstraint};
ghost use Rattle.constraint_file_spec.specs.Laws.{IsLeastUnknown, IsMentionedBefore};

/// The list of the keys has each of them, and no two have one name.
pub fn keys_are_told_by_their_names()
    ensures all { (key : Key) → Contains all_keys key }
    ensures names { (key other : Key) → key_name key ≡ key_name other → key ≡ other }
{}

/// A file has exactly one outcome, want of memory aside: one constraint, or one refusal.
pub fn one_outcome()
    ensures some { (bytes : List ℕ) → (result : Result ConstraintData ConstraintFault)
        × (result ≢ Err NoMemory) × ReadsConstraint bytes result }
    ensures single { (bytes : List ℕ) (result other : Result ConstraintData ConstraintFault)
        → result ≢ Err NoMemory → other ≢ Err NoMemory
        → ReadsConstraint bytes result → ReadsConstraint bytes other → result ≡ other }
{}

/// The constraint of a file keeps the ranges and orders of constraints, and has two symbols.
pub fn constraints_keep_their_ranges()
    ensures ranges { (bytes : List ℕ) (c : ConstraintData) → ReadsConstraint bytes (Ok c)
        → IsConstraint c }
    ensures alphabet { (bytes : List ℕ) (c : ConstraintData) → ReadsConstraint bytes (Ok c)
        → c.alphabet ≡ 2 }
{}

/// A file is refused for an unknown key exactly where it is a table with such keys, and the least
/// of them by its bytes is named.
pub fn least_unknown_key_is_named()
    ensures { (bytes name : List ℕ) → ReadsConstraint bytes (Err (UnknownKey name))
        ↔ ((table : Members) × (document_of bytes ≡ Some table) × IsLeastUnknown table name) }
{}

/// Values are looked at in the order of the keys: the first key whose value has another type is
/// named.
pub fn first_wrong_type_is_named()
    ensures { (table : Members) (fault : ConstraintFault)
        → (listed_parts table ≡ Err fault) ↔ (wrong_type table ≡ Some fault) }
{}

/// The states of a graph are numbered in order of first mention. No name has two numbers, and the
/// numbers of an edge are those of its names.
pub fn states_are_numbered_by_first_mention()
    ensures order { (edges : List ListedEdge)
        → IsAscendingOf (IsMentionedBefore (mentions edges)) (mentions edges) (state_names edges) }
    ensures once { (edges : List ListedEdge) (name : List ℕ) (i j : ℕ)
        → slice_get (state_names edges) i ≡ Some name → slice_get (state_names edges) j ≡ Some name
        → i ≡ j }
    ensures numbers { (edges : List ListedEdge) (e : ListedEdge) → Contains edges e
        → (slice_get (state_names edges) (numbered (state_names edges) e).from ≡ Some e.from)
        × (slice_get (state_names edges) (numbered (state_names edges) e).to ≡ Some e.to) }
{}
