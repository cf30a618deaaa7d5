//! The cover of a constraint: the deterministic graph with the fewest states that reads its words.
#![tactic(auto)]

ghost use Rattle.std.specs.Prelude.{◌≡◌, ◌↔◌, ℕ, List, length};
ghost use Rattle.constraint_spec.specs.Constraint.{ConstraintData, IsWordOf};
ghost use Rattle.label_graphs.specs.Graph.{EdgeData, HasEdge};
ghost use Rattle.label_graphs.specs.Cover.{IsCoverOf};
ghost use Rattle.label_graphs.specs.Memory.{EndTogether, IsMemory, IsLeastReadBack};
ghost use Rattle.min_cover.specs.Memory.{JoinsBy, IsMemoryOf};

mod cover_memory;
mod cycles;
mod fault;
mod finishing;
mod longest;
mod minimal;
mod pairs;
mod raw_states;
mod refine;
mod rows;
mod search;

pub use cover_memory::memory;
pub use fault::{CoverFault, MemoryFault};
pub use label_graphs::TwoStates;
pub use minimal::cover;

/// A constraint has one cover.
pub fn a_constraint_has_one_cover()
    ensures { (c : ConstraintData) (rows others : List (List EdgeData))
        → IsCoverOf (IsWordOf c) rows → IsCoverOf (IsWordOf c) others
        → (length rows ≡ length others)
        × ((from symbol to : ℕ) → HasEdge rows from symbol to ↔ HasEdge others from symbol to) }
{}

/// On a cover the memory of the graph is that of the constraint.
pub fn memory_on_a_cover()
    ensures lengths { (c : ConstraintData) (rows : List (List EdgeData))
        → IsCoverOf (IsWordOf c) rows → (n : ℕ)
        → EndTogether (length rows) (HasEdge rows) n ↔ JoinsBy c n }
    ensures memory { (c : ConstraintData) (rows : List (List EdgeData))
        → IsCoverOf (IsWordOf c) rows → (n : ℕ)
        → IsMemory (length rows) (HasEdge rows) n ↔ IsMemoryOf c n }
{}

/// A graph has one memory, and one least pair of states that read a word back to themselves, with
/// one least such word.
pub fn a_graph_has_one_memory()
    ensures memory { (rows : List (List EdgeData)) (n m : ℕ)
        → IsMemory (length rows) (HasEdge rows) n → IsMemory (length rows) (HasEdge rows) m
        → n ≡ m }
    ensures two_states { (rows : List (List EdgeData)) (u v x y : ℕ) (word other : List ℕ)
        → IsLeastReadBack (length rows) (HasEdge rows) u v word
        → IsLeastReadBack (length rows) (HasEdge rows) x y other
        → (u ≡ x) × (v ≡ y) × (word ≡ other) }
{}
