//! Steps that give a value or refuse, and rows of them, of which the first refusal decides.
//!
//! What is read and which refusals there are is left open: commands have steps over files that are
//! refused by an exit status, and a library may have steps of its own.
#![tactic(auto)]

mod rows;

pub use rows::{TwoSteps, a_row_has_one_outcome};
