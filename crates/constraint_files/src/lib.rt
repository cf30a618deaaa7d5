//! Constraint files, and the texts of constraints.
#![tactic(auto)]

mod build;
mod checks;
mod names;
mod parts;
mod read;
mod text;
mod values;

pub use constraint_file_spec::{ConstraintFault, Key};
pub use read::read_constraint;
pub use text::{constraint_text, write_constraint, write_digit};
