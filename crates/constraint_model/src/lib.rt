//! Constraints on words of channel symbols, and the test whether a word belongs to one.
#![tactic(auto)]

mod constraint;
mod forbidden;
mod walks;
mod words;

pub use constraint::Constraint;
pub use constraint_spec::GraphEdge;
pub use words::has_word;
