//! The commands that design a code, each a room of its own with its words, its row of steps, and its
//! answer: `explain`.
#![tactic(auto)]

mod constraint_file;
mod explain;
mod explain_text;
mod split_text;

pub use explain::Explain;
