//! The design of a code up to its last round of splitting: a row of steps, each with the status
//! that it is refused with.
#![tactic(auto)]

mod beginning;
mod edges;
mod splitting;
mod stages;

pub use edges::count_edges;
pub use splitting::{SplitDesign, split};
