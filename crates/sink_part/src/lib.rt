//! The irreducible sink that a design begins with, and the sum of the weights that edges lead to.
#![tactic(auto)]

mod choice;
mod leading;
mod linking;
mod parts;
mod spreading;

pub use label_graphs::SinkGraph;
pub use parts::sink;
pub use spreading::spread;
