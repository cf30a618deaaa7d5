//! Lists in linked nodes, which are divided and joined without memory.
#![tactic(auto)]

mod node;
mod nodes;
mod raw_box;
mod rows;

pub use rows::RowList;
