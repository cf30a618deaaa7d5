//! Least walks in finite graphs with labelled arcs, whose arcs are told one node at a time.
#![tactic(auto)]

mod breadth_first;
mod implicit_graph;
mod layers;
mod node_set;
mod one_length;
mod pair_graph;

pub use breadth_first::least_walk;
pub use implicit_graph::ImplicitGraph;
pub use node_set::NodeSet;
pub use one_length::least_unlike_walk;
pub use pair_graph::{Arcs, PairGraph};

/// An arc of a graph: the label under which it leads to a node.
#[derive(Clone, Copy, Debug, Drop)]
pub struct Arc {
    pub label: u32,
    pub to: usize,
}
