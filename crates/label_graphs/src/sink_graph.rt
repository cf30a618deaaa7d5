//! What states are split in.

use crate::{Graph, Refinement, Weights};
use symbol_base::{CoverName, SplitName};

/// A sink of a graph, as a graph of its own.
#[derive(Debug, Drop)]
pub struct SinkGraph {
    /// The states of the sink in ascending order, with new numbers from 0, and the edges among
    /// them.
    pub graph: Graph<SplitName>,
    /// The weights of these states.
    pub weights: Weights,
    /// For each of them the state of the whole graph that it is.
    pub parents: Refinement<SplitName, CoverName>,
}
