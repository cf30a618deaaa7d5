ghost use Rattle.std.specs.Prelude.{◌≡◌, ℕ, ◌<◌, ◌≤◌, ◌↔◌, length, IsTrue, IfOk};
ghost use Rattle.least_walks.specs.PairGraph.{LeadsInto, IsTarget};
ghost use Rattle.least_walks.specs.NodeSet.{IsIn};

use crate::implicit_graph::ImplicitGraph;
use crate::node_set::NodeSet;
use std::alloc::Global;
use symbol_base::NoMemory;

/// Which arcs are meant.
#[derive(Clone, Copy, Debug, PartialEq, Eq)]
pub enum Arcs {
    /// All arcs.
    All,
    /// Those whose labels stand for two unlike words.
    Unlike,
}

/// An implicit graph whose labels stand for two words each, and which tells where arcs lead without
/// telling the arcs.
pub trait PairGraph: ImplicitGraph {
    ghost words: { Self → ℕ };

    /// How many words there are: a label is the first word times this, and the second one.
    fn word_count(&self) -> u32
        ensures count { result ≡ words self.now }
        ensures some { 0 < result };

    /// A set that holds each node that some arc leads to.
    fn targets(&self, alloc: Global) -> Result<NodeSet, NoMemory>
        ensures room { IfOk result (λ set. (Self.graph self.now).nodes ≤ length set) }
        ensures inside { (node : ℕ) → IsTarget (Self.graph self.now) node
            → node < (Self.graph self.now).nodes }
        ensures targets { IfOk result
            (λ set. (node : ℕ) → IsTarget (Self.graph self.now) node → IsIn set node) };

    /// Whether some of the arcs that are meant leads from the node into the set.
    fn leads_into(&self, node: usize, arcs: Arcs, set: &NodeSet) -> bool
        requires node { node < (Self.graph self.now).nodes }
        requires room { (Self.graph self.now).nodes ≤ length set.now }
        ensures leads { IsTrue result
            ↔ LeadsInto (Self.graph self.now) (words self.now) arcs node set.now };
}
