ghost use Rattle.std.specs.Prelude.{◌≡◌, ◌<◌, IfOk};
ghost use Rattle.least_walks.specs.Graph.{Graph, AreArcsOf};

use crate::Arc;
use symbol_base::NoMemory;

/// A graph that tells the arcs of one node at a time, and so need not stand in memory.
pub trait ImplicitGraph {
    ghost graph: { Self → Graph };

    /// How many nodes there are.
    fn node_count(&self) -> usize
        ensures count { result ≡ (graph self.now).nodes };

    /// Puts the arcs of the node into the room, by ascending label, in place of what is there.
    fn arcs_of(&self, node: usize, room: &mut Vec<Arc>) -> Result<(), NoMemory>
        requires node { node < (graph self.now).nodes }
        ensures arcs { IfOk result (λ _. AreArcsOf (graph self.now) node room.new.items) };
}
