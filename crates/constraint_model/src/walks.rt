ghost use Rattle.std.specs.Prelude.{◌≢◌, ◌↔◌, [], All, IsTrue};
ghost use Rattle.constraint_spec.specs.Walk.{LabelsWalk};
ghost use Rattle.constraint_model.specs.inside.StateSet.{JoinsBelow256, AreLed};

use constraint_spec::GraphEdge;

/// A set of a graph's states: a mark for each number.
type StateSet = [bool; 256];

/// Whether the word labels some walk along the edges, where there are any.
///
/// Goes over all edges once for each symbol, with the set of the states at which a walk can end.
pub fn labels_walk(edges: &[GraphEdge], word: &[u8]) -> bool
    requires { All JoinsBelow256 edges.now }
    ensures { IsTrue result ↔ (edges.now ≢ [] → LabelsWalk edges.now word.now) }
{
    if edges.is_empty() {
        return true;
    }
    let mut ends = [true; 256];
    for symbol in word {
        let next = led(edges, &ends, *symbol);
        ends = next;
    }
    ends.contains(&true)
}

/// The states to which an edge with the label leads from a state of the set.
fn led(edges: &[GraphEdge], from: &StateSet, label: u8) -> StateSet
    requires { All JoinsBelow256 edges.now }
    ensures { AreLed edges.now from.now label result }
{
    let mut to = [false; 256];
    for edge in edges {
        if edge.label == label && from[edge.from as usize] {
            to[edge.to as usize] = true;
        }
    }
    to
}
