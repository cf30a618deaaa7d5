ghost use Rattle.std.specs.Prelude.{◌≡◌, ◌*◌, ◌<◌, ◌≤◌, ◌^◌, All, length, map, slice_index};
ghost use Rattle.std.specs.List.{sum};
ghost use Rattle.label_graphs.specs.Power.{edge_count};
ghost use Rattle.label_graphs.specs.Sink.{spread};
ghost use Rattle.label_graphs.specs.Views.{edge_data};

use label_graphs::{Edge, Graph, Weights};
use symbol_base::{Name, SplitName};

/// The weights of the targets of all edges, added up.
pub fn spread(graph: &Graph<SplitName>, weights: &Weights) -> u64
    requires sizes { length weights.now ≡ length graph.now }
    requires few { edge_count graph.now ≤ 2 ^ 31 }
    ensures { result ≡ spread graph.now weights.now }
{
    let mut total = 0;
    for state in 0..graph.states() {
        total += target_weight(graph.row(SplitName::at(state)), weights);
    }
    total
}

/// The weights of the targets of these edges, added up.
fn target_weight(edges: &[Edge<SplitName>], weights: &Weights) -> u64
    requires inside { All (λ edge. edge.to < length weights.now) edges.now }
    requires few { length edges.now ≤ 2 ^ 31 }
    ensures sum { result
        ≡ sum (map (λ e. slice_index weights.now e.to) (map (edge_data (λ name. name)) edges.now)) }
    ensures small { result ≤ 2 ^ 32 * length edges.now }
{
    let mut total = 0;
    for edge in edges {
        total += u64::from(weights.at(edge.to.index()));
    }
    total
}
