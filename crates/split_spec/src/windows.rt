ghost use Rattle.std.specs.Prelude.{◌≡◌, ℕ, ◌+◌, ◌*◌, ◌<◌, ◌≤◌, List, length};
ghost use Rattle.symbol_base.specs.Ascending.{IsAscending};
ghost use Rattle.label_graphs.specs.Graph.{EdgeData, HasEdge, IsGraph};
ghost use Rattle.label_graphs.specs.Cover.{CoverData, KeepsSymbols};
ghost use Rattle.label_graphs.specs.Memory.{IsMemory};
ghost use Rattle.label_graphs.specs.Power.{IsPower};
ghost use Rattle.label_graphs.specs.Refinement.{DividesEdges, KeepsEdges};
ghost use Rattle.label_graphs.specs.Sink.{AreEdgesAmong};
ghost use Rattle.split_spec.specs.Weighted.{IsWeighted, WeightedData};
ghost use Rattle.split_spec.specs.Round.{SplitData};
ghost use Rattle.split_spec.specs.Chain.{RoundsLead};
ghost use Rattle.split_spec.specs.Window.{HasWindow};

use crate::rounds::{a_round_divides_edges, a_round_keeps_weights};
use label_graphs::{Graph, Refinement};
use symbol_base::Name;

/// In a part of a cover's power the next edge is told by its block and the blocks before it that
/// hold as many symbols as the memory of the cover.
pub fn a_sink_has_the_window_of_its_memory()
    ensures { (cover : CoverData) (q n a : ℕ) (power rows : List (List EdgeData)) (states : List ℕ)
        → KeepsSymbols cover
        → IsPower cover q power → IsMemory (length cover.graph) (HasEdge cover.graph) n → n ≤ q * a
        → IsAscending (λ s t. s < t) states → IsGraph rows → length rows ≡ length states
        → AreEdgesAmong power states rows → HasWindow rows a 0 }
{}

/// Where each edge of a graph leaves one part of its source and leads to each part of its target,
/// the edge of the finer graph is told by one block more: it is fixed by two successive edges of
/// the coarser one.
pub fn a_round_looks_ahead<F: Name, C: Name>(
    coarse: &Graph<C>,
    fine: &Graph<F>,
    parents: &Refinement<F, C>,
    past: u32,
    ahead: u32,
)
    requires window { HasWindow coarse.now past ahead }
    requires size { length parents.now ≡ length fine.now }
    requires keeps { KeepsEdges fine.now coarse.now parents.now }
    requires divides { DividesEdges fine.now coarse.now parents.now }
    ensures { HasWindow fine.now past (ahead + 1) }
{}

/// Each round of a chain takes one block more.
pub fn rounds_look_ahead()
    ensures { (n a r : ℕ) (g h : WeightedData) (rounds : List (List SplitData)) (parents : List ℕ)
        → 1 ≤ n
        → IsWeighted n g → RoundsLead n g rounds h parents → HasWindow g.rows a r
        → HasWindow h.rows a (r + length rounds) }
{
    a_round_keeps_weights();
    a_round_divides_edges();
}
