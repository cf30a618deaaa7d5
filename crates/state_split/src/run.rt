ghost use Rattle.std.specs.Prelude.{◌≡◌, ℕ, ◌<◌, ◌≤◌, All, IfNone, IfOk, IfSome, List, length};
ghost use Rattle.symbol_base.specs.Ascending.{IsAscending};
ghost use Rattle.label_graphs.specs.Graph.{EdgeData, IsEdgeBefore};
ghost use Rattle.split_spec.specs.Run.{IsLightestFirst, IsRun, weight_of};
ghost use Rattle.state_split.specs.Views.{edges_data};
ghost use Rattle.state_split.specs.inside.Agreeing.{IsFirstAgreeing, NoneAgree};
ghost use Rattle.state_split.specs.inside.Classes.{HoldWeights};

use crate::order::Classes;
use label_graphs::{Edge, Weights};
use std::alloc::Global;
use symbol_base::{Name, NoMemory, SplitName};

/// The run of a row and the weight of the part that takes it.
#[derive(Debug, Drop)]
pub struct Run {
    pub edges: Vec<Edge<SplitName>>,
    pub y: u32,
}

/// Which edges of a row are the run, of those in order: from one place up to before another.
#[derive(Clone, Copy, Debug)]
struct Place {
    from: usize,
    to: usize,
}

/// The run of a row, if it has one.
pub fn run_of(
    alloc: Global,
    room: &mut Classes,
    row: &[Edge<SplitName>],
    weights: &Weights,
    n: u32,
) -> Result<Option<Run>, NoMemory>
    requires n_one { 1 ≤ n }
    requires n_most { n ≤ 256 }
    requires room { HoldWeights room.old weights.now }
    requires light { All (λ weight. weight ≤ 512) weights.now }
    requires order { IsAscending IsEdgeBefore (edges_data row.now) }
    requires inside { All (λ edge. edge.to < length weights.now) row.now }
    ensures some { IfOk result (λ found. IfSome found (λ run.
        IsRun n weights.now (edges_data row.now) (edges_data run.edges.items) run.y)) }
    ensures none { IfOk result (λ found. IfNone found ((run : List EdgeData) (y : ℕ)
        → IsRun n weights.now (edges_data row.now) run y → ⊥)) }
    ensures size { length room.new ≡ length room.old }
{
    let ordered = room.lightest_first(row, weights, alloc)?;
    match first_agreeing(&ordered, weights, n) {
        Some(place) => Ok(Some(run_at(alloc, &ordered, weights, n, place)?)),
        None => Ok(None),
    }
}

/// The edges at a place, whose weight is n times y.
fn run_at(
    alloc: Global,
    ordered: &[Edge<SplitName>],
    weights: &Weights,
    n: u32,
    place: Place,
) -> Result<Run, NoMemory>
    requires n_one { 1 ≤ n }
    requires n_most { n ≤ 256 }
    requires light { All (λ weight. weight ≤ 512) weights.now }
    requires inside { All (λ edge. edge.to < length weights.now) ordered.now }
    requires place { IsFirstAgreeing n weights.now (edges_data ordered.now) place.from place.to }
    ensures { (row : List EdgeData) → IsLightestFirst weights.now row (edges_data ordered.now)
        → IfOk result (λ run. IsRun n weights.now row (edges_data run.edges.items) run.y) }
{
    let edges = &ordered[place.from..place.to];
    let y = target_weight(edges, weights) / n;
    Ok(Run {
        edges: copy_edges(alloc, edges)?,
        y,
    })
}

/// The same edges, in a list of their own.
fn copy_edges(alloc: Global, edges: &[Edge<SplitName>]) -> Result<Vec<Edge<SplitName>>, NoMemory>
    ensures { IfOk result (λ copy. copy.items ≡ edges.now) }
{
    let mut copy = Vec::with_capacity(alloc, edges.len())?;
    copy.extend_from_slice(edges)?;
    Ok(copy)
}

/// The first two sums of weights that agree modulo n, within the first n edges.
fn first_agreeing(ordered: &[Edge<SplitName>], weights: &Weights, n: u32) -> Option<Place>
    requires n_one { 1 ≤ n }
    requires n_most { n ≤ 256 }
    requires light { All (λ weight. weight ≤ 512) weights.now }
    requires inside { All (λ edge. edge.to < length weights.now) ordered.now }
    ensures some { IfSome result (λ place.
        IsFirstAgreeing n weights.now (edges_data ordered.now) place.from place.to) }
    ensures none { IfNone result (NoneAgree n weights.now (edges_data ordered.now)) }
{
    let mut seen = [None; 256];
    seen[0] = Some(0);
    let mut residue = 0;
    for at in 0..ordered.len().min(n as usize) {
        residue = (residue + weights.at(ordered[at].to.index())) % n;
        if let Some(from) = seen[residue as usize] {
            return Some(Place { from, to: at + 1 });
        }
        seen[residue as usize] = Some(at + 1);
    }
    None
}

/// The weights of the targets of these edges, added up.
fn target_weight(edges: &[Edge<SplitName>], weights: &Weights) -> u32
    requires light { All (λ weight. weight ≤ 512) weights.now }
    requires inside { All (λ edge. edge.to < length weights.now) edges.now }
    requires few { length edges.now ≤ 256 }
    ensures sum { result ≡ weight_of weights.now (edges_data edges.now) }
{
    let mut total = 0;
    for edge in edges {
        total += weights.at(edge.to.index());
    }
    total
}
