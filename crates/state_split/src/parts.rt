ghost use Rattle.std.specs.Prelude.{◌≡◌, ◌↔◌, ◌+◌, ◌<◌, ◌^◌, All, Contains, IfOk, IsTrue, List, length, slice_index};
ghost use Rattle.symbol_base.specs.Ascending.{IsAscending};
ghost use Rattle.label_graphs.specs.Graph.{EdgeData, IsEdgeBefore};
ghost use Rattle.label_graphs.specs.Views.{edge_data};
ghost use Rattle.split_spec.specs.Run.{IsLighter};
ghost use Rattle.state_split.specs.Views.{edges_data};
ghost use Rattle.state_split.specs.inside.Parts.{AreSecondParts, AreSplitsOf, ArePartWeights, ArePicked, IsTakenBy, part_parents};
ghost use Rattle.state_split.specs.inside.Splits.{HasRun};

use crate::round::Split;
use label_graphs::{Edge, Refinement, Weights};
use std::alloc::Global;
use symbol_base::{Name, NoMemory, SplitName};

/// The two parts of a state that is split.
#[derive(Clone, Copy, Debug)]
pub enum Part {
    /// The part that takes the edges of the run.
    First,
    /// The part that takes the other edges.
    Second,
}

/// For each state the number of its second part, where it is split.
pub fn second_parts(
    alloc: Global,
    states: u32,
    splits: &[Split],
) -> Result<Vec<Option<SplitName>>, NoMemory>
    requires splits { AreSplitsOf states splits.now }
    requires count { states + length splits.now < 2 ^ 32 }
    ensures parts { IfOk result (λ parts. AreSecondParts splits.now parts.items) }
    ensures size { IfOk result (λ parts. length parts.items ≡ states) }
{
    let mut parts = vec![in alloc; None; states as usize]?;
    let mut next = states;
    for split in splits {
        parts[split.state.index() as usize] = Some(SplitName::at(next));
        next += 1;
    }
    Ok(parts)
}

/// The parent of each part: a state's own number for the first part, and then the states that are
/// split.
pub fn parents_of_parts(
    alloc: Global,
    states: u32,
    splits: &[Split],
) -> Result<Refinement<SplitName, SplitName>, NoMemory>
    requires { states + length splits.now < 2 ^ 32 }
    ensures { IfOk result (λ parents. parents ≡ part_parents states splits.now) }
{
    let mut parents = Vec::with_capacity(alloc, states as usize + splits.len())?;
    for state in 0..states {
        parents.push(SplitName::at(state))?;
    }
    for split in splits {
        parents.push(split.state)?;
    }
    Ok(Refinement::from_parents(parents))
}

/// The weight of each part.
pub fn weights_of_parts(
    alloc: Global,
    weights: &Weights,
    splits: &[Split],
) -> Result<Weights, NoMemory>
    requires splits { AreSplitsOf (length weights.now) splits.now }
    requires lighter { All (λ split. split.y < slice_index weights.now split.state) splits.now }
    requires count { length weights.now + length splits.now < 2 ^ 32 }
    ensures { IfOk result (λ list. ArePartWeights weights.now splits.now list) }
{
    let states = weights.len() as usize;
    let mut list = Vec::with_capacity(alloc, states + splits.len())?;
    for state in 0..weights.len() {
        list.push(weights.at(state))?;
    }
    for split in splits {
        let at = split.state.index() as usize;
        let rest = list[at] - split.y;
        list[at] = split.y;
        list.push(rest)?;
    }
    Ok(Weights::from_list(list))
}

/// The edges of a state's row that a part of it takes, in the row's order.
pub fn edges_of_part(
    alloc: Global,
    row: &[Edge<SplitName>],
    weights: &Weights,
    split: &Split,
    part: Part,
) -> Result<Vec<Edge<SplitName>>, NoMemory>
    requires inside { All (λ edge. edge.to < length weights.now) row.now }
    requires order { IsAscending IsEdgeBefore (edges_data row.now) }
    requires run { HasRun weights.now (edges_data row.now) split.now }
    ensures { IfOk result (λ edges.
        ArePicked (edges_data row.now) (IsTakenBy part split.now.run) (edges_data edges.items)) }
{
    let mut edges = Vec::with_capacity(alloc, row.len())?;
    for edge in row {
        if takes(part, edge, weights, split) {
            edges.push(*edge)?;
        }
    }
    Ok(edges)
}

/// Whether a part takes an edge of the state that is split.
fn takes(part: Part, edge: &Edge<SplitName>, weights: &Weights, split: &Split) -> bool
    requires inside { edge.now.to < length weights.now }
    requires run_inside { All (λ e. e.to < length weights.now) split.now.run }
    ensures { (row : List EdgeData) → HasRun weights.now row split.now
        → Contains row (edge_data (λ name. name) edge.now)
        → IsTrue result ↔ IsTakenBy part split.now.run (edge_data (λ name. name) edge.now) }
{
    match part {
        Part::First => is_in_run(edge, weights, split),
        Part::Second => !is_in_run(edge, weights, split),
    }
}

/// Whether an edge of the state that is split is of its run: the run's edges stand one behind the
/// other in the order by weight.
fn is_in_run(edge: &Edge<SplitName>, weights: &Weights, split: &Split) -> bool
    requires inside { edge.now.to < length weights.now }
    requires run_inside { All (λ e. e.to < length weights.now) split.now.run }
    ensures { (row : List EdgeData) → HasRun weights.now row split.now
        → Contains row (edge_data (λ name. name) edge.now)
        → IsTrue result ↔ Contains split.now.run (edge_data (λ name. name) edge.now) }
{
    match (split.run.first(), split.run.last()) {
        (Some(first), Some(last)) => {
            !is_lighter(edge, first, weights) && !is_lighter(last, edge, weights)
        }
        _ => false,
    }
}

/// Whether the first edge leads to a lighter target, or to one as light and stands before the
/// second.
fn is_lighter(edge: &Edge<SplitName>, other: &Edge<SplitName>, weights: &Weights) -> bool
    requires inside { edge.now.to < length weights.now }
    requires other_inside { other.now.to < length weights.now }
    ensures { IsTrue result
        ↔ IsLighter weights.now (edge_data (λ name. name) edge.now)
        (edge_data (λ name. name) other.now) }
{
    let weight = weights.at(edge.to.index());
    let other_weight = weights.at(other.to.index());
    weight < other_weight || (weight == other_weight && is_before(edge, other))
}

/// By block, then by target.
pub fn is_before(edge: &Edge<SplitName>, other: &Edge<SplitName>) -> bool
    ensures { IsTrue result
        ↔ IsEdgeBefore (edge_data (λ name. name) edge.now) (edge_data (λ name. name) other.now) }
{
    edge.block.value < other.block.value
        || (edge.block.value == other.block.value && edge.to.index() < other.to.index())
}
