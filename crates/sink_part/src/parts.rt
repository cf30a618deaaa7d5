ghost use Rattle.std.specs.Prelude.{◌≡◌, ◌<◌, ◌≤◌, ◌^◌, IfOk, length, map, slice_index};
ghost use Rattle.label_graphs.specs.Graph.{IsGraph};
ghost use Rattle.label_graphs.specs.Kept.{marked_states};
ghost use Rattle.label_graphs.specs.Power.{edge_count};
ghost use Rattle.label_graphs.specs.Refinement.{KeepsEdges};
ghost use Rattle.label_graphs.specs.Sink.{AreEdgesAmong, IsLeastSink};
ghost use Rattle.label_graphs.specs.Vector.{IsNonzero, MeetsInequality, target_sum};
ghost use Rattle.sink_part.specs.inside.Parts.{IsMarkedPart};

use crate::choice::lightest;
use crate::leading::all_leads;
use label_graphs::{Graph, Refinement, SinkGraph, Weights, keep, marked_names};
use std::alloc::Global;
use symbol_base::{CoverName, NoMemory};

/// The irreducible sink that a design begins with (Marcus, Roth, Siegel, chapter 2: irreducible
/// sinks; chapter 5: their use in state splitting).
///
/// A sink is a set of states of positive weight, each of which leads to each through such states,
/// and from which no edge leads to such a state outside. Of all sinks the one with the least sum of
/// weights is taken, and of equal sums the one with the least state. Where the weights meet the
/// inequality A x ≥ n x in the whole graph, those of the sink meet it in the sink alone, since each
/// edge that is left out leads to a state of weight 0.
///
/// Takes time in proportion to the edges and to the cube of the states.
pub fn sink(
    alloc: Global,
    graph: &Graph<CoverName>,
    weights: &Weights,
    n: u64,
) -> Result<SinkGraph, NoMemory>
    requires sizes { length weights.now ≡ length graph.now }
    requires nonzero { IsNonzero weights.now }
    requires inequality { MeetsInequality (target_sum graph.now) n weights.now }
    ensures least { IfOk result (λ s. IsLeastSink graph.now weights.now s.parents) }
    ensures graph { IfOk result (λ s. IsGraph s.graph) }
    ensures size { IfOk result (λ s. length s.graph ≡ length s.parents) }
    ensures edges { IfOk result (λ s. AreEdgesAmong graph.now s.parents s.graph) }
    ensures weights { IfOk result (λ s.
        s.weights ≡ map (λ state. slice_index weights.now state) s.parents) }
    ensures parents { IfOk result (λ s. KeepsEdges s.graph graph.now s.parents) }
    ensures inequality { IfOk result (λ s. MeetsInequality (target_sum s.graph) n s.weights) }
    ensures fewer { IfOk result (λ s. edge_count s.graph ≤ edge_count graph.now) }
{
    let leads = all_leads(alloc, graph, weights)?;
    match lightest(weights, &leads) {
        Some(state) => marked_part(alloc, graph, weights, leads.marks(state)),
        None => unreachable!(),
    }
}

/// The marked states with new numbers, the edges among them, their weights, and what they were.
fn marked_part(
    alloc: Global,
    graph: &Graph<CoverName>,
    weights: &Weights,
    marks: &[bool],
) -> Result<SinkGraph, NoMemory>
    requires sizes { length weights.now ≡ length graph.now }
    requires marks { length marks.now ≡ length graph.now }
    requires count { length marks.now < 2 ^ 32 }
    ensures { IfOk result (λ s.
        IsMarkedPart graph.now weights.now marks.now s.graph s.weights s.parents) }
{
    let kept = keep(alloc, graph, marks)?;
    Ok(SinkGraph {
        graph: kept.renamed(alloc)?,
        weights: marked_weights(alloc, weights, marks)?,
        parents: Refinement::from_parents(marked_names(alloc, marks)?),
    })
}

/// The weights of the marked states.
fn marked_weights(alloc: Global, weights: &Weights, marks: &[bool]) -> Result<Weights, NoMemory>
    requires { length marks.now ≡ length weights.now }
    ensures { IfOk result (λ list.
        list ≡ map (λ state. slice_index weights.now state) (marked_states marks.now)) }
{
    let mut list = Vec::new(alloc);
    for state in 0..weights.len() {
        if marks[state as usize] {
            list.push(weights.at(state))?;
        }
    }
    Ok(Weights::from_list(list))
}
