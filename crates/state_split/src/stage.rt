ghost use Rattle.std.specs.Prelude.{◌≡◌, ◌↔◌, ◌+◌, ◌<◌, ◌^◌, All, Contains, IfOk, IsTrue, List, length, slice_index, ℕ};
ghost use Rattle.std.specs.List.{range_with_len};
ghost use Rattle.label_graphs.specs.Graph.{EdgeData};
ghost use Rattle.label_graphs.specs.Refinement.{parents_of};
ghost use Rattle.split_spec.specs.Chain.{NeedsRound};
ghost use Rattle.split_spec.specs.Round.{IsRound};
ghost use Rattle.state_split.specs.Views.{edges_data, weighted};
ghost use Rattle.state_split.specs.inside.Splits.{AreSplitsBelow, HasSplits};

use crate::order::greatest;
use crate::parts::{parents_of_parts, second_parts, weights_of_parts};
use crate::round::Round;
use crate::rows::graph_of_parts;
use label_graphs::{Edge, Graph, Refinement, SinkGraph, Weights, compose};
use std::alloc::Global;
use symbol_base::{Name, NoMemory, SplitName};

/// A graph between two rounds, with the states of the sink of which its states are parts.
#[derive(Debug, Drop)]
pub struct Stage {
    pub graph: Graph<SplitName>,
    pub weights: Weights,
    pub parents: Refinement<SplitName, SplitName>,
}

/// The sink, before the first round.
#[tactic(auto, using(crate::proofs::PartNumbers::parents_of_whole))]
pub fn first_stage(alloc: Global, sink: &SinkGraph) -> Result<Stage, NoMemory>
    requires { length sink.now.weights ≡ length sink.now.graph }
    ensures graph { IfOk result (λ stage. stage.graph ≡ sink.now.graph) }
    ensures weights { IfOk result (λ stage. stage.weights ≡ sink.now.weights) }
    ensures parents { IfOk result (λ stage.
        stage.parents ≡ range_with_len 0 (length sink.now.graph)) }
{
    Ok(Stage {
        graph: sink.graph.renamed(alloc)?,
        weights: copy_weights(alloc, &sink.weights)?,
        parents: parents_of_parts(alloc, sink.graph.states(), &[])?,
    })
}

fn copy_weights(alloc: Global, weights: &Weights) -> Result<Weights, NoMemory>
    ensures { IfOk result (λ copy. copy ≡ weights.now) }
{
    let mut list = Vec::with_capacity(alloc, weights.len() as usize)?;
    for state in 0..weights.len() {
        list.push(weights.at(state))?;
    }
    Ok(Weights::from_list(list))
}

/// Whether a state of the greatest weight has an edge to a lighter one.
pub fn needs_round(stage: &Stage) -> bool
    requires { length stage.now.weights ≡ length stage.now.graph }
    ensures { IsTrue result ↔ NeedsRound (weighted stage.now.graph stage.now.weights) }
{
    let most = greatest(&stage.weights);
    for state in 0..stage.graph.states() {
        if stage.weights.at(state) == most
            && leads_lower(stage.graph.row(SplitName::at(state)), &stage.weights, most)
        {
            return true;
        }
    }
    false
}

/// Whether one of the edges leads to a state that weighs less than this.
fn leads_lower(edges: &[Edge<SplitName>], weights: &Weights, most: u32) -> bool
    requires inside { All (λ edge. edge.to < length weights.now) edges.now }
    ensures { IsTrue result
        ↔ (edge : EdgeData) × Contains (edges_data edges.now) edge
        × (slice_index weights.now edge.to < most) }
{
    for edge in edges {
        if weights.at(edge.to.index()) < most {
            return true;
        }
    }
    false
}

/// The next stage, after a round.
pub fn next_stage(alloc: Global, stage: &Stage, round: &Round) -> Result<Stage, NoMemory>
    requires size { length stage.now.weights ≡ length stage.now.graph }
    requires parents { length stage.now.parents ≡ length stage.now.graph }
    requires splits { HasSplits (weighted stage.now.graph stage.now.weights) round.now.splits }
    requires count { length stage.now.graph + length round.now.splits < 2 ^ 32 }
    ensures { (n : ℕ)
        → AreSplitsBelow n (weighted stage.now.graph stage.now.weights) (length stage.now.graph)
        round.now.splits
        → IfOk result (λ next. (parents : List ℕ)
        × IsRound n (weighted stage.now.graph stage.now.weights) round.now.splits
        (weighted next.graph next.weights) parents
        × (next.parents ≡ parents_of stage.now.parents parents)) }
{
    let next = divided(alloc, &stage.graph, &stage.weights, round)?;
    let parents = compose(alloc, &next.parents, &stage.parents)?;
    Ok(Stage {
        graph: next.graph,
        weights: next.weights,
        parents,
    })
}

/// The graph that a round makes of a graph; the parents are the states of the graph before it.
fn divided(
    alloc: Global,
    graph: &Graph<SplitName>,
    weights: &Weights,
    round: &Round,
) -> Result<Stage, NoMemory>
    requires size { length weights.now ≡ length graph.now }
    requires splits { HasSplits (weighted graph.now weights.now) round.now.splits }
    requires count { length graph.now + length round.now.splits < 2 ^ 32 }
    ensures { (n : ℕ)
        → AreSplitsBelow n (weighted graph.now weights.now) (length graph.now)
        round.now.splits
        → IfOk result (λ next.
        IsRound n (weighted graph.now weights.now) round.now.splits
        (weighted next.graph next.weights) next.parents) }
{
    let parts = second_parts(alloc, graph.states(), &round.splits)?;
    Ok(Stage {
        graph: graph_of_parts(alloc, graph, weights, &round.splits, &parts)?,
        weights: weights_of_parts(alloc, weights, &round.splits)?,
        parents: parents_of_parts(alloc, graph.states(), &round.splits)?,
    })
}
