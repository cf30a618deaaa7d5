ghost use Rattle.std.specs.Prelude.{◌≡◌, ◌+◌, ◌↔◌, ◌<◌, ◌≤◌, ◌^◌, ℕ, All, IfOk, false, length, slice_index_or, true};
ghost use Rattle.std.specs.List.{sum};
ghost use Rattle.label_graphs.specs.Refinement.{parents_of};
ghost use Rattle.split_spec.specs.Chain.{IsChain, IsHeaviest, NeedsRound, RoundsLead, split_count};
ghost use Rattle.split_spec.specs.Weighted.{IsWeighted};
ghost use Rattle.state_split.specs.Chains.{chain_data};
ghost use Rattle.state_split.specs.Views.{rounds_data, weighted};

use crate::order::greatest;
use crate::round::{Round, round_of};
use crate::stage::{Stage, first_stage, needs_round, next_stage};
use label_graphs::{Graph, Refinement, SinkGraph, Weights, keep, marked_names};
use split_spec::{graphs_are_no_larger, rounds_are_few, rounds_keep_weights, splits_are_few};
use std::alloc::Global;
use symbol_base::{Name, NoMemory, SplitName};

/// All rounds of splitting that are made of a sink, and what is left of its states.
#[derive(Debug, Drop)]
pub struct Chain {
    pub sink: SinkGraph,
    /// The rounds, in the order in which they are made.
    pub rounds: Vec<Round>,
    /// The states of the greatest weight after the last round, in ascending order.
    pub kept: Vec<SplitName>,
    /// These states with new numbers from 0, and the edges among them.
    pub last: Graph<SplitName>,
    /// For each of them the state of the sink of which it is a part.
    pub parents: Refinement<SplitName, SplitName>,
}

/// Splits the states of a sink in rounds, until no state of the greatest weight has an edge to a
/// lighter one.
pub fn split_all(alloc: Global, sink: SinkGraph, p: u32) -> Result<Chain, NoMemory>
    requires p_one { 1 ≤ p }
    requires p_eight { p ≤ 8 }
    requires weighted { IsWeighted (2 ^ p) (weighted sink.graph sink.weights) }
    requires light { sum sink.weights ≤ 512 }
    ensures chain { IfOk result (λ chain.
        IsChain (2 ^ p) (weighted sink.graph sink.weights) (chain_data chain)) }
    ensures sink { IfOk result (λ chain. chain.sink ≡ sink) }
    ensures few { IfOk result (λ chain.
        split_count (rounds_data chain.rounds.items) + length chain.sink.graph ≤ 512) }
{
    splits_are_few();
    let (rounds, stage) = all_rounds(alloc, &sink, 1 << p)?;
    let marks = heaviest_states(alloc, &stage.weights)?;
    let kept = marked_names(alloc, &marks)?;
    let last = keep(alloc, &stage.graph, &marks)?;
    let parents = parents_of_kept(alloc, &kept, &stage.parents)?;
    Ok(Chain {
        sink,
        rounds,
        kept,
        last,
        parents,
    })
}

/// The rounds, and the graph after the last one.
fn all_rounds(alloc: Global, sink: &SinkGraph, n: u32) -> Result<(Vec<Round>, Stage), NoMemory>
    requires n_one { 1 ≤ n }
    requires n_most { n ≤ 256 }
    requires weighted { IsWeighted n (weighted sink.now.graph sink.now.weights) }
    requires light { sum sink.now.weights ≤ 512 }
    ensures rounds { IfOk result (λ made.
        RoundsLead n (weighted sink.now.graph sink.now.weights) (rounds_data made.0.items)
        (weighted made.1.graph made.1.weights) made.1.parents) }
    ensures done { IfOk result (λ made. NeedsRound (weighted made.1.graph made.1.weights) → ⊥) }
    ensures weights { IfOk result (λ made. length made.1.weights ≡ length made.1.graph) }
    ensures parents { IfOk result (λ made. length made.1.parents ≡ length made.1.graph) }
{
    rounds_keep_weights();
    rounds_are_few();
    graphs_are_no_larger();
    let mut stage = first_stage(alloc, sink)?;
    let mut rounds = Vec::new(alloc);
    while needs_round(&stage) {
        let round = round_of(alloc, &stage.graph, &stage.weights, n)?;
        stage = next_stage(alloc, &stage, &round)?;
        rounds.push(round)?;
    }
    Ok((rounds, stage))
}

/// Marks the states of the greatest weight.
fn heaviest_states(alloc: Global, weights: &Weights) -> Result<Vec<bool>, NoMemory>
    ensures size { IfOk result (λ marks. length marks.items ≡ length weights.now) }
    ensures marks { IfOk result (λ marks. (state : ℕ) → state < length weights.now
        → (slice_index_or marks.items state false ≡ true) ↔ IsHeaviest weights.now state) }
{
    let most = greatest(weights);
    let mut marks = Vec::with_capacity(alloc, weights.len() as usize)?;
    for state in 0..weights.len() {
        marks.push(weights.at(state) == most)?;
    }
    Ok(marks)
}

/// The parents of the states that are kept.
fn parents_of_kept(
    alloc: Global,
    kept: &[SplitName],
    parents: &Refinement<SplitName, SplitName>,
) -> Result<Refinement<SplitName, SplitName>, NoMemory>
    requires inside { All (λ state. state < length parents.now) kept.now }
    requires count { length kept.now < 2 ^ 32 }
    ensures { IfOk result (λ list. list ≡ parents_of parents.now kept.now) }
{
    let mut list = Vec::with_capacity(alloc, kept.len())?;
    for state in kept {
        list.push(parents.parent(*state))?;
    }
    Ok(Refinement::from_parents(list))
}
