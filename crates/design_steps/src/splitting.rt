ghost use Rattle.std.specs.Prelude.{◌≡◌, ◌+◌, ◌≤◌, ◌^◌, IfOk, length};
ghost use Rattle.std.specs.List.{sum};
ghost use Rattle.label_graphs.specs.Power.{edge_count};
ghost use Rattle.split_spec.specs.Chain.{split_count};
ghost use Rattle.split_spec.specs.Weighted.{IsWeighted};
ghost use Rattle.state_split.specs.Chains.{chain_data};
ghost use Rattle.state_split.specs.Views.{rounds_data};
ghost use Rattle.command_steps.specs.Promise.{Decides};
ghost use Rattle.design_steps.specs.Chains.{ChainOf, SplitsInto, weighted_sink};
ghost use Rattle.design_steps.specs.Views.{sink_data, split_design_data};

use crate::beginning::begin;
use command_steps::Status;
use constraint_model::Constraint;
use label_graphs::{Cover, Graph, SinkGraph, Weights};
use state_split::{Chain, split_all};
use std::alloc::Global;
use symbol_base::CoverName;

/// A design up to its last round of splitting.
#[derive(Debug, Drop)]
pub struct SplitDesign {
    /// The cover of the constraint.
    pub cover: Cover,
    /// How many last symbols tell the state of the cover.
    pub memory: u32,
    /// The power of the cover, an edge for each word of a block.
    pub power: Graph<CoverName>,
    /// The least bound within which there is an approximate eigenvector.
    pub bound: u32,
    /// The greatest approximate eigenvector within it.
    pub weights: Weights,
    /// The sink of least total weight, the rounds that are made of it, and the states that are
    /// kept.
    pub chain: Chain,
}

/// A design with `p` data bits for each block of `q` symbols and weights up to `bound`, up to its
/// last round (Adler, Coppersmith, Hassner 1983). It is refused only for what it begins with.
#[tactic(auto, using(steps::proofs::StepLaws::rows_alone), unfolding(crate::specs::Chains::SplitsInto))]
pub fn split(
    alloc: Global,
    constraint: &Constraint,
    p: u32,
    q: u32,
    bound: u32,
) -> Result<SplitDesign, Status>
    requires p_one { 1 ≤ p }
    requires p_eight { p ≤ 8 }
    requires q_one { 1 ≤ q }
    requires q_twenty { q ≤ 20 }
    requires bound_one { 1 ≤ bound }
    requires bound_most { bound ≤ 64 }
    ensures step { Decides split_design_data (SplitsInto constraint.now p q bound) result }
    ensures few { IfOk result (λ design. edge_count design.power ≤ 262144) }
    ensures splits { IfOk result (λ design.
        split_count (rounds_data design.chain.rounds.items) + length design.chain.sink.graph ≤ 512) }
{
    let begun = begin(alloc, constraint, p, q, bound)?;
    let chain = chain_of(alloc, begun.sink, p)?;
    Ok(SplitDesign {
        cover: begun.cover,
        memory: begun.memory,
        power: begun.power,
        bound: begun.bound,
        weights: begun.weights,
        chain,
    })
}

/// The rounds of splitting of a sink.
#[tactic(auto, using(steps::proofs::StepLaws::decide_memory))]
fn chain_of(alloc: Global, sink: SinkGraph, p: u32) -> Result<Chain, Status>
    requires p_one { 1 ≤ p }
    requires p_eight { p ≤ 8 }
    requires weighted { IsWeighted (2 ^ p) (weighted_sink (sink_data sink)) }
    requires light { sum sink.weights ≤ 512 }
    ensures step { Decides chain_data (ChainOf (2 ^ p) (sink_data sink)) result }
    ensures sink { IfOk result (λ chain. chain.sink ≡ sink) }
    ensures few { IfOk result (λ chain.
        split_count (rounds_data chain.rounds.items) + length chain.sink.graph ≤ 512) }
{
    Ok(split_all(alloc, sink, p)?)
}
