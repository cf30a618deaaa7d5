ghost use Rattle.std.specs.Prelude.{◌≡◌, ◌≤◌, ◌^◌, IfNone, IfOk, IfSome, List, length};
ghost use Rattle.std.specs.List.{sum};
ghost use Rattle.label_graphs.specs.Graph.{EdgeData};
ghost use Rattle.label_graphs.specs.Power.{IsPower, edge_count};
ghost use Rattle.label_graphs.specs.Vector.{IsNonzero, MeetsInequality, target_sum};
ghost use Rattle.split_spec.specs.Weighted.{IsWeighted};
ghost use Rattle.command_steps.specs.Promise.{Decides};
ghost use Rattle.design_steps.specs.Covers.{CoverOf};
ghost use Rattle.design_steps.specs.Memories.{MemoryOf};
ghost use Rattle.design_steps.specs.Powers.{PowerOf};
ghost use Rattle.design_steps.specs.Vectors.{HasNoVector, IsLeastVector, VectorOf};
ghost use Rattle.design_steps.specs.Sinks.{FindsSink, NeedsWeight, NeedsSpread, SinkOf};
ghost use Rattle.design_steps.specs.Chains.{weighted_sink};
ghost use Rattle.design_steps.specs.Views.{sink_data};
ghost use Rattle.design_steps.specs.inside.Beginning.{vector_data};

use command_steps::{Limit, Status};
use constraint_model::Constraint;
use franaszek::least_bound;
use graph_power::{PowerFault, counts, power};
use label_graphs::{Cover, Graph, SinkGraph, Weights};
use min_cover::{CoverFault, MemoryFault, cover, memory};
use sink_part::{sink, spread};
use std::alloc::Global;
use symbol_base::{CoverName, NoMemory};

/// How much the states of a sink may weigh together.
const MOST_WEIGHT: u64 = 512;

/// How much the targets of a sink's edges may weigh together.
const MOST_SPREAD: u64 = 262_144;

/// The cover of a constraint, within the limits of covers.
#[tactic(auto, using(crate::proofs::CoverLaws::covers, steps::specs::Decides::memory_alone))]
pub fn cover_of(alloc: Global, constraint: &Constraint) -> Result<Cover, Status>
    ensures { Decides (λ cover. cover) (CoverOf constraint.now) result }
{
    match cover(alloc, constraint) {
        Ok(cover) => Ok(cover),
        Err(CoverFault::RawStates(count)) => Err(Status::TooLarge(Limit::RawStates(count))),
        Err(CoverFault::CoverStates(count)) => Err(Status::TooLarge(Limit::CoverStates(count))),
        Err(CoverFault::NoMemory) => Err(Status::NoMemory),
    }
}

/// The memory of a cover, within its limit.
#[tactic(auto, using(crate::proofs::MemoryLaws::memories, steps::specs::Decides::memory_alone))]
pub fn memory_of(alloc: Global, cover: &Cover) -> Result<u32, Status>
    ensures { Decides (λ n. n) (MemoryOf cover.now.graph) result }
{
    match memory(alloc, cover) {
        Ok(length) => Ok(length),
        Err(MemoryFault::Infinite(two)) => Err(Status::InfiniteMemory(two)),
        Err(MemoryFault::TooLong(length)) => Err(Status::TooLarge(Limit::MemoryTooLong(length))),
        Err(MemoryFault::NoMemory) => Err(Status::NoMemory),
    }
}

/// The power of a cover, within its limit.
#[tactic(auto, using(crate::proofs::PowerLaws::powers, steps::specs::Decides::memory_alone))]
pub fn power_of(alloc: Global, cover: &Cover, q: u32) -> Result<Graph<CoverName>, Status>
    requires one { 1 ≤ q }
    requires twenty { q ≤ 20 }
    ensures step { Decides (λ rows. rows) (PowerOf cover.now q) result }
    ensures power { IfOk result (λ rows. IsPower cover.now q rows) }
    ensures few { IfOk result (λ rows. edge_count rows ≤ 262144) }
{
    match power(alloc, cover, q) {
        Ok(rows) => Ok(rows),
        Err(PowerFault::PowerEdges(count)) => Err(Status::TooLarge(Limit::PowerEdges(count))),
        Err(PowerFault::NoMemory) => Err(Status::NoMemory),
    }
}

/// The least bound with an approximate eigenvector of the power of a cover, and the greatest within
/// it.
#[tactic(auto, using(crate::proofs::VectorLaws::vectors, steps::specs::Decides::memory_alone))]
pub fn vector_of(
    alloc: Global,
    cover: &Cover,
    p: u32,
    q: u32,
    bound: u32,
) -> Result<(u32, Weights), Status>
    requires p_one { 1 ≤ p }
    requires p_eight { p ≤ 8 }
    requires q_one { 1 ≤ q }
    requires q_twenty { q ≤ 20 }
    requires bound_one { 1 ≤ bound }
    requires bound_most { bound ≤ 64 }
    ensures step { (power : List (List EdgeData)) → IsPower cover.now q power
        → Decides vector_data (VectorOf power (2 ^ p) bound) result }
    ensures least { (power : List (List EdgeData)) → IsPower cover.now q power
        → IfOk result (λ vector. IsLeastVector power (2 ^ p) bound (vector_data vector)) }
{
    match least_vector(alloc, cover, q, 2u64.pow(p), bound) {
        Ok(Some(vector)) => Ok(vector),
        Ok(None) => Err(Status::NoVector),
        Err(NoMemory) => Err(Status::NoMemory),
    }
}

/// The least bound with an approximate eigenvector, and the greatest within it, if there is one.
fn least_vector(
    alloc: Global,
    cover: &Cover,
    q: u32,
    n: u64,
    bound: u32,
) -> Result<Option<(u32, Weights)>, NoMemory>
    requires n_two { 2 ≤ n }
    requires n_most { n ≤ 256 }
    requires q_one { 1 ≤ q }
    requires q_twenty { q ≤ 20 }
    requires bound_one { 1 ≤ bound }
    requires bound_most { bound ≤ 64 }
    ensures least { (power : List (List EdgeData)) → IsPower cover.now q power
        → IfOk result (λ found.
        IfSome found (λ vector. IsLeastVector power n bound (vector_data vector))) }
    ensures none { (power : List (List EdgeData)) → IsPower cover.now q power
        → IfOk result (λ found. IfNone found (HasNoVector power n bound)) }
{
    let matrix = counts(alloc, cover, q)?;
    least_bound(alloc, &matrix, n, bound)
}

/// The sink of a power with weights, within its limits.
#[tactic(auto, using(steps::proofs::StepLaws::rows_alone), unfolding(crate::specs::Sinks::SinkOf))]
pub fn sink_of(
    alloc: Global,
    power: &Graph<CoverName>,
    weights: &Weights,
    n: u64,
) -> Result<SinkGraph, Status>
    requires size { length weights.now ≡ length power.now }
    requires nonzero { IsNonzero weights.now }
    requires inequality { MeetsInequality (target_sum power.now) n weights.now }
    requires few { edge_count power.now ≤ 262144 }
    ensures step { Decides sink_data (SinkOf power.now weights.now) result }
    ensures weighted { IfOk result (λ sink. IsWeighted n (weighted_sink (sink_data sink))) }
    ensures light { IfOk result (λ sink. sum sink.weights ≤ 512) }
{
    let sink = found_sink(alloc, power, weights, n)?;
    test_weight(&sink)?;
    test_spread(&sink)?;
    Ok(sink)
}

#[tactic(auto, using(crate::proofs::SinkLaws::sink_is_found, steps::proofs::StepLaws::decide_memory))]
fn found_sink(
    alloc: Global,
    power: &Graph<CoverName>,
    weights: &Weights,
    n: u64,
) -> Result<SinkGraph, Status>
    requires size { length weights.now ≡ length power.now }
    requires nonzero { IsNonzero weights.now }
    requires inequality { MeetsInequality (target_sum power.now) n weights.now }
    requires few { edge_count power.now ≤ 262144 }
    ensures step { Decides sink_data (FindsSink power.now weights.now) result }
    ensures weighted { IfOk result (λ sink. IsWeighted n (weighted_sink (sink_data sink))) }
    ensures size { IfOk result (λ sink. length sink.weights ≡ length sink.graph) }
    ensures few { IfOk result (λ sink. edge_count sink.graph ≤ 262144) }
{
    Ok(sink(alloc, power, weights, n)?)
}

/// Refuses a sink whose states weigh too much.
fn test_weight(sink: &SinkGraph) -> Result<(), Status>
    ensures step { Decides (λ done. done) (NeedsWeight (sink_data sink.now)) result }
    ensures light { IfOk result (λ done. sum sink.now.weights ≤ 512) }
{
    let total = sink.weights.total();
    if total > MOST_WEIGHT {
        return Err(Status::TooLarge(Limit::Weight(total)));
    }
    Ok(())
}

/// Refuses a sink whose edges lead to too much.
fn test_spread(sink: &SinkGraph) -> Result<(), Status>
    requires size { length sink.now.weights ≡ length sink.now.graph }
    requires few { edge_count sink.now.graph ≤ 262144 }
    ensures { Decides (λ done. done) (NeedsSpread (sink_data sink.now)) result }
{
    let total = spread(&sink.graph, &sink.weights);
    if total > MOST_SPREAD {
        return Err(Status::TooLarge(Limit::Spread(total)));
    }
    Ok(())
}
