ghost use Rattle.std.specs.Prelude.{◌≤◌, ◌^◌, IfOk};
ghost use Rattle.std.specs.List.{sum};
ghost use Rattle.label_graphs.specs.Power.{edge_count};
ghost use Rattle.split_spec.specs.Weighted.{IsWeighted};
ghost use Rattle.command_steps.specs.Promise.{Decides};
ghost use Rattle.design_steps.specs.Begun.{BeginsWith};
ghost use Rattle.design_steps.specs.Chains.{weighted_sink};
ghost use Rattle.design_steps.specs.Views.{sink_data};
ghost use Rattle.design_steps.specs.inside.Beginning.{begun_data};

use crate::stages::{cover_of, memory_of, power_of, sink_of, vector_of};
use command_steps::Status;
use constraint_model::Constraint;
use label_graphs::{Cover, Graph, SinkGraph, Weights};
use std::alloc::Global;
use symbol_base::CoverName;

/// What a design begins with.
#[derive(Debug, Drop)]
pub(crate) struct Begun {
    /// The cover of the constraint.
    pub cover: Cover,
    /// How many last symbols tell the state of the cover.
    pub memory: u32,
    /// The power of the cover, an edge for each word of a block.
    pub power: Graph<CoverName>,
    /// The least bound within which there is an approximate eigenvector.
    pub bound: u32,
    /// The greatest approximate eigenvector within it.
    pub weights: Weights,
    /// The sink of least total weight.
    pub sink: SinkGraph,
}

/// The beginning of a design with `p` data bits for each block of `q` symbols and weights up to
/// `bound` (Adler, Coppersmith, Hassner 1983): every status that a design is refused with comes
/// from here.
#[tactic(auto, using(steps::proofs::StepLaws::rows_alone, crate::proofs::VectorLaws::vector_is_nonzero), unfolding(crate::specs::Begun::BeginsWith))]
pub(crate) fn begin(
    alloc: Global,
    constraint: &Constraint,
    p: u32,
    q: u32,
    bound: u32,
) -> Result<Begun, Status>
    requires p_one { 1 ≤ p }
    requires p_eight { p ≤ 8 }
    requires q_one { 1 ≤ q }
    requires q_twenty { q ≤ 20 }
    requires bound_one { 1 ≤ bound }
    requires bound_most { bound ≤ 64 }
    ensures step { Decides begun_data (BeginsWith constraint.now p q bound) result }
    ensures few { IfOk result (λ begun. edge_count begun.power ≤ 262144) }
    ensures weighted { IfOk result (λ begun.
        IsWeighted (2 ^ p) (weighted_sink (sink_data begun.sink))) }
    ensures light { IfOk result (λ begun. sum begun.sink.weights ≤ 512) }
{
    let cover = cover_of(alloc, constraint)?;
    let memory = memory_of(alloc, &cover)?;
    let power = power_of(alloc, &cover, q)?;
    let (bound, weights) = vector_of(alloc, &cover, p, q, bound)?;
    let sink = sink_of(alloc, &power, &weights, 2u64.pow(p))?;
    Ok(Begun {
        cover,
        memory,
        power,
        bound,
        weights,
        sink,
    })
}
