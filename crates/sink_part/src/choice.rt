ghost use Rattle.std.specs.Prelude.{◌≡◌, ◌<◌, ◌↔◌, ℕ, IfNone, IfSome, IsTrue, length};
ghost use Rattle.label_graphs.specs.Kept.{marked_states};
ghost use Rattle.label_graphs.specs.Sink.{total_weight};
ghost use Rattle.sink_part.specs.inside.Leads.{IsClosed, IsEnd, IsLightest};

use crate::leading::Leads;
use label_graphs::Weights;

/// A state of a sink, and the weights of that sink added up.
#[derive(Clone, Copy, Debug)]
struct Candidate {
    state: u32,
    total: u64,
}

/// The least state of the sink of the least weight. Where several sinks weigh as little, it is the
/// least state of them all. None where no state leads only to states that lead back to it.
pub fn lightest(weights: &Weights, leads: &Leads) -> Option<u32>
    requires { length weights.now ≡ length leads.now }
    ensures some { IfSome result (IsLightest weights.now leads.now (length leads.now)) }
    ensures none { IfNone result
        ((state : ℕ) → state < length leads.now → IsEnd weights.now leads.now state → ⊥) }
{
    let mut least: Option<Candidate> = None;
    for state in 0..leads.states() {
        if weights.at(state) > 0 && is_closed(leads, state) {
            let total = marked_total(weights, leads.marks(state));
            match least {
                Some(before) if before.total <= total => {}
                _ => least = Some(Candidate { state, total }),
            }
        }
    }
    least.map(|found| found.state)
}

/// Whether all states to which this one leads lead back to it.
fn is_closed(leads: &Leads, from: u32) -> bool
    requires { from < length leads.now }
    ensures { IsTrue result ↔ IsClosed leads.now from }
{
    for to in 0..leads.states() {
        if leads.leads(from, to) && !leads.leads(to, from) {
            return false;
        }
    }
    true
}

/// The weights of the marked states, added up.
#[tactic(auto, using(crate::proofs::Passing::total_more, crate::proofs::Passing::total_same))]
fn marked_total(weights: &Weights, marks: &[bool]) -> u64
    requires { length marks.now ≡ length weights.now }
    ensures { result ≡ total_weight weights.now (marked_states marks.now) }
{
    let mut total = 0;
    for state in 0..weights.len() {
        if marks[state as usize] {
            total += u64::from(weights.at(state));
        }
    }
    total
}
