ghost use Rattle.std.specs.Prelude.{◌≡◌, ◌<◌, ◌≤◌, All, IfNone, IfOk, IfSome, length};
ghost use Rattle.split_spec.specs.Round.{SplitData};
ghost use Rattle.state_split.specs.Views.{weighted};
ghost use Rattle.state_split.specs.inside.Classes.{HoldWeights};
ghost use Rattle.state_split.specs.inside.Splits.{AreSplitsBelow, IsSplitAt};

use crate::order::Classes;
use crate::run::run_of;
use label_graphs::{Edge, Graph, Weights};
use std::alloc::Global;
use std::marker::Model;
use symbol_base::{Name, NoMemory, SplitName};

/// A state that is split.
#[derive(Debug, Drop)]
pub struct Split {
    /// The state, whose number the part that takes the run keeps.
    pub state: SplitName,
    /// The edges of the run, those to the lightest targets first.
    pub run: Vec<Edge<SplitName>>,
    /// How much the part that takes the run weighs.
    pub y: u32,
}

impl Model for Split {
    ghost use Rattle.split_spec.specs.Round.{SplitData};
    ghost use Rattle.state_split.specs.Views.{edges_data};

    ghost Value = { SplitData };

    ghost view = { λ split. record { state = split.state; run = edges_data split.run.items; y = split.y } };
}

/// All splits that are made at once, by ascending states.
#[derive(Debug, Drop)]
pub struct Round {
    pub splits: Vec<Split>,
}

impl Model for Round {
    ghost use Rattle.state_split.specs.Views.{RoundData};

    ghost Value = { RoundData };

    ghost view = { λ round. record { splits = round.splits.items } };
}

/// The splits of the next round: of each state whose run weighs less than the state.
pub fn round_of(
    alloc: Global,
    graph: &Graph<SplitName>,
    weights: &Weights,
    n: u32,
) -> Result<Round, NoMemory>
    requires n_one { 1 ≤ n }
    requires n_most { n ≤ 256 }
    requires size { length weights.now ≡ length graph.now }
    requires light { All (λ weight. weight ≤ 512) weights.now }
    requires positive { All (λ weight. 0 < weight) weights.now }
    ensures { IfOk result (λ round.
        AreSplitsBelow n (weighted graph.now weights.now) (length graph.now) round.splits) }
{
    let mut room = Classes::new(alloc, weights)?;
    let mut splits = Vec::new(alloc);
    for state in 0..graph.states() {
        if let Some(split) = split_of(alloc, &mut room, graph, weights, n, SplitName::at(state))? {
            splits.push(split)?;
        }
    }
    Ok(Round { splits })
}

/// The split of a state, if it is split. One of weight 1 never is.
fn split_of(
    alloc: Global,
    room: &mut Classes,
    graph: &Graph<SplitName>,
    weights: &Weights,
    n: u32,
    state: SplitName,
) -> Result<Option<Split>, NoMemory>
    requires n_one { 1 ≤ n }
    requires n_most { n ≤ 256 }
    requires room { HoldWeights room.old weights.now }
    requires size { length weights.now ≡ length graph.now }
    requires light { All (λ weight. weight ≤ 512) weights.now }
    requires positive { All (λ weight. 0 < weight) weights.now }
    requires inside { state < length graph.now }
    ensures some { IfOk result (λ found.
        IfSome found (IsSplitAt n (weighted graph.now weights.now) state)) }
    ensures none { IfOk result (λ found. IfNone found ((split : SplitData)
        → IsSplitAt n (weighted graph.now weights.now) state split → ⊥)) }
    ensures size { length room.new ≡ length room.old }
{
    let weight = weights.at(state.index());
    let row = graph.row(state);
    if weight < 2 {
        return Ok(None);
    }
    match run_of(alloc, room, row, weights, n)? {
        Some(run) if run.y < weight => Ok(Some(Split {
            state,
            run: run.edges,
            y: run.y,
        })),
        _ => Ok(None),
    }
}
