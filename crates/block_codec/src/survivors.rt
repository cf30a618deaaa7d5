ghost use Rattle.std.specs.Prelude.{◌<◌, ◌^◌};

use crate::arc_table::{ArcTable, STATES};
use code_model::Code;
use std::alloc::Global;
use symbol_base::{Block, NoMemory};

/// A step of a walk: the state that it leaves, and its data word.
#[derive(Clone, Copy, Debug)]
pub(crate) struct Step {
    pub(crate) state: u16,
    pub(crate) word: u8,
}

/// The states to which some walk leads that writes all blocks since a start, and for each of the
/// last blocks and each state that was reached behind it the last step of such a walk (as in the
/// Viterbi algorithm: survivors).
///
/// Nothing is promised of what stands here: who takes a step from it tests the step by the code.
#[derive(Debug, Drop)]
pub(crate) struct Survivors {
    table: ArcTable,
    states: Vec<u16>,
    count: u16,
    reached: Vec<u16>,
    found: u16,
    marks: Vec<bool>,
    steps: Vec<Step>,
    layer: u16,
    layers: u16,
}

impl Survivors {
    /// All states, with room for the steps of so many blocks.
    pub(crate) fn for_code(alloc: Global, code: &Code, layers: u16) -> Result<Survivors, NoMemory> {
        let table = ArcTable::for_code(alloc, code)?;
        let states = vec![in alloc; 0u16; STATES]?;
        let reached = vec![in alloc; 0u16; STATES]?;
        let marks = vec![in alloc; false; STATES]?;
        let steps = vec![in alloc; Step { state: 0, word: 0 }; STATES * usize::from(layers)]?;
        let mut survivors = Survivors {
            table,
            states,
            count: 0,
            reached,
            found: 0,
            marks,
            steps,
            layer: 0,
            layers,
        };
        survivors.take_all();
        Ok(survivors)
    }

    /// Takes all states.
    fn take_all(&mut self) {
        for i in 0..STATES {
            if let Some(state) = self.states.get_mut(i) {
                *state = i as u16;
            }
        }
        self.count = STATES as u16;
    }

    /// Goes on by a block, and answers one of the states that are reached; where there is none,
    /// starts anew with all states.
    #[inline]
    pub(crate) fn take_block(&mut self, block: Block) -> Option<u16> {
        let next = self.layer.saturating_add(1);
        self.layer = if next < self.layers { next } else { 0 };
        let number = self.table.number(block);
        self.found = 0;
        for i in 0..usize::from(self.count) {
            let state = self.states.get(i).copied().unwrap_or(0);
            self.lead_on(number, state);
        }
        self.go_over();
        if self.count == 0 {
            self.take_all();
            return None;
        }
        self.states.get(0).copied()
    }

    /// Reaches the states to which the state's arcs with the block of this number lead.
    #[inline]
    fn lead_on(&mut self, number: u16, state: u16) {
        let (start, end) = self.table.range(number, state);
        for i in start..end {
            let arc = self.table.arc(i);
            let step = Step {
                state,
                word: arc.word,
            };
            self.reach(step, arc.to);
        }
    }

    /// Reaches a state by this step, where it is not reached yet.
    #[inline]
    fn reach(&mut self, step: Step, to: u16) {
        let Some(mark) = self.marks.get_mut(usize::from(to)) else {
            return;
        };
        if *mark {
            return;
        }
        *mark = true;
        if let Some(place) = self.steps.get_mut(place(usize::from(self.layer), to)) {
            *place = step;
        }
        if let Some(place) = self.reached.get_mut(usize::from(self.found)) {
            *place = to;
            self.found = self.found.saturating_add(1);
        }
    }

    /// Takes the states that are reached in place of the others.
    #[inline]
    fn go_over(&mut self) {
        for i in 0..usize::from(self.found) {
            let to = self.reached.get(i).copied().unwrap_or(0);
            if let Some(state) = self.states.get_mut(i) {
                *state = to;
            }
            if let Some(mark) = self.marks.get_mut(usize::from(to)) {
                *mark = false;
            }
        }
        self.count = self.found;
    }

    /// The step by which the state was reached, so many blocks before the last.
    #[inline]
    pub(crate) fn step_to(&self, back: usize, state: u16) -> Step {
        let last = usize::from(self.layer);
        let layer = if back <= last {
            last - back
        } else {
            (last + usize::from(self.layers)).saturating_sub(back)
        };
        self.steps
            .get(place(layer, state))
            .copied()
            .unwrap_or(Step { state: 0, word: 0 })
    }
}

/// Where the step to a state stands.
#[inline]
fn place(layer: usize, state: u16) -> usize
    requires { layer < 2 ^ 32 }
{
    layer * STATES + usize::from(state)
}
