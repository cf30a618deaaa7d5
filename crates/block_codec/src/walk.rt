ghost use Rattle.std.specs.Prelude.{◌≡◌, ◌-◌, ◌<◌, [], ◌∷◌, ◌++◌, length, drop, IfOk, IsTrue};
ghost use Rattle.code_spec.specs.Decoder.{window_length, IsDecoded};
ghost use Rattle.code_spec.specs.Code.{IsDataWord};
ghost use Rattle.block_codec.specs.inside.Walking.{end_step, IsStepTo, IsKept, IsWalkOver};

use crate::survivors::{Step, Survivors};
use crate::window::decode_window;
use code_model::Code;
use std::alloc::Global;
use symbol_base::{Block, CodeName, Name, NoMemory};

/// A walk that writes the last blocks of a window, from the place start on, and leads to the state
/// at its end.
#[derive(Debug, Drop)]
pub(crate) struct Walk {
    steps: Vec<Step>,
    start: usize,
    end: u16,
    survivors: Survivors,
}

/// Whether the step is one of the code that writes the block and leads to the state.
#[inline]
fn fits(code: &Code, step: Step, block: Block, to: u16) -> bool
    ensures { IsTrue result → IsStepTo code.now step block to }
{
    let state = u32::from(step.state);
    let word = u32::from(step.word);
    if state >= code.state_count() {
        return false;
    }
    if word >= code.word_count() {
        return false;
    }
    let (written, next) = code.step(CodeName::at(state), word);
    written.value == block.value && next.index() == u32::from(to)
}

impl Walk {
    /// A walk that writes no block yet of a window of so many.
    pub(crate) fn for_code(alloc: Global, code: &Code, count: u16) -> Result<Walk, NoMemory>
        ensures steps { IfOk result (λ walk. length walk.steps.items ≡ count) }
        ensures start { IfOk result (λ walk. walk.start ≡ count) }
    {
        let survivors = Survivors::for_code(alloc, code, count)?;
        let steps = vec![in alloc; Step { state: 0, word: 0 }; usize::from(count)]?;
        Ok(Walk {
            steps,
            start: usize::from(count),
            end: 0,
            survivors,
        })
    }

    /// Moves the steps by one place, as the window's blocks are moved.
    #[inline]
    pub(crate) fn move_on(&mut self)
        requires { 0 < length self.old.steps.items }
        ensures steps { self.new.steps.items
            ≡ drop 1 self.old.steps.items ++ end_step self.old.end ∷ [] }
        ensures start { self.new.start ≡ self.old.start - 1 }
    {
        let last = self.steps.len() - 1;
        for i in 0..last {
            self.steps[i] = self.steps[i + 1];
        }
        self.steps[last] = Step {
            state: self.end,
            word: 0,
        };
        self.start = self.start.saturating_sub(1);
    }

    /// Follows the survivors by the window's last block.
    #[inline]
    pub(crate) fn take_block(&mut self, code: &Code, window: &[Block], block: Block)
        requires some { 0 < length window.now }
        requires kept { IsKept code.now window.now self.old (length window.now - 1) }
        ensures { IsWalkOver code.now window.now self.new }
    {
        match self.survivors.take_block(block) {
            Some(to) => self.trace(code, window, to),
            None => self.start = window.len(),
        }
    }

    /// Goes back from a state by the survivors' steps until they meet the walk.
    fn trace(&mut self, code: &Code, window: &[Block], to: u16)
        requires some { 0 < length window.now }
        requires kept { IsKept code.now window.now self.old (length window.now - 1) }
        ensures { IsWalkOver code.now window.now self.new }
    {
        self.end = to;
        let mut to = to;
        let mut at = window.len();
        while at > 0 {
            let step = self.survivors.step_to(window.len() - at, to);
            if !fits(code, step, window[at - 1], to) {
                self.start = at;
                return;
            }
            at -= 1;
            let met = self.steps[at].state == step.state;
            self.steps[at] = step;
            if met && self.start <= at {
                return;
            }
            to = step.state;
        }
        self.start = 0;
    }

    /// The decoder's answer to the window.
    #[inline]
    pub(crate) fn answer(&self, code: &Code, window: &[Block]) -> u32
        requires count { length window.now ≡ window_length code.now }
        requires walk { IsWalkOver code.now window.now self.now }
        ensures answer { IsDecoded code.now window.now result }
        ensures below { IsDataWord code.now result }
    {
        if self.start > 0 {
            return decode_window(code, window);
        }
        u32::from(self.steps[code.past as usize].word)
    }
}
