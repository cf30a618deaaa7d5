ghost use Rattle.std.specs.Prelude.{◌<◌, ◌^◌, length};
ghost use Rattle.code_spec.specs.Code.{IsCode};
ghost use Rattle.block_codec.specs.inside.Sets.{HasStates, HasTargets, IsForward, IsAnyWordInto, IsBackward, AreReached, AreReadable};

use code_model::Code;
use symbol_base::{Block, CodeName, Name};

/// All states of the code.
fn all_states(code: &Code) -> [bool; 512]
    ensures states { HasStates (length code.now.rows) result }
    ensures table { IsCode code.now }
{
    let mut set = [false; 512];
    for state in 0..code.state_count() {
        set[state as usize] = true;
    }
    set
}

/// Marks the states to which the state's rows with this block lead.
fn mark_targets(code: &Code, state: u32, block: Block, set: &mut [bool; 512])
    requires { state < length code.now.rows }
    ensures { HasTargets code.now state block (2 ^ code.now.p) set.old set.new }
{
    for word in 0..code.word_count() {
        let (written, next) = code.step(CodeName::at(state), word);
        if written.value == block.value {
            set[next.index() as usize] = true;
        }
    }
}

/// The states to which rows with this block lead from the marked states.
fn forward(code: &Code, from: &[bool; 512], block: Block) -> [bool; 512]
    ensures { IsForward code.now from.now block (length code.now.rows) result }
{
    let mut set = [false; 512];
    for state in 0..code.state_count() {
        if from[state as usize] {
            mark_targets(code, state, block, &mut set);
        }
    }
    set
}

/// A word by which the state writes this block and goes to a marked state.
pub(crate) fn word_into(code: &Code, state: u32, block: Block, into: &[bool; 512]) -> Option<u32>
    requires { state < length code.now.rows }
    ensures { IsAnyWordInto code.now state block into.now result }
{
    for word in 0..code.word_count() {
        let (written, next) = code.step(CodeName::at(state), word);
        if written.value == block.value && into[next.index() as usize] {
            return Some(word);
        }
    }
    None
}

/// The states from which rows with this block lead to the marked states.
fn backward(code: &Code, into: &[bool; 512], block: Block) -> [bool; 512]
    ensures { IsBackward code.now into.now block (length code.now.rows) result }
{
    let mut set = [false; 512];
    for state in 0..code.state_count() {
        set[state as usize] = word_into(code, state, block, into).is_some();
    }
    set
}

/// The states to which the blocks lead, from any state.
pub(crate) fn reached(code: &Code, blocks: &[Block]) -> [bool; 512]
    ensures { AreReached code.now blocks.now result }
{
    let mut set = all_states(code);
    for block in blocks {
        let next = forward(code, &set, *block);
        set = next;
    }
    set
}

/// The states from which the blocks can be read.
pub(crate) fn readable(code: &Code, blocks: &[Block]) -> [bool; 512]
    ensures { AreReadable code.now blocks.now result }
{
    let mut set = all_states(code);
    let mut at = blocks.len();
    while at > 0 {
        at -= 1;
        let before = backward(code, &set, blocks[at]);
        set = before;
    }
    set
}
