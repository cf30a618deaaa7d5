ghost use Rattle.std.specs.Prelude.{◌≡◌, length};
ghost use Rattle.code_spec.specs.Code.{IsDataWord};
ghost use Rattle.code_spec.specs.Decoder.{window_length, IsDecoded};
ghost use Rattle.block_codec.specs.inside.Between.{IsBetweenSets};

use crate::state_sets::{reached, readable, word_into};
use code_model::Code;
use symbol_base::Block;

/// A word by which a state of the front writes the block and goes to a state of the back; 0 where
/// there is none.
fn word_between(code: &Code, front: &[bool; 512], block: Block, back: &[bool; 512]) -> u32
    ensures { IsBetweenSets code.now front.now block back.now result }
{
    for state in 0..code.state_count() {
        if front[state as usize] {
            if let Some(word) = word_into(code, state, block, back) {
                return word;
            }
        }
    }
    0
}

/// The decoder's answer to a window of past + 1 + ahead blocks, by the definition: the data word at
/// the place past of any walk that writes the window, and 0 where no walk does.
pub(crate) fn decode_window(code: &Code, window: &[Block]) -> u32
    requires { length window.now ≡ window_length code.now }
    ensures answer { IsDecoded code.now window.now result }
    ensures below { IsDataWord code.now result }
{
    let past = code.past as usize;
    let front = reached(code, &window[..past]);
    let back = readable(code, &window[past + 1..]);
    word_between(code, &front, window[past], &back)
}
