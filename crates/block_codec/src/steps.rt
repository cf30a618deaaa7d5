//! Digits word by word, by the code's own steps.

ghost use Rattle.std.specs.Prelude.{◌≡◌, ◌+◌, ◌*◌, ◌^◌, ◌≤◌, [], ◌∷◌, ◌++◌, length, replicate, take};
ghost use Rattle.symbol_base.specs.Block.{symbols_of};
ghost use Rattle.code_spec.specs.Code.{IsState, IsDataWord};
ghost use Rattle.code_spec.specs.PlainText.{word_count, file_words};
ghost use Rattle.block_codec.specs.inside.Digits.{digits_of, PutsDigits};

use crate::counts::count_words;
use code_model::Code;
use symbol_base::{Block, CodeName, take_word};

/// Puts the digits of a block of q symbols into the room, from place `at` on.
#[inline]
pub(crate) fn put_block(block: Block, q: u32, room: &mut [u8], at: usize)
    requires short { q ≤ 20 }
    requires room { at + q ≤ length room.old }
    ensures digits { take (at + q) room.new
        ≡ take at room.old ++ digits_of (symbols_of 2 q block.value) }
    ensures len { length room.new ≡ length room.old }
{
    for k in 0..q {
        room[at + k as usize] = b'0' + block.symbol(k, q, 2);
    }
}

/// Puts the digits of a data word into the room, from place `at` on, and answers the next state.
#[inline]
pub(crate) fn put_word(
    code: &Code,
    state: CodeName,
    word: u32,
    room: &mut [u8],
    at: usize,
) -> CodeName
    requires state { IsState code.now state }
    requires word { IsDataWord code.now word }
    requires room { at + code.now.q ≤ length room.old }
    ensures { PutsDigits code.now state (word ∷ []) at room.old room.new result }
{
    let (block, next) = code.step(state, word);
    put_block(block, code.q, room, at);
    next
}

/// Puts the digits of zero words at the front of the room, and answers the next state.
pub(crate) fn put_zeros(code: &Code, state: CodeName, count: u32, room: &mut [u8]) -> CodeName
    requires state { IsState code.now state }
    requires room { code.now.q * count ≤ length room.old }
    ensures { PutsDigits code.now state (replicate count 0) 0 room.old room.new result }
{
    let step = code.q as usize;
    let mut state = state;
    let mut at = 0;
    for _ in 0..count {
        state = put_word(code, state, 0, room, at);
        at += step;
    }
    state
}

/// Puts the digits of a file's words at the front of the room, and answers the next state.
pub(crate) fn put_file(code: &Code, state: CodeName, file: &[u8], room: &mut [u8]) -> CodeName
    requires state { IsState code.now state }
    requires small { length file.now ≤ 2 ^ 26 }
    requires room { code.now.q * word_count code.now.p (8 * length file.now) ≤ length room.old }
    ensures { PutsDigits code.now state (file_words code.now.p file.now) 0 room.old room.new
        result }
{
    let p = code.p;
    let step = code.q as usize;
    let mut state = state;
    let mut at = 0;
    for j in 0..count_words(p, file.len() as u64) {
        let word = take_word(file, u64::from(p) * j, p);
        state = put_word(code, state, word, room, at);
        at += step;
    }
    state
}
