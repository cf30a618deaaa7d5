//! The decoder's answers to all windows, where windows are short.

ghost use Rattle.std.specs.Prelude.{◌≡◌, ◌+◌, ◌*◌, ◌/◌, ◌%◌, ◌^◌, ◌<◌, ◌≤◌, IfOk};
ghost use Rattle.std.specs.Bool.{OnTrue};
ghost use Rattle.code_spec.specs.Code.{IsState, IsDataWord};
ghost use Rattle.code_spec.specs.Output.{row_at, output};
ghost use Rattle.symbol_base.specs.Block.{symbols_of};
ghost use Rattle.code_spec.specs.Decoder.{window_length, AreDecoded};
ghost use Rattle.block_codec.specs.Decoding.{block_of};
ghost use Rattle.block_codec.specs.inside.Sizes.{AreSizesOf};
ghost use Rattle.block_codec.specs.inside.Answers.{HasShortWindows, IsAnswerTable, blocks_in, window_count, list_count, window_of, words_in};

use crate::part::{joined, joined_wide, last_digits, last_digits_wide};
use crate::sizes::Sizes;
use code_model::Code;
use std::alloc::Global;
use symbol_base::{CodeName, Name, NoMemory};

/// How many blocks a window has.
#[inline]
pub(crate) fn window_length(code: &Code) -> u32
    ensures count { result ≡ window_length code.now }
    ensures few { result ≤ 768 }
    ensures some { 1 ≤ result }
{
    code.past + 1 + code.ahead
}

/// Whether all windows fit into a small table that few walks fill.
pub(crate) fn has_short_windows(code: &Code) -> bool
    ensures { OnTrue result (HasShortWindows code.now) }
{
    let length = window_length(code);
    code.q * length <= 18 && code.state_count() << (code.p * length) <= 1 << 20
}

/// The digit of a number in base 2^p that has so many digits behind it.
#[inline]
fn digit_of(number: u32, p: u32, behind: u32) -> u32
    requires fits { p + p * behind < 32 }
    ensures value { result ≡ number / 2 ^ (p * behind) % 2 ^ p }
    ensures below { result < 2 ^ p }
{
    last_digits(number >> (p * behind), p)
}

/// The value of the block that the code writes in a state for a data word, and the state that it
/// goes to.
#[inline]
fn value_step(code: &Code, state: CodeName, word: u32) -> (u32, CodeName)
    requires state { IsState code.now state }
    requires word { IsDataWord code.now word }
    ensures block { block_of result.0 ≡ (row_at code.now.rows state word).block }
    ensures below { result.0 < 2 ^ code.now.q }
    ensures next { result.1 ≡ (row_at code.now.rows state word).to }
    ensures inside { IsState code.now result.1 }
{
    let (block, next) = code.step(state, word);
    (block.value as u32, next)
}

/// The number of the window that the code writes from a state on for the data words of a number.
fn written(code: &Code, state: CodeName, number: u32) -> u32
    requires short { HasShortWindows code.now }
    requires state { IsState code.now state }
    ensures below { result < window_count code.now }
    ensures writes { output code.now state (words_in code.now number) ≡ window_of code.now result }
{
    let length = window_length(code);
    let mut at = state;
    let mut place = 0;
    for i in 0..length {
        let word = digit_of(number, code.p, length - 1 - i);
        let (value, next) = value_step(code, at, word);
        place = joined(place, code.q * i, value, code.q);
        at = next;
    }
    place
}

/// How many windows there are.
fn window_count(code: &Code) -> u32
    requires { HasShortWindows code.now }
    ensures count { result ≡ window_count code.now }
    ensures few { result ≤ 2 ^ 18 }
{
    2u32.pow(code.q * window_length(code))
}

/// How many lists of data words there are, of as many words as a window has blocks.
fn list_count(code: &Code) -> u32
    requires { HasShortWindows code.now }
    ensures count { result ≡ list_count code.now }
    ensures few { result ≤ 2 ^ 18 }
    ensures some { 1 ≤ result }
{
    2u32.pow(code.p * window_length(code))
}

/// The decoder's answers to all windows.
///
/// Each walk puts the word that it takes at the place past to the window that it writes; a window
/// that no walk writes keeps 0.
pub(crate) fn answer_table(alloc: Global, code: &Code) -> Result<Vec<u8>, NoMemory>
    requires { HasShortWindows code.now }
    ensures { IfOk result (λ table. IsAnswerTable code.now table.items) }
{
    let lists = list_count(code);
    let mut table = vec![in alloc; 0u8; window_count(code) as usize]?;
    for walk in 0..lists * code.state_count() {
        let words = walk % lists;
        let place = written(code, CodeName::at(walk / lists), words);
        table[place as usize] = digit_of(words, code.p, code.ahead) as u8;
    }
    Ok(table)
}

/// The answers to the windows of a number, from the first to that at place `last`, as a number.
#[inline(always)]
pub(crate) fn several_words(code: &Code, sizes: Sizes, last: u32, table: &[u8], here: u64) -> u64
    requires sizes { AreSizesOf code.now sizes }
    requires few { sizes.p ≤ 8 }
    requires eight { last ≤ 7 }
    requires table { IsAnswerTable code.now table.now }
    requires fits { code.now.q * (window_length code.now + last) < 64 }
    ensures words { AreDecoded code.now (blocks_in code.now.q (window_length code.now + last) here)
        (symbols_of (2 ^ code.now.p) (last + 1) result) }
    ensures below { result < 2 ^ (code.now.p * (last + 1)) }
{
    let size = sizes.q * sizes.length;
    let mut words = 0;
    for k in 0..last + 1 {
        let window = last_digits_wide(here >> (sizes.q * (last - k)), size);
        let word = table[window as usize];
        words = joined_wide(words, sizes.p * k, u64::from(word), sizes.p);
    }
    words
}
