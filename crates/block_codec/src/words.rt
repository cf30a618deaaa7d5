//! Digits word by word, by a table of data words.

ghost use Rattle.std.specs.Prelude.{◌≡◌, ◌+◌, ◌-◌, ◌*◌, ◌/◌, ◌%◌, ◌^◌, ◌<◌, ◌≤◌, length, IfOk};
ghost use Rattle.symbol_base.specs.Block.{number_of};
ghost use Rattle.code_spec.specs.Code.{IsCode, IsState, IsDataWord};
ghost use Rattle.code_spec.specs.PlainText.{word_count, file_words};
ghost use Rattle.block_codec.specs.inside.Digits.{PutsDigits};
ghost use Rattle.block_codec.specs.inside.Tables.{IsEntry, IsWordTable, one_word};

use crate::counts::count_words;
use crate::steps::put_word;
use crate::table::{Table, put_item};
use code_model::Code;
use std::alloc::Global;
use symbol_base::{CodeName, Name, NoMemory, take_word};

/// The digits that the code writes for a word from a state on, and the next state.
fn word_entry(code: &Code, state: CodeName, word: u32) -> ([u8; 32], CodeName)
    requires state { IsState code.now state }
    requires word { IsDataWord code.now word }
    requires code { IsCode code.now }
    ensures { IsEntry code.now (one_word word) (2 ^ code.now.p) state result.0
        (2 ^ code.now.p * result.1) }
{
    let mut lane = [b'0'; 32];
    let next = put_word(code, state, word, &mut lane, 0);
    (lane, next)
}

/// The table of a code's data words.
pub(crate) fn word_table(alloc: Global, code: &Code) -> Result<Table<32>, NoMemory>
    ensures { IfOk result (IsWordTable code.now) }
{
    let size = code.word_count();
    let entries = size * code.state_count();
    let mut table = Table::with_capacity(alloc, entries as usize)?;
    for place in 0..entries {
        let (lane, next) = word_entry(code, CodeName::at(place / size), place % size);
        table.push(lane, size * next.index())?;
    }
    Ok(table)
}

/// Bytes as a number, the first most significant.
#[inline]
fn number_of_bytes(bytes: &[u8]) -> u64
    requires short { length bytes.now ≤ 8 }
    ensures { result ≡ number_of 256 bytes.now }
{
    let mut value = 0u64;
    for byte in bytes {
        value = value << 8 | u64::from(*byte);
    }
    value
}

/// The word at place k of the eight words of p bits that a number has.
#[inline]
fn word_in(value: u64, k: u32, p: u32) -> u32
    requires one { 1 ≤ p }
    requires eight { p ≤ 8 }
    requires place { k < 8 }
    ensures value { result ≡ value / 2 ^ (p * (7 - k)) % 2 ^ p }
    ensures below { result < 2 ^ p }
{
    (value >> (p * (7 - k)) & ((1 << p) - 1)) as u32
}

/// Puts the digits of the eight words of p bytes into the room, from place `at` on, and answers the
/// next state.
#[inline]
fn put_group(
    code: &Code,
    table: &Table<32>,
    state: CodeName,
    group: &[u8],
    room: &mut [u8],
    at: usize,
) -> CodeName
    requires table { IsWordTable code.now table.now }
    requires state { IsState code.now state }
    requires group { length group.now ≡ code.now.p }
    requires room { at + code.now.q * 8 + 32 ≤ length room.old }
    ensures { PutsDigits code.now state (file_words code.now.p group.now) at room.old room.new
        result }
{
    let p = code.p;
    let step = code.q as usize;
    let lanes = table.lanes.as_slice();
    let next = table.next.as_slice();
    let value = number_of_bytes(group);
    let mut at = at;
    let mut place = code.word_count() * state.index();
    for k in 0..8 {
        let word = word_in(value, k, p);
        place = put_item(lanes, next, place as usize + word as usize, room, at);
        at += step;
    }
    CodeName::at(place >> p)
}

/// Puts the digits of the words of bytes into the room, from place `at` on, and answers the next
/// state.
fn put_rest(
    code: &Code,
    table: &Table<32>,
    state: CodeName,
    bytes: &[u8],
    room: &mut [u8],
    at: usize,
) -> CodeName
    requires table { IsWordTable code.now table.now }
    requires state { IsState code.now state }
    requires small { length bytes.now ≤ 8 }
    requires room { at + code.now.q * word_count code.now.p (8 * length bytes.now) + 32
        ≤ length room.old }
    ensures { PutsDigits code.now state (file_words code.now.p bytes.now) at room.old room.new
        result }
{
    let p = code.p;
    let step = code.q as usize;
    let lanes = table.lanes.as_slice();
    let next = table.next.as_slice();
    let mut at = at;
    let mut place = code.word_count() * state.index();
    for j in 0..count_words(p, bytes.len() as u64) {
        let word = take_word(bytes, u64::from(p) * j, p);
        place = put_item(lanes, next, place as usize + word as usize, room, at);
        at += step;
    }
    CodeName::at(place >> p)
}

/// Puts the digits of the words of bytes at the front of the room, and answers the next state.
pub(crate) fn put_words(
    code: &Code,
    table: &Table<32>,
    state: CodeName,
    bytes: &[u8],
    room: &mut [u8],
) -> CodeName
    requires table { IsWordTable code.now table.now }
    requires state { IsState code.now state }
    requires small { length bytes.now ≤ 2 ^ 26 }
    requires room { code.now.q * word_count code.now.p (8 * length bytes.now) + 32
        ≤ length room.old }
    ensures { PutsDigits code.now state (file_words code.now.p bytes.now) 0 room.old room.new
        result }
{
    let size = code.p as usize;
    let step = 8 * code.q as usize;
    let groups = bytes.len() / size;
    let mut state = state;
    for group in 0..groups {
        let from = size * group;
        state = put_group(
            code,
            table,
            state,
            &bytes[from..from + size],
            room,
            step * group,
        );
    }
    put_rest(
        code,
        table,
        state,
        &bytes[size * groups..],
        room,
        step * groups,
    )
}
