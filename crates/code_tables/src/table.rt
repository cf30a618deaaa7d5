ghost use Rattle.std.specs.Prelude.{◌≡◌, ◌+◌, ◌-◌, ◌^◌, ◌<◌, ◌≤◌, map, IfSome, IfOk};
ghost use Rattle.text_reading.specs.Reading.{Gives};
ghost use Rattle.code_tables.specs.inside.Reading.{rate_at, window_at, states_at, sizes_at, code_row_at, state_at, table_at};
ghost use Rattle.code_tables.specs.inside.ReadLines.{GivesLines, sizes_of, AreReadable, row_of_numbers};

use crate::fault::CodeTextFault;
use code_model::CodeRow;
use std::alloc::Global;
use symbol_base::{Block, CodeName, Name};
use text_reading::{block, field, literal};

/// The numbers between the constraint and the table.
#[derive(Clone, Copy)]
pub struct Sizes {
    pub p: u32,
    pub q: u32,
    pub past: u32,
    pub ahead: u32,
    pub states: u64,
}

#[tactic(auto, unfolding(crate::specs::inside::Reading::rate_at, text_reading::specs::Reading::behind, text_reading::specs::Reading::both))]
fn rate_line(bytes: &[u8]) -> Option<(u64, u64, &[u8])>
    ensures read { Gives (λ x. ((x.0, x.1), x.2.now)) result (rate_at bytes.now) }
    ensures range { IfSome result (λ x. (x.0 ≤ 8) × (x.1 ≤ 20)) }
{
    let rest = literal(bytes, b"rate ")?;
    let (p, rest) = field(rest, b' ', 1, 8)?;
    let (q, rest) = field(rest, b'\n', p, 20)?;
    Some((p, q, rest))
}

#[tactic(auto, unfolding(crate::specs::inside::Reading::window_at, text_reading::specs::Reading::behind, text_reading::specs::Reading::both))]
fn window_line(bytes: &[u8]) -> Option<(u64, u64, &[u8])>
    ensures read { Gives (λ x. ((x.0, x.1), x.2.now)) result (window_at bytes.now) }
    ensures range { IfSome result (λ x. (x.0 ≤ 256) × (x.1 ≤ 511)) }
{
    let rest = literal(bytes, b"window ")?;
    let (past, rest) = field(rest, b' ', 0, 256)?;
    let (ahead, rest) = field(rest, b'\n', 0, 511)?;
    Some((past, ahead, rest))
}

#[tactic(auto, unfolding(crate::specs::inside::Reading::states_at, text_reading::specs::Reading::behind))]
fn states_line(bytes: &[u8]) -> Option<(u64, &[u8])>
    ensures read { Gives (λ x. (x.0, x.1.now)) result (states_at bytes.now) }
    ensures range { IfSome result (λ x. (1 ≤ x.0) × (x.0 ≤ 512)) }
{
    let rest = literal(bytes, b"states ")?;
    field(rest, b'\n', 1, 512)
}

/// Three lines, from this one on: the rate, the window and the number of states.
#[tactic(auto, unfolding(crate::specs::inside::Reading::sizes_at, text_reading::specs::LineReader::both_lines, text_reading::specs::LineReader::one_line))]
pub fn read_sizes(bytes: &[u8], line: u64) -> Result<(Sizes, &[u8]), CodeTextFault>
    requires { line ≤ 2 ^ 20 }
    ensures read { GivesLines (λ x. (sizes_of x.0, x.1.now)) result (sizes_at line bytes.now) }
    ensures range { IfOk result (λ x. AreReadable x.0) }
{
    let (p, q, rest) = rate_line(bytes).ok_or(CodeTextFault::BadCode(line))?;
    let (past, ahead, rest) = window_line(rest).ok_or(CodeTextFault::BadCode(line + 1))?;
    let (states, rest) = states_line(rest).ok_or(CodeTextFault::BadCode(line + 1 + 1))?;
    let sizes = Sizes {
        p: p as u32,
        q: q as u32,
        past: past as u32,
        ahead: ahead as u32,
        states,
    };
    Ok((sizes, rest))
}

/// The block's number and the target of a row.
#[tactic(auto, unfolding(crate::specs::inside::Reading::row_numbers_at, crate::specs::inside::Reading::code_row_at, text_reading::specs::Reading::both, text_reading::specs::Reading::behind))]
fn row_line<'a>(
    bytes: &'a [u8],
    sizes: &Sizes,
    state: u64,
    word: u64,
) -> Option<(u64, u64, &'a [u8])>
    requires { AreReadable sizes.now }
    ensures read { Gives (λ x. (row_of_numbers x.0 x.1, x.2.now)) result
        (code_row_at sizes.now.q sizes.now.states state word bytes.now) }
    ensures range { IfSome result (λ x. x.1 < 512) }
{
    let (_, rest) = field(bytes, b' ', state, state)?;
    let (_, rest) = field(rest, b' ', word, word)?;
    let (value, rest) = block(rest, 2, sizes.q)?;
    let rest = literal(rest, b" ")?;
    let (to, rest) = field(rest, b'\n', 0, sizes.states - 1)?;
    Some((value, to, rest))
}

/// How many data words of p bits there are.
pub fn words(p: u32) -> u64
    requires { p ≤ 8 }
    ensures count { result ≡ 2 ^ p }
    ensures few { result ≤ 256 }
{
    1 << p
}

/// The rows of a state, the first in this line.
fn state_rows<'a>(
    alloc: Global,
    bytes: &'a [u8],
    sizes: &Sizes,
    state: u64,
    first: u64,
) -> Result<(Vec<CodeRow>, &'a [u8]), CodeTextFault>
    requires sizes { AreReadable sizes.now }
    requires first { first ≤ 2 ^ 20 }
    ensures { GivesLines (λ x. (x.0.items, x.1.now)) result
        (state_at sizes.now.p sizes.now.q sizes.now.states state first bytes.now) }
{
    let count = words(sizes.p);
    let mut rows = Vec::with_capacity(alloc, count as usize)?;
    let mut rest = bytes;
    let mut line = first;
    for word in 0..count {
        let Some((value, to, after)) = row_line(rest, sizes, state, word) else {
            return Err(CodeTextFault::BadCode(line));
        };
        rows.push(CodeRow {
            block: Block { value },
            to: CodeName::at(to as u32),
        })?;
        rest = after;
        line += 1;
    }
    Ok((rows, rest))
}

/// The rows of all states, the first in this line.
pub fn read_table<'a>(
    alloc: Global,
    bytes: &'a [u8],
    sizes: &Sizes,
    first: u64,
) -> Result<(Vec<Vec<CodeRow>>, &'a [u8]), CodeTextFault>
    requires sizes { AreReadable sizes.now }
    requires first { first ≤ 2 ^ 16 }
    ensures { GivesLines (λ x. (map (λ rows. rows.items) x.0.items, x.1.now)) result
        (table_at sizes.now.p sizes.now.q sizes.now.states first bytes.now) }
{
    let count = words(sizes.p);
    let mut table = Vec::with_capacity(alloc, sizes.states as usize)?;
    let mut rest = bytes;
    let mut line = first;
    for state in 0..sizes.states {
        let (rows, after) = state_rows(alloc, rest, sizes, state, line)?;
        table.push(rows)?;
        rest = after;
        line += count;
    }
    Ok((table, rest))
}
