//! The answers to four windows in a row by one look-up, where those are short.

ghost use Rattle.std.specs.Prelude.{◌+◌, ◌*◌, ◌^◌, ◌<◌, ◌≤◌, length, IfOk};
ghost use Rattle.std.specs.Bool.{OnTrue};
ghost use Rattle.symbol_base.specs.Block.{symbols_of};
ghost use Rattle.code_spec.specs.Decoder.{window_length, AreDecoded};
ghost use Rattle.block_codec.specs.inside.Answers.{IsAnswerTable, blocks_in};
ghost use Rattle.block_codec.specs.inside.Sizes.{AreSizesOf};
ghost use Rattle.block_codec.specs.inside.Fours.{HasShortFours, IsFour, IsFourTable, HasFours};

use crate::answers::{several_words, window_length};
use crate::part::{joined_wide, last_digits_wide};
use crate::sizes::Sizes;
use code_model::Code;
use std::alloc::Global;
use symbol_base::NoMemory;

/// Whether the answers to four windows fit into a byte, and those windows into a small table.
fn has_short_fours(code: &Code) -> bool
    ensures { OnTrue result (HasShortFours code.now) }
{
    code.p <= 2 && code.q * (window_length(code) + 3) <= 18
}

/// The answers to the four windows of a number, as a byte.
fn four_entry(code: &Code, answers: &[u8], here: u32) -> u8
    requires short { HasShortFours code.now }
    requires answers { IsAnswerTable code.now answers.now }
    ensures { IsFour code.now here result }
{
    several_words(code, Sizes::of(code), 3, answers, u64::from(here)) as u8
}

/// The answers to four windows in a row, for all such windows.
fn four_table(alloc: Global, code: &Code, answers: &[u8]) -> Result<Vec<u8>, NoMemory>
    requires short { HasShortFours code.now }
    requires answers { IsAnswerTable code.now answers.now }
    ensures { IfOk result (λ table. IsFourTable code.now table.items) }
{
    let entries = 2u32.pow(code.q * (window_length(code) + 3));
    let mut table = Vec::with_capacity(alloc, entries as usize)?;
    for here in 0..entries {
        table.push(four_entry(code, answers, here))?;
    }
    Ok(table)
}

/// The same, where a code's windows are short enough; else nothing.
pub(crate) fn short_fours(alloc: Global, code: &Code, answers: &[u8]) -> Result<Vec<u8>, NoMemory>
    requires { IsAnswerTable code.now answers.now }
    ensures { IfOk result (λ table. HasFours code.now table.items) }
{
    if has_short_fours(code) {
        return four_table(alloc, code, answers);
    }
    Ok(Vec::new(alloc))
}

/// The answers to the eight windows of a number by two look-ups.
#[inline(always)]
fn two_fours(code: &Code, sizes: Sizes, fours: &[u8], here: u64) -> u64
    requires sizes { AreSizesOf code.now sizes }
    requires few { sizes.p ≤ 8 }
    requires fours { IsFourTable code.now fours.now }
    requires fits { code.now.q * (window_length code.now + 7) < 64 }
    ensures words { AreDecoded code.now (blocks_in code.now.q (window_length code.now + 7) here)
        (symbols_of (2 ^ code.now.p) 8 result) }
    ensures below { result < 2 ^ (code.now.p * 8) }
{
    let size = sizes.q * (sizes.length + 3);
    let early = last_digits_wide(here >> (sizes.q * 4), size);
    let late = last_digits_wide(here, size);
    let high = fours[early as usize];
    let low = fours[late as usize];
    joined_wide(u64::from(high), sizes.p * 4, u64::from(low), sizes.p * 4)
}

/// The answers to the eight windows of a number, as a number: the first window ends with its eighth
/// last block.
#[inline(always)]
pub(crate) fn eight_words(code: &Code, sizes: Sizes, answers: &[u8], fours: &[u8], here: u64) -> u64
    requires sizes { AreSizesOf code.now sizes }
    requires few { sizes.p ≤ 8 }
    requires answers { IsAnswerTable code.now answers.now }
    requires fours { HasFours code.now fours.now }
    requires fits { code.now.q * (window_length code.now + 7) < 64 }
    ensures words { AreDecoded code.now (blocks_in code.now.q (window_length code.now + 7) here)
        (symbols_of (2 ^ code.now.p) 8 result) }
    ensures below { result < 2 ^ (code.now.p * 8) }
{
    if fours.is_empty() {
        return several_words(code, sizes, 7, answers, here);
    }
    two_fours(code, sizes, fours, here)
}
