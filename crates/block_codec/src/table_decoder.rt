ghost use Rattle.std.specs.Prelude.{◌≡◌, ℕ, ◌+◌, ◌*◌, ◌<◌, ◌≤◌, ◌^◌, List, [], ◌∷◌, ◌++◌, length, vec_len, vec_capacity, IfOk, IfSome};
ghost use Rattle.std.specs.Bool.{OnTrue};
ghost use Rattle.symbol_base.specs.declared.Block.{Block};
ghost use Rattle.symbol_base.specs.Block.{symbols_of};
ghost use Rattle.code_spec.specs.Code.{IsCode, IsDataWord};
ghost use Rattle.code_spec.specs.Decoder.{window_length, AreDecoded};
ghost use Rattle.block_codec.specs.Decoding.{IsAnswer};
ghost use Rattle.block_codec.specs.inside.Answers.{HasShortWindows, IsAnswerTable, blocks_in};
ghost use Rattle.block_codec.specs.inside.Fours.{HasFours};
ghost use Rattle.block_codec.specs.inside.Packing.{HasRows};
ghost use Rattle.block_codec.specs.inside.Sizes.{AreSizesOf};
ghost use Rattle.block_codec.specs.inside.Readers.{IsFrontOf, TakesGroups};
ghost use Rattle.block_codec.specs.inside.TableDecoding.{IsTableDecoderFor, HasComeTo, AreLastBlocks, HaveComeLast, TakesEight};

use crate::answers::{answer_table, window_length};
use crate::digits::packed_at;
use crate::fours::{eight_words, short_fours};
use crate::part::{joined, joined_wide, last_digits, last_digits_wide};
use crate::sizes::Sizes;
use code_model::Code;
use std::alloc::Global;
use symbol_base::{Block, NoMemory};

/// The number of the last window's blocks, and how many of them have come.
#[derive(Clone, Copy, Debug)]
pub(crate) struct LastBlocks {
    window: u32,
    count: u32,
}

/// A sliding-block decoder by a table of the answers to all windows, and a table of those to four
/// windows in a row where these are short.
#[derive(Debug, Drop)]
pub(crate) struct TableDecoder {
    answers: Vec<u8>,
    fours: Vec<u8>,
    last: LastBlocks,
}

impl TableDecoder {
    /// A decoder for the code, to which no block has come.
    pub(crate) fn for_code(alloc: Global, code: &Code) -> Result<TableDecoder, NoMemory>
        requires { HasShortWindows code.now }
        ensures code { IfOk result (IsTableDecoderFor code.now) }
        ensures came { IfOk result (λ decoder. HasComeTo code.now decoder []) }
    {
        let answers = answer_table(alloc, code)?;
        let fours = short_fours(alloc, code, answers.as_slice())?;
        Ok(TableDecoder {
            answers,
            fours,
            last: LastBlocks {
                window: 0,
                count: 0,
            },
        })
    }

    /// Takes a block, and answers the data word of the window that it ends; none while fewer blocks
    /// than a window has have come.
    #[inline]
    pub(crate) fn take_block(&mut self, code: &Code, block: Block) -> Option<u32>
        requires code { IsTableDecoderFor code.now self.old }
        requires block { block.value < 2 ^ code.now.q }
        ensures code { IsTableDecoderFor code.now self.new }
        ensures came { (came : List Block) → HasComeTo code.now self.old came
            → HasComeTo code.now self.new (came ++ block ∷ []) }
        ensures answer { (came : List Block) → HasComeTo code.now self.old came
            → IsAnswer code.now (came ++ block ∷ []) result }
        ensures small { IfSome result (IsDataWord code.now) }
    {
        let length = window_length(code);
        let kept = code.q * (length - 1);
        self.last.window = joined(
            last_digits(self.last.window, kept),
            kept,
            block.value as u32,
            code.q,
        );
        if self.last.count + 1 < length {
            self.last.count += 1;
            return None;
        }
        self.last.count = length;
        Some(u32::from(self.answers[self.last.window as usize]))
    }

    /// Whether eight blocks can be taken at once: each of them ends a window, and they fit into a
    /// word of the machine together with the blocks before them that they share windows with.
    #[inline(always)]
    pub(crate) fn takes_eight(&self, code: &Code, sizes: Sizes) -> bool
        requires code { IsTableDecoderFor code.now self.now }
        requires sizes { AreSizesOf code.now sizes }
        ensures { OnTrue result (TakesEight code.now self.now.last) }
    {
        sizes.length <= self.last.count + 1 && sizes.q * (sizes.length + 7) < 64
    }

    /// Takes the digits of eight blocks at a time from the front of a piece, as long as all of
    /// these are digits, and puts the bytes of their words behind the others. Answers how many
    /// digits it took.
    ///
    /// What has come is kept apart from the decoder meanwhile, so that it stays in registers.
    #[inline(always)]
    pub(crate) fn take_groups(
        &mut self,
        code: &Code,
        sizes: Sizes,
        digits: &[u64],
        piece: &[u8],
        out: &mut Vec<u8>,
    ) -> usize
        requires table { IsCode code.now }
        requires code { IsTableDecoderFor code.now self.old }
        requires sizes { AreSizesOf code.now sizes }
        requires few { sizes.q ≤ 7 }
        requires eight { TakesEight code.now self.old.last }
        requires digits { HasRows 256 digits.now }
        requires room { vec_len out.old + length piece.now ≤ vec_capacity out.old }
        ensures code { IsTableDecoderFor code.now self.new }
        ensures inside { result ≤ length piece.now }
        ensures len { vec_len out.new ≤ vec_len out.old + result }
        ensures capacity { vec_capacity out.new ≡ vec_capacity out.old }
        ensures front { IsFrontOf out.old.items out.new.items }
        ensures groups { TakesGroups code.now self.old self.new piece.now result out.old.items
            out.new.items }
    {
        let answers = self.answers.as_slice();
        let fours = self.fours.as_slice();
        let mut last = self.last;
        let mut at = 0;
        while let Some(blocks) = packed_at(digits, piece, at, sizes.q) {
            let words = last.take_eight(code, sizes, answers, fours, blocks);
            put_number(out, words, sizes.p);
            at += 8 * sizes.q as usize;
        }
        self.last = last;
        at
    }
}

impl LastBlocks {
    /// Takes the eight blocks of a number, and answers the data words of the windows that they end,
    /// as a number.
    #[inline(always)]
    fn take_eight(
        &mut self,
        code: &Code,
        sizes: Sizes,
        answers: &[u8],
        fours: &[u8],
        blocks: u64,
    ) -> u64
        requires short { HasShortWindows code.now }
        requires last { AreLastBlocks code.now self.old }
        requires sizes { AreSizesOf code.now sizes }
        requires few { sizes.p ≤ 8 }
        requires answers { IsAnswerTable code.now answers.now }
        requires fours { HasFours code.now fours.now }
        requires eight { TakesEight code.now self.old }
        requires blocks { blocks < 2 ^ (code.now.q * 8) }
        ensures last { AreLastBlocks code.now self.new }
        ensures eight { TakesEight code.now self.new }
        ensures came { (came : List Block) → HaveComeLast code.now self.old came
            → HaveComeLast code.now self.new (came ++ blocks_in code.now.q 8 blocks) }
        ensures words { (came : List Block) (words : List ℕ) → HaveComeLast code.now self.old came
            → AreDecoded code.now came words
            → AreDecoded code.now (came ++ blocks_in code.now.q 8 blocks)
            (words ++ symbols_of (2 ^ code.now.p) 8 result) }
        ensures below { result < 2 ^ (code.now.p * 8) }
    {
        let kept = sizes.q * (sizes.length - 1);
        let before = last_digits_wide(u64::from(self.window), kept);
        let here = joined_wide(before, kept, blocks, sizes.q * 8);
        self.window = last_digits_wide(here, sizes.q * sizes.length) as u32;
        self.count = sizes.length;
        eight_words(code, sizes, answers, fours, here)
    }
}

/// Puts the bytes of a number behind the others, so many, the first most significant.
#[inline(always)]
fn put_number(out: &mut Vec<u8>, number: u64, count: u32)
    requires few { count ≤ 8 }
    requires room { vec_len out.old + count ≤ vec_capacity out.old }
    ensures items { out.new.items ≡ out.old.items ++ symbols_of 256 count number }
    ensures capacity { vec_capacity out.new ≡ vec_capacity out.old }
    ensures len { vec_len out.new ≡ vec_len out.old + count }
{
    for j in 0..count {
        out.push_reserved((number >> (8 * (count - 1 - j)) & 0xff) as u8);
    }
}
