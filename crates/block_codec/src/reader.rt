ghost use Rattle.std.specs.Prelude.{◌≡◌, ℕ, ◌+◌, ◌^◌, ◌<◌, ◌≤◌, false, List, [], ◌∷◌, ◌++◌, length, take, vec_len, vec_capacity, IfOk, IfSome, IsTrue};
ghost use Rattle.code_spec.specs.Code.{IsCode};
ghost use Rattle.code_spec.specs.PlainReading.{is_blank};
ghost use Rattle.block_codec.specs.inside.Sizes.{AreSizesOf};
ghost use Rattle.block_codec.specs.inside.Readers.{IsReaderFor, HasSymbols, HasText, GoesOn, TakesPiece, IsFrontOf, IsBadByte, listed};

use crate::digits::digit_table;
use crate::part::Part;
use crate::sizes::Sizes;
use crate::window_decoder::WindowDecoder;
use code_model::Code;
use std::alloc::Global;
use symbol_base::{Block, NoMemory};

/// A reader of symbols: of the blocks that they fill, the data words of these, and the bytes that
/// those fill.
#[derive(Debug, Drop)]
pub(crate) struct Reader {
    blocks: WindowDecoder,
    symbols: Part,
    bits: Part,
    digits: Vec<u64>,
    count: u64,
}

impl Reader {
    /// A reader to which nothing has come.
    pub(crate) fn new(alloc: Global, code: &Code) -> Result<Reader, NoMemory>
        requires table { IsCode code.now }
        ensures code { IfOk result (IsReaderFor code.now) }
        ensures text { IfOk result (HasText code.now [] []) }
        ensures none { IfOk result (λ reader. reader.count ≡ 0) }
    {
        Ok(Reader {
            blocks: WindowDecoder::for_code(alloc, code)?,
            symbols: Part::none(),
            bits: Part::none(),
            digits: digit_table(alloc)?,
            count: 0,
        })
    }

    /// How many symbols have come.
    pub(crate) fn count(&self) -> u64
        ensures { result ≡ self.now.count }
    {
        self.count
    }

    /// Takes a symbol, and answers the byte that it fills, if any.
    #[inline]
    fn take_symbol(&mut self, code: &Code, symbol: u32) -> Option<u32>
        requires code { IsReaderFor code.now self.old }
        requires symbol { symbol < 2 }
        ensures code { IsReaderFor code.now self.new }
        ensures count { self.new.count ≡ self.old.count }
        ensures small { IfSome result (λ byte. byte < 256) }
        ensures symbols { (symbols bytes : List ℕ) → HasSymbols code.now symbols bytes self.old
            → HasSymbols code.now (symbols ++ symbol ∷ []) (bytes ++ listed result) self.new }
    {
        let whole = self.symbols.add(symbol, 1, code.q)?;
        let block = Block {
            value: u64::from(whole),
        };
        let word = self.blocks.take_block(code, block)?;
        self.bits.add(word, code.p, 8)
    }

    /// Takes the digit of a symbol, and puts the byte that it fills behind the others.
    #[inline]
    fn take_digit(&mut self, code: &Code, symbol: u32, out: &mut Vec<u8>)
        requires table { IsCode code.now }
        requires code { IsReaderFor code.now self.old }
        requires symbol { symbol < 2 }
        requires room { vec_len out.old < vec_capacity out.old }
        requires few { self.old.count < 2 ^ 63 }
        ensures code { IsReaderFor code.now self.new }
        ensures count { self.new.count ≤ self.old.count + 1 }
        ensures len { vec_len out.new ≤ vec_len out.old + 1 }
        ensures capacity { vec_capacity out.new ≡ vec_capacity out.old }
        ensures front { IsFrontOf out.old.items out.new.items }
        ensures text { (text bytes : List ℕ) → HasText code.now text bytes self.old
            → GoesOn code.now text bytes ((48 + symbol) ∷ []) out.old.items out.new.items self.new }
    {
        self.count += 1;
        if let Some(byte) = self.take_symbol(code, symbol) {
            out.push_reserved(byte as u8);
        }
    }

    /// Takes a byte of a text, where it is a digit or passed over.
    #[inline]
    fn take_byte(&mut self, code: &Code, byte: u8, out: &mut Vec<u8>) -> bool
        requires table { IsCode code.now }
        requires code { IsReaderFor code.now self.old }
        requires room { vec_len out.old < vec_capacity out.old }
        requires few { self.old.count < 2 ^ 63 }
        ensures code { IsReaderFor code.now self.new }
        ensures count { self.new.count ≤ self.old.count + 1 }
        ensures len { vec_len out.new ≤ vec_len out.old + 1 }
        ensures capacity { vec_capacity out.new ≡ vec_capacity out.old }
        ensures front { IsFrontOf out.old.items out.new.items }
        ensures text { IsTrue result → (text bytes : List ℕ) → HasText code.now text bytes self.old
            → GoesOn code.now text bytes (byte ∷ []) out.old.items out.new.items self.new }
        ensures bad { result ≡ false → IsBadByte code.now byte }
    {
        if is_blank(byte) {
            return true;
        }
        if byte < b'0' {
            return false;
        }
        if byte > b'1' {
            return false;
        }
        self.take_digit(code, u32::from(byte - b'0'), out);
        true
    }

    /// Takes the digits of eight blocks at a time from the front of a piece, as long as that can be
    /// done, and answers how many bytes it took.
    #[inline(always)]
    fn take_groups(&mut self, code: &Code, sizes: Sizes, piece: &[u8], out: &mut Vec<u8>) -> usize
        requires table { IsCode code.now }
        requires code { IsReaderFor code.now self.old }
        requires sizes { AreSizesOf code.now sizes }
        requires room { vec_len out.old + length piece.now ≤ vec_capacity out.old }
        requires few { self.old.count + length piece.now < 2 ^ 63 }
        ensures code { IsReaderFor code.now self.new }
        ensures inside { result ≤ length piece.now }
        ensures count { self.new.count ≤ self.old.count + result }
        ensures len { vec_len out.new ≤ vec_len out.old + result }
        ensures capacity { vec_capacity out.new ≡ vec_capacity out.old }
        ensures front { IsFrontOf out.old.items out.new.items }
        ensures text { (text bytes : List ℕ) → HasText code.now text bytes self.old
            → GoesOn code.now text bytes (take result piece.now) out.old.items out.new.items
            self.new }
    {
        if sizes.q > 7 || !self.symbols.is_empty() || !self.bits.is_empty() {
            return 0;
        }
        let WindowDecoder::Short(decoder) = &mut self.blocks else {
            return 0;
        };
        if !decoder.takes_eight(code, sizes) {
            return 0;
        }
        let taken = decoder.take_groups(code, sizes, self.digits.as_slice(), piece, out);
        self.count += taken as u64;
        taken
    }

    /// The same; the usual rates have their own code, in which shifts are fixed.
    #[inline]
    fn take_front(&mut self, code: &Code, piece: &[u8], out: &mut Vec<u8>) -> usize
        requires table { IsCode code.now }
        requires code { IsReaderFor code.now self.old }
        requires room { vec_len out.old + length piece.now ≤ vec_capacity out.old }
        requires few { self.old.count + length piece.now < 2 ^ 63 }
        ensures code { IsReaderFor code.now self.new }
        ensures inside { result ≤ length piece.now }
        ensures count { self.new.count ≤ self.old.count + result }
        ensures len { vec_len out.new ≤ vec_len out.old + result }
        ensures capacity { vec_capacity out.new ≡ vec_capacity out.old }
        ensures front { IsFrontOf out.old.items out.new.items }
        ensures text { (text bytes : List ℕ) → HasText code.now text bytes self.old
            → GoesOn code.now text bytes (take result piece.now) out.old.items out.new.items
            self.new }
    {
        let sizes = Sizes::of(code);
        match (sizes.p, sizes.q) {
            (2, 3) => self.take_groups(
                code,
                Sizes {
                    p: 2,
                    q: 3,
                    ..sizes
                },
                piece,
                out,
            ),
            (1, 2) => self.take_groups(
                code,
                Sizes {
                    p: 1,
                    q: 2,
                    ..sizes
                },
                piece,
                out,
            ),
            _ => self.take_groups(code, sizes, piece, out),
        }
    }

    /// Takes a piece of a text up to its first byte that is neither a digit nor passed over, and
    /// answers where that stands.
    pub(crate) fn take_piece(
        &mut self,
        code: &Code,
        piece: &[u8],
        out: &mut Vec<u8>,
    ) -> Option<usize>
        requires table { IsCode code.now }
        requires code { IsReaderFor code.now self.old }
        requires room { vec_len out.old + length piece.now ≤ vec_capacity out.old }
        requires few { self.old.count + length piece.now < 2 ^ 63 }
        ensures code { IsReaderFor code.now self.new }
        ensures count { self.new.count ≤ self.old.count + length piece.now }
        ensures place { IfSome result (λ at. at < length piece.now) }
        ensures front { IsFrontOf out.old.items out.new.items }
        ensures text { (text bytes : List ℕ) → HasText code.now text bytes self.old
            → TakesPiece code.now text bytes piece.now out.old.items out.new.items self.new result }
    {
        let mut at = 0;
        while at < piece.len() {
            let taken = self.take_front(code, &piece[at..], out);
            if taken > 0 {
                at += taken;
            } else if self.take_byte(code, piece[at], out) {
                at += 1;
            } else {
                return Some(at);
            }
        }
        None
    }
}

/// Whether a byte is a line feed, a carriage return or a space.
#[inline]
fn is_blank(byte: u8) -> bool
    ensures { result ≡ is_blank byte }
{
    byte == b'\n' || byte == b'\r' || byte == b' '
}
