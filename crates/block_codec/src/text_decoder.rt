ghost use Rattle.std.specs.Prelude.{◌≡◌, ℕ, ◌+◌, ◌%◌, ◌^◌, ◌<◌, ◌≤◌, ◌↔◌, List, [], ◌++◌, length, drop, Result, IfOk, IsTrue, OnErr, OnOk};
ghost use Rattle.code_spec.specs.Code.{CodeData, IsCode};
ghost use Rattle.code_spec.specs.PlainReading.{IsPlainFront};
ghost use Rattle.block_codec.specs.inside.Readers.{IsFrontOf};
ghost use Rattle.block_codec.specs.TextDecoding.{IsTextDecoderFor, bytes_come, TextHasCome, TakesText, EndsText};

use crate::fault::TextFault;
use crate::reader::Reader;
use code_model::CheckedCode;
use code_spec::EndFault;
use std::alloc::Global;
use symbol_base::NoMemory;

/// A decoder of plain channel text, which is fed in pieces of any length.
#[derive(Debug, Drop)]
pub struct TextDecoder {
    reader: Reader,
    p: u32,
    q: u32,
    lead: u32,
    taken: u64,
    fault: Option<u64>,
}

/// Whether so many symbols fill blocks of `q` symbols; none does where `q` is 0.
fn are_whole_blocks(symbols: u64, q: u64) -> bool
    ensures { IsTrue result ↔ (0 < q) × (symbols % q ≡ 0) }
{
    if q == 0 {
        return false;
    }
    symbols % q == 0
}

impl TextDecoder {
    /// A decoder for the code, to which nothing has come.
    pub fn new(alloc: Global, code: &CheckedCode) -> Result<TextDecoder, NoMemory>
        ensures code { IfOk result (IsTextDecoderFor code.now) }
        ensures come { IfOk result (λ decoder. TextHasCome code.now decoder []) }
        ensures none { IfOk result (λ decoder. bytes_come decoder ≡ 0) }
    {
        let table = code.code();
        let reader = Reader::new(alloc, table)?;
        Ok(TextDecoder {
            reader,
            p: table.p,
            q: table.q,
            lead: table.past + table.ahead,
            taken: 0,
            fault: None,
        })
    }

    /// Takes a piece of a text, and puts the bytes that it completes behind the others.
    ///
    /// After `BadSymbol` every feed answers the same. `NoMemory` comes before anything is taken.
    pub fn feed(
        &mut self,
        code: &CheckedCode,
        piece: &[u8],
        out: &mut Vec<u8>,
    ) -> Result<(), TextFault>
        requires code { IsTextDecoderFor code.now self.old }
        requires small { bytes_come self.old + length piece.now ≤ 2 ^ 40 }
        ensures code { IsTextDecoderFor code.now self.new }
        ensures come { (text : List ℕ) → TextHasCome code.now self.old text
            → TakesText code.now self.old self.new text piece.now result }
        ensures bytes { OnOk result
            ((text front : List ℕ) → TextHasCome code.now self.old text
            → IsPlainFront code.now text front
            → IsPlainFront code.now (text ++ piece.now)
            (front ++ drop (length out.old.items) out.new.items)) }
        ensures before { IsFrontOf out.old.items out.new.items }
        ensures refused { OnErr result (out.new.items ≡ out.old.items) }
        ensures counted { OnOk result
            (bytes_come self.new ≡ bytes_come self.old + length piece.now) }
    {
        if let Some(at) = self.fault {
            return Err(TextFault::BadSymbol(at));
        }
        if out.reserve(piece.len()).is_err() {
            return Err(TextFault::NoMemory);
        }
        let before = out.len();
        let taken = self.taken;
        self.taken = taken + piece.len() as u64;
        match self.reader.take_piece(code.code(), piece, out) {
            None => Ok(()),
            Some(place) => {
                out.truncate(before);
                let at = taken + place as u64;
                self.fault = Some(at);
                Err(TextFault::BadSymbol(at))
            }
        }
    }

    /// How many bytes the file of the text has that has come, or why it is the text of no file.
    pub fn end(&self) -> Result<u64, EndFault>
        ensures end { (c : CodeData) (text : List ℕ) → IsCode c → IsTextDecoderFor c self.now
            → TextHasCome c self.now text
            → EndsText c text result }
    {
        if let Some(at) = self.fault {
            return Err(EndFault::BadSymbol(at));
        }
        let symbols = self.reader.count();
        let q = u64::from(self.q);
        if !are_whole_blocks(symbols, q) {
            return Err(EndFault::PartBlock(symbols));
        }
        let blocks = symbols / q;
        let lead = u64::from(self.lead);
        if blocks < lead {
            return Err(EndFault::TooShort(blocks));
        }
        let words = blocks - lead;
        let p = u64::from(self.p);
        let bits = words.saturating_mul(p);
        if bits % 8 >= p {
            return Err(EndFault::PartByte(words));
        }
        Ok(bits / 8)
    }
}
