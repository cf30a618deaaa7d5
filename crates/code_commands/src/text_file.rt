ghost use Rattle.std.specs.Prelude.{◌≡◌, ℕ, ◌+◌, ◌≤◌, List, [], ◌∷◌, ◌++◌, length, IfOk};
ghost use Rattle.command_steps.specs.Inputs.{ReadsInputs};
ghost use Rattle.command_steps.specs.Promise.{Follows, Decides, seen};
ghost use Rattle.code_commands.specs.Limits.{text_limit};
ghost use Rattle.code_commands.specs.Decode.{channel_fault, text_input, FileAt, FileOf};
ghost use Rattle.code_commands.specs.TextFile.{IsIncomingFor, HasCome};

use block_codec::{EndFault, TextDecoder, TextFault};
use code_model::CheckedCode;
use command_steps::{ChannelFault, Status, read_piece};
use shelf_io::Shelf;
use std::alloc::Global;
use symbol_base::NoMemory;

const TEXT_LIMIT: u64 = 1 << 29;

/// How many bytes are asked for at a time.
const ROOM: usize = 65536;

/// The file that a text file gives, which is read piece by piece.
///
/// It is read to its end behind a bad symbol too: that it is too long is told first.
pub fn read_text<F: Shelf>(
    alloc: Global,
    shelf: &mut F,
    code: &CheckedCode,
    name: &str,
) -> Result<Vec<u8>, Status>
    ensures step { Follows (λ file. file.items) (FileAt code.now name.now)
        (seen F.files F.faults shelf.old) (seen F.files F.faults shelf.new) result }
    ensures reads { ReadsInputs F.read_gives (text_input name.now ∷ []) shelf.old shelf.new result }
{
    let mut incoming = IncomingText::new(alloc, code)?;
    let mut room = [0; ROOM];
    loop {
        let count = read_piece(shelf, name, 2, TEXT_LIMIT, incoming.length, &mut room)?;
        if count == 0 {
            return incoming.end(code);
        }
        incoming.take(code, &room[..count])?;
    }
}

/// A text that comes piece by piece, and what it has given so far.
#[derive(Drop)]
struct IncomingText {
    decoder: TextDecoder,
    file: Vec<u8>,
    length: u64,
    fault: Option<u64>,
}

impl IncomingText {
    /// A text of which nothing has come.
    fn new(alloc: Global, code: &CheckedCode) -> Result<IncomingText, NoMemory>
        ensures code { IfOk result (IsIncomingFor code.now) }
        ensures come { IfOk result (HasCome code.now []) }
    {
        let _code = code.code();
        Ok(IncomingText {
            decoder: TextDecoder::new(alloc, code)?,
            file: Vec::new(alloc),
            length: 0,
            fault: None,
        })
    }

    /// Takes the next piece. What comes behind a bad symbol is passed over.
    fn take(&mut self, code: &CheckedCode, piece: &[u8]) -> Result<(), NoMemory>
        requires code { IsIncomingFor code.now self.old }
        requires within { self.old.length + length piece.now ≤ text_limit }
        ensures code { IfOk result (λ _. IsIncomingFor code.now self.new) }
        ensures length { self.new.length ≡ self.old.length + length piece.now }
        ensures come { IfOk result (λ _.
            (text : List ℕ) → HasCome code.now text self.old
            → HasCome code.now (text ++ piece.now) self.new) }
    {
        self.length += piece.len() as u64;
        if self.fault.is_some() {
            return Ok(());
        }
        match self.decoder.feed(code, piece, &mut self.file) {
            Ok(()) => Ok(()),
            Err(TextFault::BadSymbol(at)) => {
                self.fault = Some(at);
                Ok(())
            }
            Err(TextFault::NoMemory) => Err(NoMemory),
        }
    }

    /// The file of the text, all of which has come.
    fn end(self, code: &CheckedCode) -> Result<Vec<u8>, Status>
        requires code { IsIncomingFor code.now self }
        ensures { (text : List ℕ) → HasCome code.now text self
            → Decides (λ file. file.items) (FileOf code.now text) result }
    {
        let _code = code.code();
        if let Some(at) = self.fault {
            return Err(Status::ChannelRefused(ChannelFault::BadSymbol(at)));
        }
        match self.decoder.end() {
            Ok(_) => Ok(self.file),
            Err(fault) => Err(Status::ChannelRefused(told(fault))),
        }
    }
}

/// The fault that tells how a text ended.
fn told(fault: EndFault) -> ChannelFault
    ensures { result ≡ channel_fault fault }
{
    match fault {
        EndFault::BadSymbol(at) => ChannelFault::BadSymbol(at),
        EndFault::PartBlock(count) => ChannelFault::PartBlock(count),
        EndFault::TooShort(count) => ChannelFault::TooShort(count),
        EndFault::PartByte(count) => ChannelFault::PartByte(count),
    }
}
