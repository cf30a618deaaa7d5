ghost use Rattle.std.specs.Prelude.{◌≡◌, string_bytes, option_map};
ghost use Rattle.shelf_io.specs.Faults.{Counts};
ghost use Rattle.command_steps.specs.Promise.{seen};
ghost use Rattle.command_steps.specs.Answer.{Answer, writes, prints, IsWritten, IsOutput, Delivers};
ghost use Rattle.command_steps.specs.Ends.{text_left};

use crate::status::Status;
use shelf_io::{Failed, Shelf, put_all};
use std::marker::Model;

/// An answer that is ready to be given: all memory that giving it needs is taken.
pub trait Delivery: Drop {
    ghost answer: { Self → Answer };

    /// Writes the output of the answer as the named file, and gives what is left to print, or the
    /// status that isn't `Done`. After a fault the file is untouched or a front of the output.
    fn deliver<F: Shelf>(self, shelf: &mut F, name: &str) -> Result<String, Status>
        ensures delivers { Delivers (answer self) name.now (seen F.files F.faults shelf.old)
            (seen F.files F.faults shelf.new) (text_left result) };
}

/// What a command answers: its status, the bytes of its output file, where it writes one, and what
/// it prints.
#[derive(Drop)]
pub struct Reply {
    status: Status,
    output: Option<Vec<u8>>,
    printed: String,
}

impl Model for Reply {
    ghost use Rattle.command_steps.specs.Answer.{Answer};

    ghost Value = { Answer };

    ghost use Rattle.command_steps.specs.Reply.{answer_seen, IsDoneOrRefused};

    ghost view = { answer_seen };

    ghost invariant = { IsDoneOrRefused };
}

impl Reply {
    /// The command was done, these bytes are its output file, and this is printed.
    pub fn writes(bytes: Vec<u8>, printed: String) -> Reply
        ensures { result ≡ writes bytes.items (string_bytes printed) }
    {
        Reply {
            status: Status::Done,
            output: Some(bytes),
            printed,
        }
    }

    /// The command was done, writes no file, and prints this.
    pub fn prints(printed: String) -> Reply
        ensures { result ≡ prints (string_bytes printed) }
    {
        Reply {
            status: Status::Done,
            output: None,
            printed,
        }
    }
}

/// Writes a file. After a fault a front of the bytes is there, or the file is untouched.
fn write_file<F: Shelf>(shelf: &mut F, name: &str, bytes: &[u8]) -> Result<(), Failed>
    ensures written { IsWritten name.now bytes.now (F.files shelf.old) (F.files shelf.new) result }
    ensures count { Counts (F.faults shelf.old) (F.faults shelf.new) result }
{
    shelf.make(name)?;
    put_all(shelf, name, bytes)
}

/// Writes the output, where there is one.
#[tactic(auto, using(crate::proofs::EndLaws::outputs))]
fn write_output<F: Shelf>(shelf: &mut F, name: &str, output: &Option<Vec<u8>>) -> Result<(), Failed>
    ensures { IsOutput name.now (option_map (λ bytes. bytes.items) output.now)
        (seen F.files F.faults shelf.old) (seen F.files F.faults shelf.new) result }
{
    match output {
        None => Ok(()),
        Some(bytes) => write_file(shelf, name, bytes.as_slice()),
    }
}

impl Delivery for Reply {
    ghost answer = { λ reply. reply };

    #[tactic(auto, using(crate::specs::Answer::delivered, crate::specs::Answer::lost, crate::specs::Answer::broken))]
    fn deliver<F: Shelf>(self, shelf: &mut F, name: &str) -> Result<String, Status> {
        let Reply {
            status,
            output,
            printed,
        } = self;
        match write_output(shelf, name, &output) {
            Err(_) => Err(Status::ShelfFault),
            Ok(()) if status == Status::Done => Ok(printed),
            Ok(()) => Err(status),
        }
    }
}
