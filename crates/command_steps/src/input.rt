ghost use Rattle.std.specs.Prelude.{◌≤◌, [], ◌∷◌, length, IfOk};
ghost use Rattle.command_steps.specs.Inputs.{ReadsInputs, whole_input};
ghost use Rattle.command_steps.specs.Step.{InputAt};
ghost use Rattle.command_steps.specs.Promise.{Follows, seen};

use crate::status::Status;
use shelf_io::{ReadAllFault, Shelf, read_all};
use std::alloc::Global;

/// Reads an input file of a command, whose name is the word at this place, of at most `limit`
/// bytes.
#[tactic(auto, using(crate::proofs::InputLaws::input_found, crate::proofs::InputLaws::input_missing, crate::proofs::InputLaws::input_too_long, crate::proofs::InputLaws::seen_is, crate::proofs::InputLaws::reads, crate::specs::Promise::fault, crate::specs::Promise::memory))]
pub fn read_input<F: Shelf>(
    alloc: Global,
    shelf: &mut F,
    name: &str,
    place: u32,
    limit: u64,
) -> Result<Vec<u8>, Status>
    ensures input { Follows (λ v. v.items) (InputAt name.now place limit)
        (seen F.files F.faults shelf.old) (seen F.files F.faults shelf.new) result }
    ensures reads { ReadsInputs F.read_gives (whole_input name.now place limit ∷ []) shelf.old
        shelf.new result }
    ensures within { IfOk result (λ v. length v.items ≤ limit) }
{
    match read_all(alloc, shelf, name, limit) {
        Ok(bytes) => Ok(bytes),
        Err(ReadAllFault::Failed) => Err(Status::ShelfFault),
        Err(ReadAllFault::Missing) => Err(Status::FileMissing(place)),
        Err(ReadAllFault::TooLong(limit)) => Err(Status::FileTooLong(limit)),
        Err(ReadAllFault::NoMemory) => Err(Status::NoMemory),
    }
}
