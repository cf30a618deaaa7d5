ghost use Rattle.std.specs.Prelude.{◌≡◌, ℕ, ◌<◌, ◌≤◌, List, length};
ghost use Rattle.command_steps.specs.Pieces.{ReadsPiece, StartsFile, TellsPiece};
ghost use Rattle.command_steps.specs.Promise.{seen};

use crate::status::Status;
use shelf_io::{Shelf, Unread};

/// Puts the next piece of an input file, whose name is the word at this place, at the front of the
/// room, and answers how many bytes it has: none at the end. The file may have at most `limit`
/// bytes, of which the first `at` have come.
#[tactic(auto, using(crate::specs::Pieces::gave_bytes, crate::specs::Pieces::gave_fault, crate::specs::Pieces::gave_nothing))]
pub fn read_piece<F: Shelf>(
    shelf: &mut F,
    name: &str,
    place: u32,
    limit: u64,
    at: u64,
    room: &mut [u8],
) -> Result<usize, Status>
    requires room { 0 < length room.old }
    requires within { at ≤ limit }
    ensures piece { (text : List ℕ) → length text ≡ at → StartsFile (F.files shelf.old) name.now text
        → ReadsPiece name.now place limit text room.new (seen F.files F.faults shelf.old)
        (seen F.files F.faults shelf.new) result }
    ensures tells { TellsPiece F.read_gives name.now place limit at (length room.old) shelf.old
        shelf.new result }
{
    let count = match shelf.read(name, at, room) {
        Ok(count) => count,
        Err(Unread::Failed) => return Err(Status::ShelfFault),
        Err(Unread::Missing) => return Err(Status::FileMissing(place)),
    };
    if count as u64 > limit - at {
        return Err(Status::FileTooLong(limit));
    }
    Ok(count)
}
