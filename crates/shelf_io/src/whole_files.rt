ghost use Rattle.std.specs.Prelude.{◌≡◌};
ghost use Rattle.shelf_io.specs.Faults.{Counts};
ghost use Rattle.shelf_io.specs.Reads.{EndsReads};
ghost use Rattle.shelf_io.specs.Shelf.{OnFile};
ghost use Rattle.shelf_io.specs.WholeFile.{IsWhole, KeepsLimit, CountsReadAll, IsPutAll};

use crate::outside::{Failed, Shelf, Unread};
use std::alloc::Global;

/// How many bytes are asked for at a time.
const ROOM: usize = 4096;

/// Why a whole file was not read.
#[derive(Clone, Copy, Debug, PartialEq, Eq)]
pub enum ReadAllFault {
    /// The shelf failed, and counted the fault.
    Failed,
    /// There is no such file.
    Missing,
    /// The file has more bytes than this limit.
    TooLong(u64),
    /// Memory was wanted and not found.
    NoMemory,
}

/// All bytes of a file of at most `limit` bytes. No file changes.
///
/// Reads follow one another from the start on until one gives nothing, and none is made twice: the
/// first error is the answer.
pub fn read_all<F: Shelf>(
    alloc: Global,
    shelf: &mut F,
    name: &str,
    limit: u64,
) -> Result<Vec<u8>, ReadAllFault>
    ensures whole { OnFile (F.files shelf.old) name.now (IsWhole limit result) }
    ensures limit { KeepsLimit limit result }
    ensures reads { EndsReads F.read_gives name.now limit shelf.old shelf.new result }
    ensures same { F.files shelf.new ≡ F.files shelf.old }
    ensures count { CountsReadAll (F.faults shelf.old) (F.faults shelf.new) result }
{
    let mut bytes = Vec::new(alloc);
    let mut room = [0; ROOM];
    loop {
        let count = match shelf.read(name, bytes.len() as u64, &mut room) {
            Ok(count) => count,
            Err(Unread::Failed) => return Err(ReadAllFault::Failed),
            Err(Unread::Missing) => return Err(ReadAllFault::Missing),
        };
        if count == 0 {
            return Ok(bytes);
        }
        if count as u64 > limit - bytes.len() as u64 {
            return Err(ReadAllFault::TooLong(limit));
        }
        if bytes.extend_from_slice(&room[..count]).is_err() {
            return Err(ReadAllFault::NoMemory);
        }
    }
}

/// Appends all bytes to a file. No bytes put nothing, and make no file.
pub fn put_all<F: Shelf>(shelf: &mut F, name: &str, bytes: &[u8]) -> Result<(), Failed>
    ensures appends { IsPutAll name.now bytes.now (F.files shelf.old) (F.files shelf.new) result }
    ensures count { Counts (F.faults shelf.old) (F.faults shelf.new) result }
{
    let mut at = 0;
    while at < bytes.len() {
        at += shelf.put(name, &bytes[at..])?;
    }
    Ok(())
}
