ghost use Rattle.std.specs.Prelude.{◌≡◌, ℕ, ◌<◌, ◌≤◌, ⊤, List, Option, length, IfOk};
ghost use Rattle.shelf_io.specs.Faults.{Counted, Counts, CountsUnread};
ghost use Rattle.shelf_io.specs.Reads.{Telling};
ghost use Rattle.shelf_io.specs.Shelf.{Files, OnFile, IsLength, IsRead, KeepsRoom, IsMade, IsPut};
ghost use Rattle.shelf_io.specs.Sink.{IsTaken};

/// The outside failed, and the fault was counted.
#[derive(Clone, Copy, Debug, PartialEq, Eq)]
pub struct Failed;

/// Why nothing was read of a file.
#[derive(Clone, Copy, Debug, PartialEq, Eq)]
pub enum Unread {
    /// The outside failed, and the fault was counted.
    Failed,
    /// There is no such file.
    Missing,
}

/// A place where files are kept under names.
///
/// `files` is, where the shelf tells it, the bytes of each file, and `faults` counts the calls that
/// failed. No call changes whether the files are told, and a call that doesn't fail leaves the
/// count.
pub trait Shelf {
    ghost files: { Self → Option Files };

    ghost faults: { Self → ℕ };

    // what a read tells, if anything
    ghost read_gives: { Telling Self } = { λ _ _ _ _ _ _. ⊤ };

    /// The number of bytes of the file.
    fn length(&mut self, name: &str) -> Result<u64, Unread>
        ensures value { OnFile (files self.old) name.now (IsLength result) }
        ensures same { files self.new ≡ files self.old }
        ensures count { CountsUnread (faults self.old) (faults self.new) result };

    /// Puts the next bytes of the file, from byte `at` on, at the front of the room. Answers how
    /// many, and 0 only where the room is empty or the file has no byte at `at`. What stands behind
    /// the bytes read stays, and an error leaves the whole room.
    fn read(&mut self, name: &str, at: u64, room: &mut [u8]) -> Result<usize, Unread>
        ensures bound { IfOk result (λ n. n ≤ length room.old) }
        ensures bytes { OnFile (files self.old) name.now (IsRead at room.new result) }
        ensures room { KeepsRoom room.old room.new result }
        ensures gives { read_gives self.old name.now at (length room.old) result self.new }
        ensures same { files self.new ≡ files self.old }
        ensures count { CountsUnread (faults self.old) (faults self.new) result };

    /// Makes the file empty, whether it was there or not. A failed call may have done so too.
    fn make(&mut self, name: &str) -> Result<(), Failed>
        ensures made { IsMade name.now (files self.old) (files self.new) result }
        ensures count { Counts (faults self.old) (faults self.new) result };

    /// Appends the first bytes of a piece to the file, which is made first where it isn't there.
    /// Answers how many, and 0 only for an empty piece. A failed call appends nothing, but may have
    /// made the file.
    fn put(&mut self, name: &str, bytes: &[u8]) -> Result<usize, Failed>
        ensures bound { IfOk result (λ k. k ≤ length bytes.now) }
        ensures some { IfOk result (λ k. 0 < length bytes.now → 0 < k) }
        ensures appends { IsPut name.now bytes.now (files self.old) (files self.new) result }
        ensures count { Counts (faults self.old) (faults self.new) result };
}

/// A place where text goes.
///
/// `written` is, where the sink tells it, all that it has taken, and `faults` counts the puts that
/// failed. No call changes whether the text is told, and a call that doesn't fail leaves the count.
pub trait TextSink {
    ghost written: { Self → Option (List ℕ) };

    ghost faults: { Self → ℕ };

    /// Takes the first bytes of a piece. Answers how many, and 0 only for an empty piece. A failed
    /// call takes nothing.
    fn put(&mut self, bytes: &[u8]) -> Result<usize, Failed>
        ensures bound { IfOk result (λ k. k ≤ length bytes.now) }
        ensures some { IfOk result (λ k. 0 < length bytes.now → 0 < k) }
        ensures takes { IsTaken bytes.now (written self.old) (written self.new) result }
        ensures count { Counts (faults self.old) (faults self.new) result };
}

/// The count after one more, which stays at the greatest count.
pub(crate) fn one_more(count: u64) -> u64
    ensures { Counted count result }
{
    count.saturating_add(1)
}
