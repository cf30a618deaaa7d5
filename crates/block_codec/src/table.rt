ghost use Rattle.std.specs.Prelude.{◌≡◌, ℕ, ◌+◌, ◌≤◌, ◌<◌, [], ◌∷◌, ◌++◌, length, take, slice_index, slice_index_or, IfOk};

use std::alloc::Global;
use symbol_base::NoMemory;

/// What a code does in each state with each item of data, which is a byte or a data word.
///
/// The entries of a state stand in the order of the items, behind those of the state before it. An
/// entry's digits stand at the front of a lane of fixed length, so that a lane is copied by one
/// move; the next states stand apart, since each look-up waits for the one before it, and they have
/// to stay close.
#[derive(Drop)]
pub(crate) struct Table<const LANE: usize> {
    /// The digits of each entry.
    pub(crate) lanes: Vec<[u8; LANE]>,
    /// The place of the first entry of the state that each entry leads to.
    pub(crate) next: Vec<u32>,
}

impl<const LANE: usize> Table<LANE> {
    /// No entries, and room for so many.
    pub(crate) fn with_capacity(alloc: Global, entries: usize) -> Result<Table<LANE>, NoMemory>
        ensures lanes { IfOk result (λ t. t.lanes.items ≡ []) }
        ensures next { IfOk result (λ t. t.next.items ≡ []) }
    {
        Ok(Table {
            lanes: Vec::with_capacity(alloc, entries)?,
            next: Vec::with_capacity(alloc, entries)?,
        })
    }

    /// One entry more. After an error the table is of no use.
    pub(crate) fn push(&mut self, lane: [u8; LANE], next: u32) -> Result<(), NoMemory>
        ensures lanes { IfOk result (λ _.
            self.new.lanes.items ≡ self.old.lanes.items ++ lane.entry ∷ []) }
        ensures next { IfOk result (λ _. self.new.next.items ≡ self.old.next.items ++ next ∷ []) }
    {
        self.lanes.push(lane)?;
        self.next.push(next)?;
        Ok(())
    }
}

/// Puts the lane of an entry into the room, from place `at` on, and answers where the next entries
/// begin.
#[inline]
pub(crate) fn put_item<const LANE: usize>(
    lanes: &[[u8; LANE]],
    next: &[u32],
    entry: usize,
    room: &mut [u8],
    at: usize,
) -> u32
    requires lanes { entry < length lanes.now }
    requires next { entry < length next.now }
    requires room { at + LANE ≤ length room.old }
    ensures lane { (n : ℕ) → n ≤ LANE
        → take (at + n) room.new ≡ take at room.old ++ take n (slice_index_or lanes.now entry []) }
    ensures len { length room.new ≡ length room.old }
    ensures next { result ≡ slice_index next.now entry }
{
    room[at..at + LANE].copy_from_slice(&lanes[entry]);
    next[entry]
}
