ghost use Rattle.std.specs.Prelude.{◌≡◌, ◌↔◌, Some, IsErr};
ghost use Rattle.shelf_io.specs.Faults.{Counted, Counts, CountsUnread};
ghost use Rattle.shelf_io.specs.Calls.{FailsNext, OneMore};
ghost use Rattle.shelf_io.specs.Shelf.{OnFile, IsLength, IsRead, KeepsRoom, IsMade, IsPut};
ghost use Rattle.shelf_io.specs.Entries.{files_of};
ghost use Rattle.shelf_io.specs.InMemory.{IsLengthCall, IsReadCall, IsMakeCall, IsPutCall};

use crate::failing_calls::FailingCalls;
use crate::in_memory::MemoryShelf;
use crate::outside::{Failed, Shelf, Unread, one_more};
use std::marker::Model;

/// Files in memory, where some calls fail by their number: the first call on the shelf is number 1.
///
/// A call that fails by its number changes nothing. Every other call is that of the shelf inside.
#[derive(Drop)]
pub struct FailingShelf {
    inner: MemoryShelf,
    calls: FailingCalls,
    faults: u64,
}

impl Model for FailingShelf {
    ghost use Rattle.shelf_io.specs.Entries.{Failing};

    ghost Value = { Failing };

    ghost view = { λ shelf. record { inner = shelf.inner; calls = shelf.calls; faults = shelf.faults } };
}

impl FailingShelf {
    /// A shelf of these files, on which the calls with these numbers fail.
    pub fn new(inner: MemoryShelf, failing: Vec<u64>) -> FailingShelf
        ensures inner { result.inner ≡ inner }
        ensures made { result.calls.made ≡ 0 }
        ensures failing { result.calls.failing ≡ failing.items }
        ensures faults { result.faults ≡ 0 }
    {
        FailingShelf {
            inner,
            calls: FailingCalls::new(failing),
            faults: 0,
        }
    }

    /// The shelf inside.
    pub fn inner(&self) -> &MemoryShelf
        ensures { result.now ≡ self.now.inner }
    {
        &self.inner
    }

    fn fault(&mut self) -> Failed
        ensures inner { self.new.inner ≡ self.old.inner }
        ensures calls { self.new.calls ≡ self.old.calls }
        ensures counted { Counted self.old.faults self.new.faults }
    {
        self.faults = one_more(self.faults);
        Failed
    }

    /// Counts a call, which fails where its number is listed.
    fn count_call(&mut self) -> Result<(), Failed>
        ensures listed { IsErr result ↔ FailsNext self.old.calls }
        ensures inner { self.new.inner ≡ self.old.inner }
        ensures calls { OneMore self.old.calls self.new.calls }
        ensures count { Counts self.old.faults self.new.faults result }
    {
        if self.calls.next_fails() {
            return Err(self.fault());
        }
        Ok(())
    }
}

impl Shelf for FailingShelf {
    ghost files = { λ shelf. Some (files_of shelf.inner.entries) };

    ghost faults = { λ shelf. shelf.faults };

    fn length(&mut self, name: &str) -> Result<u64, Unread>
        ensures calls { OneMore self.old.calls self.new.calls }
        ensures listed { FailsNext self.old.calls → result ≡ Err Unread.Failed }
        ensures other { ¬ FailsNext self.old.calls
            → IsLengthCall name.now self.old.inner self.new.inner result }
        ensures value { OnFile (Some (files_of self.old.inner.entries)) name.now (IsLength result) }
        ensures same { self.new.inner ≡ self.old.inner }
        ensures count { CountsUnread self.old.faults self.new.faults result }
    {
        if self.count_call().is_err() {
            return Err(Unread::Failed);
        }
        self.inner.length(name)
    }

    fn read(&mut self, name: &str, at: u64, room: &mut [u8]) -> Result<usize, Unread>
        ensures calls { OneMore self.old.calls self.new.calls }
        ensures listed { FailsNext self.old.calls → result ≡ Err Unread.Failed }
        ensures other { ¬ FailsNext self.old.calls
            → IsReadCall name.now at room.old room.new self.old.inner self.new.inner result }
        ensures bytes { OnFile (Some (files_of self.old.inner.entries)) name.now
            (IsRead at room.new result) }
        ensures room { KeepsRoom room.old room.new result }
        ensures same { self.new.inner ≡ self.old.inner }
        ensures count { CountsUnread self.old.faults self.new.faults result }
    {
        if self.count_call().is_err() {
            return Err(Unread::Failed);
        }
        self.inner.read(name, at, room)
    }

    fn make(&mut self, name: &str) -> Result<(), Failed>
        ensures calls { OneMore self.old.calls self.new.calls }
        ensures listed { FailsNext self.old.calls
            → IsErr result × (self.new.inner ≡ self.old.inner) }
        ensures other { ¬ FailsNext self.old.calls
            → IsMakeCall name.now self.old.inner self.new.inner result }
        ensures made { IsMade name.now (Some (files_of self.old.inner.entries))
            (Some (files_of self.new.inner.entries)) result }
        ensures count { Counts self.old.faults self.new.faults result }
    {
        self.count_call()?;
        match self.inner.make(name) {
            Ok(()) => Ok(()),
            Err(Failed) => Err(self.fault()),
        }
    }

    fn put(&mut self, name: &str, bytes: &[u8]) -> Result<usize, Failed>
        ensures calls { OneMore self.old.calls self.new.calls }
        ensures listed { FailsNext self.old.calls
            → IsErr result × (self.new.inner ≡ self.old.inner) }
        ensures other { ¬ FailsNext self.old.calls
            → IsPutCall name.now bytes.now self.old.inner self.new.inner result }
        ensures appends { IsPut name.now bytes.now (Some (files_of self.old.inner.entries))
            (Some (files_of self.new.inner.entries)) result }
        ensures count { Counts self.old.faults self.new.faults result }
    {
        self.count_call()?;
        match self.inner.put(name, bytes) {
            Ok(count) => Ok(count),
            Err(Failed) => Err(self.fault()),
        }
    }
}
