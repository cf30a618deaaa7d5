ghost use Rattle.std.specs.Prelude.{◌≡◌, ◌-◌, [], ◌++◌, length, take, drop, min, Some, IfOk, IsErr, OnOk, OnErr, MatchOption, option_copied};
ghost use Rattle.shelf_io.specs.Faults.{Counted, Counts};
ghost use Rattle.shelf_io.specs.Calls.{FailsNext, OneMore};
ghost use Rattle.shelf_io.specs.Shelf.{with_file, appended};
ghost use Rattle.shelf_io.specs.Sink.{IsTaken};
ghost use Rattle.shelf_io.specs.Entries.{files_of, IsNowhere, IsFirstAt};
ghost use Rattle.shelf_io.specs.InMemory.{IsLengthCall, IsReadCall, IsMakeCall, IsPutCall};

use crate::failing_calls::FailingCalls;
use crate::outside::{Failed, Shelf, TextSink, Unread, one_more};
use std::alloc::Global;
use std::marker::Model;
use symbol_base::NoMemory;

#[derive(Drop)]
struct StoredFile {
    name: String,
    bytes: Vec<u8>,
}

impl Model for StoredFile {
    ghost use Rattle.std.specs.Prelude.{string_bytes};
    ghost use Rattle.shelf_io.specs.Entries.{Entry};

    ghost Value = { Entry };

    ghost view = { λ file. record { name = string_bytes file.name; bytes = file.bytes.items } };
}

/// Files in memory.
#[derive(Drop)]
pub struct MemoryShelf {
    alloc: Global,
    files: Vec<StoredFile>,
    faults: u64,
}

impl Model for MemoryShelf {
    ghost use Rattle.shelf_io.specs.Entries.{Kept};

    ghost Value = { Kept };

    ghost view = { λ shelf. record { entries = shelf.files.items; faults = shelf.faults } };
}

impl MemoryShelf {
    /// A shelf with no files.
    pub fn new(alloc: Global) -> MemoryShelf
        ensures files { result.entries ≡ [] }
        ensures faults { result.faults ≡ 0 }
    {
        MemoryShelf {
            alloc,
            files: Vec::new(alloc),
            faults: 0,
        }
    }

    /// Gives the file of this name exactly these bytes, whether it was there or not.
    pub fn add(&mut self, name: &str, bytes: &[u8]) -> Result<(), NoMemory>
        ensures ok { OnOk result
            (files_of self.new.entries ≡ with_file (files_of self.old.entries) name.now bytes.now) }
        ensures err { OnErr result (self.new ≡ self.old) }
        ensures count { self.new.faults ≡ self.old.faults }
    {
        let content = Vec::from_slice(self.alloc, bytes)?;
        self.keep(name, content)
    }

    /// The bytes of the file, and `None` where there is no such file.
    pub fn file(&self, name: &str) -> Option<&[u8]>
        ensures { option_copied result ≡ files_of self.now.entries name.now }
    {
        let index = self.position(name)?;
        let file = &self.files[index];
        Some(file.bytes.as_slice())
    }

    fn keep(&mut self, name: &str, content: Vec<u8>) -> Result<(), NoMemory>
        ensures ok { OnOk result
            (files_of self.new.entries
            ≡ with_file (files_of self.old.entries) name.now content.items) }
        ensures err { OnErr result (self.new ≡ self.old) }
        ensures count { self.new.faults ≡ self.old.faults }
    {
        match self.position(name) {
            Some(index) => {
                let file = &mut self.files[index];
                file.bytes = content;
            }
            None => {
                let name = String::from_str(self.alloc, name)?;
                self.files.push(StoredFile {
                    name,
                    bytes: content,
                })?;
            }
        }
        Ok(())
    }

    fn extend(&mut self, name: &str, bytes: &[u8]) -> Result<(), NoMemory>
        ensures ok { OnOk result
            (files_of self.new.entries ≡ appended name.now bytes.now (files_of self.old.entries)) }
        ensures err { OnErr result (self.new ≡ self.old) }
        ensures count { self.new.faults ≡ self.old.faults }
    {
        match self.position(name) {
            Some(index) => {
                let file = &mut self.files[index];
                file.bytes.extend_from_slice(bytes)?;
                Ok(())
            }
            None => self.add(name, bytes),
        }
    }

    fn fault(&mut self) -> Failed
        ensures entries { self.new.entries ≡ self.old.entries }
        ensures counted { Counted self.old.faults self.new.faults }
    {
        self.faults = one_more(self.faults);
        Failed
    }

    fn position(&self, name: &str) -> Option<usize>
        ensures { MatchOption result (IsNowhere self.now.entries name.now)
            (IsFirstAt self.now.entries name.now) }
    {
        for (index, file) in self.files.iter().enumerate() {
            if file.name.as_str() == name {
                return Some(index);
            }
        }
        None
    }
}

impl Shelf for MemoryShelf {
    ghost files = { λ shelf. Some (files_of shelf.entries) };

    ghost faults = { λ shelf. shelf.faults };

    /// Never fails.
    fn length(&mut self, name: &str) -> Result<u64, Unread>
        ensures { IsLengthCall name.now self.old self.new result }
    {
        match self.file(name) {
            Some(bytes) => Ok(bytes.len() as u64),
            None => Err(Unread::Missing),
        }
    }

    /// Never fails, and reads all bytes from `at` on that find room.
    fn read(&mut self, name: &str, at: u64, room: &mut [u8]) -> Result<usize, Unread>
        ensures { IsReadCall name.now at room.old room.new self.old self.new result }
    {
        match self.file(name) {
            Some(bytes) => Ok(copy_from(bytes, at, room)),
            None => Err(Unread::Missing),
        }
    }

    /// Fails only for a refused growth, and then changes no file.
    fn make(&mut self, name: &str) -> Result<(), Failed>
        ensures { IsMakeCall name.now self.old self.new result }
    {
        let empty = Vec::new(self.alloc);
        if self.keep(name, empty).is_err() {
            return Err(self.fault());
        }
        Ok(())
    }

    /// Puts all bytes. Fails only for a refused growth, and then changes no file.
    fn put(&mut self, name: &str, bytes: &[u8]) -> Result<usize, Failed>
        ensures { IsPutCall name.now bytes.now self.old self.new result }
    {
        if self.extend(name, bytes).is_err() {
            return Err(self.fault());
        }
        Ok(bytes.len())
    }
}

/// Copies bytes from place `at` on to the front of the room, and answers how many.
fn copy_from(bytes: &[u8], at: u64, room: &mut [u8]) -> usize
    ensures count { result ≡ min (length room.old) (length bytes.now - at) }
    ensures room { room.new
        ≡ take (length room.old) (drop at bytes.now) ++ drop (length bytes.now - at) room.old }
{
    let from = bytes.len().min(at as usize);
    let rest = &bytes[from..];
    let count = rest.len().min(room.len());
    room[..count].copy_from_slice(&rest[..count]);
    count
}

/// Text in memory, where some puts fail by their number: the first put is number 1.
#[derive(Drop)]
pub struct MemorySink {
    text: Vec<u8>,
    calls: FailingCalls,
    faults: u64,
}

impl Model for MemorySink {
    ghost use Rattle.shelf_io.specs.Entries.{Taken};

    ghost Value = { Taken };

    ghost view = { λ sink. record { text = sink.text.items; calls = sink.calls; faults = sink.faults } };
}

impl MemorySink {
    /// A sink with no text, on which the puts with these numbers fail.
    pub fn new(alloc: Global, failing: Vec<u64>) -> MemorySink
        ensures text { result.text ≡ [] }
        ensures made { result.calls.made ≡ 0 }
        ensures failing { result.calls.failing ≡ failing.items }
        ensures faults { result.faults ≡ 0 }
    {
        MemorySink {
            text: Vec::new(alloc),
            calls: FailingCalls::new(failing),
            faults: 0,
        }
    }

    /// All that it has taken.
    pub fn text(&self) -> &[u8]
        ensures { result.now ≡ self.now.text }
    {
        self.text.as_slice()
    }
}

impl TextSink for MemorySink {
    ghost written = { λ sink. Some sink.text };

    ghost faults = { λ sink. sink.faults };

    /// Takes all of a piece. Fails where its number is listed, and else only for a refused growth.
    fn put(&mut self, bytes: &[u8]) -> Result<usize, Failed>
        ensures calls { OneMore self.old.calls self.new.calls }
        ensures listed { FailsNext self.old.calls → IsErr result }
        ensures whole { IfOk result (λ k. k ≡ length bytes.now) }
        ensures takes { IsTaken bytes.now (Some self.old.text) (Some self.new.text) result }
        ensures count { Counts self.old.faults self.new.faults result }
    {
        if self.calls.next_fails() || self.text.extend_from_slice(bytes).is_err() {
            self.faults = one_more(self.faults);
            return Err(Failed);
        }
        Ok(bytes.len())
    }
}
