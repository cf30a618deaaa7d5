//! Commands over a shelf whose files vanish while they are read.

ghost use Rattle.std.specs.Prelude.{None};

use crate::failing::{three_files, words};
use command_steps::{Status, status_line};
use shelf_io::{Failed, MemoryShelf, MemorySink, Shelf, Unread};
use std::alloc::Global;
use std::process::Abort;
use std::test::Fail;
use workbench::run;

/// A shelf whose files are there for so many reads, and gone then.
#[derive(Drop)]
struct VanishingShelf {
    inner: MemoryShelf,
    lasting: u64,
}

impl Shelf for VanishingShelf {
    ghost files = { λ shelf. None };

    ghost faults = { λ shelf. shelf.inner.faults };

    fn length(&mut self, name: &str) -> Result<u64, Unread> {
        self.inner.length(name)
    }

    fn read(&mut self, name: &str, at: u64, room: &mut [u8]) -> Result<usize, Unread> {
        if self.lasting == 0 {
            return Err(Unread::Missing);
        }
        self.lasting -= 1;
        self.inner.read(name, at, room)
    }

    fn make(&mut self, name: &str) -> Result<(), Failed> {
        self.inner.make(name)
    }

    fn put(&mut self, name: &str, bytes: &[u8]) -> Result<usize, Failed> {
        self.inner.put(name, bytes)
    }
}

/// Runs a command over files that are there for so many reads, and shows which file it misses then:
/// no front of a file is taken for the whole, and nothing is written.
fn assert_missing(
    rt: &impl Abort,
    alloc: Global,
    words: &[String],
    lasting: u64,
    place: u32,
) -> Result<(), Fail> {
    let mut shelf = VanishingShelf {
        inner: three_files(alloc)?,
        lasting,
    };
    let mut out = MemorySink::new(alloc, Vec::new(alloc));
    let ended = run(alloc, words, &mut shelf, &mut out);
    assert!(rt; ended == Status::FileMissing(place));
    assert!(rt; out.text() == status_line(alloc, &ended)?.as_slice());
    assert!(rt; shelf.inner.file("new") == None);
    Ok(())
}

// A code file takes two reads to its end, and so do a text and a data file.
#[test]
fn a_file_that_vanishes_is_missing(rt: HostRuntime) -> Result<(), Fail> {
    let alloc = rt.alloc();
    let decode = words(alloc, "decode", "old")?;
    assert_missing(&rt, alloc, decode.as_slice(), 1, 1)?;
    assert_missing(&rt, alloc, decode.as_slice(), 3, 2)?;
    let encode = words(alloc, "encode", "data")?;
    assert_missing(&rt, alloc, encode.as_slice(), 3, 2)
}
