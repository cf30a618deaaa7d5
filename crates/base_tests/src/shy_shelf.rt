//! Files read and put as a whole, over a shelf that does as little as it may.

ghost use Rattle.std.specs.Prelude.{None};

use shelf_io::{Failed, FailingShelf, MemoryShelf, ReadAllFault, Shelf, Unread, put_all, read_all};
use std::alloc::Global;
use std::process::Abort;
use symbol_base::NoMemory;

/// A shelf that tells nothing, gives one byte at a time, takes at most three of a piece, and has no
/// file after some reads.
#[derive(Drop)]
struct ShyShelf<S: Shelf> {
    inner: S,
    reads: u64,
    lasting: u64,
}

fn shy_shelf(
    alloc: Global,
    inner: MemoryShelf,
    failing: u64,
    lasting: u64,
) -> Result<ShyShelf<FailingShelf>, NoMemory> {
    Ok(ShyShelf {
        inner: FailingShelf::new(inner, Vec::from_slice(alloc, &[failing])?),
        reads: 0,
        lasting,
    })
}

impl<S: Shelf> Shelf for ShyShelf<S> {
    ghost files = { λ _. None };

    ghost faults = { λ shelf. S.faults shelf.inner };

    fn length(&mut self, name: &str) -> Result<u64, Unread> {
        self.inner.length(name)
    }

    fn read(&mut self, name: &str, at: u64, room: &mut [u8]) -> Result<usize, Unread> {
        self.reads = self.reads.saturating_add(1);
        if self.reads > self.lasting {
            return Err(Unread::Missing);
        }
        let mut byte = [0];
        let asked = room.len().min(1);
        let count = self.inner.read(name, at, &mut byte[..asked])?;
        room[..count].copy_from_slice(&byte[..count]);
        Ok(count)
    }

    fn make(&mut self, name: &str) -> Result<(), Failed> {
        self.inner.make(name)
    }

    fn put(&mut self, name: &str, bytes: &[u8]) -> Result<usize, Failed> {
        self.inner.put(name, &bytes[..bytes.len().min(3)])
    }
}

/// Reads the file `abc` a byte at a time where one read fails and the file lasts for some, and
/// shows what that answers and how many reads it makes.
fn assert_reads(
    rt: &impl Abort,
    alloc: Global,
    failing: u64,
    lasting: u64,
    fault: Option<ReadAllFault>,
    reads: u64,
) -> Result<(), NoMemory> {
    let mut files = MemoryShelf::new(alloc);
    files.add("file", b"abc")?;
    let mut shelf = shy_shelf(alloc, files, failing, lasting)?;
    match read_all(alloc, &mut shelf, "file", 3) {
        Ok(bytes) => assert!(rt; fault.is_none() && bytes.as_slice() == b"abc".as_slice()),
        Err(answered) => assert!(rt; fault == Some(answered)),
    }
    assert!(rt; shelf.reads == reads);
    Ok(())
}

#[test]
fn a_file_is_read_to_the_read_that_gives_nothing(rt: HostRuntime) -> Result<(), NoMemory> {
    let alloc = rt.alloc();
    assert_reads(&rt, alloc, 5, 4, None, 4)?;
    assert_reads(&rt, alloc, 4, 4, Some(ReadAllFault::Failed), 4)?;
    assert_reads(&rt, alloc, 2, 4, Some(ReadAllFault::Failed), 2)?;
    assert_reads(&rt, alloc, 5, 3, Some(ReadAllFault::Missing), 4)?;
    assert_reads(&rt, alloc, 5, 1, Some(ReadAllFault::Missing), 2)?;
    assert_reads(&rt, alloc, 5, 0, Some(ReadAllFault::Missing), 1)
}

/// Puts a text three bytes at a time where one put fails, and shows what is left of it.
fn assert_put(
    rt: &impl Abort,
    alloc: Global,
    failing: u64,
    text: &[u8],
    left: Option<&[u8]>,
) -> Result<(), NoMemory> {
    let mut shelf = shy_shelf(alloc, MemoryShelf::new(alloc), failing, 0)?;
    let ended = put_all(&mut shelf, "text", text);
    assert!(rt; ended.is_ok() == (left == Some(text) || text.is_empty()));
    assert!(rt; shelf.inner.inner().file("text") == left);
    Ok(())
}

#[test]
fn a_text_is_put_piece_by_piece(rt: HostRuntime) -> Result<(), NoMemory> {
    let alloc = rt.alloc();
    assert_put(&rt, alloc, 5, b"", None)?;
    assert_put(&rt, alloc, 5, b"010111011", Some(b"010111011"))?;
    assert_put(&rt, alloc, 2, b"01011101", Some(b"010"))
}
