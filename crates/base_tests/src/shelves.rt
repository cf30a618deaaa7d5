//! Shelves and sinks, each call once where it succeeds.

use shelf_io::{
    Failed, FailingShelf, HostShelf, HostSink, MemoryShelf, MemorySink, Shelf, TextSink, Unread,
};
use std::fs;
use std::process::Abort;
use std::test::Fail;
use symbol_base::NoMemory;

fn holds(shelf: &MemoryShelf, name: &str, bytes: &[u8]) -> bool {
    match shelf.file(name) {
        Some(kept) => kept == bytes,
        None => false,
    }
}

fn assert_put(rt: &impl Abort, shelf: &mut impl Shelf, name: &str, bytes: &[u8]) {
    let put = shelf.put(name, bytes);
    assert!(rt; put == Ok(bytes.len()));
}

/// Reads at most three bytes of a file from a place on, and shows that they are these.
fn assert_read(rt: &impl Abort, shelf: &mut impl Shelf, name: &str, at: u64, bytes: &[u8]) {
    let mut room = [b'.'; 3];
    let read = shelf.read(name, at, &mut room);
    assert!(rt; read == Ok(bytes.len()));
    assert!(rt; &room[..bytes.len()] == bytes);
}

#[test]
fn a_shelf_in_memory_keeps_files(rt: HostRuntime) -> Result<(), NoMemory> {
    let mut shelf = MemoryShelf::new(rt.alloc());
    shelf.add("a", b"first")?;
    shelf.add("a", b"01")?;
    assert_put(&rt, &mut shelf, "a", b"10");
    assert_put(&rt, &mut shelf, "b", b"");
    assert_read(&rt, &mut shelf, "a", 2, b"10");
    assert!(rt; shelf.length("a") == Ok(4));
    assert!(rt; shelf.make("a") == Ok(()));
    assert!(rt; holds(&shelf, "a", b"") && holds(&shelf, "b", b""));
    Ok(())
}

#[test]
fn listed_calls_of_a_failing_shelf_fail(rt: HostRuntime) -> Result<(), NoMemory> {
    let mut inner = MemoryShelf::new(rt.alloc());
    inner.add("file", b"x")?;
    let mut shelf = FailingShelf::new(inner, Vec::from_slice(rt.alloc(), &[4, 2])?);
    assert_put(&rt, &mut shelf, "file", b"01");
    assert!(rt; shelf.length("file") == Err(Unread::Failed));
    assert_read(&rt, &mut shelf, "file", 0, b"x01");
    assert!(rt; shelf.make("file") == Err(Failed));
    assert!(rt; holds(shelf.inner(), "file", b"x01"));
    Ok(())
}

#[test]
fn a_sink_in_memory_takes_text_but_for_listed_puts(rt: HostRuntime) -> Result<(), NoMemory> {
    let mut sink = MemorySink::new(rt.alloc(), Vec::from_slice(rt.alloc(), &[3, 2])?);
    assert!(rt; sink.put(b"states 3\n") == Ok(9));
    assert!(rt; sink.put(b"") == Err(Failed));
    assert!(rt; sink.put(b"ok\n") == Err(Failed));
    assert!(rt; sink.put(b"ok\n") == Ok(3));
    assert!(rt; sink.text() == b"states 3\nok\n".as_slice());
    Ok(())
}

// It reads on where the last read ended, elsewhere, behind a put, and another file between.
#[test]
fn the_host_keeps_files(rt: HostRuntime) -> Result<(), Fail> {
    let mut shelf = HostShelf::new(rt.clone()?);
    assert_put(&rt, &mut shelf, "first.tmp", b"01011");
    assert_put(&rt, &mut shelf, "second.tmp", b"1");
    assert_read(&rt, &mut shelf, "first.tmp", 0, b"010");
    assert_read(&rt, &mut shelf, "first.tmp", 3, b"11");
    assert_read(&rt, &mut shelf, "first.tmp", 5, b"");
    assert_put(&rt, &mut shelf, "first.tmp", b"0");
    assert_read(&rt, &mut shelf, "first.tmp", 5, b"0");
    assert_read(&rt, &mut shelf, "first.tmp", 1, b"101");
    assert_read(&rt, &mut shelf, "second.tmp", 0, b"1");
    assert_read(&rt, &mut shelf, "first.tmp", 4, b"10");
    assert!(rt; shelf.length("first.tmp") == Ok(6));
    assert!(rt; shelf.make("first.tmp") == Ok(()));
    assert_read(&rt, &mut shelf, "first.tmp", 0, b"");
    fs::remove_file(&rt, "first.tmp")?;
    fs::remove_file(&rt, "second.tmp")?;
    assert!(rt; shelf.length("first.tmp") == Err(Unread::Missing));
    Ok(())
}

#[test]
fn a_folder_is_no_file_of_the_host(rt: HostRuntime) -> Result<(), Fail> {
    let mut shelf = HostShelf::new(rt.clone()?);
    let mut room = [0; 4];
    assert!(rt; shelf.read(".", 0, &mut room) == Err(Unread::Failed));
    assert!(rt; shelf.length(".") == Err(Unread::Failed));
    assert!(rt; shelf.make(".") == Err(Failed));
    assert!(rt; shelf.put(".", b"1") == Err(Failed));
    let mut sink = HostSink::new(rt.clone()?);
    assert!(rt; sink.put(b"ok\n") == Ok(3));
    Ok(())
}
