//! Commands over a shelf or a sink of which one call fails.

use command_steps::{Status, status_line};
use shelf_io::{FailingShelf, MemoryShelf, MemorySink};
use std::alloc::Global;
use std::process::Abort;
use std::test::Fail;
use workbench::run;

/// No two 0s in a row, three symbols for two bits, three states.
const NO_TWO_ZEROS: &[u8] =
    b"modcode 1\nalphabet 2\nd 0\nk 1\nforbid 0\ngraph 0 0\nrate 2 3\nwindow 1 1\nstates 3\n0 0 010 1\n0 1 110 1\n0 2 011 0\n0 3 011 2\n1 0 111 0\n1 1 110 1\n1 2 101 0\n1 3 101 2\n2 0 101 0\n2 1 101 2\n2 2 111 0\n2 3 111 2\n";

const TEXT: &[u8] = b"010111110101011101\n";

/// A shelf with a code file `code`, a data file `data` and its text `old`.
pub fn three_files(alloc: Global) -> Result<MemoryShelf, Fail> {
    let mut shelf = MemoryShelf::new(alloc);
    shelf.add("code", NO_TWO_ZEROS)?;
    shelf.add("data", b"\x1b")?;
    shelf.add("old", TEXT)?;
    Ok(shelf)
}

/// The words of a command that reads a code and another file, and writes the file `new`.
pub fn words(alloc: Global, command: &str, other: &str) -> Result<Vec<String>, Fail> {
    let mut words = Vec::new(alloc);
    words.push(String::from_str(alloc, command)?)?;
    words.push(String::from_str(alloc, "code")?)?;
    words.push(String::from_str(alloc, other)?)?;
    words.push(String::from_str(alloc, "new")?)?;
    Ok(words)
}

/// Runs a command over a shelf of which one call fails, and shows what its output file holds then.
fn assert_left(
    rt: &impl Abort,
    alloc: Global,
    words: &[String],
    call: u64,
    left: Option<&[u8]>,
) -> Result<(), Fail> {
    let failing = vec![in alloc; call]?;
    let mut shelf = FailingShelf::new(three_files(alloc)?, failing);
    let mut out = MemorySink::new(alloc, Vec::new(alloc));
    let ended = run(alloc, words, &mut shelf, &mut out);
    assert!(rt; ended == Status::ShelfFault);
    assert!(rt; out.text() == status_line(alloc, &ended)?.as_slice());
    assert!(rt; shelf.inner().file("new") == left);
    assert!(rt; shelf.inner().file("code") == Some(NO_TWO_ZEROS));
    assert!(rt; shelf.inner().file("data") == Some(b"\x1b"));
    assert!(rt; shelf.inner().file("old") == Some(TEXT));
    Ok(())
}

// Two calls read the code file to its end, and two the data file; then the text is made, and put in
// three pieces: the lead-in, the file, and the lead-out with the line feed.
#[test]
fn a_failing_shelf_leaves_a_front_of_the_text(rt: HostRuntime) -> Result<(), Fail> {
    let alloc = rt.alloc();
    let words = words(alloc, "encode", "data")?;
    assert_left(&rt, alloc, words.as_slice(), 1, None)?;
    assert_left(&rt, alloc, words.as_slice(), 2, None)?;
    assert_left(&rt, alloc, words.as_slice(), 3, None)?;
    assert_left(&rt, alloc, words.as_slice(), 4, None)?;
    assert_left(&rt, alloc, words.as_slice(), 5, None)?;
    assert_left(&rt, alloc, words.as_slice(), 6, Some(b""))?;
    assert_left(&rt, alloc, words.as_slice(), 7, Some(b"010"))?;
    assert_left(&rt, alloc, words.as_slice(), 8, Some(b"010111110101011"))
}

#[test]
fn a_failing_shelf_leaves_a_front_of_the_file(rt: HostRuntime) -> Result<(), Fail> {
    let alloc = rt.alloc();
    let words = words(alloc, "decode", "old")?;
    assert_left(&rt, alloc, words.as_slice(), 3, None)?;
    assert_left(&rt, alloc, words.as_slice(), 4, None)?;
    assert_left(&rt, alloc, words.as_slice(), 5, None)?;
    assert_left(&rt, alloc, words.as_slice(), 6, Some(b""))
}

/// Runs a command over a sink that takes nothing, and shows how it ends and what its output file
/// holds then.
fn assert_unprinted(
    rt: &impl Abort,
    alloc: Global,
    words: &[String],
    status: Status,
    left: Option<&[u8]>,
) -> Result<(), Fail> {
    let mut shelf = three_files(alloc)?;
    let mut out = MemorySink::new(alloc, vec![in alloc; 1]?);
    let ended = run(alloc, words, &mut shelf, &mut out);
    assert!(rt; ended == status);
    assert!(rt; out.text().is_empty());
    assert!(rt; shelf.file("new") == left);
    Ok(())
}

#[test]
fn a_failing_sink_leaves_the_output(rt: HostRuntime) -> Result<(), Fail> {
    let alloc = rt.alloc();
    let encode = words(alloc, "encode", "data")?;
    assert_unprinted(&rt, alloc, encode.as_slice(), Status::SinkFault, Some(TEXT))?;
    let decode = words(alloc, "decode", "old")?;
    let status = Status::SinkFault;
    assert_unprinted(&rt, alloc, decode.as_slice(), status, Some(b"\x1b"))?;
    let help = words(alloc, "help", "data")?;
    assert_unprinted(&rt, alloc, help.as_slice(), Status::Usage, None)
}
