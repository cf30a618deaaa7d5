//! The lines of constraints and codes that were read.

use code_tables::{CodeTextFault, code_text, read_code};
use constraint_files::{constraint_text, read_constraint};
use constraint_model::Constraint;
use std::alloc::Global;
use std::process::Abort;
use std::test::Fail;

/// Reads a constraint file, and shows the lines of its constraint.
fn assert_lines(rt: &impl Abort, alloc: Global, file: &[u8], lines: &[u8]) -> Result<(), Fail> {
    match read_constraint(alloc, file) {
        Ok(constraint) => {
            let text = constraint_text(alloc, &constraint)?;
            assert!(rt; text.as_slice() == lines);
        }
        Err(_) => assert!(rt; false),
    }
    Ok(())
}

/// The lines of the constraint that no part restrains.
const FREE: &[u8] = b"alphabet 2\nd 0\nk -\nforbid 0\ngraph 0 0\n";

const AT_MOST_SEVEN: &[u8] = b"alphabet 2\nd 0\nk 7\nforbid 0\ngraph 0 0\n";

const LOOP_AT_ONE: &[u8] = b"alphabet 2\nd 0\nk -\nforbid 0\ngraph 1 1\n0 1 0\n";

#[test]
fn parts_that_are_given_are_kept(rt: HostRuntime) -> Result<(), Fail> {
    let alloc = rt.alloc();
    assert_lines(&rt, alloc, b"", FREE)?;
    assert_lines(&rt, alloc, b"forbid = []\nedge = []\n", FREE)?;
    let lines = b"alphabet 2\nd 0\nk 1\nforbid 0\ngraph 0 0\n";
    assert_lines(&rt, alloc, b"d = 0\nk = 1\n", lines)?;
    let lines = b"alphabet 2\nd 100\nk 100\nforbid 0\ngraph 0 0\n";
    assert_lines(&rt, alloc, b"d = 100\nk = 100\n", lines)?;
    let file =
        b"alphabet = 2\nd = 0\nk = 3\nforbid = [\"11\"]\n[[edge]]\nfrom = \"A\"\nlabel = \"0\"\nto = \"A\"\n";
    let lines = b"alphabet 2\nd 0\nk 3\nforbid 1\n11\ngraph 1 1\n0 0 0\n";
    assert_lines(&rt, alloc, file, lines)?;
    let lines = constraint_text(alloc, &Constraint::run_length(alloc, 1, Some(7)))?;
    assert!(rt; lines.as_slice() == b"alphabet 2\nd 1\nk 7\nforbid 0\ngraph 0 0\n".as_slice());
    Ok(())
}

#[test]
fn words_and_edges_ascend_without_repeats(rt: HostRuntime) -> Result<(), Fail> {
    let alloc = rt.alloc();
    let lines = b"alphabet 2\nd 0\nk -\nforbid 1\n00\ngraph 0 0\n";
    assert_lines(&rt, alloc, b"forbid = [\"00\"]", lines)?;
    let file = b"forbid = [\"01010101010101010101010101010101\"]\n";
    let lines = b"alphabet 2\nd 0\nk -\nforbid 1\n01010101010101010101010101010101\ngraph 0 0\n";
    assert_lines(&rt, alloc, file, lines)?;
    let file = b"forbid = [\"11\", \"000\", \"01\", \"11\", \"1\"]\n";
    let lines = b"alphabet 2\nd 0\nk -\nforbid 4\n1\n01\n11\n000\ngraph 0 0\n";
    assert_lines(&rt, alloc, file, lines)?;
    let file = b"edge = [
        { from = \"B\", label = \"1\", to = \"A\" },
        { from = \"A\", label = \"1\", to = \"C\" },
        { from = \"C\", label = \"0\", to = \"A\" },
        { to = \"C\", label = \"1\", from = \"A\" },
        { from = \"A\", label = \"0\", to = \"B\" },
    ]";
    let lines = b"alphabet 2\nd 0\nk -\nforbid 0\ngraph 3 4\n0 1 1\n1 0 0\n1 1 2\n2 0 1\n";
    assert_lines(&rt, alloc, file, lines)
}

// A part may be written in each way that TOML has for its value.
#[test]
fn values_are_read_as_toml_has_them(rt: HostRuntime) -> Result<(), Fail> {
    let alloc = rt.alloc();
    assert_lines(&rt, alloc, b"\xef\xbb\xbf# a byte order mark\r\n", FREE)?;
    assert_lines(&rt, alloc, b"k = 0x7", AT_MOST_SEVEN)?;
    assert_lines(&rt, alloc, b"'k' = 0b111 # seven", AT_MOST_SEVEN)?;
    assert_lines(&rt, alloc, b"d = -0\r\n\"\\u006b\" = 7", AT_MOST_SEVEN)?;
    let lines = b"alphabet 2\nd 0\nk -\nforbid 2\n0\n1\ngraph 0 0\n";
    assert_lines(&rt, alloc, b"forbid = ['0', \"\"\"\n1\"\"\"]", lines)?;
    let file = b"edge = [{ from = '', label = '1', to = '' }]";
    assert_lines(&rt, alloc, file, LOOP_AT_ONE)?;
    let file = b"[[edge]]\n\"from\" = '\xc3\xa9'\nlabel = \"\\u0031\"\n'to' = \"\\u00e9\"";
    assert_lines(&rt, alloc, file, LOOP_AT_ONE)
}

/// Reads a code from its text, and shows that it is spelled so again.
fn assert_spelled(rt: &impl Abort, alloc: Global, text: &[u8]) -> Result<(), CodeTextFault> {
    let code = read_code(alloc, text)?;
    let again = code_text(alloc, &code)?;
    assert!(rt; again.as_slice() == text);
    Ok(())
}

// A code with three states, and constraints with each of their parts and with none of them.
#[test]
fn a_code_that_is_read_is_spelled_as_it_was(rt: HostRuntime) -> Result<(), CodeTextFault> {
    let alloc = rt.alloc();
    assert_spelled(
        &rt,
        alloc,
        b"modcode 1\nalphabet 2\nd 0\nk 1\nforbid 0\ngraph 0 0\nrate 2 3\nwindow 1 1\nstates 3\n0 0 010 1\n0 1 110 1\n0 2 011 0\n0 3 011 2\n1 0 111 0\n1 1 110 1\n1 2 101 0\n1 3 101 2\n2 0 101 0\n2 1 101 2\n2 2 111 0\n2 3 111 2\n",
    )?;
    assert_spelled(
        &rt,
        alloc,
        b"modcode 1\nalphabet 2\nd 1\nk 3\nforbid 2\n010\n0001\ngraph 2 3\n0 0 1\n1 0 1\n1 1 0\nrate 1 1\nwindow 0 0\nstates 1\n0 0 0 0\n0 1 1 0\n",
    )?;
    assert_spelled(
        &rt,
        alloc,
        b"modcode 1\nalphabet 2\nd 0\nk -\nforbid 0\ngraph 0 0\nrate 1 1\nwindow 256 511\nstates 1\n0 0 0 0\n0 1 1 0\n",
    )
}
