ghost use Rattle.std.specs.Prelude.{◌≡◌, ℕ, ◌+◌, ◌<◌, ◌≤◌, [], ◌∷◌, ◌++◌, length, take, map, string_bytes, IfOk, OnOk, OnErr, codes};
ghost use Rattle.std.specs.Fmt.{decimal};
ghost use Rattle.symbol_base.specs.Block.{symbols_of};
ghost use Rattle.code_text_spec.specs.CodeText.{spaced, digits, row_line, state_lines, table_lines, text_of, code_text};

use code_model::{Code, CodeRow};
use constraint_files::{write_constraint, write_digit};
use std::alloc::Global;
use symbol_base::{Block, ByteList, Name, NoMemory};

/// The text of a code, its one spelling as a code file.
pub fn code_text(alloc: Global, code: &Code) -> Result<ByteList, NoMemory>
    ensures { IfOk result (λ text. text ≡ code_text code.now) }
{
    let mut text = String::from_str(alloc, "modcode 1\n")?;
    write_constraint(&code.constraint, &mut text)?;
    write_sizes(code, &mut text)?;
    write_table(code, code.rows.as_slice(), &mut text)?;
    Ok(ByteList::from_vec(text.into_bytes()))
}

/// The rate, the window and the number of states.
fn write_sizes(code: &Code, text: &mut String) -> Result<(), NoMemory>
    ensures { OnOk result (string_bytes text.new ≡ string_bytes text.old ++ text_of (
        spaced (codes "rate") (spaced (decimal code.now.p) (decimal code.now.q))
        ∷ spaced (codes "window") (spaced (decimal code.now.past) (decimal code.now.ahead))
        ∷ spaced (codes "states") (decimal (length code.now.rows)) ∷ [])) }
{
    let (p, q) = (code.p, code.q);
    let (past, ahead) = (code.past, code.ahead);
    let states = code.rows.len();
    write!(
        text,
        "rate {p} {q}\nwindow {past} {ahead}\nstates {states}\n"
    )?;
    Ok(())
}

/// The rows of all states.
fn write_table(code: &Code, table: &[Vec<CodeRow>], text: &mut String) -> Result<(), NoMemory>
    ensures { OnOk result
        (string_bytes text.new
        ≡ string_bytes text.old
        ++ text_of (table_lines code.now 0 (map (λ rows. rows.items) table.now))) }
{
    for (state, rows) in table.iter().enumerate() {
        write_state(code, state, rows.as_slice(), text)?;
    }
    Ok(())
}

/// The rows of a state.
fn write_state(
    code: &Code,
    state: usize,
    rows: &[CodeRow],
    text: &mut String,
) -> Result<(), NoMemory>
    ensures { OnOk result
        (string_bytes text.new
        ≡ string_bytes text.old ++ text_of (state_lines code.now state 0 rows.now)) }
{
    for (word, row) in rows.iter().enumerate() {
        write_row(code, state, word, *row, text)?;
    }
    Ok(())
}

fn write_row(
    code: &Code,
    state: usize,
    word: usize,
    row: CodeRow,
    text: &mut String,
) -> Result<(), NoMemory>
    ensures { OnOk result (string_bytes text.new ≡ string_bytes text.old
        ++ (row_line code.now.constraint.alphabet code.now.q state word row ++ 10 ∷ [])) }
{
    write!(text, "{state} {word} ")?;
    write_block(row.block, code.q, code.constraint.alphabet, text)?;
    let to = row.to.index();
    write!(text, " {to}\n")?;
    Ok(())
}

/// Writes one digit for each of the `q` symbols of a block behind a text. Where memory is wanted,
/// the first of them may stand there.
pub fn write_block(block: Block, q: u32, alphabet: u8, text: &mut String) -> Result<(), NoMemory>
    requires short { q ≤ 20 }
    requires least { 2 ≤ alphabet }
    requires most { alphabet ≤ 4 }
    ensures digits { OnOk result
        (string_bytes text.new
        ≡ string_bytes text.old ++ digits (symbols_of alphabet q block.value)) }
    ensures front { OnErr result ((n : ℕ)
        × (string_bytes text.new
        ≡ string_bytes text.old ++ digits (take n (symbols_of alphabet q block.value)))) }
{
    for at in 0..q {
        write_digit(block.symbol(at, q, alphabet), text)?;
    }
    Ok(())
}
