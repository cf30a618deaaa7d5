ghost use Rattle.std.specs.Prelude.{◌≡◌, ◌∷◌, [], ◌++◌, string_bytes, codes, IfNone, IfOk, IfSome, OnOk};
ghost use Rattle.constraint_file_spec.specs.Keys.{key_name};
ghost use Rattle.command_steps.specs.declared.status.CodeFault.TheVariants as faults;
ghost use Rattle.command_steps.specs.StatusLine.{line_of_status, FaultTakesMemory, TakesMemory};
ghost use Rattle.command_steps.specs.FaultLines.{behind_spaces, line_of_constraint_fault, line_of_limit, line_of_code_fault, line_of_channel_fault, line_of_two_states, word_text};

use crate::status::{ChannelFault, CodeFault, Limit, Status};
use code_spec::Walk;
use constraint_file_spec::{ConstraintFault, Key};
use label_graphs::TwoStates;
use std::alloc::Global;
use symbol_base::{ByteList, Name, NoMemory};

/// The line that is printed for a status, with its line feed; no text where the command was done.
pub fn status_line(alloc: Global, status: &Status) -> Result<ByteList, NoMemory>
    ensures { IfOk result (λ line. line ≡ line_of_status status.now) }
{
    Ok(ByteList::from_vec(made_line(alloc, status)?))
}

/// The line of a status that carries no key and no number.
pub(crate) fn plain_line(status: &Status) -> Option<&'static str>
    ensures line { IfSome result (λ line. line.now ≡ line_of_status status.now) }
    ensures none { IfNone result (TakesMemory status.now) }
{
    match status {
        Status::Done => Some(""),
        Status::Usage => Some("usage\n"),
        Status::ShelfFault => Some("shelf fault\n"),
        Status::SinkFault => Some("sink fault\n"),
        Status::ConstraintRefused(fault) => plain_fault_line(fault),
        Status::NoVector => Some("no vector\n"),
        Status::NoMemory => Some("out of memory\n"),
        _ => None,
    }
}

fn plain_fault_line(fault: &ConstraintFault) -> Option<&'static str>
    ensures line { IfSome result (λ line. line.now ≡ line_of_constraint_fault fault.now) }
    ensures none { IfNone result (FaultTakesMemory fault.now) }
{
    match fault {
        ConstraintFault::NotToml => Some("constraint refused: not toml\n"),
        ConstraintFault::DAboveK => Some("constraint refused: d above k\n"),
        ConstraintFault::NoMemory => Some("out of memory\n"),
        _ => None,
    }
}

/// The line of a status, in memory.
pub(crate) fn made_line(alloc: Global, status: &Status) -> Result<Vec<u8>, NoMemory>
    ensures { IfOk result (λ line. line.items ≡ line_of_status status.now) }
{
    if let Some(line) = plain_line(status) {
        return Ok(String::from_str(alloc, line)?.into_bytes());
    }
    let line = match status {
        Status::FileTooLong(limit) => format!(in alloc; "file too long {limit}\n")?,
        Status::ConstraintRefused(fault) => return constraint_fault_line(alloc, fault),
        Status::TooLarge(limit) => limit_line(alloc, *limit)?,
        Status::InfiniteMemory(two) => two_states_line(alloc, two)?,
        Status::CodeRefused(fault) => code_fault_line(alloc, fault)?,
        Status::ChannelRefused(fault) => channel_fault_line(alloc, *fault)?,
        Status::FileMissing(place) => format!(in alloc; "missing file: word {place}\n")?,
        _ => String::new(alloc),
    };
    Ok(line.into_bytes())
}

/// The line of a refused constraint file whose fault carries a key or a number.
fn constraint_fault_line(alloc: Global, fault: &ConstraintFault) -> Result<Vec<u8>, NoMemory>
    requires { FaultTakesMemory fault.now }
    ensures { IfOk result (λ line. line.items ≡ line_of_constraint_fault fault.now) }
{
    let line = match fault {
        ConstraintFault::UnknownKey(key) => return unknown_key_line(alloc, key.as_slice()),
        ConstraintFault::WrongType(key) => key_line(
            alloc,
            "constraint refused: wrong type ",
            *key,
        )?,
        ConstraintFault::OutOfRange(key) => key_line(
            alloc,
            "constraint refused: out of range ",
            *key,
        )?,
        ConstraintFault::TooMany(key) => key_line(alloc, "constraint refused: too many ", *key)?,
        ConstraintFault::BadWord(at) => format!(in alloc; "constraint refused: bad word {at}\n")?,
        ConstraintFault::BadEdge(at) => format!(in alloc; "constraint refused: bad edge {at}\n")?,
        _ => String::new(alloc),
    };
    Ok(line.into_bytes())
}

/// The line of a key that is none of the five, byte for byte.
fn unknown_key_line(alloc: Global, key: &[u8]) -> Result<Vec<u8>, NoMemory>
    ensures { IfOk result (λ line.
        line.items ≡ codes "constraint refused: unknown key " ++ key.now ++ 10 ∷ []) }
{
    let mut line = String::from_str(alloc, "constraint refused: unknown key ")?.into_bytes();
    line.extend_from_slice(key)?;
    line.push(b'\n')?;
    Ok(line)
}

/// The line of a text that ends with a key.
fn key_line(alloc: Global, text: &str, key: Key) -> Result<String, NoMemory>
    ensures { IfOk result (λ line. string_bytes line ≡ text.now ++ key_name key ++ 10 ∷ []) }
{
    let name = key.name();
    Ok(format!(in alloc; "{text}{name}\n")?)
}

fn limit_line(alloc: Global, limit: Limit) -> Result<String, NoMemory>
    ensures { IfOk result (λ line. string_bytes line ≡ line_of_limit limit) }
{
    let line = match limit {
        Limit::RawStates(count) => format!(in alloc; "too large: raw states {count}\n")?,
        Limit::CoverStates(count) => format!(in alloc; "too large: cover states {count}\n")?,
        Limit::MemoryTooLong(count) => format!(in alloc; "too large: memory {count}\n")?,
        Limit::PowerEdges(count) => format!(in alloc; "too large: power edges {count}\n")?,
        Limit::Weight(sum) => format!(in alloc; "too large: weight {sum}\n")?,
        Limit::Spread(sum) => format!(in alloc; "too large: spread {sum}\n")?,
    };
    Ok(line)
}

fn channel_fault_line(alloc: Global, fault: ChannelFault) -> Result<String, NoMemory>
    ensures { IfOk result (λ line. string_bytes line ≡ line_of_channel_fault fault) }
{
    let line = match fault {
        ChannelFault::BadSymbol(at) => format!(in alloc; "channel refused: bad symbol {at}\n")?,
        ChannelFault::PartBlock(count) => format!(in alloc;
            "channel refused: part block {count}\n"
        )?,
        ChannelFault::TooShort(count) => format!(in alloc; "channel refused: too short {count}\n")?,
        ChannelFault::PartByte(count) => format!(in alloc; "channel refused: part byte {count}\n")?,
    };
    Ok(line)
}

/// The line of two states that read one word back to themselves.
fn two_states_line(alloc: Global, two: &TwoStates) -> Result<String, NoMemory>
    ensures { IfOk result (λ line. string_bytes line ≡ line_of_two_states two.now) }
{
    let first = two.first.index();
    let second = two.second.index();
    let mut line = format!(in alloc; "infinite memory: states {first} and {second} both read ")?;
    write_word(two.word.as_slice(), &mut line)?;
    line.push('\n')?;
    Ok(line)
}

/// Writes the symbols of a word as decimal numbers, one behind the other.
fn write_word(word: &[u8], text: &mut String) -> Result<(), NoMemory>
    ensures { OnOk result (string_bytes text.new ≡ string_bytes text.old ++ word_text word.now) }
{
    for symbol in word {
        write!(text, "{symbol}")?;
    }
    Ok(())
}

fn code_fault_line(alloc: Global, fault: &CodeFault) -> Result<String, NoMemory>
    ensures { IfOk result (λ line. string_bytes line ≡ line_of_code_fault fault.now) }
{
    match fault {
        CodeFault::BadCode(line) => Ok(format!(in alloc; "code refused: line {line}\n")?),
        CodeFault::OutOfConstraint(words) => outside_line(alloc, words.as_slice()),
        CodeFault::Ambiguous(first, second) => ambiguous_line(alloc, first, second),
    }
}

/// The line of data words whose blocks are no word of the constraint.
fn outside_line(alloc: Global, words: &[u32]) -> Result<String, NoMemory>
    ensures { IfOk result (λ line.
        string_bytes line
        ≡ codes "code refused: out of constraint" ++ behind_spaces words.now ++ 10 ∷ []) }
{
    let mut line = String::from_str(alloc, "code refused: out of constraint")?;
    write_behind_spaces(words, &mut line)?;
    line.push('\n')?;
    Ok(line)
}

/// The line of two walks that write the same blocks.
fn ambiguous_line(alloc: Global, first: &Walk, second: &Walk) -> Result<String, NoMemory>
    ensures { IfOk result (λ line.
        string_bytes line ≡ line_of_code_fault (faults.Ambiguous first.now second.now)) }
{
    let mut line = String::from_str(alloc, "code refused: ambiguous")?;
    write_walk(first, &mut line)?;
    line.push_str(" and")?;
    write_walk(second, &mut line)?;
    line.push('\n')?;
    Ok(line)
}

/// Writes the state and the data words of a walk, each behind a space.
fn write_walk(walk: &Walk, text: &mut String) -> Result<(), NoMemory>
    ensures { OnOk result
        (string_bytes text.new
        ≡ string_bytes text.old ++ behind_spaces (walk.now.state ∷ walk.now.words)) }
{
    let state = walk.state.index();
    write!(text, " {state}")?;
    write_behind_spaces(walk.words.as_slice(), text)
}

/// Writes each number behind a space. Where memory is wanted, a front of them may stand there.
pub fn write_behind_spaces(numbers: &[u32], text: &mut String) -> Result<(), NoMemory>
    ensures { OnOk result
        (string_bytes text.new ≡ string_bytes text.old ++ behind_spaces numbers.now) }
{
    for number in numbers {
        write!(text, " {number}")?;
    }
    Ok(())
}
