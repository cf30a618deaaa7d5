ghost use Rattle.std.specs.Prelude.{◌≡◌, ◌+◌, ◌-◌, ◌^◌, ◌≤◌, None, Some, IfOk, IfSome, length, map, option_map};
ghost use Rattle.std.specs.List.{prefix_len};
ghost use Rattle.text_reading.specs.Reading.{Gives, is_symbol_digit};
ghost use Rattle.text_reading.specs.LineReader.{one_line, after_all};
ghost use Rattle.code_tables.specs.inside.Reading.{follows, digits_at, forbidden_at, forbidden_words_at};
ghost use Rattle.code_tables.specs.inside.ReadLines.{GivesLines};

use crate::fault::CodeTextFault;
use std::alloc::Global;
use symbol_base::{ByteList, NoMemory, comes_before};
use text_reading::literal;

/// How many digits of symbols stand in front.
fn digit_run(bytes: &[u8]) -> usize
    ensures run { result ≡ prefix_len (is_symbol_digit 2) bytes.now }
    ensures inside { result ≤ length bytes.now }
{
    bytes
        .iter()
        .take_while(|byte| b'0' <= **byte && **byte - b'0' < 2)
        .count()
}

/// The digits of a word of 1 to 32 symbols, which a line feed ends.
#[tactic(auto, unfolding(crate::specs::inside::Reading::digits_at))]
fn word_digits(bytes: &[u8]) -> Option<(&[u8], &[u8])>
    ensures read { Gives (λ x. (map (λ byte. byte - 48) x.0.now, x.1.now)) result
        (digits_at bytes.now) }
    ensures short { IfSome result (λ x. length x.0.now ≤ 32) }
{
    let (digits, rest) = bytes.split_at(digit_run(bytes));
    let rest = literal(rest, b"\n")?;
    if 1 <= digits.len() && digits.len() <= 32 {
        Some((digits, rest))
    } else {
        None
    }
}

fn follows(before: Option<&[u8]>, word: &[u8]) -> bool
    ensures { result ≡ follows (option_map (λ b. b.now) before.entry) word.now }
{
    match before {
        Some(before) => comes_before(before, word),
        None => true,
    }
}

/// The symbols of digits.
fn symbols(alloc: Global, digits: &[u8]) -> Result<ByteList, NoMemory>
    requires { length digits.now ≤ 32 }
    ensures { IfOk result (λ word. word ≡ map (λ byte. byte - 48) digits.now) }
{
    let mut symbols = [0; 32];
    for (at, digit) in digits.iter().enumerate() {
        symbols[at] = digit.saturating_sub(b'0');
    }
    ByteList::copy(alloc, &symbols[..digits.len()])
}

fn last_word(words: &[ByteList]) -> Option<&[u8]>
    ensures { option_map (λ b. b.now) result ≡ after_all (λ before word. Some word) None words.now }
{
    match words.last() {
        Some(word) => Some(word.as_slice()),
        None => None,
    }
}

/// The word of this line, which comes behind the one before.
#[tactic(auto, unfolding(crate::specs::inside::Reading::forbidden_at, text_reading::specs::LineReader::one_line))]
fn read_word<'a>(
    alloc: Global,
    bytes: &'a [u8],
    before: Option<&[u8]>,
    line: u64,
) -> Result<(ByteList, &'a [u8]), CodeTextFault>
    ensures { GivesLines (λ x. (x.0, x.1.now)) result
        (one_line (forbidden_at (option_map (λ b. b.now) before.entry)) line bytes.now) }
{
    let Some((digits, rest)) = word_digits(bytes) else {
        return Err(CodeTextFault::BadCode(line));
    };
    let word = symbols(alloc, digits)?;
    if follows(before, word.as_slice()) {
        Ok((word, rest))
    } else {
        Err(CodeTextFault::BadCode(line))
    }
}

/// The forbidden words, the first in this line.
pub fn read_words(
    alloc: Global,
    bytes: &[u8],
    count: u64,
    first: u64,
) -> Result<(Vec<ByteList>, &[u8]), CodeTextFault>
    requires many { count ≤ 128 }
    requires first { first ≤ 2 ^ 16 }
    ensures { GivesLines (λ x. (x.0.items, x.1.now)) result
        (forbidden_words_at count first bytes.now) }
{
    let mut words = Vec::with_capacity(alloc, count as usize)?;
    let mut rest = bytes;
    let mut line = first;
    for place in 0..count {
        let (word, after) = read_word(alloc, rest, last_word(words.as_slice()), line)?;
        words.push(word)?;
        rest = after;
        line += 1;
    }
    Ok((words, rest))
}
