ghost use Rattle.std.specs.Prelude.{◌≡◌, ◌^◌, ◌<◌, length, not, find, position, option_copied, string_bytes, IfSome};
ghost use Rattle.std.specs.BTreeMap.{keys};
ghost use Rattle.std.specs.List.{list_all};
ghost use Rattle.text_reading.specs.Reading.{is_symbol_digit};
ghost use Rattle.toml.specs.View.{table_view};
ghost use Rattle.constraint_file_spec.specs.Refusals.{is_key, unknown_key, out_of_range, d_above_k, too_many_words, is_word, bad_word, is_label, bad_edge};
ghost use Rattle.constraint_files.specs.inside.Steps.{Checks};

use constraint_file_spec::{ConstraintFault, Key, ListedEdge};
use std::alloc::Global;
use symbol_base::ByteList;
use toml::Table;

/// The most symbols that a forbidden word may have.
const MOST_SYMBOLS: usize = 32;

/// Refuses the first key of the table that is none of a file's.
#[tactic(auto, using(crate::proofs::Tables::unknown_key_found))]
pub fn check_keys(alloc: Global, table: &Table) -> Result<(), ConstraintFault>
    ensures { Checks result (unknown_key (table_view table.now)) }
{
    match first_unknown(table) {
        Some(name) => Err(ConstraintFault::UnknownKey(ByteList::copy(alloc, name.as_bytes())?)),
        None => Ok(()),
    }
}

fn first_unknown(table: &Table) -> Option<&String>
    ensures { option_copied result
        ≡ find (λ name. not (is_key (string_bytes name))) (keys table.now) }
{
    table.keys().find(|name| !is_key(name.as_str()))
}

fn is_key(name: &str) -> bool
    ensures { result ≡ is_key name.now }
{
    Key::all().iter().any(|key| key.name() == name)
}

/// Refuses a number of the key that is out of range.
pub fn check_range(key: Key, number: Option<i64>) -> Result<(), ConstraintFault>
    ensures { Checks result (out_of_range key number) }
{
    let Some(number) = number else {
        return Ok(());
    };
    if i64::from(key.least()) <= number && number <= i64::from(key.most()) {
        Ok(())
    } else {
        Err(ConstraintFault::OutOfRange(key))
    }
}

/// Refuses a `d` that is greater than `k`.
pub fn check_runs(d: Option<i64>, k: Option<i64>) -> Result<(), ConstraintFault>
    ensures { Checks result (d_above_k d k) }
{
    match k {
        Some(k) if k < d.unwrap_or(0) => Err(ConstraintFault::DAboveK),
        _ => Ok(()),
    }
}

/// Refuses more forbidden words than a constraint may have, counted as they are listed.
pub fn check_word_count(words: &[ByteList]) -> Result<(), ConstraintFault>
    ensures refusal { Checks result (too_many_words words.now) }
{
    if words.len() > Key::Forbid.most() as usize {
        return Err(ConstraintFault::TooMany(Key::Forbid));
    }
    Ok(())
}

/// Refuses the first forbidden word that is not 1 to 32 digits of symbols.
pub fn check_words(words: &[ByteList]) -> Result<(), ConstraintFault>
    requires { length words.now < 2 ^ 32 }
    ensures { Checks result (bad_word words.now) }
{
    match first_bad_word(words) {
        Some(at) => Err(ConstraintFault::BadWord(at as u32)),
        None => Ok(()),
    }
}

fn first_bad_word(words: &[ByteList]) -> Option<usize>
    ensures place { result ≡ position (λ text. not (is_word text)) words.now }
    ensures inside { IfSome result (λ at. at < length words.now) }
{
    words.iter().position(|word| !is_word(word.as_slice()))
}

fn is_word(text: &[u8]) -> bool
    ensures { result ≡ is_word text.now }
{
    1 <= text.len() && (text.len() <= MOST_SYMBOLS && are_symbols(text))
}

/// Refuses the first edge whose label is not the digit of a symbol.
pub fn check_labels(edges: &[ListedEdge]) -> Result<(), ConstraintFault>
    requires { length edges.now < 2 ^ 32 }
    ensures { Checks result (bad_edge edges.now) }
{
    match first_bad_edge(edges) {
        Some(at) => Err(ConstraintFault::BadEdge(at as u32)),
        None => Ok(()),
    }
}

fn first_bad_edge(edges: &[ListedEdge]) -> Option<usize>
    ensures place { result ≡ position (λ e. not (is_label e.label)) edges.now }
    ensures inside { IfSome result (λ at. at < length edges.now) }
{
    edges
        .iter()
        .position(|edge| !is_label(edge.label.as_slice()))
}

fn is_label(text: &[u8]) -> bool
    ensures { result ≡ is_label text.now }
{
    text.len() == 1 && are_symbols(text)
}

/// Each byte is the digit of a symbol.
fn are_symbols(text: &[u8]) -> bool
    ensures { result ≡ list_all (is_symbol_digit 2) text.now }
{
    text.iter().all(|digit| is_symbol(*digit))
}

fn is_symbol(digit: u8) -> bool
    ensures { result ≡ is_symbol_digit 2 digit }
{
    b'0' <= digit && digit - b'0' < 2
}
