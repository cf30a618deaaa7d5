ghost use Rattle.std.specs.Prelude.{◌≡◌, ◌<◌, ◌≤◌, All, IfOk, false, nat_eq, ◌&&◌, ◌||◌, filter, slice_index_or};
ghost use Rattle.std.specs.List.{list_any, ends_with, starts_with, range_with_len};
ghost use Rattle.std.specs.Option.{option_map};
ghost use Rattle.constraint_spec.specs.Ranges.{IsConstraint};
ghost use Rattle.constraint_spec.specs.RawState.{zeros_limit};
ghost use Rattle.constraint_spec.specs.RawStateOf.{first_raw_state, begins_forbidden, longest_match, is_led, next_after_one, next_zeros};
ghost use Rattle.min_cover.specs.inside.Raw.{step_raw};
ghost use Rattle.min_cover.specs.inside.States.{raw_of, JoinsBelow256, Marks, runs_fit};

use constraint_model::{Constraint, GraphEdge};
use std::alloc::Global;
use symbol_base::{ByteList, NoMemory};

/// A raw state of a word: what its end tells of the symbols that may follow it.
#[derive(Debug, Drop, PartialEq, Eq, Hash)]
pub struct StateKey {
    /// Whether the last symbol other than 0 is a 1.
    after_one: bool,
    /// The 0s at the end, up to the constraint's limit.
    zeros: u32,
    /// The longest end of the word with which a forbidden word begins.
    matched: ByteList,
    /// The graph's states at which a walk with the word's symbols can end, ascending.
    ends: ByteList,
}

/// A mark for each of the states 0 to 255.
type StateSet = [bool; 256];

/// The raw state of the empty word.
pub fn first_state(alloc: Global, constraint: &Constraint) -> Result<StateKey, NoMemory>
    ensures ranges { IsConstraint constraint.now }
    ensures key { IfOk result (λ key. raw_of key ≡ first_raw_state constraint.now) }
{
    let all = [true; 256];
    Ok(StateKey {
        after_one: false,
        zeros: 0,
        matched: ByteList::from_vec(Vec::new(alloc)),
        ends: marked_states(alloc, &all, constraint.states)?,
    })
}

/// The states below a count that a set marks, ascending.
fn marked_states(alloc: Global, marks: &StateSet, count: u32) -> Result<ByteList, NoMemory>
    requires { count ≤ 256 }
    ensures { IfOk result (λ states.
        states ≡ filter (λ state. slice_index_or marks.now state false) (range_with_len 0 count)) }
{
    let mut states = Vec::new(alloc);
    for state in 0..count {
        if marks[state as usize] {
            states.push(state as u8)?;
        }
    }
    Ok(ByteList::from_vec(states))
}

/// The set of the listed states.
fn set_of(states: &[u8]) -> StateSet
    ensures { Marks (λ state. list_any (nat_eq state) states.now) result }
{
    let mut marks = [false; 256];
    for state in states {
        marks[*state as usize] = true;
    }
    marks
}

/// The states to which an edge with the symbol leads from one of the listed states.
fn led_states(edges: &[GraphEdge], from: &[u8], symbol: u8) -> StateSet
    requires { All JoinsBelow256 edges.now }
    ensures { Marks (is_led edges.now from.now symbol) result }
{
    let sources = set_of(from);
    let mut marks = [false; 256];
    for edge in edges {
        if edge.label == symbol && sources[edge.from as usize] {
            marks[edge.to as usize] = true;
        }
    }
    marks
}

/// Whether some forbidden word begins with the word.
fn begins_some(forbid: &[ByteList], word: &[u8]) -> bool
    ensures { result ≡ begins_forbidden forbid.now word.now }
{
    for forbidden in forbid {
        if forbidden.as_slice().starts_with(word) {
            return true;
        }
    }
    false
}

/// Whether the word ends with some forbidden word.
fn ends_with_some(forbid: &[ByteList], word: &[u8]) -> bool
    ensures { result ≡ list_any (ends_with nat_eq word.now) forbid.now }
{
    for forbidden in forbid {
        if word.ends_with(forbidden.as_slice()) {
            return true;
        }
    }
    false
}

/// The longest end of the word with which a forbidden word begins.
fn longest_end(alloc: Global, forbid: &[ByteList], word: &[u8]) -> Result<ByteList, NoMemory>
    ensures { IfOk result (λ matched. matched ≡ longest_match forbid.now word.now) }
{
    for at in 0..word.len() {
        if begins_some(forbid, &word[at..]) {
            return ByteList::copy(alloc, &word[at..]);
        }
    }
    Ok(ByteList::from_vec(Vec::new(alloc)))
}

/// Whether the alphabet, `d` and `k` let the symbol follow.
fn runs_allow(constraint: &Constraint, state: &StateKey, symbol: u8) -> bool
    ensures { result ≡ runs_fit constraint.now (raw_of state.now) symbol }
{
    symbol < constraint.alphabet
        && (symbol != 1 || !state.after_one || constraint.d <= state.zeros)
        && (symbol != 0 || constraint.k.is_none_or(|k| state.zeros < k))
}

/// The 0s at the end after one more symbol, up to the constraint's limit.
fn zeros_behind(constraint: &Constraint, zeros: u32, symbol: u8) -> u32
    ensures { result ≡ next_zeros (zeros_limit constraint.now) zeros symbol }
{
    if symbol != 0 {
        return 0;
    }
    let limit = constraint.k.unwrap_or(constraint.d);
    if zeros < limit { zeros + 1 } else { limit }
}

/// Whether the last symbol other than 0 is a 1, after one more symbol.
fn is_after_one(before: bool, symbol: u8) -> bool
    ensures { result ≡ next_after_one before symbol }
{
    match symbol {
        0 => before,
        1 => true,
        _ => false,
    }
}

/// The states at which a walk can end after one more symbol.
fn ends_behind(
    alloc: Global,
    constraint: &Constraint,
    ends: &[u8],
    symbol: u8,
) -> Result<ByteList, NoMemory>
    ensures { IfOk result (λ states.
        states ≡ filter (is_led constraint.now.edges ends.now symbol) (range_with_len 0 constraint.now.states)) }
{
    let marks = led_states(&constraint.edges, ends, symbol);
    marked_states(alloc, &marks, constraint.states)
}

/// The raw state after one more symbol; none where the symbol can't follow.
pub fn next_state(
    alloc: Global,
    constraint: &Constraint,
    state: &StateKey,
    symbol: u8,
) -> Result<Option<StateKey>, NoMemory>
    ensures { IfOk result (λ next.
        option_map raw_of next ≡ step_raw constraint.now (raw_of state.now) symbol) }
{
    if !runs_allow(constraint, state, symbol) {
        return Ok(None);
    }
    let mut longer = Vec::from_slice(alloc, state.matched.as_slice())?;
    longer.push(symbol)?;
    if ends_with_some(&constraint.forbid, &longer) {
        return Ok(None);
    }
    let ends = ends_behind(alloc, constraint, state.ends.as_slice(), symbol)?;
    if !constraint.edges.is_empty() && ends.as_slice().is_empty() {
        return Ok(None);
    }
    Ok(Some(StateKey {
        after_one: is_after_one(state.after_one, symbol),
        zeros: zeros_behind(constraint, state.zeros, symbol),
        matched: longest_end(alloc, &constraint.forbid, &longer)?,
        ends,
    }))
}
