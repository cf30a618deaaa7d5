ghost use Rattle.std.specs.Prelude.{◌≡◌, ◌<◌, ◌≤◌, [], IfErr, IfOk, length, map};
ghost use Rattle.min_cover.specs.inside.States.{raw_of};
ghost use Rattle.min_cover.specs.inside.Found.{NumbersRaw, Follows, IsFoundSoFar, IsSearchFault, AreFollowers};
ghost use Rattle.constraint_spec.specs.Constraint.{ConstraintData};
ghost use Rattle.constraint_spec.specs.Ranges.{IsConstraint};

use crate::fault::CoverFault;
use crate::raw_states::{StateKey, first_state, next_state};
use constraint_model::Constraint;
use indexmap::IndexSet;
use std::alloc::Global;

/// How many raw states a search may find.
const MOST_STATES: usize = 4096;

/// A row of a state: for each symbol the number of the next state, where the symbol can follow.
pub type Row = Vec<Option<u32>>;

/// The number of a raw state, which may be a new one.
fn number_of(found: &mut IndexSet<StateKey>, state: StateKey) -> Result<u32, CoverFault>
    requires { length found.old.keys ≤ 4096 }
    ensures { (c : ConstraintData)
        → NumbersRaw c found.old.keys (raw_of state) found.new.keys result }
{
    let (number, _) = found.insert_full(state)?;
    if number >= MOST_STATES {
        return Err(CoverFault::RawStates(4097));
    }
    Ok(number as u32)
}

/// The number of the raw state after a symbol, where the symbol can follow.
fn follower(
    alloc: Global,
    constraint: &Constraint,
    found: &mut IndexSet<StateKey>,
    at: usize,
    symbol: u8,
) -> Result<Option<u32>, CoverFault>
    requires few { length found.old.keys ≤ 4096 }
    requires inside { at < length found.old.keys }
    ensures { Follows constraint.now found.old.keys at symbol found.new.keys result }
{
    match next_state(alloc, constraint, &found[at], symbol)? {
        Some(next) => Ok(Some(number_of(found, next)?)),
        None => Ok(None),
    }
}

/// The row of the next state, whose new followers are added to those found.
fn next_row(
    alloc: Global,
    constraint: &Constraint,
    found: &mut IndexSet<StateKey>,
    rows: &[Row],
) -> Result<Row, CoverFault>
    requires few { length found.old.keys ≤ 4096 }
    requires inside { length rows.now < length found.old.keys }
    requires so_far { IsFoundSoFar constraint.now found.old.keys (map (λ row. row.items) rows.now)
        [] }
    ensures found { IfOk result (λ row.
        IsFoundSoFar constraint.now found.new.keys (map (λ row. row.items) rows.now) row.items) }
    ensures width { IfOk result (λ row. length row.items ≡ constraint.now.alphabet) }
    ensures few { IfOk result (λ _. length found.new.keys ≤ 4096) }
    ensures kept { IfOk result (λ _. length found.old.keys ≤ length found.new.keys) }
    ensures fault { IfErr result (IsSearchFault constraint.now) }
{
    let mut row = Vec::new(alloc);
    for symbol in 0..constraint.alphabet {
        row.push(follower(alloc, constraint, found, rows.len(), symbol)?)?;
    }
    Ok(row)
}

/// The rows of all raw states of words, in the order in which a breadth-first search finds them.
///
/// Takes a step from each raw state by each symbol, and keeps the raw states in a hash table.
pub fn explore(alloc: Global, constraint: &Constraint) -> Result<Vec<Row>, CoverFault>
    ensures ranges { IsConstraint constraint.now }
    ensures rows { IfOk result (λ rows.
        AreFollowers constraint.now (map (λ row. row.items) rows.items)) }
    ensures fault { IfErr result (IsSearchFault constraint.now) }
{
    let mut found = IndexSet::new(alloc);
    found.insert(first_state(alloc, constraint)?)?;
    let mut rows = Vec::new(alloc);
    'states: while rows.len() < found.len() {
        let row = next_row(alloc, constraint, &mut found, &rows)?;
        rows.push(row)?;
    }
    Ok(rows)
}
