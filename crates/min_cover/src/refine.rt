ghost use Rattle.std.specs.Prelude.{◌≡◌, ℕ, ◌<◌, ◌∷◌, All, IfOk, IfSome, length, map, slice_index};
ghost use Rattle.min_cover.specs.inside.Search.{sign_of, target_sign};
ghost use Rattle.min_cover.specs.inside.Found.{next_in};
ghost use Rattle.min_cover.specs.inside.Classes.{IsTable, IsClassedBy, IsRefined, rows_of, width_of};

use crate::search::Row;
use indexmap::IndexSet;
use std::alloc::Global;
use symbol_base::{NoMemory, WordList};

/// Classes of states, numbered by their first members.
#[derive(Debug, Drop)]
pub struct Classes {
    /// The class of each state.
    pub of: Vec<u32>,
    /// The first member of each class.
    pub firsts: Vec<u32>,
}

/// What a next state shows of itself: 0 where there is none, else one more than its class.
fn sign_of_next(classes: &[u32], next: Option<u32>) -> u32
    requires small { (q : ℕ) → q < length classes.now → slice_index classes.now q < 4096 }
    requires inside { IfSome next (λ state. state < length classes.now) }
    ensures { result ≡ target_sign (slice_index classes.now) next }
{
    match next {
        Some(state) => classes[state as usize] + 1,
        None => 0,
    }
}

/// The sign of a state: its class, and what the next state with each symbol shows.
fn sign_of_row(
    alloc: Global,
    class: u32,
    row: &[Option<u32>],
    classes: &[u32],
) -> Result<WordList, NoMemory>
    requires inside { All (λ next. IfSome next (λ state. state < length classes.now)) row.now }
    requires small { (q : ℕ) → q < length classes.now → slice_index classes.now q < 4096 }
    ensures { IfOk result (λ sign.
        sign ≡ class ∷ map (target_sign (slice_index classes.now)) row.now) }
{
    let mut sign = Vec::new(alloc);
    sign.push(class)?;
    for next in row {
        sign.push(sign_of_next(classes, *next))?;
    }
    WordList::copy(alloc, &sign)
}

/// The classes of equal signs.
fn round(alloc: Global, rows: &[Row], classes: &[u32]) -> Result<Classes, NoMemory>
    requires table { IsTable (width_of (rows_of rows.now)) (rows_of rows.now) }
    requires size { length classes.now ≡ length rows.now }
    requires small { (q : ℕ) → q < length classes.now → slice_index classes.now q < 4096 }
    ensures { IfOk result (λ finer. IsClassedBy
        (sign_of (next_in (rows_of rows.now)) (width_of (rows_of rows.now)) (slice_index classes.now))
        (length rows.now) finer.of.items finer.firsts.items) }
{
    let mut signs = IndexSet::new(alloc);
    let mut of = Vec::new(alloc);
    let mut firsts = Vec::new(alloc);
    for state in 0..rows.len() {
        let sign = sign_of_row(alloc, classes[state], &rows[state], classes)?;
        let (class, is_new) = signs.insert_full(sign)?;
        of.push(class as u32)?;
        if is_new {
            firsts.push(state as u32)?;
        }
    }
    Ok(Classes { of, firsts })
}

/// The classes of states from which the same words can be read (Moore's algorithm).
///
/// Each round divides classes whose members lead to different classes, until none does.
pub fn refine(alloc: Global, rows: &[Row]) -> Result<Classes, NoMemory>
    requires table { IsTable (width_of (rows_of rows.now)) (rows_of rows.now) }
    ensures { IfOk result (λ classes.
        IsRefined (next_in (rows_of rows.now)) (length rows.now) classes.of.items classes.firsts.items) }
{
    let whole = vec![in alloc; 0; rows.len()]?;
    let mut classes = round(alloc, rows, &whole)?;
    let mut finer = round(alloc, rows, &classes.of)?;
    'rounds: while finer.firsts.len() > classes.firsts.len() {
        classes = finer;
        finer = round(alloc, rows, &classes.of)?;
    }
    Ok(classes)
}
