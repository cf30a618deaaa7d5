//! Linear systems over the field, by Gauss-Jordan elimination on fixed arrays.

ghost use Rattle.std.specs.Prelude.{◌≡◌, ◌≢◌, ℕ, ◌<◌, ◌≤◌, ◌+◌, length, take, List, IfSome, IfNone, IsNone, ◌↔◌};
ghost use Rattle.gf256.specs.Linear.{Annihilates, IsNonzero, IsSingular, IsVector, Solves, matrix, values, scaled};
ghost use Rattle.gf256.specs.Elimination.{AreElements, HasElements, plus_multiple, entry, ClearsColumn, CopiesColumn, Eliminates, HasUnitColumns, IsZeroBelow, SameNullSpace};

use crate::Gf;

/// Multiplies a row by a factor.
fn scale(row: &mut [Gf], factor: Gf)
    ensures product { values row.new ≡ scaled factor.value (values row.old) }
    ensures elements { AreElements (values row.old) }
{
    for entry in row.iter_mut() {
        *entry = factor.mul(*entry);
    }
}

/// Adds a multiple of another row of the same length.
fn add_multiple(row: &mut [Gf], factor: Gf, other: &[Gf])
    requires { length row.old ≡ length other.now }
    ensures sum { values row.new ≡ plus_multiple (values row.old) factor.value (values other.now) }
    ensures elements { AreElements (values row.old) }
{
    for (i, entry) in row.iter_mut().enumerate() {
        *entry = entry.add(factor.mul(other[i]));
    }
}

/// The first row from the place of the column on whose entry in the column is not 0.
fn find_pivot<const WIDTH: usize>(rows: &[[Gf; WIDTH]], column: usize) -> Option<usize>
    requires { column < WIDTH }
    ensures found { IfSome result (λ i. (column ≤ i) × (i < length rows.now)) }
    ensures nonzero { IfSome result (λ i. entry (matrix rows.now) i column ≢ 0) }
    ensures none { IfNone result ((i : ℕ) → column ≤ i → entry (matrix rows.now) i column ≡ 0) }
{
    for i in column..rows.len() {
        if rows[i][column] != Gf::ZERO {
            return Some(i);
        }
    }
    None
}

/// Takes the multiple of the row at the place of the column out of each other row that leaves a 0
/// in the column, where the row has a 1.
fn clear_others<const WIDTH: usize>(rows: &mut [[Gf; WIDTH]], column: usize)
    requires inside { column < WIDTH }
    requires below { column < length rows.old }
    ensures { ClearsColumn column (matrix rows.old) (matrix rows.new) }
{
    let pivot = rows[column];
    for (i, row) in rows.iter_mut().enumerate() {
        if i != column {
            let factor = row[column];
            add_multiple(row, factor, &pivot);
        }
    }
}

/// Turns the column into a unit column by the row of the pivot, which comes to the place of the
/// column.
fn eliminate<const WIDTH: usize>(rows: &mut [[Gf; WIDTH]], column: usize, pivot: usize)
    requires inside { column < WIDTH }
    requires from { column ≤ pivot }
    requires within { pivot < length rows.old }
    requires nonzero { entry (matrix rows.old) pivot column ≢ 0 }
    ensures { Eliminates column (matrix rows.old) (matrix rows.new) }
{
    rows.swap(column, pivot);
    let inverse = rows[column][column].inv();
    scale(&mut rows[column], inverse);
    clear_others(rows, column);
}

/// Turns the leading columns into unit columns, as many as there are rows, and stops before the
/// first that is 0 from the row of its number on. Answers how many became unit columns.
fn reduce<const WIDTH: usize>(rows: &mut [[Gf; WIDTH]]) -> usize
    requires { length rows.old < WIDTH }
    ensures count { result ≤ length rows.old }
    ensures same { SameNullSpace (matrix rows.old) (matrix rows.new) }
    ensures units { HasUnitColumns result (matrix rows.new) }
    ensures stuck { IsZeroBelow result (matrix rows.new) }
    ensures elements_before { 0 < result → HasElements (matrix rows.old) }
    ensures elements { 0 < result → HasElements (matrix rows.new) }
{
    for column in 0..rows.len() {
        let Some(pivot) = find_pivot(rows, column) else {
            return column;
        };
        eliminate(rows, column, pivot);
    }
    rows.len()
}

/// Copies a column into the front of a vector.
fn copy_column<const WIDTH: usize>(rows: &[[Gf; WIDTH]], column: usize, vector: &mut [Gf])
    requires inside { column < WIDTH }
    requires room { length rows.now ≤ length vector.old }
    ensures copied { CopiesColumn column (matrix rows.now) (values vector.old) (values vector.new) }
{
    for (i, row) in rows.iter().enumerate() {
        vector[i] = row[column];
    }
}

/// A vector that the first `t` rows annihilate: not all of its entries are 0, but those past place
/// `t` are. There is one, since `t` rows leave `t + 1` columns dependent. `t` is 1 to 16. The rows
/// are used up as room: what they hold afterwards is left open.
pub fn null_vector(rows: &mut [[Gf; 17]; 16], t: u32) -> [Gf; 17]
    requires positive { 1 ≤ t }
    requires fits { t ≤ 16 }
    ensures vector { IsVector 17 (t + 1) (values result) }
    ensures nonzero { IsNonzero (values result) }
    ensures annihilated { Annihilates (take t (matrix rows.old)) (values result) }
{
    let rows = &mut rows[..t as usize];
    let column = reduce(rows);
    let mut vector = [Gf::ZERO; 17];
    copy_column(&rows[..column], column, &mut vector);
    vector[column] = Gf::ONE;
    vector
}

/// The one solution of the first `r` equations in `r` unknowns, 0 from place `r` on; `None` exactly
/// where the square part is singular. Each row holds the coefficients of its equation and then, at
/// place `r`, its right side. `r` is 1 to 32. A solution uses the rows up as room: what they hold
/// afterwards is left open.
pub fn solve(rows: &mut [[Gf; 33]; 32], r: u32) -> Option<[Gf; 32]>
    requires positive { 1 ≤ r }
    requires fits { r ≤ 32 }
    ensures vector { IfSome result (λ x. IsVector 32 r (values x)) }
    ensures solves { IfSome result (λ x. Solves r (matrix rows.old) (values x)) }
    ensures only { IfSome result
        (λ x. (y : List ℕ) → IsVector 32 r y → Solves r (matrix rows.old) y → y ≡ values x) }
    ensures singular { IsNone result ↔ IsSingular r (matrix rows.old) }
    ensures unchanged { IfNone result (rows.new ≡ rows.old) }
{
    let unknowns = r as usize;
    let given = *rows;
    let equations = &mut rows[..unknowns];
    if reduce(equations) < unknowns {
        *rows = given;
        return None;
    }
    let mut solution = [Gf::ZERO; 32];
    copy_column(equations, unknowns, &mut solution);
    Some(solution)
}
