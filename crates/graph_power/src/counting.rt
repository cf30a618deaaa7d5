ghost use Rattle.std.specs.Prelude.{◌≡◌, ℕ, ◌+◌, ◌<◌, ◌≤◌, ◌^◌, suc, All, IfOk, length, map, slice_index};
ghost use Rattle.std.specs.List.{sum};
ghost use Rattle.label_graphs.specs.Cover.{KeepsSymbols};
ghost use Rattle.label_graphs.specs.Graph.{IsGraph};
ghost use Rattle.label_graphs.specs.Matrix.{CountsWords};
ghost use Rattle.label_graphs.specs.Views.{edge_data, matrix_data};
ghost use Rattle.graph_power.specs.inside.Words.{AreAddedRows, AreCounts, IsSquareWithin};

use label_graphs::{Cover, Edge, Matrix};
use std::alloc::Global;
use symbol_base::{CoverName, Name, NoMemory};

/// For each pair of states the number of words of `q` symbols that lead from the first to the
/// second.
///
/// Takes q additions for each edge of the cover and each of its states.
pub fn counts(alloc: Global, cover: &Cover, q: u32) -> Result<Matrix, NoMemory>
    requires one { 1 ≤ q }
    requires twenty { q ≤ 20 }
    ensures words { IfOk result (λ matrix. CountsWords cover.now q matrix) }
    ensures small { IfOk result (λ matrix. All (λ row. sum row ≤ 2 ^ 40) matrix) }
{
    let mut rows = of_no_symbol(alloc, cover)?;
    for _symbol in 0..q {
        let more = of_one_symbol_more(alloc, cover, &rows)?;
        rows = more;
    }
    Ok(Matrix::from_rows(rows))
}

/// The counts of the word of no symbol, which leads from each state to itself.
fn of_no_symbol(alloc: Global, cover: &Cover) -> Result<Vec<Vec<u64>>, NoMemory>
    ensures counts { IfOk result (λ rows. AreCounts cover.now.graph 0 (matrix_data rows.items)) }
    ensures symbols { IfOk result (λ _. KeepsSymbols cover.now) }
    ensures graph { IfOk result (λ _. IsGraph cover.now.graph) }
{
    let states = cover.graph.states();
    let mut rows = Vec::with_capacity(alloc, states as usize)?;
    for state in 0..states {
        let mut row = vec![in alloc; 0; states as usize]?;
        row[state as usize] = 1;
        rows.push(row)?;
    }
    Ok(rows)
}

/// The counts of the words with one symbol more in front.
fn of_one_symbol_more(
    alloc: Global,
    cover: &Cover,
    counts: &[Vec<u64>],
) -> Result<Vec<Vec<u64>>, NoMemory>
    requires size { length counts.now ≡ length cover.now.graph }
    requires square { IsSquareWithin (2 ^ 38) (matrix_data counts.now) }
    ensures { (q : ℕ) → AreCounts cover.now.graph q (matrix_data counts.now)
        → IfOk result (λ more. AreCounts cover.now.graph (suc q) (matrix_data more.items)) }
{
    let states = cover.graph.states();
    let mut more = Vec::with_capacity(alloc, states as usize)?;
    for state in 0..states {
        let row = added_rows(alloc, cover.graph.row(CoverName::at(state)), counts)?;
        more.push(row)?;
    }
    Ok(more)
}

/// The rows of the edges' targets, added up place by place.
fn added_rows(
    alloc: Global,
    edges: &[Edge<CoverName>],
    counts: &[Vec<u64>],
) -> Result<Vec<u64>, NoMemory>
    requires few { length edges.now ≤ 4 }
    requires inside { All (λ edge. edge.to < length counts.now) edges.now }
    requires square { IsSquareWithin (2 ^ 38) (matrix_data counts.now) }
    ensures { IfOk result (λ sums. AreAddedRows (map (edge_data (λ name. name)) edges.now)
        (matrix_data counts.now) sums.items) }
{
    let mut sums = vec![in alloc; 0; counts.len()]?;
    for edge in edges {
        add(&mut sums, &counts[edge.to.index() as usize]);
    }
    Ok(sums)
}

/// Adds to each number the one at the same place.
fn add(sums: &mut [u64], more: &[u64])
    requires size { length sums.old ≡ length more.now }
    requires fits { (k : ℕ) → k < length sums.old
        → slice_index sums.old k + slice_index more.now k < 2 ^ 64 }
    ensures size { length sums.new ≡ length sums.old }
    ensures each { (k : ℕ) → k < length sums.old
        → slice_index sums.new k ≡ slice_index sums.old k + slice_index more.now k }
{
    for (place, sum) in sums.iter_mut().enumerate() {
        *sum += more[place];
    }
}
