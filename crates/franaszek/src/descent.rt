ghost use Rattle.std.specs.Prelude.{◌≡◌, ◌*◌, ◌/◌, ◌+◌, ◌<◌, ◌≤◌, ◌^◌, ℕ, All, IfNone, IfOk, IfSome, length, replicate, slice_index, slice_set};
ghost use Rattle.std.specs.List.{sum};
ghost use Rattle.label_graphs.specs.Matrix.{entry_at};
ghost use Rattle.label_graphs.specs.Vector.{IsGreatest, row_sum};
ghost use Rattle.franaszek.specs.inside.Descent.{AreRowSums};

use label_graphs::{Matrix, Weights};
use std::alloc::Global;
use symbol_base::NoMemory;

/// The greatest numbers from 0 to `bound`, one for each state, for which the sum over a state's row
/// is at least `n` times its own number: each is the greatest of its state in all such lists. They
/// may be all 0 (Marcus, Roth, Siegel, chapter 5: Franaszek's algorithm).
///
/// Begins with `bound` everywhere, and lowers a number whose sum is too small to what the sum
/// allows, as long as there is one. For s states that is at most s `bound` times, each in 2 s
/// steps.
pub fn greatest(alloc: Global, matrix: &Matrix, n: u64, bound: u32) -> Result<Weights, NoMemory>
    requires two { 2 ≤ n }
    requires most { n ≤ 256 }
    requires one { 1 ≤ bound }
    requires bound { bound ≤ 64 }
    requires small { All (λ row. sum row ≤ 2 ^ 40) matrix.now }
    ensures { IfOk result (λ x. IsGreatest (row_sum matrix.now) (length matrix.now) n bound x) }
{
    let mut weights = vec![in alloc; bound; matrix.size() as usize]?;
    let mut sums = first_sums(alloc, matrix, bound)?;
    while let Some(state) = overweight(&weights, &sums, n) {
        lower(matrix, n, state, &mut weights, &mut sums);
    }
    Ok(Weights::from_list(weights))
}

/// The sum over each row where each number is the bound.
fn first_sums(alloc: Global, matrix: &Matrix, bound: u32) -> Result<Vec<u64>, NoMemory>
    requires bound { bound ≤ 64 }
    requires small { All (λ row. sum row ≤ 2 ^ 40) matrix.now }
    ensures { IfOk result (λ sums.
        AreRowSums matrix.now (replicate (length matrix.now) bound) sums.items) }
{
    let states = matrix.size();
    let mut sums = Vec::with_capacity(alloc, states as usize)?;
    for state in 0..states {
        sums.push(entry_total(matrix.row(state)) * u64::from(bound))?;
    }
    Ok(sums)
}

fn entry_total(row: &[u64]) -> u64
    requires { sum row.now < 2 ^ 64 }
    ensures { result ≡ sum row.now }
{
    let mut total = 0;
    for entry in row {
        total += *entry;
    }
    total
}

/// The first state of which `n` times the number is above the sum.
fn overweight(weights: &[u32], sums: &[u64], n: u64) -> Option<u32>
    requires size { length sums.now ≡ length weights.now }
    requires few { length weights.now < 2 ^ 32 }
    requires most { n ≤ 256 }
    ensures found { IfSome result (λ state. (state < length weights.now)
        × (slice_index sums.now state < n * slice_index weights.now state)) }
    ensures none { IfNone result ((state : ℕ) → state < length weights.now
        → n * slice_index weights.now state ≤ slice_index sums.now state) }
{
    for (state, weight) in weights.iter().enumerate() {
        if n * u64::from(*weight) > sums[state] {
            return Some(state as u32);
        }
    }
    None
}

/// Lowers the number of a state to what its sum allows, and the sums with it.
fn lower(matrix: &Matrix, n: u64, state: u32, weights: &mut [u32], sums: &mut [u64])
    requires two { 2 ≤ n }
    requires inside { state < length weights.old }
    requires size { length weights.old ≡ length matrix.now }
    requires sums { AreRowSums matrix.now weights.old sums.old }
    requires over { slice_index sums.old state < n * slice_index weights.old state }
    ensures weights { weights.new ≡ slice_set weights.old state (slice_index sums.old state / n) }
    ensures sums { AreRowSums matrix.now weights.new sums.new }
{
    let place = state as usize;
    let lowered = (sums[place] / n) as u32;
    let fall = weights[place] - lowered;
    weights[place] = lowered;
    lower_sums(matrix, state, fall, sums);
}

/// The sums after the number of a state has fallen.
fn lower_sums(matrix: &Matrix, state: u32, fall: u32, sums: &mut [u64])
    requires inside { state < length matrix.now }
    requires size { length sums.old ≡ length matrix.now }
    requires enough { (from : ℕ) → from < length matrix.now
        → entry_at matrix.now from state * fall ≤ slice_index sums.old from }
    ensures size { length sums.new ≡ length matrix.now }
    ensures each { (from : ℕ) → from < length matrix.now
        → slice_index sums.new from + entry_at matrix.now from state * fall
        ≡ slice_index sums.old from }
{
    for from in 0..matrix.size() {
        sums[from as usize] -= matrix.entry(from, state) * u64::from(fall);
    }
}
