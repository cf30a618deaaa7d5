ghost use Rattle.std.specs.Prelude.{ℕ, ◌<◌, ◌≤◌, ◌^◌, All, IfNone, IfOk, IfSome, List, length};
ghost use Rattle.std.specs.List.{sum};
ghost use Rattle.label_graphs.specs.Vector.{IsGreatest, IsLeastBound, IsVector, row_sum};

use crate::descent::greatest;
use label_graphs::{Matrix, Weights};
use std::alloc::Global;
use symbol_base::NoMemory;

/// The least bound, of those from 1 to `bound`, within which there is an approximate eigenvector,
/// and the greatest one within it. None where there is none within `bound`.
///
/// Halves the bounds in question, as a vector within one bound is one within each greater bound.
pub fn least_bound(
    alloc: Global,
    matrix: &Matrix,
    n: u64,
    bound: u32,
) -> Result<Option<(u32, Weights)>, NoMemory>
    requires two { 2 ≤ n }
    requires most { n ≤ 256 }
    requires one { 1 ≤ bound }
    requires bound { bound ≤ 64 }
    requires small { All (λ row. sum row ≤ 2 ^ 40) matrix.now }
    ensures within { IfOk result (λ found. IfSome found (λ f. f.0 ≤ bound)) }
    ensures least { IfOk result (λ found. IfSome found
        (λ f. IsLeastBound (row_sum matrix.now) (length matrix.now) n f.0)) }
    ensures greatest { IfOk result (λ found. IfSome found
        (λ f. IsGreatest (row_sum matrix.now) (length matrix.now) n f.0 f.1)) }
    ensures none { IfOk result (λ found. IfNone found
        ((x : List ℕ) → IsVector (row_sum matrix.now) (length matrix.now) n bound x → ⊥)) }
{
    let mut best = greatest(alloc, matrix, n, bound)?;
    if best.total() == 0 {
        return Ok(None);
    }
    let mut high = bound;
    let mut low = 0;
    while high - low > 1 {
        let middle = (low + high) / 2;
        let weights = greatest(alloc, matrix, n, middle)?;
        if weights.total() == 0 {
            low = middle;
        } else {
            high = middle;
            best = weights;
        }
    }
    Ok(Some((high, best)))
}
