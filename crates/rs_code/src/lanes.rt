//! Sixteen elements at a time. The functions are parts of their callers' loops, which keep what a
//! loop multiplies by in its doublings.

ghost use Rattle.std.specs.Prelude.{◌≡◌, ℕ, ◌<◌, slice_index, All};
ghost use Rattle.gf256.specs.Field.{IsElement, plus, times};
ghost use Rattle.gf256.specs.Linear.{values};
ghost use Rattle.rs_code.specs.Polynomial.{value_at};

use gf256::Gf;

/// The products, place by place.
#[inline(always)]
pub fn products(terms: &[Gf; 16], factors: &[Gf; 16]) -> [Gf; 16]
    ensures products { (k : ℕ) → k < 16
        → slice_index (values result) k
        ≡ times (slice_index (values terms.now) k) (slice_index (values factors.now) k) }
    ensures elements { All IsElement (values result) }
{
    let mut products = [Gf::ZERO; 16];
    for k in 0..16 {
        products[k] = terms[k].mul_by_doubling(factors[k]);
    }
    products
}

/// Horner's step at sixteen points: each value times its point, and the coefficient.
#[inline(always)]
pub fn horner_step(now: &[Gf; 16], points: &[Gf; 16], coefficient: Gf) -> [Gf; 16]
    ensures { (k : ℕ) → k < 16 → slice_index (values result) k
        ≡ plus (times (slice_index (values now.now) k) (slice_index (values points.now) k)) coefficient.value }
{
    let mut next = [Gf::ZERO; 16];
    for k in 0..16 {
        next[k] = now[k].mul_by_doubling(points[k]).add(coefficient);
    }
    next
}

/// The values of a polynomial at sixteen points, by Horner's rule.
pub fn values_at(polynomial: &[Gf], points: &[Gf; 16]) -> [Gf; 16]
    ensures { (k : ℕ) → k < 16
        → slice_index (values result) k
        ≡ value_at (values polynomial.now) (slice_index (values points.now) k) }
{
    let mut now = [Gf::ZERO; 16];
    for k in 0..polynomial.len() {
        now = horner_step(&now, points, polynomial[polynomial.len() - 1 - k]);
    }
    now
}
