//! The errors of a word, found from its weighted sums: the places at the roots of the locator, and
//! the values there by the evaluator.

ghost use Rattle.std.specs.Prelude.{◌≡◌, ◌≢◌, ℕ, ◌+◌, ◌*◌, ◌<◌, ◌≤◌, ◌↔◌, List, length, take, slice_index, All, false, IsTrue, IfSome, IfNone};
ghost use Rattle.gf256.specs.Field.{IsElement, power, alpha, inverse, times};
ghost use Rattle.gf256.specs.Linear.{values, IsVector, IsNonzero};
ghost use Rattle.rs_code.specs.Word.{weighted_sum};
ghost use Rattle.rs_code.specs.Polynomial.{value_at, IsBelowDegree};
ghost use Rattle.rs_code.specs.inside.Errors.{IsErrorPattern, sum_of_terms, moment, powers, turned, every_other, IsErrorValue, AreBelow, HasRoots, IsRooted, root_exponents};

use crate::ALPHA;
use crate::key_equation::{KeyPair, key_pair};
use crate::lanes::{horner_step, products, values_at};
use crate::monomials::Monomials;
use gf256::Gf;

/// The exponents of the powers of alpha at which a polynomial is 0, in rising order: the first of
/// the array, whose place behind them is room for what is no root.
#[derive(Clone, Copy)]
struct Roots {
    exponents: [u8; 17],
    count: usize,
}

/// The one error pattern of at most t symbols that a word of this length with these sums can have,
/// in the first places of the answer; `None` where there is none.
pub fn find_errors(sums: &[Gf; 32], t: u32, symbols: usize, points: &Monomials) -> Option<[u8; 255]>
    requires least { 1 ≤ t }
    requires most { t ≤ 16 }
    requires short { symbols ≤ 255 }
    ensures pattern { IfSome result (λ errors.
        IsErrorPattern t symbols (values sums.now) (take symbols errors)) }
    ensures none { IfNone result
        ((errors : List ℕ) → IsErrorPattern t symbols (values sums.now) errors → ⊥) }
{
    let pair = key_pair(sums, t);
    let polynomial = turned(&pair.locator, t);
    let roots = find_roots(&polynomial, t, symbols, points);
    let exponents = &roots.exponents[..roots.count];
    let values = error_values(exponents, &pair, t);
    if !have_sums(exponents, &values, sums, t) {
        return None;
    }
    Some(place_errors(exponents, &values, symbols))
}

/// The polynomial x^t p(1/x) of a polynomial p of degree at most t: its coefficients in turned
/// order. It is 0 at the points of the errors where the locator is 0 at their inverses.
fn turned(polynomial: &[Gf; 17], t: u32) -> [Gf; 17]
    requires most { t ≤ 16 }
    requires elements { All IsElement (values polynomial.now) }
    requires degree { IsBelowDegree (t + 1) (values polynomial.now) }
    requires nonzero { IsNonzero (values polynomial.now) }
    ensures vector { IsVector 17 (t + 1) (values result) }
    ensures nonzero { IsNonzero (values result) }
    ensures value { (x : ℕ) → IsElement x → x ≢ 0
        → value_at (values result) x ≡ turned t (values polynomial.now) x }
{
    let last = t as usize;
    let mut turned = [Gf::ZERO; 17];
    for k in 0..last + 1 {
        turned[k] = polynomial[last - k];
    }
    turned
}

/// The roots of a polynomial of degree at most t among the points of a word's symbols.
fn find_roots(polynomial: &[Gf; 17], t: u32, symbols: usize, points: &Monomials) -> Roots
    requires most { t ≤ 16 }
    requires short { symbols ≤ 255 }
    requires vector { IsVector 17 (t + 1) (values polynomial.now) }
    requires nonzero { IsNonzero (values polynomial.now) }
    ensures few { result.count ≤ t }
    ensures exponents { take result.count result.exponents
        ≡ root_exponents (values polynomial.now) symbols }
{
    let values = points.values(&polynomial[..t as usize + 1], (symbols + 15) / 16);
    let mut exponents = [0; 17];
    let mut count = 0;
    for n in 0..symbols {
        // Written in any case, so that there is no branch to foresee.
        exponents[count] = n as u8;
        if values[n] == 0 {
            count += 1;
        }
    }
    Roots { exponents, count }
}

/// The values of the errors at the points with these exponents: the evaluator at the inverse of an
/// error's point, divided by the odd part of the locator there, which is x times its derivative
/// (Forney). It is 0 at a double root.
fn error_values(exponents: &[u8], pair: &KeyPair, t: u32) -> [Gf; 16]
    requires few { length exponents.now ≤ 16 }
    requires most { t ≤ 16 }
    requires locator { IsBelowDegree (t + 1) (values pair.now.locator) }
    requires evaluator { IsBelowDegree t (values pair.now.evaluator) }
    ensures right { (k : ℕ) → k < length exponents.now
        → IsErrorValue (values pair.now.locator) (values pair.now.evaluator)
        (slice_index exponents.now k) (slice_index (values result) k) }
    ensures behind { (k : ℕ) → length exponents.now ≤ k → slice_index (values result) k ≡ 0 }
    ensures elements { All IsElement (values result) }
{
    let points = inverse_points(exponents);
    let slopes = odd_parts(&pair.locator[..t as usize + 1], &points);
    let evaluators = values_at(&pair.evaluator[..t as usize], &points);
    quotients(&evaluators, &slopes, exponents.len())
}

/// The inverses of the powers of alpha with these exponents, and 0 behind them.
fn inverse_points(exponents: &[u8]) -> [Gf; 16]
    requires { length exponents.now ≤ 16 }
    ensures { (k : ℕ) → k < length exponents.now
        → slice_index (values result) k ≡ inverse (power alpha (slice_index exponents.now k)) }
{
    let mut points = [Gf::ZERO; 16];
    for k in 0..exponents.len() {
        points[k] = ALPHA.pow(exponents[k] as u32).inv();
    }
    points
}

/// The values of the terms of odd degree at sixteen points, by Horner's rule in their squares.
fn odd_parts(polynomial: &[Gf], points: &[Gf; 16]) -> [Gf; 16]
    ensures values { (k : ℕ) → k < 16
        → slice_index (values result) k
        ≡ value_at (every_other false (values polynomial.now)) (slice_index (values points.now) k) }
    ensures elements { All IsElement (values result) }
{
    let terms = polynomial.len() / 2;
    let squares = products(points, points);
    let mut now = [Gf::ZERO; 16];
    for k in 0..terms {
        now = horner_step(&now, &squares, polynomial[2 * (terms - k) - 1]);
    }
    products(&now, points)
}

/// The first quotients, place by place, and 0 where the divisor is 0.
fn quotients(dividends: &[Gf; 16], divisors: &[Gf; 16], count: usize) -> [Gf; 16]
    requires few { count ≤ 16 }
    ensures quotients { (k : ℕ) → k < count → slice_index (values divisors.now) k ≢ 0
        → slice_index (values result) k
        ≡ times (slice_index (values dividends.now) k)
        (inverse (slice_index (values divisors.now) k)) }
    ensures behind { (k : ℕ) → count ≤ k → slice_index (values result) k ≡ 0 }
    ensures elements { All IsElement (values result) }
{
    let mut quotients = [Gf::ZERO; 16];
    for k in 0..count {
        quotients[k] = quotient(dividends[k], divisors[k]);
    }
    quotients
}

/// The quotient, or 0 where the divisor is 0.
fn quotient(dividend: Gf, divisor: Gf) -> Gf
    ensures quotient { divisor.value ≢ 0
        → result.value ≡ times dividend.value (inverse divisor.value) }
    ensures element { IsElement result.value }
{
    if divisor.value == 0 {
        return Gf::ZERO;
    }
    dividend.mul(divisor.inv())
}

/// Whether errors of these values at the points with these exponents, and 0 behind them, have the
/// first 2t sums.
fn have_sums(exponents: &[u8], error_values: &[Gf; 16], sums: &[Gf; 32], t: u32) -> bool
    requires few { length exponents.now ≤ 16 }
    requires most { t ≤ 16 }
    requires behind { (k : ℕ) → length exponents.now ≤ k
        → slice_index (values error_values.now) k ≡ 0 }
    requires elements { All IsElement (values error_values.now) }
    ensures { IsTrue result
        ↔ ((i : ℕ) → i < 2 * t
        → moment (values error_values.now) (powers exponents.now) i
        ≡ slice_index (values sums.now) i) }
{
    let points = points_of(exponents);
    let mut terms = *error_values;
    for i in 0..2 * t as usize {
        if sum_of_all(&terms).value != sums[i].value {
            return false;
        }
        terms = products(&terms, &points);
    }
    true
}

/// The powers of alpha with these exponents, and 0 behind them.
fn points_of(exponents: &[u8]) -> [Gf; 16]
    requires { length exponents.now ≤ 16 }
    ensures { (k : ℕ) → k < length exponents.now
        → slice_index (values result) k ≡ power alpha (slice_index exponents.now k) }
{
    let mut points = [Gf::ZERO; 16];
    for k in 0..exponents.len() {
        points[k] = ALPHA.pow(exponents[k] as u32);
    }
    points
}

/// The sum of the terms.
fn sum_of_all(terms: &[Gf; 16]) -> Gf
    ensures { result.value ≡ sum_of_terms (values terms.now) }
{
    let mut sum = Gf::ZERO;
    for k in 0..16 {
        sum = sum.add(terms[k]);
    }
    sum
}

/// The errors of a word of this length: each value at the symbol whose point is the power of alpha
/// with its exponent. It is 0 elsewhere and past the length.
fn place_errors(exponents: &[u8], error_values: &[Gf; 16], symbols: usize) -> [u8; 255]
    requires few { length exponents.now ≤ 16 }
    requires short { symbols ≤ 255 }
    requires within { AreBelow symbols exponents.now }
    ensures symbols { length (take symbols result) ≡ symbols }
    ensures elements { All IsElement (take symbols result) }
    ensures sums { (i : ℕ)
        → weighted_sum (take symbols result) i
        ≡ moment (values error_values.now) (powers exponents.now) i }
    ensures rooted { (p : List ℕ) → HasRoots p (powers exponents.now)
        → IsRooted p (take symbols result) }
{
    let mut errors = [0; 255];
    for k in 0..exponents.len() {
        let at = symbols - 1 - exponents[k] as usize;
        errors[at] ^= error_values[k].value;
    }
    errors
}
