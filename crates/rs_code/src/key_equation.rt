//! The key equation of the errors of a word, by the extended division of x^(2t) by the polynomial
//! of the sums (Sugiyama, Kasahara, Hirasawa, Namekawa).

ghost use Rattle.std.specs.Prelude.{◌≡◌, ◌≢◌, ℕ, ◌+◌, ◌-◌, ◌<◌, ◌≤◌, List, ◌∷◌, ◌++◌, length, take, replicate, slice_index};
ghost use Rattle.gf256.specs.Field.{IsElement};
ghost use Rattle.gf256.specs.Linear.{values, scaled, IsNonzero};
ghost use Rattle.rs_code.specs.Laws.{IsKeyPair};
ghost use Rattle.rs_code.specs.Polynomial.{value_at, sum_of, IsBelowDegree};
ghost use Rattle.rs_code.specs.inside.Division.{shifted, HasLength, CanDivide, Reduces, AreInARow};

use gf256::Gf;
use std::mem::swap;

/// A locator of degree at most t and an evaluator of degree below t that meet the key equation of
/// the sums of a word: their coefficients, from the constant term on.
#[derive(Clone, Copy, Debug)]
pub struct KeyPair {
    pub locator: [Gf; 17],
    pub evaluator: [Gf; 16],
}

/// A remainder of the division, and the factor of the sums that leaves it modulo x^(2t):
/// coefficients from the constant term on. There are 33 of a remainder and 17 of a factor at most;
/// behind them is room, so that 32 and 16 at a time can be added at each shift.
#[derive(Clone, Copy)]
struct Remainder {
    coefficients: [Gf; 48],
    /// The number of the coefficients up to the leading one, which is 0 for the remainder 0.
    length: usize,
    factor: [Gf; 32],
}

/// The error locator and the error evaluator of the first 2t sums of a word. The locator isn't 0,
/// and the two have no root in common but 0. `t` is 1 to 16.
pub fn key_pair(sums: &[Gf; 32], t: u32) -> KeyPair
    requires least { 1 ≤ t }
    requires most { t ≤ 16 }
    ensures pair { IsKeyPair t (values sums.now) (values result.locator) (values result.evaluator) }
    ensures nonzero { IsNonzero (values result.locator) }
    ensures no_common_root { (x : ℕ) → IsElement x → x ≢ 0 → value_at (values result.locator) x ≡ 0
        → value_at (values result.evaluator) x ≢ 0 }
{
    let double = 2 * t as usize;
    let mut above = power(double);
    let mut here = sums_below(sums, double);
    while here.length > t as usize {
        divide(&mut above, &here);
        swap(&mut above, &mut here);
    }
    KeyPair {
        locator: front(&here.factor),
        evaluator: front(&here.coefficients),
    }
}

/// The power x^n of the division by which it begins: its factor is 0.
fn power(n: usize) -> Remainder
    requires { n ≤ 32 }
    ensures length { result.length ≡ n + 1 }
    ensures power { values result.coefficients ≡ shifted n (1 ∷ replicate (47 - n) 0) }
    ensures factor { values result.factor ≡ replicate 32 0 }
{
    let mut coefficients = [Gf::ZERO; 48];
    coefficients[n] = Gf::ONE;
    Remainder {
        coefficients,
        length: n + 1,
        factor: [Gf::ZERO; 32],
    }
}

/// The polynomial of the first n sums, whose factor is 1.
fn sums_below(sums: &[Gf; 32], n: usize) -> Remainder
    requires { n ≤ 32 }
    ensures coefficients { values result.coefficients
        ≡ take n (values sums.now) ++ replicate (48 - n) 0 }
    ensures has_length { HasLength result.length (values result.coefficients) }
    ensures short { result.length ≤ n }
    ensures factor { values result.factor ≡ 1 ∷ replicate 31 0 }
    ensures elements { (i : ℕ) → i < n → IsElement (slice_index (values sums.now) i) }
{
    let mut coefficients = [Gf::ZERO; 48];
    for i in 0..n {
        // The sum with 0 is known to be an element.
        coefficients[i] = Gf::ZERO.add(sums[i]);
    }
    let mut factor = [Gf::ZERO; 32];
    factor[0] = Gf::ONE;
    Remainder {
        coefficients,
        length: length_of(&coefficients, n),
        factor,
    }
}

/// Leaves the remainder of `rest` by `here`: the one after them in the division.
fn divide(rest: &mut Remainder, here: &Remainder)
    requires { CanDivide rest.old here.now }
    ensures { (t : ℕ) (sums : List ℕ) → t ≤ 16 → t < here.now.length
        → AreInARow t sums rest.old here.now
        → AreInARow t sums here.now rest.new }
{
    while rest.length >= here.length {
        reduce(rest, here);
    }
}

/// Takes the multiple of `here` out of the remainder that takes its leading coefficient away.
fn reduce(rest: &mut Remainder, here: &Remainder)
    requires can_divide { CanDivide rest.old here.now }
    requires fits { here.now.length ≤ rest.old.length }
    ensures { Reduces rest.old here.now rest.new }
{
    let shift = rest.length - here.length;
    let leading = here.coefficients[here.length - 1];
    let scale = rest.coefficients[rest.length - 1].mul(leading.inv());
    add_multiple(
        &mut rest.coefficients,
        &here.coefficients,
        here.length,
        scale,
        shift,
    );
    add_shifted(&mut rest.factor, &here.factor[..16], scale, shift);
    rest.length = length_of(&rest.coefficients, rest.length - 1);
}

/// Adds a multiple of a polynomial with so many coefficients, times the power x^shift: 16 or 32 of
/// them, both of which are whole numbers of lanes.
fn add_multiple(to: &mut [Gf; 48], from: &[Gf; 48], count: usize, scale: Gf, shift: usize)
    requires few { count ≤ 32 }
    requires room { shift ≤ 16 }
    ensures { (lanes : ℕ) × (count ≤ lanes) × (lanes ≤ 32)
        × (values to.new
        ≡ sum_of (values to.old)
        (scaled scale.value (shifted shift (values (take lanes from.now))))) }
{
    if count <= 16 {
        add_shifted(to, &from[..16], scale, shift);
    } else {
        add_shifted(to, &from[..32], scale, shift);
    }
}

/// Adds a multiple of another polynomial, times the power x^shift.
fn add_shifted(to: &mut [Gf], from: &[Gf], scale: Gf, shift: usize)
    requires { shift + length from.now ≤ length to.old }
    ensures { values to.new
        ≡ sum_of (values to.old) (scaled scale.value (shifted shift (values from.now))) }
{
    for j in 0..from.len() {
        to[shift + j] = to[shift + j].add(from[j].mul_by_doubling(scale));
    }
}

/// The number of the coefficients up to the leading one of a polynomial of degree below `most`.
fn length_of(coefficients: &[Gf; 48], most: usize) -> usize
    requires within { most ≤ 48 }
    requires degree { IsBelowDegree most (values coefficients.now) }
    ensures has_length { HasLength result (values coefficients.now) }
    ensures most { result ≤ most }
{
    let mut length = most;
    while length > 0 && coefficients[length - 1].value == 0 {
        length -= 1;
    }
    length
}

/// The first coefficients.
fn front<const COUNT: usize>(coefficients: &[Gf]) -> [Gf; COUNT]
    requires { COUNT ≤ length coefficients.now }
    ensures { result ≡ take COUNT coefficients.now }
{
    let mut front = [Gf::ZERO; COUNT];
    front.copy_from_slice(&coefficients[..COUNT]);
    front
}
