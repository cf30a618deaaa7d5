//! The values of polynomials at the powers of alpha, sixteen points at a time, by tables.

ghost use Rattle.std.specs.Prelude.{◌≡◌, ℕ, ◌+◌, ◌*◌, ◌/◌, ◌%◌, ◌<◌, ◌≤◌, ◌∷◌, length, slice_index, All};
ghost use Rattle.gf256.specs.Field.{IsElement, times, power, alpha};
ghost use Rattle.gf256.specs.Linear.{values};
ghost use Rattle.rs_code.specs.Polynomial.{value_at};
ghost use Rattle.rs_code.specs.inside.PointTables.{IsMonomial, AreMonomials, AreSteps, ArePoints};

use crate::ALPHA;
use crate::lanes::{products, values_at};
use crate::sums::add_symbols;
use gf256::Gf;
use std::marker::Model;

/// For each degree from 1 to 16, the values of monomials c x^degree at alpha^0 to alpha^15, row by
/// row: those with a coefficient c below 16, and those where it is a multiple of 16. Of any other
/// coefficient they are the sum of two of these.
#[derive(Drop)]
pub struct Monomials {
    lower: [u8; 4096],
    upper: [u8; 4096],
    /// The power of alpha^16 of each degree: it leads a monomial on to the next sixteen points.
    steps: [Gf; 16],
    /// The powers of alpha at which the sums of a word are values.
    first_points: [Gf; 16],
    next_points: [Gf; 16],
}

impl Model for Monomials {
    ghost Value = { Unit {0} };

    ghost view = { λ _. tt };

    ghost invariant = { λ m. AreMonomials 1 m.lower × AreMonomials 16 m.upper × AreSteps (values m.steps)
        × ArePoints 0 (values m.first_points) × ArePoints 1 (values m.next_points) };
}

impl Monomials {
    /// The tables of all degrees.
    pub fn new() -> Monomials {
        Monomials {
            lower: table(1),
            upper: table(16),
            steps: powers_of_step(),
            first_points: progression(Gf::ONE, ALPHA),
            next_points: progression(ALPHA.pow(16), ALPHA),
        }
    }

    /// The values of a polynomial at alpha^0 to alpha^15, or at the next sixteen powers.
    pub fn first_values(&self, polynomial: &[Gf], half: usize) -> [Gf; 16]
        requires { half < 2 }
        ensures { (j : ℕ) → j < 16
            → slice_index (values result) j
            ≡ value_at (values polynomial.now) (power alpha (16 * half + j)) }
    {
        if half == 0 {
            values_at(polynomial, &self.first_points)
        } else {
            values_at(polynomial, &self.next_points)
        }
    }

    /// The values of a polynomial at the first powers of alpha, sixteen for each row.
    pub fn values(&self, polynomial: &[Gf], rows: usize) -> [u8; 256]
        requires some { 1 ≤ length polynomial.now }
        requires short { length polynomial.now ≤ 17 }
        requires few { rows ≤ 16 }
        requires elements { All IsElement (values polynomial.now) }
        ensures { (n : ℕ) → n < 16 * rows
            → slice_index result n ≡ value_at (values polynomial.now) (power alpha n) }
    {
        let degree = polynomial.len() - 1;
        let mut terms = [Gf::ZERO; 16];
        terms[..degree].copy_from_slice(&polynomial[1..]);
        let mut found = [0; 256];
        for row in 0..rows {
            let sixteen = self.tabled_values(polynomial[0], &terms[..degree]);
            found[16 * row..16 * row + 16].copy_from_slice(&sixteen);
            terms = products(&terms, &self.steps);
        }
        found
    }

    /// The values of a polynomial at alpha^0 to alpha^15, from its constant term and its higher
    /// terms.
    fn tabled_values(&self, constant: Gf, terms: &[Gf]) -> [u8; 16]
        requires short { length terms.now ≤ 16 }
        requires element { IsElement constant.value }
        ensures { (j : ℕ) → j < 16
            → slice_index result j ≡ value_at (constant.value ∷ values terms.now) (power alpha j) }
    {
        let mut sums = [constant.value; 16];
        for k in 0..terms.len() {
            add_symbols(&mut sums, &self.monomial(terms[k], k));
        }
        sums
    }

    /// The values at alpha^0 to alpha^15 of the monomial whose degree is one more than its place.
    fn monomial(&self, coefficient: Gf, place: usize) -> [u8; 16]
        requires { place < 16 }
        ensures values { IsMonomial coefficient.value (place + 1) result }
        ensures element { IsElement coefficient.value }
    {
        let c = coefficient.value as usize;
        let row = 256 * place + 16 * (c % 16);
        let upper_row = 256 * place + 16 * (c / 16);
        let mut found = [0; 16];
        found.copy_from_slice(&self.lower[row..row + 16]);
        add_symbols(&mut found, &self.upper[upper_row..upper_row + 16]);
        found
    }
}

/// The values of the monomials whose coefficients are the first sixteen multiples of a factor.
fn table(factor: u8) -> [u8; 4096]
    requires { factor ≤ 16 }
    ensures { AreMonomials factor result }
{
    let mut table = [0; 4096];
    for place in 0..16 {
        let rows = table_rows(factor, ALPHA.pow(place as u32 + 1));
        table[256 * place..256 * place + 256].copy_from_slice(&rows);
    }
    table
}

/// The sixteen terms of each progression with this ratio that begins at a multiple of the factor.
fn table_rows(factor: u8, ratio: Gf) -> [u8; 256]
    requires { factor ≤ 16 }
    ensures { (n : ℕ) → n < 256
        → slice_index result n ≡ times (factor * (n / 16)) (power ratio.value (n % 16)) }
{
    let powers = progression(Gf::ONE, ratio);
    let mut rows = [0; 256];
    for h in 0..16 {
        let first = Gf {
            value: factor * h as u8,
        };
        let row = bytes_of(&products(&powers, &[first; 16]));
        rows[16 * h..16 * h + 16].copy_from_slice(&row);
    }
    rows
}

/// The terms first, first * ratio, first * ratio^2 and so on.
fn progression(first: Gf, ratio: Gf) -> [Gf; 16]
    ensures { (j : ℕ) → j < 16
        → slice_index (values result) j ≡ times first.value (power ratio.value j) }
{
    let mut terms = [Gf::ZERO; 16];
    for j in 0..16 {
        terms[j] = first.mul(ratio.pow(j as u32));
    }
    terms
}

/// The elements as bytes.
fn bytes_of(elements: &[Gf; 16]) -> [u8; 16]
    ensures { result ≡ values elements.now }
{
    let mut bytes = [0; 16];
    for j in 0..16 {
        bytes[j] = elements[j].value;
    }
    bytes
}

/// The powers of alpha^16 of the degrees from 1 on.
fn powers_of_step() -> [Gf; 16]
    ensures { AreSteps (values result) }
{
    let step = ALPHA.pow(16);
    let mut steps = [Gf::ONE; 16];
    for place in 0..16 {
        steps[place] = step.pow(place as u32 + 1);
    }
    steps
}
