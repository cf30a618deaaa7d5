//! The weighted sums of a word, which are 0 for a word of the code.

ghost use Rattle.std.specs.Prelude.{◌≡◌, ℕ, ◌*◌, ◌≤◌, length, take};
ghost use Rattle.gf256.specs.Field.{power, alpha};
ghost use Rattle.gf256.specs.Linear.{values};
ghost use Rattle.rs_code.specs.Word.{weighted_sum};
ghost use Rattle.rs_code.specs.Laws.{AreSums};
ghost use Rattle.rs_code.specs.inside.Errors.{weight};
ghost use Rattle.rs_code.specs.Polynomial.{value_at, sum_of};

use crate::monomials::Monomials;
use gf256::Gf;

/// The first 2t weighted sums of a word, its syndromes, sum i in place i: they are those of its
/// remainder.
pub fn syndromes(rest: &[u8], t: u32, points: &Monomials) -> [Gf; 32]
    requires most { t ≤ 16 }
    requires full { length rest.now ≡ 2 * t }
    ensures { AreSums t rest.now (values result) }
{
    let polynomial = polynomial_of(rest);
    let mut sums = [Gf::ZERO; 32];
    for half in 0..(rest.len() + 15) / 16 {
        let sixteen = points.first_values(&polynomial[..rest.len()], half);
        sums[16 * half..16 * half + 16].copy_from_slice(&sixteen);
    }
    sums
}

/// The polynomial of some symbols, of which the last is the constant term: the coefficients from
/// the constant term on.
fn polynomial_of(symbols: &[u8]) -> [Gf; 32]
    requires { length symbols.now ≤ 32 }
    ensures { (i : ℕ)
        → value_at (take (length symbols.now) (values result)) (power alpha i)
        ≡ weighted_sum symbols.now i }
{
    let mut polynomial = [Gf::ZERO; 32];
    for k in 0..symbols.len() {
        polynomial[k] = Gf {
            value: symbols[symbols.len() - 1 - k],
        };
    }
    polynomial
}

/// Adds symbols to as many others, place by place.
pub fn add_symbols(word: &mut [u8], others: &[u8])
    requires { length others.now ≡ length word.old }
    ensures { word.new ≡ sum_of word.old others.now }
{
    for i in 0..word.len() {
        word[i] ^= others[i];
    }
}

/// The number of errors that are not 0.
pub fn count_errors(errors: &[u8]) -> u32
    requires { length errors.now ≤ 255 }
    ensures { result ≡ weight errors.now }
{
    let mut count = 0;
    for error in errors {
        if *error != 0 {
            count += 1;
        }
    }
    count
}
