//! The check symbols of a word: the remainder of its polynomial by the generator polynomial.

ghost use Rattle.std.specs.Prelude.{◌≡◌, ℕ, ◌+◌, ◌*◌, ◌<◌, ◌≤◌, ◌⊎◌, length, take};
ghost use Rattle.gf256.specs.Field.{plus, times, power, alpha};
ghost use Rattle.gf256.specs.Linear.{values};
ghost use Rattle.rs_code.specs.Word.{weighted_sum};
ghost use Rattle.rs_code.specs.Polynomial.{IsBelowDegree};

use crate::ALPHA;
use gf256::Gf;

/// The product of x - alpha^i for i below 2t, below its leading 1: the coefficients from that of
/// x^(2t - 1) down to the constant term.
pub fn generator(t: u32) -> [Gf; 32]
    requires { t ≤ 16 }
    ensures zeros { IsBelowDegree (2 * t) (values result) }
    ensures roots { (i : ℕ) → i < 2 * t
        → weighted_sum (take (2 * t) (values result)) i ≡ power alpha (2 * t * i) }
{
    let mut product = [Gf::ZERO; 32];
    let mut root = Gf::ONE;
    for degree in 0..2 * t as usize {
        product = with_root(&product, degree, root);
        root = root.mul(ALPHA);
    }
    product
}

/// The product of a polynomial of this degree and x - root, both below their leading 1.
fn with_root(polynomial: &[Gf; 32], degree: usize, root: Gf) -> [Gf; 32]
    requires small { degree < 32 }
    requires polynomial { IsBelowDegree degree (values polynomial.now) }
    ensures zeros { IsBelowDegree (degree + 1) (values result) }
    ensures roots { (i : ℕ)
        → (weighted_sum (take degree (values polynomial.now)) i ≡ power alpha (degree * i))
        ⊎ (root.value ≡ power alpha i)
        → weighted_sum (take (degree + 1) (values result)) i ≡ power alpha ((degree + 1) * i) }
{
    let mut product = [Gf::ZERO; 32];
    let mut above = Gf::ONE;
    for k in 0..degree + 1 {
        product[k] = polynomial[k].add(root.mul(above));
        above = polynomial[k];
    }
    product
}

/// Takes a further symbol into the remainder: at a root of the generator its polynomial is
/// multiplied by x, and the symbol times x^n comes to it.
pub fn feed(register: &mut [u8], generator: &[Gf; 32], symbol: u8)
    requires some { 1 ≤ length register.old }
    requires few { length register.old ≤ 32 }
    ensures { (i : ℕ)
        → weighted_sum (take (length register.old) (values generator.now)) i
        ≡ power alpha (length register.old * i)
        → weighted_sum register.new i
        ≡ plus (times (weighted_sum register.old i) (power alpha i))
        (times symbol (power alpha (length register.old * i))) }
{
    let last = register.len() - 1;
    let factor = Gf {
        value: symbol ^ register[0],
    };
    for k in 0..last {
        register[k] = register[k + 1] ^ factor.mul(generator[k]).value;
    }
    register[last] = factor.mul(generator[last]).value;
}
