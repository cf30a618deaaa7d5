//! Reed-Solomon words over the field of 256 elements: up to 255 symbols, of which the last 2t are
//! check symbols, with the roots alpha^0 to alpha^(2t - 1). Up to t wrong symbols are corrected.
#![tactic(auto)]

ghost use Rattle.std.specs.Prelude.{◌≡◌, ℕ, ◌+◌, ◌*◌, ◌<◌, ◌≤◌, List, ◌++◌, length, All, IfOk, OnOk, OnErr, IsOk};
ghost use Rattle.rs_code.specs.Word.{IsReedSolomonWord, IsNear, differences};
ghost use Rattle.gf256.specs.Field.{IsElement};
ghost use Rattle.gf256.specs.Linear.{values};
ghost use Rattle.rs_code.specs.Remainder.{RemainderTellsMembers, RemainderIsSingle};
ghost use Rattle.rs_code.specs.Laws.{AreSums, WordsAreFarApart, NearIsSingle, LocatorFindsErrors};

mod coder;
mod encode;
mod errors;
mod key_equation;
mod lanes;
mod monomials;
mod sums;

pub use coder::Coder;
use encode::{feed, generator};
use errors::find_errors;
use gf256::Gf;
pub use key_equation::{KeyPair, key_pair};
use monomials::Monomials;
use sums::{add_symbols, count_errors};

/// The element whose powers are the points of the symbols.
const ALPHA: Gf = Gf { value: 2 };

/// No word of the code differs from the received one in at most t symbols.
#[derive(Clone, Copy, PartialEq, Eq, Debug)]
pub struct TooFar;

/// Writes the 2t check symbols that make a word of the code behind the symbols: the remainder of
/// their polynomial, times x^(2t), by the generator polynomial. For many words make a `Coder`.
pub fn parity(symbols: &[u8], t: u32, out: &mut [u8])
    requires least { 1 ≤ t }
    requires most { t ≤ 16 }
    requires room { length out.old ≡ 2 * t }
    requires short { length symbols.now + length out.old ≤ 255 }
    ensures { IsReedSolomonWord t (symbols.now ++ out.new) }
{
    let generator = generator(t);
    out.fill(0);
    for symbol in symbols {
        feed(out, &generator, *symbol);
    }
}

/// Corrects up to t wrong symbols of a received word, and answers how many it changed: the locator
/// of the errors meets the key equation of the word's sums (Peterson; Sugiyama and others; Forney).
/// For many words make a `Coder`.
pub fn correct(word: &mut [u8], t: u32) -> Result<u32, TooFar>
    requires least { 1 ≤ t }
    requires most { t ≤ 16 }
    requires long { 2 * t < length word.old }
    requires short { length word.old ≤ 255 }
    ensures near { OnOk result (IsNear t word.old word.new) }
    ensures count { IfOk result (λ changed. changed ≡ differences word.old word.new) }

    // A word that is near is found, and is the one that the received word becomes.
    ensures found { (near : List ℕ) → IsNear t word.old near → IsOk result }
    ensures becomes { (near : List ℕ) → IsNear t word.old near → word.new ≡ near }

    ensures too_far { OnErr result ((near : List ℕ) → IsNear t word.old near → ⊥) }
    ensures unchanged { OnErr result (word.new ≡ word.old) }
{
    Coder::new(t).correct(word)
}

/// Corrects a received word whose first 2t weighted sums are given.
fn repair(word: &mut [u8], t: u32, sums: &[Gf; 32], points: &Monomials) -> Result<u32, TooFar>
    requires least { 1 ≤ t }
    requires most { t ≤ 16 }
    requires short { length word.old ≤ 255 }
    requires elements { All IsElement word.old }
    requires sums { AreSums t word.old (values sums.now) }
    ensures near { OnOk result (IsNear t word.old word.new) }
    ensures count { IfOk result (λ changed. changed ≡ differences word.old word.new) }
    ensures found { (near : List ℕ) → IsNear t word.old near → IsOk result }
    ensures becomes { (near : List ℕ) → IsNear t word.old near → word.new ≡ near }
    ensures too_far { OnErr result ((near : List ℕ) → IsNear t word.old near → ⊥) }
    ensures unchanged { OnErr result (word.new ≡ word.old) }
{
    let Some(pattern) = find_errors(sums, t, word.len(), points) else {
        return Err(TooFar);
    };
    let errors = &pattern[..word.len()];
    let changed = count_errors(errors);
    add_symbols(word, errors);
    Ok(changed)
}

/// A word is one of the code exactly where its remainder by the generator polynomial is 0.
pub fn remainder_tells_members()
    ensures { RemainderTellsMembers }
{}

/// A word has one remainder by the generator polynomial.
pub fn remainder_is_single()
    ensures { RemainderIsSingle }
{}

/// The minimum distance: two different words of the code of one length differ in at least 2t + 1
/// symbols.
pub fn words_are_far_apart()
    ensures { WordsAreFarApart }
{}

/// At most one word of the code is near a received one.
pub fn near_is_single()
    ensures { NearIsSingle }
{}

/// The key equation: a locator that meets it is 0 at the inverse of the point of every wrong symbol
/// (Berlekamp; Sugiyama and others).
pub fn locator_finds_errors()
    ensures { LocatorFindsErrors }
{}
