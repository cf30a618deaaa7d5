//! Encoding and correction of many words with the same number of check symbols, by tables.

ghost use Rattle.std.specs.Prelude.{◌≡◌, ℕ, ◌+◌, ◌*◌, ◌<◌, ◌≤◌, ◌↔◌, List, ◌++◌, length, take, All, IsTrue, IfOk, IsOk, OnErr, OnOk, ◌%◌, ◌/◌, ◌^◌, [], slice_index, slice_index_or};
ghost use Rattle.std.specs.Int.{w64, w128, to_be_bytes};
ghost use Rattle.gf256.specs.Field.{IsElement};
ghost use Rattle.gf256.specs.Linear.{scaled, values};
ghost use Rattle.rs_code.specs.Polynomial.{IsBelowDegree};
ghost use Rattle.rs_code.specs.Word.{IsReedSolomonWord, IsNear, differences};
ghost use Rattle.rs_code.specs.Remainder.{IsRemainder};
ghost use Rattle.rs_code.specs.Interleave.{interleave};
ghost use Rattle.rs_code.specs.inside.Register.{AreRows, AreFarRows, IsRest, register, narrow_step, wide_step, wide_step_behind};

use crate::encode::generator;
use crate::monomials::Monomials;
use crate::sums::{add_symbols, syndromes};
use crate::{TooFar, repair};
use gf256::Gf;
use std::marker::Model;

/// The tables for words with 2t check symbols: for each symbol, its multiple of the generator
/// polynomial below the leading coefficient, and the values of monomials at the points of the
/// symbols. A multiple is a row of 32 coefficients, from that of x^(2t - 1) down, the first in the
/// top byte of `high`, the last in the lowest of `low`. The far rows are what a symbol comes to
/// once another has passed behind it.
#[derive(Drop)]
pub struct Coder {
    t: u32,
    high: [u128; 256],
    low: [u128; 256],
    far_high: [u128; 256],
    far_low: [u128; 256],
    points: Monomials,
}

impl Model for Coder {
    ghost Value = { ℕ };

    ghost view = { λ c. c.t };

    ghost invariant = { λ c. AreRows c.t c.high c.low × AreFarRows c.high c.low c.far_high c.far_low };
}

impl Coder {
    /// The tables for words that are corrected up to t symbols. `t` is 1 to 16.
    pub fn new(t: u32) -> Coder
        requires least { 1 ≤ t }
        requires most { t ≤ 16 }
        ensures { result ≡ t }
    {
        let (high, low) = multiples(&generator(t));
        let (far_high, far_low) = far_rows(&high, &low);
        Coder {
            t,
            high,
            low,
            far_high,
            far_low,
            points: Monomials::new(),
        }
    }

    /// Writes the 2t check symbols that make a word of the code behind the symbols.
    pub fn parity(&self, symbols: &[u8], out: &mut [u8])
        requires room { length out.old ≡ 2 * self.now }
        requires short { length symbols.now + length out.old ≤ 255 }
        ensures { IsReedSolomonWord self.now (symbols.now ++ out.new) }
    {
        let checks = self.check_symbols(symbols);
        out.copy_from_slice(&checks[..out.len()]);
    }

    /// `parity` of several interleaves side by side: symbol s of interleave v stands at place
    /// s * many + v, in the symbols and in the check symbols behind them.
    pub fn interleaved_parity(&self, symbols: &[u8], many: usize, out: &mut [u8])
        requires some { 1 ≤ many }
        requires few { many ≤ 16 }
        requires whole { length symbols.now % many ≡ 0 }
        requires room { length out.old ≡ 2 * self.now * many }
        requires short { length symbols.now + length out.old ≤ 255 * many }
        ensures { (v : ℕ) → v < many
            → IsReedSolomonWord self.now (interleave many v (symbols.now ++ out.new)) }
    {
        let checks = self.interleaved_checks(symbols, many);
        put_columns(&checks, many, out);
    }

    /// Whether several words side by side are all words of the code: symbol s of word v stands at
    /// place s * many + v.
    pub fn are_code_words(&self, words: &[u8], many: usize) -> bool
        requires some { 1 ≤ many }
        requires few { many ≤ 16 }
        requires whole { length words.now % many ≡ 0 }
        requires long { 2 * self.now * many ≤ length words.now }
        requires short { length words.now ≤ 255 * many }
        ensures { IsTrue result
            ↔ ((v : ℕ) → v < many → IsReedSolomonWord self.now (interleave many v words.now)) }
    {
        let checks = 2 * self.t as usize * many;
        let (front, given) = words.split_at(words.len() - checks);
        columns_agree(&self.interleaved_checks(front, many), many, given)
    }

    /// The check symbols of each interleave, with zeros behind them.
    fn interleaved_checks(&self, symbols: &[u8], many: usize) -> [[u8; 32]; 16]
        requires some { 1 ≤ many }
        requires few { many ≤ 16 }
        ensures rests { (v : ℕ) → v < many
            → IsRest self.now (interleave many v symbols.now) (slice_index_or result v []) }
        ensures most { self.now ≤ 16 }
    {
        if self.t <= 8 {
            let high = narrow_rests(&self.high, symbols, many);
            all_symbols(&high, &[0; 16])
        } else {
            let (high, low) = wide_rests(&self.high, &self.low, symbols, many);
            all_symbols(&high, &low)
        }
    }

    /// The remainder of a word by the generator polynomial, from the coefficient of x^(2t - 1)
    /// down, and zeros behind it.
    pub fn remainder(&self, word: &[u8]) -> [u8; 32]
        requires { 2 * self.now ≤ length word.now }
        ensures remainder { IsRemainder self.now word.now (take (2 * self.now) result) }
        ensures zeros { IsBelowDegree (2 * self.now) result }
        ensures elements { All IsElement word.now }
        ensures most { self.now ≤ 16 }
    {
        let checks = 2 * self.t as usize;
        let (front, given) = word.split_at(word.len() - checks);
        let mut rest = self.check_symbols(front);
        add_symbols(&mut rest[..checks], given);
        rest
    }

    /// Whether a word is one of the code: its remainder is 0.
    pub fn is_code_word(&self, word: &[u8]) -> bool
        requires long { 2 * self.now ≤ length word.now }
        requires short { length word.now ≤ 255 }
        ensures { IsTrue result ↔ IsReedSolomonWord self.now word.now }
    {
        self.remainder(word) == [0; 32]
    }

    /// Corrects up to t wrong symbols of a received word, and answers how many it changed.
    pub fn correct(&self, word: &mut [u8]) -> Result<u32, TooFar>
        requires long { 2 * self.now < length word.old }
        requires short { length word.old ≤ 255 }
        ensures near { OnOk result (IsNear self.now word.old word.new) }
        ensures count { IfOk result (λ changed. changed ≡ differences word.old word.new) }
        ensures found { (near : List ℕ) → IsNear self.now word.old near → IsOk result }
        ensures becomes { (near : List ℕ) → IsNear self.now word.old near → word.new ≡ near }
        ensures too_far { OnErr result ((near : List ℕ) → IsNear self.now word.old near → ⊥) }
        ensures unchanged { OnErr result (word.new ≡ word.old) }
    {
        let rest = self.remainder(word);
        if rest == [0; 32] {
            return Ok(0);
        }
        let sums = syndromes(&rest[..2 * self.t as usize], self.t, &self.points);
        repair(word, self.t, &sums, &self.points)
    }

    /// Twice t check symbols of a word, and zeros behind them.
    fn check_symbols(&self, symbols: &[u8]) -> [u8; 32]
        ensures rest { IsRest self.now symbols.now result }
        ensures most { self.now ≤ 16 }
    {
        if self.t <= 8 {
            let high = narrow_rest(&self.high, &self.far_high, symbols);
            symbols_of(high, 0)
        } else {
            let (high, low) = self.wide_rest(symbols);
            symbols_of(high, low)
        }
    }

    /// Feeds symbols to a register of 32 symbols, two at a time.
    fn wide_rest(&self, symbols: &[u8]) -> (u128, u128)
        ensures { IsRest self.now symbols.now (register result.0 result.1) }
    {
        let mut high = 0u128;
        let mut low = 0u128;
        for s in 0..symbols.len() / 2 {
            let far = ((high >> 120) as u8 ^ symbols[2 * s]) as usize;
            let near = ((high >> 112) % 256) as u8 ^ symbols[2 * s + 1];
            high = high << 16 ^ low >> 112 ^ self.far_high[far] ^ self.high[near as usize];
            low = low << 16 ^ self.far_low[far] ^ self.low[near as usize];
        }
        if symbols.len() % 2 == 0 {
            return (high, low);
        }
        let place = ((high >> 120) as u8 ^ symbols[symbols.len() - 1]) as usize;
        (
            high << 8 ^ low >> 120 ^ self.high[place],
            low << 8 ^ self.low[place],
        )
    }
}

/// The multiples of a polynomial, each in two numbers. They are sums of those by the numbers below
/// 16 and those by the multiples of 16.
fn multiples(polynomial: &[Gf; 32]) -> ([u128; 256], [u128; 256])
    ensures { (f : ℕ) → f < 256
        → register (slice_index result.0 f) (slice_index result.1 f)
        ≡ scaled f (values polynomial.now) }
{
    let lower = sixteen_multiples(polynomial, 1);
    let upper = sixteen_multiples(polynomial, 16);
    let mut high = [0; 256];
    let mut low = [0; 256];
    for f in 0..256 {
        high[f] = lower.0[f % 16] ^ upper.0[f / 16];
        low[f] = lower.1[f % 16] ^ upper.1[f / 16];
    }
    (high, low)
}

/// The multiples of a polynomial by the first sixteen multiples of a factor, each in two numbers.
fn sixteen_multiples(polynomial: &[Gf; 32], factor: u8) -> ([u128; 16], [u128; 16])
    requires { factor ≤ 16 }
    ensures { (k : ℕ) → k < 16
        → register (slice_index result.0 k) (slice_index result.1 k)
        ≡ scaled (factor * k) (values polynomial.now) }
{
    let mut high = [0; 16];
    let mut low = [0; 16];
    for k in 0..16 {
        let value = factor * k as u8;
        let row = multiple(polynomial, Gf { value });
        high[k] = packed(&row[..16]);
        low[k] = packed(&row[16..]);
    }
    (high, low)
}

/// What each row comes to once the symbol 0 has passed behind it.
fn far_rows(high: &[u128; 256], low: &[u128; 256]) -> ([u128; 256], [u128; 256])
    ensures { AreFarRows high.now low.now result.0 result.1 }
{
    let mut far_high = [0; 256];
    let mut far_low = [0; 256];
    for f in 0..256 {
        let place = (high[f] >> 120) as usize;
        far_high[f] = high[f] << 8 ^ low[f] >> 120 ^ high[place];
        far_low[f] = low[f] << 8 ^ low[place];
    }
    (far_high, far_low)
}

/// The multiple of a polynomial.
fn multiple(polynomial: &[Gf; 32], factor: Gf) -> [Gf; 32]
    ensures { values result ≡ scaled factor.value (values polynomial.now) }
{
    let mut multiple = [Gf::ZERO; 32];
    for k in 0..32 {
        multiple[k] = polynomial[k].mul_by_doubling(factor);
    }
    multiple
}

/// Sixteen symbols in one number, the first in the top byte.
pub fn packed(symbols: &[Gf]) -> u128
    requires sixteen { length symbols.now ≡ 16 }
    requires elements { All IsElement (values symbols.now) }
    ensures { to_be_bytes w128 result ≡ values symbols.now }
{
    let mut number = 0;
    for symbol in symbols {
        number = number << 8 ^ u128::from(symbol.value);
    }
    number
}

/// The symbols of a register.
fn symbols_of(high: u128, low: u128) -> [u8; 32]
    ensures { result ≡ register high low }
{
    let mut symbols = [0; 32];
    symbols[..16].copy_from_slice(&sixteen_symbols(high));
    symbols[16..].copy_from_slice(&sixteen_symbols(low));
    symbols
}

/// The symbols of a number, the first in the top byte.
#[tactic(auto, using(crate::proofs::Bytes::two_halves))]
fn sixteen_symbols(number: u128) -> [u8; 16]
    ensures { result ≡ to_be_bytes w128 number }
{
    halves(number)
}

/// The symbols of a number, eight from its upper half and eight from its lower one.
fn halves(number: u128) -> [u8; 16]
    ensures { result ≡ to_be_bytes w64 (number / 2 ^ 64) ++ to_be_bytes w64 (number % 2 ^ 64) }
{
    let mut symbols = [0; 16];
    symbols[..8].copy_from_slice(&eight_symbols((number >> 64) as u64));
    symbols[8..].copy_from_slice(&eight_symbols((number % (1 << 64)) as u64));
    symbols
}

/// The symbols of a number; a function of its own, for only a plain number of 64 bits is turned
/// round by one instruction.
#[inline(never)]
fn eight_symbols(number: u64) -> [u8; 8]
    ensures { result ≡ to_be_bytes w64 number }
{
    number.to_be_bytes()
}

/// Feeds symbols to a register of 16 symbols, which are enough where t is at most 8, two at a time.
fn narrow_rest(rows: &[u128; 256], far_rows: &[u128; 256], symbols: &[u8]) -> u128
    ensures { (t : ℕ) (low far_low : List ℕ) → t ≤ 8 → AreRows t rows.now low
        → AreFarRows rows.now low far_rows.now far_low
        → IsRest t symbols.now (register result 0) }
{
    let mut rest = 0u128;
    for s in 0..symbols.len() / 2 {
        let far = (rest >> 120) as u8 ^ symbols[2 * s];
        let near = ((rest >> 112) % 256) as u8 ^ symbols[2 * s + 1];
        rest = rest << 16 ^ far_rows[far as usize] ^ rows[near as usize];
    }
    if symbols.len() % 2 == 0 {
        return rest;
    }
    let place = (rest >> 120) as u8 ^ symbols[symbols.len() - 1];
    rest << 8 ^ rows[place as usize]
}

/// Feeds the symbols of several interleaves to their registers of 16 symbols, column by column.
fn narrow_rests(rows: &[u128; 256], symbols: &[u8], many: usize) -> [u128; 16]
    requires some { 1 ≤ many }
    requires few { many ≤ 16 }
    ensures { (t : ℕ) (low : List ℕ) → t ≤ 8 → AreRows t rows.now low → (v : ℕ) → v < many
        → IsRest t (interleave many v symbols.now) (register (slice_index result v) 0) }
{
    let mut rests = [0u128; 16];
    for s in 0..symbols.len() / many {
        feed_narrow(&mut rests, rows, &symbols[s * many..s * many + many]);
    }
    rests
}

/// Feeds a symbol to each of the first registers of 16 symbols.
fn feed_narrow(rests: &mut [u128; 16], rows: &[u128; 256], column: &[u8])
    requires { length column.now ≤ 16 }
    ensures { (v : ℕ) → v < length column.now
        → slice_index rests.new v
        ≡ narrow_step rows.now (slice_index rests.old v) (slice_index column.now v) }
{
    for v in 0..column.len() {
        let place = (rests[v] >> 120) as u8 ^ column[v];
        rests[v] = rests[v] << 8 ^ rows[place as usize];
    }
}

/// Feeds the symbols of several interleaves to their registers of 32 symbols, column by column.
fn wide_rests(
    high_rows: &[u128; 256],
    low_rows: &[u128; 256],
    symbols: &[u8],
    many: usize,
) -> ([u128; 16], [u128; 16])
    requires some { 1 ≤ many }
    requires few { many ≤ 16 }
    ensures { (t : ℕ) → AreRows t high_rows.now low_rows.now → (v : ℕ) → v < many
        → IsRest t (interleave many v symbols.now)
        (register (slice_index result.0 v) (slice_index result.1 v)) }
{
    let mut high = [0u128; 16];
    let mut low = [0u128; 16];
    for s in 0..symbols.len() / many {
        feed_wide(
            &mut high,
            &mut low,
            high_rows,
            low_rows,
            &symbols[s * many..s * many + many],
        );
    }
    (high, low)
}

/// Feeds a symbol to each of the first registers of 32 symbols.
fn feed_wide(
    high: &mut [u128; 16],
    low: &mut [u128; 16],
    high_rows: &[u128; 256],
    low_rows: &[u128; 256],
    column: &[u8],
)
    requires { length column.now ≤ 16 }
    ensures high { (v : ℕ) → v < length column.now
        → slice_index high.new v
        ≡ wide_step high_rows.now (slice_index high.old v) (slice_index low.old v)
        (slice_index column.now v) }
    ensures low { (v : ℕ) → v < length column.now
        → slice_index low.new v
        ≡ wide_step_behind low_rows.now (slice_index high.old v) (slice_index low.old v)
        (slice_index column.now v) }
{
    for v in 0..column.len() {
        let place = ((high[v] >> 120) as u8 ^ column[v]) as usize;
        high[v] = high[v] << 8 ^ low[v] >> 120 ^ high_rows[place];
        low[v] = low[v] << 8 ^ low_rows[place];
    }
}

/// The symbols of each register.
fn all_symbols(high: &[u128; 16], low: &[u128; 16]) -> [[u8; 32]; 16]
    ensures { (v : ℕ) → v < 16
        → slice_index_or result v [] ≡ register (slice_index high.now v) (slice_index low.now v) }
{
    let mut symbols = [[0; 32]; 16];
    for v in 0..16 {
        symbols[v] = symbols_of(high[v], low[v]);
    }
    symbols
}

/// Writes the first symbols of each row into its interleave.
fn put_columns(rows: &[[u8; 32]; 16], many: usize, out: &mut [u8])
    requires some { 1 ≤ many }
    requires few { many ≤ 16 }
    requires short { length out.old ≤ 32 * many }
    ensures { (k v : ℕ) → v < many → k < length out.old / many
        → slice_index out.new (k * many + v) ≡ slice_index (slice_index_or rows.now v []) k }
{
    for k in 0..out.len() / many {
        for v in 0..many {
            out[k * many + v] = rows[v][k];
        }
    }
}

/// Whether the first symbols of each row are those of its interleave.
fn columns_agree(rows: &[[u8; 32]; 16], many: usize, given: &[u8]) -> bool
    requires some { 1 ≤ many }
    requires few { many ≤ 16 }
    requires short { length given.now ≤ 32 * many }
    ensures { IsTrue result ↔ ((k v : ℕ) → v < many → k < length given.now / many
        → slice_index given.now (k * many + v) ≡ slice_index (slice_index_or rows.now v []) k) }
{
    for k in 0..given.len() / many {
        for v in 0..many {
            if given[k * many + v] != rows[v][k] {
                return false;
            }
        }
    }
    true
}
