//! Reading text from its front: the words that every reader is made of.
//!
//! A reader answers a value and the bytes behind it, or nothing. Each reads the texts of certain
//! values and nothing else, which the laws at the end say.
#![tactic(auto)]

ghost use Rattle.std.specs.Prelude.{◌≡◌, ℕ, ◌+◌, ◌*◌, ◌^◌, ◌<◌, ◌≤◌, false, [], ◌∷◌, ◌++◌, length, map, IfSome};
ghost use Rattle.std.specs.List.{prefix_len};
ghost use Rattle.std.specs.Char.{is_ascii_digit};
ghost use Rattle.std.specs.Fmt.{decimal as decimal_text};
ghost use Rattle.symbol_base.specs.Block.{symbols_of};
ghost use Rattle.text_reading.specs.Reading.{Gives, after_text, number_in, number_at, field_at, block_at};
ghost use Rattle.text_reading.specs.Reader.{Reads};

use symbol_base::decimal;

/// What stands behind a text at the front of the bytes, where it stands there.
#[tactic(auto, unfolding(crate::specs::Reading::after_text))]
pub fn literal<'a>(bytes: &'a [u8], text: &[u8]) -> Option<&'a [u8]>
    ensures { Gives (λ r. r.now) result (after_text text.now bytes.now) }
{
    if bytes.starts_with(text) {
        Some(&bytes[text.len()..])
    } else {
        None
    }
}

fn digit_run(bytes: &[u8]) -> usize
    ensures run { result ≡ prefix_len is_ascii_digit bytes.now }
    ensures inside { result ≤ length bytes.now }
{
    bytes
        .iter()
        .take_while(|byte| byte.is_ascii_digit())
        .count()
}

/// The number that the whole text spells, in 1 to 18 digits with no leading 0 but in `0` itself.
pub fn number_in(text: &[u8]) -> Option<u64>
    ensures { result ≡ number_in text.now }
{
    decimal(text)
}

#[tactic(auto, unfolding(crate::specs::Reading::number_at))]
fn number(bytes: &[u8]) -> Option<(u64, &[u8])>
    ensures { Gives (λ x. (x.0, x.1.now)) result (number_at bytes.now) }
{
    let (digits, rest) = bytes.split_at(digit_run(bytes));
    let number = number_in(digits)?;
    Some((number, rest))
}

/// The number from `least` to `most` that the byte `end` ends, in decimal without leading zeros.
#[tactic(auto, unfolding(crate::specs::Reading::field_at))]
pub fn field(bytes: &[u8], end: u8, least: u64, most: u64) -> Option<(u64, &[u8])>
    ensures read { Gives (λ x. (x.0, x.1.now)) result (field_at end least most bytes.now) }
    ensures range { IfSome result (λ x. (least ≤ x.0) × (x.0 ≤ most)) }
{
    let (number, rest) = number(bytes)?;
    let rest = literal(rest, &[end])?;
    if least <= number && number <= most {
        Some((number, rest))
    } else {
        None
    }
}

/// The block of the `q` digits at the front of the bytes, each the digit of a symbol of the
/// alphabet.
#[tactic(auto, unfolding(crate::specs::Reading::block_at))]
pub fn block(bytes: &[u8], alphabet: u8, q: u32) -> Option<(u64, &[u8])>
    requires two { 2 ≤ alphabet }
    requires four { alphabet ≤ 4 }
    requires short { q ≤ 20 }
    ensures { Gives (λ x. (x.0, x.1.now)) result (block_at alphabet q bytes.now) }
{
    if bytes.len() < q as usize {
        return None;
    }
    let (word, rest) = bytes.split_at(q as usize);
    let mut value = 0;
    for byte in word {
        if *byte < b'0' || *byte - b'0' >= alphabet {
            return None;
        }
        value = value * u64::from(alphabet) + u64::from(*byte - b'0');
    }
    Some((value, rest))
}

/// A number from `least` to `most` and the byte that ends it: the decimal spelling of such a
/// number, and the byte.
pub fn fields_are_read()
    ensures { (end least most : ℕ) → is_ascii_digit end ≡ false → most < 10 ^ 18
        → Reads (field_at end least most) (λ n. decimal_text n ++ end ∷ []) (λ n.
        (least ≤ n) × (n ≤ most)) }
{}

/// The block of a word of q symbols: the word's digits.
pub fn blocks_are_read()
    ensures { (alphabet q : ℕ) → 2 ≤ alphabet
        → Reads (block_at alphabet q)
        (λ value. map (λ symbol. 48 + symbol) (symbols_of alphabet q value)) (λ value.
        value < alphabet ^ q) }
{}
