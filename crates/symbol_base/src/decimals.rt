ghost use Rattle.std.specs.Prelude.{◌≡◌, ◌≢◌, ℕ, ◌<◌, ◌^◌, ◌↔◌, List, IsTrue, IsSome, IfSome, IfNone};
ghost use Rattle.std.specs.Fmt.{decimal};
ghost use Rattle.symbol_base.specs.Decimal.{IsDecimal};

/// The number that a text spells in 1 to 18 digits, with no leading 0 but in `0` itself.
pub fn decimal(text: &[u8]) -> Option<u64>
    ensures value { IfSome result (λ n. (n < 10 ^ 18) × (text.now ≡ decimal n)) }
    ensures none { IfNone result ((n : ℕ) → n < 10 ^ 18 → text.now ≢ decimal n) }
    ensures shape { IsSome result ↔ IsDecimal text.now }
{
    if has_shape(text) {
        Some(number_of_digits(text))
    } else {
        None
    }
}

fn has_shape(text: &[u8]) -> bool
    ensures { IsTrue result ↔ IsDecimal text.now }
{
    if text.is_empty() {
        return false;
    }
    if text.len() > 18 {
        return false;
    }
    if text.len() > 1 && text[0] == b'0' {
        return false;
    }
    text.iter().all(|byte| byte.is_ascii_digit())
}

fn number_of_digits(text: &[u8]) -> u64
    requires { IsDecimal text.now }
    ensures below { result < 10 ^ 18 }
    ensures spelled { text.now ≡ decimal result }
{
    let mut number = 0;
    for digit in text {
        number = number * 10 + u64::from(*digit - b'0');
    }
    number
}

/// A text of 1 to 18 digits with no leading 0 is the spelling of a number below 10^18, and each
/// such spelling is one.
pub fn decimal_texts()
    ensures spells { (text : List ℕ) → IsDecimal text
        → ((n : ℕ) × (n < 10 ^ 18) × (text ≡ decimal n)) }
    ensures spelled { (n : ℕ) → n < 10 ^ 18 → IsDecimal (decimal n) }
{}
