//! The laws of the field, each a function with an empty body whose contract is the law. A law with
//! no premise holds of all numbers, since a product is always an element.

ghost use Rattle.std.specs.Prelude.{◌≡◌, ◌≢◌, ℕ, suc, ◌+◌, ◌*◌, ◌<◌, ◌⊎◌};
ghost use Rattle.gf256.specs.Field.{IsElement, IsProduct, alpha, inverse, plus, power, times};

/// The laws of the sum of the field.
pub fn sum_laws()
    ensures commutes { (a b : ℕ) → plus a b ≡ plus b a }
    ensures associates { (a b c : ℕ) → plus (plus a b) c ≡ plus a (plus b c) }
    ensures zero { (a : ℕ) → plus a 0 ≡ a }
    ensures own_negative { (a : ℕ) → plus a a ≡ 0 }
    ensures closed { (a b : ℕ) → IsElement a → IsElement b → IsElement (plus a b) }
{}

/// The laws of the product.
pub fn product_laws()
    ensures remainder { (a b : ℕ) → IsProduct a b (times a b) }
    ensures single { (a b c d : ℕ) → IsProduct a b c → IsProduct a b d → c ≡ d }
    ensures commutes { (a b : ℕ) → times a b ≡ times b a }
    ensures associates { (a b c : ℕ) → times (times a b) c ≡ times a (times b c) }
    ensures distributes { (a b c : ℕ) → times a (plus b c) ≡ plus (times a b) (times a c) }
    ensures zero { (a : ℕ) → times a 0 ≡ 0 }
    ensures one { (a : ℕ) → IsElement a → times a 1 ≡ a }
    ensures closed { (a b : ℕ) → IsElement (times a b) }
    ensures inverse { (a : ℕ) → IsElement a → a ≢ 0 → times a (inverse a) ≡ 1 }
    ensures single_inverse { (a b : ℕ) → IsElement a → IsElement b → times a b ≡ 1 → b ≡ inverse a }
    ensures no_zero_divisors { (a b : ℕ) → IsElement a → IsElement b → times a b ≡ 0
        → (a ≡ 0) ⊎ (b ≡ 0) }
{}

/// The laws of powers.
pub fn power_laws()
    ensures to_zero { (a : ℕ) → power a 0 ≡ 1 }
    ensures to_next { (a n : ℕ) → power a (suc n) ≡ times a (power a n) }
    ensures to_sum { (a m n : ℕ) → power a (m + n) ≡ times (power a m) (power a n) }
    ensures to_product { (a m n : ℕ) → power a (m * n) ≡ power (power a m) n }
    ensures of_product { (a b n : ℕ) → power (times a b) n ≡ times (power a n) (power b n) }
    ensures closed { (a n : ℕ) → IsElement (power a n) }
{}

/// The laws of alpha, which generates the elements but 0.
pub fn alpha_laws()
    ensures order { power alpha 255 ≡ 1 }
    ensures distinct { (i j : ℕ) → i < j → j < 255 → power alpha i ≢ power alpha j }
    ensures generates { (a : ℕ) → IsElement a → a ≢ 0 → (i : ℕ) × (i < 255) × (power alpha i ≡ a) }
{}
