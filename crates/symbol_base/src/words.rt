ghost use Rattle.std.specs.Prelude.{◌≡◌, ◌↔◌, ◌⊎◌, ℕ, List, IsTrue};
ghost use Rattle.symbol_base.specs.Word.{IsBefore, comes_before};

/// The first word comes before the second: it is shorter, or as long and smaller at the first
/// symbol in which they differ. It takes as many steps as the words have symbols.
pub fn comes_before(first: &[u8], second: &[u8]) -> bool
    ensures test { result ≡ comes_before first.now second.now }
    ensures order { IsTrue result ↔ IsBefore first.now second.now }
{
    is_shorter_or_smaller(first, second)
}

fn is_shorter_or_smaller(first: &[u8], second: &[u8]) -> bool
    ensures { result ≡ comes_before first.now second.now }
{
    first.len() < second.len() || (first.len() == second.len() && first.cmp(second).is_lt())
}

/// The order of words is strict, and of two words that differ one comes before the other.
pub fn words_are_ordered()
    ensures strict { (u : List ℕ) → IsBefore u u → ⊥ }
    ensures onward { (u v w : List ℕ) → IsBefore u v → IsBefore v w → IsBefore u w }
    ensures total { (u v : List ℕ) → IsBefore u v ⊎ ((u ≡ v) ⊎ IsBefore v u) }
{}
