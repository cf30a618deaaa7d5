ghost use Rattle.std.specs.Prelude.{◌≡◌, ◌≤◌, IfSome};
ghost use Rattle.command_steps.specs.Words.{number_within};

use text_reading::number_in;

/// The number that a word spells, where it is from `least` to `most`.
pub fn number_within(least: u32, most: u32, word: &str) -> Option<u32>
    ensures number { result ≡ number_within least most word.now }
    ensures within { IfSome result (λ number. (least ≤ number) × (number ≤ most)) }
{
    let number = number_in(word.as_bytes())?;
    if u64::from(least) <= number && number <= u64::from(most) {
        Some(number as u32)
    } else {
        None
    }
}
