ghost use Rattle.std.specs.Prelude.{◌≡◌, ℕ, ◌+◌, ◌*◌, ◌^◌, ◌<◌, ◌≤◌, List, length};
ghost use Rattle.code_spec.specs.PlainText.{word_count, data_words, plain_length};
ghost use Rattle.block_codec.specs.Counts.{blocks_of};

use code_model::Code;

/// How many data words of p bits so many bytes have. The last may hold fewer bits.
pub(crate) fn count_words(p: u32, bytes: u64) -> u64
    requires one { 1 ≤ p }
    requires eight { p ≤ 8 }
    requires small { bytes ≤ 2 ^ 26 }
    ensures count { result ≡ word_count p (8 * bytes) }
    ensures few { result ≤ 2 ^ 29 }
{
    (8 * bytes + u64::from(p - 1)) / u64::from(p)
}

/// How many digits the code writes for so many bytes of a file.
pub(crate) fn digit_count(code: &Code, bytes: usize) -> usize
    requires { bytes ≤ 2 ^ 26 }
    ensures count { result ≡ code.now.q * word_count code.now.p (8 * bytes) }
    ensures few { result < 2 ^ 34 }
{
    code.q as usize * count_words(code.p, bytes as u64) as usize
}

/// How many blocks the code writes for a file of so many bytes, lead-in and lead-out included.
pub fn block_count(code: &Code, bytes: u64) -> u64
    requires { bytes ≤ 2 ^ 26 }
    ensures count { result ≡ blocks_of code.now bytes }
    ensures words { (file : List ℕ) → length file ≡ bytes
        → result ≡ length (data_words code.now file) }
    ensures few { result < 2 ^ 30 }
{
    u64::from(code.past) + count_words(code.p, bytes) + u64::from(code.ahead)
}

/// How many symbols the code writes for a file of so many bytes, which are the digits of its text.
pub fn symbol_count(code: &Code, bytes: u64) -> u64
    requires { bytes ≤ 2 ^ 26 }
    ensures count { result ≡ code.now.q * blocks_of code.now bytes }
    ensures text { result + 1 ≡ plain_length code.now bytes }
    ensures fits { result < 2 ^ 35 }
{
    u64::from(code.q) * block_count(code, bytes)
}
