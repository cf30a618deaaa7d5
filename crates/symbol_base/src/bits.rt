ghost use Rattle.std.specs.Prelude.{◌≡◌, ◌*◌, ◌<◌, ◌≤◌, ◌^◌, ◌↔◌, length, slice_index, slice_set, IsTrue, if◌then◌else◌};
ghost use Rattle.symbol_base.specs.Bits.{bits, word_at};

/// The bit at place `at`, counted from the most significant bit of the first byte.
pub fn bit_at(bytes: &[u8], at: u64) -> bool
    requires { at < 8 * length bytes.now }
    ensures { IsTrue result ↔ (slice_index (bits bytes.now) at ≡ 1) }
{
    let byte = bytes[(at / 8) as usize];
    (byte >> (7 - at % 8)) & 1 == 1
}

/// Makes the bit at place `at` a 1 where `value` is true, and else a 0.
pub fn set_bit(bytes: &mut [u8], at: u64, value: bool)
    requires { at < 8 * length bytes.old }
    ensures { bits bytes.new ≡ slice_set (bits bytes.old) at (if value then 1 else 0) }
{
    let byte = &mut bytes[(at / 8) as usize];
    let mask = 1u8 << (7 - at % 8);
    if value {
        *byte |= mask;
    } else {
        *byte &= !mask;
    }
}

/// The `p` bits from place `at` on as a number, with 0s past the end.
pub fn take_word(bytes: &[u8], at: u64, p: u32) -> u32
    requires one { 1 ≤ p }
    requires eight { p ≤ 8 }
    ensures value { result ≡ word_at (bits bytes.now) at p }
    ensures below { result < 2 ^ p }
{
    let index = at / 8;
    let high = byte_or_zero(bytes, index);
    let low = byte_or_zero(bytes, index + 1);
    let pair = u32::from(high) << 8 | u32::from(low);
    let skip = (at % 8) as u32;
    (pair >> (16 - skip - p)) & ((1 << p) - 1)
}

fn byte_or_zero(bytes: &[u8], index: u64) -> u8
    ensures { result ≡ slice_index bytes.now index }
{
    bytes.get(index as usize).copied().unwrap_or(0)
}
