//! The digits of a text, eight at a time.

ghost use Rattle.std.specs.Prelude.{◌≡◌, ◌+◌, ◌*◌, ◌<◌, ◌≤◌, length, take, drop, IfOk, IfSome};
ghost use Rattle.std.specs.Int.{w64, from_le_bytes};
ghost use Rattle.symbol_base.specs.Block.{symbols_of};
ghost use Rattle.block_codec.specs.inside.Digits.{digits_of};
ghost use Rattle.block_codec.specs.inside.Packing.{IsPacked, HasRows};

use crate::part::joined_wide;
use crate::steps::put_block;
use std::alloc::Global;
use symbol_base::{Block, NoMemory};

/// The eight digits of a byte.
fn digits_of_byte(byte: u8) -> [u8; 8]
    ensures { result ≡ digits_of (symbols_of 2 8 byte) }
{
    let mut digits = [b'0'; 8];
    let block = Block {
        value: u64::from(byte),
    };
    put_block(block, 8, &mut digits, 0);
    digits
}

/// Eight bytes as a number, the first least significant.
#[inline]
fn number_of_eight(bytes: &[u8]) -> u64
    requires { length bytes.now ≡ 8 }
    ensures { result ≡ from_le_bytes w64 bytes.now }
{
    u64::from_le_bytes([
        bytes[0], bytes[1], bytes[2], bytes[3], bytes[4], bytes[5], bytes[6], bytes[7],
    ])
}

/// The eight digits of each byte, as numbers.
pub(crate) fn digit_table(alloc: Global) -> Result<Vec<u64>, NoMemory>
    ensures { IfOk result (λ table. HasRows 256 table.items) }
{
    let mut table = Vec::with_capacity(alloc, 256)?;
    for byte in 0..256u32 {
        table.push(u64::from_le_bytes(digits_of_byte(byte as u8)))?;
    }
    Ok(table)
}

/// The byte whose eight digits this number has, where it has digits, and any byte where it doesn't.
///
/// The product brings the last bit of each into the top byte. Nothing rests on it, since the digits
/// are then compared with those of the byte.
#[inline]
fn likely_byte(number: u64) -> u8 {
    ((number & 0x0101_0101_0101_0101).wrapping_mul(0x8040_2010_0804_0201) >> 56) as u8
}

/// The byte whose eight digits these are, where all are digits.
#[inline]
fn byte_of(table: &[u64], digits: &[u8]) -> Option<u8>
    requires table { HasRows 256 table.now }
    requires eight { length digits.now ≡ 8 }
    ensures digits { IfSome result (λ byte. digits.now ≡ digits_of (symbols_of 2 8 byte)) }
    ensures small { IfSome result (λ byte. byte < 256) }
{
    let number = number_of_eight(digits);
    let byte = likely_byte(number);
    if table[usize::from(byte)] != number {
        return None;
    }
    Some(byte)
}

/// The number whose binary digits these bytes are, so many times eight, where all are digits.
#[inline(always)]
pub(crate) fn packed(table: &[u64], digits: &[u8], eights: u32) -> Option<u64>
    requires table { HasRows 256 table.now }
    requires count { length digits.now ≡ 8 * eights }
    requires short { eights ≤ 7 }
    ensures { IfSome result (IsPacked (8 * eights) digits.now) }
{
    let mut value = 0;
    for i in 0..eights {
        let from = 8 * i as usize;
        let eight = &digits[from..from + 8];
        let byte = byte_of(table, eight)?;
        value = joined_wide(value, 8 * i, u64::from(byte), 8);
    }
    Some(value)
}

/// The number whose binary digits stand at a place of a piece, so many times eight, where so many
/// stand there and all of them are digits.
#[inline(always)]
pub(crate) fn packed_at(table: &[u64], piece: &[u8], at: usize, eights: u32) -> Option<u64>
    requires table { HasRows 256 table.now }
    requires inside { at ≤ length piece.now }
    requires short { eights ≤ 7 }
    ensures inside { IfSome result (λ _. at + 8 * eights ≤ length piece.now) }
    ensures digits { IfSome result (IsPacked (8 * eights) (take (8 * eights) (drop at piece.now))) }
{
    let size = 8 * eights as usize;
    if piece.len() - at < size {
        return None;
    }
    packed(table, &piece[at..at + size], eights)
}
