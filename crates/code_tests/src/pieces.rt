//! A text that is decoded in pieces.

ghost use Rattle.std.specs.Prelude.{◌≡◌, ◌≤◌, ◌+◌, ◌^◌, length};
ghost use Rattle.block_codec.specs.TextDecoding.{IsTextDecoderFor, bytes_come};

use crate::blocks::{NO_TWO_ZEROS, checked};
use block_codec::TextDecoder;
use code_model::CheckedCode;
use std::alloc::Global;
use std::process::Abort;
use std::test::Fail;

/// Feeds a decoder a piece, no byte of which is bad.
fn take(
    rt: &impl Abort,
    code: &CheckedCode,
    decoder: &mut TextDecoder,
    piece: &[u8],
    out: &mut Vec<u8>,
)
    requires code { IsTextDecoderFor code.now decoder.old }
    requires few { bytes_come decoder.old + length piece.now ≤ 2 ^ 40 }
    ensures code { IsTextDecoderFor code.now decoder.new }
    ensures come { bytes_come decoder.new ≡ bytes_come decoder.old + length piece.now }
{
    let fed = decoder.feed(code, piece, out);
    assert!(rt; fed.is_ok());
}

/// Decodes the text of the byte 1B in pieces of one length, the last of which may be shorter.
fn assert_decoded(rt: &impl Abort, alloc: Global, length: usize) -> Result<(), Fail> {
    let code = checked(alloc, NO_TWO_ZEROS)?;
    let mut decoder = TextDecoder::new(alloc, &code)?;
    let mut out = Vec::new(alloc);
    let mut rest = b"010111110101011101\n".as_slice();
    while !rest.is_empty() && length > 0 {
        let (piece, behind) = rest.split_at(rest.len().min(length));
        take(rt, &code, &mut decoder, piece, &mut out);
        rest = behind;
    }
    assert!(rt; rest.is_empty());
    assert!(rt; out.as_slice() == b"\x1b".as_slice());
    assert!(rt; decoder.end() == Ok(1));
    Ok(())
}

#[test]
fn a_text_gives_its_file_however_it_is_cut(rt: HostRuntime) -> Result<(), Fail> {
    assert_decoded(&rt, rt.alloc(), 1)?;
    assert_decoded(&rt, rt.alloc(), 2)?;
    assert_decoded(&rt, rt.alloc(), 3)?;
    assert_decoded(&rt, rt.alloc(), 5)?;
    assert_decoded(&rt, rt.alloc(), 19)
}
