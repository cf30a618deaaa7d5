//! Blocks that are written and read one by one.

ghost use Rattle.code_spec.specs.Code.{IsState};
ghost use Rattle.block_codec.specs.Decoding.{IsDecoderFor};

use block_codec::{BlockDecoder, Encoder};
use code_check::check;
use code_model::CheckedCode;
use code_tables::read_code;
use std::alloc::Global;
use std::test::Fail;
use symbol_base::NoMemory;

/// No two 0s in a row, three symbols for two bits, three states.
pub const NO_TWO_ZEROS: &[u8] =
    b"modcode 1\nalphabet 2\nd 0\nk 1\nforbid 0\ngraph 0 0\nrate 2 3\nwindow 1 1\nstates 3\n0 0 010 1\n0 1 110 1\n0 2 011 0\n0 3 011 2\n1 0 111 0\n1 1 110 1\n1 2 101 0\n1 3 101 2\n2 0 101 0\n2 1 101 2\n2 2 111 0\n2 3 111 2\n";

/// The checked code of a text.
pub fn checked(alloc: Global, text: &[u8]) -> Result<CheckedCode, Fail> {
    if let Ok(code) = read_code(alloc, text) {
        if let Ok(code) = check(alloc, code) {
            return Ok(code);
        }
    }
    Err(Fail::from(NoMemory))
}

/// Encodes a data word of the code and decodes its block.
fn pass_on(
    code: &CheckedCode,
    encoder: &mut Encoder,
    decoder: &mut BlockDecoder,
    word: u32,
) -> (u64, Option<u32>)
    requires state { IsState code.now encoder.old }
    requires decoder { IsDecoderFor code.now decoder.old }
    ensures state { IsState code.now encoder.new }
    ensures decoder { IsDecoderFor code.now decoder.new }
{
    if word >= code.code().word_count() {
        return (0, None);
    }
    let block = encoder.step(code, word);
    (block.value, decoder.step(code, block))
}

#[test]
fn a_word_is_decoded_once_its_window_is_whole(rt: HostRuntime) -> Result<(), Fail> {
    let code = checked(rt.alloc(), NO_TWO_ZEROS)?;
    let mut encoder = Encoder::new(&code);
    let mut decoder = BlockDecoder::new(rt.alloc(), &code)?;
    assert!(rt; pass_on(&code, &mut encoder, &mut decoder, 0) == (2, None));
    assert!(rt; pass_on(&code, &mut encoder, &mut decoder, 1) == (6, None));
    assert!(rt; pass_on(&code, &mut encoder, &mut decoder, 3) == (5, Some(1)));
    assert!(rt; pass_on(&code, &mut encoder, &mut decoder, 2) == (7, Some(3)));
    decoder.clear();
    assert!(rt; pass_on(&code, &mut encoder, &mut decoder, 0).1.is_none());
    let table = code.into_code();
    assert!(rt; table.p == 2 && table.q == 3 && table.rows.len() == 3);
    Ok(())
}
