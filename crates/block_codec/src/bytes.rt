//! Digits byte by byte, by a table of bytes.

ghost use Rattle.std.specs.Prelude.{◌+◌, ◌*◌, ◌≤◌, length, IfOk};
ghost use Rattle.std.specs.Bool.{OnTrue};
ghost use Rattle.code_spec.specs.Code.{IsState};
ghost use Rattle.code_spec.specs.PlainText.{word_count, file_words};
ghost use Rattle.block_codec.specs.inside.Digits.{PutsDigits};
ghost use Rattle.block_codec.specs.inside.Tables.{IsEntry, HasShortBytes, IsByteTable, byte_words};

use crate::counts::digit_count;
use crate::steps::put_file;
use crate::table::{Table, put_item};
use code_model::Code;
use std::alloc::Global;
use symbol_base::{CodeName, Name, NoMemory};

/// Whether words fill a byte, and its digits fit into a lane.
pub(crate) fn has_short_bytes(code: &Code) -> bool
    ensures { OnTrue result (HasShortBytes code.now) }
{
    8 % code.p == 0 && digit_count(code, 1) <= 16
}

/// The digits that the code writes for a byte from a state on, and the next state.
fn byte_entry(code: &Code, state: CodeName, byte: u8) -> ([u8; 16], CodeName)
    requires state { IsState code.now state }
    requires bytes { HasShortBytes code.now }
    ensures { IsEntry code.now (byte_words code.now.p byte) 256 state result.0 (256 * result.1) }
{
    let mut lane = [b'0'; 16];
    let next = put_file(code, state, &[byte], &mut lane);
    (lane, next)
}

/// The table of a code's bytes.
pub(crate) fn byte_table(alloc: Global, code: &Code) -> Result<Table<16>, NoMemory>
    requires { HasShortBytes code.now }
    ensures { IfOk result (IsByteTable code.now) }
{
    let entries = 256 * code.state_count();
    let mut table = Table::with_capacity(alloc, entries as usize)?;
    for place in 0..entries {
        let (lane, next) = byte_entry(code, CodeName::at(place / 256), (place % 256) as u8);
        table.push(lane, 256 * next.index())?;
    }
    Ok(table)
}

/// Puts the digits of bytes at the front of the room, and answers the next state.
pub(crate) fn put_bytes(
    code: &Code,
    table: &Table<16>,
    state: CodeName,
    bytes: &[u8],
    room: &mut [u8],
) -> CodeName
    requires table { IsByteTable code.now table.now }
    requires state { IsState code.now state }
    requires room { code.now.q * word_count code.now.p (8 * length bytes.now) + 32
        ≤ length room.old }
    ensures { PutsDigits code.now state (file_words code.now.p bytes.now) 0 room.old room.new
        result }
{
    let lanes = table.lanes.as_slice();
    let next = table.next.as_slice();
    let step = digit_count(code, 1);
    let mut at = 0;
    let mut place = 256 * state.index();
    for byte in bytes {
        place = put_item(lanes, next, place as usize + usize::from(*byte), room, at);
        at += step;
    }
    CodeName::at(place / 256)
}
