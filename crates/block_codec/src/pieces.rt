//! A text piece by piece to a shelf.

ghost use Rattle.std.specs.Prelude.{◌≡◌, ◌+◌, ◌*◌, ◌^◌, ◌≤◌, [], ◌∷◌, ◌++◌, length, replicate, IfOk};
ghost use Rattle.shelf_io.specs.Faults.{Counts};
ghost use Rattle.shelf_io.specs.WholeFile.{IsPutAll};
ghost use Rattle.code_spec.specs.Code.{IsState};
ghost use Rattle.code_spec.specs.Output.{state_after};
ghost use Rattle.code_spec.specs.PlainText.{word_count, file_words};
ghost use Rattle.block_codec.specs.inside.Digits.{digits_from};
ghost use Rattle.block_codec.specs.inside.ItemTables.{IsItemTable};
ghost use Rattle.block_codec.specs.inside.Rooms.{HasRoom};

use crate::counts::digit_count;
use crate::item_table::ItemTable;
use crate::steps::put_zeros;
use code_model::Code;
use shelf_io::{Failed, Shelf, put_all};
use symbol_base::{CodeName, Name};

/// How many bytes are encoded at a time: words of 1 to 8 bits fill them.
const PIECE: usize = 6720;

/// How much room the digits of a piece need, and those of lead-in or lead-out.
pub(crate) fn room_of(code: &Code) -> usize
    ensures { HasRoom code.now result }
{
    digit_count(code, PIECE) + 32
}

/// Appends the digits of the lead-in to a text, and answers the state that they lead to.
pub(crate) fn put_lead_in<F: Shelf>(
    code: &Code,
    shelf: &mut F,
    name: &str,
    room: &mut [u8],
) -> Result<CodeName, Failed>
    requires { HasRoom code.now (length room.old) }
    ensures appends { IsPutAll name.now (digits_from code.now 0 (replicate code.now.past 0))
        (F.files shelf.old) (F.files shelf.new) result }
    ensures next { IfOk result (λ next.
        next ≡ state_after code.now.rows 0 (replicate code.now.past 0)) }
    ensures inside { IfOk result (IsState code.now) }
    ensures count { Counts (F.faults shelf.old) (F.faults shelf.new) result }
{
    let state = put_zeros(code, CodeName::at(0), code.past, room);
    put_all(shelf, name, &room[..code.q as usize * code.past as usize])?;
    Ok(state)
}

/// Appends the digits of the lead-out and the line feed to a text.
pub(crate) fn put_end<F: Shelf>(
    code: &Code,
    shelf: &mut F,
    name: &str,
    state: CodeName,
    room: &mut [u8],
) -> Result<(), Failed>
    requires state { IsState code.now state }
    requires room { HasRoom code.now (length room.old) }
    ensures appends { IsPutAll name.now
        (digits_from code.now state (replicate code.now.ahead 0) ++ 10 ∷ []) (F.files shelf.old)
        (F.files shelf.new) result }
    ensures count { Counts (F.faults shelf.old) (F.faults shelf.new) result }
{
    let _next = put_zeros(code, state, code.ahead, room);
    let end = code.q as usize * code.ahead as usize;
    room[end] = b'\n';
    put_all(shelf, name, &room[..end + 1])
}

/// Appends the digits of a piece's words to a text, and answers the state that they lead to.
fn put_piece<F: Shelf>(
    code: &Code,
    table: &ItemTable,
    shelf: &mut F,
    name: &str,
    state: CodeName,
    piece: &[u8],
    room: &mut [u8],
) -> Result<CodeName, Failed>
    requires table { IsItemTable code.now table.now }
    requires state { IsState code.now state }
    requires small { length piece.now ≤ 2 ^ 26 }
    requires room { code.now.q * word_count code.now.p (8 * length piece.now) + 32
        ≤ length room.old }
    ensures appends { IsPutAll name.now
        (digits_from code.now state (file_words code.now.p piece.now)) (F.files shelf.old)
        (F.files shelf.new) result }
    ensures next { IfOk result (λ next.
        next ≡ state_after code.now.rows state (file_words code.now.p piece.now)) }
    ensures inside { IfOk result (IsState code.now) }
    ensures count { Counts (F.faults shelf.old) (F.faults shelf.new) result }
{
    let next = table.put(code, state, piece, room);
    let end = digit_count(code, piece.len());
    put_all(shelf, name, &room[..end])?;
    Ok(next)
}

/// Appends the digits of a file's words to a text, piece by piece, and answers the state that they
/// lead to.
pub(crate) fn put_pieces<F: Shelf>(
    code: &Code,
    table: &ItemTable,
    shelf: &mut F,
    name: &str,
    state: CodeName,
    file: &[u8],
    room: &mut [u8],
) -> Result<CodeName, Failed>
    requires table { IsItemTable code.now table.now }
    requires state { IsState code.now state }
    requires small { length file.now ≤ 2 ^ 26 }
    requires room { HasRoom code.now (length room.old) }
    ensures appends { IsPutAll name.now
        (digits_from code.now state (file_words code.now.p file.now)) (F.files shelf.old)
        (F.files shelf.new) result }
    ensures next { IfOk result (λ next.
        next ≡ state_after code.now.rows state (file_words code.now.p file.now)) }
    ensures inside { IfOk result (IsState code.now) }
    ensures count { Counts (F.faults shelf.old) (F.faults shelf.new) result }
{
    let mut state = state;
    for part in 0..(file.len() + (PIECE - 1)) / PIECE {
        let from = PIECE * part;
        let piece = &file[from..file.len().min(from + PIECE)];
        state = put_piece(code, table, shelf, name, state, piece, room)?;
    }
    Ok(state)
}
