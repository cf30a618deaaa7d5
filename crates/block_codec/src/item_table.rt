ghost use Rattle.std.specs.Prelude.{◌+◌, ◌*◌, ◌^◌, ◌≤◌, length, IfOk};
ghost use Rattle.code_spec.specs.Code.{IsState};
ghost use Rattle.code_spec.specs.PlainText.{word_count, file_words};
ghost use Rattle.block_codec.specs.inside.Digits.{PutsDigits};
ghost use Rattle.block_codec.specs.inside.ItemTables.{IsItemTable};

use crate::bytes::{byte_table, has_short_bytes, put_bytes};
use crate::table::Table;
use crate::words::{put_words, word_table};
use code_model::Code;
use std::alloc::Global;
use symbol_base::{CodeName, NoMemory};

/// The table that a code is encoded by.
#[derive(Drop)]
pub(crate) enum ItemTable {
    /// Of bytes, where words fill a byte and it has at most 16 digits.
    Bytes(Table<16>),
    /// Of data words.
    Words(Table<32>),
}

impl ItemTable {
    /// The table of a code.
    pub(crate) fn new(alloc: Global, code: &Code) -> Result<ItemTable, NoMemory>
        ensures { IfOk result (IsItemTable code.now) }
    {
        if has_short_bytes(code) {
            return Ok(ItemTable::Bytes(byte_table(alloc, code)?));
        }
        Ok(ItemTable::Words(word_table(alloc, code)?))
    }

    /// Puts the digits of the words of bytes at the front of the room, and answers the next state.
    pub(crate) fn put(
        &self,
        code: &Code,
        state: CodeName,
        bytes: &[u8],
        room: &mut [u8],
    ) -> CodeName
        requires table { IsItemTable code.now self.now }
        requires state { IsState code.now state }
        requires small { length bytes.now ≤ 2 ^ 26 }
        requires room { code.now.q * word_count code.now.p (8 * length bytes.now) + 32
            ≤ length room.old }
        ensures { PutsDigits code.now state (file_words code.now.p bytes.now) 0 room.old room.new
            result }
    {
        match self {
            ItemTable::Bytes(table) => put_bytes(code, table, state, bytes, room),
            ItemTable::Words(table) => put_words(code, table, state, bytes, room),
        }
    }
}
