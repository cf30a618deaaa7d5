ghost use Rattle.std.specs.Prelude.{◌^◌, ◌≤◌, length, IfOk};
ghost use Rattle.shelf_io.specs.Faults.{Counts};
ghost use Rattle.shelf_io.specs.WholeFile.{IsPutAll, IsWritten};
ghost use Rattle.code_spec.specs.PlainText.{plain_text};
ghost use Rattle.block_codec.specs.TextWriter.{IsWriterFor};

use crate::item_table::ItemTable;
use crate::pieces::{put_end, put_lead_in, put_pieces, room_of};
use code_model::Code;
use shelf_io::{Failed, Shelf};
use std::alloc::Global;
use symbol_base::NoMemory;

/// A writer of plain channel text under one code. It takes all its memory when it is made: the
/// code's table, and room for the digits of one piece.
#[derive(Drop)]
pub struct TextWriter {
    table: ItemTable,
    room: Vec<u8>,
}

impl TextWriter {
    /// A writer for this code.
    pub fn new(alloc: Global, code: &Code) -> Result<TextWriter, NoMemory>
        ensures { IfOk result (IsWriterFor code.now) }
    {
        let table = ItemTable::new(alloc, code)?;
        let room = vec![in alloc; 0; room_of(code)]?;
        Ok(TextWriter { table, room })
    }

    /// Makes the named file the plain text of the data under the code: a digit for each symbol of
    /// lead-in, data and lead-out, and a line feed. After a fault the file is untouched or a front
    /// of that text.
    pub fn write<F: Shelf>(
        &mut self,
        code: &Code,
        shelf: &mut F,
        name: &str,
        file: &[u8],
    ) -> Result<(), Failed>
        requires code { IsWriterFor code.now self.old }
        requires small { length file.now ≤ 2 ^ 26 }
        ensures written { IsWritten name.now (plain_text code.now file.now) (F.files shelf.old)
            (F.files shelf.new) result }
        ensures count { Counts (F.faults shelf.old) (F.faults shelf.new) result }
        ensures code { IsWriterFor code.now self.new }
    {
        shelf.make(name)?;
        self.put_text(code, shelf, name, file)
    }

    /// Appends the plain text of the data to a file.
    fn put_text<F: Shelf>(
        &mut self,
        code: &Code,
        shelf: &mut F,
        name: &str,
        file: &[u8],
    ) -> Result<(), Failed>
        requires code { IsWriterFor code.now self.old }
        requires small { length file.now ≤ 2 ^ 26 }
        ensures appends { IsPutAll name.now (plain_text code.now file.now) (F.files shelf.old)
            (F.files shelf.new) result }
        ensures count { Counts (F.faults shelf.old) (F.faults shelf.new) result }
        ensures code { IsWriterFor code.now self.new }
    {
        let room = self.room.as_mut_slice();
        let state = put_lead_in(code, shelf, name, room)?;
        let state = put_pieces(code, &self.table, shelf, name, state, file, room)?;
        put_end(code, shelf, name, state, room)
    }
}
