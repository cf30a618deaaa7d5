ghost use Rattle.command_steps.specs.Printing.{said, IsPrinted, SaysLine};

use crate::lines::{made_line, plain_line};
use crate::status::Status;
use shelf_io::{Failed, TextSink};
use std::alloc::Global;

/// Prints all bytes. After a fault of the sink a front of them was printed.
pub fn print_all<K: TextSink>(out: &mut K, bytes: &[u8]) -> Result<(), Failed>
    ensures { IsPrinted bytes.now (said K.written K.faults out.old)
        (said K.written K.faults out.new) result }
{
    let mut at = 0;
    while at < bytes.len() {
        at += out.put(&bytes[at..])?;
    }
    Ok(())
}

/// Prints the line of a status, as far as the sink takes it; nothing, where memory is wanted for
/// what the line carries.
#[tactic(auto, using(crate::proofs::LineLaws::lines))]
pub fn print_line<K: TextSink>(alloc: Global, out: &mut K, status: &Status)
    ensures { SaysLine status.now (said K.written K.faults out.old)
        (said K.written K.faults out.new) }
{
    if let Some(line) = plain_line(status) {
        let _printed = print_all(out, line.as_bytes());
    } else if let Ok(line) = made_line(alloc, status) {
        let _printed = print_all(out, line.as_slice());
    }
}
