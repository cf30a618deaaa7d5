ghost use Rattle.std.specs.Prelude.{◌≡◌, map, drop, string_bytes};
ghost use Rattle.command_steps.specs.declared.status.Status.{Status};
ghost use Rattle.command_steps.specs.Promise.{seen};
ghost use Rattle.command_steps.specs.Printing.{said, SaysLine};
ghost use Rattle.command_steps.specs.StatusLine.{exit_status};
ghost use Rattle.workbench.specs.Runs.{Runs};

use crate::top::run;
use command_steps::{Status, print_line};
use shelf_io::{Shelf, TextSink};
use std::alloc::Global;

/// Runs the words behind the program's name, which is the first argument, and gives the exit
/// status.
pub fn run_arguments<F: Shelf, K: TextSink>(
    alloc: Global,
    arguments: &[String],
    shelf: &mut F,
    out: &mut K,
) -> u8
    ensures { (status : Status) × (result ≡ exit_status status)
        × Runs (map string_bytes (drop 1 arguments.now))
        (seen F.files F.faults shelf.old) (seen F.files F.faults shelf.new)
        (said K.written K.faults out.old) (said K.written K.faults out.new) status }
{
    let words = match arguments {
        [_, words @ ..] => words,
        [] => arguments,
    };
    let status = run(alloc, words, shelf, out);
    status.number()
}

/// Ends with a status before any words are known: prints its line, and gives the exit status.
pub fn end_with<K: TextSink>(alloc: Global, status: &Status, out: &mut K) -> u8
    ensures number { result ≡ exit_status status.now }
    ensures line { SaysLine status.now (said K.written K.faults out.old)
        (said K.written K.faults out.new) }
{
    print_line(alloc, out, status);
    status.number()
}
