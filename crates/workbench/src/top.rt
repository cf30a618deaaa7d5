ghost use Rattle.std.specs.Prelude.{◌≡◌, ◌↔◌, map, string_bytes, IfSome, None};
ghost use Rattle.command_steps.specs.declared.status.Status.TheVariants as statuses;
ghost use Rattle.command_steps.specs.Promise.{seen};
ghost use Rattle.command_steps.specs.Inputs.{ReadsFirst};
ghost use Rattle.command_steps.specs.Printing.{said};
ghost use Rattle.command_steps.specs.Ends.{IsExact, Completes, CountsShelf, CountsSink};
ghost use Rattle.workbench.specs.Forms.{form_of, inputs_of, output_of, row_of};
ghost use Rattle.workbench.specs.Runs.{Runs};
ghost use Rattle.workbench.specs.Channel.{KeepsConstraint};

use crate::command::{Command, command_of};
use command_steps::{Status, perform, print_line};
use shelf_io::{Shelf, TextSink};
use std::alloc::Global;

/// Does what the program's words ask for over a shelf of files, and answers how it ended.
///
/// `encode CODE DATA TEXT` reads a code file and a data file, writes the plain channel text of the
/// data under the code, and prints how many blocks it has; `decode CODE TEXT DATA` writes the data
/// file of a plain channel text, and prints how many bytes it has; `check CODE` and `explain
/// CONSTRAINT P Q BOUND` print alone. After a status other than `Done` and `SinkFault` the line of
/// the status is printed.
///
/// The file that is written is the last name's alone. After a fault of the shelf it may be a front
/// of the text, or empty; after every other status but `Done` and `SinkFault` no file is changed.
#[tactic(auto, using(code_commands::proofs::RowLaws::rows_are_single, design_commands::proofs::RowLaws::rows_are_single, crate::proofs::ChannelLaws::keeps_constraint))]
pub fn run<F: Shelf, K: TextSink>(
    alloc: Global,
    words: &[String],
    shelf: &mut F,
    out: &mut K,
) -> Status
    // The words are none of the forms.
    ensures usage { (result ≡ statuses.Usage) ↔ (form_of (map string_bytes words.now) ≡ None) }

    // The status, the files and what is printed follow the row of the form; words of no form change
    // no file.
    ensures runs { Runs (map string_bytes words.now) (seen F.files F.faults shelf.old)
        (seen F.files F.faults shelf.new)
        (said K.written K.faults out.old) (said K.written K.faults out.new) result }

    // Each refusal comes exactly where the row refuses so, a fault of the shelf and want of memory
    // aside.
    ensures exact { IfSome (form_of (map string_bytes words.now)) (λ form.
        IsExact (row_of form) (F.files shelf.old) result) }

    // Where the row refuses nothing and there is no fault, the answer is given, or memory was
    // wanted.
    ensures complete { IfSome (form_of (map string_bytes words.now)) (λ form.
        Completes (row_of form) (output_of form)
        (seen F.files F.faults shelf.old) (seen F.files F.faults shelf.new)
        (said K.written K.faults out.old) (said K.written K.faults out.new) result) }

    // After `encode` was done, the text is made of a word of the constraint that the code file
    // keeps.
    ensures channel { IfSome (form_of (map string_bytes words.now)) (λ form.
        KeepsConstraint form (F.files shelf.old) (F.files shelf.new) result) }

    // The input files are read in order, each to its end, and nothing else is; where one of their
    // reads can't go on, that decides the status.
    ensures reads { IfSome (form_of (map string_bytes words.now)) (λ form.
        ReadsFirst F.read_gives (inputs_of form) shelf.old result) }

    // After a fault of the shelf its count rose, and after every other status it is what it was;
    // after a fault of the sink its count rose, and after `Done` it is what it was.
    ensures count { CountsShelf (seen F.files F.faults shelf.old) (seen F.files F.faults shelf.new)
        result }
    ensures sink_count { CountsSink (said K.written K.faults out.old)
        (said K.written K.faults out.new) result }
{
    match command_of(words) {
        None => {
            print_line(alloc, out, &Status::Usage);
            Status::Usage
        }
        Some(Command::Check(task)) => perform(alloc, &task, shelf, out),
        Some(Command::Explain(task)) => perform(alloc, &task, shelf, out),
        Some(Command::Encode(task)) => perform(alloc, &task, shelf, out),
        Some(Command::Decode(task)) => perform(alloc, &task, shelf, out),
    }
}
