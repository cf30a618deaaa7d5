ghost use Rattle.std.specs.Prelude.{◌≡◌, ◌≢◌, ℕ, List};
ghost use Rattle.command_steps.specs.declared.status.Status.TheVariants as statuses;
ghost use Rattle.command_steps.specs.Step.{Step, IsSingle};
ghost use Rattle.command_steps.specs.Inputs.{Input, ReadsInputs, ReadsFirst, ReadsBefore};
ghost use Rattle.command_steps.specs.Promise.{Follows, seen};
ghost use Rattle.command_steps.specs.Answer.{Answer, Shelved};
ghost use Rattle.command_steps.specs.Printing.{said};
ghost use Rattle.command_steps.specs.Ends.{Ends, IsExact, Completes, CountsShelf, CountsSink, text_left};

use crate::answer::Delivery;
use crate::printing::{print_all, print_line};
use crate::status::Status;
use shelf_io::{Shelf, TextSink};
use std::alloc::Global;

/// A command with its words: what it needs of its files, and how its answer is made of them.
pub trait Task {
    /// The answer, ready to be given.
    type Plan: Delivery;

    // the row of steps that its input files decide
    ghost row_of: { Self → Step Answer };

    // its input files, in the order in which they are read
    ghost inputs_of: { Self → List Input };

    // the name of the file that it writes; no name where it writes none
    ghost output_of: { Self → List ℕ };

    /// The name of the file that it writes.
    fn output_name(&self) -> &str
        ensures name { result.now ≡ output_of self.now };

    /// Reads the input files, and makes the answer of them.
    fn plan<F: Shelf>(&self, alloc: Global, shelf: &mut F) -> Result<Self::Plan, Status>
        ensures follows { Follows Self.Plan.answer (row_of self.now)
            (seen F.files F.faults shelf.old) (seen F.files F.faults shelf.new) result }
        ensures reads { ReadsInputs F.read_gives (inputs_of self.now) shelf.old shelf.new result };
}

/// Does a command: makes its answer, writes its output file, and prints what it prints or the line
/// of the status that it ends with.
///
/// The file that is written is the output alone. After a fault of the shelf it may be a front of
/// the answer's bytes, or empty.
#[tactic(auto, using(crate::proofs::EndLaws::ends))]
pub fn perform<T: Task, F: Shelf, K: TextSink>(
    alloc: Global,
    task: &T,
    shelf: &mut F,
    out: &mut K,
) -> Status
    requires single { IsSingle (T.row_of task.now) }
    ensures ends { Ends (T.row_of task.now) (T.output_of task.now)
        (seen F.files F.faults shelf.old) (seen F.files F.faults shelf.new)
        (said K.written K.faults out.old) (said K.written K.faults out.new) result }
    ensures usage { result ≢ statuses.Usage }
    ensures exact { IsExact (T.row_of task.now) (F.files shelf.old) result }
    ensures complete { Completes (T.row_of task.now) (T.output_of task.now)
        (seen F.files F.faults shelf.old) (seen F.files F.faults shelf.new)
        (said K.written K.faults out.old) (said K.written K.faults out.new) result }
    ensures reads { ReadsFirst F.read_gives (T.inputs_of task.now) shelf.old result }
    ensures count { CountsShelf (seen F.files F.faults shelf.old) (seen F.files F.faults shelf.new)
        result }
    ensures sink_count { CountsSink (said K.written K.faults out.old)
        (said K.written K.faults out.new) result }
{
    end(alloc, task, shelf, out)
}

/// Does a command, and prints.
#[tactic(auto, using(crate::specs::Ends::printed, crate::specs::Ends::unprinted, crate::specs::Ends::told, crate::proofs::EndLaws::read_first))]
fn end<T: Task, F: Shelf, K: TextSink>(
    alloc: Global,
    task: &T,
    shelf: &mut F,
    out: &mut K,
) -> Status
    ensures ends { Ends (T.row_of task.now) (T.output_of task.now)
        (seen F.files F.faults shelf.old) (seen F.files F.faults shelf.new)
        (said K.written K.faults out.old) (said K.written K.faults out.new) result }
    ensures reads { ReadsFirst F.read_gives (T.inputs_of task.now) shelf.old result }
{
    match shelve(alloc, task, shelf) {
        Ok(text) => match print_all(out, text.as_str().as_bytes()) {
            Ok(()) => Status::Done,
            Err(_) => Status::SinkFault,
        },
        Err(status) => {
            print_line(alloc, out, &status);
            status
        }
    }
}

/// Makes the answer of a command, and writes its output file; gives what is left to print, or the
/// status.
#[tactic(auto, using(crate::proofs::EndLaws::shelved_on, crate::proofs::EndLaws::shelved_stop, crate::proofs::EndLaws::read_before, crate::proofs::EndLaws::stopped_before))]
fn shelve<T: Task, F: Shelf>(alloc: Global, task: &T, shelf: &mut F) -> Result<String, Status>
    ensures shelved { Shelved (T.row_of task.now) (T.output_of task.now)
        (seen F.files F.faults shelf.old) (seen F.files F.faults shelf.new) (text_left result) }
    ensures reads { ReadsBefore F.read_gives (T.inputs_of task.now) shelf.old result }
{
    let plan = task.plan(alloc, shelf)?;
    plan.deliver(shelf, task.output_name())
}
