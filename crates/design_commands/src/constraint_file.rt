ghost use Rattle.std.specs.Prelude.{[], ◌∷◌};
ghost use Rattle.command_steps.specs.Inputs.{ReadsInputs};
ghost use Rattle.command_steps.specs.Promise.{Follows, Decides, seen};
ghost use Rattle.design_commands.specs.ConstraintFiles.{constraint_input, ConstraintOf, ConstraintAt};

use command_steps::{Status, read_input};
use constraint_file_spec::ConstraintFault;
use constraint_model::Constraint;
use shelf_io::Shelf;
use std::alloc::Global;

const CONSTRAINT_LIMIT: u64 = 1 << 20;

/// Reads a constraint file, whose name is the first behind the command, and understands it.
#[tactic(auto, using(command_steps::proofs::StepLaws::rows, command_steps::proofs::ReadLaws::reads), unfolding(crate::specs::ConstraintFiles::ConstraintAt))]
pub fn read_constraint_file<F: Shelf>(
    alloc: Global,
    shelf: &mut F,
    name: &str,
) -> Result<Constraint, Status>
    ensures step { Follows (λ c. c) (ConstraintAt name.now) (seen F.files F.faults shelf.old)
        (seen F.files F.faults shelf.new) result }
    ensures reads { ReadsInputs F.read_gives (constraint_input name.now ∷ []) shelf.old shelf.new
        result }
{
    let bytes = read_input(alloc, shelf, name, 1, CONSTRAINT_LIMIT)?;
    understand(alloc, bytes.as_slice())
}

/// The constraint that the bytes list.
#[tactic(auto, using(crate::proofs::ConstraintLaws::constraint_is_read, crate::proofs::ConstraintLaws::constraint_is_refused, steps::specs::Decides::memory_alone))]
fn understand(alloc: Global, bytes: &[u8]) -> Result<Constraint, Status>
    ensures { Decides (λ c. c) (ConstraintOf bytes.now) result }
{
    match constraint_files::read_constraint(alloc, bytes) {
        Ok(constraint) => Ok(constraint),
        Err(ConstraintFault::NoMemory) => Err(Status::NoMemory),
        Err(fault) => Err(Status::ConstraintRefused(fault)),
    }
}
