ghost use Rattle.std.specs.Prelude.{◌≡◌, [], ◌∷◌};
ghost use Rattle.command_steps.specs.Inputs.{ReadsInputs};
ghost use Rattle.command_steps.specs.Promise.{Follows, Decides, seen};
ghost use Rattle.code_commands.specs.CodeFiles.{code_input, CodeOf, CodeAt};
ghost use Rattle.code_commands.specs.CheckedCodes.{check_status, CheckedOf, CheckedAt};

use code_check::CheckFault;
use code_model::{CheckedCode, Code};
use code_tables::CodeTextFault;
use command_steps::{CodeFault, Limit, Status, read_input};
use shelf_io::Shelf;
use std::alloc::Global;

const CODE_LIMIT: u64 = 1 << 23;

/// Reads a code file, whose name is the first behind the command, and checks its code.
#[tactic(auto, using(command_steps::proofs::StepLaws::rows, command_steps::proofs::ReadLaws::reads), unfolding(crate::specs::CheckedCodes::CheckedAt))]
pub fn read_checked_code<F: Shelf>(
    alloc: Global,
    shelf: &mut F,
    name: &str,
) -> Result<CheckedCode, Status>
    ensures step { Follows (λ c. c) (CheckedAt name.now) (seen F.files F.faults shelf.old)
        (seen F.files F.faults shelf.new) result }
    ensures reads { ReadsInputs F.read_gives (code_input name.now ∷ []) shelf.old shelf.new result }
{
    let code = read_code_file(alloc, shelf, name)?;
    check(alloc, code)
}

/// The code as a checked one.
#[tactic(auto, using(crate::proofs::CheckLaws::checks))]
fn check(alloc: Global, code: Code) -> Result<CheckedCode, Status>
    ensures { Decides (λ c. c) (CheckedOf code) result }
{
    match code_check::check(alloc, code) {
        Ok(checked) => Ok(checked),
        Err((_code, fault)) => Err(told(fault)),
    }
}

/// The status that tells a fault of the checker.
fn told(fault: CheckFault) -> Status
    ensures { result ≡ check_status fault }
{
    match fault {
        CheckFault::RawStates(count) => Status::TooLarge(Limit::RawStates(count)),
        CheckFault::CoverStates(count) => Status::TooLarge(Limit::CoverStates(count)),
        CheckFault::OutOfConstraint(words) => Status::CodeRefused(CodeFault::OutOfConstraint(
            words,
        )),
        CheckFault::Ambiguous(first, second) => {
            Status::CodeRefused(CodeFault::Ambiguous(first, second))
        }
        CheckFault::NoMemory => Status::NoMemory,
    }
}

/// Reads a code file, and understands it.
#[tactic(auto, using(command_steps::proofs::StepLaws::rows, command_steps::proofs::ReadLaws::reads), unfolding(crate::specs::CodeFiles::CodeAt))]
fn read_code_file<F: Shelf>(alloc: Global, shelf: &mut F, name: &str) -> Result<Code, Status>
    ensures step { Follows (λ c. c) (CodeAt name.now) (seen F.files F.faults shelf.old)
        (seen F.files F.faults shelf.new) result }
    ensures reads { ReadsInputs F.read_gives (code_input name.now ∷ []) shelf.old shelf.new result }
{
    let bytes = read_input(alloc, shelf, name, 1, CODE_LIMIT)?;
    understand(alloc, bytes.as_slice())
}

/// The code that the bytes are the text of.
#[tactic(auto, using(crate::proofs::CodeLaws::code_is_read, crate::proofs::CodeLaws::line_is_wrong, steps::specs::Decides::memory_alone))]
fn understand(alloc: Global, bytes: &[u8]) -> Result<Code, Status>
    ensures { Decides (λ c. c) (CodeOf bytes.now) result }
{
    match code_tables::read_code(alloc, bytes) {
        Ok(code) => Ok(code),
        Err(CodeTextFault::BadCode(line)) => Err(Status::CodeRefused(CodeFault::BadCode(line))),
        Err(CodeTextFault::NoMemory) => Err(Status::NoMemory),
    }
}
