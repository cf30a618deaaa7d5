ghost use Rattle.std.specs.Prelude.{◌≡◌, string_bytes, IfOk};
ghost use Rattle.code_text_spec.specs.CodeText.{text_of};
ghost use Rattle.code_commands.specs.Check.{check_lines};

use crate::code_file::read_checked_code;
use code_model::Code;
use command_steps::{Reply, Status, Task};
use shelf_io::Shelf;
use std::alloc::Global;
use std::marker::Model;
use symbol_base::NoMemory;

/// `check CODE`: prints the sizes of the code of a code file, where it is a checked code.
#[derive(Drop)]
pub struct Check<'a> {
    /// The code file.
    pub code: &'a str,
}

impl<'a> Model for Check<'a> {
    ghost use Rattle.code_commands.specs.Check.{CheckWords};

    ghost Value = { CheckWords };

    ghost view = { λ words. record { code = words.code.now } };
}

impl<'a> Task for Check<'a> {
    type Plan = Reply;

    ghost use Rattle.std.specs.Prelude.{[]};
    ghost use Rattle.code_commands.specs.Check.{check_inputs, check_row};

    ghost row_of = { check_row };

    ghost inputs_of = { check_inputs };

    ghost output_of = { λ words. [] };

    fn output_name(&self) -> &str {
        ""
    }

    #[tactic(auto, using(command_steps::proofs::StepLaws::rows, command_steps::proofs::ReadLaws::reads), unfolding(crate::specs::Check::check_row))]
    fn plan<F: Shelf>(&self, alloc: Global, shelf: &mut F) -> Result<Reply, Status> {
        let code = read_checked_code(alloc, shelf, self.code)?;
        Ok(Reply::prints(check_text(alloc, code.code())?))
    }
}

/// The lines of a checked code.
fn check_text(alloc: Global, code: &Code) -> Result<String, NoMemory>
    ensures { IfOk result (λ text. string_bytes text ≡ text_of (check_lines code.now)) }
{
    let states = code.rows.len();
    let (p, q) = (code.p, code.q);
    let (past, ahead) = (code.past, code.ahead);
    Ok(format!(in alloc; "states {states}\nrate {p} {q}\nwindow {past} {ahead}\nok\n")?)
}
