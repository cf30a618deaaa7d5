ghost use Rattle.std.specs.Prelude.{◌≡◌, option_map};
ghost use Rattle.design_commands.specs.Words.{explain_words};

use crate::constraint_file::read_constraint_file;
use crate::explain_text::explain_text;
use command_steps::{Reply, Status, Task, number_within};
use design_steps::split;
use shelf_io::Shelf;
use std::alloc::Global;
use std::marker::Model;

/// `explain CONSTRAINT P Q BOUND`: prints the design of a code with P data bits for Q symbols and
/// weights up to BOUND, up to its last round of splitting, for the constraint of a constraint file.
#[derive(Drop)]
pub struct Explain<'a> {
    constraint: &'a str,
    p: u32,
    q: u32,
    bound: u32,
}

impl<'a> Model for Explain<'a> {
    ghost use Rattle.design_commands.specs.Words.{ExplainWords};

    ghost Value = { ExplainWords };

    ghost use Rattle.design_commands.specs.Words.{explain_seen, IsRateWithin};

    ghost view = { explain_seen };

    ghost invariant = { λ words. IsRateWithin words.p words.q words.bound };
}

impl<'a> Explain<'a> {
    /// The command with these words, where the numbers are in their ranges.
    #[tactic(auto, unfolding(crate::specs::Words::explain_words))]
    pub fn of_words(constraint: &'a str, p: &str, q: &str, bound: &str) -> Option<Explain<'a>>
        ensures { option_map (λ words. words) result
            ≡ explain_words constraint.now p.now q.now bound.now }
    {
        let p = number_within(1, 8, p)?;
        let q = number_within(p, 20, q)?;
        let bound = number_within(1, 64, bound)?;
        Some(Explain {
            constraint,
            p,
            q,
            bound,
        })
    }
}

impl<'a> Task for Explain<'a> {
    type Plan = Reply;

    ghost use Rattle.std.specs.Prelude.{[]};
    ghost use Rattle.design_commands.specs.Explain.{explain_inputs, explain_row};

    ghost row_of = { explain_row };

    ghost inputs_of = { explain_inputs };

    ghost output_of = { λ words. [] };

    fn output_name(&self) -> &str {
        ""
    }

    #[tactic(auto, using(command_steps::proofs::StepLaws::rows, command_steps::proofs::ReadLaws::reads), unfolding(crate::specs::Explain::explain_row))]
    fn plan<F: Shelf>(&self, alloc: Global, shelf: &mut F) -> Result<Reply, Status> {
        let constraint = read_constraint_file(alloc, shelf, self.constraint)?;
        let design = split(alloc, &constraint, self.p, self.q, self.bound)?;
        Ok(Reply::prints(explain_text(alloc, &design, self.q)?))
    }
}
