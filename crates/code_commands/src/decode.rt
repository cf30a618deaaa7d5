ghost use Rattle.std.specs.Prelude.{◌≡◌, option_map};
ghost use Rattle.code_commands.specs.Decode.{decode_words};

use crate::code_file::read_checked_code;
use crate::text_file::read_text;
use command_steps::{Reply, Status, Task};
use shelf_io::Shelf;
use std::alloc::Global;
use std::marker::Model;

/// `decode CODE TEXT DATA`: writes the data file of a plain channel text, and prints how many bytes
/// it has.
#[derive(Drop)]
pub struct Decode<'a> {
    code: &'a str,
    text: &'a str,
    target: &'a str,
}

impl<'a> Model for Decode<'a> {
    ghost use Rattle.code_commands.specs.Decode.{DecodeWords};

    ghost Value = { DecodeWords };

    ghost view = { λ words. record { code = words.code.now; text = words.text.now; target = words.target.now } };
}

impl<'a> Decode<'a> {
    /// The command with these words, where the data file is none of the files that are read.
    pub fn of_words(code: &'a str, text: &'a str, target: &'a str) -> Option<Decode<'a>>
        ensures { option_map (λ words. words) result ≡ decode_words code.now text.now target.now }
    {
        if target == code || target == text {
            return None;
        }
        Some(Decode { code, text, target })
    }
}

impl<'a> Task for Decode<'a> {
    type Plan = Reply;

    ghost use Rattle.code_commands.specs.Decode.{decode_inputs, decode_row};

    ghost row_of = { decode_row };

    ghost inputs_of = { decode_inputs };

    ghost output_of = { λ words. words.target };

    fn output_name(&self) -> &str {
        self.target
    }

    /// The text is tested to its end before anything is written.
    #[tactic(auto, using(command_steps::proofs::StepLaws::rows, command_steps::proofs::ReadLaws::reads), unfolding(crate::specs::Decode::decode_row))]
    fn plan<F: Shelf>(&self, alloc: Global, shelf: &mut F) -> Result<Reply, Status> {
        let code = read_checked_code(alloc, shelf, self.code)?;
        let file = read_text(alloc, shelf, &code, self.text)?;
        let bytes = file.len();
        let printed = format!(in alloc; "bytes {bytes}\n")?;
        Ok(Reply::writes(file, printed))
    }
}
