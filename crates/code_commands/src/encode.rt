ghost use Rattle.std.specs.Prelude.{◌≡◌, ◌≤◌, length, option_map, Some};
ghost use Rattle.code_spec.specs.PlainText.{plain_text};
ghost use Rattle.block_codec.specs.TextWriter.{IsWriterFor};
ghost use Rattle.command_steps.specs.declared.status.Status.TheVariants as statuses;
ghost use Rattle.steps.specs.Step.{Needs};
ghost use Rattle.command_steps.specs.Promise.{Decides, seen};
ghost use Rattle.command_steps.specs.Answer.{IsOutput};
ghost use Rattle.code_commands.specs.Limits.{data_limit, text_limit};
ghost use Rattle.code_commands.specs.Encode.{encode_words};

use crate::code_file::read_checked_code;
use block_codec::{TextWriter, block_count, symbol_count};
use code_model::{CheckedCode, Code};
use command_steps::{Delivery, Status, Task, read_input};
use shelf_io::{Failed, Shelf};
use std::alloc::Global;
use std::marker::Model;

const DATA_LIMIT: u64 = 1 << 26;

const TEXT_LIMIT: u64 = 1 << 29;

/// `encode CODE DATA TEXT`: writes the plain channel text of a data file under a code, and prints
/// how many blocks it has.
#[derive(Drop)]
pub struct Encode<'a> {
    code: &'a str,
    source: &'a str,
    text: &'a str,
}

impl<'a> Model for Encode<'a> {
    ghost use Rattle.code_commands.specs.Encode.{EncodeWords};

    ghost Value = { EncodeWords };

    ghost view = { λ words. record { code = words.code.now; source = words.source.now; text = words.text.now } };
}

impl<'a> Encode<'a> {
    /// The command with these words, where the text is none of the files that are read.
    pub fn of_words(code: &'a str, source: &'a str, text: &'a str) -> Option<Encode<'a>>
        ensures { option_map (λ words. words) result ≡ encode_words code.now source.now text.now }
    {
        if text == code || text == source {
            return None;
        }
        Some(Encode { code, source, text })
    }
}

impl<'a> Task for Encode<'a> {
    type Plan = TextPlan;

    ghost use Rattle.code_commands.specs.Encode.{encode_inputs, encode_row};

    ghost row_of = { encode_row };

    ghost inputs_of = { encode_inputs };

    ghost output_of = { λ words. words.text };

    fn output_name(&self) -> &str {
        self.text
    }

    #[tactic(auto, using(command_steps::proofs::StepLaws::rows, command_steps::proofs::ReadLaws::reads), unfolding(crate::specs::Encode::encode_row))]
    fn plan<F: Shelf>(&self, alloc: Global, shelf: &mut F) -> Result<TextPlan, Status> {
        let code = read_checked_code(alloc, shelf, self.code)?;
        let file = read_input(alloc, shelf, self.source, 2, DATA_LIMIT)?;
        test_length(code.code(), file.as_slice())?;
        let blocks = block_count(code.code(), file.len() as u64);
        let printed = format!(in alloc; "blocks {blocks}\n")?;
        let writer = TextWriter::new(alloc, code.code())?;
        Ok(TextPlan {
            code,
            file,
            writer,
            printed,
        })
    }
}

/// A text that is to be written, with all the memory that this takes, and what is printed then.
#[derive(Drop)]
pub struct TextPlan {
    code: CheckedCode,
    file: Vec<u8>,
    writer: TextWriter,
    printed: String,
}

impl Model for TextPlan {
    ghost use Rattle.command_steps.specs.Answer.{Answer};

    ghost Value = { Answer };

    ghost use Rattle.std.specs.Prelude.{string_bytes};
    ghost use Rattle.code_spec.specs.PlainText.{plain_text};
    ghost use Rattle.command_steps.specs.Answer.{writes};

    ghost view = { λ plan. writes (plain_text plan.code plan.file.items) (string_bytes plan.printed) };

    ghost use Rattle.code_commands.specs.TextPlan.{IsReady};

    ghost invariant = { IsReady };
}

impl Delivery for TextPlan {
    ghost answer = { λ plan. plan };

    /// Writes the text piece by piece.
    #[tactic(auto, using(command_steps::specs::Answer::delivered, command_steps::specs::Answer::broken))]
    fn deliver<F: Shelf>(self, shelf: &mut F, name: &str) -> Result<String, Status> {
        let TextPlan {
            code,
            file,
            mut writer,
            printed,
        } = self;
        match put_text(&mut writer, code.code(), shelf, name, file.as_slice()) {
            Ok(()) => Ok(printed),
            Err(_) => Err(Status::ShelfFault),
        }
    }
}

/// Writes the text of a file as the output of a command.
#[tactic(auto, using(command_steps::proofs::EndLaws::outputs))]
fn put_text<F: Shelf>(
    writer: &mut TextWriter,
    code: &Code,
    shelf: &mut F,
    name: &str,
    file: &[u8],
) -> Result<(), Failed>
    requires writer { IsWriterFor code.now writer.old }
    requires file { length file.now ≤ data_limit }
    ensures { IsOutput name.now (Some (plain_text code.now file.now))
        (seen F.files F.faults shelf.old) (seen F.files F.faults shelf.new) result }
{
    writer.write(code, shelf, name, file)
}

/// Tests that the text of a file is within its limit.
#[tactic(auto, using(crate::proofs::TextLaws::text_fits, crate::proofs::TextLaws::text_too_long))]
fn test_length(code: &Code, file: &[u8]) -> Result<(), Status>
    requires { length file.now ≤ data_limit }
    ensures { Decides (λ done. done)
        (Needs (length (plain_text code.now file.now) ≤ text_limit)
        (statuses.FileTooLong text_limit)) result }
{
    if symbol_count(code, file.len() as u64) >= TEXT_LIMIT {
        return Err(Status::FileTooLong(TEXT_LIMIT));
    }
    Ok(())
}
