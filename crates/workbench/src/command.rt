ghost use Rattle.std.specs.Prelude.{◌≡◌, map, string_bytes, option_map};
ghost use Rattle.workbench.specs.Forms.{three_files_form, form_of};
ghost use Rattle.workbench.specs.Views.{form_seen};

use code_commands::{Check, Decode, Encode};
use design_commands::Explain;

/// What the words ask for: a form of the command line, with its words.
#[derive(Drop)]
pub enum Command<'a> {
    /// `check CODE`.
    Check(Check<'a>),
    /// `explain CONSTRAINT P Q BOUND`.
    Explain(Explain<'a>),
    /// `encode CODE DATA TEXT`.
    Encode(Encode<'a>),
    /// `decode CODE TEXT DATA`.
    Decode(Decode<'a>),
}

/// The command whose form the words are.
pub fn command_of(words: &[String]) -> Option<Command<'_>>
    ensures { option_map form_seen result ≡ form_of (map string_bytes words.now) }
{
    match words {
        [command, code] if command.as_str() == "check" => {
            Some(Command::Check(Check {
                code: code.as_str(),
            }))
        }
        [command, code, source, target] => {
            three_files_command(
                command.as_str(),
                code.as_str(),
                source.as_str(),
                target.as_str(),
            )
        }
        [command, constraint, p, q, bound] if command.as_str() == "explain" => {
            let words = Explain::of_words(
                constraint.as_str(),
                p.as_str(),
                q.as_str(),
                bound.as_str(),
            )?;
            Some(Command::Explain(words))
        }
        _ => None,
    }
}

/// A command that makes the last of three files of the others.
#[tactic(auto, unfolding(crate::specs::Forms::three_files_form))]
fn three_files_command<'a>(
    command: &str,
    code: &'a str,
    source: &'a str,
    target: &'a str,
) -> Option<Command<'a>>
    ensures { option_map form_seen result
        ≡ three_files_form command.now code.now source.now target.now }
{
    if command == "encode" {
        return Some(Command::Encode(Encode::of_words(code, source, target)?));
    }
    if command == "decode" {
        return Some(Command::Decode(Decode::of_words(code, source, target)?));
    }
    None
}
