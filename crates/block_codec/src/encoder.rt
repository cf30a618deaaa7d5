ghost use Rattle.std.specs.Prelude.{◌≡◌};
ghost use Rattle.code_spec.specs.Code.{IsState, IsDataWord};
ghost use Rattle.code_spec.specs.Output.{row_at};

use code_model::CheckedCode;
use std::marker::Model;
use symbol_base::{Block, CodeName, Name};

/// An encoder: the state of a code, which goes on from word to word.
///
/// Contracts see it as that state. It belongs to every code that has the state: to the one that it
/// was made for, and to that one after each step.
#[derive(Debug, Drop)]
pub struct Encoder {
    state: CodeName,
}

impl Model for Encoder {
    ghost use Rattle.std.specs.Prelude.{ℕ};

    ghost Value = { ℕ };

    ghost view = { λ encoder. encoder.state };
}

impl Encoder {
    /// An encoder at state 0.
    pub fn new(code: &CheckedCode) -> Encoder
        ensures start { result ≡ 0 }
        ensures code { IsState code.now result }
    {
        let _states = code.code().state_count();
        Encoder {
            state: CodeName::at(0),
        }
    }

    /// The block that the code writes for the data word, after which the encoder is at the next
    /// state.
    #[inline]
    pub fn step(&mut self, code: &CheckedCode, word: u32) -> Block
        requires code { IsState code.now self.old }
        requires word { IsDataWord code.now word }
        ensures block { result ≡ (row_at code.now.rows self.old word).block }
        ensures next { self.new ≡ (row_at code.now.rows self.old word).to }
        ensures code { IsState code.now self.new }
    {
        let (block, next) = code.code().step(self.state, word);
        self.state = next;
        block
    }
}
