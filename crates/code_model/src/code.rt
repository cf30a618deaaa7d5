ghost use Rattle.std.specs.Prelude.{◌≡◌, ◌≤◌, ◌^◌, length};
ghost use Rattle.code_spec.specs.Code.{IsCode, IsState, IsDataWord};
ghost use Rattle.code_spec.specs.Output.{row_at};

use code_spec::CodeRow;
use constraint_model::Constraint;
use std::marker::Model;
use symbol_base::{Block, CodeName, Name};

/// A code at rate p : q, a machine that turns each data word of p bits into a block of q symbols
/// (Marcus, Roth, Siegel, chapter 4: finite-state encoder).
///
/// A state's rows stand in the order of the data words, from word 0 to word 2^p - 1.
#[derive(Debug, Drop)]
pub struct Code {
    /// The constraint that the code's words are meant for, on the symbols 0 and 1.
    pub constraint: Constraint,
    /// Bits of a data word, 1 to 8.
    pub p: u32,
    /// Symbols of a block, p to 20.
    pub q: u32,
    /// How many blocks before the one that it decodes the decoder looks at, at most 256.
    pub past: u32,
    /// How many blocks behind the one that it decodes the decoder looks at, at most 511.
    pub ahead: u32,
    /// The rows of each state, 1 to 512 states of 2^p rows.
    pub rows: Vec<Vec<CodeRow>>,
}

impl Model for Code {
    ghost use Rattle.code_spec.specs.Code.{CodeData};

    ghost Value = { CodeData };

    ghost use Rattle.code_model.specs.Data.{code_data, KeepsTable};

    ghost view = { code_data };

    ghost invariant = { KeepsTable };
}

impl Code {
    /// The block that the code writes in a state for a data word, and the state that it goes to.
    #[inline]
    pub fn step(&self, state: CodeName, word: u32) -> (Block, CodeName)
        requires state { IsState self.now state }
        requires word { IsDataWord self.now word }
        ensures block { result.0 ≡ (row_at self.now.rows state word).block }
        ensures next { result.1 ≡ (row_at self.now.rows state word).to }
        ensures inside { IsState self.now result.1 }
        ensures table { IsCode self.now }
    {
        let row = self.row(state, word);
        (row.block, row.to)
    }

    /// How many states the code has, 1 to 512.
    #[inline]
    pub fn state_count(&self) -> u32
        ensures count { result ≡ length self.now.rows }
        ensures few { result ≤ 512 }
        ensures table { IsCode self.now }
    {
        self.rows.len() as u32
    }

    /// How many data words there are, 2 to 256: 2^p.
    #[inline]
    pub fn word_count(&self) -> u32
        ensures count { result ≡ 2 ^ self.now.p }
        ensures few { result ≤ 256 }
        ensures table { IsCode self.now }
    {
        2u32.pow(self.p)
    }

    #[inline]
    fn row(&self, state: CodeName, word: u32) -> CodeRow
        requires state { IsState self.now state }
        requires word { IsDataWord self.now word }
        ensures row { result ≡ row_at self.now.rows state word }
        ensures table { IsCode self.now }
    {
        self.rows[state.index() as usize][word as usize]
    }
}
