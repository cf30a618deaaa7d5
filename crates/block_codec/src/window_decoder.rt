ghost use Rattle.std.specs.Prelude.{◌<◌, ◌^◌, List, [], ◌∷◌, ◌++◌, IfOk, IfSome};
ghost use Rattle.symbol_base.specs.declared.Block.{Block};
ghost use Rattle.code_spec.specs.Code.{IsDataWord};
ghost use Rattle.block_codec.specs.Decoding.{IsAnswer};
ghost use Rattle.block_codec.specs.inside.WindowDecoding.{IsMadeFor, HaveCome};

use crate::answers::has_short_windows;
use crate::table_decoder::TableDecoder;
use crate::walk_decoder::WalkDecoder;
use code_model::Code;
use std::alloc::Global;
use symbol_base::{Block, NoMemory};

/// The decoder of a code's windows.
#[derive(Debug, Drop)]
pub(crate) enum WindowDecoder {
    /// By a table, where windows are short.
    Short(TableDecoder),
    /// By a walk over the last blocks.
    Long(WalkDecoder),
}

impl WindowDecoder {
    /// A decoder for the code, to which no block has come.
    pub(crate) fn for_code(alloc: Global, code: &Code) -> Result<WindowDecoder, NoMemory>
        ensures code { IfOk result (IsMadeFor code.now) }
        ensures came { IfOk result (λ decoder. HaveCome code.now decoder []) }
    {
        if has_short_windows(code) {
            return Ok(WindowDecoder::Short(TableDecoder::for_code(alloc, code)?));
        }
        Ok(WindowDecoder::Long(WalkDecoder::for_code(alloc, code)?))
    }

    /// Takes a block, and answers the data word of the window that it ends; none while fewer blocks
    /// than a window has have come.
    #[inline]
    pub(crate) fn take_block(&mut self, code: &Code, block: Block) -> Option<u32>
        requires code { IsMadeFor code.now self.old }
        requires block { block.value < 2 ^ code.now.q }
        ensures code { IsMadeFor code.now self.new }
        ensures came { (came : List Block) → HaveCome code.now self.old came
            → HaveCome code.now self.new (came ++ block ∷ []) }
        ensures answer { (came : List Block) → HaveCome code.now self.old came
            → IsAnswer code.now (came ++ block ∷ []) result }
        ensures small { IfSome result (IsDataWord code.now) }
    {
        match self {
            WindowDecoder::Short(decoder) => decoder.take_block(code, block),
            WindowDecoder::Long(decoder) => decoder.take_block(code, block),
        }
    }
}
