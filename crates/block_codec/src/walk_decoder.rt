ghost use Rattle.std.specs.Prelude.{List, [], ◌∷◌, ◌++◌, IfOk, IfSome};
ghost use Rattle.symbol_base.specs.declared.Block.{Block};
ghost use Rattle.code_spec.specs.Code.{IsDataWord};
ghost use Rattle.block_codec.specs.Decoding.{IsAnswer};
ghost use Rattle.block_codec.specs.inside.WalkDecoding.{IsWalkDecoderFor, HasComeBy};

use crate::answers::window_length;
use crate::block_decoder::BlockDecoder;
use crate::walk::Walk;
use code_model::Code;
use std::alloc::Global;
use symbol_base::{Block, NoMemory};

/// A sliding-block decoder that keeps a walk over the last blocks, which answers the windows that
/// it writes. The other windows, those with a wrong block, are answered by the definition.
#[derive(Debug, Drop)]
pub(crate) struct WalkDecoder {
    blocks: BlockDecoder,
    walk: Walk,
}

impl WalkDecoder {
    /// A decoder for the code, to which no block has come.
    pub(crate) fn for_code(alloc: Global, code: &Code) -> Result<WalkDecoder, NoMemory>
        ensures code { IfOk result (IsWalkDecoderFor code.now) }
        ensures came { IfOk result (λ decoder. HasComeBy code.now decoder []) }
    {
        Ok(WalkDecoder {
            blocks: BlockDecoder::for_code(alloc, code)?,
            walk: Walk::for_code(alloc, code, window_length(code) as u16)?,
        })
    }

    /// Takes a block, and answers the data word of the window that it ends; none while fewer blocks
    /// than a window has have come.
    pub(crate) fn take_block(&mut self, code: &Code, block: Block) -> Option<u32>
        requires code { IsWalkDecoderFor code.now self.old }
        ensures code { IsWalkDecoderFor code.now self.new }
        ensures came { (came : List Block) → HasComeBy code.now self.old came
            → HasComeBy code.now self.new (came ++ block ∷ []) }
        ensures answer { (came : List Block) → HasComeBy code.now self.old came
            → IsAnswer code.now (came ++ block ∷ []) result }
        ensures small { IfSome result (IsDataWord code.now) }
    {
        let full = self.blocks.put(code, block);
        self.walk.move_on();
        self.walk.take_block(code, self.blocks.window(), block);
        if !full {
            return None;
        }
        Some(self.walk.answer(code, self.blocks.window()))
    }
}
