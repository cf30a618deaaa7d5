ghost use Rattle.std.specs.Prelude.{◌≡◌, ◌+◌, ◌<◌, ◌≤◌, ◌↔◌, List, [], ◌∷◌, ◌++◌, length, drop, min, IfOk, IfSome, IsTrue};
ghost use Rattle.symbol_base.specs.declared.Block.{Block};
ghost use Rattle.code_spec.specs.Code.{CodeData, IsDataWord};
ghost use Rattle.code_spec.specs.Decoder.{window_length};
ghost use Rattle.block_codec.specs.Decoding.{IsDecoderFor, HasCome, IsAnswer};

use crate::window::decode_window;
use code_model::{CheckedCode, Code};
use std::alloc::Global;
use symbol_base::{Block, NoMemory};

/// The sliding-block decoder: it holds the last blocks that have come, as many as a window has
/// (Marcus, Roth, Siegel, chapter 4: sliding-block decodable encoder).
#[derive(Debug, Drop)]
pub struct BlockDecoder {
    window: Vec<Block>,
    count: u32,
}

/// Moves the blocks by one place, and puts the new one at the end.
fn move_in(window: &mut [Block], block: Block)
    requires { 0 < length window.old }
    ensures { window.new ≡ drop 1 window.old ++ block ∷ [] }
{
    let last = window.len() - 1;
    for i in 0..last {
        window[i] = window[i + 1];
    }
    window[last] = block;
}

/// One more than the number, and at most so many.
fn one_more(number: u32, most: u32) -> u32
    ensures { result ≡ min most (number + 1) }
{
    if number < most { number + 1 } else { most }
}

impl BlockDecoder {
    /// A decoder for the code, to which no block has come.
    pub fn new(alloc: Global, code: &CheckedCode) -> Result<BlockDecoder, NoMemory>
        ensures code { IfOk result (IsDecoderFor code.now) }
        ensures came { IfOk result (λ decoder. HasCome code.now decoder []) }
    {
        BlockDecoder::for_code(alloc, code.code())
    }

    /// Does that for the code itself.
    pub(crate) fn for_code(alloc: Global, code: &Code) -> Result<BlockDecoder, NoMemory>
        ensures code { IfOk result (IsDecoderFor code.now) }
        ensures came { IfOk result (λ decoder. HasCome code.now decoder []) }
    {
        let count = code.past + 1 + code.ahead;
        let window = vec![in alloc; Block { value: 0 }; count as usize]?;
        Ok(BlockDecoder { window, count: 0 })
    }

    /// Takes a block, and answers the data word of the window that it ends; none while fewer blocks
    /// than a window has have come. The answer is that of the window alone, and takes no memory.
    pub fn step(&mut self, code: &CheckedCode, block: Block) -> Option<u32>
        requires code { IsDecoderFor code.now self.old }
        ensures code { IsDecoderFor code.now self.new }
        ensures came { (came : List Block) → HasCome code.now self.old came
            → HasCome code.now self.new (came ++ block ∷ []) }
        ensures answer { (came : List Block) → HasCome code.now self.old came
            → IsAnswer code.now (came ++ block ∷ []) result }
        ensures small { IfSome result (IsDataWord code.now) }
    {
        self.take_block(code.code(), block)
    }

    /// Does that for the code itself.
    #[inline]
    pub(crate) fn take_block(&mut self, code: &Code, block: Block) -> Option<u32>
        requires code { IsDecoderFor code.now self.old }
        ensures code { IsDecoderFor code.now self.new }
        ensures came { (came : List Block) → HasCome code.now self.old came
            → HasCome code.now self.new (came ++ block ∷ []) }
        ensures answer { (came : List Block) → HasCome code.now self.old came
            → IsAnswer code.now (came ++ block ∷ []) result }
        ensures small { IfSome result (IsDataWord code.now) }
    {
        if !self.put(code, block) {
            return None;
        }
        Some(decode_window(code, &self.window))
    }

    /// Puts a block behind the others, and answers whether as many have come as a window has.
    #[inline]
    pub(crate) fn put(&mut self, code: &Code, block: Block) -> bool
        requires code { IsDecoderFor code.now self.old }
        ensures code { IsDecoderFor code.now self.new }
        ensures window { self.new.window.items ≡ drop 1 self.old.window.items ++ block ∷ [] }
        ensures came { (came : List Block) → HasCome code.now self.old came
            → HasCome code.now self.new (came ++ block ∷ []) }
        ensures full { IsTrue result ↔ (window_length code.now ≤ self.new.count) }
    {
        let count = code.past + 1 + code.ahead;
        move_in(&mut self.window, block);
        self.count = one_more(self.count, count);
        self.count >= count
    }

    /// The last blocks that have come, as many as a window has.
    #[inline]
    pub(crate) fn window(&self) -> &[Block]
        ensures { result.now ≡ self.now.window.items }
    {
        &self.window
    }

    /// Forgets the blocks that have come.
    pub fn clear(&mut self)
        ensures code { (c : CodeData) → IsDecoderFor c self.old → IsDecoderFor c self.new }
        ensures came { (c : CodeData) → IsDecoderFor c self.old → HasCome c self.new [] }
    {
        self.window.fill(Block { value: 0 });
        self.count = 0;
    }
}
