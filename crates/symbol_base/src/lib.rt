//! Words of symbols, the blocks and bits that hold them, decimal numbers, and names of states.
#![tactic(auto)]

mod bits;
mod blocks;
mod decimals;
mod lists;
mod memory;
mod names;
mod words;

pub use bits::{bit_at, set_bit, take_word};
pub use blocks::{Block, block_of_its_symbols, blocks_in_word_order, symbols_of_a_block};
pub use decimals::{decimal, decimal_texts};
pub use lists::{ByteList, WordList};
pub use memory::NoMemory;
pub use names::{CodeName, CoverName, Name, SplitName};
pub use words::{comes_before, words_are_ordered};
