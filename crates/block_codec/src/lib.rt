//! Encoding and decoding: data words to blocks and back, and files to plain channel text and back.
#![tactic(auto)]

mod answers;
mod arc_table;
mod block_decoder;
mod bytes;
mod counts;
mod digits;
mod encoder;
mod fault;
mod fours;
mod item_table;
mod laws;
mod part;
mod pieces;
mod reader;
mod sizes;
mod state_sets;
mod steps;
mod survivors;
mod table;
mod table_decoder;
mod text_decoder;
mod text_writer;
mod walk;
mod walk_decoder;
mod window;
mod window_decoder;
mod words;

pub use block_decoder::BlockDecoder;
pub use code_spec::EndFault;
pub use counts::{block_count, symbol_count};
pub use encoder::Encoder;
pub use fault::TextFault;
pub use laws::plain_text_gives_its_file;
pub use text_decoder::TextDecoder;
pub use text_writer::TextWriter;
