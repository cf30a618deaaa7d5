//! Code files: the code that a text spells or the first line that breaks its rule, and the text of
//! a code.
#![tactic(auto)]

mod fault;
mod forbidden;
mod graph;
mod head;
mod laws;
mod read;
mod table;
mod text;

pub use fault::CodeTextFault;
pub use laws::{code_or_wrong_line, kept_lines_have_no_line_feed, text_is_read_back};
pub use read::read_code;
pub use text::{code_text, write_block};
