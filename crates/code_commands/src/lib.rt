//! The commands that use a code: `check`, `encode` and `decode`, each a room of its own with its
//! words, its row of steps, and its answer.
#![tactic(auto)]

mod check;
mod code_file;
mod decode;
mod encode;
mod text_file;

pub use check::Check;
pub use decode::Decode;
pub use encode::{Encode, TextPlan};
