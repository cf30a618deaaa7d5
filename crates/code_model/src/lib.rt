//! Codes: a constraint, a rate, a window and a table of rows.
#![tactic(auto)]

mod checked;
mod code;

pub use checked::CheckedCode;
pub use code::Code;
pub use code_spec::CodeRow;
