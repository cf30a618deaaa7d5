//! The program: the forms of its command line, and what it does with its words.
#![tactic(auto)]

mod arguments;
mod command;
mod top;

pub use arguments::{end_with, run_arguments};
pub use code_spec::Walk;
pub use command_steps::{ChannelFault, CodeFault, Limit, Status, status_line};
pub use constraint_file_spec::{ConstraintFault, Key};
pub use top::run;
