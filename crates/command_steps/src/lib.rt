//! What every command is made of: its input files, its answer, the status that it ends with, and
//! what it prints.
#![tactic(auto)]

mod answer;
mod input;
mod lines;
mod pieces;
mod printing;
mod status;
mod tasks;
mod words;

pub use answer::{Delivery, Reply};
pub use input::read_input;
pub use lines::status_line;
pub use pieces::read_piece;
pub use printing::{print_all, print_line};
pub use status::{ChannelFault, CodeFault, Limit, Status};
pub use tasks::{Task, perform};
pub use words::number_within;
