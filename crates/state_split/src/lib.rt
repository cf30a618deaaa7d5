//! State splitting in rounds (Adler, Coppersmith, Hassner 1983): from a sink with weights to a
//! graph in which the states of the greatest weight have edges enough for a code.
#![tactic(auto)]

mod chain;
mod order;
mod parts;
mod round;
mod rows;
mod run;
mod stage;

pub use chain::{Chain, split_all};
pub use round::{Round, Split};
