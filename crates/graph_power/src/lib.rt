//! The power of a cover: its walks of q symbols, counted from state to state and listed as edges.
#![tactic(auto)]

mod counting;
mod fault;
mod listing;

pub use counting::counts;
pub use fault::PowerFault;
pub use listing::power;
