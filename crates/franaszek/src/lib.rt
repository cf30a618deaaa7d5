//! Approximate eigenvectors: the greatest within a bound, and the least bound that has one.
#![tactic(auto)]

mod bound;
mod descent;

pub use bound::least_bound;
pub use descent::greatest;
