//! Tests of constraints and graphs: what neither a clause nor a run of the program shows.
#![tactic(auto)]

#[cfg(test)]
mod constraints;
#[cfg(test)]
mod covers;
#[cfg(test)]
mod sinks;
