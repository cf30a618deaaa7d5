//! Tests of whole commands over shelves and sinks that fail, and over files that vanish, which no run
//! of the program over real files can show.
#![tactic(auto)]

#[cfg(test)]
mod failing;
#[cfg(test)]
mod vanishing;
