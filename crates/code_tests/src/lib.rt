//! Tests of constraint files, codes and their texts: what neither a clause nor a run of the program
//! shows.
#![tactic(auto)]

#[cfg(test)]
mod blocks;
#[cfg(test)]
mod pieces;
#[cfg(test)]
mod texts;
