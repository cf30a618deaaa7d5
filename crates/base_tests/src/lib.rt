//! Tests of the lowest layers: what neither a clause nor a run of the program shows.
#![tactic(auto)]

#[cfg(test)]
mod field_words;
#[cfg(test)]
mod linked_rows;
#[cfg(test)]
mod shelves;
#[cfg(test)]
mod shy_shelf;
