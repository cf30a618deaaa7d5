//! State splitting: what a run, a round and a chain of rounds are, and the laws that they keep.
#![tactic(auto)]

mod chains;
mod rounds;
mod runs;
mod windows;

pub use chains::{
    a_chain_keeps_edges, a_chain_looks_ahead, a_graph_has_one_chain, kept_states_are_few,
    kept_states_have_edges_enough, kept_states_lead_to_each_other, rounds_are_few,
    rounds_keep_weights, splits_are_few,
};
pub use rounds::{
    a_round_divides_edges, a_round_keeps_ways, a_round_keeps_weights, a_sink_is_irreducible,
    a_sink_is_weighted, graphs_are_no_larger, heaviest_states_are_split, one_round_follows,
};
pub use runs::{a_row_has_one_order, a_row_has_one_run, residues_repeat};
pub use windows::{a_round_looks_ahead, a_sink_has_the_window_of_its_memory, rounds_look_ahead};
