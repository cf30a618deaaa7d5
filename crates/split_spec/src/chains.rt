ghost use Rattle.std.specs.Prelude.{◌≡◌, ℕ, ◌+◌, ◌<◌, ◌≤◌, List, length, All, Contains};
ghost use Rattle.std.specs.List.{sum};
ghost use Rattle.label_graphs.specs.Graph.{HasEdge};
ghost use Rattle.label_graphs.specs.Refinement.{KeepsEdges};
ghost use Rattle.label_graphs.specs.Sink.{spread};
ghost use Rattle.split_spec.specs.Weighted.{IsIrreducible, IsWeighted, WeightedData};
ghost use Rattle.split_spec.specs.Round.{SplitData};
ghost use Rattle.split_spec.specs.Chain.{ChainData, IsChain, RoundsLead, split_count};
ghost use Rattle.split_spec.specs.Window.{HasWindow};

use crate::rounds::{
    a_round_divides_edges, a_round_keeps_ways, a_round_keeps_weights, graphs_are_no_larger,
    heaviest_states_are_split, one_round_follows,
};
use crate::windows::rounds_look_ahead;
use label_graphs::composed_refinements_keep_edges;

/// A graph has at most one chain.
pub fn a_graph_has_one_chain()
    ensures { (n : ℕ) (g : WeightedData) (chain other : ChainData) → IsChain n g chain
        → IsChain n g other → chain ≡ other }
{
    one_round_follows();
}

/// What one round keeps many rounds keep, and each edge at their end is an edge at their beginning.
pub fn rounds_keep_weights()
    ensures { (n : ℕ) (g h : WeightedData) (rounds : List (List SplitData)) (parents : List ℕ)
        → 1 ≤ n
        → IsWeighted n g → RoundsLead n g rounds h parents
        → IsWeighted n h × (sum h.weights ≡ sum g.weights)
        × (spread h.rows h.weights ≡ spread g.rows g.weights)
        × (length parents ≡ length h.rows) × KeepsEdges h.rows g.rows parents }
{
    a_round_keeps_weights();
    a_round_divides_edges();
    composed_refinements_keep_edges();
}

/// There are no more rounds than the weights add up to, less the number of states.
pub fn rounds_are_few()
    ensures { (n : ℕ) (g h : WeightedData) (rounds : List (List SplitData)) (parents : List ℕ)
        → 1 ≤ n
        → IsWeighted n g → RoundsLead n g rounds h parents
        → length rounds + length g.rows ≤ sum g.weights }
{
    a_round_keeps_weights();
    heaviest_states_are_split();
    graphs_are_no_larger();
}

/// Each split makes one state more, so there are no more of them than the weights add up to, less
/// the number of states.
pub fn splits_are_few()
    ensures { (n : ℕ) (g h : WeightedData) (rounds : List (List SplitData)) (parents : List ℕ)
        → 1 ≤ n
        → IsWeighted n g → RoundsLead n g rounds h parents
        → split_count rounds + length g.rows ≤ sum g.weights }
{
    a_round_keeps_weights();
    graphs_are_no_larger();
}

/// In the last graph of a chain each state has at least n edges, since no edge of a kept state
/// leads outside.
pub fn kept_states_have_edges_enough()
    ensures edges { (n : ℕ) (g : WeightedData) (chain : ChainData) → 1 ≤ n → IsWeighted n g
        → IsChain n g chain
        → All (λ row. n ≤ length row) chain.last }
    ensures closed { (n : ℕ) (g : WeightedData) (chain : ChainData) → 1 ≤ n → IsWeighted n g
        → (is : IsChain n g chain) → (state block to : ℕ) → Contains chain.kept state
        → HasEdge is.end.rows state block to → Contains chain.kept to }
{
    rounds_keep_weights();
}

/// The last graph of a chain has a state, where the sink has one, and no more states than the
/// sink's weights add up to.
pub fn kept_states_are_few()
    ensures some { (n : ℕ) (g : WeightedData) (chain : ChainData) → 1 ≤ n → IsWeighted n g
        → IsChain n g chain → 0 < length g.rows → 0 < length chain.last }
    ensures few { (n : ℕ) (g : WeightedData) (chain : ChainData) → 1 ≤ n → IsWeighted n g
        → IsChain n g chain → length chain.last ≤ sum g.weights }
{
    rounds_keep_weights();
    graphs_are_no_larger();
}

/// In the last graph of a chain each state leads to each, where it does so in the sink.
pub fn kept_states_lead_to_each_other()
    ensures { (n : ℕ) (g : WeightedData) (chain : ChainData) → 1 ≤ n → IsWeighted n g
        → IsIrreducible g.rows → IsChain n g chain → IsIrreducible chain.last }
{
    rounds_keep_weights();
    a_round_keeps_weights();
    a_round_keeps_ways();
    kept_states_have_edges_enough();
}

/// Each edge of the last graph of a chain is one of the sink, between the parents of its states.
pub fn a_chain_keeps_edges()
    ensures { (n : ℕ) (g : WeightedData) (chain : ChainData) → 1 ≤ n → IsWeighted n g
        → IsChain n g chain
        → KeepsEdges chain.last g.rows chain.parents }
{
    rounds_keep_weights();
    composed_refinements_keep_edges();
}

/// In the last graph of a chain the next edge is told by one block more for each round.
pub fn a_chain_looks_ahead()
    ensures { (n a r : ℕ) (g : WeightedData) (chain : ChainData) → 1 ≤ n → IsWeighted n g
        → IsChain n g chain
        → HasWindow g.rows a r → HasWindow chain.last a (r + length chain.rounds) }
{
    rounds_keep_weights();
    rounds_look_ahead();
}
