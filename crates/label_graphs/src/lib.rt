//! Graphs with a block on each edge, and the cover of a set of words.
#![tactic(auto)]

ghost use Rattle.std.specs.Prelude.{◌≡◌, ◌↔◌, ℕ, ◌<◌, All, Bool, true, false, List, length, map, slice_index, slice_index_or};
ghost use Rattle.label_graphs.specs.Graph.{EdgeData, HasEdge, IsGraph};
ghost use Rattle.label_graphs.specs.Cover.{CoverData, IsCoverOf};
ghost use Rattle.label_graphs.specs.Kept.{IsKept, marked_states};
ghost use Rattle.label_graphs.specs.Matrix.{CountsEdges};
ghost use Rattle.label_graphs.specs.Power.{IsPower};
ghost use Rattle.label_graphs.specs.Refinement.{KeepsEdges, parents_of};
ghost use Rattle.label_graphs.specs.Sink.{IsLeastSink};
ghost use Rattle.label_graphs.specs.Vector.{row_sum, target_sum};

mod graph;
mod kept;
mod matrix;
mod reached;
mod read_back;
mod refinement;
mod sink_graph;
mod weights;

pub use graph::{Cover, Edge, Graph};
pub use kept::{keep, marked_names};
pub use matrix::Matrix;
pub use reached::reach;
pub use read_back::TwoStates;
pub use refinement::{Refinement, compose};
pub use sink_graph::SinkGraph;
pub use weights::Weights;

/// Words have one cover: two of the same words have the same states and the same edges.
pub fn words_have_one_cover()
    ensures { (is_word : List ℕ → Bool) (rows others : List (List EdgeData))
        → IsCoverOf (λ word. is_word word ≡ true) rows
        → IsCoverOf (λ word. is_word word ≡ true) others
        → (length rows ≡ length others)
        × ((from symbol to : ℕ) → HasEdge rows from symbol to ↔ HasEdge others from symbol to) }
{}

/// A cover has one power for each number of symbols.
pub fn a_cover_has_one_power()
    ensures { (cover : CoverData) (q : ℕ) (rows others : List (List EdgeData))
        → IsPower cover q rows → IsPower cover q others → rows ≡ others }
{}

/// What a state's edges lead to adds up to the same over the edges and over their counts.
pub fn counts_add_up_like_edges()
    ensures { (rows : List (List EdgeData)) (matrix : List (List ℕ)) (x : List ℕ) (state : ℕ)
        → CountsEdges rows matrix → length x ≡ length rows → state < length rows
        → row_sum matrix x state ≡ target_sum rows x state }
{}

/// A graph with weights has at most one least sink.
pub fn a_graph_has_one_least_sink()
    ensures { (rows : List (List EdgeData)) (weights states others : List ℕ)
        → IsLeastSink rows weights states → IsLeastSink rows weights others → states ≡ others }
{}

/// A state that is kept has the same sum over its edges' targets where the edges that are left out
/// lead to states of number 0.
pub fn kept_states_keep_their_sums()
    ensures { (rows kept : List (List EdgeData)) (marks : List Bool) (x : List ℕ) (state : ℕ)
        → IsGraph rows → IsGraph kept → length marks ≡ length rows → IsKept rows marks kept
        → state < length kept
        → ((block to : ℕ) → HasEdge rows (slice_index (marked_states marks) state) block to
        → slice_index_or marks to false ≡ false → slice_index x to ≡ 0)
        → target_sum kept (map (λ s. slice_index x s) (marked_states marks)) state
        ≡ target_sum rows x (slice_index (marked_states marks) state) }
{}

/// What is composed of two refinements that keep edges keeps them.
pub fn composed_refinements_keep_edges()
    ensures { (fine middle coarse : List (List EdgeData)) (parents grandparents : List ℕ)
        → length parents ≡ length fine → All (All (λ e. e.to < length fine)) fine
        → KeepsEdges fine middle parents → KeepsEdges middle coarse grandparents
        → KeepsEdges fine coarse (parents_of grandparents parents) }
{}
