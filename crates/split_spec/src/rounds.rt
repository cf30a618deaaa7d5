ghost use Rattle.std.specs.Prelude.{◌≡◌, ℕ, ◌<◌, ◌≤◌, List, [], length, map, slice_index, slice_index_or};
ghost use Rattle.std.specs.List.{sum};
ghost use Rattle.label_graphs.specs.Graph.{EdgeData, HasEdge, IsGraph};
ghost use Rattle.label_graphs.specs.Power.{edge_count};
ghost use Rattle.label_graphs.specs.Refinement.{DividesEdges, KeepsEdges};
ghost use Rattle.label_graphs.specs.Sink.{AreEdgesAmong, IsSink, spread};
ghost use Rattle.label_graphs.specs.Vector.{MeetsInequality, target_sum};
ghost use Rattle.split_spec.specs.Weighted.{HasPositiveWeights, IsIrreducible, IsWeighted, WeightedData};
ghost use Rattle.split_spec.specs.Round.{IsRound, IsSplit, SplitData};
ghost use Rattle.split_spec.specs.Chain.{IsHeaviest};

/// A sink whose weights meet the inequality is a graph of which a code can be split.
pub fn a_sink_is_weighted()
    ensures { (n : ℕ) (power rows : List (List EdgeData)) (x states : List ℕ)
        → IsSink power x states
        → IsGraph rows → length rows ≡ length states → AreEdgesAmong power states rows
        → MeetsInequality (target_sum rows) n (map (λ state. slice_index x state) states)
        → IsWeighted n
        (record { rows = rows; weights = map (λ state. slice_index x state) states }) }
{}

/// Each state of a sink leads to each.
pub fn a_sink_is_irreducible()
    ensures { (power rows : List (List EdgeData)) (x states : List ℕ) → IsSink power x states
        → length rows ≡ length states → AreEdgesAmong power states rows → IsIrreducible rows }
{}

/// At most one graph follows a graph by a round, with the same splits and the same parents.
pub fn one_round_follows()
    ensures { (n : ℕ) (g h k : WeightedData) (splits others : List SplitData)
        (parents fathers : List ℕ)
        → IsRound n g splits h parents → IsRound n g others k fathers
        → (splits ≡ others) × (h ≡ k) × (parents ≡ fathers) }
{}

/// By a round each edge of the new graph is one of the old graph, and each edge of the old graph
/// leaves exactly one part of its source and leads to each part of its target.
pub fn a_round_divides_edges()
    ensures { (n : ℕ) (g h : WeightedData) (splits : List SplitData) (parents : List ℕ)
        → IsWeighted n g
        → IsRound n g splits h parents
        → KeepsEdges h.rows g.rows parents × DividesEdges h.rows g.rows parents }
{}

/// A round keeps weights of 1 and more, the inequality, the sum of the weights, and the sum of the
/// weights that edges lead to (Adler, Coppersmith, Hassner 1983).
pub fn a_round_keeps_weights()
    ensures { (n : ℕ) (g h : WeightedData) (splits : List SplitData) (parents : List ℕ) → 1 ≤ n
        → IsWeighted n g
        → IsRound n g splits h parents
        → IsWeighted n h × (sum h.weights ≡ sum g.weights)
        × (spread h.rows h.weights ≡ spread g.rows g.weights) }
{}

/// A round keeps that each state leads to each.
pub fn a_round_keeps_ways()
    ensures { (n : ℕ) (g h : WeightedData) (splits : List SplitData) (parents : List ℕ) → 1 ≤ n
        → IsWeighted n g → IsIrreducible g.rows
        → IsRound n g splits h parents → IsIrreducible h.rows }
{}

/// A graph has no more states than its weights add up to, and no more edges than the weights that
/// these lead to.
pub fn graphs_are_no_larger()
    ensures { (g : WeightedData) → HasPositiveWeights g
        → (length g.rows ≤ sum g.weights) × (edge_count g.rows ≤ spread g.rows g.weights) }
{}

/// A state of the greatest weight with an edge to a lighter one has more than n edges, and is
/// split.
pub fn heaviest_states_are_split()
    ensures { (n : ℕ) (g : WeightedData) (state block to : ℕ) → 1 ≤ n → IsWeighted n g
        → IsHeaviest g.weights state
        → HasEdge g.rows state block to → slice_index g.weights to < slice_index g.weights state
        → (n < length (slice_index_or g.rows state []))
        × ((split : SplitData) × (split.state ≡ state) × IsSplit n g split) }
{}
