//! What a word of a constraint is: the definitions that every crate above cites, and their laws.
#![tactic(auto)]

ghost use Rattle.std.specs.Prelude.{◌≡◌, ℕ, true, List, [], ◌∷◌, ◌++◌, ◌↔◌, ◌⊎◌, IsTrue};
ghost use Rattle.constraint_spec.specs.declared.GraphEdge.{GraphEdge};
ghost use Rattle.constraint_spec.specs.Word.{IsFactor};
ghost use Rattle.constraint_spec.specs.Walk.{LabelsWalk, PassesStates};
ghost use Rattle.constraint_spec.specs.Constraint.{ConstraintData, IsWordOf};
ghost use Rattle.constraint_spec.specs.Ranges.{IsConstraint, IsEdgeBefore, edge_before};
ghost use Rattle.constraint_spec.specs.RawState.{RawState, IsRawStateOf, MayFollow};
ghost use Rattle.constraint_spec.specs.RawStateOf.{raw_state, next_raw_state, may_follow};

/// An edge of a constraint's graph: from a state, with a label that is one symbol, to a state.
#[derive(Clone, Copy, Debug, PartialEq, Eq, PartialOrd, Ord, Hash)]
pub struct GraphEdge {
    pub from: u32,
    pub label: u8,
    pub to: u32,
}

impl GraphEdge {
    /// The edge comes before the other: by state, then by label, then by target.
    pub fn comes_before(self, other: GraphEdge) -> bool
        ensures test { result ≡ edge_before self other }
        ensures order { IsTrue result ↔ IsEdgeBefore self other }
    {
        self < other
    }
}

/// The order of edges is strict, and of two edges that differ one comes before the other.
pub fn edges_are_ordered()
    ensures strict { (e : GraphEdge) → IsEdgeBefore e e → ⊥ }
    ensures onward { (e f g : GraphEdge) → IsEdgeBefore e f → IsEdgeBefore f g → IsEdgeBefore e g }
    ensures total { (e f : GraphEdge) → IsEdgeBefore e f ⊎ ((e ≡ f) ⊎ IsEdgeBefore f e) }
{}

/// A part of a word of a constraint is a word of it.
pub fn factor_is_word()
    ensures { (c : ConstraintData) (v w : List ℕ) → IsWordOf c w → IsFactor v w → IsWordOf c v }
{}

/// The empty word is a word of every constraint.
pub fn empty_is_word()
    ensures { (c : ConstraintData) → IsConstraint c → IsWordOf c [] }
{}

/// A word labels a walk of a graph exactly where there is a list of states that a walk with its
/// symbols passes.
pub fn walks_pass_states()
    ensures { (edges : List GraphEdge) (word : List ℕ)
        → LabelsWalk edges word ↔ ((states : List ℕ) × PassesStates edges word states) }
{}

/// A word has one raw state, which is the value that goes on from symbol to symbol.
pub fn raw_state_of_a_word()
    ensures parts { (c : ConstraintData) (w : List ℕ) → IsConstraint c
        → IsRawStateOf c w (raw_state c w) }
    ensures single { (c : ConstraintData) (w : List ℕ) (raw other : RawState)
        → IsRawStateOf c w raw → IsRawStateOf c w other → raw ≡ other }
{}

/// The raw state of a word with one more symbol follows from that of the word and the symbol.
pub fn raw_state_goes_on()
    ensures { (c : ConstraintData) (w : List ℕ) (symbol : ℕ)
        → raw_state c (w ++ symbol ∷ []) ≡ next_raw_state c (raw_state c w) symbol }
{}

/// A word with one more symbol is a word exactly where the word is one and its raw state lets the
/// symbol follow.
pub fn raw_state_tells_what_follows()
    ensures { (c : ConstraintData) (w : List ℕ) (symbol : ℕ) → IsConstraint c
        → IsWordOf c (w ++ symbol ∷ []) ↔ (IsWordOf c w × MayFollow c (raw_state c w) symbol) }
{}

/// The test of what may follow a raw state tells it.
pub fn what_may_follow_is_tested()
    ensures { (c : ConstraintData) (raw : RawState) (symbol : ℕ) → IsConstraint c
        → (may_follow c raw symbol ≡ true) ↔ MayFollow c raw symbol }
{}
