ghost use Rattle.std.specs.Prelude.{◌≡◌, ℕ, ◌<◌, ◌≤◌, List};
ghost use Rattle.label_graphs.specs.Graph.{EdgeData};
ghost use Rattle.split_spec.specs.Run.{AgreeAt, IsLightestFirst, IsRun};

/// A row's edges stand in one way with those to the lightest targets first.
pub fn a_row_has_one_order()
    ensures { (x : List ℕ) (row one other : List EdgeData) → IsLightestFirst x row one
        → IsLightestFirst x row other
        → one ≡ other }
{}

/// A row has at most one run, which has one weight.
pub fn a_row_has_one_run()
    ensures { (n : ℕ) (x : List ℕ) (row run other : List EdgeData) (y z : ℕ) → IsRun n x row run y
        → IsRun n x row other z → (run ≡ other) × (y ≡ z) }
{}

/// Among the sums of the weights that the first 0 to n edges lead to two agree modulo n: of fewer
/// edges than n the sum of all stands for each longer one.
pub fn residues_repeat()
    ensures { (n : ℕ) (x : List ℕ) (edges : List EdgeData) → 1 ≤ n → (i j : ℕ) × (i < j) × (j ≤ n)
        × AgreeAt n x edges i j }
{}
