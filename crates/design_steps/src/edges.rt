ghost use Rattle.std.specs.Prelude.{◌≡◌, ◌≤◌};
ghost use Rattle.label_graphs.specs.Power.{edge_count};

use label_graphs::Graph;
use symbol_base::{CoverName, Name};

/// How many edges the power of a cover has.
pub fn count_edges(power: &Graph<CoverName>) -> u64
    requires { edge_count power.now ≤ 262144 }
    ensures { result ≡ edge_count power.now }
{
    let mut count = 0;
    for state in 0..power.states() {
        count += power.row(CoverName::at(state)).len() as u64;
    }
    count
}
