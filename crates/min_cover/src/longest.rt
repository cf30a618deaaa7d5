ghost use Rattle.std.specs.Prelude.{◌≡◌, ℕ, ◌<◌, ◌≤◌, ◌^◌, false, IfOk, length};
ghost use Rattle.label_graphs.specs.Cover.{KeepsSymbols};
ghost use Rattle.label_graphs.specs.Graph.{HasEdge, IsGraph};
ghost use Rattle.label_graphs.specs.Memory.{IsMemory};
ghost use Rattle.min_cover.specs.inside.Pairs.{pair_count, pair_step};
ghost use Rattle.min_cover.specs.inside.Finishing.{number_at, IsOrder};
ghost use Rattle.min_cover.specs.inside.Order.{IsAbove, IsLongest};

use crate::finishing::Order;
use crate::pairs::Pairs;
use std::alloc::Global;
use symbol_base::NoMemory;

/// One more than the greatest value of the pairs to which symbols lead; 0 where none leads.
pub fn above_followers(pairs: &Pairs, values: &[usize], pair: usize) -> usize
    requires pair { pair < pair_count pairs.now.graph }
    requires values { length values.now ≡ pair_count pairs.now.graph }
    requires small { (q : ℕ) → number_at values.now q < 2 ^ 32 }
    ensures { IsAbove (pair_step pairs.now.graph) values.now pair result }
{
    let mut above = 0;
    for symbol in 0..pairs.symbols() {
        if let Some(to) = pairs.after(pair, symbol) {
            above = above.max(values[to] + 1);
        }
    }
    above
}

/// How many symbols the longest walk from each pair has, where there are no cycles.
fn longest_walks(alloc: Global, pairs: &Pairs, order: &Order) -> Result<Vec<usize>, NoMemory>
    requires graph { IsGraph pairs.now.graph }
    requires order { IsOrder (pair_step pairs.now.graph) (pair_count pairs.now.graph)
        order.now.finished.items order.now.places.items false }
    requires few { pair_count pairs.now.graph ≤ 65536 }
    ensures size { IfOk result (λ longest. length longest.items ≡ pair_count pairs.now.graph) }
    ensures small { IfOk result (λ longest. (pair : ℕ) → number_at longest.items pair ≤ 65536) }
    ensures longest { IfOk result (λ longest. (pair : ℕ) → pair < pair_count pairs.now.graph
        → IsLongest (pair_step pairs.now.graph) pair (number_at longest.items pair)) }
{
    let mut longest = vec![in alloc; 0; pairs.count()]?;
    for place in 0..order.finished.len() {
        let pair = order.finished[place];
        longest[pair] = above_followers(pairs, &longest, pair);
    }
    Ok(longest)
}

/// One more than the longest walk of pairs, each of two different states, where there are no
/// cycles; 0 where no two states differ.
pub fn memory_of_pairs(alloc: Global, pairs: &Pairs, order: &Order) -> Result<u32, NoMemory>
    requires graph { IsGraph pairs.now.graph }
    requires symbols { KeepsSymbols pairs.now }
    requires order { IsOrder (pair_step pairs.now.graph) (pair_count pairs.now.graph)
        order.now.finished.items order.now.places.items false }
    ensures { IfOk result (IsMemory (length pairs.now.graph) (HasEdge pairs.now.graph)) }
{
    let longest = longest_walks(alloc, pairs, order)?;
    let mut memory = 0;
    for pair in 0..pairs.count() {
        let (first, second) = pairs.states(pair);
        if first != second {
            memory = memory.max(longest[pair] + 1);
        }
    }
    Ok(memory as u32)
}
