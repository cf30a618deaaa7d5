ghost use Rattle.std.specs.Prelude.{◌≤◌, IfErr, IfOk, length};
ghost use Rattle.label_graphs.specs.Graph.{HasEdge};
ghost use Rattle.label_graphs.specs.Memory.{IsMemory};
ghost use Rattle.min_cover.specs.MemoryFault.{IsMemoryFault};

use crate::cycles::least_two_states;
use crate::fault::MemoryFault;
use crate::finishing::finishing_order;
use crate::longest::memory_of_pairs;
use crate::pairs::Pairs;
use label_graphs::Cover;
use std::alloc::Global;

/// How long a memory may be.
const LONGEST_MEMORY: u32 = 256;

/// The memory of a cover: the least number N such that all walks with one label word of N symbols
/// end in one state (Marcus, Roth, Siegel, chapter 2: the memory of a graph).
///
/// Two walks with one word that don't end in one state pass pairs of different states, and where
/// they can go on for ever, some pair is passed again. For S states and A symbols there are S^2
/// pairs with at most A arcs each. A depth-first search follows each arc once, and the longest walk
/// or the places that may lie on a cycle are found in one pass more; so the time is in proportion
/// to S^2 A. Where the memory isn't finite a breadth-first search is added for each such place up
/// to the first pair that reaches itself, in most covers for one alone.
pub fn memory(alloc: Global, cover: &Cover) -> Result<u32, MemoryFault>
    ensures memory { IfOk result (IsMemory (length cover.now.graph) (HasEdge cover.now.graph)) }
    ensures short { IfOk result (λ n. n ≤ 256) }
    ensures fault { IfErr result (IsMemoryFault cover.now.graph) }
{
    let pairs = Pairs::of(cover);
    let order = finishing_order(alloc, &pairs)?;
    if order.cyclic {
        let two = least_two_states(alloc, &pairs, &order)?;
        return Err(MemoryFault::Infinite(two));
    }
    let memory = memory_of_pairs(alloc, &pairs, &order)?;
    if memory > LONGEST_MEMORY {
        return Err(MemoryFault::TooLong(memory));
    }
    Ok(memory)
}
