ghost use Rattle.std.specs.Prelude.{◌≡◌, ◌<◌, ◌≤◌, All, IfOk, IfSome, IfNone, length};
ghost use Rattle.label_graphs.specs.Cover.{KeepsSymbols};
ghost use Rattle.label_graphs.specs.Graph.{HasEdge, IsGraph};
ghost use Rattle.label_graphs.specs.Memory.{IsLeastReadBack};
ghost use Rattle.min_cover.specs.inside.Pairs.{pair_count, pair_step, IsOnCycle, HasCycle};
ghost use Rattle.min_cover.specs.inside.Finishing.{IsOrder};
ghost use Rattle.min_cover.specs.inside.Order.{AreSpanned, IsLeastBack};

use crate::finishing::Order;
use crate::longest::above_followers;
use crate::pairs::Pairs;
use label_graphs::TwoStates;
use least_walks::least_walk;
use std::alloc::Global;
use symbol_base::{ByteList, CoverName, Name, NoMemory};

/// The least two different states that read one word back to themselves, with the least such word,
/// where there are such states.
///
/// Only pairs at places that an arc spans can lie on a cycle, and so only these are searched from.
pub fn least_two_states(alloc: Global, pairs: &Pairs, order: &Order) -> Result<TwoStates, NoMemory>
    requires graph { IsGraph pairs.now.graph }
    requires symbols { KeepsSymbols pairs.now }
    requires order { IsOrder (pair_step pairs.now.graph) (pair_count pairs.now.graph)
        order.now.finished.items order.now.places.items order.now.cyclic }
    requires cycle { HasCycle (pair_step pairs.now.graph) (pair_count pairs.now.graph) }
    ensures { IfOk result (λ two.
        IsLeastReadBack (length pairs.now.graph) (HasEdge pairs.now.graph) two.first two.second two.word) }
{
    let spanned = spanned_places(alloc, pairs, order)?;
    for pair in 0..pairs.count() {
        let (first, second) = pairs.states(pair);
        if first < second {
            if let Some(word) = word_back(alloc, pairs, order, &spanned, pair)? {
                return Ok(TwoStates {
                    first: CoverName::at(first),
                    second: CoverName::at(second),
                    word,
                });
            }
        }
    }
    unreachable!()
}

/// A mark for each place of the order: whether an arc leads from there or a lower place to there or
/// a higher one.
fn spanned_places(alloc: Global, pairs: &Pairs, order: &Order) -> Result<Vec<bool>, NoMemory>
    requires order { IsOrder (pair_step pairs.now.graph) (pair_count pairs.now.graph)
        order.now.finished.items order.now.places.items order.now.cyclic }
    requires few { pair_count pairs.now.graph ≤ 65536 }
    ensures size { IfOk result (λ spanned. length spanned.items ≡ length order.now.finished.items) }
    ensures spanned { IfOk result (λ spanned. AreSpanned (pair_step pairs.now.graph)
        order.now.finished.items order.now.places.items spanned.items) }
{
    let mut spanned = Vec::with_capacity(alloc, order.finished.len())?;
    let mut end = 0;
    for place in 0..order.finished.len() {
        end = end.max(above_followers(pairs, &order.places, order.finished[place]));
        spanned.push(end > place)?;
    }
    Ok(spanned)
}

/// The least word that leads from the pair back to it, where some word does.
fn word_back(
    alloc: Global,
    pairs: &Pairs,
    order: &Order,
    spanned: &[bool],
    pair: usize,
) -> Result<Option<ByteList>, NoMemory>
    requires graph { IsGraph pairs.now.graph }
    requires symbols { KeepsSymbols pairs.now }
    requires order { IsOrder (pair_step pairs.now.graph) (pair_count pairs.now.graph)
        order.now.finished.items order.now.places.items order.now.cyclic }
    requires size { length spanned.now ≡ length order.now.finished.items }
    requires spanned { AreSpanned (pair_step pairs.now.graph)
        order.now.finished.items order.now.places.items spanned.now }
    requires pair { pair < pair_count pairs.now.graph }
    ensures least { IfOk result (λ word.
        IfSome word (IsLeastBack (pair_step pairs.now.graph) pair)) }
    ensures none { IfOk result (λ word.
        IfNone word (IsOnCycle (pair_step pairs.now.graph) pair → ⊥)) }
{
    if !spanned[order.places[pair]] {
        return Ok(None);
    }
    let mut goals = vec![in alloc; false; pairs.count()]?;
    goals[pair] = true;
    match least_walk(alloc, pairs, &goals, pair)? {
        Some(labels) => Ok(Some(bytes_of(alloc, &labels)?)),
        None => Ok(None),
    }
}

/// The labels of a walk, which are symbols, as bytes.
fn bytes_of(alloc: Global, labels: &[u32]) -> Result<ByteList, NoMemory>
    requires { All (λ label. label < 256) labels.now }
    ensures { IfOk result (λ bytes. bytes ≡ labels.now) }
{
    let mut bytes = Vec::with_capacity(alloc, labels.len())?;
    for label in labels {
        bytes.push(*label as u8)?;
    }
    Ok(ByteList::from_vec(bytes))
}
