ghost use Rattle.std.specs.Prelude.{ℕ, ◌+◌, ◌*◌, ◌<◌, ◌≤◌, ◌↔◌, length, get_or, IsTrue};
ghost use Rattle.std.specs.List.Sorted.{IsNonDecreasingBy};
ghost use Rattle.code_check.specs.declared.by_block.BlockWord.{BlockWord};
ghost use Rattle.least_walks.specs.NodeSet.{IsIn};
ghost use Rattle.code_check.specs.inside.ByBlock.{no_word};
ghost use Rattle.code_check.specs.inside.Meets.{AreMeant, Meets};

use crate::by_block::BlockWord;
use least_walks::{Arcs, NodeSet};
use symbol_base::Block;

/// Whether some words of two lists, each in the order of the blocks, write the same block and lead
/// into a set of pairs of states; of unlike words alone where these are meant.
///
/// Goes over both lists once, and stops at the first such words.
pub fn meet_in(
    first: &[BlockWord],
    second: &[BlockWord],
    arcs: Arcs,
    states: usize,
    pairs: &NodeSet,
) -> bool
    requires first { IsNonDecreasingBy (λ (item : BlockWord). item.block.value) first.now }
    requires second { IsNonDecreasingBy (λ (item : BlockWord). item.block.value) second.now }
    requires few { states ≤ 512 }
    requires first_inside { (i : ℕ) → i < length first.now
        → (get_or first.now i no_word).to < states }
    requires second_inside { (k : ℕ) → k < length second.now
        → (get_or second.now k no_word).to < states }
    requires room { states * states ≤ length pairs.now }
    ensures tells { IsTrue result ↔ ((i k : ℕ) × (i < length first.now) × (k < length second.now)
        × Meets arcs states pairs.now (get_or first.now i no_word) (get_or second.now k no_word)) }
{
    let mut from = 0;
    for item in first {
        from = first_not_before(second, from, item.block);
        if meets(*item, second, from, arcs, states, pairs) {
            return true;
        }
    }
    false
}

/// The first place, from this one on, whose block isn't smaller.
fn first_not_before(list: &[BlockWord], from: usize, block: Block) -> usize
    requires from { from ≤ length list.now }
    ensures later { from ≤ result }
    ensures inside { result ≤ length list.now }
    ensures front { (k : ℕ) → from ≤ k → k < result
        → (get_or list.now k no_word).block.value < block.value }
    ensures back { result < length list.now
        → block.value ≤ (get_or list.now result no_word).block.value }
{
    let mut at = from;
    while at < list.len() && list[at].block.value < block.value {
        at += 1;
    }
    at
}

/// Whether the word and one of the list, from this place on, write the same block and lead into the
/// set.
fn meets(
    item: BlockWord,
    list: &[BlockWord],
    from: usize,
    arcs: Arcs,
    states: usize,
    pairs: &NodeSet,
) -> bool
    requires from { from ≤ length list.now }
    requires rise { IsNonDecreasingBy (λ (item : BlockWord). item.block.value) list.now }
    requires front { (k : ℕ) → k < from
        → (get_or list.now k no_word).block.value < item.block.value }
    requires back { from < length list.now
        → item.block.value ≤ (get_or list.now from no_word).block.value }
    requires few { states ≤ 512 }
    requires inside { item.to < states }
    requires list_inside { (k : ℕ) → k < length list.now → (get_or list.now k no_word).to < states }
    requires room { states * states ≤ length pairs.now }
    ensures tells { IsTrue result
        ↔ ((k : ℕ) × (k < length list.now)
        × Meets arcs states pairs.now item (get_or list.now k no_word)) }
{
    for at in from..list.len() {
        let other = list[at];
        if other.block.value != item.block.value {
            return false;
        }
        if leads(item, other, arcs, states, pairs) {
            return true;
        }
    }
    false
}

/// Whether the words are meant and lead into the set.
#[inline]
fn leads(item: BlockWord, other: BlockWord, arcs: Arcs, states: usize, pairs: &NodeSet) -> bool
    requires few { states ≤ 512 }
    requires item { item.to < states }
    requires other { other.to < states }
    requires room { states * states ≤ length pairs.now }
    ensures leads { IsTrue result
        ↔ (AreMeant arcs item.word other.word × IsIn pairs.now (item.to * states + other.to)) }
{
    let meant = match arcs {
        Arcs::All => true,
        Arcs::Unlike => item.word != other.word,
    };
    meant && pairs.contains(item.to as usize * states + other.to as usize)
}
