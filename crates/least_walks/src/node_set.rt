ghost use Rattle.std.specs.Prelude.{◌≡◌, ℕ, ◌<◌, ◌≤◌, ◌↔◌, length, slice_set, IsTrue, IfOk};
ghost use Rattle.least_walks.specs.NodeSet.{IsIn};

use std::alloc::Global;
use std::marker::Model;
use symbol_base::{NoMemory, bit_at, set_bit};

/// A set of nodes of a graph, with one bit of memory for each node.
#[derive(Debug, Drop)]
pub struct NodeSet {
    bytes: Vec<u8>,
}

impl Model for NodeSet {
    ghost use Rattle.std.specs.Prelude.{List, ℕ};
    ghost use Rattle.symbol_base.specs.Bits.{bits};

    ghost Value = { List ℕ };

    ghost view = { λ set. bits set.bytes.items };
}

impl NodeSet {
    /// The empty set, with room for so many nodes.
    pub fn none(alloc: Global, nodes: usize) -> Result<NodeSet, NoMemory>
        ensures none { IfOk result (λ set. (node : ℕ) → IsIn set node → ⊥) }
        ensures room { IfOk result (λ set. nodes ≤ length set) }
    {
        Ok(NodeSet {
            bytes: Vec::from_elem(alloc, 0, nodes / 8 + 1)?,
        })
    }

    /// A set of the same nodes.
    pub fn copy(&self, alloc: Global) -> Result<NodeSet, NoMemory>
        ensures same { IfOk result (λ copy. copy ≡ self.now) }
    {
        Ok(NodeSet {
            bytes: Vec::from_slice(alloc, &self.bytes)?,
        })
    }

    /// Whether the node is in the set.
    #[inline]
    pub fn contains(&self, node: usize) -> bool
        requires room { node < length self.now }
        ensures tells { IsTrue result ↔ IsIn self.now node }
    {
        bit_at(&self.bytes, node as u64)
    }

    /// Puts the node into the set.
    #[inline]
    pub fn insert(&mut self, node: usize)
        requires room { node < length self.old }
        ensures more { self.new ≡ slice_set self.old node 1 }
    {
        set_bit(&mut self.bytes, node as u64, true);
    }

    /// The first node of the set from this one on, below the end; where there is none, a number
    /// that isn't below it.
    ///
    /// Passes over eight nodes at once where none of them is in the set.
    pub fn first_from(&self, from: usize, end: usize) -> usize
        requires room { end ≤ length self.now }
        ensures skipped { (node : ℕ) → from ≤ node → node < result → IsIn self.now node → ⊥ }
        ensures is { result < end → IsIn self.now result }
        ensures later { from ≤ result }
    {
        let mut at = from;
        while at < end {
            if self.bytes[at / 8] == 0 {
                at = at.saturating_add(8 - at % 8);
            } else if self.contains(at) {
                return at;
            } else {
                at += 1;
            }
        }
        at
    }

    /// Whether no node is in the set.
    pub fn is_empty(&self) -> bool
        ensures none { IsTrue result ↔ ((node : ℕ) → IsIn self.now node → ⊥) }
    {
        for byte in &self.bytes {
            if *byte != 0 {
                return false;
            }
        }
        true
    }

    /// Whether the set has the nodes of the other one, and room for as many.
    pub fn is_same(&self, other: &NodeSet) -> bool
        ensures same { IsTrue result ↔ (self.now ≡ other.now) }
    {
        let bytes: &[u8] = &self.bytes;
        let others: &[u8] = &other.bytes;
        bytes == others
    }
}
