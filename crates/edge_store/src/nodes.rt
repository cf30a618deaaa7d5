// The linked nodes of a list, each in a box of its own.
ghost use Rattle.std.specs.Prelude.{◌≡◌, ◌≢◌, ◌+◌, ◌<◌, List, [], ◌∷◌, ◌++◌, length, take, drop, slice_index_or, IfOk};
ghost use Rattle.edge_store.specs.inside.Links.{IsChained, Link, place_of};
ghost use Rattle.edge_store.specs.inside.Ownership.{nodes_lent, nodes_own};

use crate::node::{Node, Place};
use crate::raw_box::RawBox;
use std::alloc::Global;
use std::marker::Model;
use symbol_base::NoMemory;

// A chain of nodes. `head` leads to the first and `tail` to the last; with no node both dangle. It
// has no `Drop`, so the check sees to it that every chain is joined to another, taken apart or
// ended.
pub(crate) struct Nodes<T> {
    head: *mut Node<T>,
    tail: *mut Node<T>,
    ghost links: { List Link },
    ghost items: { List T },
    ghost paired: { length links ≡ length items },
    ghost chained: { ∥ IsChained head tail links ∥₁ },
}

impl<T> Model for Nodes<T> {
    ghost also_owns = { λ n. nodes_own T.row n.links n.items };

    ghost also_shares = { λ n _ κ. nodes_lent T.row n.links n.items κ };
}

impl<T> Nodes<T> {
    // The chain of no node.
    pub(crate) fn new() -> Nodes<T>
        ensures { result.items ≡ [] }
    {
        let none: [u8; 0] = [];
        let nowhere = (&raw const none as *const Node<T>).cast_mut();
        Nodes {
            head: nowhere,
            tail: nowhere,
        }
    }

    // The chain of one node.
    pub(crate) fn of(node: RawBox<Node<T>, Global>) -> Nodes<T>
        ensures { result.items ≡ node.value.item ∷ [] }
    {
        let RawBox { ptr, alloc: _ } = node;
        Nodes {
            head: ptr,
            tail: ptr,
        }
    }

    // The only node, out of its chain.
    pub(crate) fn into_only(self, alloc: Global) -> RawBox<Node<T>, Global>
        requires { length self.items ≡ 1 }
        ensures { self.items ≡ result.value.item ∷ [] }
    {
        let Nodes { head, tail: _ } = self;
        RawBox { ptr: head, alloc }
    }

    // Lets a chain of no node go. No other may be, so no node is lost.
    pub(crate) fn end(self)
        requires { self.items ≡ [] }
    {
        let Nodes { head: _, tail: _ } = self;
    }

    // Makes the first node a chain of its own.
    pub(crate) fn take_first(&mut self) -> Nodes<T>
        requires { self.old.items ≢ [] }
        ensures rest { self.new.items ≡ drop 1 self.old.items }
        ensures first { result.items ≡ take 1 self.old.items }
    {
        let first = self.head;
        self.head = unsafe { (*first).next.ptr };
        Nodes {
            head: first,
            tail: first,
        }
    }

    // Links the nodes of `other` in behind the last.
    pub(crate) fn join(&mut self, other: Nodes<T>)
        requires { (self.old.items ≢ []) × (other.items ≢ []) }
        ensures { self.new.items ≡ self.old.items ++ other.items }
    {
        let Nodes { head, tail } = other;
        unsafe {
            (*self.tail).next.ptr = head;
        }
        self.tail = tail;
    }

    // Where the first node lies, if there is one.
    pub(crate) fn head(&self) -> Place<T>
        ensures { self.now.items ≢ [] → result.ptr ≡ place_of self.now.links 0 }
    {
        Place { ptr: self.head }
    }

    // The node at `at`. Only the contract needs `i`, its index.
    pub(crate) fn node(&self, at: Place<T>, i: u32) -> &Node<T>
        requires { (i < length self.now.items) × (at.ptr ≡ place_of self.now.links i) }
        ensures item { result.now.item ≡ slice_index_or self.now.items i result.now.item }
        ensures next { i + 1 < length self.now.items
            → result.now.next.ptr ≡ place_of self.now.links (i + 1) }
    {
        unsafe { &*at.ptr }
    }

    // A copy of all items, of which there are `len`.
    pub(crate) fn copied(&self, len: u32, alloc: Global) -> Result<Vec<T>, NoMemory>
    where
        T: Copy,
        requires { len ≡ length self.now.items }
        ensures { IfOk result (λ v. v.items ≡ self.now.items) }
    {
        let mut items = Vec::new(alloc);
        let mut at = self.head();
        for i in 0..len {
            let node = self.node(at, i);
            items.push(node.item)?;
            at = node.next;
        }
        Ok(items)
    }
}
