//! A list whose nodes are linked in one direction.
ghost use Rattle.std.specs.Prelude.{◌≡◌, ◌≢◌, ◌+◌, ◌-◌, ◌^◌, ◌<◌, [], ◌∷◌, ◌++◌, length, take, drop, is_ok, not, if◌then◌else◌, IfOk, IfErr, MatchOption};
ghost use Rattle.edge_store.specs.Divide.{marked, unmarked};

use crate::node::Node;
use crate::nodes::Nodes;
use crate::raw_box::RawBox;
use std::alloc::Global;
use std::marker::Model;
use std::mem::replace;
use symbol_base::NoMemory;

/// A list that is divided and joined without memory. Contracts see it as the list of its items.
///
/// Its nodes are linked singly, and it knows the first and the last. `push_back`, `append` and
/// `pop_front` take the same time at any length, and `divide` moves no item.
pub struct RowList<T> {
    nodes: Nodes<T>,
    len: u32,
    alloc: Global,
}

impl<T> Model for RowList<T> {
    ghost use Rattle.std.specs.Prelude.{◌≡◌, List, length};

    ghost Value = { List T };

    ghost view = { λ l. l.nodes.items };

    ghost invariant = { λ l. l.len ≡ length l.nodes.items };
}

impl<T> RowList<T> {
    /// The empty list. It takes no memory, and its nodes will come from `alloc`.
    pub fn new(alloc: Global) -> RowList<T>
        ensures { result ≡ [] }
    {
        RowList {
            nodes: Nodes::new(),
            len: 0,
            alloc,
        }
    }

    // The list of one node.
    fn one(node: Nodes<T>, alloc: Global) -> RowList<T>
        requires { length node.items ≡ 1 }
        ensures { result ≡ node.items }
    {
        RowList {
            nodes: node,
            len: 1,
            alloc,
        }
    }

    /// The number of items.
    pub fn len(&self) -> u32
        ensures { result ≡ length self.now }
    {
        self.len
    }

    /// Puts an item behind the last. The error is want of memory: it hands the item back, and the
    /// list stays as it was.
    pub fn push_back(&mut self, item: T) -> Result<(), T>
    where
        T: Drop,
        requires { length self.old < 2 ^ 32 - 1 }
        ensures items { self.new ≡ (if is_ok result then self.old ++ item ∷ [] else self.old) }
        ensures count { length self.new
            ≡ (if is_ok result then length self.old + 1 else length self.old) }
        ensures returned { IfErr result (λ back. back ≡ item) }
    {
        // It will be the last node, so any place will do.
        let node = Node {
            next: self.nodes.head(),
            item,
        };
        match Box::new(self.alloc, node) {
            Ok(node) => {
                self.append(RowList::one(Nodes::of(RawBox::of(node)), self.alloc));
                Ok(())
            }
            Err(refused) => {
                let Node { next: _, item } = refused.value;
                Err(item)
            }
        }
    }

    /// Takes the first item out. `None` where the list is empty.
    pub fn pop_front(&mut self) -> Option<T>
        ensures { MatchOption result ((self.old ≡ []) × (self.new ≡ [])) (λ item.
            self.old ≡ item ∷ self.new) }
    {
        if self.len == 0 {
            return None;
        }
        self.len -= 1;
        let first = self.nodes.take_first().into_only(self.alloc);
        let Node { next: _, item } = Box::into_inner(first.into_box());
        Some(item)
    }

    /// Links all items of `other` behind the last, in order. It takes no memory.
    pub fn append(&mut self, other: RowList<T>)
        requires { length self.old + length other < 2 ^ 32 }
        ensures { self.new ≡ self.old ++ other }
    {
        let RowList {
            nodes,
            len,
            alloc: _,
        } = other;
        if len == 0 {
            return nodes.end();
        }
        if self.len == 0 {
            replace(&mut self.nodes, nodes).end();
        } else {
            self.nodes.join(nodes);
        }
        self.len += len;
    }

    // Moves the first node behind the last of `to`.
    fn pass_first(&mut self, to: &mut RowList<T>)
        requires { (self.old ≢ []) × (length to.old + 1 < 2 ^ 32) }
        ensures rest { self.new ≡ drop 1 self.old }
        ensures passed { to.new ≡ to.old ++ take 1 self.old }
    {
        self.len -= 1;
        to.append(RowList::one(self.nodes.take_first(), self.alloc));
    }

    // Moves the first node to the one list or the other, by its mark.
    fn deal_first(&mut self, mark: bool, kept: &mut RowList<T>, handed: &mut RowList<T>)
        requires { (self.old ≢ []) × (length kept.old + 1 < 2 ^ 32)
            × (length handed.old + 1 < 2 ^ 32) }
        ensures rest { self.new ≡ drop 1 self.old }
        ensures kept { kept.new ≡ (if not mark then kept.old ++ take 1 self.old else kept.old) }
        ensures handed { handed.new ≡ (if mark then handed.old ++ take 1 self.old else handed.old) }
    {
        if mark {
            self.pass_first(handed);
        } else {
            self.pass_first(kept);
        }
    }

    /// Divides the list by one mark for each item: those whose mark is false stay, and those whose
    /// mark is true are handed back, each in order. It relinks the nodes, and takes no memory.
    pub fn divide(&mut self, marks: &[bool]) -> RowList<T>
        requires { length marks.now ≡ length self.old }
        ensures kept { self.new ≡ unmarked marks.now self.old }
        ensures handed { result ≡ marked marks.now self.old }
    {
        let mut kept = RowList::new(self.alloc);
        let mut handed = RowList::new(self.alloc);
        for &mark in marks {
            self.deal_first(mark, &mut kept, &mut handed);
        }
        replace(self, kept).end();
        handed
    }

    // Ends a list of no item.
    fn end(self)
        requires { self ≡ [] }
    {
        let RowList {
            nodes,
            len: _,
            alloc: _,
        } = self;
        nodes.end();
    }

    /// A copy of all items, in order. The list stays as it is.
    pub fn copy_items(&self) -> Result<Vec<T>, NoMemory>
    where
        T: Copy,
        ensures { IfOk result (λ v. v.items ≡ self.now) }
    {
        self.nodes.copied(self.len, self.alloc)
    }
}

impl<T: Drop> Drop for RowList<T> {
    fn drop(mut self) {
        while let Some(item) = self.pop_front() {
            drop(item);
        }
        self.end();
    }
}
