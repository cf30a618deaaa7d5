ghost use Rattle.std.specs.Prelude.{◌≡◌, ◌≤◌, IfSome, IfOk};
ghost use Rattle.constraint_spec.specs.Ranges.{IsConstraint};
ghost use Rattle.constraint_model.specs.RunLength.{run_length};

use constraint_spec::GraphEdge;
use std::alloc::Global;
use std::marker::Model;
use symbol_base::{ByteList, NoMemory};

/// A constraint on words of symbols: the parts that a word of it has to satisfy.
///
/// Its forbidden words stand ascending, shorter ones first and then smaller ones, its edges by
/// state, label and target, and neither with repeats.
#[derive(Debug, Drop)]
pub struct Constraint {
    /// How many symbols there are, 2 to 4: a word is written in 0 to `alphabet` - 1.
    pub alphabet: u8,
    /// The least number of 0s between two 1s with nothing but 0s between them, 0 to 100.
    pub d: u32,
    /// The greatest number of successive 0s, `d` to 100; any where there is none.
    pub k: Option<u32>,
    /// The words, at most 128 of 1 to 32 symbols, that are part of no word.
    pub forbid: Vec<ByteList>,
    /// How many states the graph has, at most 256; 0 exactly where there is no graph.
    pub states: u32,
    /// The graph, at most 2,048 edges: each word labels some walk, wherever that begins.
    pub edges: Vec<GraphEdge>,
}

impl Model for Constraint {
    ghost use Rattle.constraint_spec.specs.Constraint.{ConstraintData};

    ghost Value = { ConstraintData };

    ghost use Rattle.constraint_model.specs.Data.{constraint_data, KeepsRanges};

    ghost view = { constraint_data };

    ghost invariant = { KeepsRanges };
}

impl Constraint {
    /// The constraint of runs of 0s alone, on the symbols 0 and 1: at least `d` 0s between two
    /// successive 1s, and nowhere more than `k` where that is given (Marcus, Roth, Siegel,
    /// chapter 1: the (d, k)-RLL constraint).
    pub fn run_length(alloc: Global, d: u32, k: Option<u32>) -> Constraint
        requires least { d ≤ 100 }
        requires most { IfSome k (λ k. (d ≤ k) × (k ≤ 100)) }
        ensures exactly { result ≡ run_length 2 d k }
        ensures ranges { IsConstraint result }
    {
        Constraint {
            alphabet: 2,
            d,
            k,
            forbid: Vec::new(alloc),
            states: 0,
            edges: Vec::new(alloc),
        }
    }

    /// An equal constraint, whose lists own their memory.
    pub fn copy(&self, alloc: Global) -> Result<Constraint, NoMemory>
        ensures { IfOk result (λ copy. copy ≡ self.now) }
    {
        Ok(Constraint {
            alphabet: self.alphabet,
            d: self.d,
            k: self.k,
            forbid: copy_of_lists(alloc, &self.forbid)?,
            states: self.states,
            edges: Vec::from_slice(alloc, &self.edges)?,
        })
    }
}

fn copy_of_lists(alloc: Global, lists: &[ByteList]) -> Result<Vec<ByteList>, NoMemory>
    ensures { IfOk result (λ copies. copies.items ≡ lists.now) }
{
    let mut copies = Vec::with_capacity(alloc, lists.len())?;
    for list in lists {
        copies.push(ByteList::copy(alloc, list.as_slice())?)?;
    }
    Ok(copies)
}
