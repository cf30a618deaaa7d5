ghost use Rattle.std.specs.Prelude.{ℕ, List, IfOk, IfSome, IfNone};
ghost use Rattle.constraint_spec.specs.Constraint.{IsWordOf};
ghost use Rattle.label_graphs.specs.Cover.{IsCoverOf};
ghost use Rattle.code_spec.specs.Code.{IsDataWords};
ghost use Rattle.code_spec.specs.Checked.{WritesWord};
ghost use Rattle.code_spec.specs.Witness.{IsLeastOutside};

use crate::reads::Reads;
use code_model::Code;
use label_graphs::Cover;
use least_walks::least_walk;
use std::alloc::Global;
use symbol_base::{NoMemory, WordList};

/// The least data words that write no word of the code's constraint from state 0; none exactly
/// where all write one.
///
/// Shorter lists come before longer ones, and of one length the smaller at the first difference.
/// The cover is that of the constraint. Searches the pairs of a state of the code and one of the
/// cover breadth first: it takes time in proportion to the pairs that data words lead to times the
/// data words, and memory in proportion to the pairs.
pub fn least_words_outside(
    alloc: Global,
    code: &Code,
    cover: &Cover,
) -> Result<Option<WordList>, NoMemory>
    requires cover { IsCoverOf (IsWordOf code.now.constraint) cover.now.graph }
    ensures least { IfOk result (λ answer. IfSome answer (λ words. IsLeastOutside code.now words)) }
    ensures none { IfOk result (λ answer.
        IfNone answer ((words : List ℕ) → IsDataWords code.now words
        → WritesWord code.now words)) }
{
    let reads = Reads::of(alloc, code, &cover.graph)?;
    let outside = reads.outside(alloc)?;
    match least_walk(alloc, &reads, &outside, 0)? {
        Some(words) => Ok(Some(WordList::copy(alloc, &words)?)),
        None => Ok(None),
    }
}
