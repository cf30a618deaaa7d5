ghost use Rattle.std.specs.Prelude.{◌≡◌, ◌*◌, ◌/◌, ◌%◌, ◌<◌, length, map, IfOk, IfSome, IfNone};
ghost use Rattle.code_spec.specs.Checked.{Separates};
ghost use Rattle.code_spec.specs.Witness.{IsLeastAmbiguous};
ghost use Rattle.code_check.specs.inside.PairGraph.{first_walk, second_walk};

use crate::Walk;
use crate::pairs::Pairs;
use code_model::Code;
use least_walks::least_unlike_walk;
use std::alloc::Global;
use symbol_base::{CodeName, Name, NoMemory, WordList};

/// The least ambiguous pair of walks of a code, or none exactly where its window tells the words.
///
/// Two walks of past + 1 + ahead data words are ambiguous where they write the same blocks, and
/// their words at place `past` differ. Pairs stand in order by the first walk's state, by the
/// second's, and then by their words pair by pair.
///
/// Keeps a bit for each pair of states and each of past + 1 + ahead lengths. For a length it goes
/// once over the words of each pair of states that such walks can come to, in the order of their
/// blocks.
pub fn least_ambiguous_pair(alloc: Global, code: &Code) -> Result<Option<(Walk, Walk)>, NoMemory>
    ensures least { IfOk result (λ answer. IfSome answer (λ pair.
        IsLeastAmbiguous code.now code.now.past code.now.ahead pair.0 pair.1)) }
    ensures none { IfOk result (λ answer.
        IfNone answer (Separates code.now code.now.past code.now.ahead)) }
{
    match least_walk_of_pairs(alloc, code)? {
        Some((node, labels)) => Ok(Some(pair_of(alloc, code, node, &labels)?)),
        None => Ok(None),
    }
}

/// The least ambiguous pair as a walk of the graph of pairs.
fn least_walk_of_pairs(alloc: Global, code: &Code) -> Result<Option<(usize, Vec<u32>)>, NoMemory>
    ensures inside { IfOk result (λ answer. IfSome answer (λ found.
        found.0 < length code.now.rows * length code.now.rows)) }
    ensures least { IfOk result (λ answer.
        IfSome answer (λ found. IsLeastAmbiguous code.now code.now.past code.now.ahead
        (first_walk code.now found.0 found.1.items) (second_walk code.now found.0 found.1.items))) }
    ensures none { IfOk result (λ answer.
        IfNone answer (Separates code.now code.now.past code.now.ahead)) }
{
    let pairs = Pairs::of(alloc, code)?;
    least_unlike_walk(alloc, &pairs, code.past, code.ahead)
}

/// The two walks of a walk in the graph of pairs.
fn pair_of(
    alloc: Global,
    code: &Code,
    node: usize,
    labels: &[u32],
) -> Result<(Walk, Walk), NoMemory>
    requires node { node < length code.now.rows * length code.now.rows }
    ensures first { IfOk result (λ pair. pair.0 ≡ first_walk code.now node labels.now) }
    ensures second { IfOk result (λ pair. pair.1 ≡ second_walk code.now node labels.now) }
{
    let states = code.state_count() as usize;
    let (first, second) = words_of(alloc, labels, code.word_count())?;
    let first = Walk {
        state: CodeName::at((node / states) as u32),
        words: WordList::copy(alloc, &first)?,
    };
    let second = Walk {
        state: CodeName::at((node % states) as u32),
        words: WordList::copy(alloc, &second)?,
    };
    Ok((first, second))
}

/// The first words and the second words of labels.
fn words_of(alloc: Global, labels: &[u32], words: u32) -> Result<(Vec<u32>, Vec<u32>), NoMemory>
    requires some { 0 < words }
    ensures first { IfOk result (λ pair. pair.0.items ≡ map (λ label. label / words) labels.now) }
    ensures second { IfOk result (λ pair. pair.1.items ≡ map (λ label. label % words) labels.now) }
{
    let mut first = Vec::new(alloc);
    let mut second = Vec::new(alloc);
    for label in labels {
        first.push(*label / words)?;
        second.push(*label % words)?;
    }
    Ok((first, second))
}
