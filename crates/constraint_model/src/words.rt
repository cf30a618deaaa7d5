ghost use Rattle.std.specs.Prelude.{◌≡◌, ◌+◌, ◌<◌, ◌^◌, ◌↔◌, IsTrue, Some, MatchOption};
ghost use Rattle.constraint_spec.specs.Constraint.{IsWordOf};
ghost use Rattle.constraint_spec.specs.Ranges.{IsConstraint};
ghost use Rattle.constraint_model.specs.RunLength.{run_length};
ghost use Rattle.constraint_model.specs.inside.Front.{IsExtended, IsLengthened};

use crate::constraint::Constraint;
use crate::forbidden::avoids;
use crate::walks::labels_walk;

/// The lengths of runs of 0s that a word may have.
#[derive(Clone, Copy)]
struct Limits {
    alphabet: u8,
    d: usize,
    most: usize,
}

/// The run of 0s that a word begins with, and how long it has to be where a 1 comes before it.
#[derive(Clone, Copy)]
struct Front {
    zeros: usize,
    least: usize,
}

/// Whether the word belongs to the constraint.
///
/// A word with a symbol outside the alphabet does not. The test takes no memory. It goes over the
/// word once for the symbols and the runs of 0s; where these are in order, once for each forbidden
/// word, which it compares at each place; and, where there is a graph, once more, over all edges
/// for each symbol (Marcus, Roth, Siegel, chapter 2: the subset construction).
pub fn has_word(constraint: &Constraint, word: &[u8]) -> bool
    ensures word { IsTrue result ↔ IsWordOf constraint.now word.now }
    ensures ranges { IsConstraint constraint.now }
{
    let limits = Limits {
        alphabet: constraint.alphabet,
        d: constraint.d as usize,
        most: longest_run(constraint.k),
    };
    keeps_runs(limits, word)
        && avoids(&constraint.forbid, word)
        && labels_walk(&constraint.edges, word)
}

/// The greatest length of a run of 0s: any that a word can have where there is no `k`.
fn longest_run(k: Option<u32>) -> usize
    ensures { MatchOption k (result ≡ usize.MAX) (λ k. result ≡ k) }
{
    match k {
        Some(k) => k as usize,
        None => usize::MAX,
    }
}

/// Whether the word is over the alphabet and each run of 0s has a length within the limits.
///
/// Reads the word from its end, so that a 1 is compared with the run behind it.
fn keeps_runs(limits: Limits, word: &[u8]) -> bool
    ensures { IsTrue result
        ↔ IsWordOf (run_length limits.alphabet limits.d (Some limits.most)) word.now }
{
    let mut front = Front { zeros: 0, least: 0 };
    for symbol in word.iter().rev() {
        match extend(limits, front, *symbol) {
            Some(longer) => front = longer,
            None => return false,
        }
    }
    true
}

/// The front of the word with one more symbol before it; none where that is no word.
///
/// The symbols of channel text are hard to predict, so it chooses values and does not branch on
/// them.
#[inline(always)]
fn extend(limits: Limits, front: Front, symbol: u8) -> Option<Front>
    requires { front.zeros + 1 < 2 ^ 64 }
    ensures { IsExtended limits front symbol result }
{
    let longer = lengthened(limits.d, front, symbol);
    let short = symbol == 1 && front.zeros < front.least;
    if short || longer.zeros > limits.most || symbol >= limits.alphabet {
        return None;
    }
    Some(longer)
}

#[inline(always)]
fn lengthened(d: usize, front: Front, symbol: u8) -> Front
    requires { front.zeros + 1 < 2 ^ 64 }
    ensures { IsLengthened d front symbol result }
{
    let kept = if symbol == 0 { front.least } else { 0 };
    Front {
        zeros: if symbol == 0 { front.zeros + 1 } else { 0 },
        least: if symbol == 1 { d } else { kept },
    }
}
