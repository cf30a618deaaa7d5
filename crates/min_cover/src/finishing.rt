ghost use Rattle.std.specs.Prelude.{◌≡◌, ◌≢◌, ℕ, Option, [], ◌<◌, IfOk, length};
ghost use Rattle.min_cover.specs.declared.finishing.Mark.TheVariants as marks;
ghost use Rattle.min_cover.specs.inside.Pairs.{pair_count, pair_step};
ghost use Rattle.min_cover.specs.inside.Finishing.{search_data, joined, mark_at, reached_by, ended, IsSearch, KeepsKnown, weight, IsOrder};

use crate::pairs::Pairs;
use std::alloc::Global;
use symbol_base::NoMemory;

/// How far a search has come with a pair.
#[derive(Clone, Copy, Debug, Drop, PartialEq, Eq)]
enum Mark {
    /// It was not found yet.
    New,
    /// It is on the path in hand.
    OnPath,
    /// All that follows it is finished, but for what was on the path.
    Finished,
}

/// A pair on the path in hand, and the next symbol that is to be followed from it.
#[derive(Clone, Copy, Debug, Drop)]
struct Visit {
    pair: usize,
    next: u8,
}

/// A depth-first search of all pairs.
#[derive(Drop)]
struct Search {
    marks: Vec<Mark>,
    path: Vec<Visit>,
    finished: Vec<usize>,
    places: Vec<usize>,
    cyclic: bool,
}

/// The pairs in the order in which a depth-first search finishes them.
#[derive(Drop)]
pub struct Order {
    pub finished: Vec<usize>,
    /// The place of each pair in that order.
    pub places: Vec<usize>,
    /// Whether some pair lies on a cycle. Where none does, each arc leads to a lower place.
    pub cyclic: bool,
}

/// The order in which a depth-first search finishes the pairs (Tarjan, 1972).
///
/// Follows each arc once.
pub fn finishing_order(alloc: Global, pairs: &Pairs) -> Result<Order, NoMemory>
    ensures { IfOk result (λ order. IsOrder (pair_step pairs.now.graph) (pair_count pairs.now.graph)
        order.finished.items order.places.items order.cyclic) }
{
    let mut search = Search::new(alloc, pairs.count())?;
    for start in 0..pairs.count() {
        search.finish_all(pairs, start)?;
    }
    Ok(Order {
        finished: search.finished,
        places: search.places,
        cyclic: search.cyclic,
    })
}

impl Search {
    /// A search of so many pairs that has found none.
    fn new(alloc: Global, count: usize) -> Result<Search, NoMemory>
        ensures search { IfOk result (λ search.
            (step : ℕ → ℕ → Option ℕ) (width : ℕ)
            → IsSearch step count width 0 (search_data search)) }
        ensures path { IfOk result (λ search. search.path.items ≡ []) }
    {
        Ok(Search {
            marks: vec![in alloc; Mark::New; count]?,
            path: Vec::new(alloc),
            finished: Vec::new(alloc),
            places: vec![in alloc; 0; count]?,
            cyclic: false,
        })
    }

    /// Finishes the pair, and all that can be reached from it.
    fn finish_all(&mut self, pairs: &Pairs, start: usize) -> Result<(), NoMemory>
        requires start { start < pair_count pairs.now.graph }
        requires search { IsSearch (pair_step pairs.now.graph) (pair_count pairs.now.graph)
            pairs.now.alphabet 0 (search_data self.old) }
        requires path { self.old.path.items ≡ [] }
        ensures search { IfOk result (λ _.
            IsSearch (pair_step pairs.now.graph) (pair_count pairs.now.graph) pairs.now.alphabet 0 (search_data self.new)) }
        ensures path { IfOk result (λ _. self.new.path.items ≡ []) }
        ensures start { IfOk result (λ _. mark_at self.new.marks.items start ≢ marks.New) }
        ensures known { IfOk result (λ _.
            KeepsKnown (search_data self.old) (search_data self.new)) }
    {
        self.reach(start)?;
        while let Some(visit) = self.path.pop() {
            self.follow(pairs, visit)?;
        }
        Ok(())
    }

    /// Follows the next symbol of the last pair of the path, or finishes it where none is left.
    fn follow(&mut self, pairs: &Pairs, visit: Visit) -> Result<(), NoMemory>
        requires { IsSearch (pair_step pairs.now.graph) (pair_count pairs.now.graph)
            pairs.now.alphabet 0
            (joined (search_data self.old) visit) }
        ensures search { IfOk result (λ _.
            IsSearch (pair_step pairs.now.graph) (pair_count pairs.now.graph) pairs.now.alphabet 0 (search_data self.new)) }
        ensures known { IfOk result (λ _.
            KeepsKnown (search_data self.old) (search_data self.new)) }
        ensures falls { IfOk result (λ _. weight pairs.now.alphabet (search_data self.new)
            < weight pairs.now.alphabet (joined (search_data self.old) visit)) }
    {
        if visit.next == pairs.symbols() {
            return self.finish(visit.pair);
        }
        self.path.push(Visit {
            pair: visit.pair,
            next: visit.next + 1,
        })?;
        match pairs.after(visit.pair, visit.next) {
            Some(to) => self.reach(to),
            None => Ok(()),
        }
    }

    /// Comes to the pair from the last one of the path.
    fn reach(&mut self, pair: usize) -> Result<(), NoMemory>
        requires { pair < length self.old.marks.items }
        ensures { IfOk result (λ _. search_data self.new
            ≡ reached_by (mark_at self.old.marks.items pair) (search_data self.old) pair) }
    {
        match self.marks[pair] {
            Mark::New => {
                self.marks[pair] = Mark::OnPath;
                self.path.push(Visit { pair, next: 0 })?;
            }
            Mark::OnPath => self.cyclic = true,
            Mark::Finished => {}
        }
        Ok(())
    }

    /// Puts the pair behind those that are finished.
    fn finish(&mut self, pair: usize) -> Result<(), NoMemory>
        requires marks { pair < length self.old.marks.items }
        requires places { pair < length self.old.places.items }
        ensures { IfOk result (λ _. search_data self.new ≡ ended (search_data self.old) pair) }
    {
        self.marks[pair] = Mark::Finished;
        self.places[pair] = self.finished.len();
        self.finished.push(pair)?;
        Ok(())
    }
}
