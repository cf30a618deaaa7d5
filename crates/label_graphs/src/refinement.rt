ghost use Rattle.std.specs.Prelude.{◌≡◌, ◌<◌, ◌^◌, All, IfOk, length, map, slice_index};
ghost use Rattle.label_graphs.specs.Refinement.{parents_of};

use std::alloc::Global;
use std::marker::{Model, PhantomData};
use symbol_base::{Name, NoMemory};

/// For each state of a finer graph its parent, the state of a coarser graph of which it is a part.
///
/// Names of type `F` stand for the fine states, and names of type `C` for the parents.
#[derive(Debug, Drop)]
pub struct Refinement<F: Name, C: Name> {
    parents: Vec<C>,
    fine: PhantomData<F>,
}

impl<F: Name, C: Name> Model for Refinement<F, C> {
    ghost use Rattle.std.specs.Prelude.{ℕ, ◌<◌, ◌^◌, List, length, map};

    ghost Value = { List ℕ };

    ghost view = { λ refinement. map (C.number) refinement.parents.items };

    ghost invariant = { λ refinement. length refinement.parents.items < 2 ^ 32 };
}

impl<F: Name, C: Name> Refinement<F, C> {
    /// The refinement with these parents, one for each fine state in order.
    pub fn from_parents(parents: Vec<C>) -> Refinement<F, C>
        requires { length parents.items < 2 ^ 32 }
        ensures { result ≡ map (C.number) parents.items }
    {
        Refinement {
            parents,
            fine: PhantomData,
        }
    }

    /// How many fine states there are.
    pub fn len(&self) -> u32
        ensures { result ≡ length self.now }
    {
        self.parents.len() as u32
    }

    /// The parent of a fine state.
    pub fn parent(&self, fine: F) -> C
        requires { F.number fine < length self.now }
        ensures { C.number result ≡ slice_index self.now (F.number fine) }
    {
        self.parents[fine.index() as usize]
    }
}

/// The refinement of the coarsest graph by the finest, where one graph is refined twice: the parent
/// of each fine state is the parent under `coarse` of its parent under `fine`.
///
/// What is composed keeps the edges, as both refinements do; but where both divide edges, the
/// composed one need not.
pub fn compose<A: Name, B: Name, C: Name>(
    alloc: Global,
    fine: &Refinement<A, B>,
    coarse: &Refinement<B, C>,
) -> Result<Refinement<A, C>, NoMemory>
    requires { All (λ parent. parent < length coarse.now) fine.now }
    ensures { IfOk result (λ composed. composed ≡ parents_of coarse.now fine.now) }
{
    let mut parents = Vec::with_capacity(alloc, fine.len() as usize)?;
    for state in 0..fine.len() {
        parents.push(coarse.parent(fine.parent(A::at(state))))?;
    }
    Ok(Refinement::from_parents(parents))
}
