ghost use Rattle.std.specs.Prelude.{◌≡◌, IfErr, IfOk};
ghost use Rattle.constraint_spec.specs.Constraint.{IsWordOf};
ghost use Rattle.label_graphs.specs.Cover.{IsCoverOf};
ghost use Rattle.label_graphs.specs.Views.{rows_data};
ghost use Rattle.min_cover.specs.CoverFault.{IsCoverFault};
ghost use Rattle.min_cover.specs.StateCounts.{HaveRawStates};
ghost use Rattle.min_cover.specs.inside.Found.{IsSearchFault};
ghost use Rattle.min_cover.specs.inside.Rows.{AreRowsOfCover};

use crate::fault::CoverFault;
use crate::refine::refine;
use crate::rows::graph_of_classes;
use crate::search::explore;
use constraint_model::Constraint;
use label_graphs::{Cover, Edge, Graph};
use std::alloc::Global;
use symbol_base::CoverName;

/// How many states a cover may have.
const MOST_COVER_STATES: usize = 256;

/// The cover of a constraint: the deterministic graph with the fewest states that reads its words
/// from state 0, in which a lower number is reached by a lesser word (Marcus, Roth, Siegel, chapter
/// 2: minimal deterministic presentation).
///
/// Searches the raw states of words breadth first, at most 4,096, and then refines classes of them
/// (Moore's algorithm). For R raw states, A symbols, F symbols of forbidden words and E edges that
/// is time in proportion to R A (F + E), and to R A for each round of refinement, of which there
/// are no more than states of the cover.
pub fn cover(alloc: Global, constraint: &Constraint) -> Result<Cover, CoverFault>
    ensures cover { IfOk result (λ cover. IsCoverOf (IsWordOf constraint.now) cover.graph) }
    ensures alphabet { IfOk result (λ cover. cover.alphabet ≡ constraint.now.alphabet) }
    ensures few { IfOk result (λ _. HaveRawStates constraint.now 4097 → ⊥) }
    ensures fault { IfErr result (IsCoverFault constraint.now) }
{
    let rows = minimal_rows(alloc, constraint)?;
    if rows.len() > MOST_COVER_STATES {
        return Err(CoverFault::CoverStates(rows.len() as u32));
    }
    Ok(Cover {
        graph: Graph::from_rows(rows),
        alphabet: constraint.alphabet,
    })
}

/// The rows of the cover, however many they are.
fn minimal_rows(
    alloc: Global,
    constraint: &Constraint,
) -> Result<Vec<Vec<Edge<CoverName>>>, CoverFault>
    ensures rows { IfOk result (λ rows.
        AreRowsOfCover constraint.now (rows_data (λ name. name) rows.items)) }
    ensures fault { IfErr result (IsSearchFault constraint.now) }
{
    let rows = explore(alloc, constraint)?;
    let classes = refine(alloc, &rows)?;
    Ok(graph_of_classes(alloc, &rows, &classes)?)
}
