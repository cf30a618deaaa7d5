ghost use Rattle.std.specs.Prelude.{◌≡◌, ◌<◌, ◌^◌, IfOk, length, map};
ghost use Rattle.label_graphs.specs.Kept.{marked_states};
ghost use Rattle.label_graphs.specs.Views.{edge_data};
ghost use Rattle.sink_part.specs.inside.Links.{AreLinks, AreMarkedTargets, link_to};

use label_graphs::{Edge, Graph, Weights};
use std::alloc::Global;
use symbol_base::{Block, CoverName, Name, NoMemory};

/// The links between states of positive weight: one edge where some edge leads from the one to the
/// other, whose block is the number of the state to which it leads.
///
/// A search along links takes no more steps than there are pairs of states, where the graph itself
/// may have many edges between two states.
pub fn links(
    alloc: Global,
    graph: &Graph<CoverName>,
    weights: &Weights,
) -> Result<Graph<CoverName>, NoMemory>
    requires { length weights.now ≡ length graph.now }
    ensures { IfOk result (λ links. AreLinks graph.now weights.now links) }
{
    let states = graph.states();
    let mut rows = Vec::with_capacity(alloc, states as usize)?;
    for state in 0..states {
        let targets = marked_targets(alloc, graph, weights, state)?;
        rows.push(links_to(alloc, &targets)?)?;
    }
    Ok(Graph::from_rows(rows))
}

/// Marks the states to which a link leads from this one.
fn marked_targets(
    alloc: Global,
    graph: &Graph<CoverName>,
    weights: &Weights,
    state: u32,
) -> Result<Vec<bool>, NoMemory>
    requires size { length weights.now ≡ length graph.now }
    requires inside { state < length graph.now }
    ensures { IfOk result (λ marks. AreMarkedTargets graph.now weights.now state marks.items) }
{
    let mut marks = vec![in alloc; false; graph.states() as usize]?;
    if weights.at(state) == 0 {
        return Ok(marks);
    }
    for edge in graph.row(CoverName::at(state)) {
        let to = edge.to.index();
        if weights.at(to) > 0 {
            marks[to as usize] = true;
        }
    }
    Ok(marks)
}

/// A link to each marked state.
fn links_to(alloc: Global, marks: &[bool]) -> Result<Vec<Edge<CoverName>>, NoMemory>
    requires { length marks.now < 2 ^ 32 }
    ensures { IfOk result (λ row.
        map (edge_data (λ name. name)) row.items ≡ map link_to (marked_states marks.now)) }
{
    let mut row = Vec::new(alloc);
    for (to, mark) in marks.iter().enumerate() {
        if *mark {
            row.push(Edge {
                block: Block { value: to as u64 },
                to: CoverName::at(to as u32),
            })?;
        }
    }
    Ok(row)
}
