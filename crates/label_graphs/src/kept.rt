ghost use Rattle.std.specs.Prelude.{◌≡◌, ◌<◌, ◌≤◌, ◌^◌, All, IfOk, length, map};
ghost use Rattle.label_graphs.specs.Graph.{IsGraph};
ghost use Rattle.label_graphs.specs.Kept.{IsKept, marked_states};
ghost use Rattle.label_graphs.specs.Power.{edge_count};
ghost use Rattle.label_graphs.specs.Views.{edge_data};
ghost use Rattle.label_graphs.specs.inside.Numbers.{AreRanks, is_marked, renumbered};

use crate::graph::{Edge, Graph};
use std::alloc::Global;
use symbol_base::{Name, NoMemory};

/// The marked states in ascending order, with new numbers from 0, and the edges among them.
///
/// There is a mark for each state. It takes time in proportion to the states and the edges.
pub fn keep<N: Name>(alloc: Global, graph: &Graph<N>, marks: &[bool]) -> Result<Graph<N>, NoMemory>
    requires { length marks.now ≡ length graph.now }
    ensures kept { IfOk result (λ kept. IsKept graph.now marks.now kept) }
    ensures graph { IfOk result (λ kept. IsGraph kept) }
    ensures fewer { IfOk result (λ kept. edge_count kept ≤ edge_count graph.now) }
{
    let count = graph.states();
    let numbers = new_numbers(alloc, marks)?;
    let mut rows = Vec::new(alloc);
    for state in 0..count {
        if marks[state as usize] {
            let row = kept_edges(alloc, graph.row(N::at(state)), marks, &numbers)?;
            rows.push(row)?;
        }
    }
    Ok(Graph::from_rows(rows))
}

/// The names of the marked states, in ascending order.
pub fn marked_names<N: Name>(alloc: Global, marks: &[bool]) -> Result<Vec<N>, NoMemory>
    requires { length marks.now < 2 ^ 32 }
    ensures { IfOk result (λ names. map (N.number) names.items ≡ marked_states marks.now) }
{
    let mut names = Vec::new(alloc);
    for (state, mark) in marks.iter().enumerate() {
        if *mark {
            names.push(N::at(state as u32))?;
        }
    }
    Ok(names)
}

/// The new number of each state: how many states below it are marked.
fn new_numbers(alloc: Global, marks: &[bool]) -> Result<Vec<u32>, NoMemory>
    requires { length marks.now < 2 ^ 32 }
    ensures { IfOk result (λ numbers.
        AreRanks (is_marked marks.now) (length marks.now) numbers.items) }
{
    let mut numbers = Vec::with_capacity(alloc, marks.len())?;
    let mut next = 0;
    for mark in marks {
        numbers.push(next)?;
        if *mark {
            next += 1;
        }
    }
    Ok(numbers)
}

/// The edges that lead to marked states, with their new numbers.
fn kept_edges<N: Name>(
    alloc: Global,
    edges: &[Edge<N>],
    marks: &[bool],
    numbers: &[u32],
) -> Result<Vec<Edge<N>>, NoMemory>
    requires inside { All (λ edge. N.number edge.to < length marks.now) edges.now }
    requires numbers { AreRanks (is_marked marks.now) (length marks.now) numbers.now }
    ensures { IfOk result (λ kept. map (edge_data (N.number)) kept.items
        ≡ renumbered (is_marked marks.now) (map (edge_data (N.number)) edges.now)) }
{
    let mut kept = Vec::new(alloc);
    for edge in edges {
        let to = edge.to.index() as usize;
        if marks[to] {
            kept.push(Edge {
                block: edge.block,
                to: N::at(numbers[to]),
            })?;
        }
    }
    Ok(kept)
}
