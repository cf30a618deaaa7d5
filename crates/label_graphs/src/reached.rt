ghost use Rattle.std.specs.Prelude.{◌<◌, All, IfOk, length, map};
ghost use Rattle.label_graphs.specs.Reach.{MarkReached};
ghost use Rattle.label_graphs.specs.Views.{edge_data};
ghost use Rattle.label_graphs.specs.inside.Found.{IsTaken, AreTaken, targets};

use crate::graph::{Edge, Graph};
use std::alloc::Global;
use symbol_base::{Name, NoMemory};

/// Marks the states that a walk from `from` ends in, which is one of them by the walk of no edges.
///
/// Searches breadth first, in time proportional to the states and the edges.
pub fn reach<N: Name>(alloc: Global, graph: &Graph<N>, from: N) -> Result<Vec<bool>, NoMemory>
    requires { N.number from < length graph.now }
    ensures { IfOk result (λ marks. MarkReached graph.now (N.number from) marks.items) }
{
    let mut marks = vec![in alloc; false; graph.states() as usize]?;
    let mut found = Vec::new(alloc);
    mark(from, &mut marks, &mut found)?;
    let mut at = 0;
    while at < found.len() {
        mark_targets(graph.row(found[at]), &mut marks, &mut found)?;
        at += 1;
    }
    Ok(marks)
}

/// Marks the states to which the edges lead.
fn mark_targets<N: Name>(
    edges: &[Edge<N>],
    marks: &mut [bool],
    found: &mut Vec<N>,
) -> Result<(), NoMemory>
    requires { All (λ edge. N.number edge.to < length marks.old) edges.now }
    ensures { IfOk result (λ _. AreTaken (targets (map (edge_data (N.number)) edges.now))
        marks.old (map (N.number) found.old.items) marks.new (map (N.number) found.new.items)) }
{
    for edge in edges {
        mark(edge.to, marks, found)?;
    }
    Ok(())
}

/// Marks a state, and adds it to the found ones where it was not marked.
fn mark<N: Name>(state: N, marks: &mut [bool], found: &mut Vec<N>) -> Result<(), NoMemory>
    requires { N.number state < length marks.old }
    ensures { IfOk result (λ _. IsTaken (N.number state)
        marks.old (map (N.number) found.old.items) marks.new (map (N.number) found.new.items)) }
{
    let place = state.index() as usize;
    if !marks[place] {
        marks[place] = true;
        found.push(state)?;
    }
    Ok(())
}
