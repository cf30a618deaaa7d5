ghost use Rattle.std.specs.Prelude.{◌≡◌, ℕ, List, ◌∷◌, ◌+◌, ◌<◌, length, get_or, IfOk, IfSome, IfNone};
ghost use Rattle.symbol_base.specs.Walk.{IsWalk};
ghost use Rattle.least_walks.specs.LeastWalk.{IsGoal, IsLeastWalk};
ghost use Rattle.least_walks.specs.inside.Found.{Searched, IsChain, IsTaken, KeepsFront, nothing, node_at, walk_to};

use crate::Arc;
use crate::implicit_graph::ImplicitGraph;
use std::alloc::Global;
use symbol_base::NoMemory;

/// A node that was found: from which found node, by which label.
#[derive(Clone, Copy, Debug, Drop)]
struct Found {
    node: usize,
    from: usize,
    label: u32,
}

/// The least labels, at least one, that lead from the start to a goal; none where none lead there.
///
/// Shorter ones come before longer ones, and of one length the smaller at the first difference.
/// Asks once for the arcs of each node that it finds, and keeps 24 bytes for each of them.
pub fn least_walk<G: ImplicitGraph>(
    alloc: Global,
    graph: &G,
    goals: &[bool],
    start: usize,
) -> Result<Option<Vec<u32>>, NoMemory>
    requires start { start < (G.graph graph.now).nodes }
    requires goals { length goals.now ≡ (G.graph graph.now).nodes }
    ensures least { IfOk result (λ answer. IfSome answer (λ labels.
        IsLeastWalk (G.graph graph.now) goals.now start labels.items)) }
    ensures none { IfOk result (λ answer. IfNone answer ((label : ℕ) (others : List ℕ) (v : ℕ)
        → IsWalk (G.graph graph.now).arc start (label ∷ others) v → IsGoal goals.now v → ⊥)) }
{
    let mut room = Vec::new(alloc);
    let mut marks = Vec::from_elem(alloc, false, graph.node_count())?;
    let mut found = Vec::new(alloc);
    found.push(Found {
        node: start,
        from: 0,
        label: 0,
    })?;
    take_arcs(graph, &mut room, 0, &mut marks, &mut found)?;
    let mut at = 1;
    while at < found.len() {
        if goals[found[at].node] {
            return Ok(Some(labels_to(alloc, &found, at)?));
        }
        take_arcs(graph, &mut room, at, &mut marks, &mut found)?;
        at += 1;
    }
    Ok(None)
}

/// Finds what the arcs of the node at this place lead to.
fn take_arcs<G: ImplicitGraph>(
    graph: &G,
    room: &mut Vec<Arc>,
    at: usize,
    marks: &mut [bool],
    found: &mut Vec<Found>,
) -> Result<(), NoMemory>
    requires at { at < length found.old.items }
    requires node { node_at found.old.items at < (G.graph graph.now).nodes }
    requires marks { length marks.old ≡ (G.graph graph.now).nodes }
    ensures marks { length marks.new ≡ length marks.old }
    ensures searched { IfOk result (λ _. (start : ℕ)
        → Searched (G.graph graph.now) start found.old.items marks.old at
        → Searched (G.graph graph.now) start found.new.items marks.new (at + 1)) }
    ensures front { IfOk result (λ _. KeepsFront found.old.items found.new.items) }
{
    graph.arcs_of(found[at].node, room)?;
    for k in 0..room.len() {
        take_arc(room[k], at, marks, found)?;
    }
    Ok(())
}

/// Finds what one arc of the node at this place leads to.
fn take_arc(arc: Arc, at: usize, marks: &mut [bool], found: &mut Vec<Found>) -> Result<(), NoMemory>
    requires inside { arc.to < length marks.old }
    ensures sized { length marks.new ≡ length marks.old }
    ensures taken { IfOk result (λ _.
        IsTaken arc at found.old.items marks.old found.new.items marks.new) }
{
    if marks[arc.to] {
        return Ok(());
    }
    marks[arc.to] = true;
    found.push(Found {
        node: arc.to,
        from: at,
        label: arc.label,
    })?;
    Ok(())
}

/// The labels that lead to the found node at this place.
fn labels_to(alloc: Global, found: &[Found], place: usize) -> Result<Vec<u32>, NoMemory>
    requires place { place < length found.now }
    requires back { (i : ℕ) → 0 < i → i < length found.now → (get_or found.now i nothing).from < i }
    ensures walk { IfOk result (λ labels. (walks : List (List ℕ)) → IsChain found.now walks
        → labels.items ≡ walk_to walks place) }
{
    let mut labels = Vec::new(alloc);
    let mut at = place;
    while at > 0 {
        labels.push(found[at].label)?;
        at = found[at].from;
    }
    labels.reverse();
    Ok(labels)
}
