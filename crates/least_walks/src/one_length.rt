ghost use Rattle.std.specs.Prelude.{ℕ, List, ◌+◌, ◌^◌, ◌<◌, ◌↔◌, length, get_or, IsTrue, IfOk, IfSome, IfNone};
ghost use Rattle.least_walks.specs.Graph.{AreArcsOf, no_arc};
ghost use Rattle.least_walks.specs.UnlikeWalk.{IsUnlikeWalk, IsLeastUnlikeWalk};
ghost use Rattle.least_walks.specs.inside.Layers.{HasUnlikeWalk, IsLeastFrom, IsLeastOfAll, AreLayers, IsLayer, IsUsable, IsFirstUsable};

use crate::Arc;
use crate::layers::{first_start, layers_to};
use crate::node_set::NodeSet;
use crate::pair_graph::PairGraph;
use std::alloc::Global;
use symbol_base::NoMemory;

/// The least walk with `past` labels before one that stands for two unlike words, and `ahead`
/// labels behind it; none where there is no such walk. It begins at the first node that has one,
/// and of those from that node it is the smallest at the first difference.
///
/// Goes from the end of the walks to their start, and keeps for each length the nodes from which a
/// walk of it begins: a bit for each of `past + 1 + ahead` lengths and each node. For a length it
/// asks at most once a node where its arcs lead, and for the lengths up to `ahead` alone the nodes
/// that the length before has left over.
pub fn least_unlike_walk<G: PairGraph>(
    alloc: Global,
    graph: &G,
    past: u32,
    ahead: u32,
) -> Result<Option<(usize, Vec<u32>)>, NoMemory>
    ensures least { IfOk result (λ answer. IfSome answer (λ found.
        IsLeastUnlikeWalk (G.graph graph.now) (G.words graph.now) past ahead found.0 found.1.items)) }
    ensures none { IfOk result (λ answer.
        IfNone answer ((v : ℕ) (labels : List ℕ) → v < (G.graph graph.now).nodes
        → IsUnlikeWalk (G.graph graph.now) (G.words graph.now) past ahead v labels → ⊥)) }
{
    least_of_length(alloc, graph, ahead as usize, past as usize + ahead as usize)
}

/// The least walk of `last` arcs and one, from the first node that has one, whose label with
/// `ahead` labels behind it has unlike words.
fn least_of_length<G: PairGraph>(
    alloc: Global,
    graph: &G,
    ahead: usize,
    last: usize,
) -> Result<Option<(usize, Vec<u32>)>, NoMemory>
    requires last { last < 2 ^ 34 }
    ensures least { IfOk result (λ answer. IfSome answer (λ found.
        IsLeastOfAll (G.graph graph.now) (G.words graph.now) ahead (last + 1) found.0 found.1.items)) }
    ensures none { IfOk result (λ answer. IfNone answer ((v : ℕ) → v < (G.graph graph.now).nodes
        → HasUnlikeWalk (G.graph graph.now) (G.words graph.now) ahead (last + 1) v → ⊥)) }
{
    let layers = layers_to(alloc, graph, ahead, last)?;
    match first_start(graph, ahead, last, &layers[last]) {
        Some(start) => Ok(Some((start, choose(alloc, graph, ahead, &layers, start)?))),
        None => Ok(None),
    }
}

/// The least walk from the node, one arc longer than the walks of the last layer.
fn choose<G: PairGraph>(
    alloc: Global,
    graph: &G,
    ahead: usize,
    layers: &[NodeSet],
    start: usize,
) -> Result<Vec<u32>, NoMemory>
    requires layers { AreLayers (G.graph graph.now) (G.words graph.now) ahead (length layers.now)
        layers.now }
    requires start { start < (G.graph graph.now).nodes }
    requires begins { HasUnlikeWalk (G.graph graph.now) (G.words graph.now) ahead
        (length layers.now) start }
    ensures least { IfOk result (λ labels.
        IsLeastFrom (G.graph graph.now) (G.words graph.now) ahead (length layers.now) start labels.items) }
{
    let mut room = Vec::new(alloc);
    let mut labels = Vec::new(alloc);
    let mut at = start;
    for done in 0..layers.len() {
        let left = layers.len() - 1 - done;
        let arc = next_arc(graph, &mut room, at, ahead, left, &layers[left])?;
        labels.push(arc.label)?;
        at = arc.to;
    }
    Ok(labels)
}

/// The first arc of the least walk with `left` arcs behind it, where one begins at the node.
fn next_arc<G: PairGraph>(
    graph: &G,
    room: &mut Vec<Arc>,
    at: usize,
    ahead: usize,
    left: usize,
    layer: &NodeSet,
) -> Result<Arc, NoMemory>
    requires layer { IsLayer (G.graph graph.now) (G.words graph.now) ahead left layer.now }
    requires at { at < (G.graph graph.now).nodes }
    requires begins { HasUnlikeWalk (G.graph graph.now) (G.words graph.now) ahead (left + 1) at }
    ensures first { IfOk result (λ arc.
        IsFirstUsable (G.words graph.now) ahead left layer.now room.new.items arc) }
    ensures arcs { IfOk result (λ _. AreArcsOf (G.graph graph.now) at room.new.items) }
{
    graph.arcs_of(at, room)?;
    match first_arc(room, graph.word_count(), ahead, left, layer) {
        Some(arc) => Ok(arc),
        None => unreachable!(),
    }
}

/// The first of the arcs with which a walk can begin.
fn first_arc(arcs: &[Arc], words: u32, ahead: usize, left: usize, layer: &NodeSet) -> Option<Arc>
    requires inside { (k : ℕ) → k < length arcs.now
        → (get_or arcs.now k no_arc).to < length layer.now }
    requires words { 0 < words }
    ensures some { IfSome result (λ arc. IsFirstUsable words ahead left layer.now arcs.now arc) }
    ensures none { IfNone result
        ((m : ℕ) → m < length arcs.now
        → IsUsable words ahead left layer.now (get_or arcs.now m no_arc) → ⊥) }
{
    for k in 0..arcs.len() {
        let arc = arcs[k];
        if is_usable(arc, words, ahead, left, layer) {
            return Some(arc);
        }
    }
    None
}

/// Whether a walk can begin with this arc, with `left` arcs behind it.
fn is_usable(arc: Arc, words: u32, ahead: usize, left: usize, layer: &NodeSet) -> bool
    requires inside { arc.to < length layer.now }
    requires words { 0 < words }
    ensures usable { IsTrue result ↔ IsUsable words ahead left layer.now arc }
{
    layer.contains(arc.to) && (left != ahead || arc.label / words != arc.label % words)
}
