ghost use Rattle.std.specs.Prelude.{◌≡◌, ℕ, ◌+◌, ◌<◌, ◌≤◌, ◌↔◌, length, IfOk, IfSome, IfNone};
ghost use Rattle.least_walks.specs.UnlikeWalk.{HasUnlikeWords};
ghost use Rattle.least_walks.specs.PairGraph.{IsMeant};
ghost use Rattle.least_walks.specs.inside.Layers.{HasUnlikeWalk, IsLayer, AreLayers, IsPreceding};

use crate::node_set::NodeSet;
use crate::pair_graph::{Arcs, PairGraph};
use std::alloc::Global;
use symbol_base::NoMemory;

/// The layers of the lengths 0 to `last`: of each node that an arc leads to, whether a walk of that
/// length begins there, whose label with `ahead` labels behind it has unlike words.
pub fn layers_to<G: PairGraph>(
    alloc: Global,
    graph: &G,
    ahead: usize,
    last: usize,
) -> Result<Vec<NodeSet>, NoMemory>
    ensures layers { IfOk result (λ layers.
        AreLayers (G.graph graph.now) (G.words graph.now) ahead (last + 1) layers.items) }
{
    let mut layers = Vec::new(alloc);
    layers.push(graph.targets(alloc)?)?;
    for left in 0..last {
        let layer = next_layer(alloc, graph, ahead, left, &layers)?;
        layers.push(layer)?;
    }
    Ok(layers)
}

/// The layer of one arc more than the last of these.
///
/// The front of a walk is a walk of the layers without a condition, so that only the nodes of the
/// last such layer are looked at; and none are where the last two of them are the same.
fn next_layer<G: PairGraph>(
    alloc: Global,
    graph: &G,
    ahead: usize,
    left: usize,
    layers: &[NodeSet],
) -> Result<NodeSet, NoMemory>
    requires layers { AreLayers (G.graph graph.now) (G.words graph.now) ahead (left + 1)
        layers.now }
    ensures layer { IfOk result (IsLayer (G.graph graph.now) (G.words graph.now) ahead (left + 1)) }
{
    let layer = &layers[left];
    if left >= ahead {
        let candidates = &layers[ahead];
        return preceding(alloc, graph, arcs_before(ahead, left), candidates, layer);
    }
    if left > 0 && layer.is_same(&layers[left - 1]) {
        return layer.copy(alloc);
    }
    preceding(alloc, graph, Arcs::All, layer, layer)
}

/// Which arcs may stand before walks of `left` arcs: the label with `ahead` labels behind it has
/// unlike words.
fn arcs_before(ahead: usize, left: usize) -> Arcs
    ensures meant { (words label : ℕ)
        → IsMeant result words label ↔ (left ≡ ahead → HasUnlikeWords words label) }
{
    if left == ahead {
        Arcs::Unlike
    } else {
        Arcs::All
    }
}

/// The candidates from which some of the arcs that are meant leads into the layer.
fn preceding<G: PairGraph>(
    alloc: Global,
    graph: &G,
    arcs: Arcs,
    candidates: &NodeSet,
    layer: &NodeSet,
) -> Result<NodeSet, NoMemory>
    requires candidates { (G.graph graph.now).nodes ≤ length candidates.now }
    requires room { (G.graph graph.now).nodes ≤ length layer.now }
    ensures found { IfOk result
        (IsPreceding (G.graph graph.now) (G.words graph.now) arcs candidates.now layer.now
        (G.graph graph.now).nodes) }
{
    let count = graph.node_count();
    let mut found = NodeSet::none(alloc, count)?;
    if layer.is_empty() {
        return Ok(found);
    }
    let mut node = candidates.first_from(0, count);
    while node < count {
        if graph.leads_into(node, arcs, layer) {
            found.insert(node);
        }
        node = candidates.first_from(node + 1, count);
    }
    Ok(found)
}

/// The first node from which a walk with one arc more than those of the layer begins.
pub fn first_start<G: PairGraph>(
    graph: &G,
    ahead: usize,
    last: usize,
    layer: &NodeSet,
) -> Option<usize>
    requires layer { IsLayer (G.graph graph.now) (G.words graph.now) ahead last layer.now }
    ensures inside { IfSome result (λ start. start < (G.graph graph.now).nodes) }
    ensures walk { IfSome result
        (HasUnlikeWalk (G.graph graph.now) (G.words graph.now) ahead (last + 1)) }
    ensures first { IfSome result (λ start. (v : ℕ) → v < start
        → HasUnlikeWalk (G.graph graph.now) (G.words graph.now) ahead (last + 1) v → ⊥) }
    ensures none { IfNone result ((v : ℕ) → v < (G.graph graph.now).nodes
        → HasUnlikeWalk (G.graph graph.now) (G.words graph.now) ahead (last + 1) v → ⊥) }
{
    if layer.is_empty() {
        return None;
    }
    let arcs = arcs_before(ahead, last);
    for node in 0..graph.node_count() {
        if graph.leads_into(node, arcs, layer) {
            return Some(node);
        }
    }
    None
}
