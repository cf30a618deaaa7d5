//! Sinks of a graph with two of them, by the weights that choose one.

ghost use Rattle.std.specs.Prelude.{◌≡◌, ◌<◌, ◌≤◌, ◌^◌, IfOk, slice_index};
ghost use Rattle.label_graphs.specs.Power.{edge_count};

use label_graphs::{Edge, Graph, Weights};
use sink_part::{SinkGraph, sink, spread};
use std::alloc::Global;
use std::process::Abort;
use symbol_base::{Block, CoverName, Name, NoMemory, SplitName};

fn edge<N: Name>(block: u64, to: u32) -> Edge<N>
    ensures { result ≡ record { block = record { value = block }; to = N.named to } }
{
    Edge {
        block: Block { value: block },
        to: N::at(to),
    }
}

/// From state 0 edges lead to a cycle of 1 and 2 and to one of 3 and 4, and from both back to 0 by
/// 5.
fn two_cycles(alloc: Global) -> Result<Graph<CoverName>, NoMemory> {
    let root = vec![in alloc; edge(0, 1), edge(1, 3)]?;
    let one = vec![in alloc; edge(0, 2), edge(1, 2)]?;
    let two = vec![in alloc; edge(0, 1), edge(1, 5)]?;
    let three = vec![in alloc; edge(0, 4)]?;
    let four = vec![in alloc; edge(1, 3), edge(2, 4), edge(3, 5)]?;
    let back = vec![in alloc; edge(0, 0)]?;
    Ok(Graph::from_rows(vec![in alloc; root, one, two, three, four, back]?))
}

fn assert_edges(
    rt: &impl Abort,
    alloc: Global,
    graph: &Graph<SplitName>,
    expected: &[(u32, u64, u32)],
) -> Result<(), NoMemory> {
    let mut edges = Vec::new(alloc);
    for from in 0..graph.states() {
        for edge in graph.row(SplitName::at(from)) {
            edges.push((from, edge.block.value, edge.to.index()))?;
        }
    }
    assert!(rt; edges.as_slice() == expected);
    Ok(())
}

fn assert_states(rt: &impl Abort, part: &SinkGraph, expected: &[(u32, u32)]) {
    assert!(rt; part.parents.len() as usize == expected.len());
    assert!(rt; part.weights.len() as usize == expected.len());
    for (state, (parent, weight)) in expected.iter().enumerate() {
        let state = state as u32;
        assert!(rt; part.parents.parent(SplitName::at(state)).index() == *parent);
        assert!(rt; part.weights.at(state) == *weight);
    }
}

/// Of weights that are above 0 at state 1: the states of the sink with their weights, and its
/// edges.
fn assert_sink(
    rt: &impl Abort,
    alloc: Global,
    weights: &[u32; 6],
    states: &[(u32, u32)],
    edges: &[(u32, u64, u32)],
) -> Result<(), NoMemory>
    requires { 0 < slice_index weights.now 1 }
{
    let graph = two_cycles(alloc)?;
    assert!(rt; graph.states() == 6);
    let weights = Weights::from_list(Vec::from_array(alloc, *weights)?);
    let part = sink(alloc, &graph, &weights, 0)?;
    assert_states(rt, &part, states);
    assert_edges(rt, alloc, &part.graph, edges)?;
    Ok(())
}

#[test]
fn the_sink_of_the_least_weight_is_taken(rt: HostRuntime) -> Result<(), NoMemory> {
    let alloc = rt.alloc();
    let first = [(0, 0, 1), (0, 1, 1), (1, 0, 0)];
    let second = [(0, 0, 1), (1, 1, 0), (1, 2, 1)];
    assert_sink(&rt, alloc, &[9, 1, 1, 2, 1, 0], &[(1, 1), (2, 1)], &first)?;
    assert_sink(&rt, alloc, &[1, 1, 3, 2, 1, 0], &[(3, 2), (4, 1)], &second)?;
    // of equal weights that of the least state
    assert_sink(&rt, alloc, &[1, 1, 2, 2, 1, 0], &[(1, 1), (2, 2)], &first)?;
    // a state whose targets all weigh nothing
    assert_sink(&rt, alloc, &[0, 2, 0, 2, 1, 0], &[(1, 2)], &[])
}

#[test]
fn all_states_are_one_sink_where_none_weighs_nothing(rt: HostRuntime) -> Result<(), NoMemory> {
    let alloc = rt.alloc();
    let states = [(0, 9), (1, 1), (2, 1), (3, 1), (4, 1), (5, 3)];
    let all = [
        (0, 0, 1),
        (0, 1, 3),
        (1, 0, 2),
        (1, 1, 2),
        (2, 0, 1),
        (2, 1, 5),
        (3, 0, 4),
        (4, 1, 3),
        (4, 2, 4),
        (4, 3, 5),
        (5, 0, 0),
    ];
    assert_sink(&rt, alloc, &[9, 1, 1, 1, 1, 3], &states, &all)?;
    Ok(())
}

/// From state 0 two edges lead to 1 and one leads back to 0; state 1 leads to 0.
fn loop_and_cycle(alloc: Global) -> Result<Graph<SplitName>, NoMemory>
    ensures { IfOk result (λ graph. edge_count graph ≤ 2 ^ 31) }
{
    let zero = vec![in alloc; edge(0, 0), edge(1, 1), edge(2, 1)]?;
    let one = vec![in alloc; edge(5, 0)]?;
    Ok(Graph::from_rows(vec![in alloc; zero, one]?))
}

#[test]
fn the_spread_adds_up_the_weights_of_all_targets(rt: HostRuntime) -> Result<(), NoMemory> {
    let alloc = rt.alloc();
    let graph = loop_and_cycle(alloc)?;
    assert!(rt; graph.states() == 2);
    let weights = Weights::from_list(vec![in alloc; 3, u32::MAX]?);
    assert!(rt; spread(&graph, &weights) == 8_589_934_596);
    Ok(())
}
