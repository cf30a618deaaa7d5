ghost use Rattle.std.specs.Prelude.{◌≡◌, ◌+◌, ◌-◌, ◌^◌, ◌≤◌, ◌<◌, IfSome};
ghost use Rattle.text_reading.specs.Reading.{Gives};
ghost use Rattle.code_tables.specs.inside.Reading.{graph_at, edge_follows, edge_fields_at, edge_at, edges_at};
ghost use Rattle.code_tables.specs.inside.ReadLines.{GivesLines};

use crate::fault::CodeTextFault;
use constraint_model::GraphEdge;
use std::alloc::Global;
use text_reading::{field, literal};

/// The line of the graph: how many states and edges it has.
#[tactic(auto, unfolding(crate::specs::inside::Reading::graph_at, text_reading::specs::Reading::behind, text_reading::specs::Reading::both))]
pub fn graph_line(bytes: &[u8]) -> Option<(u32, u64, &[u8])>
    ensures read { Gives (λ x. ((x.0, x.1), x.2.now)) result (graph_at bytes.now) }
    ensures range { IfSome result (λ x. (x.0 ≤ 256) × (x.1 ≤ 2048) × (1 ≤ x.1 → 1 ≤ x.0)) }
{
    let rest = literal(bytes, b"graph ")?;
    let (states, rest) = field(rest, b' ', 0, 256)?;
    let (least, most) = if states == 0 { (0, 0) } else { (1, 2048) };
    let (edges, rest) = field(rest, b'\n', least, most)?;
    Some((states as u32, edges, rest))
}

fn edge_follows(before: Option<GraphEdge>, edge: &GraphEdge) -> bool
    ensures { result ≡ edge_follows before edge.now }
{
    match before {
        Some(before) => before.comes_before(*edge),
        None => true,
    }
}

/// An edge between states of the graph, which comes behind the one before.
#[tactic(auto, unfolding(crate::specs::inside::Reading::edge_at, crate::specs::inside::Reading::edge_fields_at, text_reading::specs::Reading::both))]
fn edge_line(bytes: &[u8], states: u32, before: Option<GraphEdge>) -> Option<(GraphEdge, &[u8])>
    requires some { 1 ≤ states }
    requires few { states ≤ 256 }
    ensures { Gives (λ x. (x.0, x.1.now)) result (edge_at states before bytes.now) }
{
    let last = u64::from(states) - 1;
    let (from, rest) = field(bytes, b' ', 0, last)?;
    let (label, rest) = field(rest, b' ', 0, 1)?;
    let (to, rest) = field(rest, b'\n', 0, last)?;
    let edge = GraphEdge {
        from: from as u32,
        label: label as u8,
        to: to as u32,
    };
    if edge_follows(before, &edge) {
        Some((edge, rest))
    } else {
        None
    }
}

/// The edges of the graph, the first in this line.
pub fn read_edges(
    alloc: Global,
    bytes: &[u8],
    states: u32,
    count: u64,
    first: u64,
) -> Result<(Vec<GraphEdge>, &[u8]), CodeTextFault>
    requires some { 1 ≤ count → 1 ≤ states }
    requires few { states ≤ 256 }
    requires many { count ≤ 2048 }
    requires first { first ≤ 2 ^ 16 }
    ensures { GivesLines (λ x. (x.0.items, x.1.now)) result
        (edges_at states count first bytes.now) }
{
    let mut edges = Vec::with_capacity(alloc, count as usize)?;
    let mut rest = bytes;
    let mut before = None;
    let mut line = first;
    for place in 0..count {
        let Some((edge, after)) = edge_line(rest, states, before) else {
            return Err(CodeTextFault::BadCode(line));
        };
        edges.push(edge)?;
        before = Some(edge);
        rest = after;
        line += 1;
    }
    Ok((edges, rest))
}
