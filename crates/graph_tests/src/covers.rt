//! Covers that no run of the program prints: of constraints over three symbols, and of those that have no code.

ghost use Rattle.std.specs.Prelude.{◌≡◌};

use constraint_model::{Constraint, GraphEdge};
use label_graphs::Cover;
use min_cover::{CoverFault, cover};
use std::alloc::Global;
use std::process::Abort;
use symbol_base::{ByteList, CoverName, Name, NoMemory};

/// An edge of a cover: its state, its symbol and its target.
type CoverEdge = (u32, u64, u32);

fn edge(from: u32, label: u8, to: u32) -> GraphEdge
    ensures { result ≡ record { from = from; label = label; to = to } }
{
    GraphEdge { from, label, to }
}

/// The words that avoid 11 and 010.
fn avoiding(alloc: Global) -> Result<Constraint, NoMemory> {
    let pair = ByteList::copy(alloc, &[1, 1])?;
    let lone = ByteList::copy(alloc, &[0, 1, 0])?;
    Ok(Constraint {
        alphabet: 2,
        d: 0,
        k: None,
        forbid: vec![in alloc; pair, lone]?,
        states: 0,
        edges: Vec::new(alloc),
    })
}

/// The words of a graph of three states from which no 0s and 1s are balanced for ever.
fn three_levels(alloc: Global) -> Result<Constraint, NoMemory> {
    Ok(Constraint {
        alphabet: 2,
        d: 0,
        k: None,
        forbid: Vec::new(alloc),
        states: 3,
        edges: vec![in alloc; edge(0, 1, 1), edge(1, 0, 0), edge(1, 1, 2), edge(2, 0, 1)]?,
    })
}

/// A constraint that has all of the parts.
fn of_five_parts(alloc: Global) -> Result<Constraint, NoMemory> {
    let pair = ByteList::copy(alloc, &[1, 1])?;
    Ok(Constraint {
        alphabet: 2,
        d: 0,
        k: Some(3),
        forbid: vec![in alloc; pair]?,
        states: 1,
        edges: vec![in alloc; edge(0, 0, 0)]?,
    })
}

/// Runs of 0s over a greater alphabet.
fn runs_over_three(alloc: Global) -> Constraint {
    Constraint {
        alphabet: 3,
        d: 1,
        k: Some(2),
        forbid: Vec::new(alloc),
        states: 0,
        edges: Vec::new(alloc),
    }
}

/// The edges of the cover, by state and symbol.
fn edges_of(alloc: Global, cover: &Cover) -> Result<Vec<CoverEdge>, NoMemory> {
    let mut edges = Vec::new(alloc);
    for from in 0..cover.graph.states() {
        for edge in cover.graph.row(CoverName::at(from)) {
            edges.push((from, edge.block.value, edge.to.index()))?;
        }
    }
    Ok(edges)
}

/// Asserts that the constraint's cover has so many states, and these edges.
fn assert_cover(
    rt: &impl Abort,
    alloc: Global,
    constraint: &Constraint,
    states: u32,
    edges: &[CoverEdge],
) -> Result<(), CoverFault> {
    let cover = cover(alloc, constraint)?;
    assert!(rt; cover.alphabet == constraint.alphabet);
    assert!(rt; cover.graph.states() == states);
    let found = edges_of(alloc, &cover)?;
    assert!(rt; found.as_slice() == edges);
    Ok(())
}

#[test]
fn each_part_shapes_the_cover(rt: HostRuntime) -> Result<(), CoverFault> {
    let alloc = rt.alloc();
    let edges = [(0, 0, 1), (0, 1, 2), (1, 0, 1), (1, 1, 3), (2, 0, 1)];
    assert_cover(&rt, alloc, &avoiding(alloc)?, 4, &edges)?;

    let edges = [
        (0, 0, 1),
        (0, 1, 2),
        (1, 0, 3),
        (1, 1, 2),
        (2, 0, 1),
        (2, 1, 4),
        (3, 1, 5),
        (4, 0, 5),
        (5, 0, 3),
        (5, 1, 4),
    ];
    assert_cover(&rt, alloc, &three_levels(alloc)?, 6, &edges)?;

    assert_cover(
        &rt,
        alloc,
        &of_five_parts(alloc)?,
        4,
        &[(0, 0, 1), (1, 0, 2), (2, 0, 3)],
    )?;

    let edges = [
        (0, 0, 1),
        (0, 1, 2),
        (0, 2, 0),
        (1, 0, 3),
        (1, 1, 2),
        (1, 2, 0),
        (2, 0, 1),
        (2, 2, 0),
        (3, 1, 2),
        (3, 2, 0),
    ];
    assert_cover(&rt, alloc, &runs_over_three(alloc), 4, &edges)?;
    Ok(())
}
