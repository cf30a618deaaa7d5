//! A constraint with all of its parts.

use constraint_model::{Constraint, GraphEdge, has_word};
use symbol_base::{ByteList, NoMemory};

#[test]
fn a_copy_has_all_parts(rt: HostRuntime) -> Result<(), NoMemory> {
    let alloc = rt.alloc();
    let short = ByteList::copy(alloc, &[2])?;
    let long = ByteList::copy(alloc, &[0, 1, 0])?;
    let there = GraphEdge {
        from: 0,
        label: 1,
        to: 1,
    };
    let back = GraphEdge {
        from: 1,
        label: 0,
        to: 0,
    };
    let constraint = Constraint {
        alphabet: 3,
        d: 1,
        k: Some(7),
        forbid: vec![in alloc; short, long]?,
        states: 2,
        edges: vec![in alloc; there, back]?,
    };
    let copy = constraint.copy(alloc)?;
    assert!(rt; copy.alphabet == 3 && copy.d == 1 && copy.k == Some(7) && copy.states == 2);
    assert!(rt; copy.forbid == constraint.forbid && copy.edges == constraint.edges);
    assert!(rt; copy.forbid.len() == 2 && copy.edges.len() == 2);
    assert!(rt; has_word(&copy, &[1, 0, 1]) && !has_word(&copy, &[0, 1, 0]));
    Ok(())
}
