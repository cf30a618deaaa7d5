ghost use Rattle.std.specs.Prelude.{◌≡◌, IfOk, bytes_eq};
ghost use Rattle.indexmap.specs.IndexSet.{insert_key};
ghost use Rattle.constraint_file_spec.specs.Refusals.{state_names, too_many_edges};
ghost use Rattle.constraint_files.specs.inside.Steps.{Checks};

use constraint_file_spec::{ConstraintFault, Key, ListedEdge};
use indexmap::IndexSet;
use std::alloc::Global;
use symbol_base::{ByteList, NoMemory};

/// The most names of states that a file may mention.
const MOST_NAMES: usize = 256;

/// The names of the states in order of first mention, `from` before `to`: a state's number is the
/// place of its name. Refuses more edges than a constraint may have, counted as they are listed,
/// and more names.
pub fn number_states(
    alloc: Global,
    edges: &[ListedEdge],
) -> Result<IndexSet<ByteList>, ConstraintFault>
    ensures names { IfOk result (λ names. names.keys ≡ state_names edges.now) }
    ensures refusal { Checks result (too_many_edges edges.now) }
{
    if edges.len() > Key::Edges.most() as usize {
        return Err(ConstraintFault::TooMany(Key::Edges));
    }
    let names = state_names(alloc, edges)?;
    if names.len() > MOST_NAMES {
        return Err(ConstraintFault::TooMany(Key::Edges));
    }
    Ok(names)
}

fn state_names(alloc: Global, edges: &[ListedEdge]) -> Result<IndexSet<ByteList>, NoMemory>
    ensures { IfOk result (λ names. names.keys ≡ state_names edges.now) }
{
    let mut names = IndexSet::new(alloc);
    for edge in edges {
        mention(alloc, &mut names, &edge.from)?;
        mention(alloc, &mut names, &edge.to)?;
    }
    Ok(names)
}

fn mention(alloc: Global, names: &mut IndexSet<ByteList>, name: &ByteList) -> Result<(), NoMemory>
    ensures { IfOk result (λ _. names.new.keys ≡ insert_key bytes_eq names.old.keys name.now) }
{
    names.insert_full(ByteList::copy(alloc, name.as_slice())?)?;
    Ok(())
}
