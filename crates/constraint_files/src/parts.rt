ghost use Rattle.toml.specs.View.{table_view};
ghost use Rattle.constraint_file_spec.specs.Listed.{number_at, words_at, edges_at, listed_parts};
ghost use Rattle.constraint_files.specs.inside.Steps.{Answers, listed_data};

use crate::values::{edges_of, find, texts_of};
use constraint_file_spec::{ConstraintFault, Key, ListedEdge};
use std::alloc::Global;
use symbol_base::ByteList;
use toml::Table;

/// What a file lists under its five keys. An empty array is as good as none.
#[derive(Debug, Drop)]
pub struct ListedParts {
    pub alphabet: Option<i64>,
    pub d: Option<i64>,
    pub k: Option<i64>,
    pub forbid: Vec<ByteList>,
    pub edges: Vec<ListedEdge>,
}

/// What the table lists, where each value has the type of its key.
pub fn list_parts(alloc: Global, table: &Table) -> Result<ListedParts, ConstraintFault>
    ensures { Answers listed_data result (listed_parts (table_view table.now)) }
{
    Ok(ListedParts {
        alphabet: number_at(table, Key::Alphabet)?,
        d: number_at(table, Key::D)?,
        k: number_at(table, Key::K)?,
        forbid: words_at(alloc, table)?,
        edges: edges_at(alloc, table)?,
    })
}

fn number_at(table: &Table, key: Key) -> Result<Option<i64>, ConstraintFault>
    ensures { Answers (λ number. number) result (number_at key (table_view table.now)) }
{
    let Some(value) = find(table, key.name()) else {
        return Ok(None);
    };
    match value.as_integer() {
        Some(number) => Ok(Some(number)),
        None => Err(ConstraintFault::WrongType(key)),
    }
}

fn words_at(alloc: Global, table: &Table) -> Result<Vec<ByteList>, ConstraintFault>
    ensures { Answers (λ words. words.items) result (words_at (table_view table.now)) }
{
    let Some(value) = find(table, Key::Forbid.name()) else {
        return Ok(Vec::new(alloc));
    };
    match value.as_array() {
        Some(values) => texts_of(alloc, values.as_slice()),
        None => Err(ConstraintFault::WrongType(Key::Forbid)),
    }
}

fn edges_at(alloc: Global, table: &Table) -> Result<Vec<ListedEdge>, ConstraintFault>
    ensures { Answers (λ edges. edges.items) result (edges_at (table_view table.now)) }
{
    let Some(value) = find(table, Key::Edges.name()) else {
        return Ok(Vec::new(alloc));
    };
    match value.as_array() {
        Some(values) => edges_of(alloc, values.as_slice()),
        None => Err(ConstraintFault::WrongType(Key::Edges)),
    }
}
