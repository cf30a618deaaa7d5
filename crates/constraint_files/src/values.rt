ghost use Rattle.std.specs.Prelude.{◌≡◌, None, option_map, string_bytes, IfOk, ok_or};
ghost use Rattle.std.specs.BTreeMap.{keys};
ghost use Rattle.std.specs.List.{list_all};
ghost use Rattle.toml.specs.Data.{get_member};
ghost use Rattle.toml.specs.View.{view, table_view, items_view};
ghost use Rattle.constraint_file_spec.specs.Values.{is_edge_key, text_at, edge_of, texts_of, edges_of};
ghost use Rattle.constraint_file_spec.specs.declared.file.Key.TheVariants.{Forbid, Edges};
ghost use Rattle.constraint_file_spec.specs.declared.fault.ConstraintFault.TheVariants.{WrongType};
ghost use Rattle.constraint_files.specs.inside.Steps.{Answers};

use constraint_file_spec::{ConstraintFault, Key, ListedEdge};
use std::alloc::Global;
use symbol_base::{ByteList, NoMemory};
use toml::{Table, Value};

/// What stands under a key of the table.
pub fn find<'a>(table: &'a Table, key: &str) -> Option<&'a Value>
    ensures { option_map (λ v. view v.now) result ≡ get_member key.now (table_view table.now) }
{
    table.get(key)
}

/// The text under a key.
fn text_at<'a>(table: &'a Table, key: &str) -> Option<&'a str>
    ensures { option_map (λ t. t.now) result ≡ text_at key.now (table_view table.now) }
{
    match find(table, key) {
        Some(value) => value.as_str(),
        None => None,
    }
}

/// The edge of a table that has exactly its three keys.
#[tactic(auto, using(crate::proofs::Tables::all_keys_pass))]
fn edge_of(alloc: Global, table: &Table) -> Result<Option<ListedEdge>, NoMemory>
    ensures { IfOk result (λ edge. edge ≡ edge_of (table_view table.now)) }
{
    let Some(from) = text_at(table, "from") else {
        return Ok(None);
    };
    let Some(label) = text_at(table, "label") else {
        return Ok(None);
    };
    let Some(to) = text_at(table, "to") else {
        return Ok(None);
    };
    if !has_edge_keys_alone(table) {
        return Ok(None);
    }
    Ok(Some(listed_edge(alloc, from, label, to)?))
}

/// No key of the table is another than those of an edge.
fn has_edge_keys_alone(table: &Table) -> bool
    ensures { result ≡ list_all (λ name. is_edge_key (string_bytes name)) (keys table.now) }
{
    table.keys().all(|name| is_edge_key(name.as_str()))
}

fn is_edge_key(name: &str) -> bool
    ensures { result ≡ is_edge_key name.now }
{
    name == "from" || (name == "label" || name == "to")
}

fn listed_edge(alloc: Global, from: &str, label: &str, to: &str) -> Result<ListedEdge, NoMemory>
    ensures { IfOk result (λ e. e ≡ record { from = from.now; label = label.now; to = to.now }) }
{
    Ok(ListedEdge {
        from: ByteList::copy(alloc, from.as_bytes())?,
        label: ByteList::copy(alloc, label.as_bytes())?,
        to: ByteList::copy(alloc, to.as_bytes())?,
    })
}

/// The forbidden words of an array of texts.
pub fn texts_of(alloc: Global, values: &[Value]) -> Result<Vec<ByteList>, ConstraintFault>
    ensures { Answers (λ texts. texts.items) result
        (ok_or (texts_of (items_view values.now)) (WrongType Forbid)) }
{
    let mut texts = Vec::new(alloc);
    for value in values {
        let Some(text) = value.as_str() else {
            return Err(ConstraintFault::WrongType(Key::Forbid));
        };
        texts.push(ByteList::copy(alloc, text.as_bytes())?)?;
    }
    Ok(texts)
}

/// The edges of an array of tables.
pub fn edges_of(alloc: Global, values: &[Value]) -> Result<Vec<ListedEdge>, ConstraintFault>
    ensures { Answers (λ edges. edges.items) result
        (ok_or (edges_of (items_view values.now)) (WrongType Edges)) }
{
    let mut edges = Vec::new(alloc);
    for value in values {
        let Some(table) = value.as_table() else {
            return Err(ConstraintFault::WrongType(Key::Edges));
        };
        let Some(edge) = edge_of(alloc, table)? else {
            return Err(ConstraintFault::WrongType(Key::Edges));
        };
        edges.push(edge)?;
    }
    Ok(edges)
}
