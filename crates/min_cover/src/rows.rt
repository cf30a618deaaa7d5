ghost use Rattle.std.specs.Prelude.{◌≡◌, ◌<◌, All, IfOk, IfSome, length, map, slice_index};
ghost use Rattle.label_graphs.specs.Views.{edge_data, rows_data};
ghost use Rattle.min_cover.specs.inside.Classes.{IsTable, rows_of, width_of};
ghost use Rattle.min_cover.specs.inside.Rows.{AreEdges, AreRows};

use crate::refine::Classes;
use crate::search::Row;
use label_graphs::Edge;
use std::alloc::Global;
use symbol_base::{Block, CoverName, Name, NoMemory};

/// The edges of a class, from the row of its first member.
fn edges_of_row(
    alloc: Global,
    row: &[Option<u32>],
    classes: &[u32],
) -> Result<Vec<Edge<CoverName>>, NoMemory>
    requires inside { All (λ next. IfSome next (λ state. state < length classes.now)) row.now }
    ensures { IfOk result (λ edges.
        AreEdges (slice_index classes.now) row.now (map (edge_data (λ name. name)) edges.items)) }
{
    let mut edges = Vec::new(alloc);
    for symbol in 0..row.len() {
        match row[symbol] {
            Some(state) => edges.push(Edge {
                block: Block {
                    value: symbol as u64,
                },
                to: CoverName::at(classes[state as usize]),
            })?,
            None => {}
        }
    }
    Ok(edges)
}

/// The rows of the graph of the classes.
pub fn graph_of_classes(
    alloc: Global,
    rows: &[Row],
    classes: &Classes,
) -> Result<Vec<Vec<Edge<CoverName>>>, NoMemory>
    requires table { IsTable (width_of (rows_of rows.now)) (rows_of rows.now) }
    requires size { length classes.now.of.items ≡ length rows.now }
    requires firsts { All (λ first. first < length rows.now) classes.now.firsts.items }
    ensures { IfOk result (λ graph. AreRows (slice_index classes.now.of.items) (rows_of rows.now)
        classes.now.firsts.items (rows_data (λ name. name) graph.items)) }
{
    let mut graph = Vec::new(alloc);
    for first in &classes.firsts {
        graph.push(edges_of_row(alloc, &rows[*first as usize], &classes.of)?)?;
    }
    Ok(graph)
}
