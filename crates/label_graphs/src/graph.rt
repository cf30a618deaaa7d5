ghost use Rattle.std.specs.Prelude.{◌≡◌, ◌<◌, IfOk, length, map, slice_index_or, []};
ghost use Rattle.label_graphs.specs.Graph.{IsGraph};
ghost use Rattle.label_graphs.specs.Views.{edge_data, rows_data};

use std::alloc::Global;
use std::marker::Model;
use symbol_base::{Block, CoverName, Name, NoMemory};

/// An edge of a graph: the block that it carries and the state that it leads to.
#[derive(Clone, Copy, Debug)]
pub struct Edge<N: Name> {
    pub block: Block,
    pub to: N,
}

/// A graph with a block on each edge, in which a name of type `N` stands for a state.
///
/// Each state has a row of the edges that leave it, by block and then by target, without repeats.
#[derive(Debug, Drop)]
pub struct Graph<N: Name> {
    rows: Vec<Vec<Edge<N>>>,
}

impl<N: Name> Model for Graph<N> {
    ghost use Rattle.std.specs.Prelude.{List};
    ghost use Rattle.label_graphs.specs.Graph.{EdgeData, IsGraph};
    ghost use Rattle.label_graphs.specs.Views.{rows_data};

    ghost Value = { List (List EdgeData) };

    ghost view = { λ graph. rows_data (N.number) graph.rows.items };

    ghost invariant = { λ graph. IsGraph (rows_data (N.number) graph.rows.items) };
}

impl<N: Name> Graph<N> {
    /// The graph of these rows, one for each state.
    pub fn from_rows(rows: Vec<Vec<Edge<N>>>) -> Graph<N>
        requires { IsGraph (rows_data (N.number) rows.items) }
        ensures { result ≡ rows_data (N.number) rows.items }
    {
        Graph { rows }
    }

    /// How many states there are.
    pub fn states(&self) -> u32
        ensures count { result ≡ length self.now }
        ensures kept { IsGraph self.now }
    {
        self.rows.len() as u32
    }

    /// The edges that leave a state.
    pub fn row(&self, at: N) -> &[Edge<N>]
        requires { N.number at < length self.now }
        ensures edges { map (edge_data (N.number)) result.now
            ≡ slice_index_or self.now (N.number at) [] }
        ensures kept { IsGraph self.now }
    {
        &self.rows[at.index() as usize]
    }

    /// The same graph, in which names of type `M` stand for the states.
    pub fn renamed<M: Name>(&self, alloc: Global) -> Result<Graph<M>, NoMemory>
        ensures same { IfOk result (λ renamed. renamed ≡ self.now) }
        ensures kept { IsGraph self.now }
    {
        let mut rows = Vec::with_capacity(alloc, self.rows.len())?;
        for row in &self.rows {
            rows.push(renamed_edges(alloc, row)?)?;
        }
        Ok(Graph::from_rows(rows))
    }
}

/// The same edges, in which names of type `M` stand for the states.
fn renamed_edges<N: Name, M: Name>(
    alloc: Global,
    edges: &[Edge<N>],
) -> Result<Vec<Edge<M>>, NoMemory>
    ensures { IfOk result (λ renamed. map (edge_data (M.number)) renamed.items
        ≡ map (edge_data (N.number)) edges.now) }
{
    let mut renamed = Vec::with_capacity(alloc, edges.len())?;
    for edge in edges {
        renamed.push(Edge {
            block: edge.block,
            to: M::at(edge.to.index()),
        })?;
    }
    Ok(renamed)
}

/// The cover of a constraint: the deterministic graph with the fewest states whose walks from
/// state 0 read its words (Marcus, Roth, Siegel, chapter 2: minimal deterministic presentation).
///
/// It has 1 to 256 states. Each edge carries one symbol of the alphabet, and a state has at most
/// one edge per symbol.
#[derive(Debug, Drop)]
pub struct Cover {
    pub graph: Graph<CoverName>,
    /// How many symbols there are, 2 to 4.
    pub alphabet: u8,
}

impl Model for Cover {
    ghost use Rattle.label_graphs.specs.Cover.{CoverData, KeepsSymbols};

    ghost Value = { CoverData };

    ghost view = { λ cover. record { graph = cover.graph; alphabet = cover.alphabet } };

    ghost invariant = { λ cover. KeepsSymbols (record { graph = cover.graph; alphabet = cover.alphabet }) };
}
