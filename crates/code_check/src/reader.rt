ghost use Rattle.std.specs.Prelude.{◌≡◌, ◌+◌, ◌*◌, ◌<◌, ◌≤◌, ◌^◌, All, get_or, length, map, IfOk};
ghost use Rattle.code_check.specs.inside.CoverMoves.{target_of, move_on, moves_of, IsTableOf};
ghost use Rattle.label_graphs.specs.Views.{edge_data};

use label_graphs::{Edge, Graph};
use std::alloc::Global;
use symbol_base::{CoverName, Name, NoMemory};

/// The state that each word of so many symbols 0 and 1 leads to from each state of a cover.
///
/// The words of one state stand together, in the order of their numbers. The number of states
/// stands for "no word", from which nothing leads back.
#[derive(Debug, Drop)]
pub struct MoveTable {
    symbols: u32,
    states: Vec<u32>,
}

impl MoveTable {
    /// The table of the words of this length, with 2^`symbols` entries for each state and for "no
    /// word".
    pub fn of(alloc: Global, graph: &Graph<CoverName>, symbols: u32) -> Result<MoveTable, NoMemory>
        requires few { length graph.now ≤ 256 }
        requires short { symbols ≤ 10 }
        ensures symbols { IfOk result (λ table. table.symbols ≡ symbols) }
        ensures table { IfOk result (λ table. IsTableOf graph.now table) }
    {
        let mut table = MoveTable::of_empty_word(alloc, graph)?;
        while table.symbols < symbols {
            table = table.one_symbol_more(alloc, graph)?;
        }
        Ok(table)
    }

    /// The table of the empty word.
    fn of_empty_word(alloc: Global, graph: &Graph<CoverName>) -> Result<MoveTable, NoMemory>
        requires few { length graph.now ≤ 256 }
        ensures symbols { IfOk result (λ table. table.symbols ≡ 0) }
        ensures table { IfOk result (λ table. IsTableOf graph.now table) }
    {
        let mut states = Vec::new(alloc);
        for state in 0..graph.states() + 1 {
            states.push(state)?;
        }
        Ok(MoveTable { symbols: 0, states })
    }

    /// The table of the words with one symbol more.
    fn one_symbol_more(
        &self,
        alloc: Global,
        graph: &Graph<CoverName>,
    ) -> Result<MoveTable, NoMemory>
        requires table { IsTableOf graph.now self.now }
        requires short { self.now.symbols < 10 }
        ensures symbols { IfOk result (λ table. table.symbols ≡ self.now.symbols + 1) }
        ensures table { IfOk result (λ table. IsTableOf graph.now table) }
    {
        Ok(MoveTable {
            symbols: self.symbols + 1,
            states: moves(alloc, graph, &self.states)?,
        })
    }

    /// The state that the word of this number leads to from the state.
    #[inline]
    pub fn state_after(&self, state: u32, number: u64) -> u32
        requires few { state ≤ 256 }
        requires short { self.now.symbols ≤ 10 }
        requires number { number < 2 ^ self.now.symbols }
        requires inside { state * 2 ^ self.now.symbols + number < length self.now.states.items }
        ensures { result ≡ get_or self.now.states.items (state * 2 ^ self.now.symbols + number) 0 }
    {
        self.states[((state as usize) << self.symbols) + number as usize]
    }

    /// How many symbols the words have.
    #[inline]
    pub fn symbols(&self) -> u32
        ensures { result ≡ self.now.symbols }
    {
        self.symbols
    }
}

/// Where a 0 and where a 1 leads from each of the states.
fn moves(alloc: Global, graph: &Graph<CoverName>, states: &[u32]) -> Result<Vec<u32>, NoMemory>
    requires inside { All (λ state. state ≤ length graph.now) states.now }
    ensures { IfOk result (λ moves. moves.items ≡ moves_of graph.now states.now) }
{
    let mut moves = Vec::new(alloc);
    for state in states {
        moves.push(next(graph, *state, 0))?;
        moves.push(next(graph, *state, 1))?;
    }
    Ok(moves)
}

/// The state that the symbol leads to.
fn next(graph: &Graph<CoverName>, state: u32, symbol: u64) -> u32
    requires inside { state ≤ length graph.now }
    ensures moved { result ≡ move_on graph.now state symbol }
    ensures inside { result ≤ length graph.now }
{
    let none = graph.states();
    if state == none {
        return none;
    }
    target(graph.row(CoverName::at(state)), symbol, none)
}

/// Where the first edge with the symbol leads, or to the given state where there is none.
fn target(edges: &[Edge<CoverName>], symbol: u64, none: u32) -> u32
    ensures { result ≡ target_of (map (edge_data (λ name. name)) edges.now) symbol none }
{
    for edge in edges {
        if edge.block.value == symbol {
            return edge.to.index();
        }
    }
    none
}
