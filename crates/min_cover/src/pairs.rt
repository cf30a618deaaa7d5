ghost use Rattle.std.specs.Prelude.{◌≡◌, ℕ, ◌/◌, ◌%◌, ◌<◌, ◌≤◌, IfSome, length, map};
ghost use Rattle.label_graphs.specs.Cover.{KeepsSymbols};
ghost use Rattle.label_graphs.specs.Graph.{IsGraph};
ghost use Rattle.label_graphs.specs.Views.{edge_data};
ghost use Rattle.min_cover.specs.inside.Pairs.{pair_count, pair_step, pair_graph, target_of, Leads};

use label_graphs::{Cover, Edge};
use least_walks::{Arc, ImplicitGraph};
use std::marker::Model;
use symbol_base::{CoverName, Name, NoMemory};

/// The graph of the pairs of states of a cover. An arc leads, by a symbol that two different states
/// read, to the states that they come to, where these differ too.
///
/// The number of a pair is the first state times the count of states, and the second state.
#[derive(Drop)]
pub struct Pairs<'a> {
    cover: &'a Cover,
}

impl<'a> Model for Pairs<'a> {
    ghost use Rattle.label_graphs.specs.Cover.{CoverData};

    ghost Value = { CoverData };

    ghost view = { λ pairs. pairs.cover.now };
}

impl<'a> Pairs<'a> {
    /// The pairs of states of this cover.
    pub fn of(cover: &'a Cover) -> Pairs<'a>
        ensures cover { result ≡ cover.now }
        ensures graph { IsGraph cover.now.graph }
        ensures symbols { KeepsSymbols cover.now }
    {
        let _graph = cover.graph.states();
        Pairs { cover }
    }

    /// How many pairs there are.
    pub fn count(&self) -> usize
        ensures count { result ≡ pair_count self.now.graph }
        ensures few { result ≤ 65536 }
    {
        let cover = self.cover;
        let states = cover.graph.states() as usize;
        states * states
    }

    /// How many symbols there are.
    pub fn symbols(&self) -> u8
        ensures count { result ≡ self.now.alphabet }
        ensures all { (pair symbol to : ℕ) → Leads (pair_step self.now.graph) pair symbol to
            → symbol < result }
    {
        let cover = self.cover;
        cover.alphabet
    }

    /// The two states of a pair.
    pub fn states(&self, pair: usize) -> (u32, u32)
        requires { pair < pair_count self.now.graph }
        ensures first { result.0 ≡ pair / length self.now.graph }
        ensures second { result.1 ≡ pair % length self.now.graph }
        ensures inside { (result.0 < length self.now.graph) × (result.1 < length self.now.graph) }
    {
        let cover = self.cover;
        let states = cover.graph.states() as usize;
        ((pair / states) as u32, (pair % states) as u32)
    }

    /// The pair to which the symbol leads.
    pub fn after(&self, pair: usize, symbol: u8) -> Option<usize>
        requires { pair < pair_count self.now.graph }
        ensures step { result ≡ pair_step self.now.graph pair symbol }
        ensures inside { IfSome result (λ to. to < pair_count self.now.graph) }
    {
        let cover = self.cover;
        let (first, second) = self.states(pair);
        if first == second {
            return None;
        }
        let x = target(cover.graph.row(CoverName::at(first)), symbol)?;
        let y = target(cover.graph.row(CoverName::at(second)), symbol)?;
        if x == y {
            return None;
        }
        Some(x as usize * cover.graph.states() as usize + y as usize)
    }
}

/// Where the edge with the symbol leads.
fn target(edges: &[Edge<CoverName>], symbol: u8) -> Option<u32>
    ensures { result ≡ target_of (map (edge_data (λ name. name)) edges.now) symbol }
{
    for edge in edges {
        if edge.block.value == symbol as u64 {
            return Some(edge.to.index());
        }
    }
    None
}

impl<'a> ImplicitGraph for Pairs<'a> {
    ghost graph = { λ cover. pair_graph cover };

    fn node_count(&self) -> usize {
        self.count()
    }

    fn arcs_of(&self, node: usize, room: &mut Vec<Arc>) -> Result<(), NoMemory> {
        room.clear();
        for symbol in 0..self.symbols() {
            if let Some(to) = self.after(node, symbol) {
                room.push(Arc {
                    label: symbol as u32,
                    to,
                })?;
            }
        }
        Ok(())
    }
}
