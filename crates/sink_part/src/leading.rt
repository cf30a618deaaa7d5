ghost use Rattle.std.specs.Prelude.{◌≡◌, ◌<◌, IfOk, length, slice_index_or, []};
ghost use Rattle.sink_part.specs.inside.Leads.{AreLeads, AreReachedRows, IsTable, leads};

use crate::linking::links;
use label_graphs::{Graph, Weights, reach};
use std::alloc::Global;
use std::marker::Model;
use symbol_base::{CoverName, Name, NoMemory};

/// Which states lead to which: for each state marks at those to which it leads.
#[derive(Debug, Drop)]
pub struct Leads {
    rows: Vec<Vec<bool>>,
}

impl Model for Leads {
    ghost use Rattle.std.specs.Prelude.{Bool, List};
    ghost use Rattle.sink_part.specs.inside.Leads.{IsTable, table_data};

    ghost Value = { List (List Bool) };

    ghost view = { λ leads. table_data leads.rows.items };

    ghost invariant = { λ leads. IsTable (table_data leads.rows.items) };
}

impl Leads {
    /// How many states there are.
    pub fn states(&self) -> u32
        ensures count { result ≡ length self.now }
        ensures kept { IsTable self.now }
    {
        self.rows.len() as u32
    }

    /// The marks at the states to which a state leads.
    pub fn marks(&self, from: u32) -> &[bool]
        requires { from < length self.now }
        ensures marks { result.now ≡ slice_index_or self.now from [] }
        ensures kept { IsTable self.now }
    {
        &self.rows[from as usize]
    }

    /// Whether a state leads to another.
    pub fn leads(&self, from: u32, to: u32) -> bool
        requires from { from < length self.now }
        requires to { to < length self.now }
        ensures { result ≡ leads self.now from to }
    {
        self.marks(from)[to as usize]
    }
}

/// Which states lead to which through states of positive weight.
pub fn all_leads(
    alloc: Global,
    graph: &Graph<CoverName>,
    weights: &Weights,
) -> Result<Leads, NoMemory>
    requires { length weights.now ≡ length graph.now }
    ensures { IfOk result (λ leads. AreLeads graph.now weights.now leads) }
{
    let links = links(alloc, graph, weights)?;
    reached_states(alloc, &links)
}

/// Which states walks along links lead to, from each state.
fn reached_states(alloc: Global, links: &Graph<CoverName>) -> Result<Leads, NoMemory>
    ensures { IfOk result (λ leads. AreReachedRows links.now leads (length links.now)) }
{
    let states = links.states();
    let mut rows = Vec::with_capacity(alloc, states as usize)?;
    for state in 0..states {
        rows.push(reach(alloc, links, CoverName::at(state))?)?;
    }
    Ok(Leads { rows })
}
