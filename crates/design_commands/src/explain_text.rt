ghost use Rattle.std.specs.Prelude.{◌≡◌, ◌+◌, ◌++◌, ◌≤◌, length, map, string_bytes, IfOk, OnOk};
ghost use Rattle.code_text_spec.specs.CodeText.{text_of};
ghost use Rattle.label_graphs.specs.Power.{edge_count};
ghost use Rattle.label_graphs.specs.Views.{edge_data};
ghost use Rattle.command_steps.specs.FaultLines.{behind_spaces};
ghost use Rattle.split_spec.specs.Chain.{split_count};
ghost use Rattle.state_split.specs.Views.{rounds_data};
ghost use Rattle.design_steps.specs.Views.{split_design_data};
ghost use Rattle.design_commands.specs.Explain.{edge_line, begun_lines, cover_lines, explain_lines};

use crate::split_text::write_chain;
use design_steps::{SplitDesign, count_edges};
use label_graphs::{Cover, Edge, Refinement, Weights};
use std::alloc::Global;
use symbol_base::{CoverName, Name, NoMemory, SplitName};

/// The lines of a design up to its last round.
pub fn explain_text(alloc: Global, design: &SplitDesign, q: u32) -> Result<String, NoMemory>
    requires short { q ≤ 20 }
    requires edges { edge_count design.now.power ≤ 262144 }
    requires splits { split_count (rounds_data design.now.chain.rounds.items) + length design.now.chain.sink.graph
        ≤ 512 }
    ensures { IfOk result (λ text.
        string_bytes text ≡ text_of (explain_lines q (split_design_data design.now))) }
{
    let mut text = begun_text(alloc, design)?;
    write_chain(&design.chain, design.cover.alphabet, q, &mut text)?;
    Ok(text)
}

/// The lines of what a design begins with.
fn begun_text(alloc: Global, design: &SplitDesign) -> Result<String, NoMemory>
    requires { edge_count design.now.power ≤ 262144 }
    ensures { IfOk result (λ text.
        string_bytes text ≡ text_of (begun_lines (split_design_data design.now).begun)) }
{
    let mut text = cover_text(alloc, &design.cover)?;
    let memory = design.memory;
    let edges = count_edges(&design.power);
    let bound = design.bound;
    write!(
        text,
        "memory {memory}\npower {edges}\nbound {bound}\nweights"
    )?;
    write_weights(&design.weights, &mut text)?;
    text.push_str("\nsink")?;
    write_parents(&design.chain.sink.parents, &mut text)?;
    text.push('\n')?;
    Ok(text)
}

/// Writes each weight behind a space.
fn write_weights(weights: &Weights, text: &mut String) -> Result<(), NoMemory>
    ensures { OnOk result
        (string_bytes text.new ≡ string_bytes text.old ++ behind_spaces weights.now) }
{
    for state in 0..weights.len() {
        let weight = weights.at(state);
        write!(text, " {weight}")?;
    }
    Ok(())
}

/// Writes the number of each state's parent behind a space.
fn write_parents(
    parents: &Refinement<SplitName, CoverName>,
    text: &mut String,
) -> Result<(), NoMemory>
    ensures { OnOk result
        (string_bytes text.new ≡ string_bytes text.old ++ behind_spaces parents.now) }
{
    for state in 0..parents.len() {
        let parent = parents.parent(SplitName::at(state)).index();
        write!(text, " {parent}")?;
    }
    Ok(())
}

/// The number of states of a cover, and a line for each edge.
fn cover_text(alloc: Global, cover: &Cover) -> Result<String, NoMemory>
    ensures { IfOk result (λ text. string_bytes text ≡ text_of (cover_lines cover.now.graph)) }
{
    let mut text = String::new(alloc);
    let states = cover.graph.states();
    write!(text, "cover {states}\n")?;
    for state in 0..states {
        write_row(state, cover.graph.row(CoverName::at(state)), &mut text)?;
    }
    Ok(text)
}

/// A line for each edge that leaves a state.
fn write_row(state: u32, row: &[Edge<CoverName>], text: &mut String) -> Result<(), NoMemory>
    ensures { OnOk result (string_bytes text.new ≡ string_bytes text.old
        ++ text_of (map (edge_line state) (map (edge_data (λ name. name)) row.now))) }
{
    for edge in row {
        let symbol = edge.block.value;
        let to = edge.to.index();
        write!(text, "{state} {symbol} {to}\n")?;
    }
    Ok(())
}
