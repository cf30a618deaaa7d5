ghost use Rattle.std.specs.Prelude.{◌≡◌, ◌+◌, [], ◌∷◌, ◌++◌, ◌≤◌, length, string_bytes, OnOk, flat_map};
ghost use Rattle.code_text_spec.specs.CodeText.{text_of};
ghost use Rattle.split_spec.specs.Chain.{split_count};
ghost use Rattle.state_split.specs.Chains.{chain_data};
ghost use Rattle.state_split.specs.Views.{edges_data, rounds_data};
ghost use Rattle.command_steps.specs.FaultLines.{behind_spaces};
ghost use Rattle.design_commands.specs.SplitLines.{chain_lines, round_lines, run_edge, split_line, split_lines};

use code_tables::write_block;
use label_graphs::Edge;
use state_split::{Chain, Round, Split};
use symbol_base::{Name, NoMemory, SplitName};

/// Writes the lines of the rounds of splitting, for blocks of `q` symbols.
pub fn write_chain(chain: &Chain, alphabet: u8, q: u32, text: &mut String) -> Result<(), NoMemory>
    requires short { q ≤ 20 }
    requires least { 2 ≤ alphabet }
    requires most { alphabet ≤ 4 }
    requires few { split_count (rounds_data chain.now.rounds.items) + length chain.now.sink.graph ≤ 512 }
    ensures { OnOk result (string_bytes text.new ≡ string_bytes text.old
        ++ text_of (chain_lines alphabet q (length chain.now.sink.graph) (chain_data chain.now))) }
{
    write_rounds(&chain.rounds, chain.sink.graph.states(), alphabet, q, text)?;
    let rounds = chain.rounds.len();
    write!(text, "rounds {rounds}\nkept")?;
    write_names(&chain.kept, text)?;
    text.push('\n')?;
    Ok(())
}

/// Writes each round with its splits; the first is made of a graph with so many states.
fn write_rounds(
    rounds: &[Round],
    states: u32,
    alphabet: u8,
    q: u32,
    text: &mut String,
) -> Result<(), NoMemory>
    requires short { q ≤ 20 }
    requires least { 2 ≤ alphabet }
    requires most { alphabet ≤ 4 }
    requires few { split_count (rounds_data rounds.now) + states ≤ 512 }
    ensures { OnOk result (string_bytes text.new ≡ string_bytes text.old
        ++ text_of (round_lines alphabet q 1 states (rounds_data rounds.now))) }
{
    let mut number: u64 = 1;
    let mut part = states;
    for round in rounds {
        write!(text, "round {number}\n")?;
        write_splits(&round.splits, part, alphabet, q, text)?;
        number += 1;
        part += round.splits.len() as u32;
    }
    Ok(())
}

/// Writes a line for each split; the first second part has this number.
fn write_splits(
    splits: &[Split],
    part: u32,
    alphabet: u8,
    q: u32,
    text: &mut String,
) -> Result<(), NoMemory>
    requires short { q ≤ 20 }
    requires least { 2 ≤ alphabet }
    requires most { alphabet ≤ 4 }
    requires few { length splits.now + part ≤ 512 }
    ensures { OnOk result (string_bytes text.new ≡ string_bytes text.old
        ++ text_of (split_lines alphabet q part splits.now)) }
{
    let mut part = part;
    for split in splits {
        write_split(split, part, alphabet, q, text)?;
        part += 1;
    }
    Ok(())
}

/// Writes the line of a split.
fn write_split(
    split: &Split,
    part: u32,
    alphabet: u8,
    q: u32,
    text: &mut String,
) -> Result<(), NoMemory>
    requires short { q ≤ 20 }
    requires least { 2 ≤ alphabet }
    requires most { alphabet ≤ 4 }
    ensures { OnOk result (string_bytes text.new ≡ string_bytes text.old
        ++ (split_line alphabet q part split.now ++ 10 ∷ [])) }
{
    let state = split.state.index();
    let y = split.y;
    write!(text, "split {state} {part} {y}")?;
    write_run(&split.run, alphabet, q, text)?;
    text.push('\n')?;
    Ok(())
}

/// Writes each edge of a run behind a space: its block and its target.
fn write_run(
    run: &[Edge<SplitName>],
    alphabet: u8,
    q: u32,
    text: &mut String,
) -> Result<(), NoMemory>
    requires short { q ≤ 20 }
    requires least { 2 ≤ alphabet }
    requires most { alphabet ≤ 4 }
    ensures { OnOk result (string_bytes text.new ≡ string_bytes text.old
        ++ flat_map (run_edge alphabet q) (edges_data run.now)) }
{
    for edge in run {
        text.push(' ')?;
        write_block(edge.block, q, alphabet, text)?;
        let to = edge.to.index();
        write!(text, ">{to}")?;
    }
    Ok(())
}

/// Writes the number of each state behind a space.
fn write_names(names: &[SplitName], text: &mut String) -> Result<(), NoMemory>
    ensures { OnOk result
        (string_bytes text.new ≡ string_bytes text.old ++ behind_spaces names.now) }
{
    for name in names {
        let state = name.index();
        write!(text, " {state}")?;
    }
    Ok(())
}
