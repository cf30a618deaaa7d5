ghost use Rattle.code_tables.specs.inside.Reading.{code_at};
ghost use Rattle.code_tables.specs.ReadCode.{ReadsCode};
ghost use Rattle.code_tables.specs.inside.ReadLines.{GivesLines};

use crate::fault::CodeTextFault;
use crate::forbidden::read_words;
use crate::graph::{graph_line, read_edges};
use crate::head::read_head;
use crate::table::{read_sizes, read_table, words};
use code_model::Code;
use constraint_model::Constraint;
use std::alloc::Global;

/// The code that the bytes are the text of, or the first line that breaks its rule.
pub fn read_code(alloc: Global, bytes: &[u8]) -> Result<Code, CodeTextFault>
    ensures { ReadsCode bytes.now result }
{
    whole(alloc, bytes)
}

#[tactic(auto, unfolding(crate::specs::inside::Reading::code_at, crate::specs::inside::Reading::parts_at, text_reading::specs::LineReader::both_lines, text_reading::specs::LineReader::one_line))]
fn whole(alloc: Global, bytes: &[u8]) -> Result<Code, CodeTextFault>
    ensures { GivesLines (λ code. code) result (code_at bytes.now) }
{
    let (d, k, count, rest) = read_head(bytes)?;
    let (forbid, rest) = read_words(alloc, rest, count, 6)?;
    let line = 6 + count;
    let Some((states, edge_count, rest)) = graph_line(rest) else {
        return Err(CodeTextFault::BadCode(line));
    };
    let (edges, rest) = read_edges(alloc, rest, states, edge_count, line + 1)?;
    let line = line + 1 + edge_count;
    let (sizes, rest) = read_sizes(rest, line)?;
    let line = line + 3;
    let (rows, rest) = read_table(alloc, rest, &sizes, line)?;
    if !rest.is_empty() {
        return Err(CodeTextFault::BadCode(line + sizes.states * words(sizes.p)));
    }
    Ok(Code {
        constraint: Constraint {
            alphabet: 2,
            d,
            k,
            forbid,
            states,
            edges,
        },
        p: sizes.p,
        q: sizes.q,
        past: sizes.past,
        ahead: sizes.ahead,
        rows,
    })
}
