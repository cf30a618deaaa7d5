ghost use Rattle.std.specs.Prelude.{◌≡◌, ◌+◌, ◌<◌, [], ◌∷◌, ◌++◌, All, length, map, string_bytes, IfOk, OnOk, OnErr, codes, None};
ghost use Rattle.std.specs.Fmt.{decimal};
ghost use Rattle.constraint_file_spec.specs.Keys.{key_name};
ghost use Rattle.code_text_spec.specs.CodeText.{spaced, digits, limit, edge_line, constraint_lines, text_of};

use constraint_file_spec::Key;
use constraint_model::{Constraint, GraphEdge};
use std::alloc::Global;
use symbol_base::{ByteList, NoMemory};

/// The lines of a code file that the constraint alone decides, from `alphabet` to the last edge of
/// the graph.
pub fn constraint_text(alloc: Global, constraint: &Constraint) -> Result<ByteList, NoMemory>
    ensures { IfOk result (λ text. text ≡ text_of (constraint_lines constraint.now)) }
{
    let text = lines_of(alloc, constraint)?;
    Ok(ByteList::from_vec(text.into_bytes()))
}

/// Writes the same lines behind a text, which stays as it is where memory is wanted.
pub fn write_constraint(constraint: &Constraint, text: &mut String) -> Result<(), NoMemory>
    ensures lines { OnOk result
        (string_bytes text.new
        ≡ string_bytes text.old ++ text_of (constraint_lines constraint.now)) }
    ensures stays { OnErr result (string_bytes text.new ≡ string_bytes text.old) }
{
    let lines = lines_of(*text.allocator(), constraint)?;
    text.push_str(&lines)?;
    Ok(())
}

/// The lines in a text of their own: a `write!` that wants memory says nothing of what it leaves.
fn lines_of(alloc: Global, constraint: &Constraint) -> Result<String, NoMemory>
    ensures { IfOk result (λ text. string_bytes text ≡ text_of (constraint_lines constraint.now)) }
{
    let mut text = String::new(alloc);
    write_runs(constraint, &mut text)?;
    write_words(constraint.forbid.as_slice(), &mut text)?;
    write_graph_size(constraint, &mut text)?;
    write_edges(constraint.edges.as_slice(), &mut text)?;
    Ok(text)
}

/// The alphabet, the runs of 0s, and how many forbidden words follow.
fn write_runs(constraint: &Constraint, text: &mut String) -> Result<(), NoMemory>
    ensures { OnOk result (string_bytes text.new ≡ string_bytes text.old ++ text_of (
        spaced (codes "alphabet") (decimal constraint.now.alphabet) ∷ spaced (codes "d") (decimal constraint.now.d)
        ∷ spaced (codes "k") (limit constraint.now.k) ∷ spaced (codes "forbid") (decimal (length constraint.now.forbid)) ∷ [])) }
{
    write_number(Key::Alphabet, u64::from(constraint.alphabet), text)?;
    write_number(Key::D, u64::from(constraint.d), text)?;
    match constraint.k {
        Some(k) => write_number(Key::K, u64::from(k), text)?,
        None => write_no_limit(text)?,
    }
    write_number(Key::Forbid, constraint.forbid.len() as u64, text)
}

/// The line of a key with a number.
fn write_number(key: Key, number: u64, text: &mut String) -> Result<(), NoMemory>
    ensures { OnOk result
        (string_bytes text.new
        ≡ string_bytes text.old ++ text_of (spaced (key_name key) (decimal number) ∷ [])) }
{
    let name = key.name();
    write!(text, "{name} {number}\n")?;
    Ok(())
}

/// The line of the runs of 0s where they have no limit.
fn write_no_limit(text: &mut String) -> Result<(), NoMemory>
    ensures { OnOk result
        (string_bytes text.new
        ≡ string_bytes text.old ++ text_of (spaced (codes "k") (limit None) ∷ [])) }
{
    let name = Key::K.name();
    write!(text, "{name} -\n")?;
    Ok(())
}

/// A line of digits for each word.
fn write_words(words: &[ByteList], text: &mut String) -> Result<(), NoMemory>
    requires { All (All (λ symbol. symbol < 10)) words.now }
    ensures { OnOk result
        (string_bytes text.new ≡ string_bytes text.old ++ text_of (map digits words.now)) }
{
    for word in words {
        write_digits(word.as_slice(), text)?;
        text.push('\n')?;
    }
    Ok(())
}

/// One digit for each symbol.
fn write_digits(word: &[u8], text: &mut String) -> Result<(), NoMemory>
    requires { All (λ symbol. symbol < 10) word.now }
    ensures { OnOk result (string_bytes text.new ≡ string_bytes text.old ++ digits word.now) }
{
    for symbol in word {
        write_digit(*symbol, text)?;
    }
    Ok(())
}

/// Writes the digit of a symbol behind a text, which stays as it is where memory is wanted.
pub fn write_digit(symbol: u8, text: &mut String) -> Result<(), NoMemory>
    requires { symbol < 10 }
    ensures digit { OnOk result
        (string_bytes text.new ≡ string_bytes text.old ++ (48 + symbol) ∷ []) }
    ensures stays { OnErr result (string_bytes text.new ≡ string_bytes text.old) }
{
    text.push(char::from(b'0' + symbol))?;
    Ok(())
}

/// How many states and edges the graph has.
fn write_graph_size(constraint: &Constraint, text: &mut String) -> Result<(), NoMemory>
    ensures { OnOk result (string_bytes text.new ≡ string_bytes text.old ++ text_of (
        spaced (codes "graph") (spaced (decimal constraint.now.states) (decimal (length constraint.now.edges))) ∷ [])) }
{
    let states = constraint.states;
    let edges = constraint.edges.len();
    write!(text, "graph {states} {edges}\n")?;
    Ok(())
}

/// A line for each edge.
fn write_edges(edges: &[GraphEdge], text: &mut String) -> Result<(), NoMemory>
    ensures { OnOk result
        (string_bytes text.new ≡ string_bytes text.old ++ text_of (map edge_line edges.now)) }
{
    for edge in edges {
        write_edge(edge, text)?;
    }
    Ok(())
}

fn write_edge(edge: &GraphEdge, text: &mut String) -> Result<(), NoMemory>
    ensures { OnOk result
        (string_bytes text.new ≡ string_bytes text.old ++ (edge_line edge.now ++ 10 ∷ [])) }
{
    let from = edge.from;
    let label = edge.label;
    let to = edge.to;
    write!(text, "{from} {label} {to}\n")?;
    Ok(())
}
