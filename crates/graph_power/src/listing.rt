ghost use Rattle.std.specs.Prelude.{◌≡◌, ℕ, suc, ◌+◌, ◌*◌, ◌<◌, ◌≤◌, ◌^◌, [], ◌++◌, All, IfErr, IfOk, length, map, slice_index, slice_index_or};
ghost use Rattle.std.specs.List.{sum};
ghost use Rattle.label_graphs.specs.Cover.{KeepsSymbols};
ghost use Rattle.label_graphs.specs.Graph.{IsGraph};
ghost use Rattle.label_graphs.specs.Power.{IsPower, edge_count};
ghost use Rattle.label_graphs.specs.Views.{edge_data, matrix_data, rows_data};
ghost use Rattle.graph_power.specs.PowerFault.{IsPowerFault};
ghost use Rattle.graph_power.specs.inside.Words.{AreCountedTo, AreWordCounts, power_rows, target_total, words_from};

use crate::fault::PowerFault;
use label_graphs::{Cover, Edge, Graph};
use std::alloc::Global;
use symbol_base::{Block, CoverName, Name, NoMemory};

/// How many edges a power may have.
const MOST_POWER_EDGES: u64 = 262_144;

/// The q-th power of a cover: from each state an edge for each word of `q` symbols that can be read
/// from there, with the word as its block (Marcus, Roth, Siegel, chapter 2: power of a graph).
///
/// The edges are counted first, symbol by symbol. Then each takes at most `q` steps.
pub fn power(alloc: Global, cover: &Cover, q: u32) -> Result<Graph<CoverName>, PowerFault>
    requires one { 1 ≤ q }
    requires twenty { q ≤ 20 }
    ensures edges { IfOk result (λ rows. IsPower cover.now q rows) }
    ensures within { IfOk result (λ rows. edge_count rows ≤ 262144) }
    ensures fault { IfErr result (IsPowerFault cover.now q) }
{
    let counts = word_counts(alloc, cover, q)?;
    let edges = total(&counts[q as usize]);
    if edges > MOST_POWER_EDGES {
        return Err(PowerFault::PowerEdges(edges));
    }
    let rows = listed_rows(alloc, cover, q, &counts)?;
    Ok(Graph::from_rows(rows))
}

fn total(counts: &[u64]) -> u64
    requires { sum counts.now < 2 ^ 64 }
    ensures { result ≡ sum counts.now }
{
    let mut total = 0;
    for count in counts {
        total += *count;
    }
    total
}

/// For each number of symbols up to `q` how many words of so many can be read from each state.
fn word_counts(alloc: Global, cover: &Cover, q: u32) -> Result<Vec<Vec<u64>>, NoMemory>
    requires { q ≤ 20 }
    ensures counts { IfOk result (λ counts.
        AreCountedTo cover.now.graph q (matrix_data counts.items)) }
    ensures symbols { IfOk result (λ _. KeepsSymbols cover.now) }
    ensures graph { IfOk result (λ _. IsGraph cover.now.graph) }
{
    let mut counts = Vec::with_capacity(alloc, q as usize + 1)?;
    counts.push(vec![in alloc; 1; cover.graph.states() as usize]?)?;
    for shorter in 0..q {
        let more = counts_of_one_more(alloc, cover, &counts[shorter as usize])?;
        counts.push(more)?;
    }
    Ok(counts)
}

/// How many words with one symbol more can be read from each state.
fn counts_of_one_more(alloc: Global, cover: &Cover, counts: &[u64]) -> Result<Vec<u64>, NoMemory>
    requires size { length counts.now ≡ length cover.now.graph }
    requires small { All (λ count. count ≤ 2 ^ 38) counts.now }
    ensures { (q : ℕ) → AreWordCounts cover.now.graph q counts.now
        → IfOk result (λ more. AreWordCounts cover.now.graph (suc q) more.items) }
{
    let states = cover.graph.states();
    let mut more = Vec::with_capacity(alloc, states as usize)?;
    for state in 0..states {
        let count = sum_at_targets(cover.graph.row(CoverName::at(state)), counts);
        more.push(count)?;
    }
    Ok(more)
}

/// The counts at the edges' targets, added up.
fn sum_at_targets(edges: &[Edge<CoverName>], counts: &[u64]) -> u64
    requires few { length edges.now ≤ 4 }
    requires inside { All (λ edge. edge.to < length counts.now) edges.now }
    requires small { All (λ count. count ≤ 2 ^ 38) counts.now }
    ensures { result
        ≡ target_total (λ to. slice_index counts.now to)
        (map (edge_data (λ name. name)) edges.now) }
{
    let mut sum = 0;
    for edge in edges {
        sum += counts[edge.to.index() as usize];
    }
    sum
}

/// The rows of the power.
fn listed_rows(
    alloc: Global,
    cover: &Cover,
    q: u32,
    counts: &[Vec<u64>],
) -> Result<Vec<Vec<Edge<CoverName>>>, NoMemory>
    requires twenty { q ≤ 20 }
    requires counted { AreCountedTo cover.now.graph q (matrix_data counts.now) }
    ensures { IfOk result (λ rows. rows_data (λ name. name) rows.items ≡ power_rows cover.now q) }
{
    let states = cover.graph.states();
    let mut rows = Vec::with_capacity(alloc, states as usize)?;
    for state in 0..states {
        let many = counts[q as usize][state as usize];
        let row = listed_row(alloc, cover, q, counts, CoverName::at(state), many as usize)?;
        rows.push(row)?;
    }
    Ok(rows)
}

/// The row of a state, in room for `many` edges.
fn listed_row(
    alloc: Global,
    cover: &Cover,
    q: u32,
    counts: &[Vec<u64>],
    state: CoverName,
    many: usize,
) -> Result<Vec<Edge<CoverName>>, NoMemory>
    requires twenty { q ≤ 20 }
    requires counted { AreCountedTo cover.now.graph q (matrix_data counts.now) }
    requires inside { state < length cover.now.graph }
    requires four { cover.now.alphabet ≤ 4 }
    ensures { IfOk result (λ row.
        map (edge_data (λ name. name)) row.items ≡ words_from cover.now q 0 state) }
{
    let mut row = Vec::with_capacity(alloc, many)?;
    let start = Edge {
        block: Block { value: 0 },
        to: state,
    };
    read_on(cover, counts, start, q, &mut row)?;
    Ok(row)
}

/// Lists the words that go on from the one that the edge `read` stands for, by `left` symbols.
///
/// A state from which no such word can be read is passed over.
fn read_on(
    cover: &Cover,
    counts: &[Vec<u64>],
    read: Edge<CoverName>,
    left: u32,
    row: &mut Vec<Edge<CoverName>>,
) -> Result<(), NoMemory>
    requires inside { read.to < length cover.now.graph }
    requires counted { (i : ℕ) → i < left
        → AreWordCounts cover.now.graph i (slice_index_or (matrix_data counts.now) i []) }
    requires levels { left ≤ length counts.now }
    requires fits { (read.block.value + 1) * cover.now.alphabet ^ left ≤ 2 ^ 40 }
    ensures { IfOk result (λ _. map (edge_data (λ name. name)) row.new.items
        ≡ map (edge_data (λ name. name)) row.old.items ++ words_from cover.now left read.block.value read.to) }
{
    if left == 0 {
        row.push(read)?;
        return Ok(());
    }
    for edge in cover.graph.row(read.to) {
        if counts[left as usize - 1][edge.to.index() as usize] > 0 {
            let more = Edge {
                block: Block {
                    value: read.block.value * u64::from(cover.alphabet) + edge.block.value,
                },
                to: edge.to,
            };
            read_on(cover, counts, more, left - 1, row)?;
        }
    }
    Ok(())
}
