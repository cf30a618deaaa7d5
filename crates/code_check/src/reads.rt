ghost use Rattle.std.specs.Prelude.{◌≡◌, ◌+◌, ◌*◌, ◌<◌, ◌≤◌, ◌^◌, length, IfOk};
ghost use Rattle.symbol_base.specs.Block.{symbols_of};
ghost use Rattle.code_spec.specs.Code.{IsCode};
ghost use Rattle.code_check.specs.inside.CoverMoves.{move_on};
ghost use Rattle.code_check.specs.inside.ReadGraph.{after, AreOutside};
ghost use Rattle.code_check.specs.inside.Reads.{graph_of};

use crate::reader::MoveTable;
use code_model::Code;
use label_graphs::Graph;
use least_walks::{Arc, ImplicitGraph};
use std::alloc::Global;
use std::marker::Model;
use symbol_base::{Block, CodeName, CoverName, Name, NoMemory};

/// The graph of a code's states, each beside the state of a cover that reads what the code writes.
///
/// Blocks are read half by half, from two tables made once: for blocks of 20 symbols and a cover of
/// 256 states they have 257 * 2^10 entries each.
#[derive(Drop)]
pub struct Reads<'a> {
    code: &'a Code,
    cover: &'a Graph<CoverName>,
    front: MoveTable,
    back: MoveTable,
}

impl<'a> Model for Reads<'a> {
    ghost use Rattle.code_check.specs.inside.Reads.{ReadData, KeepsTables};

    ghost Value = { ReadData };

    ghost view = { λ reads. record { code = reads.code.now; cover = reads.cover.now } };

    ghost invariant = { λ reads. KeepsTables (record { code = reads.code.now; cover = reads.cover.now }) reads.front reads.back };
}

impl<'a> Reads<'a> {
    /// The graph of this code and this cover.
    pub fn of(
        alloc: Global,
        code: &'a Code,
        cover: &'a Graph<CoverName>,
    ) -> Result<Reads<'a>, NoMemory>
        requires few { length cover.now ≤ 256 }
        ensures code { IfOk result (λ reads. reads.code ≡ code.now) }
        ensures cover { IfOk result (λ reads. reads.cover ≡ cover.now) }
    {
        let half = code.q / 2;
        let front = MoveTable::of(alloc, cover, code.q - half)?;
        let back = MoveTable::of(alloc, cover, half)?;
        Ok(Reads {
            code,
            cover,
            front,
            back,
        })
    }

    /// The nodes at which what was read is no word, as marks.
    pub fn outside(&self, alloc: Global) -> Result<Vec<bool>, NoMemory>
        ensures count { IfOk result (λ goals. length goals.items ≡ (graph_of self.now).nodes) }
        ensures goals { IfOk result (λ goals.
            AreOutside self.now.code (length self.now.cover) goals.items) }
        ensures table { IsCode self.now.code }
    {
        let none = self.cover.states() as usize;
        let nodes = (none + 1) * self.code.state_count() as usize;
        let mut goals = Vec::with_capacity(alloc, nodes)?;
        for node in 0..nodes {
            goals.push(node % (none + 1) == none)?;
        }
        Ok(goals)
    }

    /// The state that the block leads to from this state of the cover.
    fn read(&self, state: u32, block: Block) -> u32
        requires state { state ≤ length self.now.cover }
        requires block { block.value < 2 ^ self.now.code.q }
        ensures read { result
            ≡ after (move_on self.now.cover) state (symbols_of 2 self.now.code.q block.value) }
        ensures inside { result ≤ length self.now.cover }
    {
        let symbols = self.back.symbols();
        let front = block.value >> symbols;
        let back = block.value & ((1 << symbols) - 1);
        let middle = self.front.state_after(state, front);
        self.back.state_after(middle, back)
    }
}

impl<'a> ImplicitGraph for Reads<'a> {
    ghost graph = { λ reads. graph_of reads };

    fn node_count(&self) -> usize {
        let width = self.cover.states() as usize + 1;
        width * self.code.state_count() as usize
    }

    fn arcs_of(&self, node: usize, room: &mut Vec<Arc>) -> Result<(), NoMemory> {
        let words = self.code.word_count();
        let width = self.cover.states() as usize + 1;
        let state = CodeName::at((node / width) as u32);
        let read = (node % width) as u32;
        room.clear();
        for word in 0..words {
            let (block, to) = self.code.step(state, word);
            let read_on = self.read(read, block);
            room.push(Arc {
                label: word,
                to: to.index() as usize * width + read_on as usize,
            })?;
        }
        Ok(())
    }
}
