ghost use Rattle.std.specs.Prelude.{◌≡◌, ◌+◌, ◌*◌, ◌^◌, ◌<◌, ◌≤◌, length, IfOk};
ghost use Rattle.code_spec.specs.Code.{IsCode, IsState, IsDataWord};
ghost use Rattle.least_walks.specs.Graph.{AreArcsBelow};
ghost use Rattle.code_check.specs.inside.ByBlock.{AreByBlock};
ghost use Rattle.code_check.specs.inside.PairGraph.{pair_graph};

use crate::by_block::{BlockWord, all_by_block};
use crate::landings::pairs_led_to;
use crate::meets::meet_in;
use code_model::Code;
use least_walks::{Arc, Arcs, ImplicitGraph, NodeSet, PairGraph};
use std::alloc::Global;
use std::marker::Model;
use symbol_base::{CodeName, Name, NoMemory};

/// The graph of the pairs of states of a code, with the pairs of steps that write the same block.
#[derive(Drop)]
pub struct Pairs<'a> {
    code: &'a Code,
    by_block: Vec<Vec<BlockWord>>,
}

impl<'a> Model for Pairs<'a> {
    ghost use Rattle.std.specs.Prelude.{length};
    ghost use Rattle.code_spec.specs.Code.{CodeData};

    ghost Value = { CodeData };

    ghost view = { λ pairs. pairs.code.now };

    ghost use Rattle.code_check.specs.inside.ByBlock.{HasByBlock};

    ghost invariant = { λ pairs. HasByBlock pairs.code.now (length pairs.code.now.rows) pairs.by_block.items };
}

impl<'a> Pairs<'a> {
    /// The graph of the pairs of states of this code.
    pub fn of(alloc: Global, code: &'a Code) -> Result<Pairs<'a>, NoMemory>
        ensures code { IfOk result (λ pairs. pairs ≡ code.now) }
        ensures table { IsCode code.now }
    {
        let by_block = all_by_block(alloc, code)?;
        Ok(Pairs { code, by_block })
    }
}

impl<'a> ImplicitGraph for Pairs<'a> {
    ghost graph = { λ c. pair_graph c };

    fn node_count(&self) -> usize {
        let states = self.code.state_count() as usize;
        states * states
    }

    fn arcs_of(&self, node: usize, room: &mut Vec<Arc>) -> Result<(), NoMemory> {
        let states = self.code.state_count() as usize;
        let first = CodeName::at((node / states) as u32);
        let second = CodeName::at((node % states) as u32);
        room.clear();
        for word in 0..self.code.word_count() {
            pair_word(
                self.code,
                first,
                second,
                &self.by_block[node % states],
                word,
                room,
            )?;
        }
        Ok(())
    }
}

impl<'a> PairGraph for Pairs<'a> {
    ghost use Rattle.std.specs.Prelude.{◌^◌};

    ghost words = { λ c. 2 ^ c.p };

    fn word_count(&self) -> u32 {
        self.code.word_count()
    }

    fn targets(&self, alloc: Global) -> Result<NodeSet, NoMemory> {
        pairs_led_to(alloc, self.code)
    }

    fn leads_into(&self, node: usize, arcs: Arcs, set: &NodeSet) -> bool {
        let states = self.code.state_count() as usize;
        let first = &self.by_block[node / states];
        let second = &self.by_block[node % states];
        meet_in(first, second, arcs, states, set)
    }
}

/// Puts the arcs behind those in the room that pair this word of the first state with words of the
/// second one, whose list this is.
fn pair_word(
    code: &Code,
    first: CodeName,
    second: CodeName,
    list: &[BlockWord],
    word: u32,
    room: &mut Vec<Arc>,
) -> Result<(), NoMemory>
    requires first { IsState code.now first }
    requires second { IsState code.now second }
    requires list { AreByBlock code.now second (2 ^ code.now.p) list.now }
    requires word { IsDataWord code.now word }
    requires room { AreArcsBelow (pair_graph code.now) (first * length code.now.rows + second)
        (word * 2 ^ code.now.p) room.old.items }
    ensures room { IfOk result (λ _.
        AreArcsBelow (pair_graph code.now) (first * length code.now.rows + second)
        ((word + 1) * 2 ^ code.now.p) room.new.items) }
{
    let (block, to) = code.step(first, word);
    let from = list.partition_point(|other| other.block.value < block.value);
    for at in from..list.len() {
        let other = list[at];
        if other.block.value != block.value {
            return Ok(());
        }
        let (_, next) = code.step(second, other.word);
        room.push(Arc {
            label: pair_number(word, other.word, code.word_count()),
            to: pair_number(to.index(), next.index(), code.state_count()) as usize,
        })?;
    }
    Ok(())
}

/// The number of a pair of numbers that are below so many: the first times their number, and the
/// second.
fn pair_number(first: u32, second: u32, count: u32) -> u32
    requires first { first < count }
    requires second { second < count }
    requires few { count ≤ 512 }
    ensures value { result ≡ first * count + second }
    ensures below { result < count * count }
{
    first * count + second
}
