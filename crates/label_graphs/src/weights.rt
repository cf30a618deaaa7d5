ghost use Rattle.std.specs.Prelude.{◌≡◌, ◌<◌, ◌^◌, length, slice_index};
ghost use Rattle.std.specs.List.{sum};

use std::marker::Model;

/// A number for each state of a graph.
#[derive(Debug, Drop)]
pub struct Weights {
    list: Vec<u32>,
}

impl Model for Weights {
    ghost use Rattle.std.specs.Prelude.{ℕ, ◌<◌, ◌^◌, List, length};

    ghost Value = { List ℕ };

    ghost view = { λ weights. weights.list.items };

    ghost invariant = { λ weights. length weights.list.items < 2 ^ 32 };
}

impl Weights {
    /// The weights of a list, one for each state.
    pub fn from_list(list: Vec<u32>) -> Weights
        requires { length list.items < 2 ^ 32 }
        ensures { result ≡ list.items }
    {
        Weights { list }
    }

    /// How many states have a weight.
    pub fn len(&self) -> u32
        ensures count { result ≡ length self.now }
    {
        self.list.len() as u32
    }

    /// The weight of a state.
    pub fn at(&self, index: u32) -> u32
        requires { index < length self.now }
        ensures { result ≡ slice_index self.now index }
    {
        self.list[index as usize]
    }

    /// All weights, added up.
    pub fn total(&self) -> u64
        ensures { result ≡ sum self.now }
    {
        let mut total = 0;
        for weight in &self.list {
            total += u64::from(*weight);
        }
        total
    }
}
