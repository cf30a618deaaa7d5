ghost use Rattle.std.specs.Prelude.{◌≡◌, ◌↔◌, IsTrue};
ghost use Rattle.shelf_io.specs.Calls.{FailsNext, OneMore};

use crate::outside::one_more;
use std::marker::Model;

/// Calls that are counted, some of which fail by their number. The first call is number 1.
#[derive(Drop)]
pub(crate) struct FailingCalls {
    made: u64,
    failing: Vec<u64>,
}

impl Model for FailingCalls {
    ghost use Rattle.shelf_io.specs.Calls.{Calls};

    ghost Value = { Calls };

    ghost view = { λ calls. record { made = calls.made; failing = calls.failing.items } };
}

impl FailingCalls {
    /// No calls yet, of which those with these numbers will fail.
    pub(crate) fn new(failing: Vec<u64>) -> FailingCalls
        ensures made { result.made ≡ 0 }
        ensures failing { result.failing ≡ failing.items }
    {
        FailingCalls { made: 0, failing }
    }

    /// Counts a call, and tells whether it is one of those that fail.
    pub(crate) fn next_fails(&mut self) -> bool
        ensures fails { IsTrue result ↔ FailsNext self.old }
        ensures counted { OneMore self.old self.new }
    {
        self.made = one_more(self.made);
        self.failing.contains(&self.made)
    }
}
