ghost use Rattle.std.specs.Prelude.{◌≡◌, ℕ};

use std::marker::Model;

/// A name of a graph's state: a number of 32 bits that stands for nothing but its state.
pub trait Name: Copy {
    ghost number: { Self → ℕ };

    ghost named: { ℕ → Self };

    /// The number of the name.
    fn index(self) -> u32
        ensures value { result ≡ number self }
        ensures again { named result ≡ self };

    /// The name of a number.
    fn at(index: u32) -> Self
        ensures value { result ≡ named index }
        ensures again { number result ≡ index };
}

/// A state of the cover of a constraint.
#[derive(Clone, Copy, Debug, PartialEq, Eq, PartialOrd, Ord, Hash)]
pub struct CoverName {
    number: u32,
}

impl Model for CoverName {
    ghost Value = { ℕ };

    ghost view = { λ name. name.number };

    ghost inverse = { λ n. record { number = n } };
}

impl Name for CoverName {
    ghost number = { λ name. name };

    ghost named = { λ n. n };

    fn index(self) -> u32 {
        self.number
    }

    fn at(index: u32) -> Self {
        CoverName { number: index }
    }
}

/// A state of a graph in the course of splitting.
#[derive(Clone, Copy, Debug, PartialEq, Eq, PartialOrd, Ord, Hash)]
pub struct SplitName {
    number: u32,
}

impl Model for SplitName {
    ghost Value = { ℕ };

    ghost view = { λ name. name.number };

    ghost inverse = { λ n. record { number = n } };
}

impl Name for SplitName {
    ghost number = { λ name. name };

    ghost named = { λ n. n };

    fn index(self) -> u32 {
        self.number
    }

    fn at(index: u32) -> Self {
        SplitName { number: index }
    }
}

/// A state of a code.
#[derive(Clone, Copy, Debug, PartialEq, Eq, PartialOrd, Ord, Hash)]
pub struct CodeName {
    number: u32,
}

impl Model for CodeName {
    ghost Value = { ℕ };

    ghost view = { λ name. name.number };

    ghost inverse = { λ n. record { number = n } };
}

impl Name for CodeName {
    ghost number = { λ name. name };

    ghost named = { λ n. n };

    fn index(self) -> u32 {
        self.number
    }

    fn at(index: u32) -> Self {
        CodeName { number: index }
    }
}
