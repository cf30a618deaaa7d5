ghost use Rattle.std.specs.Prelude.{◌≡◌, ◌≤◌};

use symbol_base::ByteList;

/// A key of a constraint file.
#[derive(Clone, Copy, Debug, PartialEq, Eq)]
pub enum Key {
    /// `alphabet`: the number of symbols.
    Alphabet,
    /// `d`: the least number of 0s between two 1s.
    D,
    /// `k`: the greatest number of successive 0s.
    K,
    /// `forbid`: the forbidden words, as texts of digits.
    Forbid,
    /// `edge`: the edges of the graph, as tables.
    Edges,
}

impl Key {
    ghost use Rattle.constraint_file_spec.specs.Keys.{all_keys, key_name, least, most};

    /// The five keys, in the order in which a reader looks at their values.
    pub fn all() -> [Key; 5]
        ensures { result ≡ all_keys }
    {
        [Key::Alphabet, Key::D, Key::K, Key::Forbid, Key::Edges]
    }

    /// The key as it stands in a file.
    pub fn name(self) -> &'static str
        ensures { result.now ≡ key_name self }
    {
        match self {
            Key::Alphabet => "alphabet",
            Key::D => "d",
            Key::K => "k",
            Key::Forbid => "forbid",
            Key::Edges => "edge",
        }
    }

    /// The least value: a number of symbols or of 0s, or a count of words or edges.
    pub fn least(self) -> u32
        ensures value { result ≡ least self }
        ensures below { result ≤ most self }
    {
        match self {
            Key::Alphabet => 2,
            Key::D | Key::K | Key::Forbid | Key::Edges => 0,
        }
    }

    /// The greatest value of the same kind.
    pub fn most(self) -> u32
        ensures value { result ≡ most self }
        ensures below { result ≤ 2048 }
    {
        match self {
            Key::Alphabet => 2,
            Key::D | Key::K => 100,
            Key::Forbid => 128,
            Key::Edges => 2048,
        }
    }
}

/// An edge as a constraint file lists it: the names of two states and a label, all three texts.
#[derive(Debug, Drop)]
pub struct ListedEdge {
    pub from: ByteList,
    pub label: ByteList,
    pub to: ByteList,
}
