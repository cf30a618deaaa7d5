ghost use Rattle.std.specs.Prelude.{◌≡◌};

use crate::file::Key;
use std::alloc::{AllocError, AllocFailed};
use symbol_base::{ByteList, NoMemory};
use thiserror::Error;

/// Why a constraint file was not read: the first of the eight refusals that holds, in this order,
/// or want of memory.
#[derive(Debug, PartialEq, Eq, Drop, Error)]
pub enum ConstraintFault {
    /// The bytes are no document in TOML.
    #[error("not TOML")]
    NotToml,
    /// The least key, by its bytes, that is none of the five.
    #[error("an unknown key")]
    UnknownKey(ByteList),
    /// The first key, in the order of `Key`, whose value has another type than the key's.
    #[error("a value of the wrong type")]
    WrongType(Key),
    /// The first key, in the order of `Key`, whose number is out of its range.
    #[error("a number out of range")]
    OutOfRange(Key),
    /// `d` is greater than `k`.
    #[error("d is above k")]
    DAboveK,
    /// More than 128 forbidden words; more than 2,048 edges or more than 256 names of states.
    #[error("too many words, edges or states")]
    TooMany(Key),
    /// The place, from 0, of the first forbidden word that is not 1 to 32 digits of symbols.
    #[error("forbidden word {0} is no word")]
    BadWord(u32),
    /// The place, from 0, of the first edge whose label is not the digit of a symbol.
    #[error("the label of edge {0} is no symbol")]
    BadEdge(u32),
    /// Memory was wanted and not found.
    #[error("out of memory")]
    NoMemory,
}

impl From<NoMemory> for ConstraintFault {
    ghost use Rattle.constraint_file_spec.specs.declared.fault.ConstraintFault.TheVariants as faults;

    ghost from_gives = { λ _ fault. fault ≡ faults.NoMemory };

    fn from(_error: NoMemory) -> ConstraintFault {
        ConstraintFault::NoMemory
    }
}

impl From<AllocError> for ConstraintFault {
    ghost use Rattle.constraint_file_spec.specs.declared.fault.ConstraintFault.TheVariants as faults;

    ghost from_gives = { λ _ fault. fault ≡ faults.NoMemory };

    fn from(_error: AllocError) -> ConstraintFault {
        ConstraintFault::NoMemory
    }
}

impl<T: Drop> From<AllocFailed<T>> for ConstraintFault {
    ghost use Rattle.constraint_file_spec.specs.declared.fault.ConstraintFault.TheVariants as faults;

    ghost from_gives = { λ _ fault. fault ≡ faults.NoMemory };

    fn from(_error: AllocFailed<T>) -> ConstraintFault {
        ConstraintFault::NoMemory
    }
}
