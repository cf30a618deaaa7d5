ghost use Rattle.std.specs.Prelude.{◌≡◌};
ghost use Rattle.min_cover.specs.declared.fault.CoverFault.{CoverFault};
ghost use Rattle.code_check.specs.CheckFault.{of_cover};
ghost use Rattle.code_check.specs.declared.fault.CheckFault.TheVariants as faults;

use crate::Walk;
use min_cover::CoverFault;
use symbol_base::{NoMemory, WordList};

/// Why a code isn't a checked one, or isn't checked.
#[derive(Debug, Drop, PartialEq, Eq)]
pub enum CheckFault {
    /// The words of its constraint have more than 4,096 raw states; the number is 4,097.
    RawStates(u32),
    /// The cover of its constraint has so many states, more than 256.
    CoverStates(u32),
    /// The least data words that write no word of the constraint from state 0: the shortest, and of
    /// these the smallest at the first difference.
    OutOfConstraint(WordList),
    /// The least pair of walks that write the same blocks, and have unlike words where the window
    /// is to tell the word.
    Ambiguous(Walk, Walk),
    /// Memory was wanted and not found.
    NoMemory,
}

impl From<NoMemory> for CheckFault {
    ghost from_gives = { λ _ fault. fault ≡ faults.NoMemory };

    fn from(_error: NoMemory) -> CheckFault {
        CheckFault::NoMemory
    }
}

impl From<CoverFault> for CheckFault {
    ghost from_gives = { λ fault given. given ≡ of_cover fault };

    fn from(fault: CoverFault) -> CheckFault {
        match fault {
            CoverFault::RawStates(count) => CheckFault::RawStates(count),
            CoverFault::CoverStates(count) => CheckFault::CoverStates(count),
            CoverFault::NoMemory => CheckFault::NoMemory,
        }
    }
}
