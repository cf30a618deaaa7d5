ghost use Rattle.std.specs.Prelude.{◌≡◌};
ghost use Rattle.min_cover.specs.declared.fault.CoverFault.TheVariants as faults;
ghost use Rattle.min_cover.specs.declared.fault.MemoryFault.TheVariants as memory_faults;

use label_graphs::TwoStates;
use std::alloc::{AllocError, AllocFailed};
use symbol_base::NoMemory;

/// Why the cover of a constraint isn't given.
#[derive(Clone, Copy, Debug, PartialEq, Eq)]
pub enum CoverFault {
    /// The words have more than 4,096 raw states; the number is 4,097.
    RawStates(u32),
    /// The cover has so many states, more than 256.
    CoverStates(u32),
    /// Memory was wanted and not found.
    NoMemory,
}

impl From<NoMemory> for CoverFault {
    ghost from_gives = { λ _ fault. fault ≡ faults.NoMemory };

    fn from(_error: NoMemory) -> CoverFault {
        CoverFault::NoMemory
    }
}

impl From<AllocError> for CoverFault {
    ghost from_gives = { λ _ fault. fault ≡ faults.NoMemory };

    fn from(_error: AllocError) -> CoverFault {
        CoverFault::NoMemory
    }
}

impl<T: Drop> From<AllocFailed<T>> for CoverFault {
    ghost from_gives = { λ _ fault. fault ≡ faults.NoMemory };

    fn from(_error: AllocFailed<T>) -> CoverFault {
        CoverFault::NoMemory
    }
}

/// Why the memory of a cover isn't given.
#[derive(Debug, Drop)]
pub enum MemoryFault {
    /// No number of symbols tells the state: these two read one word back to themselves, so often
    /// as one likes. They are the least such states, by the first and then by the second, and the
    /// word is the shortest one, and the smallest of these.
    Infinite(TwoStates),
    /// The memory is so long, more than 256.
    TooLong(u32),
    /// Memory was wanted and not found.
    NoMemory,
}

impl From<NoMemory> for MemoryFault {
    ghost from_gives = { λ _ fault. fault ≡ memory_faults.NoMemory };

    fn from(_error: NoMemory) -> MemoryFault {
        MemoryFault::NoMemory
    }
}

impl From<AllocError> for MemoryFault {
    ghost from_gives = { λ _ fault. fault ≡ memory_faults.NoMemory };

    fn from(_error: AllocError) -> MemoryFault {
        MemoryFault::NoMemory
    }
}
