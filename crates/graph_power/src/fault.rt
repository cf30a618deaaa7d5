ghost use Rattle.std.specs.Prelude.{◌≡◌};
ghost use Rattle.graph_power.specs.declared.fault.PowerFault.TheVariants as faults;

use std::alloc::{AllocError, AllocFailed};
use symbol_base::NoMemory;

/// Why the power of a cover isn't given.
#[derive(Clone, Copy, Debug, PartialEq, Eq)]
pub enum PowerFault {
    /// It has so many edges, more than 262,144.
    PowerEdges(u64),
    /// Memory was wanted and not found.
    NoMemory,
}

impl From<NoMemory> for PowerFault {
    ghost from_gives = { λ _ fault. fault ≡ faults.NoMemory };

    fn from(_error: NoMemory) -> PowerFault {
        PowerFault::NoMemory
    }
}

impl From<AllocError> for PowerFault {
    ghost from_gives = { λ _ fault. fault ≡ faults.NoMemory };

    fn from(_error: AllocError) -> PowerFault {
        PowerFault::NoMemory
    }
}

impl<T: Drop> From<AllocFailed<T>> for PowerFault {
    ghost from_gives = { λ _ fault. fault ≡ faults.NoMemory };

    fn from(_error: AllocFailed<T>) -> PowerFault {
        PowerFault::NoMemory
    }
}
