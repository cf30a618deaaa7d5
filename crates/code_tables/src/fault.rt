ghost use Rattle.std.specs.Prelude.{◌≡◌};

use std::alloc::{AllocError, AllocFailed};
use symbol_base::NoMemory;
use thiserror::Error;

/// Why a code file was not read.
#[derive(Clone, Copy, Debug, PartialEq, Eq, Error)]
pub enum CodeTextFault {
    /// The number, from 1, of the first line that breaks its rule.
    #[error("line {0} breaks its rule")]
    BadCode(u64),
    /// Memory was wanted and not found.
    #[error("out of memory")]
    NoMemory,
}

impl From<NoMemory> for CodeTextFault {
    ghost use Rattle.code_tables.specs.declared.fault.CodeTextFault.TheVariants as faults;

    ghost from_gives = { λ _ fault. fault ≡ faults.NoMemory };

    fn from(_error: NoMemory) -> CodeTextFault {
        CodeTextFault::NoMemory
    }
}

impl From<AllocError> for CodeTextFault {
    ghost use Rattle.code_tables.specs.declared.fault.CodeTextFault.TheVariants as faults;

    ghost from_gives = { λ _ fault. fault ≡ faults.NoMemory };

    fn from(_error: AllocError) -> CodeTextFault {
        CodeTextFault::NoMemory
    }
}

impl<T: Drop> From<AllocFailed<T>> for CodeTextFault {
    ghost use Rattle.code_tables.specs.declared.fault.CodeTextFault.TheVariants as faults;

    ghost from_gives = { λ _ fault. fault ≡ faults.NoMemory };

    fn from(_error: AllocFailed<T>) -> CodeTextFault {
        CodeTextFault::NoMemory
    }
}
