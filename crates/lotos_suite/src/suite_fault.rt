//! Why a suite is not found.

use std::alloc::{AllocError, AllocFailed};

/// Why a suite is not found.
#[derive(Debug, Drop)]
pub enum SuiteFault {
    /// The suite has more lines than asked for.
    TooManyLines,
    /// Memory ran out.
    Memory,
}

impl From<AllocError> for SuiteFault {
    ghost use Rattle.std.specs.Prelude.{◌≡◌};
    ghost use Rattle.lotos_suite.specs.declared.suite_fault.SuiteFault.TheVariants.{Memory};

    ghost from_gives = { λ _ fault. fault ≡ Memory };

    fn from(_error: AllocError) -> SuiteFault {
        SuiteFault::Memory
    }
}

impl<T: Drop> From<AllocFailed<T>> for SuiteFault {
    ghost use Rattle.std.specs.Prelude.{◌≡◌};
    ghost use Rattle.lotos_suite.specs.declared.suite_fault.SuiteFault.TheVariants.{Memory};

    ghost from_gives = { λ _ fault. fault ≡ Memory };

    fn from(_error: AllocFailed<T>) -> SuiteFault {
        SuiteFault::Memory
    }
}
