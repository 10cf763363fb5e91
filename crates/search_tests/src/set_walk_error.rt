//! Why a walk over sets failed.
use lotos_sets::SetFault;
use std::alloc::{AllocError, AllocFailed};

/// Why a walk over sets failed.
#[derive(Clone, Copy, Debug)]
pub enum WalkError {
    /// A set would have more terms than the bound.
    TooManyTerms,
    /// Out of memory.
    Memory,
    /// There is no set with this number, or no such label.
    Unknown,
}

impl From<AllocError> for WalkError {
    ghost use Rattle.std.specs.Prelude.{◌≡◌};
    ghost use Rattle.search_tests.specs.declared.set_walk_error.WalkError.TheVariants.{Memory};

    ghost from_gives = { λ _ error. error ≡ Memory };

    fn from(_error: AllocError) -> WalkError {
        WalkError::Memory
    }
}

impl<T: Drop> From<AllocFailed<T>> for WalkError {
    ghost use Rattle.std.specs.Prelude.{◌≡◌};
    ghost use Rattle.search_tests.specs.declared.set_walk_error.WalkError.TheVariants.{Memory};

    ghost from_gives = { λ _ error. error ≡ Memory };

    fn from(_error: AllocFailed<T>) -> WalkError {
        WalkError::Memory
    }
}

/// The error of a fault.
pub fn walk_error(fault: SetFault) -> WalkError {
    match fault {
        SetFault::TooManyTerms => WalkError::TooManyTerms,
        SetFault::Memory => WalkError::Memory,
    }
}
