//! Why a call on a list of terms failed.
use std::alloc::{AllocError, AllocFailed};

/// Why a call on a list of terms failed.
#[derive(Clone, Copy, Debug)]
pub enum TermListError {
    /// Out of memory.
    Memory,
    /// The list has no term at this index.
    Index,
}

impl From<AllocError> for TermListError {
    ghost use Rattle.std.specs.Prelude.{◌≡◌};
    ghost use Rattle.terms_tests.specs.declared.term_list_error.TermListError.TheVariants.{Memory};

    ghost from_gives = { λ _ lost. lost ≡ Memory };

    fn from(_error: AllocError) -> TermListError {
        TermListError::Memory
    }
}

impl<T: Drop> From<AllocFailed<T>> for TermListError {
    ghost use Rattle.std.specs.Prelude.{◌≡◌};
    ghost use Rattle.terms_tests.specs.declared.term_list_error.TermListError.TheVariants.{Memory};

    ghost from_gives = { λ _ lost. lost ≡ Memory };

    fn from(_error: AllocFailed<T>) -> TermListError {
        TermListError::Memory
    }
}
