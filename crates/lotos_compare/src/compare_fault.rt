//! Why a comparison stops.

use crate::line::Side;
use lotos_terms::Label;
use std::alloc::{AllocError, AllocFailed};

/// Why a comparison stops. The labels of a sequence are those of the first system's table.
#[derive(Debug, Drop)]
pub enum CompareFault {
    /// The first sequence that leads to a set of more normal forms than the bound, in the system of this side.
    OverTerms(Side, Vec<Label>),
    /// The first sequence that leads to one pair of sets more than the bound.
    OverPairs(Vec<Label>),
    /// Out of memory.
    Memory,
}

impl From<AllocError> for CompareFault {
    ghost use Rattle.std.specs.Prelude.{◌≡◌};
    ghost use Rattle.lotos_compare.specs.declared.compare_fault.CompareFault.TheVariants.{Memory};

    ghost from_gives = { λ _ fault. fault ≡ Memory };

    fn from(_error: AllocError) -> CompareFault {
        CompareFault::Memory
    }
}

impl<T: Drop> From<AllocFailed<T>> for CompareFault {
    ghost use Rattle.std.specs.Prelude.{◌≡◌};
    ghost use Rattle.lotos_compare.specs.declared.compare_fault.CompareFault.TheVariants.{Memory};

    ghost from_gives = { λ _ fault. fault ≡ Memory };

    fn from(_error: AllocFailed<T>) -> CompareFault {
        CompareFault::Memory
    }
}
