//! Why a search for the lines of a cover stops before its end.

use lotos_automaton::AutomatonFault;
use std::alloc::{AllocError, AllocFailed};

/// Why a search for the lines of a cover stops before its end.
#[derive(Debug, Drop)]
pub enum CoverHalt {
    /// The exploration of what can be observed stops, or memory ran out.
    Fault(AutomatonFault),
    /// An earlier call returned a fault.
    Failed,
}

impl From<AutomatonFault> for CoverHalt {
    ghost use Rattle.std.specs.Prelude.{◌≡◌};
    ghost use Rattle.lotos_suite.specs.declared.cover_halt.CoverHalt.TheVariants.{Fault};

    ghost from_gives = { λ fault halt. halt ≡ Fault fault };

    fn from(fault: AutomatonFault) -> CoverHalt {
        CoverHalt::Fault(fault)
    }
}

impl From<AllocError> for CoverHalt {
    ghost use Rattle.std.specs.Prelude.{◌≡◌};
    ghost use Rattle.lotos_automaton.specs.declared.automaton_fault.AutomatonFault.TheVariants.{Memory};
    ghost use Rattle.lotos_suite.specs.declared.cover_halt.CoverHalt.TheVariants.{Fault};

    ghost from_gives = { λ _ halt. halt ≡ Fault Memory };

    fn from(_error: AllocError) -> CoverHalt {
        CoverHalt::Fault(AutomatonFault::Memory)
    }
}

impl<T: Drop> From<AllocFailed<T>> for CoverHalt {
    ghost use Rattle.std.specs.Prelude.{◌≡◌};
    ghost use Rattle.lotos_automaton.specs.declared.automaton_fault.AutomatonFault.TheVariants.{Memory};
    ghost use Rattle.lotos_suite.specs.declared.cover_halt.CoverHalt.TheVariants.{Fault};

    ghost from_gives = { λ _ halt. halt ≡ Fault Memory };

    fn from(_error: AllocFailed<T>) -> CoverHalt {
        CoverHalt::Fault(AutomatonFault::Memory)
    }
}
