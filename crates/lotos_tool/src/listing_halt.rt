//! Why the search of a listing stops before its end.

use lotos_automaton::AutomatonFault;
use lotos_listing::Halt;
use lotos_suite::CoverHalt;
use lotos_terms::Label;

/// Why the search of a listing stopped before its end.
#[derive(Debug, Drop)]
pub(crate) enum ListingHalt {
    /// The first sequence at which the listing stops: a prefix that can still match and reaches more terms than the
    /// bound, or a sequence of a cover that reaches more normal forms.
    OverTerms(Vec<Label>),
    /// The first sequence at which the listing stops leads to one set of normal forms more than the bound.
    OverStates,
    /// Out of memory.
    Memory,
    /// An earlier call returned one of the other halts.
    Failed,
}

impl From<Halt> for ListingHalt {
    ghost use Rattle.std.specs.Prelude.{◌≡◌};
    ghost use Rattle.lotos_tool.specs.ListingQuestions.{halt_of};

    ghost from_gives = { λ halt own. own ≡ halt_of halt };

    fn from(halt: Halt) -> ListingHalt {
        match halt {
            Halt::OverTerms(prefix) => ListingHalt::OverTerms(prefix),
            Halt::Memory => ListingHalt::Memory,
            Halt::Failed => ListingHalt::Failed,
        }
    }
}

impl From<CoverHalt> for ListingHalt {
    ghost use Rattle.std.specs.Prelude.{◌≡◌};
    ghost use Rattle.lotos_tool.specs.ListingQuestions.{cover_halt_of};

    ghost from_gives = { λ halt own. own ≡ cover_halt_of halt };

    fn from(halt: CoverHalt) -> ListingHalt {
        match halt {
            CoverHalt::Fault(AutomatonFault::OverTerms(sequence)) => {
                ListingHalt::OverTerms(sequence)
            }
            CoverHalt::Fault(AutomatonFault::OverStates(_)) => ListingHalt::OverStates,
            CoverHalt::Fault(AutomatonFault::Memory) => ListingHalt::Memory,
            CoverHalt::Failed => ListingHalt::Failed,
        }
    }
}
