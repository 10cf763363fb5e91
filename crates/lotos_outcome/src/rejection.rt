//! Why a command gets no question: one of its parts is refused, or memory runs out.
ghost use Rattle.std.specs.Prelude.{◌≡◌};
ghost use Rattle.lotos_outcome.specs.RefusalCauses.{is_memory};
ghost use Rattle.lotos_outcome.specs.Rejections.{end_of};

use crate::outcome::{Ended, Stop};
use crate::refusal::Refusal;
use lotos_listing::MarkFault;
use lotos_pattern::{PatternFault, WordFault};
use std::alloc::AllocError;

/// Why the words and the text of a command make no question: one of them is refused, or memory ran out.
#[derive(Debug, Drop)]
pub enum Rejection {
    Refused(Refusal),
    Memory,
}

impl From<AllocError> for Rejection {
    ghost use Rattle.std.specs.Prelude.{◌≡◌};
    ghost use Rattle.lotos_outcome.specs.declared.rejection.Rejection.TheVariants.{Memory};

    ghost from_gives = { λ _ rejection. rejection ≡ Memory };

    fn from(_error: AllocError) -> Rejection {
        Rejection::Memory
    }
}

impl From<PatternFault> for Rejection {
    ghost use Rattle.std.specs.Prelude.{◌≡◌};
    ghost use Rattle.lotos_outcome.specs.Rejections.{pattern_rejection};

    ghost from_gives = { λ fault rejection. rejection ≡ pattern_rejection fault };

    fn from(fault: PatternFault) -> Rejection {
        if is_memory(&fault) {
            return Rejection::Memory;
        }
        Rejection::Refused(Refusal::Pattern(fault))
    }
}

impl From<MarkFault> for Rejection {
    ghost use Rattle.std.specs.Prelude.{◌≡◌};
    ghost use Rattle.lotos_outcome.specs.Rejections.{mark_rejection};

    ghost from_gives = { λ fault rejection. rejection ≡ mark_rejection fault };

    fn from(fault: MarkFault) -> Rejection {
        match fault {
            MarkFault::E46 => Rejection::Refused(Refusal::Mark(fault)),
            MarkFault::E99(_) => Rejection::Memory,
        }
    }
}

impl From<WordFault> for Rejection {
    ghost use Rattle.std.specs.Prelude.{◌≡◌};
    ghost use Rattle.lotos_outcome.specs.Rejections.{word_rejection};

    ghost from_gives = { λ fault rejection. rejection ≡ word_rejection fault };

    fn from(fault: WordFault) -> Rejection {
        match fault {
            WordFault::NoLabel(number) => Rejection::Refused(Refusal::E41(number)),
            WordFault::Internal(number) => Rejection::Refused(Refusal::E45(number)),
        }
    }
}

fn is_memory(fault: &PatternFault) -> bool
    ensures { result ≡ is_memory fault.now }
{
    matches!(fault, PatternFault::E99(_))
}

/// How a command ends whose parts are rejected. It has looked for no answer, and this is its place then.
pub fn end_of<F, P: Drop>(rejection: Rejection, nowhere: P) -> Ended<F, P>
    ensures { result ≡ end_of rejection nowhere }
{
    match rejection {
        Rejection::Refused(refusal) => Ended::Refused(refusal),
        Rejection::Memory => Ended::Stopped {
            cause: Stop::Memory,
            place: nowhere,
        },
    }
}
