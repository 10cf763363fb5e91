//! Why words spell no pattern.

use std::alloc::{AllocError, AllocFailed};
use thiserror::Error;

/// Why words spell no pattern. The number in a fault is that of a word, counted from 1.
#[derive(Clone, Copy, Debug, PartialEq, Eq, Error)]
pub enum PatternFault {
    /// The word neither names labels nor begins an element.
    #[error("E41 word {0} is neither a label nor an element")]
    E41(usize),
    /// This word, `<until>`, is not followed by a set of labels or a demand on the end.
    #[error("E42 word {0} needs a label or <deadlock> after it")]
    E42(usize),
    /// The word follows an element that is a demand on the end.
    #[error("E43 word {0} follows an end element")]
    E43(usize),
    /// The word follows 256 elements, the most that a pattern may have.
    #[error("E44 pattern is over 256 elements")]
    E44(usize),
    /// The word is `i`, or has `i` among its names, and internal steps are not observed.
    #[error("E45 word {0} is i, which cannot be observed")]
    E45(usize),
    /// This word, `<while>`, is not followed by a set of labels or `<any>`.
    #[error("E48 word {0} needs a label or <any> after it")]
    E48(usize),
    /// This word is `<not>` and no word that names labels follows it, or `<refuses>` and no set of labels and no `<any>`
    /// follows it.
    #[error("E50 word {0} needs a label after it")]
    E50(usize),
    /// This word, `<livelock>`, `<forever>` or `<never>`, is a demand on the end that `ever` alone answers.
    #[error("E51 word {0} is answered by ever alone")]
    E51(usize),
    /// Out of memory.
    #[error("E99 out of memory")]
    E99(AllocError),
}

impl From<AllocError> for PatternFault {
    ghost use Rattle.std.specs.Prelude.{◌≡◌};
    ghost use Rattle.lotos_pattern.specs.declared.fault.PatternFault.TheVariants.{E99};

    ghost from_gives = { λ error fault. fault ≡ E99 error };

    fn from(error: AllocError) -> PatternFault {
        PatternFault::E99(error)
    }
}

impl<T: Drop> From<AllocFailed<T>> for PatternFault {
    ghost use Rattle.std.specs.Prelude.{◌≡◌, alloc_error};
    ghost use Rattle.lotos_pattern.specs.declared.fault.PatternFault.TheVariants.{E99};

    ghost from_gives = { λ _ fault. fault ≡ E99 alloc_error };

    fn from(_error: AllocFailed<T>) -> PatternFault {
        PatternFault::E99(AllocError)
    }
}
