//! Why a command that looks for its whole answer before it writes has none.

use lotos_outcome::Stop;
use std::alloc::AllocError;

/// Why there is no answer. `P` is what is known of the place where the search for it stops.
#[derive(Drop)]
pub(crate) struct Halt<P> {
    pub cause: Stop,
    /// Where the search stops, if that is the cause.
    pub place: Option<P>,
}

impl<P> From<AllocError> for Halt<P> {
    ghost use Rattle.lotos_tool.specs.Halts.{IsMemoryHalt};

    ghost from_gives = { λ _ halt. IsMemoryHalt halt };

    fn from(_error: AllocError) -> Halt<P> {
        Halt {
            cause: Stop::Memory,
            place: None,
        }
    }
}
