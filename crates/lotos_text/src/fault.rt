//! Why a text spells no specification.
ghost use Rattle.std.specs.Prelude.{◌≡◌, alloc_error};
ghost use Rattle.lotos_text.specs.OffsetsInside.{text_offset};
ghost use Rattle.lotos_text.specs.declared.fault.TextFault.TheVariants.{E99};

use std::alloc::{AllocError, AllocFailed};
use thiserror::Error;

/// Why a text is rejected. The number in a fault is an offset: bytes from the start of the text.
#[derive(Debug, Drop, Error)]
pub enum TextFault {
    /// No blank, comment or token begins with the byte at the offset.
    #[error("E01 byte begins no token")]
    E01(usize),
    /// The comment that opens at the offset is not closed.
    #[error("E02 comment is not closed")]
    E02(usize),
    /// The text has more than [`crate::TEXT_LIMIT`] bytes.
    #[error("E03 text is longer than 1048576 bytes")]
    E03,
    /// The tokens up to and including the one at the offset begin no specification.
    #[error("E04 token is not expected")]
    E04(usize),
    /// The token at the offset opens a construct inside [`crate::NESTING_LIMIT`] open ones.
    #[error("E05 nesting is over 200")]
    E05(usize),
    /// The text ends too early: its tokens only begin a specification. The offset is its length.
    #[error("E06 text ends too early")]
    E06(usize),
    /// As E04, for a keyword of full LOTOS that this project's profile does not use.
    #[error("E07 word of full LOTOS")]
    E07(usize),
    /// Out of memory.
    #[error("E99 out of memory")]
    E99(AllocError),
}

impl TextFault {
    /// The offset of the fault, in bytes from the start of the text; `None` for E03 and E99.
    pub fn at(&self) -> Option<usize>
        ensures { result ≡ text_offset self.now }
    {
        match self {
            TextFault::E01(at)
            | TextFault::E02(at)
            | TextFault::E04(at)
            | TextFault::E05(at)
            | TextFault::E06(at)
            | TextFault::E07(at) => Some(*at),
            TextFault::E03 | TextFault::E99(_) => None,
        }
    }
}

impl From<AllocError> for TextFault {
    ghost from_gives = { λ x e. e ≡ E99 x };

    fn from(error: AllocError) -> TextFault {
        TextFault::E99(error)
    }
}

impl<T: Drop> From<AllocFailed<T>> for TextFault {
    ghost from_gives = { λ _ e. e ≡ E99 alloc_error };

    fn from(_error: AllocFailed<T>) -> TextFault {
        TextFault::E99(AllocError)
    }
}
