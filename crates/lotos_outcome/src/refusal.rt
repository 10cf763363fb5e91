//! Why a command is refused.

use crate::shown::{GivenName, PositionText};
use lotos_check::CheckFault;
use lotos_listing::MarkFault;
use lotos_pattern::PatternFault;
use lotos_text::TextFault;
use thiserror::Error;

/// Why a command is refused. Lines and columns are counted from 1, columns in bytes.
#[derive(Debug, Drop, Error)]
pub enum Refusal {
    /// The text spells no specification. `place` is the line and the column of the fault's offset; E03 has none. The
    /// fault is never E99.
    #[error("{}{}", PositionText(*.place), .fault)]
    Text {
        fault: TextFault,
        place: Option<(usize, usize)>,
    },
    /// The specification breaks a static rule. `line` and `column` are those of the fault's offset. The fault is never
    /// E99.
    #[error("{}{}", PositionText(Some((*.line, *.column))), .fault)]
    Check {
        fault: CheckFault,
        line: usize,
        column: usize,
    },
    /// The words spell no pattern. The fault is never E99.
    #[error(transparent)]
    Pattern(PatternFault),
    /// The word of the sequence with this number, counted from 1, names no label.
    #[error("E41 word {0} is no label")]
    E41(usize),
    /// The word of the sequence with this number, counted from 1, is `i`, and internal steps are not observed.
    #[error("E45 word {0} is i, which cannot be observed")]
    E45(usize),
    /// The line of the mark is not a line of a listing. The fault is never E99.
    #[error(transparent)]
    Mark(MarkFault),
    /// The input cannot be read.
    #[error("E47 input cannot be read")]
    E47,
    /// The word of the pattern or the sequence with this number, counted from 1, is the first that names no gate of the
    /// system that is asked: none of the specification's own list, or one that `--hide` or `--only` hides.
    #[error("E49 word {0} is no gate of the specification")]
    E49(usize),
    /// The name, as an option of the command line gives it, is the first one there that is no gate of the specification's
    /// own list.
    #[error("E52 {} is no gate of the specification", GivenName(.0.as_str()))]
    E52(String),
}

impl Refusal {
    /// Whether the text is refused, for a fault of the parser or of the static check.
    pub fn is_of_text(&self) -> bool {
        matches!(self, Refusal::Text { .. } | Refusal::Check { .. })
    }
}
