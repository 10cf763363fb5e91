//! Observers of a command that searches.

use lotos_check::AcceptedText;
use lotos_listing::{NoProgress, Progress};

/// An observer of a command that searches. It is told when a text is read and when its specification is accepted, what
/// the search visits, and when a line is written.
pub trait OutputProgress: Progress {
    /// Is told that the text is read next.
    fn before_text(&mut self) {}

    /// Is told that the text is accepted, and what was found of it.
    fn accepted(&mut self, text: &[u8], accepted_text: &AcceptedText);

    /// Is told that the text is refused, or a name of the interface for it.
    fn refused(&mut self, _text: Vec<u8>) {}

    /// Is told that a line of the output is written next.
    fn before_line(&mut self);
}

impl OutputProgress for NoProgress {
    fn accepted(&mut self, _text: &[u8], _accepted_text: &AcceptedText) {}

    fn before_line(&mut self) {}
}
