//! Origins of internal steps.

use lotos_store::Gate;

/// What makes an internal step.
#[derive(Clone, Copy, Debug, PartialEq, Eq)]
pub enum Origin {
    /// The internal action of the text.
    Text,
    /// An action of a gate that a hiding makes internal: the gate as this hiding has it.
    Hidden(Gate),
    /// The termination of the left operand of an enabling.
    Termination,
}
