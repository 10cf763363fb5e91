//! Lines of a comparison.

use lotos_terms::Label;

/// Which of two systems.
#[derive(Clone, Copy, Debug, PartialEq, Eq)]
pub enum Side {
    First,
    Second,
}

/// A line of a comparison: the system of this side can do the sequence with the label after it; the other one can do the
/// sequence, but not with the label after it.
#[derive(Debug, Drop)]
pub struct DifferenceLine {
    pub side: Side,
    /// The labels of the sequence, as the first system's table has them.
    pub sequence: Vec<Label>,
    /// The label after it, as the table of the side has it.
    pub label: Label,
}

/// What a comparison finds.
#[derive(Debug, Drop)]
pub enum Comparison {
    /// The first line.
    Differs(DifferenceLine),
    /// There is no line. So many pairs of sets came up.
    Alike(usize),
}
