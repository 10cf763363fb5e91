//! Labels as rows of tables name them.

use lotos_terms::{Gate, Label};

/// A label of a specification with the gates `a` and `b`, which are numbered in the order of their names.
#[derive(Clone, Copy, Debug)]
pub enum RowLabel {
    A,
    B,
    Exit,
    Internal,
}

pub const A: RowLabel = RowLabel::A;

pub const B: RowLabel = RowLabel::B;

pub const I: RowLabel = RowLabel::Internal;

pub const EXIT: RowLabel = RowLabel::Exit;

/// The label that a row names.
fn label_of(named: RowLabel) -> Label {
    match named {
        RowLabel::A => Label::Gate(Gate::of_number(0)),
        RowLabel::B => Label::Gate(Gate::of_number(1)),
        RowLabel::Exit => Label::Exit,
        RowLabel::Internal => Label::Internal,
    }
}

/// Whether the labels are those that a row names.
pub fn are_labels(labels: &[Label], named: &[RowLabel]) -> bool {
    if labels.len() != named.len() {
        return false;
    }
    for (label, wanted) in labels.iter().zip(named) {
        if *label != label_of(*wanted) {
            return false;
        }
    }
    true
}
