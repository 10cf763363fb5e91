//! An independent walk along the labels of a lasso, over sets of forms.
use super::label_set::LabelSet;
use super::term_list::PrintedStep;
use lotos_ends::Lasso;
use lotos_terms::Label;
use std::alloc::{AllocError, Global};

/// Whether steps with the labels of the row and then twice with those of the loop begin at the form, each internal or
/// with a label of the set, and whether the loop has a label.
pub fn is_lasso(
    alloc: Global,
    forms: &[Vec<PrintedStep>],
    start: usize,
    set: LabelSet,
    lasso: &Lasso,
) -> Result<bool, AllocError> {
    let mut at = vec![in alloc; false; forms.len()]?;
    mark(at.as_mut_slice(), start);
    let at = followed(alloc, forms, at, set, lasso.row.as_slice())?;
    let at = followed(alloc, forms, at, set, lasso.turn.as_slice())?;
    let at = followed(alloc, forms, at, set, lasso.turn.as_slice())?;
    Ok(!lasso.turn.is_empty() && has_any(at.as_slice()))
}

/// The forms to which steps with the labels lead from the forms with a flag.
fn followed(
    alloc: Global,
    forms: &[Vec<PrintedStep>],
    at: Vec<bool>,
    set: LabelSet,
    labels: &[Label],
) -> Result<Vec<bool>, AllocError> {
    let mut now = at;
    for label in labels {
        now = followed_once(alloc, forms, now.as_slice(), set, label)?;
    }
    Ok(now)
}

fn followed_once(
    alloc: Global,
    forms: &[Vec<PrintedStep>],
    at: &[bool],
    set: LabelSet,
    label: &Label,
) -> Result<Vec<bool>, AllocError> {
    let mut next = vec![in alloc; false; forms.len()]?;
    for (steps, is_here) in forms.iter().zip(at) {
        mark_targets(steps.as_slice(), *is_here, set, label, next.as_mut_slice());
    }
    Ok(next)
}

/// Marks the forms to which steps with the label lead, if the walk is here and the label is internal or in the set.
fn mark_targets(
    steps: &[PrintedStep],
    is_here: bool,
    set: LabelSet,
    label: &Label,
    next: &mut [bool],
) {
    for step in steps {
        let text = step.text.as_str();
        if is_here && step.label == *label && (text == "i" || set.contains(text)) {
            mark(next, step.to);
        }
    }
}

fn mark(flags: &mut [bool], index: usize) {
    if index < flags.len() {
        flags[index] = true;
    }
}

fn has_any(flags: &[bool]) -> bool {
    for flag in flags {
        if *flag {
            return true;
        }
    }
    false
}
