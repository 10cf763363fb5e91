//! Sets of labels.
ghost use Rattle.std.specs.Prelude.{◌≡◌, Contains, IfOk, MatchBool, map, string_bytes};
ghost use Rattle.lotos_pattern.specs.Patterns.{IsIn};
ghost use Rattle.lotos_pattern.specs.ElementView.{set_of};

use std::alloc::{AllocError, Global};

/// A set of labels, which are given by their printed texts.
#[derive(Debug, Drop)]
pub enum LabelSet {
    /// These labels.
    These(Vec<String>),
    /// All labels but these.
    Others(Vec<String>),
}

impl LabelSet {
    /// Whether the label, given by its printed text, is in the set.
    pub fn contains(&self, label: &str) -> bool
        ensures { MatchBool result (IsIn label.now (set_of self.now)) (IsIn label.now (set_of self.now) → ⊥) }
    {
        match self {
            LabelSet::These(labels) => has_label(labels.as_slice(), label),
            LabelSet::Others(labels) => !has_label(labels.as_slice(), label),
        }
    }

    /// A copy of the set.
    pub fn copied(&self, alloc: Global) -> Result<LabelSet, AllocError>
        ensures { IfOk result (λ copy. set_of copy ≡ set_of self.now) }
    {
        match self {
            LabelSet::These(labels) => {
                let copy = copied_labels(alloc, labels.as_slice())?;
                Ok(LabelSet::These(copy))
            }
            LabelSet::Others(labels) => {
                let copy = copied_labels(alloc, labels.as_slice())?;
                Ok(LabelSet::Others(copy))
            }
        }
    }
}

/// Whether the label is one of these.
pub(crate) fn has_label(labels: &[String], label: &str) -> bool
    ensures { MatchBool result (Contains (map string_bytes labels.now) label.now)
        (Contains (map string_bytes labels.now) label.now → ⊥) }
{
    for index in 0..labels.len() {
        if labels[index].as_str() == label {
            return true;
        }
    }
    false
}

/// A copy of the labels.
fn copied_labels(alloc: Global, labels: &[String]) -> Result<Vec<String>, AllocError>
    ensures { IfOk result (λ copy. map string_bytes copy.items ≡ map string_bytes labels.now) }
{
    let mut copy = Vec::new(alloc);
    for label in labels {
        copy.push(String::from_str(alloc, label.as_str())?)?;
    }
    Ok(copy)
}
