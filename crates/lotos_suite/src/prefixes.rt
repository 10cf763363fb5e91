//! Prefixes of the lines of a suite.
ghost use Rattle.std.specs.Prelude.{◌≡◌, ◌<◌, ◌⊎◌, ◌++◌, ◌∷◌, [], ℕ, Bool, false, IfOk, List, MatchBool, MatchOption, None, OnOk, Option, Some, length, slice_get};
ghost use Rattle.lotos_store.specs.Interning.{plain_lists};
ghost use Rattle.lotos_check.specs.NameLists.{In};
ghost use Rattle.lotos_listing.specs.Order.{Label as Text};
ghost use Rattle.lotos_suite.specs.SuitePrefixes.{AreRestsAnd, AreRestsOf, HasAdded, HasAddedRest, IsExtension, IsPrefix, IsSetting};
ghost use Rattle.lotos_suite.specs.SuitePrefixes.{front_then, step_of};
ghost use Rattle.lotos_suite.specs.Suites.{SuiteParts};
ghost use Rattle.lotos_suite.specs.SuiteTables.{IsTableOf, Subject};
ghost use Rattle.lotos_suite.specs.declared.apart_sequences.ApartStep.{ApartStep as StepOf};
ghost use Rattle.lotos_suite.specs.declared.prefixes.Front.TheVariants.{Past as IsPast};

use crate::apart_sequences::ApartStep;
use crate::moves::{Move, move_at};
use std::alloc::{AllocError, Global};

/// How a sequence is the front of a word: an access sequence, and labels after it.
#[derive(Clone, Copy)]
pub(crate) enum Front {
    /// It is an access sequence.
    Access,
    /// It is one with labels after it, of which there can be so many more.
    Longer(usize),
    /// It is none: there are too many labels after an access sequence.
    Past,
}

/// A sequence with which lines of the suite begin.
#[derive(Drop)]
pub(crate) struct Prefix {
    /// The numbers of its labels.
    pub labels: Vec<usize>,
    /// The state that it leads to, if the machine can do it.
    pub state: Option<usize>,
    /// How it is the front of a word.
    pub front: Front,
    /// The numbers of the sequences that complete it to a word in which it goes on after a front.
    pub rests: Vec<usize>,
}

/// The empty sequence.
pub(crate) fn empty_prefix(alloc: Global) -> Prefix
    ensures { (s : Subject) (extra : ℕ) (parts : SuiteParts) (steps : List (Option StepOf))
        (sequences : List (List Text)) →
        IsSetting s extra parts steps sequences → IsPrefix s parts sequences result [] }
{
    Prefix {
        labels: Vec::new(alloc),
        state: Some(0),
        front: Front::Access,
        rests: Vec::new(alloc),
    }
}

/// Adds the prefix with the label, if it is one.
pub(crate) fn add_with_label(
    alloc: Global,
    steps: &[Option<ApartStep>],
    extra: usize,
    prefix: &Prefix,
    label: usize,
    step: Option<Move>,
    longer: &mut Vec<Prefix>,
) -> Result<(), AllocError>
    requires { (s : Subject) × (parts : SuiteParts) × (sequences : List (List Text)) ×
        (u : List Text) × (x : Text) ×
        IsExtension s parts sequences steps.now extra prefix.now u label x step }
    ensures { OnOk result ((s : Subject) (parts : SuiteParts) (sequences : List (List Text))
        (u : List Text) (x : Text) →
        IsExtension s parts sequences steps.now extra prefix.now u label x step →
        HasAdded s parts sequences u x longer.old.items longer.new.items) }
{
    let front = front_after(prefix.front, is_first(step), extra);
    let rests = rests_after(alloc, steps, prefix, label)?;
    if begins_nothing(front, rests.as_slice()) {
        return Ok(());
    }
    let labels = labels_with(prefix, label)?;
    longer.push(Prefix {
        labels,
        state: state_of(step),
        front,
        rests,
    })?;
    Ok(())
}

/// The numbers of the labels of the prefix, and then this one.
fn labels_with(prefix: &Prefix, label: usize) -> Result<Vec<usize>, AllocError>
    ensures { IfOk result (λ v. v.items ≡ prefix.now.labels.items ++ label ∷ []) }
{
    let mut labels = prefix.labels.clone()?;
    labels.push(label)?;
    Ok(labels)
}

/// Whether no word begins with the sequence: it is no front, and nothing completes it.
fn begins_nothing(front: Front, rests: &[usize]) -> bool
    ensures { MatchBool result ((front ≡ IsPast) × (length rests.now ≡ 0))
        ((front ≡ IsPast) × (length rests.now ≡ 0) → ⊥) }
{
    is_past(front) && rests.is_empty()
}

/// The state that a move leads to, if there is one.
fn state_of(step: Option<Move>) -> Option<usize>
    ensures { MatchOption step (result ≡ None) (λ m. result ≡ Some m.state) }
{
    match step {
        Some(step) => Some(step.state),
        None => None,
    }
}

/// Whether there is a move, and it ends an access sequence.
fn is_first(step: Option<Move>) -> bool
    ensures { MatchOption step (result ≡ false) (λ m. result ≡ m.is_first) }
{
    match step {
        Some(step) => step.is_first,
        None => false,
    }
}

/// Whether a sequence is no front.
fn is_past(front: Front) -> bool
    ensures { MatchBool result (front ≡ IsPast) (front ≡ IsPast → ⊥) }
{
    match front {
        Front::Past => true,
        _ => false,
    }
}

/// The front after one more label, which may end an access sequence.
fn front_after(front: Front, is_first: bool, extra: usize) -> Front
    ensures { result ≡ front_then front is_first extra }
{
    match front {
        Front::Access => {
            if is_first {
                Front::Access
            } else {
                Front::Longer(extra)
            }
        }
        Front::Longer(left) => {
            if left == 0 {
                Front::Past
            } else {
                Front::Longer(left - 1)
            }
        }
        Front::Past => Front::Past,
    }
}

/// The numbers of the sequences that complete the prefix with the label.
fn rests_after(
    alloc: Global,
    steps: &[Option<ApartStep>],
    prefix: &Prefix,
    label: usize,
) -> Result<Vec<usize>, AllocError>
    requires { (k : ℕ) → In k prefix.now.rests.items → k < length steps.now }
    ensures first { IfOk result (λ v. prefix.now.front ≡ IsPast →
        AreRestsOf steps.now label prefix.now.rests.items v.items) }
    ensures all { IfOk result (λ v. (prefix.now.front ≡ IsPast → ⊥) → (others : List ℕ) ×
        AreRestsOf steps.now label prefix.now.rests.items others ×
        AreRestsAnd steps.now label others v.items) }
{
    let mut rests = rests_of_rests(alloc, steps, prefix.rests.as_slice(), label)?;
    if !is_past(prefix.front) {
        add_rests(steps, label, &mut rests)?;
    }
    Ok(rests)
}

/// The rests of those of the sequences that begin with the label.
fn rests_of_rests(
    alloc: Global,
    steps: &[Option<ApartStep>],
    numbers: &[usize],
    label: usize,
) -> Result<Vec<usize>, AllocError>
    requires { (k : ℕ) → In k numbers.now → k < length steps.now }
    ensures { IfOk result (λ v. AreRestsOf steps.now label numbers.now v.items) }
{
    let mut rests = Vec::new(alloc);
    for number in numbers {
        add_rest(steps, *number, label, &mut rests)?;
    }
    Ok(rests)
}

/// Adds the rests of all sequences that begin with the label.
fn add_rests(
    steps: &[Option<ApartStep>],
    label: usize,
    rests: &mut Vec<usize>,
) -> Result<(), AllocError>
    ensures { OnOk result (AreRestsAnd steps.now label rests.old.items rests.new.items) }
{
    for number in 0..steps.len() {
        add_rest(steps, number, label, rests)?;
    }
    Ok(())
}

/// Adds the rest of the sequence, if it begins with the label.
fn add_rest(
    steps: &[Option<ApartStep>],
    number: usize,
    label: usize,
    rests: &mut Vec<usize>,
) -> Result<(), AllocError>
    requires { number < length steps.now }
    ensures { OnOk result (HasAddedRest steps.now label number rests.old.items rests.new.items) }
{
    if let Some(rest) = rest_after(steps[number], label) {
        rests.push(rest)?;
    }
    Ok(())
}

/// The rest of a sequence, if it begins with the label.
fn rest_after(step: Option<ApartStep>, label: usize) -> Option<usize>
    ensures { MatchOption result ((rest : ℕ) → step ≡ Some (step_of label rest) → ⊥)
        (λ rest. step ≡ Some (step_of label rest)) }
{
    match step {
        Some(step) => {
            if step.label == label {
                Some(step.rest)
            } else {
                None
            }
        }
        None => None,
    }
}
