//! The first sequences that tell two states apart.
ghost use Rattle.std.specs.Prelude.{◌≡◌, ◌⊎◌, ◌<◌, ◌≤◌, ◌+◌, ◌∷◌, ℕ, false, IfOk, List, MatchBool, MatchOption, None, OnOk, Some};
ghost use Rattle.std.specs.Prelude.{length, slice_get, set};
ghost use Rattle.lotos_suite.specs.ApartSearch.{AreAlike, AreAllApart, AreClassed, AreFlags, AreSplit, HasSearchedTo, strays};
ghost use Rattle.lotos_store.specs.Interning.{plain_lists};
ghost use Rattle.lotos_listing.specs.Order.{Label as Text};
ghost use Rattle.lotos_suite.specs.SuiteTables.{IsMove, IsSubject, IsTableOf, Subject};

use crate::moves::{Move, move_at};
use std::alloc::{AllocError, Global};

/// A sequence by its first label, and the number of the sequence after it.
#[derive(Clone, Copy)]
pub(crate) struct ApartStep {
    /// The number of the first label.
    pub label: usize,
    /// The number of the rest.
    pub rest: usize,
}

/// Sequences that tell states apart, by number: the first one is empty, and each other one is a label and an earlier one.
#[derive(Drop)]
pub(crate) struct ApartSequences {
    pub alloc: Global,
    /// How each but the empty one begins.
    pub steps: Vec<Option<ApartStep>>,
    /// For each sequence, by its number, which states can do it.
    pub can: Vec<Vec<bool>>,
    /// For each state a state of its class: states are in one class if no sequence found yet tells them apart.
    pub classes: Vec<usize>,
}

impl ApartSequences {
    /// Finds them, the shorter ones first, and of those as long the ones with smaller labels.
    pub fn find(
        alloc: Global,
        rows: &[Vec<Option<Move>>],
        labels: usize,
    ) -> Result<ApartSequences, AllocError>
        requires { (s : Subject) × IsSubject s × IsTableOf s (plain_lists rows.now) ×
            (length s.labels ≡ labels) }
        ensures { IfOk result (λ a. (s : Subject) → IsSubject s → IsTableOf s (plain_lists rows.now) →
            length s.labels ≡ labels → AreAllApart s a.steps.items) }
    {
        let mut found = ApartSequences::begin(alloc, rows.len())?;
        let mut from = 0;
        let mut to = 1;
        while from < to {
            found.add_longer(rows, labels, from, to)?;
            from = to;
            to = found.can.len();
        }
        Ok(found)
    }

    /// The empty sequence alone, and all states in one class.
    fn begin(alloc: Global, states: usize) -> Result<ApartSequences, AllocError>
        ensures begun { IfOk result (λ a. (s : Subject) → IsSubject s → s.machine.states ≡ states →
            HasSearchedTo s a 0 0 1 0 0) }
        ensures one { IfOk result (λ a. length a.can.items ≡ 1) }
    {
        let mut all = Vec::new(alloc);
        let mut classes = Vec::new(alloc);
        for _ in 0..states {
            all.push(true)?;
            classes.push(0)?;
        }
        let mut can = Vec::new(alloc);
        can.push(all)?;
        let mut steps = Vec::new(alloc);
        steps.push(None)?;
        Ok(ApartSequences {
            alloc,
            steps,
            can,
            classes,
        })
    }

    /// Adds those that are a label and one of the sequences with these numbers.
    fn add_longer(
        &mut self,
        rows: &[Vec<Option<Move>>],
        labels: usize,
        from: usize,
        to: usize,
    ) -> Result<(), AllocError>
        requires searched { (s : Subject) × (d : ℕ) × IsSubject s × IsTableOf s (plain_lists rows.now) ×
            (length s.labels ≡ labels) × HasSearchedTo s self.old d from to 0 from }
        ensures searched { OnOk result ((s : Subject) (d : ℕ) → IsSubject s →
            IsTableOf s (plain_lists rows.now) →
            length s.labels ≡ labels → HasSearchedTo s self.old d from to 0 from →
            HasSearchedTo s self.new d from to labels from) }
        ensures fewer { OnOk result (strays 0 self.new.classes.items + length self.new.can.items ≤
            strays 0 self.old.classes.items + length self.old.can.items) }
    {
        for label in 0..labels {
            self.add_with_label(rows, label, from, to)?;
        }
        Ok(())
    }

    /// Adds those that are the label and one of the sequences with these numbers.
    fn add_with_label(
        &mut self,
        rows: &[Vec<Option<Move>>],
        label: usize,
        from: usize,
        to: usize,
    ) -> Result<(), AllocError>
        requires searched { (s : Subject) × (d : ℕ) × IsSubject s × IsTableOf s (plain_lists rows.now) ×
            (label < length s.labels) × HasSearchedTo s self.old d from to label from }
        ensures searched { OnOk result ((s : Subject) (d : ℕ) → IsSubject s →
            IsTableOf s (plain_lists rows.now) →
            label < length s.labels → HasSearchedTo s self.old d from to label from →
            HasSearchedTo s self.new d from to (label + 1) from) }
        ensures fewer { OnOk result (strays 0 self.new.classes.items + length self.new.can.items ≤
            strays 0 self.old.classes.items + length self.old.can.items) }
    {
        for rest in from..to {
            self.try_sequence(rows, label, rest)?;
        }
        Ok(())
    }

    /// Adds the sequence of the label and the one with the number `rest`, if it tells states of one class apart.
    fn try_sequence(
        &mut self,
        rows: &[Vec<Option<Move>>],
        label: usize,
        rest: usize,
    ) -> Result<(), AllocError>
        requires searched { (s : Subject) × (d : ℕ) × (from : ℕ) × (to : ℕ) × IsSubject s ×
            IsTableOf s (plain_lists rows.now) × (label < length s.labels) × (from ≤ rest) × (rest < to) ×
            HasSearchedTo s self.old d from to label rest }
        ensures searched { OnOk result ((s : Subject) (d from to : ℕ) → IsSubject s →
            IsTableOf s (plain_lists rows.now) → label < length s.labels → from ≤ rest → rest < to →
            HasSearchedTo s self.old d from to label rest →
            HasSearchedTo s self.new d from to label (rest + 1)) }
        ensures fewer { OnOk result (strays 0 self.new.classes.items + length self.new.can.items ≤
            strays 0 self.old.classes.items + length self.old.can.items) }
    {
        let can = states_that_can(self.alloc, rows, label, self.can[rest].as_slice())?;
        if tells_apart(self.classes.as_slice(), can.as_slice()) {
            self.classes = split(self.alloc, self.classes.as_slice(), can.as_slice())?;
            self.steps.push(Some(ApartStep { label, rest }))?;
            self.can.push(can)?;
        }
        Ok(())
    }
}

/// Which states can do the label, and then a sequence that these states can do.
fn states_that_can(
    alloc: Global,
    rows: &[Vec<Option<Move>>],
    label: usize,
    can: &[bool],
) -> Result<Vec<bool>, AllocError>
    requires { (s : Subject) × (x : Text) × (w : List Text) × IsSubject s ×
        IsTableOf s (plain_lists rows.now) ×
        (slice_get s.labels label ≡ Some x) × AreFlags s.machine w can.now }
    ensures { IfOk result (λ v. (s : Subject) (x : Text) (w : List Text) → IsSubject s →
        IsTableOf s (plain_lists rows.now) → slice_get s.labels label ≡ Some x →
        AreFlags s.machine w can.now →
        AreFlags s.machine (x ∷ w) v.items) }
{
    let mut states = Vec::new(alloc);
    for state in 0..rows.len() {
        states.push(can_after(move_at(rows, state, label), can))?;
    }
    Ok(states)
}

/// Whether there is a move, and it leads to one of the states that can.
fn can_after(step: Option<Move>, can: &[bool]) -> bool
    requires { MatchOption step (Unit {0}) (λ m. m.state < length can.now) }
    ensures { MatchOption step (result ≡ false) (λ m. slice_get can.now m.state ≡ Some result) }
{
    match step {
        Some(step) => can[step.state],
        None => false,
    }
}

/// Whether of two states of one class one can and the other cannot.
fn tells_apart(classes: &[usize], can: &[bool]) -> bool
    requires counted { length can.now ≡ length classes.now }
    requires classed { AreClassed (length classes.now) classes.now }
    ensures { MatchBool result ((j : ℕ) × (c : ℕ) × (slice_get classes.now j ≡ Some c) ×
        (AreAlike can.now j c → ⊥))
        ((j c : ℕ) → slice_get classes.now j ≡ Some c → AreAlike can.now j c) }
{
    for state in 0..classes.len() {
        if !are_alike(can, state, classes[state]) {
            return true;
        }
    }
    false
}

/// Whether both states can, or both cannot.
fn are_alike(can: &[bool], state: usize, other: usize) -> bool
    requires state { state < length can.now }
    requires other { other < length can.now }
    ensures { MatchBool result (AreAlike can.now state other) (AreAlike can.now state other → ⊥) }
{
    can[state] == can[other]
}

/// The classes, each split into the states that can and those that cannot.
fn split(alloc: Global, classes: &[usize], can: &[bool]) -> Result<Vec<usize>, AllocError>
    requires counted { length can.now ≡ length classes.now }
    requires classed { AreClassed (length classes.now) classes.now }
    ensures { IfOk result (λ v. AreSplit can.now classes.now v.items) }
{
    let mut others = no_states(alloc, classes.len())?;
    let mut split = Vec::new(alloc);
    for state in 0..classes.len() {
        let class = classes[state];
        if are_alike(can, state, class) {
            split.push(class)?;
        } else {
            split.push(other_class(&mut others, class, state))?;
        }
    }
    Ok(split)
}

/// No state for each class.
fn no_states(alloc: Global, count: usize) -> Result<Vec<Option<usize>>, AllocError>
    ensures counted { IfOk result (λ v. length v.items ≡ count) }
    ensures none { IfOk result (λ v. (c e : ℕ) → slice_get v.items c ≡ Some (Some e) → ⊥) }
{
    let mut none = Vec::new(alloc);
    for _ in 0..count {
        none.push(None)?;
    }
    Ok(none)
}

/// The first state that leaves the class: this one, if there is none yet.
fn other_class(others: &mut Vec<Option<usize>>, class: usize, state: usize) -> usize
    requires { class < length others.old.items }
    ensures { ((slice_get others.old.items class ≡ Some (Some result)) ×
        (others.new.items ≡ others.old.items)) ⊎
        ((slice_get others.old.items class ≡ Some None) × (result ≡ state) ×
        (others.new.items ≡ set others.old.items class (Some state))) }
{
    if let Some(other) = others[class] {
        return other;
    }
    others[class] = Some(state);
    state
}
