//! The suite for an automaton of what can be observed.
ghost use Rattle.std.specs.Prelude.{◌≡◌, ◌<◌, ◌≤◌, ℕ, IfErr, IfOk, List, MatchBool, MatchOption, Option, Some, length, slice_get, true};
ghost use Rattle.lotos_check.specs.NameLists.{In};
ghost use Rattle.lotos_listing.specs.Order.{Label as Text};
ghost use Rattle.lotos_store.specs.Interning.{plain_lists};
ghost use Rattle.lotos_store.specs.NumberedItems.{AreDistinct};
ghost use Rattle.lotos_store.specs.declared.label.Label.{Label as LabelOf};
ghost use Rattle.lotos_sets.specs.Behaviours.{Behaviour};
ghost use Rattle.lotos_automaton.specs.Automata.{IsAutomatonOf};
ghost use Rattle.lotos_suite.specs.GraphMachines.{AreSuiteLabels};
ghost use Rattle.lotos_suite.specs.GraphSuites.{IsSuiteOf};
ghost use Rattle.lotos_suite.specs.SuiteResults.{HasLabels, IsMoveBy, IsRowBy, returned_lines, subject_of};
ghost use Rattle.lotos_suite.specs.Suites.{Line};
ghost use Rattle.lotos_suite.specs.SuiteTables.{IsTableOf};
ghost use Rattle.lotos_suite.specs.declared.moves.Move.{Move as MoveOf};
ghost use Rattle.lotos_suite.specs.declared.suite.SuiteLine.{SuiteLine as LineOf};
ghost use Rattle.lotos_suite.specs.declared.suite_lines.CutLine.{CutLine as CutLineOf};
ghost use Rattle.lotos_suite.specs.declared.suite_fault.SuiteFault.TheVariants.{TooManyLines as IsTooMany};

use crate::moves::Move;
use crate::suite_fault::SuiteFault;
use crate::suite_lines::{CutLine, find_lines};
use lotos_automaton::{AccessSequences, Transition};
use lotos_terms::Label;
use lotos_terms::laws::label_text_is_unique;
use std::alloc::{AllocError, Global};

/// A line of a suite: an implementation has to be able to do the labels one after the other; or it has to be able to do
/// all but the last, and then not the last one.
#[derive(Debug, Drop)]
pub struct SuiteLine {
    /// The labels.
    pub labels: Vec<Label>,
    /// Whether the last one may not come. Of a line without labels it says nothing.
    pub is_refused: bool,
}

/// The lines of the suite for an automaton over the labels, for implementations with at most `extra` states more than the
/// automaton: shorter ones come first, and then those with smaller labels.
///
/// # Errors
///
/// [`SuiteFault::TooManyLines`] if there are more than `most` lines, [`SuiteFault::Memory`] if an allocation fails.
pub fn find_suite(
    alloc: Global,
    graph: &[Vec<Transition>],
    labels: &[Label],
    extra: usize,
    most: usize,
) -> Result<Vec<SuiteLine>, SuiteFault>
    requires automaton { (b : Behaviour) × (access : List (List Text)) ×
        IsAutomatonOf b (plain_lists graph.now) access ×
        AreSuiteLabels b.names (plain_lists graph.now) labels.now }
    ensures lines { IfOk result (λ v. (b : Behaviour) (access : List (List Text)) →
        IsAutomatonOf b (plain_lists graph.now) access →
        AreSuiteLabels b.names (plain_lists graph.now) labels.now →
        IsSuiteOf b.names (plain_lists graph.now) access labels.now extra (returned_lines b.names v.items)) }
    ensures few { IfOk result (λ v. length v.items ≤ most) }
    ensures known { IfOk result (λ v. (line : LineOf) → In line v.items →
        (l : LabelOf) → In l line.labels.items → In l labels.now) }
    ensures too_many { IfErr result (λ f. f ≡ IsTooMany → (b : Behaviour) (access : List (List Text))
        (lines : List Line) →
        IsAutomatonOf b (plain_lists graph.now) access →
        AreSuiteLabels b.names (plain_lists graph.now) labels.now →
        IsSuiteOf b.names (plain_lists graph.now) access labels.now extra lines → most < length lines) }
{
    let rows = rows_of(alloc, graph, labels)?;
    let lines = find_lines(alloc, rows.as_slice(), labels.len(), extra, most)?;
    let suite = with_labels(alloc, labels, lines.as_slice())?;
    Ok(suite)
}

/// The table of the automaton: for each of its states, and each of the labels, where it leads.
fn rows_of(
    alloc: Global,
    graph: &[Vec<Transition>],
    labels: &[Label],
) -> Result<Vec<Vec<Option<Move>>>, AllocError>
    requires automaton { (b : Behaviour) × (access : List (List Text)) ×
        IsAutomatonOf b (plain_lists graph.now) access ×
        AreSuiteLabels b.names (plain_lists graph.now) labels.now }
    ensures { IfOk result (λ v. (b : Behaviour) (access : List (List Text)) →
        IsAutomatonOf b (plain_lists graph.now) access →
        AreSuiteLabels b.names (plain_lists graph.now) labels.now →
        IsTableOf (subject_of b.names (plain_lists graph.now) labels.now access) (plain_lists v.items)) }
{
    label_text_is_unique();
    let access = AccessSequences::of_automaton(alloc, graph)?;
    let rows = rows_by(alloc, &access, graph, labels)?;
    Ok(rows)
}

/// The rows of all states.
fn rows_by(
    alloc: Global,
    access: &AccessSequences,
    graph: &[Vec<Transition>],
    labels: &[Label],
) -> Result<Vec<Vec<Option<Move>>>, AllocError>
    requires distinct { AreDistinct access.now }
    requires counted { length access.now ≡ length graph.now }
    requires inside { (j : ℕ) (list : List (LabelOf × ℕ)) (l : LabelOf) (m : ℕ) →
        slice_get (plain_lists graph.now) j ≡ Some list → In (l, m) list → m < length access.now }
    ensures counted { IfOk result (λ v. length v.items ≡ length graph.now) }
    ensures rows { IfOk result (λ v. (j : ℕ) (list : List (LabelOf × ℕ)) (row : List (Option MoveOf)) →
        slice_get (plain_lists graph.now) j ≡ Some list → slice_get (plain_lists v.items) j ≡ Some row →
        IsRowBy access.now j list labels.now row) }
{
    let mut rows = Vec::new(alloc);
    for (state, transitions) in graph.iter().enumerate() {
        let row = row_of(alloc, access, state, transitions.as_slice(), labels)?;
        rows.push(row)?;
    }
    Ok(rows)
}

/// The row of a state.
fn row_of(
    alloc: Global,
    access: &AccessSequences,
    state: usize,
    transitions: &[Transition],
    labels: &[Label],
) -> Result<Vec<Option<Move>>, AllocError>
    requires distinct { AreDistinct access.now }
    requires state { state < length access.now }
    requires inside { (l : LabelOf) (m : ℕ) → In (l, m) transitions.now → m < length access.now }
    ensures { IfOk result (λ v. IsRowBy access.now state transitions.now labels.now v.items) }
{
    let mut row = Vec::new(alloc);
    for label in labels {
        row.push(move_by(access, state, transitions, *label))?;
    }
    Ok(row)
}

/// Where the label leads from the state.
fn move_by(
    access: &AccessSequences,
    state: usize,
    transitions: &[Transition],
    label: Label,
) -> Option<Move>
    requires distinct { AreDistinct access.now }
    requires state { state < length access.now }
    requires inside { (l : LabelOf) (m : ℕ) → In (l, m) transitions.now → m < length access.now }
    ensures { IsMoveBy access.now state transitions.now label result }
{
    let label = &label;
    match target_by(transitions, *label) {
        Some(target) => {
            let is_first = access.leads_to(state, *label, target);
            Some(Move {
                state: target,
                is_first,
            })
        }
        None => None,
    }
}

/// The state that the transition by the label leads to, if there is one.
fn target_by(transitions: &[Transition], label: Label) -> Option<usize>
    ensures { MatchOption result ((m : ℕ) → In (label, m) transitions.now → ⊥)
        (λ m. In (label, m) transitions.now) }
{
    equal_labels();
    for transition in transitions {
        if transition.label == label {
            return Some(transition.state);
        }
    }
    None
}

/// Labels that compare as equal are the same label, and a label compares as equal to itself.
fn equal_labels()
    ensures same { (k j : LabelOf) → ⟦<Label as PartialEq>⟧.eq k j ≡ true → k ≡ j }
    ensures itself { (k : LabelOf) → ⟦<Label as PartialEq>⟧.eq k k ≡ true }
{}

/// The lines with the labels that have these numbers.
fn with_labels(
    alloc: Global,
    labels: &[Label],
    lines: &[CutLine],
) -> Result<Vec<SuiteLine>, AllocError>
    requires { (l : CutLineOf) → In l lines.now → (n : ℕ) → In n l.labels.items → n < length labels.now }
    ensures counted { IfOk result (λ v. length v.items ≡ length lines.now) }
    ensures each { IfOk result (λ v. (k : ℕ) (line : CutLineOf) (other : LineOf) →
        slice_get lines.now k ≡ Some line →
        slice_get v.items k ≡ Some other → HasLabels labels.now line other) }
{
    let mut result = Vec::new(alloc);
    for line in lines {
        result.push(with_label(alloc, labels, line)?)?;
    }
    Ok(result)
}

/// The line with the labels that have these numbers.
fn with_label(alloc: Global, labels: &[Label], line: &CutLine) -> Result<SuiteLine, AllocError>
    requires { (n : ℕ) → In n line.now.labels.items → n < length labels.now }
    ensures { IfOk result (λ other. HasLabels labels.now line.now other) }
{
    let list = labels_by(alloc, labels, line.labels.as_slice())?;
    Ok(SuiteLine {
        labels: list,
        is_refused: line.is_refused,
    })
}

/// The labels with these numbers.
fn labels_by(alloc: Global, labels: &[Label], numbers: &[usize]) -> Result<Vec<Label>, AllocError>
    requires { (n : ℕ) → In n numbers.now → n < length labels.now }
    ensures counted { IfOk result (λ v. length v.items ≡ length numbers.now) }
    ensures each { IfOk result (λ v. (k n : ℕ) (l : LabelOf) → slice_get numbers.now k ≡ Some n →
        slice_get v.items k ≡ Some l → slice_get labels.now n ≡ Some l) }
{
    let mut list = Vec::new(alloc);
    for number in numbers {
        list.push(label_at(labels, *number))?;
    }
    Ok(list)
}

/// The label with the number.
fn label_at(labels: &[Label], number: usize) -> Label
    requires { number < length labels.now }
    ensures { slice_get labels.now number ≡ Some result }
{
    labels[number]
}
