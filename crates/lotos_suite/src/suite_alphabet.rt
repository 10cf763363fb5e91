//! The labels of a suite.
ghost use Rattle.std.specs.Prelude.{◌↔◌, IfOk, OnOk};
ghost use Rattle.std.specs.List.Sorted.{IsStrictlySortedBy};
ghost use Rattle.lotos_check.specs.NameLists.{In, IsAscendingNames};
ghost use Rattle.lotos_store.specs.Interning.{plain_lists};
ghost use Rattle.lotos_store.specs.declared.label.Label.{Label as LabelOf};
ghost use Rattle.lotos_terms.specs.TableView.{AreGateNames};
ghost use Rattle.lotos_suite.specs.SuiteLabels.{AreLabelsOf, HasPrintedLabels};
ghost use Rattle.lotos_suite.specs.GatheredLabels.{AddsGate, AddsGates, AddsRow, AddsTransitions};

use lotos_automaton::Transition;
use lotos_store::{Gate, Label, sort_and_dedup};
use lotos_terms::laws::label_order_is_text_order;
use lotos_text::Name;
use std::alloc::{AllocError, Global};

/// The labels of a suite for an automaton, ascending: the gates of a specification's own list (`own`), and all labels of
/// the automaton. The gates have the names `gates`; a name of the own list that is none of these is left out.
pub fn suite_labels(
    alloc: Global,
    gates: &[Name],
    own: &[Name],
    graph: &[Vec<Transition>],
) -> Result<Vec<Label>, AllocError>
    requires named { AreGateNames gates.now }
    requires printed { HasPrintedLabels gates.now (plain_lists graph.now) }
    ensures { IfOk result (λ v. AreLabelsOf gates.now own.now (plain_lists graph.now) v.items) }
{
    label_order_is_text_order();
    let mut labels = Vec::new(alloc);
    append_gates(gates, own, &mut labels)?;
    append_labels(graph, &mut labels)?;
    sort_labels(&mut labels);
    Ok(labels)
}

/// Appends the gates with these names, those that there are.
fn append_gates(gates: &[Name], own: &[Name], labels: &mut Vec<Label>) -> Result<(), AllocError>
    requires { IsAscendingNames gates.now }
    ensures { OnOk result (AddsGates gates.now own.now labels.old.items labels.new.items) }
{
    for name in own {
        append_gate(gates, name, labels)?;
    }
    Ok(())
}

/// Appends the gate with this name, if there is one: its number is the index of the name.
fn append_gate(gates: &[Name], name: &Name, labels: &mut Vec<Label>) -> Result<(), AllocError>
    requires { IsAscendingNames gates.now }
    ensures { OnOk result (AddsGate gates.now name.now labels.old.items labels.new.items) }
{
    match gates.binary_search(name) {
        Ok(number) => labels.push(Label::Gate(Gate::of_number(number)))?,
        Err(_) => {}
    }
    Ok(())
}

/// Appends the labels of all transitions.
fn append_labels(graph: &[Vec<Transition>], labels: &mut Vec<Label>) -> Result<(), AllocError>
    ensures { OnOk result (AddsTransitions (plain_lists graph.now) labels.old.items labels.new.items) }
{
    for transitions in graph {
        append_row(transitions.as_slice(), labels)?;
    }
    Ok(())
}

/// Appends the labels of the transitions of one state.
fn append_row(transitions: &[Transition], labels: &mut Vec<Label>) -> Result<(), AllocError>
    ensures { OnOk result (AddsRow transitions.now labels.old.items labels.new.items) }
{
    for transition in transitions {
        labels.push(transition.label)?;
    }
    Ok(())
}

/// Sorts the labels, each of which is there once then.
fn sort_labels(labels: &mut Vec<Label>)
    ensures same { (l : LabelOf) → In l labels.new.items ↔ In l labels.old.items }
    ensures ascending { IsStrictlySortedBy ⟦<Label as Ord>⟧.cmp labels.new.items }
{
    sort_and_dedup(labels);
}
