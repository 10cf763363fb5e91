//! What behaviours can do first.
ghost use Rattle.std.specs.Prelude.{◌↔◌, ◌∷◌, ◌⊎◌, [], IfOk, MatchBool, Some, map, zip};
ghost use Rattle.std.specs.Option.{option_map};
ghost use Rattle.lotos_check.specs.CheckedView.{flat_of, process_of};
ghost use Rattle.lotos_check.specs.NameLists.{In, Name as AnyName};
ghost use Rattle.lotos_warn.specs.FirstLabels.{First};
ghost use Rattle.lotos_warn.specs.LabelSets.{BeginsBy, Has, HasExactly, IsBare, IsComposed, IsEnabled, IsHidden, IsJoint, IsMadeOf, IsOfAction, IsOfCall};

use crate::gate_names::{
    common_names, insert_name, joint_names, merge, remove_name, renamed_names,
};
use indexmap::IndexSet;
use lotos_check::{Code, Process};
use lotos_text::Name;
use std::alloc::{AllocError, Global};

/// The labels of the steps that a behaviour can do first: whether one terminates, whether one is internal, and the gates
/// of the others.
#[derive(Drop)]
pub(crate) struct FirstLabels<'a> {
    pub terminates: bool,
    pub internal: bool,
    pub gates: IndexSet<&'a str>,
}

/// The labels that the behaviour can begin with, if the processes begin with those that are known of them.
pub(crate) fn first_labels<'a>(
    alloc: Global,
    code: &'a Code,
    processes: &'a [Process],
    known: &[FirstLabels<'a>],
) -> Result<FirstLabels<'a>, AllocError>
    ensures { IfOk result (λ labels.
        HasExactly labels (BeginsBy (map process_of processes.now) known.now (flat_of code.now))) }
{
    match code {
        Code::Stop => Ok(without_gates(alloc, false, false)),
        Code::Exit => Ok(without_gates(alloc, true, false)),
        Code::Prefix { action, .. } => action_label(alloc, action),
        Code::Choice { left, right } | Code::Disable { left, right } => {
            let first = first_labels(alloc, left, processes, known)?;
            let second = first_labels(alloc, right, processes, known)?;
            either(first, second)
        }
        Code::Par { left, sync, right } => {
            let first = first_labels(alloc, left, processes, known)?;
            let second = first_labels(alloc, right, processes, known)?;
            composed(alloc, first, sync, second)
        }
        Code::Hide { gates, body } => {
            let inside = first_labels(alloc, body, processes, known)?;
            Ok(hidden(inside, gates.as_slice()))
        }
        Code::Enable { left, .. } => {
            let first = first_labels(alloc, left, processes, known)?;
            Ok(enabled(first))
        }
        Code::Call { process, gates } => {
            labels_of_call(alloc, processes, known, *process, gates.as_slice())
        }
    }
}

/// No actions, and whether there are the other labels.
pub(crate) fn without_gates<'a>(alloc: Global, terminates: bool, internal: bool) -> FirstLabels<'a>
    ensures { HasExactly result (IsBare terminates internal) }
{
    FirstLabels {
        terminates,
        internal,
        gates: IndexSet::new(alloc),
    }
}

/// The label of an action prefix.
fn action_label<'a>(alloc: Global, action: &'a Option<Name>) -> Result<FirstLabels<'a>, AllocError>
    ensures { IfOk result (λ labels. HasExactly labels (IsOfAction action.now)) }
{
    match action {
        None => Ok(without_gates(alloc, false, true)),
        Some(gate) => gate_label(alloc, gate),
    }
}

fn gate_label<'a>(alloc: Global, gate: &'a Name) -> Result<FirstLabels<'a>, AllocError>
    ensures { IfOk result (λ labels. HasExactly labels (IsOfAction (Some gate.now))) }
{
    let mut gates = IndexSet::new(alloc);
    insert_name(&mut gates, gate)?;
    Ok(FirstLabels {
        terminates: false,
        internal: false,
        gates,
    })
}

/// The labels of both.
fn either<'a>(left: FirstLabels<'a>, right: FirstLabels<'a>) -> Result<FirstLabels<'a>, AllocError>
    ensures { IfOk result (λ labels. HasExactly labels (λ x. Has left.entry x ⊎ Has right.entry x)) }
{
    let mut gates = left.gates;
    merge(&mut gates, right.gates)?;
    Ok(FirstLabels {
        terminates: left.terminates | right.terminates,
        internal: left.internal | right.internal,
        gates,
    })
}

/// The labels of a parallel composition, from those of its sides.
fn composed<'a>(
    alloc: Global,
    left: FirstLabels<'a>,
    sync: &Option<Vec<Name>>,
    right: FirstLabels<'a>,
) -> Result<FirstLabels<'a>, AllocError>
    ensures { IfOk result (λ labels.
        HasExactly labels (IsComposed (option_map (λ v. v.items) sync.now)
        (Has left.entry) (Has right.entry))) }
{
    let terminates = left.terminates & right.terminates;
    let internal = left.internal | right.internal;
    let gates = composed_gates(alloc, left.gates, sync, right.gates)?;
    Ok(FirstLabels {
        terminates,
        internal,
        gates,
    })
}

/// The gates that a parallel composition can begin with, from those of its sides.
fn composed_gates<'a>(
    alloc: Global,
    left: IndexSet<&'a str>,
    sync: &Option<Vec<Name>>,
    right: IndexSet<&'a str>,
) -> Result<IndexSet<&'a str>, AllocError>
    ensures { IfOk result (λ gates. (n : AnyName) → In n (map (λ k. k.now) gates.keys)
        ↔ IsJoint (option_map (λ v. v.items) sync.now) (map (λ k. k.now) left.entry.keys)
        (map (λ k. k.now) right.entry.keys) n) }
{
    match sync {
        None => common_names(alloc, &left, &right),
        Some(list) => joint_names(left, list.as_slice(), right),
    }
}

/// The labels of a hiding, from those of the behaviour inside it.
fn hidden<'a>(inside: FirstLabels<'a>, gates: &[Name]) -> FirstLabels<'a>
    ensures { HasExactly result (IsHidden gates.now (Has inside.entry)) }
{
    let mut labels = inside;
    for gate in gates {
        hide_gate(&mut labels, gate);
    }
    labels
}

/// Makes actions of the gate internal.
fn hide_gate(labels: &mut FirstLabels<'_>, gate: &Name)
    ensures { HasExactly labels.new (IsHidden (gate.now ∷ []) (Has labels.old)) }
{
    let was_there = remove_name(&mut labels.gates, gate);
    labels.internal = labels.internal | was_there;
}

/// The labels of `>>`, from those of its left side.
fn enabled<'a>(left: FirstLabels<'a>) -> FirstLabels<'a>
    ensures { HasExactly result (IsEnabled (Has left.entry)) }
{
    FirstLabels {
        terminates: false,
        internal: left.internal | left.terminates,
        gates: left.gates,
    }
}

/// The labels of a call, from those that are known of its process.
fn labels_of_call<'a>(
    alloc: Global,
    processes: &'a [Process],
    known: &[FirstLabels<'a>],
    process: usize,
    gates: &'a [Name],
) -> Result<FirstLabels<'a>, AllocError>
    ensures { IfOk result (λ labels.
        HasExactly labels (IsOfCall (map process_of processes.now) known.now process gates.now)) }
{
    if process < processes.len() && process < known.len() {
        renamed(
            alloc,
            processes[process].formals.as_slice(),
            gates,
            &known[process],
        )
    } else {
        Ok(without_gates(alloc, false, false))
    }
}

/// The labels with each formal gate replaced by the actual one.
fn renamed<'a>(
    alloc: Global,
    formals: &'a [Name],
    actuals: &'a [Name],
    labels: &FirstLabels<'a>,
) -> Result<FirstLabels<'a>, AllocError>
    ensures { IfOk result (λ r. HasExactly r (IsMadeOf labels.now (zip formals.now actuals.now))) }
{
    let gates = renamed_names(alloc, formals, actuals, &labels.gates)?;
    Ok(FirstLabels {
        terminates: labels.terminates,
        internal: labels.internal,
        gates,
    })
}

/// Whether there is no label.
pub(crate) fn has_none(labels: &FirstLabels<'_>) -> bool
    ensures { MatchBool result ((x : First) → Has labels.now x → ⊥) ((x : First) × Has labels.now x) }
{
    let has_other = labels.terminates | labels.internal;
    !has_other & labels.gates.is_empty()
}
