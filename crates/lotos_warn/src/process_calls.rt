//! The processes that are called, and those that are reached from the behaviour of the specification.
ghost use Rattle.std.specs.Prelude.{◌≡◌, ◌↔◌, ◌<◌, ℕ, IfOk, OnOk, Some, length, map, slice_get};
ghost use Rattle.lotos_check.specs.NameLists.{In};
ghost use Rattle.lotos_check.specs.CheckedView.{flat_of, process_of, system_of};
ghost use Rattle.lotos_warn.specs.CallSites.{from_process};
ghost use Rattle.lotos_warn.specs.Additions.{Adds, ContainsCallOf, IsCalledByAny, IsCalledByBody, IsCalledByNumber, IsReachedIn, KeepsIndices};

use indexmap::IndexSet;
use lotos_check::{Checked, Code, Process};
use std::alloc::{AllocError, Global};

/// The processes that are called anywhere in the specification, by number.
pub(crate) fn called_processes(
    alloc: Global,
    system: &Checked,
) -> Result<IndexSet<usize>, AllocError>
    ensures { IfOk result (λ called. (k : ℕ) → In k called.keys ↔ IsCalledByBody (system_of system.now) k) }
{
    let mut called = IndexSet::new(alloc);
    add_calls(system.start(), &mut called)?;
    add_calls_of_all(system.processes(), &mut called)?;
    Ok(called)
}

/// The processes that are reached from the behaviour of the specification, by number: those that it calls, and those that
/// a process that is reached calls.
///
/// Each is expanded once, in the order in which they are found.
pub(crate) fn reached_processes(
    alloc: Global,
    system: &Checked,
) -> Result<IndexSet<usize>, AllocError>
    ensures { IfOk result (λ reached. (k : ℕ) → In k reached.keys ↔ IsReachedIn (system_of system.now) k) }
{
    let mut reached = IndexSet::new(alloc);
    add_calls(system.start(), &mut reached)?;
    let mut index = 0;
    while index < reached.len() {
        add_calls_of_next(system.processes(), index, &mut reached)?;
        index += 1;
    }
    Ok(reached)
}

/// The processes that are reached from the one with this number, by number: itself, and those that a process that is
/// reached calls.
pub(crate) fn reached_from(
    alloc: Global,
    processes: &[Process],
    number: usize,
) -> Result<IndexSet<usize>, AllocError>
    ensures { IfOk result (λ reached. (k : ℕ) →
        In k reached.keys ↔ IsReachedIn (from_process (map process_of processes.now) number) k) }
{
    let mut reached = IndexSet::new(alloc);
    add_number(number, &mut reached)?;
    let mut passed = 0;
    while passed < reached.len() {
        add_calls_of_next(processes, passed, &mut reached)?;
        passed += 1;
    }
    Ok(reached)
}

/// Adds the processes that the process at this index of the set calls.
fn add_calls_of_next(
    processes: &[Process],
    index: usize,
    reached: &mut IndexSet<usize>,
) -> Result<(), AllocError>
    requires { index < length reached.old.keys }
    ensures adds { OnOk result ((caller : ℕ) → slice_get reached.old.keys index ≡ Some caller →
        Adds reached.old.keys reached.new.keys (IsCalledByNumber (map process_of processes.now) caller)) }
    ensures keeps { OnOk result (KeepsIndices reached.old.keys reached.new.keys) }
{
    let caller = number_at(reached, index);
    add_calls_of(processes, caller, reached)
}

/// The number at an index of the set.
pub(crate) fn number_at(numbers: &IndexSet<usize>, index: usize) -> usize
    requires { index < length numbers.now.keys }
    ensures { slice_get numbers.now.keys index ≡ Some result }
{
    *numbers.get_index(index).unwrap()
}

/// Adds the processes that the process with this number calls.
fn add_calls_of(
    processes: &[Process],
    caller: usize,
    called: &mut IndexSet<usize>,
) -> Result<(), AllocError>
    ensures adds { OnOk result (Adds called.old.keys called.new.keys
        (IsCalledByNumber (map process_of processes.now) caller)) }
    ensures keeps { OnOk result (KeepsIndices called.old.keys called.new.keys) }
{
    if caller < processes.len() {
        add_calls(&processes[caller].body, called)?;
    }
    Ok(())
}

/// Adds the processes that one of these calls.
fn add_calls_of_all(processes: &[Process], called: &mut IndexSet<usize>) -> Result<(), AllocError>
    ensures { OnOk result (Adds called.old.keys called.new.keys
        (IsCalledByAny (map process_of processes.now))) }
{
    for process in processes {
        add_calls(&process.body, called)?;
    }
    Ok(())
}

/// Adds the processes that the behaviour calls.
fn add_calls(code: &Code, called: &mut IndexSet<usize>) -> Result<(), AllocError>
    ensures adds { OnOk result (Adds called.old.keys called.new.keys (ContainsCallOf (flat_of code.now))) }
    ensures keeps { OnOk result (KeepsIndices called.old.keys called.new.keys) }
{
    match code {
        Code::Stop | Code::Exit => Ok(()),
        Code::Prefix { body, .. } | Code::Hide { body, .. } => add_calls(body, called),
        Code::Choice { left, right }
        | Code::Par { left, right, .. }
        | Code::Enable { left, right }
        | Code::Disable { left, right } => {
            add_calls(left, called)?;
            add_calls(right, called)
        }
        Code::Call { process, .. } => add_number(*process, called),
    }
}

fn add_number(process: usize, called: &mut IndexSet<usize>) -> Result<(), AllocError>
    ensures adds { OnOk result (Adds called.old.keys called.new.keys (λ k. process ≡ k)) }
    ensures keeps { OnOk result (KeepsIndices called.old.keys called.new.keys) }
{
    called.insert(process)?;
    Ok(())
}
