//! The processes that may terminate, by their text alone.
ghost use Rattle.std.specs.Prelude.{◌≡◌, ◌<◌, ◌≤◌, ◌↔◌, ◌^◌, ℕ, IfOk, MatchBool, OnOk, length, map};
ghost use Rattle.lotos_check.specs.NameLists.{In};
ghost use Rattle.lotos_check.specs.CheckedView.{flat_of, process_of};
ghost use Rattle.lotos_warn.specs.Additions.{AddsExiting, AreExiting, IsClosedBelow};
ghost use Rattle.lotos_warn.specs.Termination.{IsExiting, exits_by};

use indexmap::IndexSet;
use lotos_check::{Code, Process};
use std::alloc::{AllocError, Global};

/// The processes that may terminate, by number: the least set in which each process is whose body may terminate if the
/// processes of the set may.
///
/// Rounds over all processes add to the set, until one adds none. A pass backwards comes before them: processes mostly
/// call later ones, and a chain of those would take a round for each.
// A chain of calls takes one pass and one round, whichever way it goes. Calls in no order can still take as many rounds
// as there are processes; to count the calls for which each process waits would be linear there, at the price of a
// larger proof.
pub(crate) fn exiting_processes(
    alloc: Global,
    processes: &[Process],
) -> Result<IndexSet<usize>, AllocError>
    ensures { IfOk result (λ exiting. (k : ℕ) →
        In k exiting.keys ↔ IsExiting (map process_of processes.now) k) }
{
    let mut exiting = IndexSet::new(alloc);
    add_backwards(processes, &mut exiting)?;
    let mut grew = true;
    while grew {
        grew = add_round(processes, &mut exiting)?;
    }
    Ok(exiting)
}

/// Adds the processes that may terminate if those of the set may, the last one first.
fn add_backwards(processes: &[Process], exiting: &mut IndexSet<usize>) -> Result<(), AllocError>
    ensures { OnOk result (AreExiting (map process_of processes.now) exiting.old.keys →
        AreExiting (map process_of processes.now) exiting.new.keys) }
{
    for back in 0..processes.len() {
        let number = processes.len() - 1 - back;
        add_if_exiting(number, &processes[number].body, exiting)?;
    }
    Ok(())
}

/// Adds the processes that may terminate if those of the set may, each in its turn. Returns whether one was added.
fn add_round(processes: &[Process], exiting: &mut IndexSet<usize>) -> Result<bool, AllocError>
    ensures sound { OnOk result (AreExiting (map process_of processes.now) exiting.old.keys →
        AreExiting (map process_of processes.now) exiting.new.keys) }
    ensures longer { OnOk result (length exiting.old.keys ≤ length exiting.new.keys) }
    ensures round { IfOk result (λ grew. MatchBool grew (length exiting.old.keys < length exiting.new.keys)
        (IsClosedBelow (map process_of processes.now) exiting.new.keys (length processes.now))) }
    ensures small { OnOk result (length exiting.new.keys < 2 ^ 63) }
{
    let before = exiting.len();
    for number in 0..processes.len() {
        add_if_exiting(number, &processes[number].body, exiting)?;
    }
    if before < exiting.len() {
        Ok(true)
    } else {
        Ok(false)
    }
}

/// Adds the number if the behaviour may terminate.
fn add_if_exiting(
    number: usize,
    body: &Code,
    exiting: &mut IndexSet<usize>,
) -> Result<(), AllocError>
    ensures { OnOk result (AddsExiting number (flat_of body.now) exiting.old.keys exiting.new.keys) }
{
    if may_exit(body, exiting) {
        exiting.insert(number)?;
    }
    Ok(())
}

/// Whether the behaviour may terminate if exactly the processes of the set may.
pub(crate) fn may_exit(code: &Code, exiting: &IndexSet<usize>) -> bool
    ensures { result ≡ exits_by exiting.now.keys (flat_of code.now) }
{
    match code {
        Code::Stop => false,
        Code::Exit => true,
        Code::Prefix { body, .. } => may_exit(body, exiting),
        Code::Hide { body, .. } => may_exit(body, exiting),
        Code::Choice { left, right } => may_exit(left, exiting) || may_exit(right, exiting),
        Code::Disable { left, right } => may_exit(left, exiting) || may_exit(right, exiting),
        Code::Par { left, right, .. } => may_exit(left, exiting) && may_exit(right, exiting),
        Code::Enable { left, right } => may_exit(left, exiting) && may_exit(right, exiting),
        Code::Call { process, .. } => exiting.contains(process),
    }
}
