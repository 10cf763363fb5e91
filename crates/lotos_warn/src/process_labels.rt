//! What the processes of a specification can do first.
ghost use Rattle.std.specs.Prelude.{◌≡◌, ◌<◌, ℕ, IfOk, OnOk, length, map};
ghost use Rattle.std.specs.List.Sorted.{IsNonDecreasingBy};
ghost use Rattle.lotos_check.specs.CheckedInvariant.{IsCheckedSystem};
ghost use Rattle.lotos_check.specs.CheckedView.{process_of, ranks_of, system_of};
ghost use Rattle.lotos_warn.specs.LabelSets.{AreRankedBy, IsKnown, IsSetAt, KeepsOthers};

use crate::first_labels::{FirstLabels, first_labels, without_gates};
use lotos_check::{Checked, Process};
use std::alloc::{AllocError, Global};

/// A process, by number, with its rank.
#[derive(Clone, Copy)]
pub(crate) struct RankedProcess {
    pub rank: usize,
    pub number: usize,
}

/// The labels that each process can begin with, by the number of the process.
///
/// Unguarded calls go to processes of smaller rank. So in the order of their ranks each process needs only the labels of
/// processes before it.
pub(crate) fn process_labels<'a>(
    alloc: Global,
    system: &'a Checked,
) -> Result<Vec<FirstLabels<'a>>, AllocError>
    requires kept { ∥ IsCheckedSystem (system_of system.now) (ranks_of system.now) ∥₁ }
    ensures { IfOk result (λ known. (k : ℕ) → IsKnown (system_of system.now).processes known.items k) }
{
    let order = processes_by_rank(alloc, system)?;
    let mut known = unknown_labels(alloc, system.processes().len())?;
    for process in &order {
        set_labels(alloc, system.processes(), process.number, &mut known)?;
    }
    Ok(known)
}

/// The processes in the order of their ranks.
fn processes_by_rank(alloc: Global, system: &Checked) -> Result<Vec<RankedProcess>, AllocError>
    requires kept { ∥ IsCheckedSystem (system_of system.now) (ranks_of system.now) ∥₁ }
    ensures all { IfOk result (λ list. AreRankedBy (ranks_of system.now) list.items) }
    ensures ordered { IfOk result (λ list. IsNonDecreasingBy (λ p. p.rank) list.items) }
{
    let mut list = ranked_processes(alloc, system)?;
    list.sort_unstable_by_key(|process| process.rank);
    Ok(list)
}

/// The processes with their ranks, in the order of their numbers.
fn ranked_processes(alloc: Global, system: &Checked) -> Result<Vec<RankedProcess>, AllocError>
    requires kept { ∥ IsCheckedSystem (system_of system.now) (ranks_of system.now) ∥₁ }
    ensures { IfOk result (λ list. AreRankedBy (ranks_of system.now) list.items) }
{
    let mut list = Vec::new(alloc);
    for number in 0..system.processes().len() {
        let rank = system.rank(number);
        list.push(RankedProcess { rank, number })?;
    }
    Ok(list)
}

/// A list of so many sets without labels.
fn unknown_labels<'a>(alloc: Global, count: usize) -> Result<Vec<FirstLabels<'a>>, AllocError>
    ensures { IfOk result (λ known. length known.items ≡ count) }
{
    let mut known = Vec::new(alloc);
    while known.len() < count {
        known.push(without_gates(alloc, false, false))?;
    }
    Ok(known)
}

/// Puts the labels of the process with this number into the list, if those that it calls unguarded have theirs there.
fn set_labels<'a>(
    alloc: Global,
    processes: &'a [Process],
    number: usize,
    known: &mut Vec<FirstLabels<'a>>,
) -> Result<(), AllocError>
    requires process { number < length processes.now }
    requires within { number < length known.old.items }
    ensures set { OnOk result
        (IsSetAt (map process_of processes.now) number known.old.items known.new.items) }
    ensures others { OnOk result (KeepsOthers number known.old.items known.new.items) }
    ensures counted { OnOk result (length known.new.items ≡ length known.old.items) }
{
    let labels = first_labels(alloc, &processes[number].body, processes, known.as_slice())?;
    known[number] = labels;
    Ok(())
}
