//! The unguarded calls of each process, and the order in which processes can be ranked.
ghost use Rattle.std.specs.Prelude.{◌≡◌, ◌↔◌, ◌⊎◌, ◌<◌, ℕ, IfOk, OnOk, length, map};
ghost use Rattle.lotos_check.specs.NameLists.{In};
ghost use Rattle.lotos_check.specs.Flat.{Pairwise};
ghost use Rattle.lotos_check.specs.Guard.{CallsUnguarded};
ghost use Rattle.lotos_check.specs.RankingSteps.{AreCalls};
ghost use Rattle.lotos_check.specs.CheckedView.{flat_of, process_of};

use crate::resolved::{Code, Process};
use std::alloc::{AllocError, Global};

/// For each process, the processes that it calls unguarded.
pub(crate) fn unguarded_calls(
    alloc: Global,
    processes: &[Process],
) -> Result<Vec<Vec<usize>>, AllocError>
    ensures { IfOk result
        (λ v. Pairwise AreCalls (map (λ calls. calls.items) v.items) (map process_of processes.now)) }
{
    let mut edges = Vec::new(alloc);
    for process in processes {
        let mut calls = Vec::new(alloc);
        add_unguarded_calls(&process.body, &mut calls)?;
        edges.push(calls)?;
    }
    Ok(edges)
}

/// Appends the processes that the behaviour calls unguarded: under no prefix, and not in the right operand of `>>`.
fn add_unguarded_calls(code: &Code, into: &mut Vec<usize>) -> Result<(), AllocError>
    ensures { OnOk result ((q : ℕ) → In q into.new.items ↔ In q into.old.items
        ⊎ CallsUnguarded (flat_of code.now) q) }
{
    match code {
        Code::Stop | Code::Exit | Code::Prefix { .. } => Ok(()),
        Code::Choice { left, right } => {
            add_unguarded_calls(left, into)?;
            add_unguarded_calls(right, into)
        }
        Code::Par { left, right, .. } => {
            add_unguarded_calls(left, into)?;
            add_unguarded_calls(right, into)
        }
        Code::Disable { left, right } => {
            add_unguarded_calls(left, into)?;
            add_unguarded_calls(right, into)
        }
        Code::Hide { body, .. } => add_unguarded_calls(body, into),
        Code::Enable { left, .. } => add_unguarded_calls(left, into),
        Code::Call { process, .. } => {
            into.push(*process)?;
            Ok(())
        }
    }
}

/// The processes that can be ranked, each after those that it calls.
///
/// First come those that call none, then each one as soon as all that it calls are in the order.
pub(crate) fn callee_first_order(
    alloc: Global,
    edges: &[Vec<usize>],
) -> Result<Vec<usize>, AllocError>
    ensures { IfOk result (λ v. (p : ℕ) → In p v.items → p < length edges.now) }
{
    let callers = callers(alloc, edges)?;
    let mut left = count_calls(alloc, edges)?;
    let mut order = find_ready(alloc, left.as_slice())?;
    for index in 0..edges.len() {
        if let Some(process) = order.get(index) {
            if let Some(its_callers) = callers.get(*process) {
                add_ready(its_callers.as_slice(), left.as_mut_slice(), &mut order)?;
            }
        }
    }
    Ok(order)
}

/// For each process, the processes that call it, each as often as it does.
fn callers(alloc: Global, edges: &[Vec<usize>]) -> Result<Vec<Vec<usize>>, AllocError> {
    let mut callers = empty_lists(alloc, edges.len())?;
    for (process, calls) in edges.iter().enumerate() {
        add_caller(process, calls.as_slice(), callers.as_mut_slice())?;
    }
    Ok(callers)
}

/// As many empty lists as `count`.
fn empty_lists(alloc: Global, count: usize) -> Result<Vec<Vec<usize>>, AllocError> {
    let mut lists = Vec::new(alloc);
    for _ in 0..count {
        lists.push(Vec::new(alloc))?;
    }
    Ok(lists)
}

/// Appends the caller to the callers of each process that it calls.
fn add_caller(
    caller: usize,
    calls: &[usize],
    callers: &mut [Vec<usize>],
) -> Result<(), AllocError> {
    for process in calls {
        if let Some(list) = callers.get_mut(*process) {
            list.push(caller)?;
        }
    }
    Ok(())
}

/// For each process, the number of its calls.
fn count_calls(alloc: Global, edges: &[Vec<usize>]) -> Result<Vec<usize>, AllocError>
    ensures { IfOk result (λ v. length v.items ≡ length edges.now) }
{
    let mut left = Vec::new(alloc);
    for calls in edges {
        left.push(calls.as_slice().len())?;
    }
    Ok(left)
}

/// The processes with no call left, ascending.
fn find_ready(alloc: Global, left: &[usize]) -> Result<Vec<usize>, AllocError>
    ensures { IfOk result (λ v. (p : ℕ) → In p v.items → p < length left.now) }
{
    let mut ready = Vec::new(alloc);
    for (process, calls) in left.iter().enumerate() {
        if *calls == 0 {
            ready.push(process)?;
        }
    }
    Ok(ready)
}

/// Subtracts one call from what each caller has left, and appends those to the order that have none left.
fn add_ready(
    callers: &[usize],
    left: &mut [usize],
    order: &mut Vec<usize>,
) -> Result<(), AllocError>
    requires { (p : ℕ) → In p order.old.items → p < length left.old }
    ensures { OnOk result ((p : ℕ) → In p order.new.items → p < length left.old) }
{
    for caller in callers {
        if let Some(calls) = left.get_mut(*caller) {
            *calls = calls.saturating_sub(1);
            if *calls == 0 {
                order.push(*caller)?;
            }
        }
    }
    Ok(())
}
