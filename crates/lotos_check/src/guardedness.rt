//! Guarded recursion: ranks of the processes that decrease at every unguarded call.
ghost use Rattle.std.specs.Prelude.{◌≡◌, ◌<◌, ◌≤◌, ℕ, Some, None, IfOk, MatchBool, length, map, slice_get};
ghost use Rattle.lotos_check.specs.NameLists.{In};
ghost use Rattle.lotos_check.specs.Guard.{Calls};
ghost use Rattle.lotos_check.specs.RankingSteps.{AreRanked, AreUnranked, CallsInRange, AreMaximalRanks, IsRanked, AreConsistentRanks, IsStuckAt, HasUnrankedCallee};
ghost use Rattle.lotos_check.specs.CheckedView.{process_of};

use crate::call_graph::{callee_first_order, unguarded_calls};
use crate::resolved::Process;
use std::alloc::{AllocError, Global};

/// Whether recursion is guarded.
#[derive(Drop)]
pub(crate) enum Ranking {
    /// A rank for each process; they decrease at every unguarded call.
    Guarded(Vec<usize>),
    /// The largest set of processes each of which has an unguarded call into the set, ascending. It is not empty.
    Unguarded(Vec<usize>),
}

/// Ranks of the processes that decrease at every unguarded call, or the processes that have none.
///
/// A process gets a rank when all that it calls unguarded have one. One pass in callee-first order ranks all that can
/// be ranked. Rounds over all processes confirm it, until one ranks none.
pub(crate) fn rank_processes(alloc: Global, processes: &[Process]) -> Result<Ranking, AllocError>
    requires { (p q : ℕ) → Calls (map process_of processes.now) p q → q < length processes.now }
    ensures { IfOk result (IsRanked (map process_of processes.now)) }
{
    let edges = unguarded_calls(alloc, processes)?;
    let order = callee_first_order(alloc, edges.as_slice())?;
    let mut ranks: Vec<Option<usize>> = vec![in alloc; None; processes.len()]?;
    assign_ranks(edges.as_slice(), order.as_slice(), ranks.as_mut_slice());
    let unranked = unranked_processes(alloc, ranks.as_slice())?;
    if unranked.is_empty() {
        let all_ranks = unwrap_ranks(alloc, ranks.as_slice())?;
        Ok(Ranking::Guarded(all_ranks))
    } else {
        Ok(Ranking::Unguarded(unranked))
    }
}

/// Ranks processes along the order, then in rounds, until a round ranks none.
///
/// Each process of the order comes after those that it calls, so that the pass along it ranks all that can be ranked.
/// The first round then finds none left.
// So the time grows with the processes and their calls alone. The proof rests on the rounds, and needs of the order
// only that its numbers are those of processes.
fn assign_ranks(edges: &[Vec<usize>], order: &[usize], ranks: &mut [Option<usize>])
    requires in_range { CallsInRange (map (λ v. v.items) edges.now) }
    requires begin { AreConsistentRanks (map (λ v. v.items) edges.now) ranks.old 0 }
    requires within { (p : ℕ) → In p order.now → p < length edges.now }
    ensures { AreMaximalRanks (map (λ v. v.items) edges.now) ranks.new }
{
    let mut next = rank_in_order(edges, order, ranks);
    loop {
        let more = rank_round(edges, ranks, next);
        if more == next {
            return;
        }
        next = more;
    }
}

/// Ranks each process of the order that has no rank and calls only ranked ones. Returns the next rank.
fn rank_in_order(edges: &[Vec<usize>], order: &[usize], ranks: &mut [Option<usize>]) -> usize
    requires in_range { CallsInRange (map (λ v. v.items) edges.now) }
    requires begin { AreConsistentRanks (map (λ v. v.items) edges.now) ranks.old 0 }
    requires within { (p : ℕ) → In p order.now → p < length edges.now }
    ensures { AreConsistentRanks (map (λ v. v.items) edges.now) ranks.new result }
{
    let mut next = 0;
    for process in order {
        next = try_rank(edges, ranks, next, *process);
    }
    next
}

/// The same for all processes, in the order of their numbers.
fn rank_round(edges: &[Vec<usize>], ranks: &mut [Option<usize>], next: usize) -> usize
    requires in_range { CallsInRange (map (λ v. v.items) edges.now) }
    requires ordered { AreConsistentRanks (map (λ v. v.items) edges.now) ranks.old next }
    ensures ordered { AreConsistentRanks (map (λ v. v.items) edges.now) ranks.new result }
    ensures up { next ≤ result }
    ensures stuck { result ≡ next → (p : ℕ) → IsStuckAt (map (λ v. v.items) edges.now) ranks.new p }
{
    let mut now = next;
    for process in 0..edges.len() {
        now = try_rank(edges, ranks, now, process);
    }
    now
}

/// Gives a process the next rank if it has none and calls only ranked ones. Returns the next rank.
fn try_rank(edges: &[Vec<usize>], ranks: &mut [Option<usize>], next: usize, process: usize) -> usize
    requires in_range { CallsInRange (map (λ v. v.items) edges.now) }
    requires ordered { AreConsistentRanks (map (λ v. v.items) edges.now) ranks.old next }
    requires within { process < length edges.now }
    ensures ordered { AreConsistentRanks (map (λ v. v.items) edges.now) ranks.new result }
    ensures up { next ≤ result }
    ensures same { result ≡ next → ranks.new ≡ ranks.old }
    ensures stuck { result ≡ next → IsStuckAt (map (λ v. v.items) edges.now) ranks.new process }
{
    if ranks[process].is_some() || has_unranked_callee(edges[process].as_slice(), ranks) {
        return next;
    }
    ranks[process] = Some(next);
    next + 1
}

/// Whether one of the processes has no rank.
fn has_unranked_callee(calls: &[usize], ranks: &[Option<usize>]) -> bool
    requires { (q : ℕ) → In q calls.now → q < length ranks.now }
    ensures { MatchBool result (HasUnrankedCallee calls.now ranks.now) (AreRanked calls.now ranks.now) }
{
    for process in calls {
        if ranks[*process].is_none() {
            return true;
        }
    }
    false
}

/// The processes without a rank, ascending.
fn unranked_processes(alloc: Global, ranks: &[Option<usize>]) -> Result<Vec<usize>, AllocError>
    ensures { IfOk result (λ v. AreUnranked v.items ranks.now) }
{
    let mut unranked = Vec::new(alloc);
    let mut process = 0;
    for rank in ranks {
        if rank.is_none() {
            unranked.push(process)?;
        }
        process += 1;
    }
    Ok(unranked)
}

/// The ranks of the processes, each of which must have one.
fn unwrap_ranks(alloc: Global, ranks: &[Option<usize>]) -> Result<Vec<usize>, AllocError>
    requires { (p : ℕ) → slice_get ranks.now p ≡ Some None → ⊥ }
    ensures { IfOk result (λ v. map Some v.items ≡ ranks.now) }
{
    let mut all_ranks = Vec::new(alloc);
    for rank in ranks {
        if let Some(number) = rank {
            all_ranks.push(*number)?;
        }
    }
    Ok(all_ranks)
}
