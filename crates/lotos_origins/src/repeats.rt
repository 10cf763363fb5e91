//! Where the turns of a loop come back to a term that does as one at which a turn began.
ghost use Rattle.std.specs.Prelude.{◌≡◌, ◌<◌, ℕ, IfOk, List, IfSome, Some, length, slice_get, true};
ghost use Rattle.lotos_check.specs.NameLists.{In};
ghost use Rattle.lotos_store.specs.Terms.{Term as TermOf};
ghost use Rattle.lotos_store.specs.declared.label.Label.{Label};
ghost use Rattle.lotos_origins.specs.Contexts.{DoAlike};
ghost use Rattle.lotos_origins.specs.FollowedRuns.{IsFollowed, ends_of};
ghost use Rattle.lotos_origins.specs.Rounds.{IsAtPlace};

use crate::alike::are_alike;
use crate::followed_run::{FollowedRun, Place};
use crate::turns::Turns;
use lotos_normal::NormalTable;
use lotos_terms::Term;
use std::alloc::{AllocError, Global};

/// A loop that closes: the beginning of a turn, and the end of a later one, where the terms do alike.
#[derive(Clone, Copy)]
pub(crate) struct Repeat {
    /// How many labels there are before the loop.
    pub at: usize,
    /// The index, among the terms that the labels lead to, of the one at which the loop ends.
    pub end: usize,
}

/// A loop that closes after the last turn, if there is one: for the first end that has any, the longest one. That it
/// closes is for the caller to see again, with the way that leads around it.
pub(crate) fn find_repeat(
    alloc: Global,
    table: &NormalTable,
    turns: &Turns,
) -> Result<Option<Repeat>, AllocError>
    requires { (start : ℕ) × IsFollowed table.now start turns.now.labels.items turns.now.followed }
    ensures at { IfOk result (λ o. IfSome o (λ r. In r.at turns.now.bounds.items)) }
    ensures end { IfOk result (λ o. IfSome o (λ r. r.end < length (ends_of turns.now.followed))) }
{
    for end in 0..turns.followed.ends().len() {
        if let Some(at) = first_alike(alloc, table, turns, end)? {
            return Ok(Some(Repeat { at, end }));
        }
    }
    Ok(None)
}

/// How many labels there are before the first turn that began at a term that does as the end with this index, on the
/// way to it. `None` if there is none.
fn first_alike(
    alloc: Global,
    table: &NormalTable,
    turns: &Turns,
    end: usize,
) -> Result<Option<usize>, AllocError>
    requires { (start : ℕ) × IsFollowed table.now start turns.now.labels.items turns.now.followed }
    ensures { IfOk result (λ o. IfSome o (λ at. In at turns.now.bounds.items)) }
{
    let last = Place {
        count: turns.labels.len(),
        index: end,
    };
    let mut place = last;
    let mut found = None;
    for number in (0..turns.bounds.len()).rev() {
        let bound = turns.bounds[number];
        let Some(earlier) = turns.followed.place_before(place, bound) else {
            return Ok(None);
        };
        if do_alike(alloc, table, &turns.followed, earlier, last)? {
            found = Some(bound);
        }
        place = earlier;
    }
    Ok(found)
}

/// Whether the terms at two places do alike, as far as that can be seen. `false` says nothing.
pub(crate) fn do_alike(
    alloc: Global,
    table: &NormalTable,
    followed: &FollowedRun,
    first: Place,
    second: Place,
) -> Result<bool, AllocError>
    requires { (start : ℕ) × (run : List Label) × IsFollowed table.now start run followed.now }
    ensures { IfOk result (λ b. b ≡ true → (x y : ℕ) (t u : TermOf) → IsAtPlace followed.now first x →
        IsAtPlace followed.now second y → slice_get table.now.terms x ≡ Some t →
        slice_get table.now.terms y ≡ Some u → DoAlike table.now.processes t u) }
{
    let Some(one) = followed.term_at(first) else {
        return Ok(false);
    };
    let Some(other) = followed.term_at(second) else {
        return Ok(false);
    };
    are_alike(alloc, table, one, other)
}
