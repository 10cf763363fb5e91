//! Steps that go round, with the origins of the internal ones.
ghost use Rattle.std.specs.Prelude.{◌≡◌, ◌≢◌, ◌<◌, ◌≤◌, ℕ, [], IfOk, IfSome, drop, length, take};
ghost use Rattle.lotos_check.specs.NameLists.{In};
ghost use Rattle.lotos_terms.specs.TableView.{Grows, IsSoundView};
ghost use Rattle.lotos_origins.specs.FollowedRuns.{IsFollowed, ends_of};
ghost use Rattle.lotos_origins.specs.Rounds.{AreBounds, IsRoundAt, IsRoundFrom};

use crate::followed_run::{Place, origins_along, origins_back};
use crate::laws::alike_terms_go_round;
use crate::origin::Origin;
use crate::repeats::{Repeat, do_alike, find_repeat};
use crate::turns::{Turns, follow_row, follow_turn};
use lotos_normal::NormalTable;
use lotos_terms::{Label, Term};
use std::alloc::{AllocError, Global};

/// Steps that never end: those of a row, and those of a loop that may be taken as often as one likes.
#[derive(Debug, Drop)]
pub struct Round {
    /// The labels of the steps before the loop.
    pub row: Vec<Label>,
    /// The labels of the loop, at least one.
    pub turn: Vec<Label>,
    /// The origins of the internal steps of the row.
    pub row_origins: Vec<Origin>,
    /// The origins of the internal steps of the loop, each time around.
    pub turn_origins: Vec<Origin>,
}

/// Follows steps by the labels of a row and then, turn after turn, by those of a loop, until the loop is back at a term
/// that has the same steps, with the same origins of the internal ones, as one at which a turn began. The first turns
/// become steps of the row if they are not taken again, and the loop becomes several turns if what makes their internal
/// steps alternates. Terms are followed as they are, one for each normal form after each step. Terms without a number
/// get one. If an allocation fails, the table may have grown all the same.
///
/// The labels have to go round from the start, as those of a lasso do. Where they do not, it goes on until an allocation
/// fails.
pub fn find_round(
    alloc: Global,
    table: &mut NormalTable,
    start: Term,
    row: &[Label],
    turn: &[Label],
) -> Result<Round, AllocError>
    requires start { start < length table.old.terms }
    requires turn { turn.now ≢ [] }
    ensures grows { Grows table.old table.new }
    ensures sound { IsSoundView table.new }
    ensures round { IfOk result (IsRoundFrom table.new start row.now turn.now) }
{
    let mut turns = follow_row(alloc, table, start, row)?;
    loop {
        turns = follow_turn(alloc, table, start, turn, turns)?;
        let closed = close_turns(alloc, table, start, &turns)?;
        if let Some(round) = closed {
            return Ok(round);
        }
    }
}

/// The steps of the turns, if a loop closes after the last one.
fn close_turns(
    alloc: Global,
    table: &mut NormalTable,
    start: Term,
    turns: &Turns,
) -> Result<Option<Round>, AllocError>
    requires followed { IsFollowed table.old start turns.now.labels.items turns.now.followed }
    requires bounds { AreBounds turns.now.labels.items turns.now.bounds.items }
    ensures grows { Grows table.old table.new }
    ensures sound { IsSoundView table.new }
    ensures round { IfOk result (λ o. IfSome o (λ round. (at : ℕ) × In at turns.now.bounds.items ×
        IsRoundAt table.new start turns.now.labels.items at round)) }
{
    table.recall_sound();
    let repeat = find_repeat(alloc, table, turns)?;
    match repeat {
        None => Ok(None),
        Some(repeat) => close_round(alloc, table, start, turns, repeat),
    }
}

/// The steps to the loop and around it, with the origins of the internal ones, if the terms at its ends do alike.
fn close_round(
    alloc: Global,
    table: &mut NormalTable,
    start: Term,
    turns: &Turns,
    repeat: Repeat,
) -> Result<Option<Round>, AllocError>
    requires followed { IsFollowed table.old start turns.now.labels.items turns.now.followed }
    requires at { repeat.at ≤ length turns.now.labels.items }
    requires end { repeat.end < length (ends_of turns.now.followed) }
    ensures grows { Grows table.old table.new }
    ensures sound { IsSoundView table.new }
    ensures round { IfOk result (λ o. IfSome o (IsRoundAt table.new start turns.now.labels.items repeat.at)) }
{
    alike_terms_go_round();
    let labels = turns.labels.as_slice();
    let layers = turns.followed.layers.as_slice();
    let back = origins_back(alloc, table, layers, repeat.end, labels, repeat.at)?;
    let first = Place {
        count: repeat.at,
        index: back.index,
    };
    let last = Place {
        count: labels.len(),
        index: repeat.end,
    };
    if !do_alike(alloc, table, &turns.followed, first, last)? {
        return Ok(None);
    }
    let before = &labels[..repeat.at];
    let row_origins = origins_along(alloc, table, &layers[..repeat.at + 1], back.index, before)?;
    let (row, turn) = cut_labels(alloc, labels, repeat.at)?;
    Ok(Some(Round {
        row,
        turn,
        row_origins,
        turn_origins: back.origins,
    }))
}

/// The first labels, of which there are so many, and the others.
fn cut_labels(
    alloc: Global,
    labels: &[Label],
    at: usize,
) -> Result<(Vec<Label>, Vec<Label>), AllocError>
    requires { at ≤ length labels.now }
    ensures first { IfOk result (λ p. p.0.items ≡ take at labels.now) }
    ensures others { IfOk result (λ p. p.1.items ≡ drop at labels.now) }
{
    let first = Vec::from_slice(alloc, &labels[..at])?;
    let others = Vec::from_slice(alloc, &labels[at..])?;
    Ok((first, others))
}
