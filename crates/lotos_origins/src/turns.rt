//! Terms that are followed along a row and then along turns of a loop.
ghost use Rattle.std.specs.Prelude.{◌≡◌, ◌++◌, ◌∷◌, ◌<◌, ◌^◌, [], IfOk, length};
ghost use Rattle.lotos_terms.specs.TableView.{Grows, IsSoundView};
ghost use Rattle.lotos_origins.specs.FollowedRuns.{IsFollowed};

use crate::followed_run::{FollowedRun, follow_rest, follow_run};
use lotos_normal::NormalTable;
use lotos_terms::{Label, Term};
use std::alloc::{AllocError, Global};

/// The steps of a row and of some turns of a loop, and the terms that they lead to.
#[derive(Drop)]
pub(crate) struct Turns {
    /// The labels of the row, and then those of each turn.
    pub labels: Vec<Label>,
    /// How many labels there were before each turn.
    pub bounds: Vec<usize>,
    /// The terms that the labels lead to.
    pub followed: FollowedRun,
}

/// Follows the row, without any turn. Terms without a number get one. If an allocation fails, the table may have grown
/// all the same.
pub(crate) fn follow_row(
    alloc: Global,
    table: &mut NormalTable,
    start: Term,
    row: &[Label],
) -> Result<Turns, AllocError>
    requires { start < length table.old.terms }
    ensures grows { Grows table.old table.new }
    ensures sound { IsSoundView table.new }
    ensures labels { IfOk result (λ t. t.labels.items ≡ row.now) }
    ensures bounds { IfOk result (λ t. t.bounds.items ≡ []) }
    ensures followed { IfOk result (λ t. IsFollowed table.new start t.labels.items t.followed) }
{
    table.recall_sound();
    let labels = Vec::from_slice(alloc, row)?;
    let followed = follow_run(alloc, table, start, labels.as_slice())?;
    Ok(Turns {
        labels,
        bounds: Vec::new(alloc),
        followed,
    })
}

/// Follows one more turn. Terms without a number get one. If an allocation fails, the table may have grown all the
/// same.
pub(crate) fn follow_turn(
    alloc: Global,
    table: &mut NormalTable,
    start: Term,
    turn: &[Label],
    turns: Turns,
) -> Result<Turns, AllocError>
    requires { IsFollowed table.old start turns.labels.items turns.followed }
    ensures grows { Grows table.old table.new }
    ensures sound { IsSoundView table.new }
    ensures labels { IfOk result (λ t. t.labels.items ≡ turns.labels.items ++ turn.now) }
    ensures bounds { IfOk result (λ t.
        t.bounds.items ≡ turns.bounds.items ++ length turns.labels.items ∷ []) }
    ensures small { IfOk result (λ t. length t.bounds.items < 2 ^ 63) }
    ensures followed { IfOk result (λ t. IsFollowed table.new start t.labels.items t.followed) }
{
    table.recall_sound();
    let Turns {
        mut labels,
        mut bounds,
        followed: earlier,
    } = turns;
    bounds.push(labels.len())?;
    recall_length_bound(&bounds);
    labels.extend_from_slice(turn)?;
    let followed = follow_rest(alloc, table, start, labels.as_slice(), earlier.layers)?;
    Ok(Turns {
        labels,
        bounds,
        followed,
    })
}

/// Does nothing. Its clause says how many numbers any list can have.
fn recall_length_bound(numbers: &Vec<usize>)
    ensures { length numbers.now.items < 2 ^ 63 }
{
    let _ = numbers.len();
}
