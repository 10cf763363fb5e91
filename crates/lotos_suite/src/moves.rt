//! The moves of a machine, by the numbers of its states and labels.
ghost use Rattle.std.specs.Prelude.{◌≡◌, Option};
ghost use Rattle.lotos_store.specs.Interning.{plain_lists};
ghost use Rattle.lotos_suite.specs.SuiteTables.{HasEntry};
ghost use Rattle.lotos_suite.specs.declared.moves.Move.{Move as MoveOf};

/// Where a label leads from a state.
#[derive(Clone, Copy)]
pub(crate) struct Move {
    /// The state that it leads to.
    pub state: usize,
    /// Whether the access sequence of that state is that of this one with the label.
    pub is_first: bool,
}

/// Where the label leads from the state, if it can do it.
pub(crate) fn move_at(rows: &[Vec<Option<Move>>], state: usize, label: usize) -> Option<Move>
    requires within { (entry : Option MoveOf) × HasEntry (plain_lists rows.now) state label entry }
    ensures { HasEntry (plain_lists rows.now) state label result }
{
    rows[state][label]
}
