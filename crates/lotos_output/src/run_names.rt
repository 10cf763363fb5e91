//! What is needed to write runs with what makes their internal steps.
ghost use Rattle.std.specs.Prelude.{◌≡◌};
ghost use Rattle.lotos_pattern.specs.declared.ever_pattern.EndKind.TheVariants as kinds;

use lotos_normal::NormalTable;
use lotos_origins::FollowedRun;
use lotos_pattern::EverPattern;
use lotos_terms::Label;
use std::marker::Model;

/// The terms of a system, in which runs are followed, and the pattern that says where they end.
#[derive(Drop)]
pub struct RunNames {
    pub(crate) table: NormalTable,
    pub(crate) pattern: EverPattern,
    pub(crate) last: Option<LastRun>,
    ghost refuses: { pattern.kind ≡ kinds.Refuses },
}

/// The run that was followed last, from the start: what the next one begins with as it does is not followed again.
#[derive(Drop)]
pub(crate) struct LastRun {
    pub run: Vec<Label>,
    pub followed: FollowedRun,
}

impl Model for RunNames {
    ghost use Rattle.lotos_output.specs.RunNames.{IsFollowedLast, RunNamesView, run_names_code};

    ghost Value = { RunNamesView };

    ghost coded = { run_names_code };

    ghost view = { λ n. record { table = n.table; pattern = n.pattern.pattern } };

    ghost invariant = { λ n. IsFollowedLast n.table n.last };
}
