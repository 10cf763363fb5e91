//! How the runs of a listing's items are written.
ghost use Rattle.std.specs.Prelude.{◌≡◌, ◌∷◌, [], ◌++◌, IfOk, List, OnOk, length, string_bytes};
ghost use Rattle.std.specs.String.Boundary.{IsSplitPoint};
ghost use Rattle.lotos_check.specs.CheckedView.{system_of};
ghost use Rattle.lotos_terms.specs.TableView.{Grows, IsSoundView};
ghost use Rattle.lotos_listing.specs.Order.{Label as Text};
ghost use Rattle.lotos_listing.specs.Question.{ArePrinted};
ghost use Rattle.lotos_origins.specs.FollowedRuns.{IsFollowed};
ghost use Rattle.lotos_pattern.specs.declared.ever_pattern.EndKind.TheVariants as kinds;
ghost use Rattle.lotos_ever.specs.NamedRuns.{EndsAsDemanded, IsNamedRun};
ghost use Rattle.lotos_output.specs.ItemRuns.{AreRunTexts, CanWriteRun, IsAboutSystem, question_of, runs_of, runs_view};
ghost use Rattle.lotos_output.specs.NamedRuns.{AreNamed, writes_runs};
ghost use Rattle.lotos_output.specs.OutputLines.{run_text};
ghost use Rattle.lotos_output.specs.RunNames.{IsFollowedLast};
ghost use Rattle.lotos_output.specs.declared.item_runs.ItemRuns.TheVariants as written;

use crate::named_runs::append_named_run;
use crate::output_lines::append_run;
use crate::run_names::{LastRun, RunNames};
use lotos_check::Checked;
use lotos_command::Runs;
use lotos_ever::{NamedRun, name_followed_run};
use lotos_normal::NormalTable;
use lotos_origins::laws::{followed_runs_grow, origins_stay_in_table};
use lotos_origins::{FollowedRun, follow_run, follow_run_after};
use lotos_pattern::{EndKind, EverPattern, Pattern};
use lotos_runs::laws::table_has_match_question;
use lotos_terms::Label;
use lotos_terms::laws::steps_stay_in_table;
use lotos_text::Name;
use std::alloc::{AllocError, Global};

/// How the runs of a listing's items are written.
#[derive(Drop)]
pub enum ItemRuns {
    /// Not at all.
    Omitted,
    /// By their labels.
    Labels,
    /// With what makes their internal steps.
    Origins(RunNames),
}

impl ItemRuns {
    /// How runs of a listing of this system and this pattern are written.
    pub fn new(
        alloc: Global,
        runs: Runs,
        system: &Checked,
        pattern: &Pattern,
    ) -> Result<ItemRuns, AllocError>
        ensures runs { IfOk result (λ r. runs_of (runs_view r) ≡ runs) }
        ensures about { IfOk result (λ r. IsAboutSystem (system_of system.now) pattern.now (runs_view r)) }
    {
        match runs {
            Runs::Omitted => Ok(ItemRuns::Omitted),
            Runs::Labels => Ok(ItemRuns::Labels),
            Runs::Origins => Ok(ItemRuns::Origins(RunNames::new(alloc, system, pattern)?)),
        }
    }

    /// Completes the line of an item whose sequence it has: appends the run, if runs are written, and a line feed. The
    /// line can be cut after the sequence again.
    pub fn complete_line(
        &mut self,
        alloc: Global,
        gates: &[Name],
        run: &[Label],
        line: &mut String,
    ) -> Result<(), AllocError>
        requires printed { (w : List Text) × ArePrinted gates.now run.now w }
        requires can { CanWriteRun gates.now (runs_view self.old) run.now }
        ensures same { runs_view self.new ≡ runs_view self.old }
        ensures whole { OnOk result ((w : List Text) × AreRunTexts gates.now (runs_view self.old) run.now w ×
            (string_bytes line.new ≡ string_bytes line.old ++
            run_text (writes_runs (runs_of (runs_view self.old))) w ++ 10 ∷ [])) }
        ensures cut { OnOk result (IsSplitPoint (string_bytes line.new) (length (string_bytes line.old))) }
    {
        self.append_to(alloc, gates, run, line)?;
        line.push('\n')
    }

    /// Appends the run to the line of an item, if runs are written.
    fn append_to(
        &mut self,
        alloc: Global,
        gates: &[Name],
        run: &[Label],
        line: &mut String,
    ) -> Result<(), AllocError>
        requires printed { (w : List Text) × ArePrinted gates.now run.now w }
        requires can { CanWriteRun gates.now (runs_view self.old) run.now }
        ensures same { runs_view self.new ≡ runs_view self.old }
        ensures whole { OnOk result ((w : List Text) × AreRunTexts gates.now (runs_view self.old) run.now w ×
            (string_bytes line.new ≡ string_bytes line.old ++
            run_text (writes_runs (runs_of (runs_view self.old))) w)) }
    {
        match self {
            ItemRuns::Omitted => Ok(()),
            ItemRuns::Labels => append_run(alloc, gates, run, line),
            ItemRuns::Origins(names) => {
                let named = names.name(alloc, run)?;
                append_named_run(gates, run, named.origins.as_slice(), line)
            }
        }
    }
}

impl RunNames {
    /// The terms of a system, and a pattern.
    fn new(alloc: Global, system: &Checked, pattern: &Pattern) -> Result<RunNames, AllocError>
        ensures { IfOk result (λ n.
            IsAboutSystem (system_of system.now) pattern.now (runs_view (written.Origins n))) }
    {
        table_has_match_question();
        let table = NormalTable::of(alloc, system)?;
        table.recall_sound();
        let pattern = EverPattern {
            pattern: pattern.copied(alloc)?,
            kind: EndKind::Refuses,
        };
        Ok(RunNames {
            table,
            pattern,
            last: None,
        })
    }

    /// What makes the internal steps of a derivation by the run that ends as the pattern demands.
    fn name(&mut self, alloc: Global, run: &[Label]) -> Result<NamedRun, AllocError>
        requires { EndsAsDemanded (question_of self.old) kinds.Refuses run.now }
        ensures same { question_of self.new ≡ question_of self.old }
        ensures named { IfOk result (IsNamedRun (question_of self.old) kinds.Refuses run.now) }
        ensures texts { IfOk result (λ n. (w : List Text) ×
            AreNamed (question_of self.old).names run.now n.origins.items w []) }
    {
        steps_stay_in_table();
        origins_stay_in_table();
        followed_runs_grow();
        self.table.recall_sound();
        let last = self.last.take();
        let followed = follow_next(alloc, &mut self.table, run, last)?;
        let named = name_followed_run(alloc, &mut self.table, &self.pattern, run, &followed)?;
        let run = Vec::from_slice(alloc, run)?;
        self.last = Some(LastRun { run, followed });
        Ok(named)
    }
}

/// Follows a run from the table's start, after the one that was followed last, if there is one.
fn follow_next(
    alloc: Global,
    table: &mut NormalTable,
    run: &[Label],
    last: Option<LastRun>,
) -> Result<FollowedRun, AllocError>
    requires { IsFollowedLast table.old last }
    ensures grows { Grows table.old table.new }
    ensures sound { IsSoundView table.new }
    ensures followed { IfOk result (IsFollowed table.new table.new.start run.now) }
{
    table.recall_sound();
    let start = table.start();
    match last {
        None => follow_run(alloc, table, start, run),
        Some(last) => {
            let LastRun {
                run: earlier,
                followed,
            } = last;
            follow_run_after(alloc, table, start, run, followed, earlier.as_slice())
        }
    }
}
