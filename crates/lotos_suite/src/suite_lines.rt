//! The lines of a suite.
ghost use Rattle.std.specs.Prelude.{◌≡◌, ◌<◌, ◌≤◌, ◌+◌, ◌++◌, ◌∷◌, [], ℕ, IfErr, IfOk, is_none, List, MatchBool, OnOk, Option, Some, length, map, slice_get};
ghost use Rattle.lotos_suite.specs.ApartSearch.{AreAllApart};
ghost use Rattle.lotos_store.specs.Interning.{plain_lists};
ghost use Rattle.lotos_check.specs.NameLists.{In};
ghost use Rattle.lotos_listing.specs.Order.{Label as Text};
ghost use Rattle.lotos_suite.specs.SuiteLines.{AreFirstParts, AreSuiteLines};
ghost use Rattle.lotos_suite.specs.SuitePrefixes.{AreLonger, IsPrefix, IsSetting, labels_at};
ghost use Rattle.lotos_suite.specs.SuiteSearch.{AreLevel, AreLinesTo, IsRowOf, kept_line};
ghost use Rattle.lotos_suite.specs.Suites.{Line, SuiteParts};
ghost use Rattle.lotos_suite.specs.SuiteTables.{IsSubject, IsTableOf, Subject};
ghost use Rattle.lotos_suite.specs.declared.moves.Move.{Move as MoveOf};
ghost use Rattle.lotos_suite.specs.declared.prefixes.Prefix.{Prefix as PrefixOf};
ghost use Rattle.lotos_suite.specs.declared.suite_lines.CutLine.{CutLine as LineOf};
ghost use Rattle.lotos_suite.specs.declared.suite_fault.SuiteFault.TheVariants.{TooManyLines as IsTooMany};

use crate::apart_sequences::{ApartSequences, ApartStep};
use crate::moves::Move;
use crate::prefixes::{Prefix, add_with_label, empty_prefix};
use crate::suite_fault::SuiteFault;
use std::alloc::{AllocError, Global};

/// A line of a suite, by the numbers of its labels.
#[derive(Debug, Drop)]
pub(crate) struct CutLine {
    /// The numbers of its labels.
    pub labels: Vec<usize>,
    /// Whether the last one cannot come.
    pub is_refused: bool,
}

/// The lines of the suite.
pub(crate) fn find_lines(
    alloc: Global,
    rows: &[Vec<Option<Move>>],
    labels: usize,
    extra: usize,
    most: usize,
) -> Result<Vec<CutLine>, SuiteFault>
    requires { (s : Subject) × IsSubject s × IsTableOf s (plain_lists rows.now) × (length s.labels ≡ labels) }
    ensures lines { IfOk result (λ v. (s : Subject) → IsSubject s → IsTableOf s (plain_lists rows.now) →
        length s.labels ≡ labels → (parts : SuiteParts) × AreFirstParts s.machine s.labels extra parts ×
        (parts.access ≡ s.access) × AreSuiteLines s.machine parts (map (kept_line s.labels) v.items)) }
    ensures known { IfOk result (λ v. (l : LineOf) → In l v.items → (n : ℕ) → In n l.labels.items →
        n < labels) }
    ensures few { IfOk result (λ v. length v.items ≤ most) }
    ensures too_many { IfErr result (λ f. f ≡ IsTooMany → (s : Subject) → IsSubject s →
        IsTableOf s (plain_lists rows.now) → length s.labels ≡ labels → (parts : SuiteParts)
        (lines : List Line) →
        AreFirstParts s.machine s.labels extra parts → parts.access ≡ s.access →
        AreSuiteLines s.machine parts lines → most < length lines) }
{
    let found = ApartSequences::find(alloc, rows, labels)?;
    expand_all(alloc, rows, found.steps.as_slice(), extra, most)
}

/// The lines, length by length.
fn expand_all(
    alloc: Global,
    rows: &[Vec<Option<Move>>],
    steps: &[Option<ApartStep>],
    extra: usize,
    most: usize,
) -> Result<Vec<CutLine>, SuiteFault>
    requires { (s : Subject) × (parts : SuiteParts) × (sequences : List (List Text)) ×
        IsSetting s extra parts steps.now sequences × IsTableOf s (plain_lists rows.now) }
    ensures lines { IfOk result (λ v. (s : Subject) (parts : SuiteParts) (sequences : List (List Text)) →
        IsSetting s extra parts steps.now sequences → IsTableOf s (plain_lists rows.now) →
        AreSuiteLines s.machine parts (map (kept_line s.labels) v.items)) }
    ensures known { IfOk result (λ v. (s : Subject) (parts : SuiteParts) (sequences : List (List Text)) →
        IsSetting s extra parts steps.now sequences → IsTableOf s (plain_lists rows.now) →
        (l : LineOf) → In l v.items → (n : ℕ) → In n l.labels.items → n < length s.labels) }
    ensures few { IfOk result (λ v. length v.items ≤ most) }
    ensures too_many { IfErr result (λ f. f ≡ IsTooMany → (s : Subject) (parts : SuiteParts)
        (sequences : List (List Text)) (lines : List Line) → IsSetting s extra parts steps.now sequences →
        IsTableOf s (plain_lists rows.now) → AreSuiteLines s.machine parts lines → most < length lines) }
{
    let mut lines = Vec::new(alloc);
    let mut level = Vec::new(alloc);
    level.push(empty_prefix(alloc))?;
    while !level.is_empty() {
        level = expand(alloc, rows, steps, extra, level.as_slice(), &mut lines)?;
        if lines.len() + level.len() > most {
            return Err(SuiteFault::TooManyLines);
        }
    }
    Ok(lines)
}

/// The prefixes with one label more. Those that do not go on are lines.
fn expand(
    alloc: Global,
    rows: &[Vec<Option<Move>>],
    steps: &[Option<ApartStep>],
    extra: usize,
    level: &[Prefix],
    lines: &mut Vec<CutLine>,
) -> Result<Vec<Prefix>, AllocError>
    requires { (s : Subject) × (parts : SuiteParts) × (sequences : List (List Text)) × (d : ℕ) ×
        IsSetting s extra parts steps.now sequences × IsTableOf s (plain_lists rows.now) ×
        AreLevel s parts sequences d level.now × AreLinesTo s parts sequences d level.now 0 lines.old.items }
    ensures { IfOk result (λ next. (s : Subject) (parts : SuiteParts) (sequences : List (List Text)) (d : ℕ) →
        IsSetting s extra parts steps.now sequences → IsTableOf s (plain_lists rows.now) →
        AreLevel s parts sequences d level.now → AreLinesTo s parts sequences d level.now 0 lines.old.items →
        AreLevel s parts sequences (d + 1) next.items ×
        AreLinesTo s parts sequences (d + 1) next.items 0 lines.new.items) }
{
    let mut longer = Vec::new(alloc);
    for prefix in level {
        let count = longer.len();
        add_longer(alloc, rows, steps, extra, prefix, &mut longer)?;
        add_leaf(lines, prefix, longer.len() == count)?;
    }
    Ok(longer)
}

/// Adds the line that is the prefix, if it is one.
fn add_leaf(lines: &mut Vec<CutLine>, prefix: &Prefix, is_leaf: bool) -> Result<(), AllocError>
    ensures { OnOk result (MatchBool is_leaf ((l : LineOf) × (lines.new.items ≡ lines.old.items ++ l ∷ []) ×
        (l.labels.items ≡ prefix.now.labels.items) × (l.is_refused ≡ is_none prefix.now.state))
        (lines.new.items ≡ lines.old.items)) }
{
    if is_leaf {
        let line = line_of(prefix)?;
        lines.push(line)?;
    }
    Ok(())
}

/// Adds the prefixes with one label more.
fn add_longer(
    alloc: Global,
    rows: &[Vec<Option<Move>>],
    steps: &[Option<ApartStep>],
    extra: usize,
    prefix: &Prefix,
    longer: &mut Vec<Prefix>,
) -> Result<(), AllocError>
    requires { (s : Subject) × (parts : SuiteParts) × (sequences : List (List Text)) × (u : List Text) ×
        IsSetting s extra parts steps.now sequences × IsTableOf s (plain_lists rows.now) ×
        IsPrefix s parts sequences prefix.now u }
    ensures { OnOk result ((s : Subject) (parts : SuiteParts) (sequences : List (List Text)) (u : List Text) →
        IsSetting s extra parts steps.now sequences → IsTableOf s (plain_lists rows.now) →
        IsPrefix s parts sequences prefix.now u → (more : List PrefixOf) ×
        (longer.new.items ≡ longer.old.items ++ more) ×
        AreLonger s parts sequences u (length s.labels) more) }
{
    match prefix.state {
        Some(state) => {
            add_from_state(alloc, rows, steps, extra, prefix, state, longer)?;
            Ok(())
        }
        None => Ok(()),
    }
}

/// Adds the prefixes with one label more, from the state that this one leads to.
fn add_from_state(
    alloc: Global,
    rows: &[Vec<Option<Move>>],
    steps: &[Option<ApartStep>],
    extra: usize,
    prefix: &Prefix,
    state: usize,
    longer: &mut Vec<Prefix>,
) -> Result<(), AllocError>
    requires below { state < length rows.now }
    requires prefix { (s : Subject) × (parts : SuiteParts) × (sequences : List (List Text)) ×
        (u : List Text) ×
        IsSetting s extra parts steps.now sequences × IsTableOf s (plain_lists rows.now) ×
        IsPrefix s parts sequences prefix.now u × (prefix.now.state ≡ Some state) }
    ensures { OnOk result ((s : Subject) (parts : SuiteParts) (sequences : List (List Text)) (u : List Text) →
        IsSetting s extra parts steps.now sequences → IsTableOf s (plain_lists rows.now) →
        IsPrefix s parts sequences prefix.now u → prefix.now.state ≡ Some state → (more : List PrefixOf) ×
        (longer.new.items ≡ longer.old.items ++ more) ×
        AreLonger s parts sequences u (length s.labels) more) }
{
    add_by_row(alloc, steps, extra, prefix, rows[state].as_slice(), longer)?;
    Ok(())
}

/// Adds the prefixes with one label more, by the row of the state that this one leads to.
fn add_by_row(
    alloc: Global,
    steps: &[Option<ApartStep>],
    extra: usize,
    prefix: &Prefix,
    row: &[Option<Move>],
    longer: &mut Vec<Prefix>,
) -> Result<(), AllocError>
    requires { (s : Subject) × (parts : SuiteParts) × (sequences : List (List Text)) ×
        (u : List Text) × (j : ℕ) ×
        IsSetting s extra parts steps.now sequences × IsPrefix s parts sequences prefix.now u ×
        IsRowOf s j row.now × (prefix.now.state ≡ Some j) }
    ensures { OnOk result ((s : Subject) (parts : SuiteParts) (sequences : List (List Text))
        (u : List Text) (j : ℕ) →
        IsSetting s extra parts steps.now sequences → IsPrefix s parts sequences prefix.now u →
        IsRowOf s j row.now →
        prefix.now.state ≡ Some j → (more : List PrefixOf) ×
        (longer.new.items ≡ longer.old.items ++ more) ×
        AreLonger s parts sequences u (length s.labels) more) }
{
    for label in 0..row.len() {
        add_with_label(alloc, steps, extra, prefix, label, row[label], longer)?;
    }
    Ok(())
}

/// The line that is the prefix.
fn line_of(prefix: &Prefix) -> Result<CutLine, AllocError>
    ensures labels { IfOk result (λ l. l.labels.items ≡ prefix.now.labels.items) }
    ensures refused { IfOk result (λ l. l.is_refused ≡ is_none prefix.now.state) }
{
    Ok(CutLine {
        labels: prefix.labels.clone()?,
        is_refused: prefix.state.is_none(),
    })
}
