//! The labels that the end of a sequence must not have, as a pattern demands, and whether a term has one of them.
use super::accepted_text::table_of;
use super::label_set::is_named;
use super::term_list::{PrintedStep, TermList};
use super::texts::assert_number;
use lotos_listing::{LabelFlags, has_step_with};
use lotos_normal::NormalTable;
use lotos_pattern::{Pattern, PatternFault};
use lotos_text::Name;
use std::alloc::{AllocError, Global};
use std::process::Abort;
use std::test::Fail;

/// A choice of all labels.
const CHOICE: &str =
    "specification S [a, b] : exit behaviour a; exit [] b; exit [] exit [] i; exit endspec";

/// Whether internal steps are observed, the words of a pattern, and the labels that the end must not have.
type Row = (bool, &'static [&'static str], &'static [&'static str]);

/// A term that refuses a set has no internal step, and none with a label of the set.
const LABELS: &[Row] = &[
    (false, &[], &[]),
    (false, &["A"], &[]),
    (false, &["<until>", "A"], &[]),
    (false, &["<refuses>", "A"], &["A", "i"]),
    (false, &["<refuses>", "a,Exit"], &["A", "exit", "i"]),
    (false, &["<refuses>", "exit"], &["exit", "i"]),
    (false, &["<refuses>", "C"], &["i"]),
    (false, &["<refuses>", "<not>", "A"], &["B", "exit", "i"]),
    (false, &["<refuses>", "<not>", "B,exit"], &["A", "i"]),
    (false, &["<refuses>", "<any>"], &["A", "B", "exit", "i"]),
    (false, &["<deadlock>"], &["A", "B", "exit", "i"]),
    (false, &["A", "<until>", "<refuses>", "B"], &["B", "i"]),
    (false, &["<until>", "<deadlock>"], &["A", "B", "exit", "i"]),
    (true, &["<refuses>", "i"], &["i"]),
    (true, &["<refuses>", "<not>", "i"], &["A", "B", "exit", "i"]),
    (true, &["<refuses>", "<not>", "A,i"], &["B", "exit", "i"]),
];

/// The labels that the end must not have, of a table whose gates have these names.
fn refused(
    alloc: Global,
    strong: bool,
    words: &[&str],
    gates: &[Name],
) -> Result<LabelFlags, PatternFault> {
    let pattern = Pattern::read(alloc, words, strong)?;
    Ok(LabelFlags::refused_by(alloc, &pattern, gates)?)
}

/// Asserts for the label of each step whether the end must not have it.
fn assert_labels(rt: &impl Abort, row: Row, flags: &LabelFlags, steps: &[PrintedStep]) {
    for step in steps {
        let text = step.text.as_str();
        let found = flags.contains(step.label);
        assert_label(rt, row.1, text, found, is_named(row.2, text));
    }
}

fn assert_label(rt: &impl Abort, words: &[&str], label: &str, found: bool, expected: bool) {
    assert_eq!(rt; found, expected, "{:?}: {}", words, label);
}

fn assert_row(
    rt: &impl Abort,
    alloc: Global,
    row: Row,
    list: &TermList,
    steps: &[PrintedStep],
) -> Result<(), PatternFault> {
    let flags = refused(alloc, row.0, row.1, list.gates())?;
    assert_labels(rt, row, &flags, steps);
    Ok(())
}

fn assert_rows(rt: &impl Abort, alloc: Global, list: &mut TermList) -> Result<(), Fail> {
    let steps = list.printed_steps(alloc, 0)?;
    assert_number(rt, "labels", steps.len(), 4);
    for row in LABELS {
        assert_row(rt, alloc, *row, list, steps.as_slice())?;
    }
    Ok(())
}

#[test]
fn labels_that_are_refused(rt: HostRuntime) -> Result<(), Fail> {
    let mut list = TermList::new(rt.alloc(), CHOICE)?;
    assert_rows(&rt, rt.alloc(), &mut list)
}

/// A specification, words of a pattern, and whether the specification's behaviour has a step with a label that the end
/// must not have.
type StepsRow = (&'static str, &'static [&'static str], bool);

const INACTION: &str = "specification S [a, b] : noexit behaviour stop endspec";

const ACTION: &str = "specification S [a, b] : noexit behaviour a; stop endspec";

const TERMINATION: &str = "specification S [a, b] : exit behaviour exit endspec";

const INTERNAL: &str = "specification S [a, b] : noexit behaviour i; a; stop endspec";

const TWO_ACTIONS: &str = "specification S [a, b] : noexit behaviour a; stop [] b; stop endspec";

const STEPS: &[StepsRow] = &[
    (INACTION, &["<deadlock>"], false),
    (ACTION, &["A"], false),
    (ACTION, &["<refuses>", "A"], true),
    (ACTION, &["<refuses>", "B"], false),
    (ACTION, &["<refuses>", "<not>", "A"], false),
    (ACTION, &["<refuses>", "<not>", "B"], true),
    (ACTION, &["<deadlock>"], true),
    (TERMINATION, &["<refuses>", "A,B"], false),
    (TERMINATION, &["<refuses>", "A,exit"], true),
    (TERMINATION, &["<refuses>", "<not>", "exit"], false),
    (INTERNAL, &["<refuses>", "B"], true),
    (INTERNAL, &["<until>", "A"], false),
    (TWO_ACTIONS, &["<refuses>", "B"], true),
    (TWO_ACTIONS, &["<refuses>", "<not>", "A,B"], false),
];

/// Whether the specification's behaviour has a step with a label that the end must not have.
fn has_refused_step(alloc: Global, text: &str, words: &[&str]) -> Result<bool, Fail> {
    let mut table = table_of(alloc, text)?;
    has_refused_step_in(alloc, &mut table, words)
}

fn has_refused_step_in(
    alloc: Global,
    table: &mut NormalTable,
    words: &[&str],
) -> Result<bool, Fail> {
    let flags = refused(alloc, false, words, table.gates())?;
    Ok(has_step_in(table, &flags)?)
}

fn has_step_in(table: &mut NormalTable, flags: &LabelFlags) -> Result<bool, AllocError> {
    let start = table.start();
    Ok(has_step_with(table.successors(start)?, flags))
}

#[test]
fn steps_that_are_refused(rt: HostRuntime) -> Result<(), Fail> {
    for (text, words, expected) in STEPS {
        let found = has_refused_step(rt.alloc(), text, words)?;
        assert_label(&rt, words, text, found, *expected);
    }
    Ok(())
}
