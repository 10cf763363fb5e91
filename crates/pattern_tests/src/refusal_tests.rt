//! The sets that the end of a matched sequence must refuse.
use super::language_tests::LABELS;
use super::sequence_ends::is_refused;
use lotos_pattern::{Pattern, PatternFault};
use std::alloc::Global;
use std::process::Abort;
use std::test::Fail;

/// Whether internal steps are observed, the words of a pattern, and those of `A`, `B`, `exit` and `i` that the end must
/// refuse; none if it need not refuse a set.
type Row = (
    bool,
    &'static [&'static str],
    Option<&'static [&'static str]>,
);

/// Patterns whose end must refuse labels by name, all but some, or all.
const SETS: &[Row] = &[
    (false, &["<refuses>", "A"], Some(&["A"])),
    (false, &["<refuses>", "b,A"], Some(&["A", "B"])),
    (false, &["<refuses>", "Exit"], Some(&["exit"])),
    (false, &["<refuses>", "C"], Some(&[])),
    (
        false,
        &["<refuses>", "<not>", "A"],
        Some(&["B", "exit", "i"]),
    ),
    (false, &["<refuses>", "<not>", "A,exit"], Some(&["B", "i"])),
    (
        false,
        &["<refuses>", "<not>", "C"],
        Some(&["A", "B", "exit", "i"]),
    ),
    (
        false,
        &["<ReFuSeS>", "<Any>"],
        Some(&["A", "B", "exit", "i"]),
    ),
    (false, &["<deadlock>"], Some(&["A", "B", "exit", "i"])),
    (true, &["<deadlock>"], Some(&["A", "B", "exit", "i"])),
    (true, &["<refuses>", "i"], Some(&["i"])),
    (true, &["<refuses>", "A"], Some(&["A"])),
    (
        true,
        &["<refuses>", "<not>", "i"],
        Some(&["A", "B", "exit"]),
    ),
];

/// Patterns with other elements before the demand, or without one.
const AFTER_OTHERS: &[Row] = &[
    (false, &[], None),
    (false, &["A"], None),
    (false, &["<not>", "A"], None),
    (false, &["<until>", "B"], None),
    (false, &["<while>", "<any>"], None),
    (false, &["<until>", "<refuses>", "B"], Some(&["B"])),
    (
        false,
        &["<until>", "<refuses>", "<not>", "B"],
        Some(&["A", "exit", "i"]),
    ),
    (
        false,
        &["<until>", "<refuses>", "<any>"],
        Some(&["A", "B", "exit", "i"]),
    ),
    (
        false,
        &["<until>", "<deadlock>"],
        Some(&["A", "B", "exit", "i"]),
    ),
    (
        false,
        &["A", "<while>", "B", "<refuses>", "exit"],
        Some(&["exit"]),
    ),
    (
        false,
        &["<not>", "A", "<deadlock>"],
        Some(&["A", "B", "exit", "i"]),
    ),
    (
        true,
        &["<while>", "i", "<until>", "<refuses>", "A,i"],
        Some(&["A", "i"]),
    ),
];

/// The pattern of the words.
fn pattern_of(alloc: Global, row: Row) -> Result<Pattern, PatternFault> {
    Pattern::read(alloc, row.1, row.0)
}

/// A copy of it.
fn copy_of(alloc: Global, row: Row) -> Result<Pattern, PatternFault> {
    let pattern = pattern_of(alloc, row)?;
    Ok(pattern.copied(alloc)?)
}

/// The pattern that matches the empty sequence alone, and demands of the end what that of the words does.
fn exact_pattern_of(alloc: Global, row: Row) -> Result<Pattern, PatternFault> {
    let pattern = pattern_of(alloc, row)?;
    Ok(pattern.exactly(alloc, &[])?)
}

/// Asserts which labels the end must refuse in the pattern.
fn assert_refused(rt: &impl Abort, pattern: &Pattern, row: Row) {
    for label in LABELS {
        assert_label(
            rt,
            row.1,
            label,
            is_refused(pattern, label),
            is_among(row.2, label),
        );
    }
}

/// Whether the label is in the list, if there is one.
fn is_among(list: Option<&[&str]>, label: &str) -> Option<bool> {
    Some(list?.contains(&label))
}

fn assert_label(
    rt: &impl Abort,
    words: &[&str],
    label: &str,
    found: Option<bool>,
    expected: Option<bool>,
) {
    assert_eq!(rt; found, expected, "{:?} at {:?}", words, label);
}

/// Asserts it in the pattern of each row, in a copy of it, and in the pattern that matches one sequence alone.
fn assert_each(rt: &impl Abort, alloc: Global, rows: &[Row]) -> Result<(), PatternFault> {
    for row in rows {
        assert_refused(rt, &pattern_of(alloc, *row)?, *row);
        assert_refused(rt, &copy_of(alloc, *row)?, *row);
        assert_refused(rt, &exact_pattern_of(alloc, *row)?, *row);
    }
    Ok(())
}

#[test]
fn demands_sets(rt: HostRuntime) -> Result<(), Fail> {
    Ok(assert_each(&rt, rt.alloc(), SETS)?)
}

#[test]
fn demands_sets_after_other_elements(rt: HostRuntime) -> Result<(), Fail> {
    Ok(assert_each(&rt, rt.alloc(), AFTER_OTHERS)?)
}
