//! Patterns of `ever`: what they demand of the end, and words that spell none.
use super::language_tests::LABELS;
use super::sequence_ends::is_refused;
use lotos_pattern::{EndKind, EverPattern, PatternFault};
use std::process::Abort;

/// The words of a pattern, what it demands of the end, and those of `A`, `B`, `exit` and `i` that are in the set of the
/// demand; none if it demands nothing.
type Row = (
    &'static [&'static str],
    EndKind,
    Option<&'static [&'static str]>,
);

const ROWS: &[Row] = &[
    (&[], EndKind::Refuses, None),
    (&["A", "<while>", "B"], EndKind::Refuses, None),
    (&["A", "<refuses>", "B"], EndKind::Refuses, Some(&["B"])),
    (
        &["<deadlock>"],
        EndKind::Refuses,
        Some(&["A", "B", "exit", "i"]),
    ),
    (&["<never>", "a"], EndKind::Never, Some(&["A"])),
    (
        &["<until>", "<Never>", "A,B"],
        EndKind::Never,
        Some(&["A", "B"]),
    ),
    (
        &["<forever>", "<not>", "A"],
        EndKind::Forever,
        Some(&["B", "exit", "i"]),
    ),
    (
        &["A", "<until>", "<FOREVER>", "<any>"],
        EndKind::Forever,
        Some(&["A", "B", "exit", "i"]),
    ),
    (
        &["<until>", "<LiveLock>"],
        EndKind::Livelock,
        Some(&["A", "B", "exit", "i"]),
    ),
];

/// Words, and their fault.
type Refused = (&'static [&'static str], PatternFault);

const REFUSED: &[Refused] = &[
    (&["<never>"], PatternFault::E50(1)),
    (&["A", "<until>", "<forever>"], PatternFault::E50(3)),
    (&["<never>", "<livelock>"], PatternFault::E50(1)),
    (&["<never>", "i"], PatternFault::E45(2)),
    (&["<never>", "A", "B"], PatternFault::E43(3)),
    (&["<livelock>", "<never>", "A"], PatternFault::E43(2)),
    (&["<deadlock>", "<livelock>"], PatternFault::E43(2)),
    (&["<while>", "<never>", "A"], PatternFault::E48(1)),
    (&["<not>", "<livelock>"], PatternFault::E50(1)),
    (&["<ever>"], PatternFault::E41(1)),
];

/// Asserts what the pattern demands of the end, and with which labels.
fn assert_demand(rt: &impl Abort, pattern: &EverPattern, row: Row) {
    assert_kind(rt, row.0, pattern.kind, row.1);
    for label in LABELS {
        assert_label(
            rt,
            row.0,
            label,
            is_refused(&pattern.pattern, label),
            is_among(row.2, label),
        );
    }
}

fn assert_kind(rt: &impl Abort, words: &[&str], found: EndKind, expected: EndKind) {
    assert_eq!(rt; found, expected, "{:?}", words);
}

fn assert_label(
    rt: &impl Abort,
    words: &[&str],
    label: &str,
    found: Option<bool>,
    expected: Option<bool>,
) {
    assert_eq!(rt; found, expected, "{:?} at {:?}", words, label);
}

/// Whether the label is in the list, if there is one.
fn is_among(list: Option<&[&str]>, label: &str) -> Option<bool> {
    Some(list?.contains(&label))
}

#[test]
fn demands_of_the_end(rt: HostRuntime) -> Result<(), PatternFault> {
    for row in ROWS {
        let pattern = EverPattern::read(rt.alloc(), row.0, false)?;
        assert_demand(&rt, &pattern, *row);
    }
    Ok(())
}

fn assert_fault(
    rt: &impl Abort,
    words: &[&str],
    found: Option<PatternFault>,
    expected: PatternFault,
) {
    assert_eq!(rt; found, Some(expected), "{:?}", words);
}

#[test]
fn words_that_spell_none(rt: HostRuntime) {
    for (words, fault) in REFUSED {
        let found = EverPattern::read(rt.alloc(), words, false).err();
        assert_fault(&rt, words, found, *fault);
    }
}
