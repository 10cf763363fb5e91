//! Patterns that match one sequence alone.
use super::sequence_ends::{assert_end, end_after};
use lotos_pattern::{End, Pattern, PatternFault};
use std::alloc::{AllocError, Global};
use std::test::Fail;

/// The words of a pattern, the sequence that is matched alone, another sequence, and whether that may end there.
type Row = (
    &'static [&'static str],
    &'static [&'static str],
    &'static [&'static str],
    Option<End>,
);

const ROWS: &[Row] = &[
    (&["<any>"], &[], &[], Some(End::Yes)),
    (&["A"], &[], &["A"], None),
    (&["<any>"], &["A", "i"], &["A"], Some(End::No)),
    (&["<any>"], &["A", "i"], &["A", "i"], Some(End::Yes)),
    (&["<any>"], &["A", "i"], &["A", "i", "A"], None),
    (&["<any>"], &["A", "A"], &["B"], None),
    (
        &["<until>", "<deadlock>"],
        &["A", "exit"],
        &["A", "exit"],
        Some(End::IfRefuses),
    ),
    (&["A", "<deadlock>"], &[], &[], Some(End::IfRefuses)),
    (&["<deadlock>"], &["B"], &[], Some(End::No)),
    (
        &["A", "<refuses>", "A"],
        &["B"],
        &["B"],
        Some(End::IfRefuses),
    ),
    (
        &["<refuses>", "<not>", "i"],
        &["A", "i"],
        &["A", "i"],
        Some(End::IfRefuses),
    ),
    (
        &["<until>", "<refuses>", "A,i"],
        &[],
        &[],
        Some(End::IfRefuses),
    ),
    (&["<until>", "<refuses>", "A"], &["A"], &["A", "A"], None),
    (
        &["<until>", "<refuses>", "<any>"],
        &["A", "A"],
        &["A"],
        Some(End::No),
    ),
];

/// The pattern that matches the labels alone, if internal steps are observed and there are at most 255.
fn exact(alloc: Global, pattern: &Pattern, labels: &[&str]) -> Result<Option<Pattern>, AllocError> {
    if pattern.strong() {
        if labels.len() < 256 {
            let alone = pattern.exactly(alloc, labels)?;
            return Ok(Some(alone));
        }
    }
    Ok(None)
}

/// Whether the sequence may end in the pattern that matches the labels alone.
fn end_of(alloc: Global, row: Row) -> Result<Option<End>, PatternFault> {
    let pattern = Pattern::read(alloc, row.0, true)?;
    match exact(alloc, &pattern, row.1)? {
        None => Ok(None),
        Some(alone) => Ok(end_after(&alone, row.2)),
    }
}

#[test]
fn one_sequence_is_matched(rt: HostRuntime) -> Result<(), Fail> {
    for row in ROWS {
        assert_end(&rt, row.0, row.2, end_of(rt.alloc(), *row)?, row.3);
    }
    Ok(())
}
