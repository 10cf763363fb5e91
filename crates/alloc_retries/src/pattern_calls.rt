//! Words of patterns, and whether the prefixes of a sequence match; patterns that match one sequence alone.

use crate::lines::{Line, print_rows, put};
use crate::retry_heap::{Heap, Stop};
use lotos_pattern::{Pattern, PatternFault};
use std::fmt::Write;

type Texts = &'static [&'static str];

/// Words, whether internal steps are observed, and a sequence.
type Row = (Texts, bool, Texts);

/// Words of a pattern that observes internal steps, the sequence that is matched alone, and another sequence.
type ExactRow = (Texts, Texts, Texts);

const ROWS: &[Row] = &[
    (
        &["A", "<any>", "b", "<until>", "c", "exit", "<deadlock>"],
        false,
        &["A", "exit", "B", "A", "C", "exit", "A"],
    ),
    (&["<while>", "a", "i"], true, &["A", "A", "i"]),
    (&["<until>", "<deadlock>"], false, &["A"]),
    (&["A-B"], false, &[]),
    (&["a", "b", "c", "d", "e", "<until>"], false, &[]),
    (&["a", "<deadlock>", "b"], false, &[]),
    (&["A"; 257], false, &[]),
    (&["a", "I"], false, &[]),
    (&["<while>", "<while>"], false, &[]),
    (
        &["<not>", "a,b", "<until>", "exit,c"],
        false,
        &["C", "A", "C"],
    ),
    (&["<not>"], false, &[]),
];

const EXACT_ROWS: &[ExactRow] = &[
    (
        &["<until>", "<deadlock>"],
        &["A", "i", "exit"],
        &["A", "i", "exit", "A"],
    ),
    (&["<while>", "<any>"], &["B", "B"], &["B", "B"]),
    (&["<any>"], &[], &["A"]),
];

pub fn rows(rt: &impl Print, heap: &Heap) -> Result<(), Stop> {
    print_rows(rt, heap, "pattern:", ROWS, write_row)?;
    print_rows(rt, heap, "exact:", EXACT_ROWS, write_exact)
}

fn write_row(heap: &Heap, line: &mut Line, row: &Row) -> Result<(), Stop> {
    let (words, strong, sequence) = *row;
    match pattern_of(heap, words, strong) {
        Ok(pattern) => write_ends(line, &pattern, sequence),
        Err(fault) => Ok(write!(line, " {fault:?}")?),
    }
}

pub fn pattern_of(heap: &Heap, words: &[&str], strong: bool) -> Result<Pattern, PatternFault> {
    heap.retried(|| Pattern::read(heap.alloc, words, strong))
}

/// Writes the ends of the pattern that matches the labels alone. All labels are observed, and there are not too many.
fn write_exact(heap: &Heap, line: &mut Line, row: &ExactRow) -> Result<(), Stop> {
    let (words, labels, sequence) = *row;
    let pattern = pattern_of(heap, words, true)?;
    if !pattern.strong() || labels.len() > 255 {
        return Err(Stop::Row);
    }
    let exact = heap.retried(|| pattern.exactly(heap.alloc, labels))?;
    write_ends(line, &exact, sequence)
}

/// Writes whether each prefix of the sequence may end there, up to the first that the pattern cannot match.
fn write_ends(line: &mut Line, pattern: &Pattern, sequence: &[&str]) -> Result<(), Stop> {
    let mut place = pattern.begin();
    write!(line, " {:?}", pattern.accepts(place))?;
    for label in sequence {
        let Some(next) = pattern.step(place, label) else {
            return put(line, " none");
        };
        place = next;
        write!(line, " {:?}", pattern.accepts(place))?;
    }
    Ok(())
}
