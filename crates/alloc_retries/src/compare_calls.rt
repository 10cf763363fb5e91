//! First differences of two specifications.

use crate::lines::{Line, print_rows, put_label, put_sequence};
use crate::retry_heap::{Heap, Stop};
use crate::set_calls::{HIDDEN_LOOP, SAME_PREFIX, sets_of};
use lotos_compare::{CompareFault, Comparison, DifferenceLine, Side, find_first_difference};
use lotos_listing::NoProgress;
use lotos_sets::FormSets;
use std::fmt::Write;

/// Two specifications, whether the first alone is asked about, the most terms of a set, and the most pairs of sets.
type Row = (&'static str, &'static str, bool, usize, usize);

/// As [`HIDDEN_LOOP`], but `a` alone comes again, and then no `b`.
const WITHOUT_B: &str =
    "specification S [a] : noexit behaviour P [a] where process P [a] : noexit := a; P [a] endproc endspec";

const ROWS: &[Row] = &[
    (HIDDEN_LOOP, HIDDEN_LOOP, false, 9, 9),
    (HIDDEN_LOOP, WITHOUT_B, false, 9, 9),
    (WITHOUT_B, HIDDEN_LOOP, false, 9, 9),
    (WITHOUT_B, HIDDEN_LOOP, true, 9, 9),
    (SAME_PREFIX, HIDDEN_LOOP, false, 9, 9),
    // A bound that the pairs reach, and the next one.
    (HIDDEN_LOOP, HIDDEN_LOOP, false, 9, 3),
    (HIDDEN_LOOP, HIDDEN_LOOP, false, 9, 2),
    (WITHOUT_B, HIDDEN_LOOP, true, 1, 9),
];

/// The sets of both specifications.
#[derive(Drop)]
struct Both {
    first: Box<FormSets>,
    second: Box<FormSets>,
}

pub fn rows(rt: &impl Print, heap: &Heap) -> Result<(), Stop> {
    print_rows(rt, heap, "compare:", ROWS, write_row)
}

/// Writes the first difference, that there is none, or where the search stops.
fn write_row(heap: &Heap, line: &mut Line, row: &Row) -> Result<(), Stop> {
    let (first, second, within, terms, pairs) = *row;
    let mut both = Both {
        first: sets_of(heap, first, false, terms)?,
        second: sets_of(heap, second, false, terms)?,
    };
    let alloc = heap.alloc;
    let found = heap.retried_on(&mut both, |both| {
        find_first_difference(
            alloc,
            &mut both.first,
            &mut both.second,
            within,
            pairs,
            &mut NoProgress,
        )
    });
    match found {
        Ok(Comparison::Differs(difference)) => write_difference(line, &both, &difference),
        Ok(Comparison::Alike(count)) => Ok(write!(line, " alike, {count} pairs")?),
        Err(CompareFault::OverTerms(side, labels)) => {
            write!(line, " more than {terms} terms of the {side:?} at ")?;
            put_sequence(line, both.first.table().gates(), labels.as_slice())
        }
        Err(CompareFault::OverPairs(labels)) => {
            write!(line, " more than {pairs} pairs at ")?;
            put_sequence(line, both.first.table().gates(), labels.as_slice())
        }
        Err(CompareFault::Memory) => Err(Stop::Memory),
    }
}

/// Writes the side of the difference, its sequence, and the label after it.
fn write_difference(line: &mut Line, both: &Both, found: &DifferenceLine) -> Result<(), Stop> {
    write!(line, " {:?} ", found.side)?;
    put_sequence(line, both.first.table().gates(), found.sequence.as_slice())?;
    let gates = match found.side {
        Side::First => both.first.table().gates(),
        Side::Second => both.second.table().gates(),
    };
    put_label(line, gates, found.label)
}
