//! First matches.

use crate::front_end::normal_table_of;
use crate::lines::{Line, print_rows, put, put_sequence};
use crate::pattern_calls::pattern_of;
use crate::retry_heap::{Heap, Stop};
use lotos_ever::{Found, Halt, find_shortest_match};
use lotos_text::Name;
use std::fmt::Write;

/// A specification, words, whether internal steps are observed, and the most product states that may be stored.
pub type Row = (&'static str, &'static [&'static str], bool, usize);

const A_THEN_B: &str = "specification S [a,b] : noexit behaviour a; b; stop endspec";

/// A call in the right operand of an enabling, with its gates swapped.
const ENABLED_CALL: &str =
    "specification S [a,b] : noexit behaviour P[a,b] where process P [x,y] : noexit := x; exit >> y; P[y,x] endproc endspec";

const TWO_ENDS: &str =
    "specification S [a,b] : noexit behaviour b; b; b; stop [] a; i; stop endspec";

/// A loop, whose labels are A B B A over and over.
const SWAPPED_LOOP: &str =
    "specification S [a,b] : noexit behaviour P[a,b] where process P [x,y] : noexit := x; y; P[y,x] endproc endspec";

const INTERNAL: &str = "specification S [a,b] : noexit behaviour i; a; i; b; stop endspec";

const INACTION: &str = "specification S : noexit behaviour stop endspec";

const ROWS: &[Row] = &[
    (A_THEN_B, &["A", "B"], false, 100),
    (ENABLED_CALL, &["A", "B", "B"], false, 100),
    (TWO_ENDS, &["<until>", "<deadlock>"], false, 100),
    (SWAPPED_LOOP, SWAPPED, false, 100),
    (A_THEN_B, &["<until>", "exit"], false, 2),
    (INTERNAL, &["<until>", "B"], true, 100),
    (INACTION, &["<deadlock>"], false, 100),
];

const SWAPPED: &[&str] = &["<while>", "<any>", "A", "B", "A"];

pub fn rows(rt: &impl Print, heap: &Heap) -> Result<(), Stop> {
    print_rows(rt, heap, "match: ", ROWS, write_row)
}

/// Writes what the search for a match returns.
fn write_row(heap: &Heap, line: &mut Line, row: &Row) -> Result<(), Stop> {
    let (text, words, strong, states) = *row;
    let pattern = pattern_of(heap, words, strong)?;
    let mut table = normal_table_of(heap, text)?;
    let found = heap.retried_on(&mut *table, |table| {
        find_shortest_match(heap.alloc, table, &pattern, states)
    });
    write_found(line, table.gates(), &found, states)
}

/// Writes the match, if there is one, or that more states than the bound were found.
fn write_found(
    line: &mut Line,
    gates: &[Name],
    found: &Result<Option<Found>, Halt>,
    states: usize,
) -> Result<(), Stop> {
    match found {
        Ok(Some(found)) => write_match(line, gates, found),
        Ok(None) => put(line, "none"),
        Err(Halt::TooManyStates) => write_bound(line, states),
        Err(Halt::Memory) => Err(Stop::Memory),
    }
}

/// Writes the observed sequence and the run of a match.
pub fn write_match(line: &mut Line, gates: &[Name], found: &Found) -> Result<(), Stop> {
    put_sequence(line, gates, found.sequence.as_slice())?;
    put(line, " : ")?;
    put_sequence(line, gates, found.word.as_slice())
}

/// Writes that more states were found than the bound.
pub fn write_bound(line: &mut Line, states: usize) -> Result<(), Stop> {
    Ok(write!(line, "more than {states} states")?)
}
