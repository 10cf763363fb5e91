//! First matches whose end a pattern demands something of, and what can come and what ends.

use crate::front_end::normal_table_of;
use crate::lines::{Line, print_rows, put};
use crate::match_calls::{Row, write_bound, write_match};
use crate::pattern_calls::pattern_of;
use crate::retry_heap::{Heap, Stop};
use crate::set_calls::HIDDEN_LOOP;
use lotos_ends::{EndStates, EndsFault, find_coming, find_ending};
use lotos_ever::{EndedMatch, Halt, find_shortest_match_with_end};
use lotos_listing::{LabelFlags, NoProgress};
use lotos_normal::NormalTable;
use lotos_pattern::{EverPattern, Pattern};
use lotos_terms::Term;
use lotos_text::Name;
use std::alloc::{AllocError, Global};
use std::fmt::Write;

/// A server that answers each request, or refuses to.
const SERVER: &str =
    "specification S [a,b,c] : noexit behaviour P[a,b,c] where process P [x,y,z] : noexit := x; (y; P[x,y,z] [] i; z; P[x,y,z]) endproc endspec";

/// One label, and then a loop of another one.
const ROW_AND_LOOP: &str =
    "specification S [a,b] : noexit behaviour a; P[b] where process P [x] : noexit := x; P[x] endproc endspec";

/// The same with internal steps before each of the two labels.
const INTERNAL_STEPS: &str =
    "specification S [a,b] : noexit behaviour i; a; i; P[b] where process P [x] : noexit := x; P[x] endproc endspec";

/// Rows whose bound is also one on the normal forms.
const ROWS: &[Row] = &[
    (HIDDEN_LOOP, &["<until>", "<livelock>"], false, 100),
    (HIDDEN_LOOP, &["<until>", "<forever>", "A"], false, 100),
    // A bound that the normal forms reach, and one that is one too small.
    (HIDDEN_LOOP, &["<until>", "<never>", "A"], false, 3),
    (HIDDEN_LOOP, &["<until>", "<never>", "A"], false, 2),
    (SERVER, &["<until>", "<never>", "B"], false, 100),
    (SERVER, NEVER_ANSWERED, false, 100),
    (SERVER, &["A", "<refuses>", "B"], false, 100),
    (ROW_AND_LOOP, &["<forever>", "A,B"], false, 100),
    (ROW_AND_LOOP, &["<until>", "B"], false, 100),
    (INTERNAL_STEPS, &["<until>", "<never>", "i"], true, 100),
];

const NEVER_ANSWERED: &[&str] = &["<while>", "<any>", "A", "<forever>", "<not>", "B"];

/// A specification, a pattern that demands a set of labels of its end, and the most normal forms.
type SetRow = (&'static str, &'static [&'static str], usize);

const SET_ROWS: &[SetRow] = &[
    (HIDDEN_LOOP, &["<refuses>", "A"], 3),
    (HIDDEN_LOOP, &["<refuses>", "B"], 100),
    (SERVER, &["<refuses>", "B"], 100),
    (ROW_AND_LOOP, &["<refuses>", "A"], 100),
    (SERVER, &["<refuses>", "B"], 2),
];

pub fn rows(rt: &impl Print, heap: &Heap) -> Result<(), Stop> {
    print_rows(rt, heap, "end: ", ROWS, write_row)?;
    print_rows(rt, heap, "ends: ", SET_ROWS, write_counts)
}

/// Writes what the search for a match returns.
fn write_row(heap: &Heap, line: &mut Line, row: &Row) -> Result<(), Stop> {
    let (text, words, strong, states) = *row;
    let pattern = heap.retried(|| EverPattern::read(heap.alloc, words, strong))?;
    let mut table = normal_table_of(heap, text)?;
    let ended = heap.retried_on(&mut *table, |table| {
        find_shortest_match_with_end(heap.alloc, table, &pattern, states, &mut NoProgress)
    });
    write_ended(line, table.gates(), &ended, states)
}

/// Writes the match, if there is one, or that more states than the bound were found.
fn write_ended(
    line: &mut Line,
    gates: &[Name],
    ended: &Result<Option<EndedMatch>, Halt>,
    states: usize,
) -> Result<(), Stop> {
    match ended {
        Ok(Some(ended)) => write_ended_match(line, gates, ended),
        Ok(None) => put(line, "none"),
        Err(Halt::TooManyStates) => write_bound(line, states),
        Err(Halt::Memory) => Err(Stop::Memory),
    }
}

/// Writes a match, and of how many labels the row and the loop are that begin at its end, if there are any.
fn write_ended_match(line: &mut Line, gates: &[Name], ended: &EndedMatch) -> Result<(), Stop> {
    write_match(line, gates, &ended.found)?;
    match &ended.lasso {
        None => Ok(()),
        Some(lasso) => {
            let (row, turn) = (lasso.row.len(), lasso.turn.len());
            Ok(write!(line, ", then {row} and {turn}")?)
        }
    }
}

/// Writes at how many of the normal forms a label of the set can come, and at how many the rows of steps within the set
/// end.
fn write_counts(heap: &Heap, line: &mut Line, row: &SetRow) -> Result<(), Stop> {
    let (text, words, bound) = *row;
    let pattern = pattern_of(heap, words, false)?;
    let mut table = normal_table_of(heap, text)?;
    put(line, "can come at ")?;
    let coming = heap.retried_on(&mut *table, |table| {
        coming_states(heap.alloc, table, &pattern, bound)
    });
    write_count(line, &table, &coming, bound)?;
    put(line, ", rows end at ")?;
    let ending = heap.retried_on(&mut *table, |table| {
        ending_states(heap.alloc, table, &pattern, bound)
    });
    write_count(line, &table, &ending, bound)
}

/// Of each normal form, whether a label of the set can come.
fn coming_states(
    alloc: Global,
    table: &mut NormalTable,
    pattern: &Pattern,
    bound: usize,
) -> Result<EndStates, EndsFault> {
    let set = demanded_set(alloc, table, pattern)?;
    let start = table.start();
    find_coming(alloc, table, start, &set, bound)
}

/// Of each normal form, whether the rows of steps within the set end.
fn ending_states(
    alloc: Global,
    table: &mut NormalTable,
    pattern: &Pattern,
    bound: usize,
) -> Result<EndStates, EndsFault> {
    let set = demanded_set(alloc, table, pattern)?;
    let start = table.start();
    find_ending(alloc, table, start, set, bound)
}

/// The set that the pattern demands of its end, as flags.
fn demanded_set(
    alloc: Global,
    table: &NormalTable,
    pattern: &Pattern,
) -> Result<LabelFlags, AllocError> {
    match pattern.refusal() {
        None => Ok(LabelFlags::none(alloc)),
        Some(set) => LabelFlags::of_set(alloc, set, table.gates()),
    }
}

/// Writes how many normal forms have the flag `true`, and how many have the flag `false`.
fn write_count(
    line: &mut Line,
    table: &NormalTable,
    found: &Result<EndStates, EndsFault>,
    bound: usize,
) -> Result<(), Stop> {
    match found {
        Ok(ends) => {
            let set = count_flags(table, ends, true);
            let clear = count_flags(table, ends, false);
            Ok(write!(line, "{set} and not at {clear}")?)
        }
        Err(EndsFault::TooManyStates) => write_bound(line, bound),
        Err(EndsFault::Memory) => Err(Stop::Memory),
    }
}

/// The number of terms of the table with this flag.
fn count_flags(table: &NormalTable, ends: &EndStates, flag: bool) -> usize {
    (0..table.len())
        .filter(|number| ends.flag(Term::of_number(*number)) == Some(flag))
        .count()
}
