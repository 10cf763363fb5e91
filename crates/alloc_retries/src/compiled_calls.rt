//! Patterns that are copied and compiled, and sequences that are followed in them.
ghost use Rattle.std.specs.Prelude.{◌<◌, ◌≤◌, IfOk, IfSome, length};

use crate::lines::{Line, print_rows, put};
use crate::pattern_calls::pattern_of;
use crate::retry_heap::{Heap, Stop};
use lotos_pattern::{CompiledPattern, Pattern, PlaceNumber};
use std::alloc::{AllocError, Global};
use std::fmt::Write;

const LABELS: &[&str] = &["A", "B", "C", "exit", "i"];

/// Words, whether internal steps are observed, and the numbers of the labels of a sequence.
type Row = (&'static [&'static str], bool, &'static [usize]);

const ROWS: &[Row] = &[
    (
        &["A", "<any>", "b", "<until>", "c", "exit", "<deadlock>"],
        false,
        &[0, 3, 1, 0, 2, 3, 0],
    ),
    (&["<while>", "a", "i"], true, &[0, 0, 4]),
    (&["<not>", "a,b", "<until>", "exit,c"], false, &[2, 0, 2]),
];

pub fn rows(rt: &impl Print, heap: &Heap) -> Result<(), Stop> {
    print_rows(rt, heap, "compiled:", ROWS, write_row)
}

/// Writes the ends of the sequence twice: where its steps are new, and where they are known.
fn write_row(heap: &Heap, line: &mut Line, row: &Row) -> Result<(), Stop> {
    let (words, strong, sequence) = *row;
    let pattern = pattern_of(heap, words, strong)?;
    let mut compiled = heap.retried(|| compile(heap.alloc, &pattern))?;
    write_ends(heap, line, &mut compiled, sequence)?;
    put(line, ",")?;
    write_ends(heap, line, &mut compiled, sequence)
}

/// A copy of the pattern, compiled against the labels.
fn compile(alloc: Global, pattern: &Pattern) -> Result<CompiledPattern, AllocError> {
    let copy = pattern.copied(alloc)?;
    let mut labels = Vec::new(alloc);
    for label in LABELS {
        labels.push(String::from_str(alloc, label)?)?;
    }
    CompiledPattern::new(alloc, copy, labels)
}

/// Writes whether each prefix of the sequence may end there, up to the first that the pattern cannot match.
fn write_ends(
    heap: &Heap,
    line: &mut Line,
    pattern: &mut CompiledPattern,
    sequence: &[usize],
) -> Result<(), Stop> {
    let mut place = first_place(pattern);
    write_end(line, pattern, place)?;
    for label in sequence {
        let Some(next) = heap.retried_on(pattern, |pattern| next_place(pattern, place, *label))?
        else {
            return put(line, " none");
        };
        place = next;
        write_end(line, pattern, place)?;
    }
    Ok(())
}

fn write_end(line: &mut Line, pattern: &CompiledPattern, place: PlaceNumber) -> Result<(), Stop>
    requires { place < length pattern.now.places }
{
    let end = pattern.accepts(place);
    Ok(write!(line, " {end:?}")?)
}

/// The place of the empty sequence.
fn first_place(pattern: &CompiledPattern) -> PlaceNumber
    ensures { result < length pattern.now.places }
{
    pattern.begin()
}

/// The place after one more label, if there is one.
fn next_place(
    pattern: &mut CompiledPattern,
    place: PlaceNumber,
    label: usize,
) -> Result<Option<PlaceNumber>, AllocError>
    requires { place < length pattern.old.places }
    ensures within { IfOk result (λ next. IfSome next (λ n. n < length pattern.new.places)) }
    ensures more { length pattern.old.places ≤ length pattern.new.places }
{
    if label >= pattern.label_count() {
        return Ok(None);
    }
    pattern.step(place, label)
}
