//! Output lines, which are composed without allocating.

use crate::retry_heap::{Heap, Stop};
use arrayvec::{ArrayString, ArrayVec};
use lotos_terms::Label;
use lotos_text::Name;
use std::fmt::Write;

/// The capacity of a line, in bytes.
const CAPACITY: usize = 500;

pub type Line = ArrayString<CAPACITY>;

/// The capacity of several lines, in bytes.
const CAPACITY_OF_LINES: usize = 800;

/// Several lines, into which bytes are written.
pub type Lines = ArrayVec<u8, CAPACITY_OF_LINES>;

/// Prints a line for each row: `what`, and then what `write` writes.
pub fn print_rows<R, F: Fn(&Heap, &mut Line, &R) -> Result<(), Stop>>(
    rt: &impl Print,
    heap: &Heap,
    what: &str,
    rows: &[R],
    write: F,
) -> Result<(), Stop>
    requires { F.IsAlwaysCallable write }
{
    for row in rows {
        let mut line = Line::new();
        write(heap, &mut line, row)?;
        println!(rt; "{what}{line}")?;
    }
    Ok(())
}

/// The text of lines that have fit.
pub fn shown(lines: &Lines) -> Result<&str, Stop> {
    match str::from_utf8(lines.as_slice()) {
        Ok(text) if !lines.is_full() => Ok(text),
        _ => Err(Stop::Line),
    }
}

/// Appends a text to a line.
pub fn put(line: &mut Line, text: &str) -> Result<(), Stop> {
    Ok(line.write_str(text)?)
}

/// Appends names, each after a blank, between two texts.
pub fn put_names(line: &mut Line, before: &str, names: &[Name], after: &str) -> Result<(), Stop> {
    put(line, before)?;
    for name in names {
        write!(line, " {}", name.text())?;
    }
    put(line, after)
}

/// Appends labels, each after a blank. The gates have these names.
pub fn put_labels(line: &mut Line, gates: &[Name], labels: &[Label]) -> Result<(), Stop> {
    for label in labels {
        put_label(line, gates, *label)?;
    }
    Ok(())
}

/// Appends a label after a blank.
pub fn put_label(line: &mut Line, gates: &[Name], label: Label) -> Result<(), Stop> {
    Ok(write!(line, " {}", label_text(gates, label)?)?)
}

/// Appends a sequence of labels, separated by one blank each. The gates have these names.
pub fn put_sequence(line: &mut Line, gates: &[Name], labels: &[Label]) -> Result<(), Stop> {
    match labels {
        [] => put(line, "<empty>"),
        [first, rest @ ..] => {
            put(line, label_text(gates, *first)?)?;
            put_labels(line, gates, rest)
        }
    }
}

fn label_text(gates: &[Name], label: Label) -> Result<&str, Stop> {
    match label {
        Label::Gate(gate) => match gates.get(gate.number()) {
            Some(name) => Ok(name.text()),
            None => Err(Stop::Row),
        },
        Label::Exit => Ok("exit"),
        Label::Internal => Ok("i"),
    }
}
