//! Lines that are read as marks.

use crate::lines::{Line, print_rows};
use crate::retry_heap::{Heap, Stop};
use lotos_listing::{Mark, MarkFault};
use std::fmt::Write;

/// A line, and whether internal steps are observed.
const ROWS: &[(&str, bool)] = &[
    ("a exit b_1 A A A : i A", false),
    ("i A I", true),
    ("<empty>", false),
    ("A  B", false),
    ("A i", false),
];

pub fn rows(rt: &impl Print, heap: &Heap) -> Result<(), Stop> {
    print_rows(rt, heap, "mark: ", ROWS, write_row)
}

fn write_row(heap: &Heap, line: &mut Line, row: &(&str, bool)) -> Result<(), Stop> {
    let (text, strong) = *row;
    match mark_of(heap, text, strong) {
        Ok(mark) => Ok(write!(line, "{mark:?}")?),
        Err(fault) => Ok(write!(line, "{fault:?}")?),
    }
}

fn mark_of(heap: &Heap, text: &str, strong: bool) -> Result<Mark, MarkFault> {
    heap.retried(|| Mark::read(heap.alloc, text, strong))
}

/// The mark of a line, or none if it is empty.
pub fn mark_after(heap: &Heap, text: &str, strong: bool) -> Result<Option<Mark>, MarkFault> {
    if text.is_empty() {
        return Ok(None);
    }
    Ok(Some(mark_of(heap, text, strong)?))
}
