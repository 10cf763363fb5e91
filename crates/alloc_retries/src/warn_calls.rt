//! Warnings about accepted specifications.

use crate::front_end::{checked, parsed};
use crate::lines::{Line, print_rows, put};
use crate::retry_heap::{Heap, Stop};
use lotos_text::Specification;
use lotos_warn::{Warning, warnings};
use std::fmt::Write;

const ROWS: &[&str] = &[
    "specification S [a] : noexit behaviour a; stop endspec",
    "specification S [a, b] : noexit behaviour P[a] |[a]| stop where process P [x] : noexit := x; (stop |[x]| x; stop) endproc process Q [y] : noexit := stop endproc endspec",
    "specification S : exit behaviour exit where process P : exit := i; P endproc endspec",
    "specification S [a] : noexit behaviour hide b in (a; b; stop ||| b; stop) endspec",
    // A name of 65 bytes, of which a warning shows 64.
    "specification p0123456789012345678901234567890123456789012345678901234567891234 [a] : noexit behaviour stop endspec",
];

pub fn rows(rt: &impl Print, heap: &Heap) -> Result<(), Stop> {
    print_rows(rt, heap, "warnings: ", ROWS, write_row)
}

fn write_row(heap: &Heap, line: &mut Line, text: &&str) -> Result<(), Stop> {
    let specification = parsed(heap, text)?;
    write_warnings(heap, line, &specification)
}

/// Writes the warnings about a specification that breaks no static rule.
fn write_warnings(heap: &Heap, line: &mut Line, specification: &Specification) -> Result<(), Stop> {
    let system = checked(heap, specification)?;
    let found = heap.retried(|| warnings(heap.alloc, specification, &system))?;
    write_each(line, found.as_slice())
}

/// Writes each warning with its offset.
fn write_each(line: &mut Line, found: &[Warning]) -> Result<(), Stop> {
    for warning in found {
        let at = warning.at();
        write!(line, "{warning} at {at}; ")?;
    }
    put(line, "end")
}
