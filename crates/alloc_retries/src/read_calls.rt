//! Texts that are read from a source.

use crate::lines::{Line, print_rows};
use crate::retry_heap::{Heap, Stop};
use lotos_device::{FromRead, ReadFault, read_text};
use lotos_text::TEXT_LIMIT;
use std::alloc::Global;
use std::fmt::Write;
use std::io::{self, Read};

/// The number of bytes that the source has.
const ROWS: &[u64] = &[0, 1, 10_000];

pub fn rows(rt: &impl Print, heap: &Heap) -> Result<(), Stop> {
    print_rows(rt, heap, "read: ", ROWS, write_row)
}

fn write_row(heap: &Heap, line: &mut Line, length: &u64) -> Result<(), Stop> {
    match heap.retried(|| read(heap.alloc, *length)) {
        Ok(text) => write_length(line, text.as_slice()),
        Err(fault) => Ok(write!(line, "{fault:?}")?),
    }
}

/// Reads a whole text from a source made for it.
fn read(alloc: Global, length: u64) -> Result<Vec<u8>, ReadFault> {
    let mut source = FromRead::new(io::repeat(b'a').take(length));
    read_text(alloc, &mut source, TEXT_LIMIT)
}

fn write_length(line: &mut Line, text: &[u8]) -> Result<(), Stop> {
    let length = text.len();
    let last = text.last();
    Ok(write!(line, "{length} bytes, the last {last:?}")?)
}
