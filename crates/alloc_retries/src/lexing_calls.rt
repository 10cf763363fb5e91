//! Texts that are lexed.

use crate::lines::{Line, print_rows};
use crate::retry_heap::{Heap, Stop};
use lotos_text::{Token, tokens};
use std::fmt::Write;

const TEXTS: &[&str] = &["hide A_1 in P[a,b] >> i; (* ; *) exit", "a (* b", "a ! b"];

pub fn rows(rt: &impl Print, heap: &Heap) -> Result<(), Stop> {
    print_rows(rt, heap, "tokens:", TEXTS, write_row)
}

fn write_row(heap: &Heap, line: &mut Line, text: &&str) -> Result<(), Stop> {
    match heap.retried(|| tokens(heap.alloc, text.as_bytes())) {
        Ok(found) => write_tokens(line, found.as_slice()),
        Err(fault) => Ok(write!(line, " {fault:?}")?),
    }
}

fn write_tokens(line: &mut Line, found: &[Token]) -> Result<(), Stop> {
    for Token { at, end, kind } in found {
        write!(line, " {at}-{end} {kind:?}")?;
    }
    Ok(())
}
