//! Words of the command line.

use crate::retry_heap::{Heap, Stop};
use lotos_command::{CommandFault, request};

const ROWS: &[&[&str]] = &[
    &["lotosseq", "check"],
    &[
        "lotosseq",
        "search",
        "--after=A : i A",
        "--depth",
        "+7",
        "--strong",
        "--limit",
        "3",
        "--",
        "-x",
        "A",
    ],
    &["lotosseq", "search", "--length", "2", "A"],
    &["lotosseq", "ever", "<until> A", " B  <deadlock> "],
    &["lotosseq", "ever", "--only", "A,b", "A"],
    &["lotosseq", "after", "--strong", "A  B", "i"],
    &["lotosseq", "cover", "--after=A B", "--limit", "3"],
    &["lotosseq", "graph", "--terms=7", "--hide", "A,B"],
    &["lotosseq", "suite", "--extra", "2", "--after=- A B"],
    &[
        "lotosseq", "compare", "--within", "--only=A", "--states", "5",
    ],
    &["lotosseq", "search", "--depth", "256"],
    &["lotosseq", "check", "-h"],
];

pub fn rows(rt: &impl Print, heap: &Heap) -> Result<(), Stop> {
    for words in ROWS {
        match heap.retried(|| request(heap.alloc, words)) {
            Ok(found) => println!(rt; "request: {found:?}")?,
            Err(CommandFault::Help(text)) => println!(rt; "request: help\n{text}")?,
            Err(CommandFault::Wrong(text)) => println!(rt; "request: wrong\n{text}")?,
            Err(CommandFault::Memory) => println!(rt; "request: out of memory")?,
        }
    }
    Ok(())
}
