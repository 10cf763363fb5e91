//! Complete runs over texts, words and devices at their limits and beyond.

mod failing_messages;
mod foreign_bytes;
mod lengths;
mod nesting;
mod truncated_texts;

use super::runs::{self, Outcome, RUN, Run};
use std::alloc::Global;
use std::process::Abort;

const SEARCH: &[&str] = &["lotosseq", "search", "--depth", "1", "A"];

const CHECK: &[&str] = &["lotosseq", "check"];

const NOTHING: &[u8] = b"";

/// The output of a run, its message, and its status.
#[derive(Drop)]
struct Answer<'a> {
    output: &'a [u8],
    message: &'a [u8],
    status: u8,
}

/// Runs the words on the text, and expects this answer, and one flush if the status is 0 or 1.
fn expect(
    rt: &impl Abort,
    alloc: Global,
    name: &str,
    words: &[&str],
    text: &[u8],
    answer: &Answer<'_>,
) {
    let run = Run {
        name,
        words,
        text,
        ..RUN
    };
    let outcome = Outcome {
        output: answer.output,
        message: answer.message,
        status: answer.status,
        flushes: usize::from(answer.status < 2),
    };
    runs::expect(rt, alloc, &run, &outcome);
}

/// Searches and checks the text, and expects both to refuse it with the message.
fn expect_refused(rt: &impl Abort, alloc: Global, name: &str, text: &[u8], message: &[u8]) {
    let answer = Answer {
        output: NOTHING,
        message,
        status: 2,
    };
    expect(rt, alloc, name, SEARCH, text, &answer);
    expect(rt, alloc, name, CHECK, text, &answer);
}
