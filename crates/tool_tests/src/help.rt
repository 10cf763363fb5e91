//! Runs that ask for help or for the version.

use super::help_texts::{after, check, compare, cover, ever, graph, program, search, suite};
use super::memory_devices::WhenFull;
use super::runs::{Bytes, Outcome, Parts, RUN, Run, Taken, UNREAD, WHOLE, expect, expect_parts};
use std::alloc::Global;
use std::process::Abort;

/// Words that ask for help or for the version, and the text.
type Row = (&'static [&'static str], &'static str);

const LONG: &[Row] = &[
    (&["lotosseq", "--help"], program::WHOLE),
    (&["lotosseq", "check", "--help"], check::WHOLE),
];

const SHORT: &[Row] = &[
    (&["lotosseq", "-h"], program::SHORT),
    (&["lotosseq", "search", "-h"], search::SHORT),
    (&["lotosseq", "ever", "-h"], ever::SHORT),
    (&["lotosseq", "after", "-h"], after::SHORT),
    (&["lotosseq", "cover", "-h"], cover::SHORT),
    (&["lotosseq", "graph", "-h"], graph::SHORT),
    (&["lotosseq", "suite", "-h"], suite::SHORT),
    (&["lotosseq", "compare", "-h"], compare::SHORT),
    (&["lotosseq", "check", "-h"], check::SHORT),
    (&["lotosseq", "--version"], program::VERSION),
    (&["lotosseq", "-V"], program::VERSION),
];

/// Runs the words, and expects this text, no message, status 0 and one flush.
fn expect_text(rt: &impl Abort, alloc: Global, words: &[&str], text: &str) {
    let outcome = Outcome {
        output: text.as_bytes(),
        message: b"",
        status: 0,
        flushes: 1,
    };
    expect(rt, alloc, &Run { words, ..RUN }, &outcome);
}

/// Runs the words of each row, and expects the row's text.
fn expect_texts(rt: &impl Abort, alloc: Global, rows: &[Row]) {
    for (words, text) in rows {
        expect_text(rt, alloc, *words, *text);
    }
}

#[test]
fn help_of_the_program_and_of_check(rt: HostRuntime) {
    expect_texts(&rt, rt.alloc(), LONG);
}

#[test]
fn help_of_search(rt: HostRuntime) {
    expect_text(
        &rt,
        rt.alloc(),
        &["lotosseq", "search", "--help"],
        search::WHOLE,
    );
}

#[test]
fn help_of_ever(rt: HostRuntime) {
    expect_text(
        &rt,
        rt.alloc(),
        &["lotosseq", "ever", "--help"],
        ever::WHOLE,
    );
}

#[test]
fn help_of_after(rt: HostRuntime) {
    expect_text(
        &rt,
        rt.alloc(),
        &["lotosseq", "after", "--help"],
        after::WHOLE,
    );
}

#[test]
fn help_of_cover(rt: HostRuntime) {
    expect_text(
        &rt,
        rt.alloc(),
        &["lotosseq", "cover", "--help"],
        cover::WHOLE,
    );
}

#[test]
fn help_of_graph(rt: HostRuntime) {
    expect_text(
        &rt,
        rt.alloc(),
        &["lotosseq", "graph", "--help"],
        graph::WHOLE,
    );
}

#[test]
fn help_of_suite(rt: HostRuntime) {
    expect_text(
        &rt,
        rt.alloc(),
        &["lotosseq", "suite", "--help"],
        suite::WHOLE,
    );
}

#[test]
fn help_of_compare(rt: HostRuntime) {
    expect_text(
        &rt,
        rt.alloc(),
        &["lotosseq", "compare", "--help"],
        compare::WHOLE,
    );
}

#[test]
fn summaries_and_the_version(rt: HostRuntime) {
    expect_texts(&rt, rt.alloc(), SHORT);
}

/// Command lines that ask for help or for the version, and the first line of the text.
const ROWS: &[(&[&str], &[u8])] = &[
    (
        &["lotosseq", "check", "--help"],
        b"Checks the static rules and lists the processes\n",
    ),
    (
        &["lotosseq", "help", "check"],
        b"Checks the static rules and lists the processes\n",
    ),
    (
        &["lotosseq", "search", "--help"],
        b"Lists the sequences that match a pattern\n",
    ),
    (
        &["lotosseq", "ever", "--help"],
        b"Finds a shortest match, of any length\n",
    ),
    (
        &["lotosseq", "help", "after"],
        b"Writes what can come after a sequence\n",
    ),
    (
        &["lotosseq", "help", "cover"],
        b"Lists sequences that show all that can be observed\n",
    ),
    (
        &["lotosseq", "help", "graph"],
        b"Writes all that can be observed as an automaton\n",
    ),
    (
        &["lotosseq", "help", "suite"],
        b"Lists a test suite that misses nothing\n",
    ),
    (
        &["lotosseq", "help", "compare"],
        b"Writes where two specifications first differ\n",
    ),
    (
        &["lotosseq", "--version"],
        b"lotosseq 0.1.0 (proved, logic dac8208d650f15bf)\n",
    ),
];

/// Runs words that ask for help with this output, and expects the text and the message, and that nothing is read.
fn expect_help(
    rt: &impl Abort,
    alloc: Global,
    words: &[&str],
    output: Taken,
    text: Bytes<'_>,
    message: &[u8],
    flushes: usize,
) {
    let run = Run {
        name: "help",
        number: output.most,
        words,
        output,
        ..RUN
    };
    let parts = Parts {
        output: text,
        message: Bytes::Are(message),
        status: if message.is_empty() { 0 } else { 6 },
        flushes: Some(flushes),
        ..UNREAD
    };
    expect_parts(rt, alloc, &run, &parts);
}

/// Expects the first line of each help, with this output and this message.
fn expect_first_lines(rt: &impl Abort, alloc: Global, output: Taken, message: &[u8]) {
    for (words, line) in ROWS {
        let text = Bytes::BeginWith(*line);
        expect_help(rt, alloc, *words, output, text, message, 1);
    }
}

#[test]
fn help_of_each_subcommand(rt: HostRuntime) {
    expect_first_lines(&rt, rt.alloc(), WHOLE, b"");
}

#[test]
fn help_whose_flush_fails(rt: HostRuntime) {
    let output = Taken {
        flush_fails: true,
        ..WHOLE
    };
    expect_first_lines(&rt, rt.alloc(), output, UNWRITTEN);
}

const UNWRITTEN: &[u8] = b"lotosseq: output cannot be written\n";

/// Runs the words with an output that is full after `most` bytes.
fn expect_cut_help(
    rt: &impl Abort,
    alloc: Global,
    words: &[&str],
    most: usize,
    when_full: WhenFull,
    line: &[u8],
) {
    let output = Taken {
        piece: 5,
        most,
        when_full,
        ..WHOLE
    };
    let text = Bytes::Are(&line[..most.min(line.len())]);
    expect_help(rt, alloc, words, output, text, UNWRITTEN, 0);
}

#[test]
fn help_that_cannot_be_written(rt: HostRuntime) {
    let line: &[u8] = b"Checks the static rules and lists the processes\n";
    let words = ["lotosseq", "check", "--help"].as_slice();
    for most in 0..line.len() {
        expect_cut_help(&rt, rt.alloc(), words, most, WhenFull::Fails, line);
        expect_cut_help(&rt, rt.alloc(), words, most, WhenFull::TakesNothing, line);
    }
}

#[test]
fn version_that_cannot_be_written(rt: HostRuntime) {
    let line: &[u8] = b"lotosseq 0.1.0 (proved, logic dac8208d650f15bf)\n";
    let words = ["lotosseq", "-V"].as_slice();
    for most in 0..line.len() {
        expect_cut_help(&rt, rt.alloc(), words, most, WhenFull::Fails, line);
    }
}
