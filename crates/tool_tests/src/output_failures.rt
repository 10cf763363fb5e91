//! Commands whose output fails within a listing, or cannot be flushed at its end, and those whose output nobody reads any
//! more: they say nothing of that.

use super::memory_devices::WhenFull;
use super::rows::{ROW, Row, run_of, words_of};
use super::runs::{
    Bytes, Parts, RUN, Run, Taken, WHOLE, expect_broken, expect_full, expect_parts,
    expect_unflushed,
};
use super::worked_texts::{DELAYED_WITHOUT_B, DISABLED};
use std::alloc::Global;
use std::process::Abort;

const WORDS: &[&str] = &[
    "lotosseq",
    "search",
    "--depth",
    "2",
    "<until>",
    "<deadlock>",
];

const LISTING: &[u8] = b"B\nA B\nA exit\n";

/// The least and the greatest number of bytes after which the output fails with the same message, and the message.
#[rattlefmt::skip]
const BROKEN: &[(usize, usize, &[u8])] = &[
    (0, 1, b"lotosseq: stopped before the first line: output cannot be written\n"),
    (2, 5, b"lotosseq: stopped after B: output cannot be written\n"),
    (6, 12, b"lotosseq: stopped after A B: output cannot be written\n"),
];

/// Runs the search with an output that is full after `most` bytes, and expects the message.
fn fail_output(rt: &impl Abort, alloc: Global, most: usize, piece: usize, message: &[u8]) {
    let run = Run {
        name: "a listing",
        words: WORDS,
        text: DISABLED,
        output: Taken { piece, ..WHOLE },
        ..RUN
    };
    expect_broken(rt, alloc, &run, most, LISTING, message);
}

#[test]
fn the_output_fails_within_each_line(rt: HostRuntime) {
    for (first, last, message) in BROKEN {
        for most in *first..=*last {
            for piece in [1usize, 4, 4096] {
                fail_output(&rt, rt.alloc(), most, piece, *message);
            }
        }
    }
}

/// Commands that end with a flush: the output, the status, and the message if the flush fails.
#[rattlefmt::skip]
const FLUSHED: &[Row] = &[
    Row { name: "a listing", text: DISABLED, words: "search --depth 2 <until> <deadlock>",
        output: LISTING, message: b"lotosseq: stopped after A exit: output cannot be written\n", ..ROW },
    Row { name: "a listing without lines", text: DISABLED, words: "search --depth 2 <any> <any> <any>",
        message: b"lotosseq: stopped before the first line: output cannot be written\n", status: 1, ..ROW },
    Row { name: "a listing without lines, of known words", text: DISABLED, words: "search --depth 2 --known A A",
        message: b"lotosseq: stopped before the first line: output cannot be written\n", status: 1, ..ROW },
    Row { name: "a match of any length", text: DISABLED,
        words: "ever B", output: b"B\n", message: b"lotosseq: output cannot be written\n", ..ROW },
    Row { name: "no match of any length", text: DISABLED,
        words: "ever A A", message: b"lotosseq: output cannot be written\n", status: 1, ..ROW },
    Row { name: "what can come after a sequence", text: DISABLED,
        words: "after A", output: b"B\nexit\n", message: b"lotosseq: output cannot be written\n", ..ROW },
    Row { name: "a cover", text: DISABLED, words: "cover", output: LISTING,
        message: b"lotosseq: stopped after A exit: output cannot be written\n", ..ROW },
    Row { name: "a cover without lines", text: b"specification S : noexit behaviour stop endspec", words: "cover",
        message: b"lotosseq: stopped before the first line: output cannot be written\n", status: 1, ..ROW },
    Row { name: "an automaton", text: DISABLED, words: "graph",
        output: b"des (0, 4, 3)\n(0, \"A\", 1)\n(0, \"B\", 2)\n(1, \"B\", 2)\n(1, \"exit\", 2)\n",
        message: b"lotosseq: output cannot be written\n", ..ROW },
    Row { name: "a difference", words: "compare",
        text: b"specification S [a] : noexit behaviour a; stop endspec specification S : noexit behaviour stop endspec",
        output: b"< A\n", message: b"lotosseq: output cannot be written\n", status: 1, ..ROW },
    Row { name: "no difference", words: "compare",
        text: b"specification S : noexit behaviour stop endspec specification S : noexit behaviour stop endspec",
        message: b"lotosseq: output cannot be written\n", ..ROW },
    Row { name: "a set too many", text: DISABLED, words: "cover --states 1",
        message: b"lotosseq: stopped before the first line: output cannot be written\n", status: 4, ..ROW },
    Row { name: "a check of no process", text: DISABLED,
        words: "check", message: b"lotosseq: output cannot be written\n", ..ROW },
    Row { name: "the limit", text: DISABLED, words: "search --depth 2 --limit 1 <until> <deadlock>",
        output: b"B\n", message: b"lotosseq: stopped after B: output cannot be written\n", status: 3, ..ROW },
    Row { name: "a prefix that is oversized", text: DELAYED_WITHOUT_B, words: "search --depth 2 --terms 1 A",
        message: b"lotosseq: stopped before the first line: output cannot be written\n", status: 4, ..ROW },
];

/// Runs the row with an output that can be flushed, and then with one that cannot, and expects one flush of each.
fn expect_flush(rt: &impl Abort, alloc: Global, row: &Row) {
    let words = words_of(alloc, row.words).expect(rt, "memory for the words");
    let run = run_of(row, words.as_slice(), &RUN);
    let parts = Parts {
        output: Bytes::Are(row.output),
        message: Bytes::BeginWith(b""),
        status: row.status,
        reads: None,
        flushes: Some(1),
    };
    expect_parts(rt, alloc, &run, &parts);
    expect_unflushed(rt, alloc, &run, row.output, row.message);
}

/// A specification with a process, and a gate that is not used.
const PROCESS: &[u8] =
    b"specification S [a] : noexit behaviour stop where process P : noexit := stop endproc endspec";

/// Checks of a process, and texts that are asked for.
#[rattlefmt::skip]
const OTHERS: &[Row] = &[
    Row { name: "a check of a process", text: PROCESS,
        words: "check", output: b"P 0 noexit\n", message: UNWRITTEN, ..ROW },
    Row { name: "a check that explains", text: PROCESS,
        words: "check --explain", output: b"P 0 noexit\n", message: UNWRITTEN, ..ROW },
    Row { name: "a check that warns", text: PROCESS,
        words: "check --warn", output: b"P 0 noexit\n", message: UNWRITTEN, ..ROW },
    Row { name: "the version",
        words: "--version", output: b"lotosseq 0.1.0 (proved, logic dac8208d650f15bf)\n", message: UNWRITTEN, ..ROW },
];

const UNWRITTEN: &[u8] = b"lotosseq: output cannot be written\n";

/// A run whose output nobody reads any more when it fails.
const CLOSED: Run<'static, 'static> = Run {
    output: Taken {
        closed: true,
        ..WHOLE
    },
    ..RUN
};

/// Runs the row with an output whose flush finds that nobody reads any more, and with one whose first write does, and
/// expects no message.
fn expect_silence(rt: &impl Abort, alloc: Global, row: &Row) {
    let words = words_of(alloc, row.words).expect(rt, "memory for the words");
    let run = run_of(row, words.as_slice(), &CLOSED);
    expect_unflushed(rt, alloc, &run, row.output, b"");
    if !row.output.is_empty() {
        expect_full(rt, alloc, &run, 0, WhenFull::Fails, row.output, b"");
    }
}

#[test]
fn one_flush_ends_the_writing_or_fails(rt: HostRuntime) {
    for row in FLUSHED {
        expect_flush(&rt, rt.alloc(), row);
        expect_silence(&rt, rt.alloc(), row);
    }
}

#[test]
fn one_flush_ends_a_check_or_a_text_or_fails(rt: HostRuntime) {
    for row in OTHERS {
        expect_flush(&rt, rt.alloc(), row);
        expect_silence(&rt, rt.alloc(), row);
    }
}

/// A listing whose output nobody reads when it fails.
const UNREAD: Run<'static, 'static> = Run {
    name: "a listing",
    words: WORDS,
    text: DISABLED,
    ..CLOSED
};

#[test]
fn nobody_reads_on_within_a_line(rt: HostRuntime) {
    for most in 0..LISTING.len() {
        expect_full(
            &rt,
            rt.alloc(),
            &UNREAD,
            most,
            WhenFull::Fails,
            LISTING,
            b"",
        );
    }
}

/// A writer that takes nothing does not say that nobody reads.
#[test]
fn an_output_that_takes_nothing_may_be_read(rt: HostRuntime) {
    let message = b"lotosseq: stopped after B: output cannot be written\n";
    expect_full(
        &rt,
        rt.alloc(),
        &UNREAD,
        2,
        WhenFull::TakesNothing,
        LISTING,
        message,
    );
}
