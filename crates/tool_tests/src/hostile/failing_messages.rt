//! Messages that cannot be written: this changes neither the output nor the status.

use crate::memory_devices::WhenFull;
use crate::rows::{REFUSED, ROW, Row, expect_run, parts_of};
use crate::runs::{Bytes, Parts, RUN, Run, Taken, UNREAD, WHOLE, expect_parts};
use crate::worked_texts::{DELAYED, DISABLED, UNDECLARED};
use std::alloc::Global;
use std::process::Abort;

/// Runs with a message.
#[rattlefmt::skip]
const ROWS: &[Row] = &[
    Row { name: "words that are no pattern", text: DISABLED, words: "search --depth 1 A-B",
        message: b"lotosseq: E41 word 1 is neither a label nor an element\n", ..REFUSED },
    Row { name: "a text that is refused", text: UNDECLARED,
        words: "check", message: b"lotosseq: 1:40: E21 gate B is not declared\n", ..REFUSED },
    Row { name: "the limit", text: DISABLED, words: "search --depth 2 --limit 1 <until> <deadlock>",
        output: b"B\n", message: b"lotosseq: stopped after B: limit reached\n", status: 3, ..ROW },
    Row { name: "a prefix that is oversized", text: DELAYED, words: "search --depth 2 --terms 1 A",
        message: b"lotosseq: stopped before the first line: more than 1 terms at <empty>\n", status: 4, ..ROW },
    Row { name: "a label that cannot come", text: DISABLED,
        words: "after B A", message: b"lotosseq: label 2, A, cannot come here, and no other can\n", status: 1, ..ROW },
    Row { name: "a beginning of a sequence that reaches too many terms", text: DELAYED, words: "after --terms 1 A",
        message: b"lotosseq: stopped: more than 1 terms after 0 labels\n", status: 4, ..ROW },
];

/// Runs whose output fails after four bytes.
#[rattlefmt::skip]
const BROKEN: &[Row] = &[
    Row { name: "an output that fails", text: DISABLED, words: "search --depth 2 <until> <deadlock>",
        output: b"B\nA ", message: b"lotosseq: stopped after B: output cannot be written\n", status: 6, ..ROW },
    Row { name: "an output of a check that fails",
        text: b"specification S : noexit behaviour stop where process P : noexit := stop endproc endspec",
        words: "check", output: b"P 0 ", message: b"lotosseq: output cannot be written\n", status: 6, ..ROW },
];

/// An output that takes each of these runs.
const WIDE: Taken = Taken {
    piece: 4,
    most: 99,
    ..WHOLE
};

/// An output that fails after four bytes.
const NARROW: Taken = Taken { most: 4, ..WIDE };

/// Runs the row over this output and an error stream that is full after `most` bytes, and expects what the row says.
fn expect_cut(
    rt: &impl Abort,
    alloc: Global,
    row: &Row,
    output: Taken,
    most: usize,
    when_full: WhenFull,
) {
    let message = Taken {
        piece: 3,
        most,
        when_full,
        ..WHOLE
    };
    let devices = Run {
        number: most,
        output,
        message,
        ..RUN
    };
    let parts = Parts {
        message: Bytes::Begin(row.message),
        flushes: None,
        ..parts_of(row)
    };
    expect_run(rt, alloc, row, &devices, &parts);
}

/// The same after each number of bytes that is less than the message has.
fn expect_each_cut(rt: &impl Abort, alloc: Global, row: &Row, output: Taken) {
    for most in 0..row.message.len() {
        expect_cut(rt, alloc, row, output, most, WhenFull::Fails);
        expect_cut(rt, alloc, row, output, most, WhenFull::TakesNothing);
    }
}

#[test]
fn a_message_that_cannot_be_written_changes_nothing(rt: HostRuntime) {
    for row in ROWS {
        expect_each_cut(&rt, rt.alloc(), row, WIDE);
    }
    for row in BROKEN {
        expect_each_cut(&rt, rt.alloc(), row, NARROW);
    }
}

/// Runs words that fit no command over an error stream that is full after `most` bytes.
fn expect_unread(rt: &impl Abort, alloc: Global, most: usize) {
    let run = Run {
        words: &["lotosseq", "search", "A"],
        text: DISABLED,
        message: Taken {
            piece: 3,
            most,
            ..WHOLE
        },
        ..RUN
    };
    let parts = Parts {
        message: Bytes::AtMost(most),
        ..UNREAD
    };
    expect_parts(rt, alloc, &run, &parts);
}

#[test]
fn a_command_fault_that_cannot_be_written_changes_nothing(rt: HostRuntime) {
    for most in 0usize..40 {
        expect_unread(&rt, rt.alloc(), most);
    }
}
