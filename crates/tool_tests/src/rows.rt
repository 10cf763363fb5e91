//! Tests as tables: each row is a run of the command, and what it comes to.

use super::runs::{Bytes, Parts, RUN, Run, SINGLE, SINGLE_BYTES, Taken, WHOLE, expect_parts};
use std::alloc::{AllocError, Global};
use std::process::Abort;

/// How the message of a question of `ever` begins if nothing matches; the rest says how much was looked at.
const NEVER: &[u8] = b"lotosseq: it happens at no depth; ";

/// A run of the command, and what it comes to. A row of a table says what differs from [`ROW`], or from another row.
#[derive(Clone, Copy)]
pub struct Row {
    /// What is tested; without it the words do.
    pub name: &'static str,
    pub text: &'static [u8],
    /// The words after the name of the program, as [`words_of`] reads them.
    pub words: &'static str,
    pub output: &'static [u8],
    /// The message, or its beginning if that is [`NEVER`].
    pub message: &'static [u8],
    pub status: u8,
}

/// A run without words over the empty text, which writes nothing and ends with status 0.
pub const ROW: Row = Row {
    name: "",
    text: b"",
    words: "",
    output: b"",
    message: b"",
    status: 0,
};

/// A run that is refused.
pub const REFUSED: Row = Row { status: 2, ..ROW };

/// A run that is refused before anything is read.
pub const REFUSED_FIRST: Row = Row {
    text: b"specification",
    ..REFUSED
};

/// A question of `ever` without a match.
pub const NO_MATCH: Row = Row {
    message: NEVER,
    status: 1,
    ..ROW
};

impl Row {
    /// What a failure is reported by.
    pub fn title(&self) -> &'static str {
        if self.name.is_empty() {
            self.words
        } else {
            self.name
        }
    }
}

/// The words of a command line: the name of the program, and those between the blanks of the line. What is in single
/// quotes is one word, with its blanks, or empty.
pub fn words_of(alloc: Global, line: &str) -> Result<Vec<&str>, AllocError> {
    let mut words = Vec::new(alloc);
    words.push("lotosseq")?;
    for (number, part) in line.split('\'').enumerate() {
        if number % 2 == 1 {
            words.push(part)?;
        } else {
            push_words(&mut words, part)?;
        }
    }
    Ok(words)
}

/// Adds the words between the blanks of a line without quotes.
pub fn push_words<'a>(words: &mut Vec<&'a str>, line: &'a str) -> Result<(), AllocError> {
    for word in line.split(' ') {
        if !word.is_empty() {
            words.push(word)?;
        }
    }
    Ok(())
}

/// The run of a row with these words, over these devices.
pub fn run_of<'a>(
    row: &Row,
    words: &'a [&'a str],
    devices: &Run<'static, 'static>,
) -> Run<'a, 'static> {
    Run {
        name: row.title(),
        words,
        text: row.text,
        ..*devices
    }
}

/// What is expected of a message that is this one, or if it is [`NEVER`] begins so.
fn expected_message(message: &'static [u8]) -> Bytes<'static> {
    if message == NEVER {
        Bytes::BeginWith(message)
    } else {
        Bytes::Are(message)
    }
}

/// What is expected of the run of a row.
pub fn parts_of(row: &Row) -> Parts<'static> {
    Parts {
        output: Bytes::Are(row.output),
        message: expected_message(row.message),
        status: row.status,
        reads: None,
        flushes: Some(flushes_of(row)),
    }
}

/// How often the output is flushed: once after an answer, with or without lines, and where a listing stops. What is refused
/// ends without a flush, and so do a sequence that cannot happen, and a question of `ever` or `after` that stops.
fn flushes_of(row: &Row) -> usize {
    let is_unflushed = row.status == 2
        || row.message.starts_with(b"lotosseq: label")
        || row.message.starts_with(b"lotosseq: stopped: ");
    usize::from(!is_unflushed)
}

/// Runs a row over these devices, and expects this in part.
pub fn expect_run(
    rt: &impl Abort,
    alloc: Global,
    row: &Row,
    devices: &Run<'static, 'static>,
    parts: &Parts<'_>,
) {
    let words = words_of(alloc, row.words).expect(rt, "memory for the words");
    expect_parts(rt, alloc, &run_of(row, words.as_slice(), devices), parts);
}

/// Runs a row over these devices, and expects what it says.
pub fn expect_row(rt: &impl Abort, alloc: Global, row: &Row, devices: &Run<'static, 'static>) {
    expect_run(rt, alloc, row, devices, &parts_of(row));
}

/// Runs each row, and expects what it says.
pub fn expect_rows(rt: &impl Abort, alloc: Global, rows: &[Row]) {
    for row in rows {
        expect_row(rt, alloc, row, &RUN);
    }
}

/// Devices that move a few bytes per call.
const PIECES: Run<'static, 'static> = Run {
    piece: 7,
    output: SINGLE,
    message: Taken { piece: 5, ..WHOLE },
    ..RUN
};

/// The same over devices that move a few bytes per call.
pub fn expect_rows_in_pieces(rt: &impl Abort, alloc: Global, rows: &[Row]) {
    for row in rows {
        expect_row(rt, alloc, row, &PIECES);
    }
}

/// The same over devices that move one byte, seven bytes or all bytes per call.
pub fn expect_rows_in_any_pieces(rt: &impl Abort, alloc: Global, rows: &[Row]) {
    for row in rows {
        for piece in [1usize, 7, 4096] {
            expect_row_in(rt, alloc, row, piece);
        }
    }
}

/// Runs a row over devices that move so many bytes per call.
fn expect_row_in(rt: &impl Abort, alloc: Global, row: &Row, piece: usize) {
    let pieces = Taken { piece, ..WHOLE };
    let devices = Run {
        number: piece,
        piece,
        output: pieces,
        message: pieces,
        ..RUN
    };
    expect_row(rt, alloc, row, &devices);
}

/// Runs each row over devices that move one byte per call, and expects that it is refused before anything is read.
pub fn expect_refused_first(rt: &impl Abort, alloc: Global, rows: &[Row]) {
    for row in rows {
        expect_unread(rt, alloc, row);
    }
}

/// Runs a row, and expects that nothing is read.
fn expect_unread(rt: &impl Abort, alloc: Global, row: &Row) {
    let parts = Parts {
        reads: Some(0),
        ..parts_of(row)
    };
    expect_run(rt, alloc, row, &SINGLE_BYTES, &parts);
}

#[test]
fn words_with_and_without_quotes(rt: HostRuntime) -> Result<(), AllocError> {
    let words = words_of(rt.alloc(), "ever  A '' ' B  C' D\tE '\n'")?;
    let expected = ["lotosseq", "ever", "A", "", " B  C", "D\tE", "\n"];
    assert_eq!(rt; words.as_slice(), expected.as_slice());
    Ok(())
}
