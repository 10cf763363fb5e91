//! Runs of the command over a reader and writers in memory, and what is expected of them.

use super::memory_devices::{ArrayWriter, SliceReader, WhenFull, run_with};
use lotos_tool::Messages;
use std::alloc::Global;
use std::process::Abort;

/// What a writer takes.
#[derive(Clone, Copy)]
pub struct Taken {
    /// The most bytes of a write that it takes.
    pub piece: usize,
    /// The number of bytes after which it is full.
    pub most: usize,
    pub when_full: WhenFull,
    pub flush_fails: bool,
    /// Whether it fails because nobody reads any more.
    pub closed: bool,
}

/// A writer that takes 16384 bytes, up to 4096 in a write, and does not fail before.
pub const WHOLE: Taken = Taken {
    piece: 4096,
    most: 16384,
    when_full: WhenFull::Fails,
    flush_fails: false,
    closed: false,
};

/// A writer that takes single bytes.
pub const SINGLE: Taken = Taken { piece: 1, ..WHOLE };

/// A run: its words, its text, and how its devices move bytes and fail.
#[derive(Clone, Copy)]
pub struct Run<'a, 'b> {
    /// What is tested.
    pub name: &'a str,
    /// Which of the runs with this name it is.
    pub number: usize,
    pub words: &'a [&'a str],
    pub text: &'b [u8],
    /// The most bytes that a read moves.
    pub piece: usize,
    /// The number of the read that fails, counted from 1.
    pub failing_read: Option<usize>,
    pub output: Taken,
    pub message: Taken,
}

/// A run without words over the empty text, whose devices do not fail.
pub const RUN: Run<'static, 'static> = Run {
    name: "",
    number: 0,
    words: &[],
    text: b"",
    piece: 4096,
    failing_read: None,
    output: WHOLE,
    message: WHOLE,
};

/// A run without words whose devices move one byte per call.
pub const SINGLE_BYTES: Run<'static, 'static> = Run {
    text: b"specification",
    piece: 1,
    output: SINGLE,
    message: SINGLE,
    ..RUN
};

/// What a run comes to: what it writes, its status, and how often it flushes the output.
#[derive(Clone, Copy, Debug, PartialEq)]
pub struct Outcome<'a> {
    pub output: &'a [u8],
    pub message: &'a [u8],
    pub status: u8,
    pub flushes: usize,
}

/// What is expected of a run whose text cannot be read.
const UNREADABLE: Outcome<'static> = Outcome {
    output: b"",
    message: b"lotosseq: E47 input cannot be read\n",
    status: 2,
    flushes: 0,
};

/// The writers of a run at its end, how many reads it took, and its status.
#[derive(Drop)]
pub struct Ran {
    pub output: ArrayWriter,
    pub message: ArrayWriter,
    pub reads: usize,
    pub status: u8,
}

impl Ran {
    /// What the run has come to.
    fn outcome(&self) -> Outcome<'_> {
        Outcome {
            output: self.output.got(),
            message: self.message.got(),
            status: self.status,
            flushes: self.output.flushes,
        }
    }
}

impl Run<'_, '_> {
    /// Runs the command.
    pub fn finish(&self, alloc: Global) -> Ran {
        self.finish_with_terminal(alloc, false)
    }

    /// Runs the command with an error stream that is a terminal or is none.
    pub fn finish_with_terminal(&self, alloc: Global, terminal: bool) -> Ran {
        self.finish_with_terminals(alloc, terminal, false)
    }

    /// Runs the command with an error stream and an input that are terminals or are none.
    pub fn finish_with_terminals(&self, alloc: Global, terminal: bool, keyboard: bool) -> Ran {
        let messages = Messages {
            stream: writer(self.message),
            terminal,
            keyboard,
        };
        let reader = self.reader();
        let output = writer(self.output);
        let (status, reader, output, message) = run_with(
            alloc, self.words, reader, output, messages,
        );
        Ran {
            output,
            message,
            reads: reader.reads,
            status,
        }
    }

    /// A reader of the text.
    fn reader(&self) -> SliceReader<'_> {
        let mut reader = SliceReader::new(self.text, self.piece);
        reader.fails_at = self.failing_read;
        reader
    }
}

/// An empty writer that takes so much.
fn writer(taken: Taken) -> ArrayWriter {
    let mut writer = ArrayWriter::new(taken.piece);
    writer.most = taken.most;
    writer.when_full = taken.when_full;
    writer.flush_fails = taken.flush_fails;
    writer.closed = taken.closed;
    writer
}

/// Runs the command, and expects this outcome.
pub fn expect(rt: &impl Abort, alloc: Global, run: &Run<'_, '_>, outcome: &Outcome<'_>) {
    let ran = run.finish(alloc);
    expect_outcome(rt, run, &ran, outcome);
}

/// Expects that the run has ended so.
fn expect_outcome(rt: &impl Abort, run: &Run<'_, '_>, ran: &Ran, outcome: &Outcome<'_>) {
    assert_eq!(rt; ran.outcome(), *outcome, "{}, {}", run.name, run.number);
}

/// What is expected of bytes that are written.
#[derive(Clone, Copy)]
pub enum Bytes<'a> {
    /// They are these.
    Are(&'a [u8]),
    /// They are the first ones and then the second ones.
    Join(&'a [u8], &'a [u8]),
    /// They begin with these.
    BeginWith(&'a [u8]),
    /// They are the first of these.
    Begin(&'a [u8]),
    /// There is at least one.
    AtLeastOne,
    /// There are at most so many.
    AtMost(usize),
}

impl Bytes<'_> {
    /// Whether the bytes are expected.
    fn fit(&self, got: &[u8]) -> bool {
        match self {
            Bytes::Are(text) => got == *text,
            Bytes::Join(front, back) => is_joined(got, front, back),
            Bytes::BeginWith(text) => got.starts_with(text),
            Bytes::Begin(text) => text.starts_with(got),
            Bytes::AtLeastOne => !got.is_empty(),
            Bytes::AtMost(count) => got.len() <= *count,
        }
    }
}

/// Whether the bytes are the first ones and then the second ones.
fn is_joined(got: &[u8], front: &[u8], back: &[u8]) -> bool {
    got.starts_with(front) && &got[front.len().min(got.len())..] == back
}

/// What is expected of a run in part: what it writes, its status, and how often it reads and flushes the output.
#[derive(Clone, Copy)]
pub struct Parts<'a> {
    pub output: Bytes<'a>,
    pub message: Bytes<'a>,
    pub status: u8,
    pub reads: Option<usize>,
    pub flushes: Option<usize>,
}

/// No output, any message, status 2, nothing read and no flush.
pub const UNREAD: Parts<'static> = Parts {
    output: Bytes::Are(b""),
    message: Bytes::AtLeastOne,
    status: 2,
    reads: Some(0),
    flushes: Some(0),
};

impl Parts<'_> {
    /// Whether the run has ended as expected.
    fn fit(&self, ran: &Ran) -> bool {
        let found = ran.outcome();
        self.output.fit(found.output)
            && self.message.fit(found.message)
            && self.status == found.status
            && self.reads.unwrap_or(ran.reads) == ran.reads
            && self.flushes.unwrap_or(found.flushes) == found.flushes
    }
}

/// Runs the command, and expects this in part.
pub fn expect_parts(rt: &impl Abort, alloc: Global, run: &Run<'_, '_>, parts: &Parts<'_>) {
    let ran = run.finish(alloc);
    expect_ended(rt, run, &ran, parts);
}

/// Expects that the run has ended so.
fn expect_ended(rt: &impl Abort, run: &Run<'_, '_>, ran: &Ran, parts: &Parts<'_>) {
    assert!(rt;
        parts.fit(ran),
        "{}, {}: {:?}, {} reads",
        run.name,
        run.number,
        ran.outcome(),
        ran.reads
    );
}

/// Runs the command, and expects that it is refused with this message, and status 2, before anything is read.
pub fn expect_refused_unread(rt: &impl Abort, alloc: Global, run: &Run<'_, '_>, message: &[u8]) {
    let parts = Parts {
        message: Bytes::Are(message),
        ..UNREAD
    };
    expect_parts(rt, alloc, run, &parts);
}

/// The same for these words, over devices that move one byte per call.
pub fn expect_refused_words<'a>(
    rt: &impl Abort,
    alloc: Global,
    name: &'a str,
    words: &'a [&'a str],
    message: &[u8],
) {
    let run = Run {
        name,
        words,
        ..SINGLE_BYTES
    };
    expect_refused_unread(rt, alloc, &run, message);
}

/// Runs the command with an output that is full after `most` bytes, and expects that it stops there with this message.
pub fn expect_broken(
    rt: &impl Abort,
    alloc: Global,
    run: &Run<'_, '_>,
    most: usize,
    output: &[u8],
    message: &[u8],
) {
    expect_full(rt, alloc, run, most, WhenFull::Fails, output, message);
    expect_full(
        rt,
        alloc,
        run,
        most,
        WhenFull::TakesNothing,
        output,
        message,
    );
}

/// Runs the command with an output that is full after `most` bytes, where it does this, and expects that it stops there
/// with this message.
pub fn expect_full(
    rt: &impl Abort,
    alloc: Global,
    run: &Run<'_, '_>,
    most: usize,
    when_full: WhenFull,
    output: &[u8],
    message: &[u8],
) {
    let full = Run {
        number: most,
        output: Taken {
            most,
            when_full,
            ..run.output
        },
        ..*run
    };
    let outcome = Outcome {
        output: &output[..most.min(output.len())],
        message,
        status: 6,
        flushes: 0,
    };
    expect(rt, alloc, &full, &outcome);
}

/// Runs the command with an output whose flush fails, and expects the output and this message.
pub fn expect_unflushed(
    rt: &impl Abort,
    alloc: Global,
    run: &Run<'_, '_>,
    output: &[u8],
    message: &[u8],
) {
    let unflushed = Run {
        output: Taken {
            flush_fails: true,
            ..run.output
        },
        ..*run
    };
    let outcome = Outcome {
        output,
        message,
        status: 6,
        flushes: 1,
    };
    expect(rt, alloc, &unflushed, &outcome);
}

/// Runs the command with a reader whose read with this number fails, and expects that the text is refused as unreadable.
pub fn expect_unreadable(rt: &impl Abort, alloc: Global, run: &Run<'_, '_>, number: usize) {
    let unreadable = Run {
        number,
        failing_read: Some(number),
        ..*run
    };
    expect(rt, alloc, &unreadable, &UNREADABLE);
}
