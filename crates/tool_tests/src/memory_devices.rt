//! Readers and writers in memory that move a few bytes per call, count their calls, and fail on demand.
ghost use Rattle.std.specs.Prelude.{◌≡◌, ◌≤◌, Some, take};

use super::large_runs::Expected;
use lotos_device::{FromRead, FromWrite};
use lotos_tool::{Messages, run};
use std::alloc::Global;
use std::io;
use std::io::{Error, ErrorKind, Read, Write};

/// A reader of the bytes of a slice.
#[derive(Drop)]
pub struct SliceReader<'a> {
    /// The bytes that are left.
    pub rest: &'a [u8],
    /// The most bytes that a read moves; 0 means 1.
    pub piece: usize,
    /// The number of the read that fails, counted from 1.
    pub fails_at: Option<usize>,
    /// The number of reads so far.
    pub reads: usize,
}

impl<'a> SliceReader<'a> {
    /// A reader that has not been called, and that never fails.
    pub fn new(bytes: &'a [u8], piece: usize) -> SliceReader<'a> {
        SliceReader {
            rest: bytes,
            piece,
            fails_at: None,
            reads: 0,
        }
    }
}

impl Read for SliceReader<'_> {
    ghost remaining = { λ s. Some s.rest.now };

    fn read(&mut self, buf: &mut [u8]) -> io::Result<usize> {
        self.reads = self.reads.saturating_add(1);
        if self.fails_at == Some(self.reads) {
            return Err(Error::from(ErrorKind::Other));
        }
        let rest = self.rest;
        let count = self.piece.max(1).min(buf.len()).min(rest.len());
        buf[..count].copy_from_slice(&rest[..count]);
        self.rest = &rest[count..];
        Ok(count)
    }
}

/// A reader that returns one blank per read, and never ends.
#[derive(Drop)]
pub struct Blanks {
    /// The number of reads so far.
    pub reads: usize,
}

impl Read for Blanks {
    fn read(&mut self, buf: &mut [u8]) -> io::Result<usize> {
        self.reads = self.reads.saturating_add(1);
        match buf.first_mut() {
            Some(place) => {
                *place = b' ';
                Ok(1)
            }
            None => Ok(0),
        }
    }
}

const ROOM: usize = 16384;

/// What a full writer does with more bytes.
#[derive(Clone, Copy)]
pub enum WhenFull {
    Fails,
    TakesNothing,
}

/// A writer that stores the bytes that it takes.
#[derive(Drop)]
pub struct ArrayWriter {
    bytes: [u8; ROOM],
    len: usize,
    /// The most bytes that a write takes.
    pub piece: usize,
    /// The number of bytes after which it is full; it is full after 16384 in any case.
    pub most: usize,
    pub when_full: WhenFull,
    pub flush_fails: bool,
    /// Whether it fails because nobody reads any more, as a pipe does that is closed.
    pub closed: bool,
    /// The number of flushes so far.
    pub flushes: usize,
    ghost within: { len ≤ 16384 },
}

impl ArrayWriter {
    /// An empty writer that is full after 16384 bytes.
    pub fn new(piece: usize) -> ArrayWriter {
        ArrayWriter {
            bytes: [0; ROOM],
            len: 0,
            piece,
            most: ROOM,
            when_full: WhenFull::Fails,
            flush_fails: false,
            closed: false,
            flushes: 0,
        }
    }

    /// The error of a call that fails.
    fn fault(&self) -> Error {
        if self.closed {
            Error::from(ErrorKind::BrokenPipe)
        } else {
            Error::from(ErrorKind::Other)
        }
    }

    /// The bytes that were written so far.
    pub fn got(&self) -> &[u8]
        ensures { result.now ≡ take self.now.len self.now.bytes }
    {
        &self.bytes[..self.len]
    }
}

impl Write for ArrayWriter {
    ghost contents = { λ s. Some (take s.len s.bytes) };

    fn write(&mut self, buf: &[u8]) -> io::Result<usize> {
        let len = self.len;
        let room = self.most.min(ROOM).saturating_sub(len);
        if room == 0 && !buf.is_empty() {
            return match self.when_full {
                WhenFull::Fails => Err(self.fault()),
                WhenFull::TakesNothing => Ok(0),
            };
        }
        let count = buf.len().min(self.piece).min(room);
        self.bytes[len..len + count].copy_from_slice(&buf[..count]);
        self.len = len + count;
        Ok(count)
    }

    fn flush(&mut self) -> io::Result<()> {
        self.flushes = self.flushes.saturating_add(1);
        if self.flush_fails {
            return Err(self.fault());
        }
        Ok(())
    }
}

/// A writer that takes everything and compares it with expected lines of one length.
#[derive(Drop)]
pub struct Comparer {
    /// The expected lines.
    pub awaited: Expected,
    /// The length of a line in bytes, its line feed included; 0 means 1.
    pub length: usize,
    /// The number of bytes that were written so far.
    pub got: usize,
    /// The number of bytes so far that differ from the expected ones.
    pub others: usize,
    /// The number of bytes of the largest write so far.
    pub largest: usize,
}

impl Comparer {
    /// A writer to which nothing was written.
    pub fn new(awaited: Expected, length: usize) -> Comparer {
        Comparer {
            awaited,
            length,
            got: 0,
            others: 0,
            largest: 0,
        }
    }
}

impl Write for Comparer {
    fn write(&mut self, buf: &[u8]) -> io::Result<usize> {
        let length = self.length.max(1);
        for byte in buf {
            let expected = self.awaited.byte(self.got / length, self.got % length);
            if *byte != expected {
                self.others = self.others.saturating_add(1);
            }
            self.got = self.got.saturating_add(1);
        }
        self.largest = self.largest.max(buf.len());
        Ok(buf.len())
    }

    fn flush(&mut self) -> io::Result<()> {
        Ok(())
    }
}

/// Runs the command with these words on the devices, and returns the status and the devices.
pub fn run_on<R: Read, W: Write>(
    alloc: Global,
    words: &[&str],
    reader: R,
    out: W,
    err: ArrayWriter,
) -> (u8, R, W, ArrayWriter) {
    let messages = Messages {
        stream: err,
        terminal: false,
        keyboard: false,
    };
    run_with(alloc, words, reader, out, messages)
}

/// The same with messages to a terminal or to another stream.
pub fn run_with<R: Read, W: Write, E: Write>(
    alloc: Global,
    words: &[&str],
    reader: R,
    out: W,
    messages: Messages<E>,
) -> (u8, R, W, E) {
    let mut source = FromRead::new(reader);
    let mut sink = FromWrite::new(out);
    let mut messages = messages;
    let status = run(alloc, words, &mut source, &mut sink, &mut messages);
    (
        status,
        source.into_inner(),
        sink.into_inner(),
        messages.stream,
    )
}
