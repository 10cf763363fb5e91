//! Generated texts and words, and a writer that compares what it takes with expected bytes of any length.

use super::memory_devices::{ArrayWriter, SliceReader, run_on};
use super::runs::{Bytes, Parts, RUN, Run, expect_parts};
use std::alloc::{AllocError, Global};
use std::io;
use std::io::Write;
use std::process::Abort;

/// A writer that takes everything and compares it with expected bytes.
#[derive(Drop)]
pub struct ExpectedOutput<'a> {
    /// The expected bytes that were not written yet.
    pub rest: &'a [u8],
    /// Whether bytes were written that are not the expected ones.
    pub differs: bool,
}

impl<'a> ExpectedOutput<'a> {
    /// A writer to which nothing was written.
    pub fn new(expected: &'a [u8]) -> ExpectedOutput<'a> {
        ExpectedOutput {
            rest: expected,
            differs: false,
        }
    }

    /// Whether exactly the expected bytes were written.
    pub fn is_complete(&self) -> bool {
        self.rest.is_empty() && !self.differs
    }
}

impl Write for ExpectedOutput<'_> {
    fn write(&mut self, buf: &[u8]) -> io::Result<usize> {
        let rest = self.rest;
        let count = buf.len().min(rest.len());
        if &rest[..count] != buf {
            self.differs = true;
        }
        self.rest = &rest[count..];
        Ok(buf.len())
    }

    fn flush(&mut self) -> io::Result<()> {
        Ok(())
    }
}

/// Runs the words on the text, and expects this output, no message and status 0.
pub fn expect_output(rt: &impl Abort, alloc: Global, words: &[&str], text: &[u8], output: &[u8]) {
    let reader = SliceReader::new(text, 4096);
    let out = ExpectedOutput::new(output);
    let err = ArrayWriter::new(4096);
    let (status, _reader, out, err) = run_on(alloc, words, reader, out, err);
    assert_eq!(rt; err.got(), b"".as_slice());
    assert!(rt; out.is_complete());
    assert_eq!(rt; status, 0);
}

/// Runs the words on the text, and expects no output, this message and this status.
pub fn expect_message(
    rt: &impl Abort,
    alloc: Global,
    words: &[&str],
    text: &[u8],
    message: &[u8],
    status: u8,
) {
    let parts = Parts {
        output: Bytes::Are(b""),
        message: Bytes::Are(message),
        status,
        reads: None,
        flushes: None,
    };
    let run = Run { words, text, ..RUN };
    expect_parts(rt, alloc, &run, &parts);
}

/// The bytes `front`, then `part` so many times, then `back`.
pub fn repeated(
    alloc: Global,
    front: &[u8],
    part: &[u8],
    count: usize,
    back: &[u8],
) -> Result<Vec<u8>, AllocError> {
    let mut bytes = Vec::from_slice(alloc, front)?;
    for _part in 0..count {
        bytes.extend_from_slice(part)?;
    }
    bytes.extend_from_slice(back)?;
    Ok(bytes)
}

/// The words `front`, then `part` so many times.
pub fn repeated_words(
    alloc: Global,
    front: &[&'static str],
    part: &[&'static str],
    count: usize,
) -> Result<Vec<&'static str>, AllocError> {
    let mut words = Vec::from_slice(alloc, front)?;
    for _part in 0..count {
        words.extend_from_slice(part)?;
    }
    Ok(words)
}
