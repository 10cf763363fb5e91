//! A stream of messages that may be muted.

use std::io;
use std::io::Write;

/// A stream of messages that drops what is written to it if it is muted.
#[derive(Drop)]
pub struct MutedStream<'a, E> {
    stream: &'a mut E,
    is_muted: bool,
}

impl<'a, E: Write> MutedStream<'a, E> {
    /// The stream, muted or not.
    pub fn new(stream: &'a mut E, is_muted: bool) -> MutedStream<'a, E> {
        MutedStream { stream, is_muted }
    }
}

impl<E: Write> Write for MutedStream<'_, E> {
    fn write(&mut self, buf: &[u8]) -> io::Result<usize> {
        if self.is_muted {
            return Ok(buf.len());
        }
        self.stream.write(buf)
    }

    /// Hands the whole on, so that a stream that writes line by line gets the end of a line with the line.
    fn write_all(&mut self, buf: &[u8]) -> io::Result<()> {
        if self.is_muted {
            return Ok(());
        }
        self.stream.write_all(buf)
    }

    fn flush(&mut self) -> io::Result<()> {
        if self.is_muted {
            return Ok(());
        }
        self.stream.flush()
    }
}
