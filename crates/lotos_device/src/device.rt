//! Devices: where bytes come from, and where they go.
//!
//! A device remembers whether one of its calls has failed. Contracts speak of the bytes that remain in a source and of
//! those written to a sink, if these are known. They are known for devices in memory. Files, terminals and the standard
//! streams report none, so there the contracts speak only of the numbers of bytes and of failures.
ghost use Rattle.std.specs.Prelude.{◌≡◌, IsTrue, false, true};
ghost use Rattle.std.specs.Io.KnownBytes.{Keeps};
ghost use Rattle.lotos_device.specs.DeviceContracts.{CountsGiven, Reads, Accepts, SetsFailed};
ghost use Rattle.lotos_device.specs.DeviceStates.{SinkState, SourceState};
ghost use Rattle.lotos_device.specs.WrappedDevices.{reader_failed, reader_given, sink_of, source_of, wrapped_reader, wrapped_writer, writer_failed};

use std::io::{ErrorKind, Read, Write};

/// A call of a device failed.
#[derive(Clone, Copy, Debug, PartialEq, Eq)]
pub struct DeviceFailed;

/// Where bytes come from.
pub trait Source {
    /// The bytes that remain, if they are known; how many it has given; and whether a call has failed.
    ghost state: { Self → SourceState };

    /// Moves bytes to the front of `into` and returns how many. Into a buffer that is not empty it moves none only at
    /// the end. A call that fails moves none.
    fn read(&mut self, into: &mut [u8]) -> Result<usize, DeviceFailed>
        ensures bytes { Reads (state self.old).remaining (state self.new).remaining result into.new }
        ensures given { CountsGiven (state self.old).given (state self.new).given result }
        ensures flag { SetsFailed (state self.old).has_failed (state self.new).has_failed result };

    /// Whether a call has failed. Once true, it stays true.
    fn failed(&self) -> bool
        ensures { result ≡ (state self.now).has_failed };
}

/// Where bytes go.
pub trait Sink {
    /// The bytes that were written so far, if they are known, and whether a call has failed.
    ghost state: { Self → SinkState };

    /// Takes bytes from the front of `bytes` and returns how many: at least one, if there is one. A call that fails
    /// takes none.
    fn write(&mut self, bytes: &[u8]) -> Result<usize, DeviceFailed>
        ensures bytes { Accepts (state self.old).written (state self.new).written result bytes.now }
        ensures flag { SetsFailed (state self.old).has_failed (state self.new).has_failed result };

    /// Passes on the bytes that were written.
    fn flush(&mut self) -> Result<(), DeviceFailed>
        ensures bytes { Keeps (state self.old).written (state self.new).written }
        ensures flag { SetsFailed (state self.old).has_failed (state self.new).has_failed result };

    /// Whether a call has failed. Once true, it stays true.
    fn failed(&self) -> bool
        ensures { result ≡ (state self.now).has_failed };

    /// Whether a call has failed because nobody reads any more what is written, as from a pipe that is closed.
    fn is_unread(&self) -> bool
        ensures { IsTrue result → (state self.now).has_failed ≡ true };
}

/// A source over a reader of std. It counts the bytes that it gives, and fails at a read into a buffer larger than what
/// can still be counted. No slice has 2^63 bytes, so this cannot happen before 2^63 bytes are given.
#[derive(Drop)]
pub struct FromRead<R> {
    inner: R,
    given: usize,
    failed: bool,
}

impl<R: Read> FromRead<R> {
    /// Wraps a reader in a source that has given nothing and has not failed.
    pub fn new(inner: R) -> FromRead<R>
        ensures inner { wrapped_reader result ≡ inner }
        ensures given { reader_given result ≡ 0 }
        ensures unfailed { reader_failed result ≡ false }
    {
        FromRead {
            inner,
            given: 0,
            failed: false,
        }
    }

    /// Returns the reader.
    pub fn into_inner(self) -> R
        ensures { result ≡ wrapped_reader self }
    {
        self.inner
    }
}

impl<R: Read> Source for FromRead<R> {
    ghost state = { source_of R.remaining };

    fn read(&mut self, into: &mut [u8]) -> Result<usize, DeviceFailed> {
        if into.len() > usize::MAX - self.given {
            self.failed = true;
            return Err(DeviceFailed);
        }
        match self.inner.read(into) {
            Ok(count) => {
                self.given += count;
                Ok(count)
            }
            Err(_) => {
                self.failed = true;
                Err(DeviceFailed)
            }
        }
    }

    fn failed(&self) -> bool {
        self.failed
    }
}

/// A sink over a writer of std. A write that takes no byte of a slice that is not empty is a failure.
#[derive(Drop)]
pub struct FromWrite<W> {
    inner: W,
    failed: bool,
    /// Whether the writer has said that nobody reads any more.
    unread: bool,
}

impl<W: Write> FromWrite<W> {
    /// Wraps a writer in a sink that has not failed.
    pub fn new(inner: W) -> FromWrite<W>
        ensures inner { wrapped_writer result ≡ inner }
        ensures unfailed { writer_failed result ≡ false }
    {
        FromWrite {
            inner,
            failed: false,
            unread: false,
        }
    }

    /// Returns the writer.
    pub fn into_inner(self) -> W
        ensures { result ≡ wrapped_writer self }
    {
        self.inner
    }
}

impl<W: Write> Sink for FromWrite<W> {
    ghost state = { sink_of W.contents };

    fn write(&mut self, bytes: &[u8]) -> Result<usize, DeviceFailed> {
        match self.inner.write(bytes) {
            Ok(count) if count > 0 || bytes.is_empty() => Ok(count),
            Ok(_) => {
                self.failed = true;
                Err(DeviceFailed)
            }
            Err(error) => {
                self.failed = true;
                self.unread |= error.kind() == ErrorKind::BrokenPipe;
                Err(DeviceFailed)
            }
        }
    }

    fn flush(&mut self) -> Result<(), DeviceFailed> {
        match self.inner.flush() {
            Ok(()) => Ok(()),
            Err(error) => {
                self.failed = true;
                self.unread |= error.kind() == ErrorKind::BrokenPipe;
                Err(DeviceFailed)
            }
        }
    }

    fn failed(&self) -> bool {
        self.failed
    }

    fn is_unread(&self) -> bool {
        self.failed && self.unread
    }
}
