//! The wrappers of std's readers and writers, which remember a failure.

use super::memory_devices::{ArrayWriter, SliceReader, WhenFull};
use lotos_device::{DeviceFailed, FromRead, FromWrite, Sink, Source};
use std::process::Abort;

/// Each read of a source: what it is, its answer, and whether a read has failed so far.
const READS: &[(&str, Result<usize, DeviceFailed>, bool)] = &[
    ("the first read", Ok(1), false),
    ("the read that fails", Err(DeviceFailed), true),
    ("the read after it", Ok(1), true),
    ("the read at the end", Ok(0), true),
];

/// Reads once, and expects this answer, and whether a read has failed so far.
fn expect_read(
    rt: &impl Abort,
    source: &mut FromRead<SliceReader<'_>>,
    step: &str,
    answer: Result<usize, DeviceFailed>,
    failed: bool,
) {
    let mut buffer = [0; 8];
    let found = source.read(&mut buffer);
    assert_eq!(rt; found, answer, "{step}");
    assert_eq!(rt; source.failed(), failed, "{step}");
}

#[test]
fn a_source_remembers_a_failed_read(rt: HostRuntime) {
    let mut bytes = SliceReader::new(b"ab", 1);
    bytes.fails_at = Some(2);
    let mut source = FromRead::new(bytes);
    for (step, answer, failed) in READS {
        expect_read(&rt, &mut source, *step, *answer, *failed);
    }
    assert_eq!(rt; source.into_inner().reads, 4);
}

/// Each write to a sink that takes three bytes: what it is, the bytes, its answer, and whether a write has failed so far.
const WRITES: &[(&str, &[u8], Result<usize, DeviceFailed>, bool)] = &[
    ("two bytes of three", b"abc", Ok(2), false),
    ("the last that it takes", b"c", Ok(1), false),
    ("no byte", b"", Ok(0), false),
    ("one byte too many", b"d", Err(DeviceFailed), true),
    ("no byte after that", b"", Ok(0), true),
];

/// Writes once, and expects this answer, and whether a write has failed so far.
fn expect_write(
    rt: &impl Abort,
    sink: &mut FromWrite<ArrayWriter>,
    step: &str,
    bytes: &[u8],
    answer: Result<usize, DeviceFailed>,
    failed: bool,
) {
    let found = sink.write(bytes);
    assert_eq!(rt; found, answer, "{step}");
    assert_eq!(rt; sink.failed(), failed, "{step}");
}

#[test]
fn a_sink_remembers_a_failed_write(rt: HostRuntime) {
    let mut array = ArrayWriter::new(2);
    array.most = 3;
    let mut sink = FromWrite::new(array);
    for (step, bytes, answer, failed) in WRITES {
        expect_write(&rt, &mut sink, *step, *bytes, *answer, *failed);
        assert!(rt; !sink.is_unread(), "{step}");
    }
    assert_eq!(rt; sink.into_inner().got(), b"abc".as_slice());
}

/// Each write to a sink that nobody reads any more after one byte: what it is, the bytes, its answer, and whether the sink
/// knows that nobody reads.
const CLOSED_WRITES: &[(&str, &[u8], Result<usize, DeviceFailed>, bool)] = &[
    ("the byte that it takes", b"ab", Ok(1), false),
    ("one byte too many", b"b", Err(DeviceFailed), true),
    ("no byte after that", b"", Ok(0), true),
];

#[test]
fn a_sink_knows_that_nobody_reads(rt: HostRuntime) {
    let mut array = ArrayWriter::new(2);
    array.most = 1;
    array.closed = true;
    let mut sink = FromWrite::new(array);
    assert!(rt; !sink.is_unread());
    for (step, bytes, answer, unread) in CLOSED_WRITES {
        expect_write(&rt, &mut sink, *step, *bytes, *answer, *unread);
        assert_eq!(rt; sink.is_unread(), *unread, "{step}");
    }
    assert_eq!(rt; sink.into_inner().got(), b"a".as_slice());
}

/// A writer that takes nothing does not say why.
#[test]
fn a_sink_that_takes_nothing_may_be_read(rt: HostRuntime) {
    let mut array = ArrayWriter::new(2);
    array.most = 0;
    array.when_full = WhenFull::TakesNothing;
    array.closed = true;
    let mut sink = FromWrite::new(array);
    expect_write(&rt, &mut sink, "a byte", b"a", Err(DeviceFailed), true);
    assert!(rt; !sink.is_unread());
}

/// Flushes once a writer that is closed or not, and expects this answer, that the sink remembers it, and whether it knows
/// that nobody reads.
fn expect_flush(
    rt: &impl Abort,
    fails: bool,
    closed: bool,
    answer: Result<(), DeviceFailed>,
    unread: bool,
) {
    let mut array = ArrayWriter::new(1);
    array.flush_fails = fails;
    array.closed = closed;
    let mut sink = FromWrite::new(array);
    let found = sink.flush();
    assert_eq!(rt; found, answer);
    assert_eq!(rt; sink.failed(), fails);
    assert_eq!(rt; sink.is_unread(), unread);
    assert_eq!(rt; sink.into_inner().flushes, 1);
}

#[test]
fn a_sink_remembers_a_failed_flush(rt: HostRuntime) {
    expect_flush(&rt, false, false, Ok(()), false);
    expect_flush(&rt, true, false, Err(DeviceFailed), false);
    expect_flush(&rt, true, true, Err(DeviceFailed), true);
}
