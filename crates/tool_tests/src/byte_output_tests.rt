//! Bytes written to writers that take a few bytes per call, fail, or take nothing.

use super::memory_devices::{ArrayWriter, WhenFull};
use lotos_device::{DeviceFailed, FromWrite, Sink, write_bytes};
use std::process::Abort;

const LINE: &[u8] = b"A B exit\n";

/// Writes the line to the array, and expects this answer, and that the writer remembers a failure.
fn expect_line(
    rt: &impl Abort,
    name: &str,
    array: ArrayWriter,
    answer: Result<(), DeviceFailed>,
) -> ArrayWriter {
    let mut writer = FromWrite::new(array);
    let written = write_bytes(&mut writer, LINE);
    assert_eq!(rt; written, answer, "{name}");
    assert_eq!(rt; writer.failed(), answer.is_err(), "{name}");
    writer.into_inner()
}

/// Writes the line by pieces of this many bytes.
fn expect_whole(rt: &impl Abort, pieces: &str, piece: usize) {
    let array = expect_line(rt, pieces, ArrayWriter::new(piece), Ok(()));
    assert_eq!(rt; array.got(), LINE, "by {pieces}");
}

#[test]
fn writes_bytes_whole_in_any_pieces(rt: HostRuntime) {
    expect_whole(&rt, "single bytes", 1);
    expect_whole(&rt, "three bytes", 3);
    expect_whole(&rt, "all at once", 4096);
}

/// Writes the line to a writer that is full after so many bytes.
fn break_off(rt: &impl Abort, writer_that: &str, when_full: WhenFull, most: usize) {
    let mut array = ArrayWriter::new(2);
    array.most = most;
    array.when_full = when_full;
    let array = expect_line(rt, writer_that, array, Err(DeviceFailed));
    assert_eq!(rt;
        array.got(),
        &LINE[..most.min(9)],
        "{writer_that} after {most}"
    );
}

#[test]
fn a_writer_that_is_full_has_the_first_bytes(rt: HostRuntime) {
    for most in 0..LINE.len() {
        break_off(&rt, "fails", WhenFull::Fails, most);
        break_off(&rt, "takes nothing", WhenFull::TakesNothing, most);
    }
}
