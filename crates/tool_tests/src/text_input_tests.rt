//! Texts from readers that return a few bytes per call, fail, or never end.

use super::memory_devices::{Blanks, SliceReader};
use lotos_device::{FromRead, ReadFault, Source, read_text};
use lotos_text::TEXT_LIMIT;
use std::alloc::Global;
use std::process::Abort;
use std::test::Fail;

/// Reads the text by pieces of this many bytes, and expects it whole.
fn expect_whole(
    rt: &impl Abort,
    alloc: Global,
    text: &[u8],
    pieces: &str,
    piece: usize,
) -> Result<(), Fail> {
    let mut reader = FromRead::new(SliceReader::new(text, piece));
    let read = read_text(alloc, &mut reader, TEXT_LIMIT)
        .ok()
        .ok_or("a fault")?;
    assert_eq!(rt; read.as_slice(), text, "by {pieces}");
    assert!(rt; !reader.failed(), "by {pieces}");
    Ok(())
}

#[test]
fn reads_a_text_whole_from_any_pieces(rt: HostRuntime) -> Result<(), Fail> {
    let text: &[u8] = b"specification S: noexit behaviour stop endspec";
    expect_whole(&rt, rt.alloc(), text, "single bytes", 1)?;
    expect_whole(&rt, rt.alloc(), text, "three bytes", 3)?;
    expect_whole(&rt, rt.alloc(), text, "all at once", 4096)
}

/// Reads a text within a limit, and expects this fault, and that the source remembers a failure.
fn expect_fault<'a>(
    rt: &impl Abort,
    alloc: Global,
    name: &str,
    bytes: SliceReader<'a>,
    limit: usize,
    fault: Option<ReadFault>,
) -> SliceReader<'a> {
    let fails = bytes.fails_at.is_some();
    let mut reader = FromRead::new(bytes);
    let found = read_text(alloc, &mut reader, limit).err();
    assert_eq!(rt; found, fault, "{name}");
    assert_eq!(rt; reader.failed(), fails, "{name}");
    reader.into_inner()
}

/// The read with this number fails.
fn expect_device_fault(rt: &impl Abort, alloc: Global, number: usize) {
    let mut bytes = SliceReader::new(b"stop", 1);
    bytes.fails_at = Some(number);
    let device = Some(ReadFault::Device);
    let bytes = expect_fault(rt, alloc, "a failed read", bytes, TEXT_LIMIT, device);
    assert_eq!(rt; bytes.reads, number);
}

#[test]
fn a_failed_read_is_a_fault_of_the_device(rt: HostRuntime) {
    for number in 1usize..=5 {
        expect_device_fault(&rt, rt.alloc(), number);
    }
}

/// Reads a text of so many bytes within a limit, and expects that all of them are read.
fn expect_length(
    rt: &impl Abort,
    alloc: Global,
    text: &str,
    length: usize,
    limit: usize,
    fault: Option<ReadFault>,
) -> Result<(), Fail> {
    let bytes = vec![in alloc; b' '; length]?;
    let reader = SliceReader::new(&bytes, 4096);
    let read = expect_fault(rt, alloc, text, reader, limit, fault);
    assert!(rt; read.rest.is_empty(), "at {text}");
    Ok(())
}

/// What is read, how many bytes the text has, the limit, and the fault.
const LENGTHS: &[(&str, usize, usize, Option<ReadFault>)] = &[
    ("the longest text", TEXT_LIMIT, TEXT_LIMIT, None),
    (
        "one byte more",
        TEXT_LIMIT + 1,
        TEXT_LIMIT,
        Some(ReadFault::TooLong),
    ),
    ("no byte, the limit 0", 0, 0, None),
    ("one byte, the limit 0", 1, 0, Some(ReadFault::TooLong)),
    ("the largest limit", 5_000, usize::MAX, None),
];

#[test]
fn a_text_may_have_as_many_bytes_as_the_limit_and_no_more(rt: HostRuntime) -> Result<(), Fail> {
    for (text, length, limit, fault) in LENGTHS {
        expect_length(&rt, rt.alloc(), text, *length, *limit, *fault)?;
    }
    Ok(())
}

#[test]
fn an_endless_text_is_given_up_after_one_byte_too_many(rt: HostRuntime) {
    let mut reader = FromRead::new(Blanks { reads: 0 });
    let found = read_text(rt.alloc(), &mut reader, TEXT_LIMIT).err();
    assert_eq!(rt; found, Some(ReadFault::TooLong));
    assert_eq!(rt; reader.into_inner().reads, 1_048_577);
}
