//! Texts of the greatest length, one byte longer, and without an end.

use super::super::expected_output::repeated;
use super::super::memory_devices::{ArrayWriter, Blanks, run_on};
use super::super::runs::{Bytes, Parts, RUN, Run, UNREAD, expect_parts, expect_unreadable};
use super::{Answer, CHECK, NOTHING, SEARCH, expect, expect_refused};
use lotos_text::TEXT_LIMIT;
use std::alloc::{AllocError, Global};
use std::process::Abort;

const TEXT: &[u8] = b"specification S [a] : noexit behaviour a; stop endspec";

const TOO_LONG: &[u8] = b"lotosseq: E03 text is longer than 1048576 bytes\n";

const NO_TOKEN: &[u8] = b"lotosseq: 1:1: E01 byte begins no token\n";

/// The text, padded with the byte to this length in bytes.
fn filled(alloc: Global, text: &[u8], byte: u8, length: usize) -> Result<Vec<u8>, AllocError> {
    repeated(
        alloc,
        text,
        &[byte],
        length.saturating_sub(text.len()),
        NOTHING,
    )
}

/// Expects that the words accept the text of the greatest length.
fn expect_longest(
    rt: &impl Abort,
    alloc: Global,
    words: &[&str],
    output: &[u8],
) -> Result<(), AllocError> {
    let longest = filled(alloc, TEXT, b' ', TEXT_LIMIT)?;
    let answer = Answer {
        output,
        message: NOTHING,
        status: 0,
    };
    expect(
        rt,
        alloc,
        "the longest text",
        words,
        longest.as_slice(),
        &answer,
    );
    Ok(())
}

/// Expects that the text, padded with the byte to this length, is refused with the message.
fn expect_filled(
    rt: &impl Abort,
    alloc: Global,
    text: &[u8],
    byte: u8,
    length: usize,
    message: &[u8],
) -> Result<(), AllocError> {
    let text = filled(alloc, text, byte, length)?;
    expect_refused(rt, alloc, "a text of this length", text.as_slice(), message);
    Ok(())
}

#[test]
fn blanks_after_a_text_count(rt: HostRuntime) -> Result<(), AllocError> {
    expect_longest(&rt, rt.alloc(), SEARCH, b"A\n")?;
    expect_longest(&rt, rt.alloc(), CHECK, NOTHING)?;
    expect_filled(&rt, rt.alloc(), TEXT, b'\n', TEXT_LIMIT + 1, TOO_LONG)
}

#[test]
fn the_length_is_refused_before_any_byte(rt: HostRuntime) -> Result<(), AllocError> {
    expect_filled(&rt, rt.alloc(), NOTHING, 255, 1, NO_TOKEN)?;
    expect_filled(&rt, rt.alloc(), NOTHING, 255, TEXT_LIMIT, NO_TOKEN)?;
    expect_filled(&rt, rt.alloc(), NOTHING, 255, TEXT_LIMIT + 1, TOO_LONG)
}

/// Runs the words on a text without an end.
fn expect_endless(rt: &impl Abort, alloc: Global, words: &[&str]) {
    let out = ArrayWriter::new(4096);
    let err = ArrayWriter::new(4096);
    let (status, reader, out, err) = run_on(alloc, words, Blanks { reads: 0 }, out, err);
    assert_eq!(rt; err.got(), TOO_LONG);
    assert_eq!(rt; status, 2);
    assert_eq!(rt; reader.reads, 1_048_577);
    assert!(rt; out.got().is_empty());
    assert_eq!(rt; out.flushes, 0);
}

#[test]
fn an_endless_text_is_refused_after_one_byte_too_many(rt: HostRuntime) {
    expect_endless(&rt, rt.alloc(), SEARCH);
    expect_endless(&rt, rt.alloc(), CHECK);
}

/// Reads the text byte by byte with a read that fails, and expects the message, and that no byte more is read.
fn expect_last_read(rt: &impl Abort, alloc: Global, text: &[u8], number: usize, message: &[u8]) {
    let run = Run {
        name: "a read that fails",
        number,
        words: SEARCH,
        text,
        piece: 1,
        failing_read: Some(number),
        ..RUN
    };
    let parts = Parts {
        message: Bytes::Are(message),
        reads: Some(1_048_577),
        ..UNREAD
    };
    expect_parts(rt, alloc, &run, &parts);
}

#[test]
fn no_byte_is_read_after_one_too_many(rt: HostRuntime) -> Result<(), AllocError> {
    let text = filled(rt.alloc(), TEXT, b' ', TEXT_LIMIT + 2)?;
    let text = text.as_slice();
    let unread = b"lotosseq: E47 input cannot be read\n";
    expect_last_read(&rt, rt.alloc(), text, 1_048_577, unread);
    expect_last_read(&rt, rt.alloc(), text, 1_048_578, TOO_LONG);
    Ok(())
}

#[test]
fn a_read_that_fails_is_named_before_any_fault_of_the_text(rt: HostRuntime) {
    let run = Run {
        name: "a read that fails",
        words: SEARCH,
        text: b"\xff specification S (* open",
        piece: 1,
        ..RUN
    };
    for number in 1usize..=26 {
        expect_unreadable(&rt, rt.alloc(), &run, number);
    }
}
