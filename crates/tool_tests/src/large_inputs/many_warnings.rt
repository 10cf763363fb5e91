//! Specifications with more warnings than are written.

use super::super::expected_output::ExpectedOutput;
use super::super::memory_devices::{ArrayWriter, SliceReader, run_with};
use lotos_report::Messages;
use std::alloc::{AllocError, Global};
use std::process::Abort;

const WARN: &[&str] = &["lotosseq", "check", "--warn"];

/// A specification that does not use its gates, named `A1`, `A2` and so on, each of which is on the line after its
/// number.
fn unused_gates(alloc: Global, count: usize) -> Result<String, AllocError> {
    let mut text = String::from_str(alloc, "specification S [")?;
    for number in 1..=count {
        if number > 1 {
            text.push_str(",")?;
        }
        text.push_str(format!(in alloc; "\na{number}")?.as_str())?;
    }
    text.push_str("] : noexit behaviour stop endspec")?;
    Ok(text)
}

/// The warnings about the first of these gates, and then the last line.
fn lines(alloc: Global, count: usize, last: &str) -> Result<String, AllocError> {
    let mut lines = String::new(alloc);
    for before in 0..count {
        let number = before + 1;
        let line = before.saturating_add(2);
        lines.push_str(format!(in alloc;
            "lotosseq: {line}:1: warning: gate A{number} of S is not used\n"
        )?.as_str())?;
    }
    lines.push_str(last)?;
    Ok(lines)
}

/// How many gates, how many warnings are written, and the last line.
const ROWS: &[(usize, usize, &str)] = &[
    (1000, 1000, ""),
    (1001, 1000, "1 more warning is not written.\n"),
    (1002, 1000, "2 more warnings are not written.\n"),
    (4214, 1000, "3214 more warnings are not written.\n"),
];

/// Runs the words on the text, and expects no output, this message and status 0.
fn expect_warnings(rt: &impl Abort, alloc: Global, text: &[u8], message: &[u8]) {
    let reader = SliceReader::new(text, 4096);
    let out = ArrayWriter::new(4096);
    let messages = Messages {
        stream: ExpectedOutput::new(message),
        terminal: false,
        keyboard: false,
    };
    let (status, _reader, out, err) = run_with(alloc, WARN, reader, out, messages);
    assert_eq!(rt; out.got(), b"".as_slice());
    assert!(rt; err.is_complete());
    assert_eq!(rt; status, 0);
}

fn expect_row(
    rt: &impl Abort,
    alloc: Global,
    gates: usize,
    written: usize,
    last: &str,
) -> Result<(), AllocError> {
    let text = unused_gates(alloc, gates)?;
    let message = lines(alloc, written, last)?;
    expect_warnings(rt, alloc, text.as_bytes(), message.as_bytes());
    Ok(())
}

#[test]
fn at_most_a_thousand_warnings(rt: HostRuntime) -> Result<(), AllocError> {
    for (gates, written, last) in ROWS {
        expect_row(&rt, rt.alloc(), *gates, *written, *last)?;
    }
    Ok(())
}
