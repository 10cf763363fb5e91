//! Complete runs over texts with processes and comments, and the faults of texts.

use super::expected_output::repeated;
use super::rows::{REFUSED, Row, expect_rows};
use super::runs::{Outcome, RUN, Run, expect};
use std::alloc::{AllocError, Global};
use std::process::Abort;

const WORDS: &[&str] = &["lotosseq", "search", "--depth", "1", "A"];

#[test]
fn processes_that_are_not_called_show_nothing(rt: HostRuntime) {
    let text =
        b"specification S [a] : noexit behaviour a; stop where process P : noexit := stop ||| P1 endproc process P1 : noexit := stop endproc endspec";
    expect_search(&rt, rt.alloc(), "processes", text, b"A\n", b"");
}

/// A search in a text that is refused.
const FAULT: Row = Row {
    words: "search --depth 1 A",
    ..REFUSED
};

#[rattlefmt::skip]
const FAULTS: &[Row] = &[
    Row { name: "a gate that is not declared beside a parallel expression",
        text: b"specification S [a] : noexit behaviour b; stop ||| stop endspec",
        message: b"lotosseq: 1:40: E21 gate B is not declared\n", ..FAULT },
    Row { name: "another functionality of a parallel expression",
        text: b"specification S [a] : exit behaviour a; stop ||| stop endspec",
        message: b"lotosseq: 1:15: E25 S is declared exit and is noexit\n", ..FAULT },
    Row { name: "a token too many after a parallel expression",
        text: b"specification S [a] : noexit behaviour stop ||| stop stop endspec",
        message: b"lotosseq: 1:54: E04 token is not expected\n", ..FAULT },
    Row { name: "an empty list of gates in a call, which is the mark of a choice",
        text: b"specification S [a] : noexit behaviour P[] endspec",
        message: b"lotosseq: 1:44: E04 token is not expected\n", ..FAULT },
    Row { name: "the opening of a comment, whose asterisk closes nothing", text: b"(*)",
        message: b"lotosseq: 1:1: E02 comment is not closed\n", ..FAULT },
    Row { name: "a comment that is not closed, on the second line",
        text: b"specification S [a] :\n noexit (* behaviour stop endspec",
        message: b"lotosseq: 2:9: E02 comment is not closed\n", ..FAULT },
    Row { name: "a comment alone", text: b"(**)", message: b"lotosseq: 1:5: E06 text ends too early\n", ..FAULT },
    Row { name: "a data type", text: b"type T is endtype",
        message: b"lotosseq: 1:1: E07 word of full LOTOS\n", ..FAULT },
    Row { name: "a data type after a parallel expression",
        text: b"specification S [a] : noexit behaviour stop ||| stop where\ntype T is endtype endspec",
        message: b"lotosseq: 2:1: E07 word of full LOTOS\n", ..FAULT },
];

#[test]
fn faults_of_texts(rt: HostRuntime) {
    expect_rows(&rt, rt.alloc(), FAULTS);
}

#[test]
fn comments_separate_tokens(rt: HostRuntime) {
    let text = b"specification(**)S [a] : noexit behaviour a; (* b; *) stop endspec";
    expect_search(&rt, rt.alloc(), "comments", text, b"A\n", b"");
}

/// Searches a text with so many prefixes, one inside the other.
fn expect_nested(
    rt: &impl Abort,
    alloc: Global,
    count: usize,
    output: &[u8],
    message: &[u8],
) -> Result<(), AllocError> {
    let text = repeated(
        alloc,
        b"specification S [a] : noexit behaviour ",
        b"a; ",
        count,
        b"stop endspec",
    )?;
    expect_search(rt, alloc, "prefixes", text.as_slice(), output, message);
    Ok(())
}

#[test]
fn prefixes_nest_so_deep_and_no_deeper(rt: HostRuntime) -> Result<(), AllocError> {
    expect_nested(&rt, rt.alloc(), 200, b"A\n", b"")?;
    let message = b"lotosseq: 1:641: E05 nesting is over 200\n";
    expect_nested(&rt, rt.alloc(), 201, b"", message)
}

/// Searches the text, and expects the output and the message; with a message also status 2 and no flush, without one
/// status 0 and one flush.
fn expect_search(
    rt: &impl Abort,
    alloc: Global,
    name: &str,
    text: &[u8],
    output: &[u8],
    message: &[u8],
) {
    let run = Run {
        name,
        words: WORDS,
        text,
        ..RUN
    };
    let outcome = Outcome {
        output,
        message,
        status: if message.is_empty() { 0 } else { 2 },
        flushes: usize::from(message.is_empty()),
    };
    expect(rt, alloc, &run, &outcome);
}
