//! Bytes that are not ASCII or begin no token, in texts, in comments, in patterns and in marks.

use super::super::expected_output::repeated;
use super::super::runs::expect_refused_words;
use super::{Answer, NOTHING, SEARCH, expect, expect_refused};
use std::alloc::{AllocError, Global};
use std::process::Abort;

/// The message for a text of one byte.
fn refusal(byte: u8) -> &'static [u8] {
    match byte {
        b'\n' => b"lotosseq: 2:1: E06 text ends too early\n",
        9..=13 | b' ' => b"lotosseq: 1:2: E06 text ends too early\n",
        b'A'..=b'Z' | b'a'..=b'z' => b"lotosseq: 1:1: E04 token is not expected\n",
        b';' | b':' | b',' | b'(' | b')' | b'[' | b']' | b'|' => {
            b"lotosseq: 1:1: E04 token is not expected\n"
        }
        _ => b"lotosseq: 1:1: E01 byte begins no token\n",
    }
}

#[test]
fn each_byte_alone_is_refused(rt: HostRuntime) {
    for byte in 0u8..=255 {
        let text = [byte];
        expect_refused(&rt, rt.alloc(), "a byte", text.as_slice(), refusal(byte));
    }
}

#[test]
fn each_byte_may_stand_in_a_comment(rt: HostRuntime) -> Result<(), AllocError> {
    let answer = Answer {
        output: b"A\n",
        message: NOTHING,
        status: 0,
    };
    for byte in 0u8..=255 {
        let text = around(
            rt.alloc(),
            b"specification S [a] : noexit behaviour a(*",
            byte,
            b"*); stop endspec",
        )?;
        expect(
            &rt,
            rt.alloc(),
            "a byte in a comment",
            SEARCH,
            text.as_slice(),
            &answer,
        );
    }
    Ok(())
}

/// The byte between two parts of a text.
fn around(alloc: Global, front: &[u8], byte: u8, back: &[u8]) -> Result<Vec<u8>, AllocError> {
    repeated(alloc, front, &[byte], 1, back)
}

#[test]
fn bytes_that_are_no_ascii_begin_no_token(rt: HostRuntime) -> Result<(), AllocError> {
    for byte in 128u8..=255 {
        let text = around(
            rt.alloc(),
            b"specification S [a] : noexit behaviour a;",
            byte,
            b" stop endspec",
        )?;
        expect_refused(
            &rt,
            rt.alloc(),
            "a byte between tokens",
            text.as_slice(),
            b"lotosseq: 1:42: E01 byte begins no token\n",
        );
    }
    Ok(())
}

/// Words with characters that are not ASCII, some of which have a case variant in ASCII, and one with a zero byte.
const FOREIGN_NAMES: &[&str] = &[
    "\u{e4}",
    "A\u{e9}",
    "\u{131}",
    "\u{130}",
    "\u{212a}it",
    "\u{17f}top",
    "\u{ff21}",
    "A\u{a0}",
    "\u{feff}A",
    "<any\u{301}>",
    "\u{ff1c}any\u{ff1e}",
    "A\0",
];

/// Expects that the name is no word of a pattern.
fn expect_no_word(rt: &impl Abort, alloc: Global, name: &'static str) {
    let words = ["lotosseq", "search", "--depth", "1", name];
    expect_refused_words(rt, alloc, name, words.as_slice(), NO_WORD);
    let words = ["lotosseq", "search", "--depth", "1", "--strong", name];
    expect_refused_words(rt, alloc, name, words.as_slice(), NO_WORD);
}

const NO_WORD: &[u8] = b"lotosseq: E41 word 1 is neither a label nor an element\n";

/// Expects that the name is no label after the element.
fn expect_no_label(rt: &impl Abort, alloc: Global, element: &'static str, name: &'static str) {
    let words = ["lotosseq", "search", "--depth", "1", element, name];
    expect_refused_words(
        rt,
        alloc,
        name,
        words.as_slice(),
        b"lotosseq: E42 word 1 needs a label or <deadlock> after it\n",
    );
}

#[test]
fn letters_that_are_no_ascii_are_no_words_of_a_pattern(rt: HostRuntime) {
    for name in FOREIGN_NAMES {
        expect_no_word(&rt, rt.alloc(), *name);
        expect_no_label(&rt, rt.alloc(), "<until>", *name);
        expect_no_label(&rt, rt.alloc(), "<UNTIL>", *name);
    }
}

#[test]
fn letters_that_are_no_ascii_are_no_lines_of_a_listing(rt: HostRuntime) {
    for name in FOREIGN_NAMES {
        let words = ["lotosseq", "search", "--depth", "1", "--after", *name, "A"];
        expect_refused_words(
            &rt,
            rt.alloc(),
            *name,
            words.as_slice(),
            b"lotosseq: E46 mark is no line of a listing\n",
        );
    }
}
