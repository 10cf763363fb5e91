//! Runs with many lines, with a line of many labels, and with a line of one long label.

use super::expected_output::{repeated, repeated_words};
use super::memory_devices::{ArrayWriter, Comparer, SliceReader, run_on};
use std::alloc::{AllocError, Global};
use std::process::Abort;

/// The lines that a run must write.
#[derive(Clone, Copy, Debug)]
pub enum Expected {
    /// All sequences of twelve labels `A` or `B`, ascending.
    TwoGates,
    /// A sequence of 255 labels `A`.
    OneGate,
    /// One label with the long name.
    LongName,
}

impl Expected {
    /// The byte at an index of the line with this number, counted from 0.
    pub fn byte(self, line: usize, place: usize) -> u8 {
        match self {
            Expected::TwoGates => two_gates(line, place),
            Expected::OneGate => one_gate(place),
            Expected::LongName => long_name(place),
        }
    }
}

/// The byte at an index of a line of twelve labels `A` or `B`. The lines ascend, and the first has the number 0.
fn two_gates(line: usize, place: usize) -> u8 {
    if place == 23 {
        return b'\n';
    }
    if place % 2 == 1 {
        return b' ';
    }
    let mut half = 2048usize;
    for _label in 0..place / 2 {
        half /= 2;
    }
    if half > 0 && line / half % 2 == 1 {
        b'B'
    } else {
        b'A'
    }
}

/// What is expected of a run with long output: its lines, the length of each, and the number of all bytes.
#[derive(Clone, Copy)]
struct Lines {
    expected: Expected,
    length: usize,
    bytes: usize,
}

/// Runs the words on the text, and expects these lines, no message and status 0.
fn expect_lines(rt: &impl Abort, alloc: Global, words: &[&str], text: &[u8], lines: &Lines) {
    let reader = SliceReader::new(text, 4096);
    let out = Comparer::new(lines.expected, lines.length);
    let err = ArrayWriter::new(4096);
    let (status, _reader, out, err) = run_on(alloc, words, reader, out, err);
    assert!(rt; err.got().is_empty());
    assert_eq!(rt; status, 0);
    expect_got(rt, &out, lines);
}

/// Expects that these lines were written, each at once.
fn expect_got(rt: &impl Abort, out: &Comparer, lines: &Lines) {
    assert_eq!(rt; out.others, 0);
    assert_eq!(rt; out.got, lines.bytes);
    assert_eq!(rt; out.largest, lines.length);
}

#[test]
fn all_lines_of_twelve_labels(rt: HostRuntime) {
    let text: &[u8] =
        b"specification S [a,b] : noexit behaviour P[a,b] where process P [x,y] : noexit := x; P[x,y] [] y; P[x,y] endproc endspec";
    let words: &[&str] = &[
        "lotosseq", "search", "--depth", "12", "<any>", "<any>", "<any>", "<any>", "<any>",
        "<any>", "<any>", "<any>", "<any>", "<any>", "<any>", "<any>",
    ];
    let lines = Lines {
        expected: Expected::TwoGates,
        length: 24,
        bytes: 98_304,
    };
    expect_lines(&rt, rt.alloc(), words, text, &lines);
}

/// The byte at an index of a line of labels `A`.
fn one_gate(place: usize) -> u8 {
    if place == 509 {
        b'\n'
    } else if place % 2 == 1 {
        b' '
    } else {
        b'A'
    }
}

#[test]
fn a_line_of_255_labels(rt: HostRuntime) -> Result<(), AllocError> {
    let text: &[u8] =
        b"specification S [a] : noexit behaviour P[a] where process P [x] : noexit := x; P[x] endproc endspec";
    let front = ["lotosseq", "search", "--depth", "255"];
    let words = repeated_words(rt.alloc(), front.as_slice(), &["A"], 255)?;
    let lines = Lines {
        expected: Expected::OneGate,
        length: 510,
        bytes: 510,
    };
    expect_lines(&rt, rt.alloc(), words.as_slice(), text, &lines);
    Ok(())
}

/// The length of the gate's name, in bytes.
const LONG: usize = 5000;

/// The byte at an index of a line of one label with the long name.
fn long_name(place: usize) -> u8 {
    if place == LONG { b'\n' } else { b'A' }
}

/// A specification that does one gate with the long name.
fn long_gate(alloc: Global) -> Result<Vec<u8>, AllocError> {
    let gates = repeated(
        alloc,
        b"specification S [",
        b"a",
        LONG,
        b"] : noexit behaviour ",
    )?;
    repeated(alloc, gates.as_slice(), b"a", LONG, b"; stop endspec")
}

#[test]
fn a_line_that_is_longer_than_a_page(rt: HostRuntime) -> Result<(), AllocError> {
    let text = long_gate(rt.alloc())?;
    let words: &[&str] = &["lotosseq", "search", "--depth", "1", "<any>"];
    let lines = Lines {
        expected: Expected::LongName,
        length: LONG + 1,
        bytes: LONG + 1,
    };
    expect_lines(&rt, rt.alloc(), words, text.as_slice(), &lines);
    Ok(())
}
