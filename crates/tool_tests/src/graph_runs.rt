//! Complete runs of `graph`: the output, the message, and the status.

use super::rows::{REFUSED, ROW, Row, expect_rows_in_pieces};
use super::runs::{RUN, Run, SINGLE, Taken, WHOLE, expect_broken, expect_unreadable};
use super::worked_texts::{
    BRANCHES, BUFFER, DELAYED, DELAYED_OR_B, GROWING, LINK, MEETING, ONE_GATE, SERVER,
    SHORT_OR_LONGER, SILENT, TURNS, UNDECLARED, VANISHING,
};

/// The automaton of [`BUFFER`].
const FULL_OR_EMPTY: &[u8] = b"des (0, 2, 2)\n(0, \"A\", 1)\n(1, \"B\", 0)\n";

/// The automaton of [`LINK`].
const DELIVERIES: &[u8] =
    b"des (0, 8, 5)\n(0, \"PUT\", 1)\n(1, \"GET\", 2)\n(2, \"GET\", 3)\n(2, \"PUT\", 1)\n(3, \"GET\", 4)\n(3, \"PUT\", 2)\n(4, \"GET\", 4)\n(4, \"PUT\", 3)\n";

/// `a`, and then `b` or `c`, between which `a` chooses, or an internal step.
const CHOSEN: &[u8] =
    b"specification S [a,b,c] : noexit behaviour a; b; stop [] a; c; stop endspec";

const OPEN: &[u8] =
    b"specification S [a,b,c] : noexit behaviour i; a; (b; stop [] c; stop) endspec";

/// `b`, at once after `a` and after `c` perhaps after an internal step: the two are sets of their own.
const MERGED: &[u8] =
    b"specification S [a,b,c] : noexit behaviour a; b; stop [] c; (i; b; stop [] i; b; i; stop) endspec";

/// Ten times `a`.
const TEN: &[u8] =
    b"specification S [a] : noexit behaviour a; a; a; a; a; a; a; a; a; a; stop endspec";

#[rattlefmt::skip]
const AUTOMATA: &[Row] = &[
    Row { name: "messages that are delivered again and again", text: LINK, words: "graph",
        output: DELIVERIES, ..ROW },
    Row { name: "a buffer", text: BUFFER, words: "graph", output: FULL_OR_EMPTY, ..ROW },
    Row { name: "hidden steps that come back, and some without end", text: VANISHING, words: "graph",
        output: b"des (0, 3, 3)\n(0, \"A\", 1)\n(1, \"A\", 1)\n(1, \"B\", 2)\n", ..ROW },
    Row { name: "a label after an internal step and one without", text: SERVER, words: "graph",
        output: b"des (0, 3, 2)\n(0, \"REQ\", 1)\n(1, \"NAK\", 0)\n(1, \"RSP\", 0)\n", ..ROW },
    Row { name: "termination that enables, and termination", text: MEETING, words: "graph",
        output: b"des (0, 4, 5)\n(0, \"A\", 1)\n(1, \"B\", 2)\n(2, \"C\", 3)\n(3, \"exit\", 4)\n", ..ROW },
    Row { name: "a label that leads to two terms, one of which goes on", text: BRANCHES, words: "graph",
        output: b"des (0, 3, 3)\n(0, \"A\", 1)\n(0, \"B\", 2)\n(2, \"A\", 1)\n", ..ROW },
    Row { name: "a choice at once", text: CHOSEN, words: "graph",
        output: b"des (0, 3, 3)\n(0, \"A\", 1)\n(1, \"B\", 2)\n(1, \"C\", 2)\n", ..ROW },
    Row { name: "the same sequences, with a choice later", text: OPEN, words: "graph",
        output: b"des (0, 3, 3)\n(0, \"A\", 1)\n(1, \"B\", 2)\n(1, \"C\", 2)\n", ..ROW },
    Row { name: "sets with the same future", text: MERGED, words: "graph",
        output: b"des (0, 3, 3)\n(0, \"A\", 1)\n(0, \"C\", 1)\n(1, \"B\", 2)\n", ..ROW },
    Row { name: "one label again and again", text: ONE_GATE, words: "graph",
        output: b"des (0, 1, 1)\n(0, \"A\", 0)\n", ..ROW },
    Row { name: "termination at once", text: b"specification S : exit behaviour exit endspec", words: "graph",
        output: b"des (0, 1, 2)\n(0, \"exit\", 1)\n", ..ROW },
    Row { name: "a deadlock at once", text: b"specification S : noexit behaviour stop endspec", words: "graph",
        output: b"des (0, 0, 1)\n", ..ROW },
    Row { name: "silent from the start", text: SILENT, words: "graph", output: b"des (0, 0, 1)\n", ..ROW },
    Row { name: "numbers of two digits", text: TEN, words: "graph",
        output: b"des (0, 10, 11)\n(0, \"A\", 1)\n(1, \"A\", 2)\n(2, \"A\", 3)\n(3, \"A\", 4)\n(4, \"A\", 5)\n(5, \"A\", 6)\n(6, \"A\", 7)\n(7, \"A\", 8)\n(8, \"A\", 9)\n(9, \"A\", 10)\n", ..ROW },
];

/// Internal steps as labels.
#[rattlefmt::skip]
const STRONG: &[Row] = &[
    Row { name: "an internal step at the start", text: DELAYED_OR_B, words: "graph --strong",
        output: b"des (0, 3, 3)\n(0, \"B\", 1)\n(0, \"i\", 2)\n(2, \"A\", 1)\n", ..ROW },
    Row { name: "the same without internal steps", text: DELAYED_OR_B, words: "graph",
        output: b"des (0, 2, 2)\n(0, \"A\", 1)\n(0, \"B\", 1)\n", ..ROW },
    Row { name: "an internal step between labels", text: SERVER, words: "graph --strong",
        output: b"des (0, 4, 3)\n(0, \"REQ\", 1)\n(1, \"RSP\", 0)\n(1, \"i\", 2)\n(2, \"NAK\", 0)\n", ..ROW },
    Row { name: "hidden steps", text: VANISHING, words: "graph --strong",
        output: b"des (0, 4, 3)\n(0, \"A\", 1)\n(1, \"B\", 2)\n(1, \"i\", 0)\n(2, \"i\", 2)\n", ..ROW },
    Row { name: "hidden steps alone", text: SILENT, words: "graph --strong",
        output: b"des (0, 1, 1)\n(0, \"i\", 0)\n", ..ROW },
];

/// One side of a system.
#[rattlefmt::skip]
const INTERFACES: &[Row] = &[
    Row { name: "two gates in turns, with hidden steps after each", text: TURNS, words: "graph --only WIN,RIN",
        output: b"des (0, 2, 2)\n(0, \"WIN\", 1)\n(1, \"RIN\", 0)\n", ..ROW },
    Row { name: "a response that is hidden", text: SERVER, words: "graph --hide rsp",
        output: b"des (0, 3, 2)\n(0, \"REQ\", 1)\n(1, \"NAK\", 0)\n(1, \"REQ\", 1)\n", ..ROW },
    Row { name: "all gates are hidden", text: SERVER, words: "graph --hide RSP,NAK,REQ",
        output: b"des (0, 0, 1)\n", ..ROW },
];

/// `b`, or `a` three times, the last after an internal step.
const ONE_OR_THREE: &[u8] =
    b"specification S [a,b] : noexit behaviour b; stop [] a; a; i; a; stop endspec";

const FOUR_STATES: &[u8] =
    b"des (0, 4, 4)\n(0, \"A\", 1)\n(0, \"B\", 2)\n(1, \"A\", 3)\n(3, \"A\", 2)\n";

/// Bounds on the normal forms of a set.
#[rattlefmt::skip]
const TERMS: &[Row] = &[
    Row { name: "two terms at the start, and one is allowed", text: DELAYED, words: "graph --terms 1",
        message: b"lotosseq: stopped: more than 1 terms at <empty>\n", status: 4, ..ROW },
    Row { name: "two terms at the start, and two are allowed", text: DELAYED, words: "graph --terms 2",
        output: b"des (0, 1, 2)\n(0, \"A\", 1)\n", ..ROW },
    Row { name: "two terms after a label, and one is allowed", text: SHORT_OR_LONGER, words: "graph --terms 1",
        message: b"lotosseq: stopped: more than 1 terms at A\n", status: 4, ..ROW },
    Row { name: "two terms after two labels, and one is allowed", text: ONE_OR_THREE, words: "graph --terms 1",
        message: b"lotosseq: stopped: more than 1 terms at A A\n", status: 4, ..ROW },
    Row { name: "two terms after two labels, and two are allowed", text: ONE_OR_THREE,
        words: "graph --terms 2 --states 4", output: FOUR_STATES, ..ROW },
    Row { name: "a system that grows for ever by internal steps", text: GROWING, words: "graph --terms=20",
        message: b"lotosseq: stopped: more than 20 terms at <empty>\n", status: 4, ..ROW },
];

/// Bounds on the sets, which count before those with the same future are merged.
#[rattlefmt::skip]
const STATES: &[Row] = &[
    Row { name: "two sets, and one is allowed", text: BUFFER, words: "graph --states 1",
        message: b"lotosseq: stopped: more than 1 sets; --states N allows more\n", status: 4, ..ROW },
    Row { name: "two sets, and two are allowed", text: BUFFER, words: "graph --states 2", output: FULL_OR_EMPTY, ..ROW },
    Row { name: "four sets, and three are allowed", text: ONE_OR_THREE, words: "graph --states 3",
        message: b"lotosseq: stopped: more than 3 sets; --states N allows more\n", status: 4, ..ROW },
    Row { name: "five sets with three futures, and four are allowed", text: MERGED, words: "graph --states 4",
        message: b"lotosseq: stopped: more than 4 sets; --states N allows more\n", status: 4, ..ROW },
    Row { name: "five sets with five futures, and four are allowed", text: LINK, words: "graph --states=4",
        message: b"lotosseq: stopped: more than 4 sets; --states N allows more\n", status: 4, ..ROW },
    Row { name: "five sets, and five are allowed", text: LINK, words: "graph --states=5", output: DELIVERIES, ..ROW },
];

/// Texts that are refused.
#[rattlefmt::skip]
const REFUSALS: &[Row] = &[
    Row { name: "a gate that is not declared", text: UNDECLARED,
        words: "graph", message: b"lotosseq: 1:40: E21 gate B is not declared\n", ..REFUSED },
    Row { name: "the empty text",
        words: "graph", message: b"lotosseq: 1:1: E06 text ends too early\n", ..REFUSED },
    Row { name: "a name that is no gate", text: SERVER, words: "graph --hide REQ,REQ,RSPS",
        message: b"lotosseq: E52 RSPS is no gate of the specification\n", ..REFUSED },
];

#[test]
fn automata(rt: HostRuntime) {
    expect_rows_in_pieces(&rt, rt.alloc(), AUTOMATA);
}

#[test]
fn internal_steps_as_labels(rt: HostRuntime) {
    expect_rows_in_pieces(&rt, rt.alloc(), STRONG);
}

#[test]
fn one_side_of_a_system(rt: HostRuntime) {
    expect_rows_in_pieces(&rt, rt.alloc(), INTERFACES);
}

#[test]
fn bounds_on_the_terms(rt: HostRuntime) {
    expect_rows_in_pieces(&rt, rt.alloc(), TERMS);
}

#[test]
fn bounds_on_the_sets(rt: HostRuntime) {
    expect_rows_in_pieces(&rt, rt.alloc(), STATES);
}

#[test]
fn texts_are_refused(rt: HostRuntime) {
    expect_rows_in_pieces(&rt, rt.alloc(), REFUSALS);
}

/// A run that writes three lines.
const DRAWN: Run<'static, 'static> = Run {
    name: "two states",
    words: &["lotosseq", "graph"],
    text: BUFFER,
    output: Taken { piece: 3, ..WHOLE },
    ..RUN
};

#[test]
fn the_output_fails_after_each_byte(rt: HostRuntime) {
    let message = b"lotosseq: output cannot be written\n";
    for most in 0usize..38 {
        expect_broken(&rt, rt.alloc(), &DRAWN, most, FULL_OR_EMPTY, message);
    }
}

#[test]
fn each_read_fails_in_turn(rt: HostRuntime) {
    let run = Run {
        piece: 8,
        output: SINGLE,
        ..DRAWN
    };
    for number in 1usize..14 {
        expect_unreadable(&rt, rt.alloc(), &run, number);
    }
}
