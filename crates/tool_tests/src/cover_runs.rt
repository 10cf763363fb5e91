//! Complete runs of `cover`: the output, the message, and the status.

use super::rows::{REFUSED, ROW, Row, expect_rows_in_pieces};
use super::runs::{
    RUN, Run, SINGLE, Taken, WHOLE, expect_broken, expect_refused_words, expect_unreadable,
};
use super::worked_texts::{
    BRANCHES, DELAYED, DELAYED_OR_B, GROWING, LINK, MEETING, ONE_GATE, SERVER, SHORT_OR_LONGER,
    SILENT, UNDECLARED, VANISHING,
};
use std::alloc::Global;
use std::process::Abort;

const COVER: &[&str] = &["lotosseq", "cover"];

/// One label in two turns, which cannot be told apart.
const TWO_TURNS: &[u8] =
    b"specification S [a] : noexit behaviour P [a] where process P [a] : noexit := a; a; P [a] endproc endspec";

#[rattlefmt::skip]
const LINES: &[Row] = &[
    Row { name: "hidden steps that come back, and some without end", text: VANISHING,
        words: "cover", output: b"A A\nA B\n", ..ROW },
    Row { name: "a label after an internal step and one without", text: SERVER,
        words: "cover", output: b"REQ NAK\nREQ RSP\n", ..ROW },
    Row { name: "messages that are delivered again and again", text: LINK,
        words: "cover", output: b"PUT GET PUT\nPUT GET GET PUT\nPUT GET GET GET GET\nPUT GET GET GET PUT\n", ..ROW },
    Row { name: "termination that enables, and termination", text: MEETING,
        words: "cover", output: b"A B C exit\n", ..ROW },
    Row { name: "a label that leads to two terms, one of which goes on", text: BRANCHES,
        words: "cover", output: b"A\nB A\n", ..ROW },
    Row { name: "two labels that lead to the same",
        text: b"specification S [a,b] : noexit behaviour a; stop [] b; stop endspec",
        words: "cover", output: b"A\nB\n", ..ROW },
    Row { name: "one label again and again", text: ONE_GATE, words: "cover", output: b"A\n", ..ROW },
    Row { name: "two sets with one future", text: TWO_TURNS, words: "cover", output: b"A\n", ..ROW },
    Row { name: "two items, each after the other",
        text: b"specification S [put,get] : noexit behaviour P [put,get] where process P [put,get] : noexit := put; get; P [put,get] endproc endspec",
        words: "cover", output: b"PUT GET\n", ..ROW },
    Row { name: "termination at once", text: b"specification S : exit behaviour exit endspec",
        words: "cover", output: b"exit\n", ..ROW },
];

/// Specifications of which nothing can be observed, and marks after all lines.
#[rattlefmt::skip]
const NO_LINE: &[Row] = &[
    Row { name: "a deadlock at once", text: b"specification S : noexit behaviour stop endspec",
        words: "cover", status: 1, ..ROW },
    Row { name: "silent from the start", text: SILENT, words: "cover", status: 1, ..ROW },
    Row { name: "no line reaches the limit", text: b"specification S [a] : noexit behaviour stop endspec",
        words: "cover --limit 1 --states 1", status: 1, ..ROW },
    Row { name: "after the last line", text: SERVER, words: "cover --after 'REQ RSP'", status: 1, ..ROW },
    Row { name: "after a line that is greater than all", text: SERVER,
        words: "cover --after 'A A A'", status: 1, ..ROW },
];

/// Internal steps as labels.
#[rattlefmt::skip]
const STRONG: &[Row] = &[
    Row { name: "an internal step at the start", text: DELAYED_OR_B,
        words: "cover --strong", output: b"B\ni A\n", ..ROW },
    Row { name: "the same without internal steps", text: DELAYED_OR_B, words: "cover", output: b"A\nB\n", ..ROW },
    Row { name: "an internal step between labels", text: SERVER,
        words: "cover --strong", output: b"REQ RSP\nREQ i NAK\n", ..ROW },
    Row { name: "hidden steps", text: VANISHING, words: "cover --strong", output: b"A i\nA B i\n", ..ROW },
    Row { name: "hidden steps alone", text: SILENT, words: "cover --strong", output: b"i\n", ..ROW },
    Row { name: "after a line with an internal step", text: VANISHING,
        words: "cover --strong --after 'A i'", output: b"A B i\n", ..ROW },
];

/// Limits on the lines, and marks.
#[rattlefmt::skip]
const LIMITS_AND_MARKS: &[Row] = &[
    Row { name: "a limit of two lines", text: LINK, words: "cover --limit 2", output: b"PUT GET PUT\nPUT GET GET PUT\n",
        message: b"lotosseq: stopped after PUT GET GET PUT: limit reached\n", status: 3, ..ROW },
    Row { name: "a limit of exactly the lines", text: SERVER, words: "cover --limit=2", output: b"REQ NAK\nREQ RSP\n",
        message: b"lotosseq: stopped after REQ RSP: limit reached\n", status: 3, ..ROW },
    Row { name: "a limit of one line more", text: SERVER,
        words: "cover --limit=3", output: b"REQ NAK\nREQ RSP\n", ..ROW },
    Row { name: "after a line", text: LINK,
        words: "cover --after 'PUT GET GET PUT'", output: b"PUT GET GET GET GET\nPUT GET GET GET PUT\n", ..ROW },
    Row { name: "after a line in lower case with a run, which is not looked at", text: LINK,
        words: "cover --after 'put get get put : i i'", output: b"PUT GET GET GET GET\nPUT GET GET GET PUT\n", ..ROW },
    Row { name: "a limit after a line", text: LINK,
        words: "cover --after 'PUT GET PUT' --limit 1", output: b"PUT GET GET PUT\n",
        message: b"lotosseq: stopped after PUT GET GET PUT: limit reached\n", status: 3, ..ROW },
    Row { name: "after a sequence that is no line", text: LINK, words: "cover --after 'PUT GET GET GET'",
        output: b"PUT GET GET PUT\nPUT GET GET GET GET\nPUT GET GET GET PUT\n", ..ROW },
    Row { name: "after the empty sequence", text: SERVER,
        words: "cover --after <empty>", output: b"REQ NAK\nREQ RSP\n", ..ROW },
];

/// `b`, or `a` three times, the last after an internal step.
const ONE_OR_THREE: &[u8] =
    b"specification S [a,b] : noexit behaviour b; stop [] a; a; i; a; stop endspec";

/// Bounds on the normal forms of a set.
#[rattlefmt::skip]
const TERMS: &[Row] = &[
    Row { name: "two terms at the start, and one is allowed", text: DELAYED, words: "cover --terms 1",
        message: b"lotosseq: stopped before the first line: more than 1 terms at <empty>\n", status: 4, ..ROW },
    Row { name: "two terms at the start, and two are allowed", text: DELAYED,
        words: "cover --terms 2", output: b"A\n", ..ROW },
    Row { name: "two terms after a label, and one is allowed", text: SHORT_OR_LONGER, words: "cover --terms 1",
        message: b"lotosseq: stopped before the first line: more than 1 terms at A\n", status: 4, ..ROW },
    Row { name: "two terms after a sequence that comes after the first line, and one is allowed", text: ONE_OR_THREE,
        words: "cover --terms 1",
        message: b"lotosseq: stopped before the first line: more than 1 terms at A A\n", status: 4, ..ROW },
    Row { name: "two terms after a sequence that comes after the first line, and two are allowed", text: ONE_OR_THREE,
        words: "cover --terms 2 --states 5", output: b"B\nA A A\n", ..ROW },
    Row { name: "internal steps that are labels lead to one term each", text: ONE_OR_THREE,
        words: "cover --terms 1 --strong", output: b"B\nA A i A\n", ..ROW },
    Row { name: "a system that grows for ever by internal steps", text: GROWING, words: "cover --terms=20",
        message: b"lotosseq: stopped before the first line: more than 20 terms at <empty>\n", status: 4, ..ROW },
];

/// Bounds on the sets.
#[rattlefmt::skip]
const STATES: &[Row] = &[
    Row { name: "two sets, and one is allowed", text: SERVER, words: "cover --states 1",
        message: b"lotosseq: stopped before the first line: more than 1 sets; --states N allows more\n",
        status: 4, ..ROW },
    Row { name: "two sets, and two are allowed", text: SERVER,
        words: "cover --states 2", output: b"REQ NAK\nREQ RSP\n", ..ROW },
    Row { name: "three sets, and two are allowed", text: VANISHING, words: "cover --states=2",
        message: b"lotosseq: stopped before the first line: more than 2 sets; --states N allows more\n",
        status: 4, ..ROW },
    Row { name: "three sets, and three are allowed", text: VANISHING,
        words: "cover --states=3", output: b"A A\nA B\n", ..ROW },
    Row { name: "five sets, and four are allowed", text: LINK, words: "cover --states 4",
        message: b"lotosseq: stopped before the first line: more than 4 sets; --states N allows more\n",
        status: 4, ..ROW },
    Row { name: "a set too many, and a limit", text: VANISHING, words: "cover --states 2 --limit 1",
        message: b"lotosseq: stopped before the first line: more than 2 sets; --states N allows more\n",
        status: 4, ..ROW },
    Row { name: "two sets with one future, and one is allowed", text: TWO_TURNS, words: "cover --states 1",
        message: b"lotosseq: stopped before the first line: more than 1 sets; --states N allows more\n",
        status: 4, ..ROW },
    Row { name: "two sets with one future, and two are allowed", text: TWO_TURNS,
        words: "cover --states 2", output: b"A\n", ..ROW },
    Row { name: "a set too many before the mark", text: VANISHING, words: "cover --states 2 --after 'A A A'",
        message: b"lotosseq: stopped before the first line: more than 2 sets; --states N allows more\n",
        status: 4, ..ROW },
];

/// Texts that are refused.
#[rattlefmt::skip]
const REFUSALS: &[Row] = &[
    Row { name: "a gate that is not declared", text: UNDECLARED,
        words: "cover", message: b"lotosseq: 1:40: E21 gate B is not declared\n", ..REFUSED },
    Row { name: "the empty text",
        words: "cover --after A", message: b"lotosseq: 1:1: E06 text ends too early\n", ..REFUSED },
];

#[test]
fn lines_of_covers(rt: HostRuntime) {
    expect_rows_in_pieces(&rt, rt.alloc(), LINES);
}

#[test]
fn covers_without_a_line(rt: HostRuntime) {
    expect_rows_in_pieces(&rt, rt.alloc(), NO_LINE);
}

#[test]
fn internal_steps_as_labels(rt: HostRuntime) {
    expect_rows_in_pieces(&rt, rt.alloc(), STRONG);
}

#[test]
fn limits_and_marks(rt: HostRuntime) {
    expect_rows_in_pieces(&rt, rt.alloc(), LIMITS_AND_MARKS);
}

#[test]
fn bounds_on_the_terms(rt: HostRuntime) {
    expect_rows_in_pieces(&rt, rt.alloc(), TERMS);
}

#[test]
fn bounds_on_the_sets(rt: HostRuntime) {
    expect_rows_in_pieces(&rt, rt.alloc(), STATES);
}

#[test]
fn texts_are_refused(rt: HostRuntime) {
    expect_rows_in_pieces(&rt, rt.alloc(), REFUSALS);
}

/// Lines that are none of a listing.
const NO_MARKS: &[&str] = &[
    "",
    "REQ,RSP",
    "REQ  RSP",
    "<deadlock>",
    "REQ i",
    "REQ :REQ: RSP",
];

/// Expects that the line is refused as a mark.
fn expect_no_mark(rt: &impl Abort, alloc: Global, line: &'static str) {
    let words = ["lotosseq", "cover", "--after", line];
    let message = b"lotosseq: E46 mark is no line of a listing\n";
    expect_refused_words(rt, alloc, line, words.as_slice(), message);
}

#[test]
fn marks_are_refused_first(rt: HostRuntime) {
    for line in NO_MARKS {
        expect_no_mark(&rt, rt.alloc(), *line);
    }
}

const OUTPUT: &[u8] = b"REQ NAK\nREQ RSP\n";

/// A run that writes two lines.
const COVERED: Run<'static, 'static> = Run {
    name: "two lines",
    words: COVER,
    text: SERVER,
    output: Taken { piece: 3, ..WHOLE },
    ..RUN
};

const NOT_BEGUN: &[u8] = b"lotosseq: stopped before the first line: output cannot be written\n";

const BROKEN_OFF: &[u8] = b"lotosseq: stopped after REQ NAK: output cannot be written\n";

#[test]
fn the_output_fails_after_each_byte(rt: HostRuntime) {
    for most in 0usize..8 {
        expect_broken(&rt, rt.alloc(), &COVERED, most, OUTPUT, NOT_BEGUN);
    }
    for most in 8usize..16 {
        expect_broken(&rt, rt.alloc(), &COVERED, most, OUTPUT, BROKEN_OFF);
    }
}

#[test]
fn each_read_fails_in_turn(rt: HostRuntime) {
    let run = Run {
        piece: 8,
        output: SINGLE,
        ..COVERED
    };
    for number in 1usize..20 {
        expect_unreadable(&rt, rt.alloc(), &run, number);
    }
}
