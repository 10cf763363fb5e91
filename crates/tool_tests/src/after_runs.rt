//! Complete runs of `after`: the output, the message, and the status.

use super::expected_output::{expect_output, repeated_words};
use super::rows::{REFUSED, REFUSED_FIRST, ROW, Row, expect_refused_first, expect_rows_in_pieces};
use super::runs::{
    Outcome, RUN, Run, SINGLE, Taken, WHOLE, expect, expect_broken, expect_unflushed,
    expect_unreadable,
};
use super::worked_texts::{
    DELAYED, DELAYED_OR_B, GROWING, LINK, MEETING, ONE_STEP, SERVER, SHORT_OR_LONGER, SILENT, SLOW,
    UNDECLARED, VANISHING,
};
use std::alloc::{AllocError, Global};
use std::process::Abort;

/// Sequences that can happen, and how their labels are given.
#[rattlefmt::skip]
const LABELS: &[Row] = &[
    Row { name: "what can come first", text: LINK, words: "after", output: b"PUT\n", ..ROW },
    Row { name: "the delivery, after any number of losses", text: LINK, words: "after PUT", output: b"GET\n", ..ROW },
    Row { name: "the next message, or the same once more", text: LINK,
        words: "after PUT GET", output: b"GET\nPUT\n", ..ROW },
    Row { name: "labels in lower case", text: LINK, words: "after put Get", output: b"GET\nPUT\n", ..ROW },
    Row { name: "labels in one pair of quotes", text: LINK, words: "after 'PUT GET' PUT", output: b"GET\n", ..ROW },
    Row { name: "labels of a log, one a line", text: LINK, words: "after 'PUT\nGET\n'", output: b"GET\nPUT\n", ..ROW },
    Row { name: "a label after an internal step and one without", text: SERVER,
        words: "after REQ", output: b"NAK\nRSP\n", ..ROW },
    Row { name: "round and round", text: SERVER, words: "after REQ NAK REQ RSP", output: b"REQ\n", ..ROW },
];

/// After A it may do B, end, or stop.
const THREE_ENDS: &[u8] =
    b"specification S [a,b] : exit behaviour a; (b; stop [] exit [] i; stop) endspec";

/// Sequences after which nothing may come.
#[rattlefmt::skip]
const ENDS: &[Row] = &[
    Row { name: "termination can come", text: MEETING, words: "after A B C", output: b"exit\n", ..ROW },
    Row { name: "nothing comes after termination", text: MEETING,
        words: "after A B C EXIT", output: b"<deadlock>\n", ..ROW },
    Row { name: "termination in lower case", text: MEETING,
        words: "after 'a b c exit'", output: b"<deadlock>\n", ..ROW },
    Row { name: "a termination that enables is no label", text: MEETING, words: "after A B", output: b"C\n", ..ROW },
    Row { name: "gates, termination and a deadlock", text: THREE_ENDS,
        words: "after A", output: b"B\nexit\n<deadlock>\n", ..ROW },
    Row { name: "a deadlock at once", text: b"specification S : noexit behaviour stop endspec",
        words: "after", output: b"<deadlock>\n", ..ROW },
    Row { name: "sides that wait for each other",
        text: b"specification S [a,b] : noexit behaviour a; stop |[a,b]| b; stop endspec",
        words: "after", output: b"<deadlock>\n", ..ROW },
    Row { name: "a deadlock after internal steps",
        text: b"specification S [a,b] : noexit behaviour i; i; a; (i; stop [] b; stop) endspec",
        words: "after A", output: b"B\n<deadlock>\n", ..ROW },
];

/// Internal steps without end.
#[rattlefmt::skip]
const LOOPS: &[Row] = &[
    Row { name: "labels before and after a hidden step", text: VANISHING, words: "after A", output: b"A\nB\n", ..ROW },
    Row { name: "hidden steps that come back", text: VANISHING, words: "after A A A", output: b"A\nB\n", ..ROW },
    Row { name: "internal steps for ever are no deadlock", text: VANISHING, words: "after A B", ..ROW },
    Row { name: "silent from the start", text: SILENT, words: "after", ..ROW },
];

/// Internal steps as labels.
#[rattlefmt::skip]
const STRONG: &[Row] = &[
    Row { name: "an internal step can come first", text: DELAYED_OR_B,
        words: "after --strong", output: b"B\ni\n", ..ROW },
    Row { name: "after an internal step", text: DELAYED_OR_B, words: "after --strong i", output: b"A\n", ..ROW },
    Row { name: "an internal step in upper case", text: DELAYED_OR_B,
        words: "after 'I a' --strong", output: b"<deadlock>\n", ..ROW },
    Row { name: "an internal step comes after termination, and no deadlock before it", text: THREE_ENDS,
        words: "after --strong A", output: b"B\nexit\ni\n", ..ROW },
    Row { name: "a hidden step", text: b"specification S [b] : noexit behaviour hide a in a; b; stop endspec",
        words: "after --strong i", output: b"B\n", ..ROW },
    Row { name: "a label before its internal step", text: DELAYED, words: "after --strong A",
        message: b"lotosseq: label 1, A, cannot come here; what can: i\n", status: 1, ..ROW },
    Row { name: "a label that cannot come, and each kind of label that can", text: THREE_ENDS,
        words: "after --strong A A",
        message: b"lotosseq: label 2, A, cannot come here; what can: B exit i\n", status: 1, ..ROW },
];

/// Sequences that cannot happen.
#[rattlefmt::skip]
const IMPOSSIBLE: &[Row] = &[
    Row { name: "the second message before the first is delivered", text: LINK, words: "after PUT PUT",
        message: b"lotosseq: label 2, PUT, cannot come here; what can: GET\n", status: 1, ..ROW },
    Row { name: "the first label", text: LINK,
        words: "after GET", message: b"lotosseq: label 1, GET, cannot come here; what can: PUT\n", status: 1, ..ROW },
    Row { name: "the first of several labels, as its word has it", text: LINK, words: "after 'put get' 'put Put put'",
        message: b"lotosseq: label 4, Put, cannot come here; what can: GET\n", status: 1, ..ROW },
    Row { name: "two labels can come", text: SERVER, words: "after REQ REQ",
        message: b"lotosseq: label 2, REQ, cannot come here; what can: NAK RSP\n", status: 1, ..ROW },
    Row { name: "a label after a deadlock", text: ONE_STEP,
        words: "after A A", message: b"lotosseq: label 2, A, cannot come here, and no other can\n", status: 1, ..ROW },
    Row { name: "a label after internal steps for ever", text: VANISHING, words: "after A B A",
        message: b"lotosseq: label 3, A, cannot come here, and no other can\n", status: 1, ..ROW },
    Row { name: "termination that never comes", text: ONE_STEP,
        words: "after exit", message: b"lotosseq: label 1, exit, cannot come here; what can: A\n", status: 1, ..ROW },
    Row { name: "a gate that is declared and not used",
        text: b"specification S [a,b] : noexit behaviour a; stop endspec",
        words: "after A B", message: b"lotosseq: label 2, B, cannot come here, and no other can\n", status: 1, ..ROW },
];

/// Bounds on the normal forms of a beginning of the sequence.
#[rattlefmt::skip]
const BOUNDS: &[Row] = &[
    Row { name: "two terms at the start, and one is allowed", text: DELAYED,
        words: "after --terms 1", message: b"lotosseq: stopped: more than 1 terms after 0 labels\n", status: 4, ..ROW },
    Row { name: "two terms at the start, and two are allowed", text: DELAYED,
        words: "after --terms 2", output: b"A\n", ..ROW },
    Row { name: "two terms after a label, and one is allowed", text: SHORT_OR_LONGER, words: "after --terms 1 A",
        message: b"lotosseq: stopped: more than 1 terms after 1 labels\n", status: 4, ..ROW },
    Row { name: "two terms after a label, and two are allowed", text: SHORT_OR_LONGER,
        words: "after --terms 2 A", output: b"B\n<deadlock>\n", ..ROW },
    Row { name: "three terms after two labels, and two are allowed",
        text: b"specification S [a,b] : noexit behaviour a; b; i; i; a; stop endspec", words: "after --terms 2 A B A",
        message: b"lotosseq: stopped: more than 2 terms after 2 labels\n", status: 4, ..ROW },
    Row { name: "what comes after the last label does not count",
        text: b"specification S [a,b] : noexit behaviour a; b; i; i; a; stop endspec",
        words: "after --terms 1 A", output: b"B\n", ..ROW },
    Row { name: "nor does what comes after a label that cannot come",
        text: b"specification S [a,b] : noexit behaviour a; i; b; stop endspec", words: "after --terms 1 B A",
        message: b"lotosseq: label 1, B, cannot come here; what can: A\n", status: 1, ..ROW },
    Row { name: "internal steps that are labels lead to one term each", text: SLOW,
        words: "after --strong --terms 1 i i", output: b"A\n", ..ROW },
    Row { name: "a system that grows for ever by internal steps", text: GROWING, words: "after --terms=20",
        message: b"lotosseq: stopped: more than 20 terms after 0 labels\n", status: 4, ..ROW },
];

/// Words that name no gate, and texts that are refused.
#[rattlefmt::skip]
const REFUSALS: &[Row] = &[
    Row { name: "a word that is no gate", text: ONE_STEP, words: "after a Ab",
        message: b"lotosseq: E49 word 2 is no gate of the specification\nlotosseq: a gate of the specification has a similar name: A\n",
        ..REFUSED },
    Row { name: "the first of two words that are no gate, after one that cannot come", text: ONE_STEP,
        words: "after 'exit a' Y X", message: b"lotosseq: E49 word 3 is no gate of the specification\n", ..REFUSED },
    Row { name: "a gate that is hidden", text: b"specification S [a] : noexit behaviour hide b in b; a; stop endspec",
        words: "after b a",
        message: b"lotosseq: E49 word 1 is no gate of the specification\nlotosseq: B is hidden at 1:45, so it is not observed\n",
        ..REFUSED },
    Row { name: "a similar gate", text: SERVER, words: "after --terms 1 REQ RESP",
        message: b"lotosseq: E49 word 2 is no gate of the specification\nlotosseq: a gate of the specification has a similar name: RSP\n",
        ..REFUSED },
    Row { name: "a reserved word is no gate", text: ONE_STEP,
        words: "after a stop", message: b"lotosseq: E49 word 2 is no gate of the specification\n", ..REFUSED },
    Row { name: "a gate that is not declared, and a word that is no gate", text: UNDECLARED,
        words: "after C", message: b"lotosseq: 1:40: E21 gate B is not declared\n", ..REFUSED },
    Row { name: "a gate that is not declared", text: UNDECLARED,
        words: "after A", message: b"lotosseq: 1:40: E21 gate B is not declared\n", ..REFUSED },
    Row { name: "the empty text", words: "after A", message: b"lotosseq: 1:1: E06 text ends too early\n", ..REFUSED },
];

#[test]
fn labels_that_can_come(rt: HostRuntime) {
    expect_rows_in_pieces(&rt, rt.alloc(), LABELS);
}

#[test]
fn termination_and_deadlocks(rt: HostRuntime) {
    expect_rows_in_pieces(&rt, rt.alloc(), ENDS);
}

#[test]
fn internal_steps_without_end(rt: HostRuntime) {
    expect_rows_in_pieces(&rt, rt.alloc(), LOOPS);
}

#[test]
fn internal_steps_as_labels(rt: HostRuntime) {
    expect_rows_in_pieces(&rt, rt.alloc(), STRONG);
}

#[test]
fn sequences_that_cannot_happen(rt: HostRuntime) {
    expect_rows_in_pieces(&rt, rt.alloc(), IMPOSSIBLE);
}

#[test]
fn bounds_on_the_terms(rt: HostRuntime) {
    expect_rows_in_pieces(&rt, rt.alloc(), BOUNDS);
}

#[test]
fn refusals(rt: HostRuntime) {
    expect_rows_in_pieces(&rt, rt.alloc(), REFUSALS);
}

/// Command lines with words that are refused before anything is read, and the message of each.
#[rattlefmt::skip]
const WORDS: &[Row] = &[
    Row { words: "after <any>", message: b"lotosseq: E41 word 1 is no label\n", ..REFUSED_FIRST },
    Row { words: "after A <deadlock>", message: b"lotosseq: E41 word 2 is no label\n", ..REFUSED_FIRST },
    Row { words: "after A,B", message: b"lotosseq: E41 word 1 is no label\n", ..REFUSED_FIRST },
    Row { words: "after A ''", message: b"lotosseq: E41 word 2 is no label\n", ..REFUSED_FIRST },
    Row { words: "after ' \t' A", message: b"lotosseq: E41 word 1 is no label\n", ..REFUSED_FIRST },
    Row { words: "after 'A B' A-B", message: b"lotosseq: E41 word 3 is no label\n", ..REFUSED_FIRST },
    Row { words: "after A 1A", message: b"lotosseq: E41 word 2 is no label\n", ..REFUSED_FIRST },
    Row { words: "after <untill>", message: b"lotosseq: E41 word 1 is no label\n", ..REFUSED_FIRST },
];

/// The same of the internal action, and of what is first.
#[rattlefmt::skip]
const INTERNAL: &[Row] = &[
    Row { words: "after i", message: b"lotosseq: E45 word 1 is i, which cannot be observed\n", ..REFUSED_FIRST },
    Row { words: "after 'A B' I", message: b"lotosseq: E45 word 3 is i, which cannot be observed\n", ..REFUSED_FIRST },
    Row { words: "after no_gate i A-B",
        message: b"lotosseq: E45 word 2 is i, which cannot be observed\n", ..REFUSED_FIRST },
    Row { words: "after A,i i", message: b"lotosseq: E41 word 1 is no label\n", ..REFUSED_FIRST },
    Row { words: "after --strong i i,A", message: b"lotosseq: E41 word 2 is no label\n", ..REFUSED_FIRST },
];

#[test]
fn words_are_refused_first(rt: HostRuntime) {
    expect_refused_first(&rt, rt.alloc(), WORDS);
}

#[test]
fn what_cannot_be_observed_is_refused_first(rt: HostRuntime) {
    expect_refused_first(&rt, rt.alloc(), INTERNAL);
}

const LINES: &[u8] = b"B\nexit\n<deadlock>\n";

/// A run that writes the lines.
const FOLLOWED: Run<'static, 'static> = Run {
    name: "three lines",
    words: &["lotosseq", "after", "A"],
    text: THREE_ENDS,
    output: Taken { piece: 4, ..WHOLE },
    ..RUN
};

const UNWRITTEN: &[u8] = b"lotosseq: output cannot be written\n";

#[test]
fn the_output_fails_after_each_byte(rt: HostRuntime) {
    for most in 0..LINES.len() {
        expect_broken(&rt, rt.alloc(), &FOLLOWED, most, LINES, UNWRITTEN);
    }
}

#[test]
fn a_flush_that_fails_is_a_failed_write(rt: HostRuntime) {
    expect_unflushed(&rt, rt.alloc(), &FOLLOWED, LINES, UNWRITTEN);
}

#[test]
fn a_flush_that_fails_without_a_line(rt: HostRuntime) {
    let run = Run {
        name: "no line",
        words: &["lotosseq", "after", "A", "B"],
        text: VANISHING,
        ..FOLLOWED
    };
    expect_unflushed(&rt, rt.alloc(), &run, b"", UNWRITTEN);
}

/// An output that cannot be written is not noticed where nothing is written.
#[test]
fn a_sequence_that_cannot_happen_is_not_flushed(rt: HostRuntime) {
    let run = Run {
        name: "no sequence",
        words: &["lotosseq", "after", "B"],
        output: Taken {
            most: 0,
            flush_fails: true,
            ..WHOLE
        },
        ..FOLLOWED
    };
    let outcome = Outcome {
        output: b"",
        message: b"lotosseq: label 1, B, cannot come here; what can: A\n",
        status: 1,
        flushes: 0,
    };
    expect(&rt, rt.alloc(), &run, &outcome);
}

#[test]
fn each_read_fails_in_turn(rt: HostRuntime) {
    let run = Run {
        piece: 4,
        output: SINGLE,
        ..FOLLOWED
    };
    for number in 1usize..20 {
        expect_unreadable(&rt, rt.alloc(), &run, number);
    }
}

#[test]
fn a_read_that_fails_is_named_before_a_word_that_is_no_gate(rt: HostRuntime) {
    let run = Run {
        words: &["lotosseq", "after", "no_gate"],
        ..FOLLOWED
    };
    expect_unreadable(&rt, rt.alloc(), &run, 1);
}

/// Expects that these labels, so many times, can happen, and that these lines can come then.
fn expect_repeated(
    rt: &impl Abort,
    alloc: Global,
    labels: &[&'static str],
    count: usize,
    text: &[u8],
    lines: &[u8],
) -> Result<(), AllocError> {
    let words = repeated_words(alloc, &["lotosseq", "after"], labels, count)?;
    expect_output(rt, alloc, words.as_slice(), text, lines);
    Ok(())
}

/// A pattern has at most 256 elements; a sequence may have more labels.
#[test]
fn sequences_of_300_labels(rt: HostRuntime) -> Result<(), AllocError> {
    expect_repeated(&rt, rt.alloc(), &["PUT", "GET"], 150, LINK, b"GET\nPUT\n")?;
    expect_repeated(&rt, rt.alloc(), &["req rsp"], 150, SERVER, b"REQ\n")
}
