//! Complete runs of `ever`: the output, the message, and the status.

use super::expected_output::{expect_output, repeated, repeated_words};
use super::rows::{
    NO_MATCH, REFUSED, REFUSED_FIRST, ROW, Row, expect_refused_first, expect_rows_in_pieces,
};
use super::runs::{
    RUN, Run, SINGLE, Taken, WHOLE, expect_broken, expect_unflushed, expect_unreadable,
};
use super::worked_texts::{
    BELL, BUFFER, DELAYED, LINK, MEETING, ONE_GATE, ONE_STEP, SERVER, SLOW, TWO_STEPS, UNDECLARED,
    VANISHING,
};
use std::alloc::AllocError;

/// Matches, and patterns that match at no depth.
#[rattlefmt::skip]
const MATCHES: &[Row] = &[
    Row { name: "two steps and termination", text: TWO_STEPS, words: "ever A B exit", output: b"A B exit\n", ..ROW },
    Row { name: "each side does it once", text: b"specification S [a,b] : noexit behaviour a; stop ||| b; stop endspec",
        words: "ever A A", ..NO_MATCH },
    Row { name: "never two in a row",
        text: b"specification S [a,b] : noexit behaviour a; b; a; stop [] b; a; b; stop endspec",
        words: "ever <while> <any> B B", ..NO_MATCH },
    Row { name: "never two in a row, of any length", text: BUFFER, words: "ever <while> <any> B B", ..NO_MATCH },
    Row { name: "no deadlock, of any length", text: BUFFER, words: "ever <until> <deadlock>", ..NO_MATCH },
    Row { name: "the shortest of many", text: BUFFER, words: "ever <until> b", output: b"A B\n", ..ROW },
    Row { name: "internal steps are not observed", text: SLOW, words: "ever A", output: b"A\n", ..ROW },
    Row { name: "the word has the internal steps", text: SLOW,
        words: "ever --explain A", output: b"A : i i A\n", ..ROW },
    Row { name: "internal steps are labels", text: SLOW,
        words: "ever --strong --explain i i A", output: b"i i A : i i A\n", ..ROW },
    Row { name: "internal steps are labels that the pattern lacks", text: SLOW, words: "ever --strong A", ..NO_MATCH },
];

/// Empty sequences, and deadlocks.
#[rattlefmt::skip]
const EMPTY_SEQUENCES: &[Row] = &[
    Row { name: "no word matches the empty sequence alone", text: ONE_STEP,
        words: "ever", output: b"<empty>\n", ..ROW },
    Row { name: "the empty sequence after an internal step",
        text: b"specification S [a] : noexit behaviour i; stop [] i; a; stop endspec",
        words: "ever --explain <deadlock>", output: b"<empty> : i\n", ..ROW },
    Row { name: "a deadlock at once", text: b"specification S [a] : noexit behaviour stop endspec",
        words: "ever <deadlock>", output: b"<empty>\n", ..ROW },
    Row { name: "a deadlock after a step",
        text: b"specification S [a,b] : noexit behaviour a; stop |[a]| a; b; stop endspec",
        words: "ever A <deadlock>", ..NO_MATCH },
];

/// Patterns with sets of labels.
#[rattlefmt::skip]
const SETS: &[Row] = &[
    Row { name: "one between two others, and a third not between them", text: BELL,
        words: "ever <while> <any> WIN <while> <not> WOUT RIN", output: b"WIN BELL RIN\n", ..ROW },
    Row { name: "never a reader before a writer", text: BELL, words: "ever <while> <not> win,wout RIN", ..NO_MATCH },
    Row { name: "never two labels next to each other that have a third between them", text: BELL,
        words: "ever <while> <any> WIN RIN", ..NO_MATCH },
    Row { name: "never two responses without a refusal before",
        text: b"specification D [req,rsp,nak] : noexit behaviour S[req,rsp,nak] where process S [req,rsp,nak] : noexit := req; (rsp; S[req,rsp,nak] [] i; nak; S[req,rsp,nak]) endproc endspec",
        words: "ever <while> <not> NAK RSP RSP", ..NO_MATCH },
    Row { name: "a complement has the internal action where that is observed", text: DELAYED,
        words: "ever --strong <not> A", output: b"i\n", ..ROW },
    Row { name: "a complement has no internal action otherwise", text: DELAYED, words: "ever <not> A", ..NO_MATCH },
    Row { name: "up to a label other than two",
        text: b"specification G [a,b,c] : exit behaviour hide s in ((a; s; exit) |[s]| (s; b; exit)) >> c; exit endspec",
        words: "ever --explain <until> <not> A,B", output: b"A B C : A i B i C\n", ..ROW },
];

/// Patterns whose end refuses a set.
#[rattlefmt::skip]
const REFUSED_SETS: &[Row] = &[
    Row { name: "a set that is refused after an internal step", text: SERVER,
        words: "ever --explain 'REQ <refuses> RSP'", output: b"REQ : REQ i\n", ..ROW },
    Row { name: "one of the set can come in each state", text: SERVER,
        words: "ever 'REQ <refuses> RSP,NAK'", ..NO_MATCH },
    Row { name: "what is never refused", text: VANISHING, words: "ever '<until> <refuses> A'", ..NO_MATCH },
    Row { name: "refused from the start", text: VANISHING,
        words: "ever --explain '<until> <refuses> B'", output: b"<empty> : <empty>\n", ..ROW },
    Row { name: "all labels: a deadlock", text: MEETING,
        words: "ever '<until> <refuses> <any>'", output: b"A B C exit\n", ..ROW },
    Row { name: "all but one", text: SERVER, words: "ever --explain '<while> <any> RSP REQ <refuses> <not> NAK'",
        output: b"REQ RSP REQ : REQ RSP REQ i\n", ..ROW },
];

/// Patterns whose end is about what can come after it.
#[rattlefmt::skip]
const FUTURES: &[Row] = &[
    Row { name: "internal steps that never end", text: VANISHING,
        words: "ever --explain '<until> <livelock>'", output: b"A B : A B <forever> [i]\n", ..ROW },
    Row { name: "a label that can never come again", text: VANISHING,
        words: "ever --explain '<until> <never> A'", output: b"A B : A B\n", ..ROW },
    Row { name: "two labels that can never come again", text: VANISHING,
        words: "ever --explain '<until> <never> A,B'", output: b"A B : A B\n", ..ROW },
    Row { name: "nothing but internal steps can come", text: VANISHING,
        words: "ever --explain '<until> <never> <any>'", output: b"A B : A B\n", ..ROW },
    Row { name: "nothing but one label and internal steps can come", text: VANISHING,
        words: "ever --explain '<until> <never> <not> A'", output: b"A B : A B\n", ..ROW },
    Row { name: "internal steps can come, which are observed", text: VANISHING,
        words: "ever --strong '<until> <never> <any>'", ..NO_MATCH },
    Row { name: "for ever with one label", text: VANISHING,
        words: "ever --explain '<until> <forever> A'", output: b"<empty> : <empty> <forever> [A i]\n", ..ROW },
    Row { name: "for ever with any labels", text: VANISHING,
        words: "ever --explain 'A <forever> <any>'", output: b"A : A <forever> B [i]\n", ..ROW },
    Row { name: "a row before the loop",
        text: b"specification S [a,b,c] : noexit behaviour a; b; P[c] where process P [c] : noexit := c; P[c] endproc endspec",
        words: "ever --explain '<forever> <not> EXIT'", output: b"<empty> : <empty> <forever> A B [C]\n", ..ROW },
    Row { name: "a loop that is not written", text: VANISHING,
        words: "ever '<until> <livelock>'", output: b"A B\n", ..ROW },
    Row { name: "a loop with internal steps shown", text: VANISHING,
        words: "ever --strong --explain '<until> <livelock>'", output: b"A B : A B <forever> [i]\n", ..ROW },
    Row { name: "a request without its response", text: SERVER,
        words: "ever --explain '<while> <any> REQ <forever> <not> RSP'",
        output: b"REQ : REQ <forever> [i NAK REQ]\n", ..ROW },
    Row { name: "a response can always still come", text: SERVER, words: "ever '<until> <never> RSP'", ..NO_MATCH },
    Row { name: "no internal steps for ever", text: SERVER, words: "ever '<until> <livelock>'", ..NO_MATCH },
    Row { name: "frames are lost for ever", text: LINK, words: "ever '<until> <livelock>'", output: b"PUT\n", ..ROW },
    Row { name: "a message can always still be put", text: LINK, words: "ever '<until> <never> PUT'", ..NO_MATCH },
    Row { name: "past its last label", text: MEETING,
        words: "ever --explain '<until> <never> C'", output: b"A B C : A i B i C\n", ..ROW },
    Row { name: "never at first", text: MEETING, words: "ever '<never> C'", ..NO_MATCH },
    Row { name: "a label that comes in no state", text: SERVER,
        words: "ever --states=3 '<never> EXIT'", output: b"<empty>\n", ..ROW },
    Row { name: "a state too many to be found", text: SERVER, words: "ever --states=2 '<never> EXIT'",
        message: b"lotosseq: stopped: more than 2 states; --states N allows more\n",
        status: 4, ..ROW },
];

/// Searches with a bound on the states.
#[rattlefmt::skip]
const BOUNDS: &[Row] = &[
    Row { name: "more states than one", text: b"specification S [a,b] : noexit behaviour a; b; stop endspec",
        words: "ever --states 1 A B",
        message: b"lotosseq: stopped: more than 1 states; --states N allows more\n",
        status: 4, ..ROW },
    Row { name: "three states", text: b"specification S [a,b] : noexit behaviour a; b; stop endspec",
        words: "ever --states 3 A B", output: b"A B\n", ..ROW },
    Row { name: "states without end",
        text: b"specification S [a] : noexit behaviour P[a] where process P [x] : noexit := x; (P[x] ||| P[x]) endproc endspec",
        words: "ever --states=20 <until> <deadlock>",
        message: b"lotosseq: stopped: more than 20 states; --states N allows more\n",
        status: 4, ..ROW },
];

/// Words that name no gate, and texts that are refused.
#[rattlefmt::skip]
const REFUSALS: &[Row] = &[
    Row { name: "a word that is no gate", text: ONE_STEP, words: "ever a <while> Ab",
        message: b"lotosseq: E49 word 3 is no gate of the specification\nlotosseq: a gate of the specification has a similar name: A\n",
        ..REFUSED },
    Row { name: "the first of two words that are no gate", text: ONE_STEP, words: "ever --states 9 <until> Y a X",
        message: b"lotosseq: E49 word 2 is no gate of the specification\n", ..REFUSED },
    Row { name: "a set with a name that is no gate", text: ONE_STEP, words: "ever a <until> <not> A,exit,X",
        message: b"lotosseq: E49 word 4 is no gate of the specification\n", ..REFUSED },
    Row { name: "a gate that is hidden", text: b"specification S [a] : noexit behaviour hide b in b; a; stop endspec",
        words: "ever b a",
        message: b"lotosseq: E49 word 1 is no gate of the specification\nlotosseq: B is hidden at 1:45, so it is not observed\n",
        ..REFUSED },
    Row { name: "termination is no gate, and always known", text: ONE_STEP, words: "ever a EXIT", ..NO_MATCH },
    Row { name: "a gate that is not declared, and a word that is no gate", text: UNDECLARED,
        words: "ever C", message: b"lotosseq: 1:40: E21 gate B is not declared\n", ..REFUSED },
    Row { name: "a gate that is not declared", text: UNDECLARED,
        words: "ever A", message: b"lotosseq: 1:40: E21 gate B is not declared\n", ..REFUSED },
    Row { name: "the empty text", words: "ever A", message: b"lotosseq: 1:1: E06 text ends too early\n", ..REFUSED },
];

#[test]
fn matches(rt: HostRuntime) {
    expect_rows_in_pieces(&rt, rt.alloc(), MATCHES);
}

#[test]
fn empty_sequences_and_deadlocks(rt: HostRuntime) {
    expect_rows_in_pieces(&rt, rt.alloc(), EMPTY_SEQUENCES);
}

#[test]
fn sets_of_labels(rt: HostRuntime) {
    expect_rows_in_pieces(&rt, rt.alloc(), SETS);
}

#[test]
fn sets_that_the_end_refuses(rt: HostRuntime) {
    expect_rows_in_pieces(&rt, rt.alloc(), REFUSED_SETS);
}

#[test]
fn ends_about_what_can_come_after(rt: HostRuntime) {
    expect_rows_in_pieces(&rt, rt.alloc(), FUTURES);
}

#[test]
fn bounds_on_the_states(rt: HostRuntime) {
    expect_rows_in_pieces(&rt, rt.alloc(), BOUNDS);
}

#[test]
fn refusals(rt: HostRuntime) {
    expect_rows_in_pieces(&rt, rt.alloc(), REFUSALS);
}

/// Command lines with patterns that are refused before anything is read, and the message of each.
#[rattlefmt::skip]
const PATTERNS: &[Row] = &[
    Row { words: "ever i", message: b"lotosseq: E45 word 1 is i, which cannot be observed\n", ..REFUSED_FIRST },
    Row { words: "ever A <while>",
        message: b"lotosseq: E48 word 2 needs a label or <any> after it\n", ..REFUSED_FIRST },
    Row { words: "ever no_gate <until>",
        message: b"lotosseq: E42 word 2 needs a label or <deadlock> after it\n", ..REFUSED_FIRST },
    Row { words: "ever <foo>", message: b"lotosseq: E41 word 1 is neither a label nor an element\n", ..REFUSED_FIRST },
    Row { words: "ever <deadlock> A", message: b"lotosseq: E43 word 2 follows an end element\n", ..REFUSED_FIRST },
    Row { words: "ever <not>", message: b"lotosseq: E50 word 1 needs a label after it\n", ..REFUSED_FIRST },
    Row { words: "ever A <refuses>", message: b"lotosseq: E50 word 2 needs a label after it\n", ..REFUSED_FIRST },
    Row { words: "ever <until> <refuses> <while>",
        message: b"lotosseq: E50 word 2 needs a label after it\n", ..REFUSED_FIRST },
    Row { words: "ever <refuses> <not>", message: b"lotosseq: E50 word 2 needs a label after it\n", ..REFUSED_FIRST },
    Row { words: "ever A <never>", message: b"lotosseq: E50 word 2 needs a label after it\n", ..REFUSED_FIRST },
    Row { words: "ever <until> <forever> <never>",
        message: b"lotosseq: E50 word 2 needs a label after it\n", ..REFUSED_FIRST },
    Row { words: "ever <never> A B", message: b"lotosseq: E43 word 3 follows an end element\n", ..REFUSED_FIRST },
    Row { words: "ever <livelock> <never>",
        message: b"lotosseq: E43 word 2 follows an end element\n", ..REFUSED_FIRST },
    Row { words: "ever <forever> i",
        message: b"lotosseq: E45 word 2 is i, which cannot be observed\n", ..REFUSED_FIRST },
    Row { words: "ever <refuses> A B", message: b"lotosseq: E43 word 3 follows an end element\n", ..REFUSED_FIRST },
    Row { words: "ever <refuses> A,i",
        message: b"lotosseq: E45 word 2 is i, which cannot be observed\n", ..REFUSED_FIRST },
    Row { words: "ever A,", message: b"lotosseq: E41 word 1 is neither a label nor an element\n", ..REFUSED_FIRST },
    Row { words: "ever <until> A,i",
        message: b"lotosseq: E45 word 2 is i, which cannot be observed\n", ..REFUSED_FIRST },
];

#[test]
fn words_are_refused_first(rt: HostRuntime) {
    expect_refused_first(&rt, rt.alloc(), PATTERNS);
}

const WORDS: &[&str] = &["lotosseq", "ever", "--explain", "<until>", "B"];

const LINE: &[u8] = b"A B : A B\n";

/// A run that writes the line.
const MATCHED: Run<'static, 'static> = Run {
    name: "a match",
    words: WORDS,
    text: BUFFER,
    output: Taken { piece: 4, ..WHOLE },
    ..RUN
};

const UNWRITTEN: &[u8] = b"lotosseq: output cannot be written\n";

#[test]
fn the_output_fails_after_each_byte(rt: HostRuntime) {
    for most in 0..LINE.len() {
        expect_broken(&rt, rt.alloc(), &MATCHED, most, LINE, UNWRITTEN);
    }
}

#[test]
fn a_flush_that_fails_is_a_failed_write(rt: HostRuntime) {
    expect_unflushed(&rt, rt.alloc(), &MATCHED, LINE, UNWRITTEN);
}

#[test]
fn a_flush_that_fails_without_a_match(rt: HostRuntime) {
    let run = Run {
        name: "no match",
        words: &["lotosseq", "ever", "<while>", "<any>", "B", "B"],
        ..MATCHED
    };
    expect_unflushed(&rt, rt.alloc(), &run, b"", UNWRITTEN);
}

#[test]
fn each_read_fails_in_turn(rt: HostRuntime) {
    let run = Run {
        piece: 4,
        output: SINGLE,
        ..MATCHED
    };
    for number in 1usize..30 {
        expect_unreadable(&rt, rt.alloc(), &run, number);
    }
}

#[test]
fn a_match_longer_than_any_depth(rt: HostRuntime) -> Result<(), AllocError> {
    let words = repeated_words(rt.alloc(), &["lotosseq", "ever"], &["A"], 256)?;
    let line = repeated(rt.alloc(), b"A", b" A", 255, b"\n")?;
    expect_output(&rt, rt.alloc(), words.as_slice(), ONE_GATE, line.as_slice());
    Ok(())
}
