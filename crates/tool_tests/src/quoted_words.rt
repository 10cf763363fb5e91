//! Complete runs in which a word of the command line holds several words of the pattern.

use super::rows::{NO_MATCH, REFUSED, REFUSED_FIRST, ROW, Row, expect_refused_first, expect_rows};
use super::worked_texts::{BELL, TWO_STEPS};

/// Patterns that are accepted.
#[rattlefmt::skip]
const ANSWERS: &[Row] = &[
    Row { name: "a question in one pair of quotes", text: BELL,
        words: "ever '<while> <any> WIN <while> <not> WOUT RIN'", output: b"WIN BELL RIN\n", ..ROW },
    Row { name: "words in quotes beside words alone, at no depth", text: BELL,
        words: "ever '<while> <not>' win,wout ' RIN'", ..NO_MATCH },
    Row { name: "words on several lines", text: BELL, words: "ever --explain '\n  <until> ROUT\n\tWOUT\r\n'",
        output: b"WIN BELL RIN ROUT WOUT : WIN BELL RIN ROUT WOUT\n", ..ROW },
    Row { name: "a sequence in one pair of quotes and a word alone", text: TWO_STEPS,
        words: "after ' a\t b\n' exit", output: b"<deadlock>\n", ..ROW },
    Row { name: "a search for words in one pair of quotes", text: TWO_STEPS,
        words: "search 'a b  exit' --depth 3", output: b"A B exit\n", ..ROW },
];

/// Words that name no gate, numbered as if each had been given alone.
#[rattlefmt::skip]
const UNKNOWN_GATES: &[Row] = &[
    Row { name: "a word after two in quotes", text: TWO_STEPS, words: "ever 'a <while>' Ab",
        message: b"lotosseq: E49 word 3 is no gate of the specification\nlotosseq: a gate of the specification has a similar name: A\n",
        ..REFUSED },
    Row { name: "a set in quotes", text: TWO_STEPS, words: "ever A 'b  <until> <not> A,exit,X'",
        message: b"lotosseq: E49 word 5 is no gate of the specification\n", ..REFUSED },
    Row { name: "a word in quotes of a sequence", text: TWO_STEPS,
        words: "after 'A B' 'exit C'", message: b"lotosseq: E49 word 4 is no gate of the specification\n", ..REFUSED },
    Row { name: "a word in quotes of a search", text: TWO_STEPS, words: "search --depth=9 --known 'A B C'",
        message: b"lotosseq: E49 word 3 is no gate of the specification\n", ..REFUSED },
];

#[test]
fn several_words_in_one(rt: HostRuntime) {
    expect_rows(&rt, rt.alloc(), ANSWERS);
}

#[test]
fn words_that_name_no_gate(rt: HostRuntime) {
    expect_rows(&rt, rt.alloc(), UNKNOWN_GATES);
}

/// Patterns that are refused before anything is read. Their words are numbered as if each had been given alone.
#[rattlefmt::skip]
const PATTERNS: &[Row] = &[
    Row { words: "ever 'A B-C D'",
        message: b"lotosseq: E41 word 2 is neither a label nor an element\n", ..REFUSED_FIRST },
    Row { words: "ever ' A  <until>' B '<any>  C,'",
        message: b"lotosseq: E41 word 5 is neither a label nor an element\n", ..REFUSED_FIRST },
    Row { words: "ever 'A --strong'",
        message: b"lotosseq: E41 word 2 is neither a label nor an element\n", ..REFUSED_FIRST },
    Row { words: "after 'A B' 'A --strong'", message: b"lotosseq: E41 word 4 is no label\n", ..REFUSED_FIRST },
    Row { words: "ever 'A <until> <any>'",
        message: b"lotosseq: E42 word 2 needs a label or <deadlock> after it\n", ..REFUSED_FIRST },
    Row { words: "ever A 'B <deadlock> C'",
        message: b"lotosseq: E43 word 4 follows an end element\n", ..REFUSED_FIRST },
    Row { words: "ever 'A <until> i'",
        message: b"lotosseq: E45 word 3 is i, which cannot be observed\n", ..REFUSED_FIRST },
    Row { words: "search --depth 1 'A B' 'C <while>'",
        message: b"lotosseq: E48 word 4 needs a label or <any> after it\n", ..REFUSED_FIRST },
    Row { words: "search 'A <not>' --depth 1",
        message: b"lotosseq: E50 word 2 needs a label after it\n", ..REFUSED_FIRST },
];

/// Patterns with a word that is empty or of blanks only: it is one word, which is refused.
#[rattlefmt::skip]
const EMPTY: &[Row] = &[
    Row { words: "ever ''", message: b"lotosseq: E41 word 1 is neither a label nor an element\n", ..REFUSED_FIRST },
    Row { words: "ever 'A B' '' C",
        message: b"lotosseq: E41 word 3 is neither a label nor an element\n", ..REFUSED_FIRST },
    Row { words: "search --depth 1 A B ' \t'",
        message: b"lotosseq: E41 word 3 is neither a label nor an element\n", ..REFUSED_FIRST },
];

#[test]
fn patterns_that_are_refused(rt: HostRuntime) {
    expect_refused_first(&rt, rt.alloc(), PATTERNS);
}

#[test]
fn words_that_hold_no_word(rt: HostRuntime) {
    expect_refused_first(&rt, rt.alloc(), EMPTY);
}
