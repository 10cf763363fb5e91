//! Hints: a specification is read from standard input and no file is named among the words; a word is almost an element.

use super::expected_output::expect_message;
use super::rows::{REFUSED, Row, expect_rows};

/// Words that are refused, and the message, after which the hint stands if there is one.
#[rattlefmt::skip]
const ROWS: &[Row] = &[
    Row { words: "check ring.lotos",
        message: b"error: unexpected argument 'ring.lotos' found\n\nUsage: lotosseq check [OPTIONS]\n\nFor more information, try '--help'.\nlotosseq: a specification is read from standard input: lotosseq check <FILE\n",
        ..REFUSED },
    Row { words: "check --warn ring",
        message: b"error: unexpected argument 'ring' found\n\nUsage: lotosseq check [OPTIONS]\n\nFor more information, try '--help'.\nlotosseq: a specification is read from standard input: lotosseq check <FILE\n",
        ..REFUSED },
    Row { words: "cover --limit 3 ring.lotos",
        message: b"error: unexpected argument 'ring.lotos' found\n\nUsage: lotosseq cover [OPTIONS]\n\nFor more information, try '--help'.\nlotosseq: a specification is read from standard input: lotosseq cover <FILE\n",
        ..REFUSED },
    Row { words: "compare link.lotos service.lotos",
        message: b"error: unexpected argument 'link.lotos' found\n\nUsage: lotosseq compare [OPTIONS]\n\nFor more information, try '--help'.\nlotosseq: two specifications are read from standard input: cat FIRST SECOND | lotosseq compare\n",
        ..REFUSED },
    Row { words: "suite ring.lotos",
        message: b"error: unexpected argument 'ring.lotos' found\n\nUsage: lotosseq suite [OPTIONS]\n\nFor more information, try '--help'.\nlotosseq: a specification is read from standard input: lotosseq suite <FILE\n",
        ..REFUSED },
    Row { words: "graph ring.lotos",
        message: b"error: unexpected argument 'ring.lotos' found\n\nUsage: lotosseq graph [OPTIONS]\n\nFor more information, try '--help'.\nlotosseq: a specification is read from standard input: lotosseq graph <FILE\n",
        ..REFUSED },
    Row { words: "cover ring",
        message: b"error: unexpected argument 'ring' found\n\nUsage: lotosseq cover [OPTIONS]\n\nFor more information, try '--help'.\n",
        ..REFUSED },
    Row { words: "check --nothing",
        message: b"error: unexpected argument '--nothing' found\n\nUsage: lotosseq check [OPTIONS]\n\nFor more information, try '--help'.\n",
        ..REFUSED },
    Row { words: "search --depth 3 A ring.lotos",
        message: b"lotosseq: E41 word 2 is neither a label nor an element\nlotosseq: a specification is read from standard input: lotosseq search .. <FILE\n",
        ..REFUSED },
    Row { words: "search --depth 3 A ring.lotos B.",
        message: b"lotosseq: E41 word 2 is neither a label nor an element\nlotosseq: a specification is read from standard input: lotosseq search .. <FILE\n",
        ..REFUSED },
    Row { words: "search --depth 3 B. ring.lotos",
        message: b"lotosseq: E41 word 1 is neither a label nor an element\n", ..REFUSED },
    Row { words: "search --depth 3 ring.lotos.old",
        message: b"lotosseq: E41 word 1 is neither a label nor an element\n", ..REFUSED },
    Row { words: "search --depth 3 ring.lotos '--after=A  B'",
        message: b"lotosseq: E41 word 1 is neither a label nor an element\nlotosseq: a specification is read from standard input: lotosseq search .. <FILE\n",
        ..REFUSED },
    Row { words: "ever a.lotos",
        message: b"lotosseq: E41 word 1 is neither a label nor an element\nlotosseq: a specification is read from standard input: lotosseq ever .. <FILE\n",
        ..REFUSED },
    Row { words: "ever 'A two rings.lotos'",
        message: b"lotosseq: E41 word 3 is neither a label nor an element\nlotosseq: a specification is read from standard input: lotosseq ever .. <FILE\n",
        ..REFUSED },
    Row { words: "after A ring.lotos",
        message: b"lotosseq: E41 word 2 is no label\nlotosseq: a specification is read from standard input: lotosseq after .. <FILE\n",
        ..REFUSED },
    Row { words: "after 'A B.' ring.lotos", message: b"lotosseq: E41 word 2 is no label\n", ..REFUSED },
    Row { words: "ever A B-C", message: b"lotosseq: E41 word 2 is neither a label nor an element\n", ..REFUSED },
    Row { words: "ever <until>", message: b"lotosseq: E42 word 1 needs a label or <deadlock> after it\n", ..REFUSED },
];

#[test]
fn a_file_among_the_words(rt: HostRuntime) {
    expect_rows(&rt, rt.alloc(), ROWS);
}

/// Words that are refused, one of which has a slash or ends as the name of a file does or almost so, and the message.
#[rattlefmt::skip]
const FILES: &[Row] = &[
    Row { words: "cover rings/one",
        message: b"error: unexpected argument 'rings/one' found\n\nUsage: lotosseq cover [OPTIONS]\n\nFor more information, try '--help'.\nlotosseq: a specification is read from standard input: lotosseq cover <FILE\n",
        ..REFUSED },
    Row { words: "cover ring.lot",
        message: b"error: unexpected argument 'ring.lot' found\n\nUsage: lotosseq cover [OPTIONS]\n\nFor more information, try '--help'.\nlotosseq: a specification is read from standard input: lotosseq cover <FILE\n",
        ..REFUSED },
    Row { words: "cover ring.lotus",
        message: b"error: unexpected argument 'ring.lotus' found\n\nUsage: lotosseq cover [OPTIONS]\n\nFor more information, try '--help'.\n",
        ..REFUSED },
    Row { words: "search --depth 3 A ring.lot",
        message: b"lotosseq: E41 word 2 is neither a label nor an element\nlotosseq: a specification is read from standard input: lotosseq search .. <FILE\n",
        ..REFUSED },
    Row { words: "ever ./ring",
        message: b"lotosseq: E41 word 1 is neither a label nor an element\nlotosseq: a specification is read from standard input: lotosseq ever .. <FILE\n",
        ..REFUSED },
    Row { words: "ever <until> /",
        message: b"lotosseq: E42 word 1 needs a label or <deadlock> after it\nlotosseq: a specification is read from standard input: lotosseq ever .. <FILE\n",
        ..REFUSED },
    Row { words: "after A ring.lts",
        message: b"lotosseq: E41 word 2 is no label\nlotosseq: a specification is read from standard input: lotosseq after .. <FILE\n",
        ..REFUSED },
    Row { words: "after ring.lt", message: b"lotosseq: E41 word 1 is no label\n", ..REFUSED },
];

#[test]
fn the_name_of_a_file(rt: HostRuntime) {
    expect_rows(&rt, rt.alloc(), FILES);
}

#[test]
fn a_word_that_is_almost_an_element(rt: HostRuntime) {
    expect_rows(&rt, rt.alloc(), ALMOST);
}

#[test]
fn a_file_for_no_command(rt: HostRuntime) {
    expect_message(
        &rt,
        rt.alloc(),
        &["lotosseq", "ring.lotos"],
        b"",
        b"error: unrecognized subcommand 'ring.lotos'\n\nUsage: lotosseq <COMMAND>\n\nFor more information, try '--help'.\n",
        2,
    );
}

/// Words that are refused, some of them almost an element, and the message, after which the hint stands if there is one.
#[rattlefmt::skip]
const ALMOST: &[Row] = &[
    Row { words: "ever <untill> A",
        message: b"lotosseq: E41 word 1 is neither a label nor an element\nlotosseq: word 1, <untill>, may be meant as <until>\n",
        ..REFUSED },
    Row { words: "ever A <WHILE",
        message: b"lotosseq: E41 word 2 is neither a label nor an element\nlotosseq: word 2, <WHILE, may be meant as <while>\n",
        ..REFUSED },
    Row { words: "ever <until> <dedlock>",
        message: b"lotosseq: E42 word 1 needs a label or <deadlock> after it\nlotosseq: word 2, <dedlock>, may be meant as <deadlock>\n",
        ..REFUSED },
    Row { words: "ever <while> <al>", message: b"lotosseq: E48 word 1 needs a label or <any> after it\n", ..REFUSED },
    Row { words: "search --depth 1 <an>",
        message: b"lotosseq: E41 word 1 is neither a label nor an element\nlotosseq: word 1, <an>, may be meant as <any>\n",
        ..REFUSED },
    Row { words: "ever <until> <until>",
        message: b"lotosseq: E42 word 1 needs a label or <deadlock> after it\n", ..REFUSED },
    Row { words: "ever A <NOT>B",
        message: b"lotosseq: E41 word 2 is neither a label nor an element\nlotosseq: word 2, <NOT>B, lacks a blank after <not>\n",
        ..REFUSED },
    Row { words: "search --depth 1 <while><any>",
        message: b"lotosseq: E41 word 1 is neither a label nor an element\nlotosseq: word 1, <while><any>, lacks a blank after <while>\n",
        ..REFUSED },
    Row { words: "after A <not>B", message: b"lotosseq: E41 word 2 is no label\n", ..REFUSED },
    Row { words: "after A <untill>", message: b"lotosseq: E41 word 2 is no label\n", ..REFUSED },
];

#[test]
fn a_name_that_is_almost_an_element(rt: HostRuntime) {
    expect_message(
        &rt,
        rt.alloc(),
        &["lotosseq", "ever", "until", "a"],
        b"specification S [a] : exit behaviour a; exit endspec",
        b"lotosseq: E49 word 1 is no gate of the specification\nlotosseq: word 1, until, may be meant as <until>\n",
        2,
    );
}

#[test]
fn no_element_is_meant_by_a_label(rt: HostRuntime) {
    expect_message(
        &rt,
        rt.alloc(),
        &["lotosseq", "after", "a until"],
        b"specification S [a] : exit behaviour a; exit endspec",
        b"lotosseq: E49 word 2 is no gate of the specification\n",
        2,
    );
}
