//! Searches that refuse words that name no gate of the specification, and the same searches without `--known`.

use crate::rows::{REFUSED, REFUSED_FIRST, ROW, Row, expect_refused_first, expect_rows_in_pieces};
use crate::worked_texts::{DELAYED, ONE_STEP, TWO_STEPS, UNDECLARED};

/// Words that are misspelt, with and without the option.
#[rattlefmt::skip]
const MISSPELT: &[Row] = &[
    Row { name: "each word names a gate, in any case, or is exit", text: TWO_STEPS,
        words: "search --depth 3 --known a B Exit", output: b"A B exit\n", ..ROW },
    Row { name: "a misspelt gate", text: TWO_STEPS, words: "search --depth 3 --known A C exit",
        message: b"lotosseq: E49 word 2 is no gate of the specification\n", ..REFUSED },
    Row { name: "a misspelt gate in a set", text: TWO_STEPS, words: "search --depth 3 --known A <not> A,C",
        message: b"lotosseq: E49 word 3 is no gate of the specification\n", ..REFUSED },
    Row { name: "a misspelt gate without the option", text: TWO_STEPS, words: "search --depth 3 A C exit",
        message: b"lotosseq: word 2, C, is no gate of the specification and never matches\n", status: 1, ..ROW },
    Row { name: "until without its brackets", text: TWO_STEPS, words: "search --depth 3 --known until B",
        message: b"lotosseq: E49 word 1 is no gate of the specification\nlotosseq: word 1, until, may be meant as <until>\n",
        ..REFUSED },
    Row { name: "until without its brackets and without the option", text: TWO_STEPS, words: "search --depth 3 until B",
        message: b"lotosseq: word 1, until, is no gate of the specification and never matches\nlotosseq: word 1, until, may be meant as <until>\n",
        status: 1, ..ROW },
    Row { name: "until with its brackets", text: TWO_STEPS,
        words: "search --depth 3 --known <until> B", output: b"A B\n", ..ROW },
    Row { name: "options between the words are not counted", text: TWO_STEPS,
        words: "search A --depth 3 C --known exit",
        message: b"lotosseq: E49 word 2 is no gate of the specification\n", ..REFUSED },
    Row { name: "the first of two words", text: TWO_STEPS, words: "search --depth 3 --known <until> Y A X",
        message: b"lotosseq: E49 word 2 is no gate of the specification\n", ..REFUSED },
];

/// Gates that are not of the specification's own list, and words that are none.
#[rattlefmt::skip]
const SCOPES: &[Row] = &[
    Row { name: "a gate that is hidden", text: b"specification S [a] : noexit behaviour hide b in b; a; stop endspec",
        words: "search --depth 2 --known b",
        message: b"lotosseq: E49 word 1 is no gate of the specification\nlotosseq: B is hidden at 1:45, so it is not observed\n",
        ..REFUSED },
    Row { name: "a formal gate of a process",
        text: b"specification S [a] : noexit behaviour P[a] where process P [x] : noexit := x; stop endproc endspec",
        words: "search --depth 1 --known x",
        message: b"lotosseq: E49 word 1 is no gate of the specification\nlotosseq: X is a formal gate of the process P, and stands for the gate that a call gives\n",
        ..REFUSED },
    Row { name: "the actual gate of a process",
        text: b"specification S [a] : noexit behaviour P[a] where process P [x] : noexit := x; stop endproc endspec",
        words: "search --depth 1 --known a", output: b"A\n", ..ROW },
    Row { name: "a gate of the list that no step has",
        text: b"specification S [a,b] : noexit behaviour a; stop endspec",
        words: "search --depth 1 --known b", status: 1, ..ROW },
    Row { name: "termination is no gate, and always known", text: ONE_STEP,
        words: "search --depth 2 --known a EXIT", status: 1, ..ROW },
    Row { name: "internal steps are labels", text: DELAYED,
        words: "search --depth 2 --strong --known I a", output: b"i A\n", ..ROW },
    Row { name: "no word", text: TWO_STEPS, words: "search --depth 0 --known", output: b"<empty>\n", ..ROW },
    Row { name: "elements alone", text: TWO_STEPS,
        words: "search --depth 1 --known <any> <while> <any>", output: b"A\n", ..ROW },
];

/// Words that name no gate beside other faults, and marks.
#[rattlefmt::skip]
const FAULTS: &[Row] = &[
    Row { name: "a gate that is not declared, and a word that is no gate", text: UNDECLARED,
        words: "search --depth 1 --known C", message: b"lotosseq: 1:40: E21 gate B is not declared\n", ..REFUSED },
    Row { name: "the empty text, and a word that is no gate",
        words: "search --depth 1 --known C", message: b"lotosseq: 1:1: E06 text ends too early\n", ..REFUSED },
    Row { name: "a word that is no gate, after a line", text: TWO_STEPS, words: "search --depth 3 --after A --known C",
        message: b"lotosseq: E49 word 1 is no gate of the specification\n", ..REFUSED },
    Row { name: "known words, after a line with a label that is no gate", text: TWO_STEPS,
        words: "search --depth 3 --after C --known A B", output: b"A B\n", ..ROW },
];

#[test]
fn words_that_are_misspelt(rt: HostRuntime) {
    expect_rows_in_pieces(&rt, rt.alloc(), MISSPELT);
}

#[test]
fn gates_of_other_lists(rt: HostRuntime) {
    expect_rows_in_pieces(&rt, rt.alloc(), SCOPES);
}

#[test]
fn words_that_name_no_gate_beside_faults_and_marks(rt: HostRuntime) {
    expect_rows_in_pieces(&rt, rt.alloc(), FAULTS);
}

/// Command lines with words that name no gate, and a fault that is found before anything is read; its message.
#[rattlefmt::skip]
const REFUSED_UNREAD: &[Row] = &[
    Row { text: TWO_STEPS, words: "search --depth 3 --known C <while>",
        message: b"lotosseq: E48 word 2 needs a label or <any> after it\n", ..REFUSED_FIRST },
    Row { text: TWO_STEPS, words: "search --depth 3 --known C i",
        message: b"lotosseq: E45 word 2 is i, which cannot be observed\n", ..REFUSED_FIRST },
    Row { text: TWO_STEPS, words: "search --depth 3 --known --after A-B C",
        message: b"lotosseq: E46 mark is no line of a listing\n", ..REFUSED_FIRST },
];

#[test]
fn faults_of_the_pattern_and_the_mark_come_first(rt: HostRuntime) {
    expect_refused_first(&rt, rt.alloc(), REFUSED_UNREAD);
}
