//! Names in the words of a pattern that are no gates of the specification: the warning, and what could be meant.

use super::rows::{ROW, Row, expect_rows};

/// The gate SEND is at line 3, column 8, and ACK at line 3, column 14.
const LINK: &[u8] =
    b"specification Link [put, upa] : noexit\nbehaviour\n  hide send, ack in P[put, send, upa]\nwhere\n  process P [x, medium, y] : noexit := x; medium; y; P[x, medium, y] endproc\nendspec\n";

const QUESTION: Row = Row { text: LINK, ..ROW };

/// Searches, which warn.
#[rattlefmt::skip]
const WARNINGS: &[Row] = &[
    Row { name: "a similar gate", words: "search --depth 1 UPAA",
        message: b"lotosseq: word 1, UPAA, is no gate of the specification and never matches\nlotosseq: a gate of the specification has a similar name: UPA\n",
        status: 1, ..QUESTION },
    Row { name: "one edit to PUT and two to UPA", words: "search --depth 1 pua",
        message: b"lotosseq: word 1, pua, is no gate of the specification and never matches\nlotosseq: a gate of the specification has a similar name: PUT\n",
        status: 1, ..QUESTION },
    Row { name: "no similar gate", words: "search --depth 1 TOKEN",
        message: b"lotosseq: word 1, TOKEN, is no gate of the specification and never matches\n",
        status: 1, ..QUESTION },
    Row { name: "almost an element", words: "search --depth 1 While",
        message: b"lotosseq: word 1, While, is no gate of the specification and never matches\nlotosseq: word 1, While, may be meant as <while>\n",
        status: 1, ..QUESTION },
    Row { name: "almost an element, in a set", words: "search --depth 1 PUT,while", output: b"PUT\n",
        message: b"lotosseq: word 1, while, is no gate of the specification and never matches\n", ..QUESTION },
    Row { name: "in a set", words: "search --depth 1 PUT,TOKEN", output: b"PUT\n",
        message: b"lotosseq: word 1, TOKEN, is no gate of the specification and never matches\n", ..QUESTION },
    Row { name: "after <not>", words: "search --depth 1 <not> TOKEN", output: b"PUT\n",
        message: b"lotosseq: word 2, TOKEN, is no gate of the specification and never matches\n", ..QUESTION },
    Row { name: "two names", words: "search --depth 1 TOKEN UPAA",
        message: b"lotosseq: word 1, TOKEN, is no gate of the specification and never matches\nlotosseq: word 2, UPAA, is no gate of the specification and never matches\nlotosseq: a gate of the specification has a similar name: UPA\n",
        status: 1, ..QUESTION },
    Row { name: "a name twice, in two cases", words: "search --depth 1 token <until> Token,PUT",
        message: b"lotosseq: word 1, token, is no gate of the specification and never matches\n",
        status: 1, ..QUESTION },
    Row { name: "a gate that is hidden", words: "search --depth 3 put send",
        message: b"lotosseq: word 2, send, is no gate of the specification and never matches\nlotosseq: SEND is hidden at 3:8, so it is not observed\n",
        status: 1, ..QUESTION },
    Row { name: "a formal gate of a process", words: "search --depth 1 MEDIUM",
        message: b"lotosseq: word 1, MEDIUM, is no gate of the specification and never matches\nlotosseq: MEDIUM is a formal gate of the process P, and stands for the gate that a call gives\n",
        status: 1, ..QUESTION },
];

/// Searches without a warning.
#[rattlefmt::skip]
const KNOWN: &[Row] = &[
    Row { name: "gates in both cases", words: "search --depth 1 Put,UPA", output: b"PUT\n", ..QUESTION },
    Row { name: "internal steps are labels", words: "search --depth 2 --strong PUT I", output: b"PUT i\n", ..QUESTION },
    Row { name: "termination is no gate", words: "search --depth 1 Exit", status: 1, ..QUESTION },
];

/// Words that are refused.
#[rattlefmt::skip]
const REFUSALS: &[Row] = &[
    Row { name: "a similar gate, of ever", words: "ever PUT upaa",
        message: b"lotosseq: E49 word 2 is no gate of the specification\nlotosseq: a gate of the specification has a similar name: UPA\n",
        status: 2, ..QUESTION },
    Row { name: "a gate that is hidden, of ever", words: "ever --progress ACK",
        message: b"lotosseq: E49 word 1 is no gate of the specification\nlotosseq: ACK is hidden at 3:14, so it is not observed\n",
        status: 2, ..QUESTION },
    Row { name: "a gate that is hidden, of after", words: "after --progress put SEND ACK",
        message: b"lotosseq: E49 word 2 is no gate of the specification\nlotosseq: SEND is hidden at 3:8, so it is not observed\n",
        status: 2, ..QUESTION },
    Row { name: "a formal gate of a process, of after", words: "after medium",
        message: b"lotosseq: E49 word 1 is no gate of the specification\nlotosseq: MEDIUM is a formal gate of the process P, and stands for the gate that a call gives\n",
        status: 2, ..QUESTION },
    Row { name: "the second name of a set has a similar gate", words: "ever TOKEN,UPAA",
        message: b"lotosseq: E49 word 1 is no gate of the specification\n", status: 2, ..QUESTION },
    Row { name: "a gate that is hidden, with --known", words: "search --depth 1 --known PUT SEND UPAA",
        message: b"lotosseq: E49 word 2 is no gate of the specification\nlotosseq: SEND is hidden at 3:8, so it is not observed\n",
        status: 2, ..QUESTION },
];

#[test]
fn searches_that_warn(rt: HostRuntime) {
    expect_rows(&rt, rt.alloc(), WARNINGS);
}

#[test]
fn searches_that_do_not_warn(rt: HostRuntime) {
    expect_rows(&rt, rt.alloc(), KNOWN);
}

#[test]
fn names_that_are_refused(rt: HostRuntime) {
    expect_rows(&rt, rt.alloc(), REFUSALS);
}
