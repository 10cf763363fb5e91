//! Searches for the sequences of at most so many labels.

use crate::rows::{ROW, Row, expect_rows};
use crate::worked_texts::{BRANCHES, GROWING, MEETING, SERVER, VANISHING};

const ACTIONS: &[u8] =
    b"specification S [a,b] : noexit behaviour i; i; a; (i; stop [] b; stop) endspec";

#[rattlefmt::skip]
const SEQUENCES: &[Row] = &[
    Row { name: "internal steps do not count", text: ACTIONS, words: "search --length=1 a", output: b"A\n", ..ROW },
    Row { name: "labels do", text: ACTIONS, words: "search --length=1 'a b'", status: 1, ..ROW },
    Row { name: "no label", text: ACTIONS, words: "search --length=0 '<while> <any>'", output: b"<empty>\n", ..ROW },
    Row { name: "a deadlock after internal steps", text: ACTIONS,
        words: "search --length=1 '<until> <deadlock>'", output: b"A\n", ..ROW },
    Row { name: "all sequences of two labels", text: SERVER,
        words: "search --length=2 '<while> <any>'", output: b"<empty>\nREQ\nREQ NAK\nREQ RSP\n", ..ROW },
    Row { name: "what comes after a set", text: SERVER,
        words: "search --length=3 'REQ RSP,NAK <any>'", output: b"REQ NAK REQ\nREQ RSP REQ\n", ..ROW },
    Row { name: "up to a label outside of a set", text: SERVER,
        words: "search --length=4 '<until> <not> REQ'", output: b"REQ NAK\nREQ RSP\n", ..ROW },
    Row { name: "termination counts as a label", text: MEETING,
        words: "search --length=9 '<while> <any>'", output: b"<empty>\nA\nA B\nA B C\nA B C exit\n", ..ROW },
    Row { name: "a length beyond all loops of a system without an end", text: SERVER,
        words: "search --length=255 '<until> <deadlock>'", status: 1, ..ROW },
];

#[rattlefmt::skip]
const OPTIONS: &[Row] = &[
    Row { name: "the first of the shortest runs, of any length", text: VANISHING,
        words: "search --length=2 --explain '<while> <any>'",
        output: b"<empty> : <empty>\nA : A\nA A : A i A\nA B : A B\n", ..ROW },
    Row { name: "the first run to a deadlock", text: ACTIONS,
        words: "search --explain --length=1 'a <deadlock>'", output: b"A : i i A i\n", ..ROW },
    Row { name: "the lines after a line", text: VANISHING,
        words: "search --length=2 '--after=A A' '<while> <any>'", output: b"A B\n", ..ROW },
    Row { name: "a limit", text: VANISHING, words: "search --length=2 --limit=2 '<while> <any>'",
        output: b"<empty>\nA\n", message: b"lotosseq: stopped after A: limit reached\n", status: 3, ..ROW },
    Row { name: "internal steps that are observed count", text: ACTIONS,
        words: "search --strong --length=3 '<while> <any>'", output: b"<empty>\ni\ni i\ni i A\n", ..ROW },
    Row { name: "a system that grows for ever by internal steps", text: GROWING, words: "search --length=1 --terms=3 A",
        message: b"lotosseq: stopped before the first line: more than 3 terms at <empty>\n", status: 4, ..ROW },
    Row { name: "a prefix is oversized after a line", text: BRANCHES, words: "search --length=1 --terms=1 <any>",
        output: b"A\n", message: b"lotosseq: stopped after A: more than 1 terms at B\n", status: 4, ..ROW },
    Row { name: "a prefix is oversized before the mark", text: BRANCHES,
        words: "search --length=2 --terms=1 '--after=B A' <any>",
        message: b"lotosseq: stopped before the first line: more than 1 terms at B\n", status: 4, ..ROW },
];

#[test]
fn sequences_by_length(rt: HostRuntime) {
    expect_rows(&rt, rt.alloc(), SEQUENCES);
}

#[test]
fn options_of_a_search_by_length(rt: HostRuntime) {
    expect_rows(&rt, rt.alloc(), OPTIONS);
}
