//! Searches of each form of behaviour expression.

use crate::rows::{ROW, Row, expect_rows};
use crate::worked_texts::{DISABLED, SHORT_OR_LONGER, SLOW_WITHOUT_B};

#[rattlefmt::skip]
const ROWS: &[Row] = &[
    Row { name: "a deadlock at once", text: b"specification S [a,b] : noexit behaviour stop endspec",
        words: "search --depth 0 <deadlock>", output: b"<empty>\n", ..ROW },
    Row { name: "a sequence of two derivations once", text: SHORT_OR_LONGER,
        words: "search --depth 2 <any>", output: b"A\n", ..ROW },
    Row { name: "interleaving", text: b"specification S [a,b] : noexit behaviour a; stop ||| b; stop endspec",
        words: "search --depth 2 <until> <deadlock>", output: b"A B\nB A\n", ..ROW },
    Row { name: "disabling ends with termination", text: DISABLED,
        words: "search --depth 2 <until> <deadlock>", output: b"B\nA B\nA exit\n", ..ROW },
    Row { name: "termination waits for both sides",
        text: b"specification S [a,b] : exit behaviour exit ||| a; exit endspec",
        words: "search --depth 2 exit", status: 1, ..ROW },
    Row { name: "termination of both sides", text: b"specification S [a,b] : exit behaviour exit ||| a; exit endspec",
        words: "search --depth 2 A exit", output: b"A exit\n", ..ROW },
    Row { name: "gates of a call rename steps",
        text: b"specification S [a,b] : noexit behaviour P[a,a] where process P [x,y] : noexit := x; stop |[x]| y; x; stop endproc endspec",
        words: "search --depth 2 <until> <deadlock>", output: b"A A\n", ..ROW },
    Row { name: "internal steps count", text: SLOW_WITHOUT_B, words: "search --depth 2 --explain A", status: 1, ..ROW },
    Row { name: "a word with internal steps", text: SLOW_WITHOUT_B,
        words: "search --depth 3 --explain A", output: b"A : i i A\n", ..ROW },
    Row { name: "hiding reaches over the choice, and the shorter word is taken",
        text: b"specification S [a,b] : noexit behaviour hide a in a; b; stop [] b; stop endspec",
        words: "search --depth 2 --explain B", output: b"B : B\n", ..ROW },
];

#[test]
fn forms_of_behaviour(rt: HostRuntime) {
    expect_rows(&rt, rt.alloc(), ROWS);
}
