//! Searches for deadlocks, elements, depths and least runs.

use crate::rows::{ROW, Row, expect_rows};
use crate::worked_texts::DISABLED;

/// `a` and `b` after two internal steps, or after one.
const TWO_OR_ONE: &[u8] =
    b"specification S [a,b] : noexit behaviour i; i; a; b; stop [] i; a; b; stop endspec";

#[rattlefmt::skip]
const ROWS: &[Row] = &[
    Row { name: "a term with an internal step is no deadlock",
        text: b"specification S [a,b] : noexit behaviour i; stop endspec",
        words: "search --depth 0 <deadlock>", status: 1, ..ROW },
    Row { name: "a deadlock after an internal step", text: b"specification S [a,b] : noexit behaviour i; stop endspec",
        words: "search --depth 1 --explain <deadlock>", output: b"<empty> : i\n", ..ROW },
    Row { name: "until passes over no label of its own",
        text: b"specification S [a,b] : noexit behaviour a; b; b; stop endspec",
        words: "search --depth 3 <until> B", output: b"A B\n", ..ROW },
    Row { name: "the bound is one for each prefix",
        text: b"specification S [a,b] : noexit behaviour a; stop [] b; stop endspec",
        words: "search --depth 1 --terms 1 <any>", output: b"A\nB\n", ..ROW },
    Row { name: "any case, and a comment", text: b"SPECIFICATION s [A] : NoExit BEHAVIOR a (* ; *) ; Stop ENDSPEC",
        words: "search --depth 1 a", output: b"A\n", ..ROW },
    Row { name: "two derivations, the longer first", text: TWO_OR_ONE,
        words: "search --depth 3 A B", output: b"A B\n", ..ROW },
    Row { name: "both derivations are too long", text: TWO_OR_ONE, words: "search --depth 2 A B", status: 1, ..ROW },
    Row { name: "the least run of two", text: TWO_OR_ONE,
        words: "search --depth 4 --explain A B", output: b"A B : i A B\n", ..ROW },
    Row { name: "the least run, whose deadlock comes later",
        text: b"specification S [a,b] : noexit behaviour i; a; stop [] a; i; stop endspec",
        words: "search --depth 2 --explain A <deadlock>", output: b"A : A i\n", ..ROW },
    Row { name: "the least run, whose end is anywhere",
        text: b"specification S [a,b] : noexit behaviour i; a; stop [] a; i; stop endspec",
        words: "search --depth 2 --explain A", output: b"A : A\n", ..ROW },
    Row { name: "a word is a mark", text: DISABLED,
        words: "search --depth 2 --explain --after 'B : B' <until> <deadlock>",
        output: b"A B : A B\nA exit : A exit\n", ..ROW },
];

#[test]
fn ends_and_least_words(rt: HostRuntime) {
    expect_rows(&rt, rt.alloc(), ROWS);
}
