//! Searches with a bound on the terms of a prefix.

use crate::rows::{ROW, Row, expect_rows};
use crate::worked_texts::{BRANCHES, SHORT_OR_LONGER};

#[rattlefmt::skip]
const ROWS: &[Row] = &[
    Row { name: "a prefix is oversized before any line", text: SHORT_OR_LONGER,
        words: "search --depth 2 --terms 1 <any>",
        message: b"lotosseq: stopped before the first line: more than 1 terms at A\n", status: 4, ..ROW },
    Row { name: "a prefix is oversized after a line", text: BRANCHES, words: "search --depth 1 --terms 1 <any>",
        output: b"A\n", message: b"lotosseq: stopped after A: more than 1 terms at B\n", status: 4, ..ROW },
    Row { name: "the limit comes before the prefix that is oversized", text: BRANCHES,
        words: "search --depth 1 --terms 1 --limit 1 <any>", output: b"A\n",
        message: b"lotosseq: stopped after A: limit reached\n", status: 3, ..ROW },
    Row { name: "a prefix is oversized after the mark", text: BRANCHES,
        words: "search --depth 1 --terms 1 --after A <any>",
        message: b"lotosseq: stopped before the first line: more than 1 terms at B\n", status: 4, ..ROW },
    Row { name: "a prefix is oversized after a line after the mark", text: BRANCHES,
        words: "search --depth 1 --terms 1 --after <empty> <any>", output: b"A\n",
        message: b"lotosseq: stopped after A: more than 1 terms at B\n", status: 4, ..ROW },
    Row { name: "the mark is oversized", text: BRANCHES, words: "search --depth 1 --terms 1 --after B <any>",
        message: b"lotosseq: stopped before the first line: more than 1 terms at B\n", status: 4, ..ROW },
    Row { name: "a prefix is oversized before the mark", text: BRANCHES,
        words: "search --depth 1 --terms 1 --after 'A A' <any>",
        message: b"lotosseq: stopped before the first line: more than 1 terms at B\n", status: 4, ..ROW },
    Row { name: "no prefix is oversized", text: BRANCHES,
        words: "search --depth 1 --terms 2 <any>", output: b"A\nB\n", ..ROW },
];

#[test]
fn oversized_prefixes(rt: HostRuntime) {
    expect_rows(&rt, rt.alloc(), ROWS);
}
