//! Searches with a limit on the number of lines.

use crate::rows::{ROW, Row, expect_rows};
use crate::worked_texts::DISABLED;

#[rattlefmt::skip]
const ROWS: &[Row] = &[
    Row { name: "a limit of exactly the lines", text: DISABLED, words: "search --depth 2 --limit 3 <until> <deadlock>",
        output: b"B\nA B\nA exit\n", message: b"lotosseq: stopped after A exit: limit reached\n", status: 3, ..ROW },
    Row { name: "a limit of one line more", text: DISABLED,
        words: "search --depth 2 --limit 4 <until> <deadlock>", output: b"B\nA B\nA exit\n", ..ROW },
    Row { name: "a limit of one line less", text: DISABLED, words: "search --depth 2 --limit 2 <until> <deadlock>",
        output: b"B\nA B\n", message: b"lotosseq: stopped after A B: limit reached\n", status: 3, ..ROW },
    Row { name: "a limit after a line", text: DISABLED,
        words: "search --depth 2 --limit 1 --after B <until> <deadlock>", output: b"A B\n",
        message: b"lotosseq: stopped after A B: limit reached\n", status: 3, ..ROW },
    Row { name: "a limit that no line reaches", text: b"specification S [a,b] : noexit behaviour stop endspec",
        words: "search --depth 2 --limit 1 A", status: 1, ..ROW },
    Row { name: "without lines and with an explanation",
        text: b"specification S [a,b] : noexit behaviour a; stop endspec",
        words: "search --depth 5 --explain", output: b"<empty> : <empty>\n", ..ROW },
    Row { name: "labels of eight and nine letters, and a limit",
        text: b"specification S [abcdefgh,abcdefghi] : noexit behaviour abcdefgh; abcdefghi; stop [] abcdefghi; abcdefgh; stop endspec",
        words: "search --depth 2 --limit 2 <any> <any>", output: b"ABCDEFGH ABCDEFGHI\nABCDEFGHI ABCDEFGH\n",
        message: b"lotosseq: stopped after ABCDEFGHI ABCDEFGH: limit reached\n", status: 3, ..ROW },
    Row { name: "a label of one letter and one of nine, with an explanation",
        text: b"specification S [a,abcdefghi] : noexit behaviour a; i; abcdefghi; stop endspec",
        words: "search --depth 3 --explain A abcdefghi", output: b"A ABCDEFGHI : A i ABCDEFGHI\n", ..ROW },
];

#[test]
fn limits_of_lines(rt: HostRuntime) {
    expect_rows(&rt, rt.alloc(), ROWS);
}
