//! Searches for patterns with elements that repeat.

use crate::rows::{ROW, Row, expect_rows};

const A_AND_TWO_B: &[u8] = b"specification S [a,b] : noexit behaviour a; b; b; stop endspec";

#[rattlefmt::skip]
const ROWS: &[Row] = &[
    Row { name: "while a label", text: A_AND_TWO_B,
        words: "search --depth 3 A <while> B", output: b"A\nA B\nA B B\n", ..ROW },
    Row { name: "while any label", text: A_AND_TWO_B,
        words: "search --depth 3 <while> <any>", output: b"<empty>\nA\nA B\nA B B\n", ..ROW },
    Row { name: "while any label, and then one", text: A_AND_TWO_B,
        words: "search --depth 3 <while> <any> B", output: b"A B\nA B B\n", ..ROW },
    Row { name: "while twice, and then any", text: A_AND_TWO_B,
        words: "search --depth 2 <while> A <while> A <any>", output: b"A\nA B\n", ..ROW },
    Row { name: "while any label, to a deadlock", text: A_AND_TWO_B,
        words: "search --depth 3 <while> <any> <deadlock>", output: b"A B B\n", ..ROW },
];

#[test]
fn elements_that_repeat(rt: HostRuntime) {
    expect_rows(&rt, rt.alloc(), ROWS);
}
