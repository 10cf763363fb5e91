//! Searches for ends that refuse a set of labels.

use crate::rows::{ROW, Row, expect_rows};
use crate::worked_texts::{MEETING, SERVER, VANISHING};

#[rattlefmt::skip]
const ROWS: &[Row] = &[
    Row { name: "a step inside must come first", text: SERVER,
        words: "search --depth=1 'REQ <refuses> RSP'", status: 1, ..ROW },
    Row { name: "a set that is refused after an internal step", text: SERVER,
        words: "search --depth=2 --explain 'REQ <refuses> RSP'", output: b"REQ : REQ i\n", ..ROW },
    Row { name: "one of the set can come in each state", text: SERVER,
        words: "search --depth=9 'REQ <refuses> RSP,NAK'", status: 1, ..ROW },
    Row { name: "all labels but one are refused", text: SERVER,
        words: "search --depth=2 'REQ <refuses> <not> NAK'", output: b"REQ\n", ..ROW },
    Row { name: "by length", text: SERVER, words: "search --length=1 'REQ <refuses> RSP'", output: b"REQ\n", ..ROW },
    Row { name: "by length, with the first of the shortest runs", text: SERVER,
        words: "search --length=3 --explain '<until> <refuses> RSP'",
        output: b"<empty> : <empty>\nREQ : REQ i\nREQ NAK : REQ i NAK\nREQ RSP : REQ RSP\nREQ NAK REQ : REQ i NAK REQ i\nREQ RSP REQ : REQ RSP REQ i\n",
        ..ROW },
    Row { name: "none by length", text: SERVER,
        words: "search --length=5 '<until> <refuses> REQ,RSP,NAK'", status: 1, ..ROW },
    Row { name: "with internal steps observed they are steps all the same", text: SERVER,
        words: "search --length=2 --strong 'REQ <refuses> RSP'", status: 1, ..ROW },
    Row { name: "and may be the last that is observed", text: SERVER,
        words: "search --length=2 --strong 'REQ i <refuses> RSP'", output: b"REQ i\n", ..ROW },
    Row { name: "a deadlock refuses all labels", text: VANISHING,
        words: "search --length=4 '<until> <refuses> <any>'", status: 1, ..ROW },
    Row { name: "what can be done next is not refused", text: VANISHING,
        words: "search --length=1 '<until> <refuses> A'", status: 1, ..ROW },
    Row { name: "termination can be refused", text: MEETING,
        words: "search --length=4 '<until> <refuses> EXIT'", output: b"<empty>\nA\nA B\nA B C exit\n", ..ROW },
];

#[test]
fn sets_that_the_end_refuses(rt: HostRuntime) {
    expect_rows(&rt, rt.alloc(), ROWS);
}
