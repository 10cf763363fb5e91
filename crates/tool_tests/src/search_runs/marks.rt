//! Searches whose listing begins after a mark.

use crate::rows::{ROW, Row, expect_rows};
use crate::worked_texts::{DELAYED_OR_LONGER, DISABLED};

#[rattlefmt::skip]
const ROWS: &[Row] = &[
    Row { name: "after a line", text: DISABLED,
        words: "search --depth 2 --after B <until> <deadlock>", output: b"A B\nA exit\n", ..ROW },
    Row { name: "up to a limit", text: DISABLED, words: "search --depth 2 --limit 1 <until> <deadlock>",
        output: b"B\n", message: b"lotosseq: stopped after B: limit reached\n", status: 3, ..ROW },
    Row { name: "after the last line", text: DISABLED,
        words: "search --depth 2 --after 'A exit' <until> <deadlock>", status: 1, ..ROW },
    Row { name: "after a line that is not there", text: DISABLED,
        words: "search --depth 2 --after 'A C' <until> <deadlock>", output: b"A exit\n", ..ROW },
    Row { name: "after a line with its word", text: DELAYED_OR_LONGER,
        words: "search --depth 2 --after 'A : i A' <until> <deadlock>", output: b"A B\n", ..ROW },
    Row { name: "after the empty sequence", text: DISABLED,
        words: "search --depth 2 --after <empty> <until> <deadlock>", output: b"B\nA B\nA exit\n", ..ROW },
    Row { name: "after a line in lower case", text: DISABLED,
        words: "search --depth 2 --after 'a b' <until> <deadlock>", output: b"A exit\n", ..ROW },
    Row { name: "after a line in mixed case, whose word is not looked at", text: DISABLED,
        words: "search --depth 2 --after 'a EXIT : ??  i' <until> <deadlock>", status: 1, ..ROW },
    Row { name: "after a line that is greater than all", text: DISABLED,
        words: "search --depth 2 --after 'A A A' <until> <deadlock>", status: 1, ..ROW },
    Row { name: "after a line with a label that is no gate", text: DISABLED,
        words: "search --depth 2 --after AA <until> <deadlock>", output: b"B\nA B\nA exit\n", ..ROW },
];

#[test]
fn listings_after_a_mark(rt: HostRuntime) {
    expect_rows(&rt, rt.alloc(), ROWS);
}
