//! Searches that observe internal steps.

use crate::rows::{ROW, Row, expect_rows};
use crate::worked_texts::{DELAYED_OR_LONGER, DELAYED_WITHOUT_B, SLOW_WITHOUT_B};

#[rattlefmt::skip]
const ROWS: &[Row] = &[
    Row { name: "internal steps observed", text: SLOW_WITHOUT_B,
        words: "search --depth 3 --strong i I A", output: b"i i A\n", ..ROW },
    Row { name: "internal steps observed are not passed over", text: SLOW_WITHOUT_B,
        words: "search --depth 3 --strong A", status: 1, ..ROW },
    Row { name: "until an internal step", text: SLOW_WITHOUT_B,
        words: "search --depth 3 --strong <until> i", output: b"i\n", ..ROW },
    Row { name: "a sequence is its own least run", text: DELAYED_OR_LONGER,
        words: "search --depth 2 --strong --explain <until> <deadlock>", output: b"A B : A B\ni A : i A\n", ..ROW },
    Row { name: "after a line, internal steps observed", text: DELAYED_OR_LONGER,
        words: "search --depth 2 --strong --after 'A B' <until> <deadlock>", output: b"i A\n", ..ROW },
    Row { name: "after a line with an internal step", text: DELAYED_OR_LONGER,
        words: "search --depth 2 --strong --after 'I a' <until> <deadlock>", status: 1, ..ROW },
    Row { name: "hidden steps shown",
        text: b"specification S [a,b] : noexit behaviour hide a in a; b; stop [] b; stop endspec",
        words: "search --depth 2 --strong <until> <deadlock>", output: b"B\ni B\n", ..ROW },
    Row { name: "a set is not closed where internal steps are observed", text: DELAYED_WITHOUT_B,
        words: "search --depth 2 --strong --terms 1 i A", output: b"i A\n", ..ROW },
];

#[test]
fn internal_steps_shown(rt: HostRuntime) {
    expect_rows(&rt, rt.alloc(), ROWS);
}
