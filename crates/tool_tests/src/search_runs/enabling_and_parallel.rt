//! Searches of enabling and parallel operators, with least runs and bounds on terms.

use crate::rows::{ROW, Row, expect_rows};
use crate::worked_texts::{DELAYED_OR_LONGER, DELAYED_WITHOUT_B};

#[rattlefmt::skip]
const ROWS: &[Row] = &[
    Row { name: "recursion after enabling, one step short",
        text: b"specification S [a,b] : noexit behaviour P[a] where process P [x] : noexit := x; exit >> P[x] endproc endspec",
        words: "search --depth 4 --explain A A A", status: 1, ..ROW },
    Row { name: "recursion after enabling",
        text: b"specification S [a,b] : noexit behaviour P[a] where process P [x] : noexit := x; exit >> P[x] endproc endspec",
        words: "search --depth 5 --explain A A A", output: b"A A A : A i A i A\n", ..ROW },
    Row { name: "the least run over all ends", text: DELAYED_OR_LONGER,
        words: "search --depth 2 --explain A", output: b"A : A\n", ..ROW },
    Row { name: "the least run to a deadlock", text: DELAYED_OR_LONGER,
        words: "search --depth 2 --explain A <deadlock>", output: b"A : i A\n", ..ROW },
    Row { name: "two processes in step",
        text: b"specification S [a,b] : noexit behaviour P[a]||Q[a] where process P [x] : noexit := x; stop endproc process Q [x] : noexit := x; stop endproc endspec",
        words: "search --depth 1 A", output: b"A\n", ..ROW },
    Row { name: "more terms than one at the empty prefix", text: DELAYED_WITHOUT_B,
        words: "search --depth 2 --terms 1 A",
        message: b"lotosseq: stopped before the first line: more than 1 terms at <empty>\n", status: 4, ..ROW },
    Row { name: "as many terms as allowed", text: DELAYED_WITHOUT_B,
        words: "search --depth 2 --terms 2 A", output: b"A\n", ..ROW },
    Row { name: "hiding reaches over the choice",
        text: b"specification S [a,b] : noexit behaviour hide a in b; stop [] a; stop endspec",
        words: "search --depth 1 <any>", output: b"B\n", ..ROW },
    Row { name: "parallel operators group to the right",
        text: b"specification S [a,b] : noexit behaviour a; stop ||| b; stop |[a]| a; b; stop endspec",
        words: "search --depth 3 <until> <deadlock>", output: b"A B\nB A\n", ..ROW },
];

#[test]
fn compositions(rt: HostRuntime) {
    expect_rows(&rt, rt.alloc(), ROWS);
}
