//! Sets of labels, and complements.

use crate::rows::{ROW, Row, expect_rows};

/// A request is answered; or, after an internal step, not.
const REQUESTS: &[u8] =
    b"specification D [req,rsp,nak] : noexit behaviour S [req,rsp,nak] where process S [req,rsp,nak] : noexit := req; (rsp; S [req,rsp,nak] [] i; nak; S [req,rsp,nak]) endproc endspec";

#[rattlefmt::skip]
const ROWS: &[Row] = &[
    Row { name: "one of two labels", text: REQUESTS,
        words: "search --depth 4 REQ rsp,NAK,rsp <any>", output: b"REQ NAK REQ\nREQ RSP REQ\n", ..ROW },
    Row { name: "one of two labels, within fewer steps", text: REQUESTS,
        words: "search --depth 3 REQ RSP,NAK <any>", output: b"REQ RSP REQ\n", ..ROW },
    Row { name: "one label that is none of two", text: REQUESTS,
        words: "search --depth 4 REQ <not> REQ,RSP", output: b"REQ NAK\n", ..ROW },
    Row { name: "up to a label that is not the first", text: REQUESTS,
        words: "search --depth 4 --explain <until> <not> REQ",
        output: b"REQ NAK : REQ i NAK\nREQ RSP : REQ RSP\n", ..ROW },
    Row { name: "labels of a set, and then another one", text: REQUESTS,
        words: "search --depth 4 <while> REQ,RSP NAK", output: b"REQ NAK\n", ..ROW },
    Row { name: "no answer between two requests", text: REQUESTS,
        words: "search --depth 9 <while> <any> REQ <while> <not> RSP,NAK REQ", status: 1, ..ROW },
    Row { name: "an internal step in a set", text: REQUESTS,
        words: "search --depth 2 --strong REQ i,RSP", output: b"REQ RSP\nREQ i\n", ..ROW },
    Row { name: "an internal step in a complement", text: REQUESTS,
        words: "search --depth 2 --strong REQ <not> RSP", output: b"REQ i\n", ..ROW },
];

#[test]
fn sets_of_labels(rt: HostRuntime) {
    expect_rows(&rt, rt.alloc(), ROWS);
}
