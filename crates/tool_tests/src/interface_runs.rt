//! Questions about one interface of a specification: the output, the message, and the status.

use super::rows::{NO_MATCH, REFUSED, ROW, Row, expect_rows};
use super::runs::expect_refused_words;
use super::worked_texts::{LINK, MEETING, SERVER, TURNS, UNDECLARED};

/// First matches.
#[rattlefmt::skip]
const MATCHES: &[Row] = &[
    Row { name: "other labels come between", text: TURNS, words: "ever <while> <any> WIN RIN", ..NO_MATCH },
    Row { name: "no other label of these gates comes between", text: TURNS,
        words: "ever --only WIN,WOUT,RIN <while> <any> WIN RIN", output: b"WIN RIN\n", ..ROW },
    Row { name: "the same without the others", text: TURNS,
        words: "ever --hide BELL,ROUT <while> <any> WIN RIN", output: b"WIN RIN\n", ..ROW },
    Row { name: "one of two that come between is hidden", text: TURNS,
        words: "ever --hide BELL <while> <any> RIN WOUT", ..NO_MATCH },
    Row { name: "names in lower case, and repeats", text: TURNS,
        words: "ever --only win,Wout,win,rin,RIN <while> <any> WIN RIN", output: b"WIN RIN\n", ..ROW },
    Row { name: "the run has the hidden steps", text: TURNS,
        words: "ever --explain --hide bell <while> <any> WIN RIN", output: b"WIN RIN : WIN i RIN\n", ..ROW },
    Row { name: "hidden steps as labels", text: TURNS,
        words: "ever --strong --hide BELL <while> <any> WIN RIN", ..NO_MATCH },
    Row { name: "a hidden step as a label", text: TURNS,
        words: "ever --strong --hide BELL <while> <any> WIN i RIN", output: b"WIN i RIN\n", ..ROW },
    Row { name: "steps of hidden gates for ever", text: SERVER,
        words: "ever --only RSP <livelock>", output: b"<empty>\n", ..ROW },
    Row { name: "a hidden gate at last comes no more often than one that is not", text: TURNS,
        words: "ever --hide BELL <until> <livelock>", ..NO_MATCH },
    Row { name: "all gates are named", text: SERVER,
        words: "ever --only REQ,RSP,NAK REQ <refuses> RSP", output: b"REQ\n", ..ROW },
    Row { name: "all gates are hidden", text: SERVER, words: "ever --hide REQ,RSP,NAK <any>", ..NO_MATCH },
];

/// What can come after a sequence.
#[rattlefmt::skip]
const NEXT: &[Row] = &[
    Row { name: "a response that is hidden leads to the next request", text: SERVER,
        words: "after --hide RSP REQ", output: b"NAK\nREQ\n", ..ROW },
    Row { name: "the same by the gates that are left", text: SERVER,
        words: "after --only nak,req REQ", output: b"NAK\nREQ\n", ..ROW },
    Row { name: "all gates are named", text: SERVER,
        words: "after --only REQ,RSP,NAK REQ", output: b"NAK\nRSP\n", ..ROW },
    Row { name: "requests alone", text: SERVER, words: "after --only REQ REQ REQ", output: b"REQ\n", ..ROW },
    Row { name: "all gates are hidden", text: SERVER, words: "after --hide REQ,RSP,NAK", ..ROW },
    Row { name: "a hidden step as a label", text: TURNS,
        words: "after --strong --hide WIN i", output: b"BELL\n", ..ROW },
    Row { name: "a label that cannot come, and the one that can", text: TURNS, words: "after --hide BELL,RIN WIN WIN",
        message: b"lotosseq: label 2, WIN, cannot come here; what can: ROUT\n", status: 1, ..ROW },
];

/// Listings.
#[rattlefmt::skip]
const LISTINGS: &[Row] = &[
    Row { name: "sequences of some gates, by steps", text: TURNS,
        words: "search --depth 5 --only WIN,RIN <while> <any>", output: b"<empty>\nWIN\nWIN RIN\n", ..ROW },
    Row { name: "a hidden step is a step", text: TURNS,
        words: "search --depth 2 --hide BELL WIN RIN", status: 1, ..ROW },
    Row { name: "the least run has the hidden step", text: TURNS,
        words: "search --depth 3 --explain --hide BELL WIN RIN", output: b"WIN RIN : WIN i RIN\n", ..ROW },
    Row { name: "a hidden step as a label", text: TURNS,
        words: "search --depth 3 --strong --hide bell WIN i RIN", output: b"WIN i RIN\n", ..ROW },
    Row { name: "sequences of some gates, by labels", text: TURNS,
        words: "search --length 3 --hide BELL,ROUT <while> <any>",
        output: b"<empty>\nWIN\nWIN RIN\nWIN RIN WOUT\n", ..ROW },
    Row { name: "after a mark", text: TURNS, words: "search --length 3 --hide BELL,ROUT --after WIN <while> <any>",
        output: b"WIN RIN\nWIN RIN WOUT\n", ..ROW },
    Row { name: "no gate is left", text: TURNS,
        words: "search --length 3 --hide WIN,WOUT,BELL,RIN,ROUT <while> <any>", output: b"<empty>\n", ..ROW },
];

/// Covers.
#[rattlefmt::skip]
const COVERS: &[Row] = &[
    Row { name: "two gates in turns, with hidden steps after each", text: TURNS,
        words: "cover --only WIN,RIN", output: b"WIN RIN\n", ..ROW },
    Row { name: "a response that is hidden", text: SERVER,
        words: "cover --hide RSP", output: b"REQ NAK\nREQ REQ\n", ..ROW },
    Row { name: "all gates are hidden", text: SERVER, words: "cover --hide RSP,NAK,REQ", status: 1, ..ROW },
];

/// Words that name gates which the question is not about.
#[rattlefmt::skip]
const LEFT_OUT: &[Row] = &[
    Row { name: "a gate that is hidden", text: TURNS, words: "ever --hide WIN WIN",
        message: b"lotosseq: E49 word 1 is no gate of the specification\nlotosseq: WIN is hidden by --hide\n",
        ..REFUSED },
    Row { name: "a gate that is hidden, in lower case", text: TURNS, words: "ever --hide BELL,win <until> win",
        message: b"lotosseq: E49 word 2 is no gate of the specification\nlotosseq: WIN is hidden by --hide\n",
        ..REFUSED },
    Row { name: "a gate that is not among these", text: TURNS, words: "ever --only WIN WIN <until> RIN",
        message: b"lotosseq: E49 word 3 is no gate of the specification\nlotosseq: RIN is not in --only\n", ..REFUSED },
    Row { name: "a gate that is hidden, of after", text: SERVER, words: "after --hide RSP REQ RSP",
        message: b"lotosseq: E49 word 2 is no gate of the specification\nlotosseq: RSP is hidden by --hide\n",
        ..REFUSED },
    Row { name: "a gate that is not among these, with --known", text: TURNS,
        words: "search --depth 1 --known --only WIN WIN,RIN",
        message: b"lotosseq: E49 word 1 is no gate of the specification\nlotosseq: RIN is not in --only\n", ..REFUSED },
    Row { name: "a gate that is not among these, without --known", text: TURNS,
        words: "search --depth 1 --only WIN WIN,RIN", output: b"WIN\n",
        message: b"lotosseq: word 1, RIN, is no gate of the specification and never matches\nlotosseq: RIN is not in --only\n",
        ..ROW },
    Row { name: "a gate that is hidden, by labels", text: TURNS, words: "search --length 1 --hide WIN WIN",
        message: b"lotosseq: word 1, WIN, is no gate of the specification and never matches\nlotosseq: WIN is hidden by --hide\n",
        status: 1, ..ROW },
    Row { name: "a name that is similar to a gate that is left", text: TURNS, words: "ever --hide RIN WINE",
        message: b"lotosseq: E49 word 1 is no gate of the specification\nlotosseq: a gate of the specification has a similar name: WIN\n",
        ..REFUSED },
    Row { name: "a name that is similar to a hidden gate alone", text: TURNS, words: "ever --hide BELL BELLE",
        message: b"lotosseq: E49 word 1 is no gate of the specification\n", ..REFUSED },
];

/// Lists with a name that is none of the gates in the own list of the specification.
#[rattlefmt::skip]
const NO_GATES: &[Row] = &[
    Row { name: "a name that no gate has", text: TURNS,
        words: "ever --hide WINE WIN", message: b"lotosseq: E52 WINE is no gate of the specification\n", ..REFUSED },
    Row { name: "a name in lower case", text: TURNS,
        words: "ever --only wine WIN", message: b"lotosseq: E52 wine is no gate of the specification\n", ..REFUSED },
    Row { name: "the second name", text: TURNS, words: "ever --hide WIN,Belle,RINE WIN",
        message: b"lotosseq: E52 Belle is no gate of the specification\n", ..REFUSED },
    Row { name: "the first of two", text: TURNS, words: "search --depth 1 --only WINE,BELLE WIN",
        message: b"lotosseq: E52 WINE is no gate of the specification\n", ..REFUSED },
    Row { name: "of a search by labels", text: TURNS, words: "search --length 1 --hide WIN,WINE WIN",
        message: b"lotosseq: E52 WINE is no gate of the specification\n", ..REFUSED },
    Row { name: "of after", text: SERVER,
        words: "after --only REQS REQ", message: b"lotosseq: E52 REQS is no gate of the specification\n", ..REFUSED },
    Row { name: "of a cover", text: SERVER, words: "cover --hide REQ,REQ,RSPS",
        message: b"lotosseq: E52 RSPS is no gate of the specification\n", ..REFUSED },
    Row { name: "termination is no gate", text: MEETING, words: "ever --hide exit <until> exit",
        message: b"lotosseq: E52 exit is no gate of the specification\n", ..REFUSED },
    Row { name: "an internal step is no gate", text: SERVER, words: "ever --strong --only REQ,i REQ",
        message: b"lotosseq: E52 i is no gate of the specification\n", ..REFUSED },
    Row { name: "a gate that the text hides itself", text: LINK,
        words: "after --hide SEND PUT", message: b"lotosseq: E52 SEND is no gate of the specification\n", ..REFUSED },
    Row { name: "before a word that names no gate", text: TURNS,
        words: "ever --hide WINE WINE", message: b"lotosseq: E52 WINE is no gate of the specification\n", ..REFUSED },
    Row { name: "no name", text: TURNS, words: "ever --hide '' WIN",
        message: b"lotosseq: E52 \"\" is no gate of the specification\nlotosseq: the names of --hide and --only are joined by commas, one between two names and no blanks\n",
        ..REFUSED },
    Row { name: "no name, of a cover", text: TURNS, words: "cover --only=",
        message: b"lotosseq: E52 \"\" is no gate of the specification\nlotosseq: the names of --hide and --only are joined by commas, one between two names and no blanks\n",
        ..REFUSED },
    Row { name: "no name between commas", text: TURNS, words: "ever --hide WIN,,RIN BELL",
        message: b"lotosseq: E52 \"\" is no gate of the specification\nlotosseq: the names of --hide and --only are joined by commas, one between two names and no blanks\n",
        ..REFUSED },
    Row { name: "no name at the end", text: TURNS, words: "ever --only WIN,RIN, WIN",
        message: b"lotosseq: E52 \"\" is no gate of the specification\nlotosseq: the names of --hide and --only are joined by commas, one between two names and no blanks\n",
        ..REFUSED },
    Row { name: "a blank after a comma", text: TURNS, words: "ever --only 'WIN, RIN' WIN",
        message: b"lotosseq: E52 \\x20RIN is no gate of the specification\nlotosseq: the names of --hide and --only are joined by commas, one between two names and no blanks\n",
        ..REFUSED },
    Row { name: "bytes that are not printed", text: TURNS, words: "ever --only \x1b[2J WIN",
        message: b"lotosseq: E52 \\x1b[2J is no gate of the specification\n", ..REFUSED },
    Row { name: "letters that are no ASCII", text: TURNS, words: "ever --only W\u{cf}N WIN",
        message: b"lotosseq: E52 W\\xc3\\x8fN is no gate of the specification\n", ..REFUSED },
];

/// Texts that are refused, and lists that would be refused too.
#[rattlefmt::skip]
const REFUSED_TEXTS: &[Row] = &[
    Row { name: "the fault of the text is told", text: UNDECLARED,
        words: "ever --hide NONE A", message: b"lotosseq: 1:40: E21 gate B is not declared\n", ..REFUSED },
];

#[test]
fn matches(rt: HostRuntime) {
    expect_rows(&rt, rt.alloc(), MATCHES);
}

#[test]
fn what_can_come_next(rt: HostRuntime) {
    expect_rows(&rt, rt.alloc(), NEXT);
}

#[test]
fn listings(rt: HostRuntime) {
    expect_rows(&rt, rt.alloc(), LISTINGS);
}

#[test]
fn covers(rt: HostRuntime) {
    expect_rows(&rt, rt.alloc(), COVERS);
}

#[test]
fn words_that_name_gates_left_out(rt: HostRuntime) {
    expect_rows(&rt, rt.alloc(), LEFT_OUT);
}

#[test]
fn names_that_no_gate_has(rt: HostRuntime) {
    expect_rows(&rt, rt.alloc(), NO_GATES);
}

#[test]
fn the_fault_of_a_text_before_that_of_a_list(rt: HostRuntime) {
    expect_rows(&rt, rt.alloc(), REFUSED_TEXTS);
}

#[test]
fn the_fault_of_words_before_that_of_a_list(rt: HostRuntime) {
    expect_refused_words(
        &rt,
        rt.alloc(),
        "a list with a name that no gate has",
        &["lotosseq", "ever", "--hide", "NONE", "<until>"],
        b"lotosseq: E42 word 1 needs a label or <deadlock> after it\n",
    );
}
