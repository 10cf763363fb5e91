//! Complete runs of `compare`: the output, the message, and the status.

use super::rows::{REFUSED, ROW, Row, expect_rows_in_pieces};
use super::runs::{RUN, Run, SINGLE, Taken, WHOLE, expect_broken, expect_unreadable};

/// A link that loses messages, and a buffer.
const LINK_AND_BUFFER: &[u8] = b"specification Link [put, get] : noexit behaviour
hide send, frame, reply, ack in (Sender [put, send, ack] ||| Receiver [get, frame, reply])
|[send, frame, reply, ack]| (Medium [send, frame] ||| Medium [reply, ack])
where process Sender [put, send, ack] : noexit := put; Sending [put, send, ack]
where process Sending [put, send, ack] : noexit
:= send; (ack; Sender [put, send, ack] [] i; Sending [put, send, ack]) endproc endproc
process Receiver [get, frame, reply] : noexit := frame; get; reply; Receiver [get, frame, reply] endproc
process Medium [take, give] : noexit := take; (give; Medium [take, give] [] i; Medium [take, give]) endproc endspec
specification S [put, get] : noexit behaviour P [put, get]
where process P [put, get] : noexit := put; get; P [put, get] endproc endspec";

/// The same in the other order.
const BUFFER_AND_LINK: &[u8] = b"specification S [put, get] : noexit behaviour P [put, get]
where process P [put, get] : noexit := put; get; P [put, get] endproc endspec
specification Link [put, get] : noexit behaviour
hide send, frame, reply, ack in (Sender [put, send, ack] ||| Receiver [get, frame, reply])
|[send, frame, reply, ack]| (Medium [send, frame] ||| Medium [reply, ack])
where process Sender [put, send, ack] : noexit := put; Sending [put, send, ack]
where process Sending [put, send, ack] : noexit
:= send; (ack; Sender [put, send, ack] [] i; Sending [put, send, ack]) endproc endproc
process Receiver [get, frame, reply] : noexit := frame; get; reply; Receiver [get, frame, reply] endproc
process Medium [take, give] : noexit := take; (give; Medium [take, give] [] i; Medium [take, give]) endproc endspec";

/// A buffer and itself.
const BUFFERS: &[u8] = b"specification S [put, get] : noexit behaviour P [put, get]
where process P [put, get] : noexit := put; get; P [put, get] endproc endspec
specification S [put, get] : noexit behaviour P [put, get]
where process P [put, get] : noexit := put; get; P [put, get] endproc endspec";

/// A server that refuses a request after an internal step, and one that chooses at once.
const SERVERS: &[u8] = b"specification D [req, rsp, nak] : noexit behaviour S [req, rsp, nak]
where process S [req, rsp, nak] : noexit
:= req; (rsp; S [req, rsp, nak] [] i; nak; S [req, rsp, nak]) endproc endspec
specification D [req, rsp, nak] : noexit behaviour S [req, rsp, nak]
where process S [req, rsp, nak] : noexit
:= req; (rsp; S [req, rsp, nak] [] nak; S [req, rsp, nak]) endproc endspec";

/// A server that may refuse a request, and one that has no gate for that.
const REFUSING: &[u8] = b"specification D [req, rsp, nak] : noexit behaviour S [req, rsp, nak]
where process S [req, rsp, nak] : noexit
:= req; (rsp; S [req, rsp, nak] [] i; nak; S [req, rsp, nak]) endproc endspec
specification D [req, rsp] : noexit behaviour S [req, rsp]
where process S [req, rsp] : noexit := req; rsp; S [req, rsp] endproc endspec";

/// A choice after `a`, and one at it.
const CHOICES: &[u8] =
    b"specification T [a, b, c] : noexit behaviour a; (b; stop [] c; stop) endspec
specification T [a, b, c] : noexit behaviour a; b; stop [] a; c; stop endspec";

/// Two sides that end together, and then C; and the same in a row.
const MEETING: &[u8] = b"specification G [a, b, c] : exit
behaviour hide s in ((a; s; exit) |[s]| (s; b; exit)) >> c; exit endspec
specification G [a, b, c] : exit behaviour a; b; c; exit endspec";

/// The same, and a row in which B may come again.
const TWICE: &[u8] = b"specification G [a, b, c] : exit
behaviour hide s in ((a; s; exit) |[s]| (s; b; exit)) >> c; exit endspec
specification G [a, b, c] : exit behaviour a; b; (c; exit [] i; b; exit) endspec";

/// After A and B the one is silent for ever, and the other stops.
const ENDS: &[u8] = b"specification V [a, b] : noexit behaviour hide h in P [a, b, h]
where process P [a, b, h] : noexit := a; (h; P [a, b, h] [] b; Q [h]) endproc
process Q [h] : noexit := h; Q [h] endproc endspec
specification V [a, b] : noexit behaviour P [a, b]
where process P [a, b] : noexit := a; (i; P [a, b] [] b; stop) endproc endspec";

#[rattlefmt::skip]
const DIFFERENCES: &[Row] = &[
    Row { name: "a message is delivered twice by the first", text: LINK_AND_BUFFER, words: "compare",
        output: b"< PUT GET GET\n", status: 1, ..ROW },
    Row { name: "a message is delivered twice by the second", text: BUFFER_AND_LINK, words: "compare",
        output: b"> PUT GET GET\n", status: 1, ..ROW },
    Row { name: "the first is within the second", text: BUFFER_AND_LINK, words: "compare --within",
        message: b"lotosseq: no difference; 3 pairs of sets\n", ..ROW },
    Row { name: "the first is not within the second", text: LINK_AND_BUFFER, words: "compare --within",
        output: b"< PUT GET GET\n", status: 1, ..ROW },
    Row { name: "a system and itself", text: BUFFERS, words: "compare",
        message: b"lotosseq: no difference; 2 pairs of sets\n", ..ROW },
    Row { name: "a choice after an internal step, and one at once", text: SERVERS, words: "compare",
        message: b"lotosseq: no difference; 2 pairs of sets\n", ..ROW },
    Row { name: "a label that the second does not have", text: REFUSING, words: "compare",
        output: b"< REQ NAK\n", status: 1, ..ROW },
    Row { name: "a choice after a label, and one at it", text: CHOICES, words: "compare",
        message: b"lotosseq: no difference; 3 pairs of sets\n", ..ROW },
    Row { name: "termination that enables, and a row", text: MEETING, words: "compare",
        message: b"lotosseq: no difference; 5 pairs of sets\n", ..ROW },
    Row { name: "a label once more", text: TWICE, words: "compare", output: b"> A B B\n", status: 1, ..ROW },
    Row { name: "silent for ever, and a deadlock", text: ENDS, words: "compare",
        message: b"lotosseq: no difference; 3 pairs of sets\n", ..ROW },
    Row { name: "nothing at all, twice", words: "compare",
        text: b"specification S : noexit behaviour stop endspec specification S : noexit behaviour stop endspec",
        message: b"lotosseq: no difference; 1 pair of sets\n", ..ROW },
    Row { name: "at once, the smaller label first", words: "compare",
        text: b"specification S [b] : noexit behaviour b; stop endspec specification S [a] : noexit behaviour a; stop endspec",
        output: b"> A\n", status: 1, ..ROW },
    Row { name: "at once, and only the first is asked about", words: "compare --within",
        text: b"specification S [b] : noexit behaviour b; stop endspec specification S [a] : noexit behaviour a; stop endspec",
        output: b"< B\n", status: 1, ..ROW },
    Row { name: "termination alone", words: "compare",
        text: b"specification S : exit behaviour exit endspec specification S : noexit behaviour stop endspec",
        output: b"< exit\n", status: 1, ..ROW },
    Row { name: "a gate of neither's list, hidden in both", words: "compare",
        text: b"specification S [a] : noexit behaviour hide b in b; a; stop endspec specification S [a] : noexit behaviour a; stop endspec",
        message: b"lotosseq: no difference; 2 pairs of sets\n", ..ROW },
];

/// Internal steps as labels.
#[rattlefmt::skip]
const STRONG: &[Row] = &[
    Row { name: "an internal step between two labels", text: MEETING, words: "compare --strong",
        output: b"> A B\n", status: 1, ..ROW },
    Row { name: "an internal step after the other labels", words: "compare --strong",
        text: b"specification S [a] : noexit behaviour i; a; stop endspec specification S [a] : noexit behaviour a; stop endspec",
        output: b"> A\n", status: 1, ..ROW },
    Row { name: "an internal step of the first alone", words: "compare --strong --within",
        text: b"specification S [a] : noexit behaviour i; a; stop endspec specification S [a] : noexit behaviour a; stop endspec",
        output: b"< i\n", status: 1, ..ROW },
];

/// One side of two systems.
#[rattlefmt::skip]
const INTERFACES: &[Row] = &[
    Row { name: "a gate of both is hidden", text: SERVERS, words: "compare --hide rsp",
        message: b"lotosseq: no difference; 2 pairs of sets\n", ..ROW },
    Row { name: "a gate of the first alone is hidden", text: REFUSING, words: "compare --hide NAK",
        output: b"< REQ REQ\n", status: 1, ..ROW },
    Row { name: "only a gate of both", text: REFUSING, words: "compare --only req",
        message: b"lotosseq: no difference; 2 pairs of sets\n", ..ROW },
    Row { name: "only a gate of the first", text: REFUSING, words: "compare --only NAK",
        output: b"< NAK\n", status: 1, ..ROW },
    Row { name: "a name that is no gate of either", text: REFUSING, words: "compare --hide REQ,NAK,NAKS,X",
        message: b"lotosseq: E52 NAKS is no gate of the specification\n", ..REFUSED },
];

/// `a`, at once and after an internal step.
const DELAYED_FIRST: &[u8] =
    b"specification S [a] : noexit behaviour i; a; stop endspec specification S [a] : noexit behaviour a; stop endspec";

const DELAYED_SECOND: &[u8] =
    b"specification S [a] : noexit behaviour a; stop endspec specification S [a] : noexit behaviour i; a; stop endspec";

/// Two terms after `a a`; and `b` at once.
const LATER: &[u8] =
    b"specification S [a] : noexit behaviour a; a; i; a; stop endspec specification S [a,b] : noexit behaviour a; a; stop [] b; stop endspec";

/// Two terms after `a a`; and a difference after `b`, which comes after `a`.
const AFTER_THE_STOP: &[u8] =
    b"specification S [a,b,c] : noexit behaviour a; a; i; a; stop [] b; c; stop endspec
specification S [a,b,c] : noexit behaviour a; a; a; stop [] b; stop endspec";

/// Two terms after `a b`; and a difference after `a`.
const BEFORE_THE_STOP: &[u8] =
    b"specification S [a,b,c] : noexit behaviour a; (b; i; b; stop [] c; stop) endspec
specification S [a,b,c] : noexit behaviour a; b; b; stop endspec";

/// Bounds on the normal forms of a set.
#[rattlefmt::skip]
const TERMS: &[Row] = &[
    Row { name: "two terms of the first at the start", text: DELAYED_FIRST, words: "compare --terms 1",
        message: b"lotosseq: stopped: more than 1 terms at <empty> in the first specification\n", status: 4, ..ROW },
    Row { name: "two terms of the second at the start", text: DELAYED_SECOND, words: "compare --terms 1",
        message: b"lotosseq: stopped: more than 1 terms at <empty> in the second specification\n", status: 4, ..ROW },
    Row { name: "two terms at the start, and two are allowed", text: DELAYED_SECOND, words: "compare --terms 2",
        message: b"lotosseq: no difference; 2 pairs of sets\n", ..ROW },
    Row { name: "a difference before two terms", text: LATER, words: "compare --terms 1",
        output: b"> B\n", status: 1, ..ROW },
    Row { name: "two terms, and the difference is not asked for", text: LATER, words: "compare --terms 1 --within",
        message: b"lotosseq: stopped: more than 1 terms at A A in the first specification\n", status: 4, ..ROW },
    Row { name: "and two are allowed", text: LATER, words: "compare --terms 2 --within",
        output: b"< A A A\n", status: 1, ..ROW },
    Row { name: "two terms, and a difference after a shorter sequence", text: AFTER_THE_STOP,
        words: "compare --terms 1",
        message: b"lotosseq: stopped: more than 1 terms at A A in the first specification\n", status: 4, ..ROW },
    Row { name: "and two are allowed before it", text: AFTER_THE_STOP, words: "compare --terms 2",
        output: b"< B C\n", status: 1, ..ROW },
    Row { name: "a difference after the sequence that two terms come after", text: BEFORE_THE_STOP,
        words: "compare --terms 1",
        output: b"< A C\n", status: 1, ..ROW },
];

/// Bounds on the pairs of sets.
#[rattlefmt::skip]
const STATES: &[Row] = &[
    Row { name: "two pairs, and one is allowed", text: BUFFERS, words: "compare --states 1",
        message: b"lotosseq: stopped: more than 1 pairs of sets; --states N allows more\n", status: 4, ..ROW },
    Row { name: "two pairs, and two are allowed", text: BUFFERS, words: "compare --states 2",
        message: b"lotosseq: no difference; 2 pairs of sets\n", ..ROW },
    Row { name: "three pairs before the difference, and two are allowed", text: LINK_AND_BUFFER,
        words: "compare --states 2",
        message: b"lotosseq: stopped: more than 2 pairs of sets; --states N allows more\n", status: 4, ..ROW },
    Row { name: "and three are allowed", text: LINK_AND_BUFFER, words: "compare --states 3",
        output: b"< PUT GET GET\n", status: 1, ..ROW },
    Row { name: "a fourth pair before a difference after a shorter sequence", text: AFTER_THE_STOP,
        words: "compare --states 3",
        message: b"lotosseq: stopped: more than 3 pairs of sets; --states N allows more\n", status: 4, ..ROW },
    Row { name: "and four are allowed", text: AFTER_THE_STOP, words: "compare --states 4",
        output: b"< B C\n", status: 1, ..ROW },
];

/// Texts that are refused.
#[rattlefmt::skip]
const REFUSALS: &[Row] = &[
    Row { name: "the empty text", words: "compare", message: b"lotosseq: 1:1: E06 text ends too early\n", ..REFUSED },
    Row { name: "one specification", text: b"specification S : noexit behaviour stop endspec", words: "compare",
        message: b"lotosseq: 1:48: E06 text ends too early\n", ..REFUSED },
    Row { name: "a third specification", words: "compare",
        text: b"specification S : exit behaviour exit endspec\nspecification S : exit behaviour exit endspec\nspecification",
        message: b"lotosseq: 3:1: E04 token is not expected\n", ..REFUSED },
    Row { name: "a fault of the second", words: "compare",
        text: b"specification S : exit behaviour exit endspec\nspecification S : exit behaviour a; exit endspec",
        message: b"lotosseq: 2:34: E21 gate A is not declared\n", ..REFUSED },
    Row { name: "a fault of each", words: "compare",
        text: b"specification S : exit behaviour b; exit endspec\nspecification S : exit behaviour a; exit endspec",
        message: b"lotosseq: 1:34: E21 gate B is not declared\n", ..REFUSED },
    Row { name: "a fault of the grammar in the second before a static one in the first", words: "compare",
        text: b"specification S : exit behaviour b; exit endspec\nspecification S : exit behaviour exit exit endspec",
        message: b"lotosseq: 2:39: E04 token is not expected\n", ..REFUSED },
];

#[test]
fn first_differences(rt: HostRuntime) {
    expect_rows_in_pieces(&rt, rt.alloc(), DIFFERENCES);
}

#[test]
fn internal_steps_as_labels(rt: HostRuntime) {
    expect_rows_in_pieces(&rt, rt.alloc(), STRONG);
}

#[test]
fn one_side_of_two_systems(rt: HostRuntime) {
    expect_rows_in_pieces(&rt, rt.alloc(), INTERFACES);
}

#[test]
fn bounds_on_the_terms(rt: HostRuntime) {
    expect_rows_in_pieces(&rt, rt.alloc(), TERMS);
}

#[test]
fn bounds_on_the_pairs(rt: HostRuntime) {
    expect_rows_in_pieces(&rt, rt.alloc(), STATES);
}

#[test]
fn texts_are_refused(rt: HostRuntime) {
    expect_rows_in_pieces(&rt, rt.alloc(), REFUSALS);
}

/// A run that writes a line.
const COMPARED: Run<'static, 'static> = Run {
    name: "two systems",
    words: &["lotosseq", "compare"],
    text: TWICE,
    output: Taken { piece: 3, ..WHOLE },
    ..RUN
};

#[test]
fn the_output_fails_after_each_byte(rt: HostRuntime) {
    let message = b"lotosseq: output cannot be written\n";
    for most in 0usize..8 {
        expect_broken(&rt, rt.alloc(), &COMPARED, most, b"> A B B\n", message);
    }
}

#[test]
fn each_read_fails_in_turn(rt: HostRuntime) {
    let run = Run {
        piece: 32,
        output: SINGLE,
        ..COMPARED
    };
    for number in 1usize..6 {
        expect_unreadable(&rt, rt.alloc(), &run, number);
    }
}
