//! Runs with what makes their internal steps: the output, the message, and the status.

use super::rows::{ROW, Row, expect_rows};
use super::worked_texts::{MEETING, SERVER, VANISHING};

/// An internal action of the text, and a hidden gate.
const MIXED: &[u8] =
    b"specification H [a, b] : noexit behaviour hide s in i; a; s; b; stop endspec";

/// A hiding above a call, whose process has the gate by another name.
const CALLED: &[u8] = b"specification S [a] : noexit behaviour hide b in P [b]
where process P [x] : noexit := x; P [x] endproc endspec";

/// A hiding in a process that is called with a gate of the same name.
const INSIDE: &[u8] = b"specification S [h] : noexit behaviour P [h]
where process P [x] : noexit := hide h in (x; h; P [x]) endproc endspec";

/// A process that hides its formal gate.
const FORMAL: &[u8] = b"specification S [a] : noexit behaviour P [a]
where process P [x] : noexit := hide x in x; stop endproc endspec";

/// Two hidden gates: a label comes after one, and nothing after the other.
const PARTED: &[u8] =
    b"specification S [a] : noexit behaviour hide s, t in (s; a; stop [] t; stop) endspec";

/// Two hidden gates: a label comes after one, and hidden steps without end after the other.
const ROUND: &[u8] =
    b"specification S [a] : noexit behaviour hide t, u, v in (t; a; stop [] u; Q [v])
where process Q [x] : noexit := x; Q [x] endproc endspec";

/// An internal step that leads out of a loop, beside the loop.
const QUITTING: &[u8] =
    b"specification S [go] : noexit behaviour hide quit, retry in go; P [quit, retry]
where process P [x, y] : noexit := x; stop [] y; P [x, y] endproc endspec";

/// Two internal steps out of a loop, one before it and one after it.
const WAITING: &[u8] =
    b"specification S [req] : noexit behaviour hide ans, retry, give_up in req; P [ans, retry, give_up]
where process P [x, y, z] : noexit := x; stop [] y; P [x, y, z] [] z; stop endproc endspec";

/// A label after each of two internal steps; only after one of them it comes again.
const ONCE: &[u8] = b"specification S [c] : noexit behaviour hide a, b in P [a, b, c]
where process P [x, y, z] : noexit := x; z; stop [] y; z; P [x, y, z] endproc endspec";

/// A label after each of two internal steps; only after one of them it goes on.
const ENTERED: &[u8] =
    b"specification S [b] : noexit behaviour hide a, c in (a; b; stop [] c; Q [b])
where process Q [x] : noexit := x; Q [x] endproc endspec";

/// A process that calls itself with its gates exchanged, below their hiding.
const EXCHANGED: &[u8] = b"specification S [g] : noexit behaviour hide a, b in (g; P [a, b])
where process P [x, y] : noexit := x; P [y, x] endproc endspec";

/// A process that hides a gate in its call of itself.
const NESTED: &[u8] = b"specification S [g] : noexit behaviour hide a in P [a]
where process P [x] : noexit := hide b in (x; P [b]) endproc endspec";

/// Matches: what makes an internal step, and by which name it goes.
#[rattlefmt::skip]
const MATCHES: &[Row] = &[
    Row { name: "each kind of internal step", text: MEETING,
        words: "ever --hidden <until> EXIT", output: b"A B C exit : A i(S) B i(exit) C exit\n", ..ROW },
    Row { name: "the internal action of the text", text: SERVER,
        words: "ever --hidden REQ <refuses> RSP", output: b"REQ : REQ i\n", ..ROW },
    Row { name: "with --explain too", text: MEETING,
        words: "ever --explain --hidden A B", output: b"A B : A i(S) B\n", ..ROW },
    Row { name: "internal steps as labels", text: MEETING,
        words: "ever --strong --hidden A i B i", output: b"A i B i : A i(S) B i(exit)\n", ..ROW },
    Row { name: "a gate that the option hides", text: MIXED,
        words: "ever --hide A --hidden B", output: b"B : i i(A) i(S) B\n", ..ROW },
    Row { name: "a gate by its name at the hiding", text: CALLED,
        words: "ever --strong --hidden i i", output: b"i i : i(B) i(B)\n", ..ROW },
    Row { name: "a gate that a process hides, called with another of that name", text: INSIDE,
        words: "ever --hidden H H", output: b"H H : H i(H) H\n", ..ROW },
    Row { name: "a formal gate that its process hides", text: FORMAL,
        words: "ever --strong --hidden i", output: b"i : i(X)\n", ..ROW },
    Row { name: "no step", text: MIXED, words: "ever --hidden", output: b"<empty> : <empty>\n", ..ROW },
];

/// Ends about what can come after, and which of two hidden gates is at the step before such an end.
#[rattlefmt::skip]
const ENDS: &[Row] = &[
    Row { name: "a loop", text: VANISHING,
        words: "ever --hidden <until> <livelock>", output: b"A B : A B <forever> [i(H)]\n", ..ROW },
    Row { name: "a loop with a label", text: VANISHING,
        words: "ever --hidden '<until> <forever> A'", output: b"<empty> : <empty> <forever> [A i(H)]\n", ..ROW },
    Row { name: "a state from which a label never comes", text: VANISHING,
        words: "ever --hidden '<until> <never> A'", output: b"A B : A B\n", ..ROW },
    Row { name: "of two steps the one after which the label comes", text: PARTED,
        words: "ever --hidden A", output: b"A : i(S) A\n", ..ROW },
    Row { name: "of two steps the one after which nothing comes", text: PARTED,
        words: "ever --strong --hidden i <deadlock>", output: b"i : i(T)\n", ..ROW },
    Row { name: "of two steps the one after which it goes on for ever", text: ROUND,
        words: "ever --strong --hidden i <livelock>", output: b"i : i(U) <forever> [i(V)]\n", ..ROW },
    Row { name: "of two steps the one after which a label never comes", text: ROUND,
        words: "ever --strong --hidden i <never> A", output: b"i : i(U)\n", ..ROW },
];

/// Loops: the internal steps that are named come again.
#[rattlefmt::skip]
const LOOPS: &[Row] = &[
    Row { name: "not the step that leads out of the loop", text: QUITTING,
        words: "ever --hidden GO <livelock>", output: b"GO : GO <forever> [i(RETRY)]\n", ..ROW },
    Row { name: "neither of two such steps", text: WAITING,
        words: "ever --hidden <until> <livelock>", output: b"REQ : REQ <forever> [i(RETRY)]\n", ..ROW },
    Row { name: "not the step after which the label comes once", text: ONCE,
        words: "ever --hidden <forever> C", output: b"<empty> : <empty> <forever> [i(B) C]\n", ..ROW },
    Row { name: "the step that leads to the loop", text: ENTERED,
        words: "ever --hidden <forever> B", output: b"<empty> : <empty> <forever> i(C) [B]\n", ..ROW },
    Row { name: "two turns, if what is hidden alternates", text: EXCHANGED,
        words: "ever --hidden G <livelock>", output: b"G : G <forever> [i(A) i(B)]\n", ..ROW },
    Row { name: "a first turn, if what is hidden stays the same only then", text: NESTED,
        words: "ever --hidden <livelock>", output: b"<empty> : <empty> <forever> i(A) [i(B)]\n", ..ROW },
];

/// Listings.
#[rattlefmt::skip]
const LISTINGS: &[Row] = &[
    Row { name: "by steps", text: MIXED, words: "search --depth 4 --hidden A B", output: b"A B : i A i(S) B\n", ..ROW },
    Row { name: "by labels", text: MIXED,
        words: "search --length 2 --hidden A B", output: b"A B : i A i(S) B\n", ..ROW },
    Row { name: "all sequences", text: MIXED, words: "search --depth 9 --hidden <while> <any>",
        output: b"<empty> : <empty>\nA : i A\nA B : i A i(S) B\n", ..ROW },
    Row { name: "after a line of such a listing", text: MIXED,
        words: "search --depth 9 --hidden --after 'A : i A' <while> <any>", output: b"A B : i A i(S) B\n", ..ROW },
    Row { name: "by labels, after a mark, as many as the limit", text: MIXED,
        words: "search --length 9 --hidden --after <empty> --limit 1 <while> <any>",
        output: b"A : i A\n", message: b"lotosseq: stopped after A: limit reached\n", status: 3, ..ROW },
    Row { name: "a step whose end is as demanded", text: PARTED,
        words: "search --depth 1 --strong --hidden i <deadlock>", output: b"i : i(T)\n", ..ROW },
    Row { name: "a step whose end is as demanded, by labels", text: PARTED,
        words: "search --length 1 --strong --hidden i <refuses> A", output: b"i : i(T)\n", ..ROW },
    Row { name: "termination inside", text: MEETING,
        words: "search --length 3 --hidden A B C", output: b"A B C : A i(S) B i(exit) C\n", ..ROW },
];

#[test]
fn matches(rt: HostRuntime) {
    expect_rows(&rt, rt.alloc(), MATCHES);
}

#[test]
fn ends(rt: HostRuntime) {
    expect_rows(&rt, rt.alloc(), ENDS);
}

#[test]
fn listings(rt: HostRuntime) {
    expect_rows(&rt, rt.alloc(), LISTINGS);
}

#[test]
fn loops(rt: HostRuntime) {
    expect_rows(&rt, rt.alloc(), LOOPS);
}
