//! Names that are similar to another one, and gates inside a specification.
use lotos_check::accept;
use lotos_explain::{formal_gate, hidden_gate, similar_name};
use lotos_text::{Name, Specification, parse};
use std::alloc::Global;

const GATES: &[u8] = b"specification S [put, get, gets, a] : noexit behaviour stop endspec";

/// A name, and the most similar one of GATES.
const SIMILAR: &[(&str, Option<&str>)] = &[
    ("GET", Some("GET")),
    // Two edits; three to PUT.
    ("GTE", Some("GET")),
    // One edit to GET and one to GETS.
    ("GES", Some("GET")),
    ("PUTS", Some("PUT")),
    // At least three edits to each.
    ("PAGE", None),
    // One edit, and the name has one byte.
    ("B", None),
    ("AB", Some("A")),
    ("", None),
];

/// Whether the name of GATES that is found to be similar is this one.
fn has_similar(alloc: Global, name: &str, want: Option<&str>) -> bool {
    let answer = accept(alloc, GATES);
    match &answer {
        Ok(found) => has_similar_among(alloc, name, found.system.gates(), want),
        Err(_) => false,
    }
}

fn has_similar_among(alloc: Global, name: &str, gates: &[Name], want: Option<&str>) -> bool {
    match similar_name(alloc, name, gates) {
        Ok(Some(gate)) => want == Some(gate.text()),
        Ok(None) => want.is_none(),
        Err(_) => false,
    }
}

#[test]
fn finds_the_most_similar_name(rt: HostRuntime) {
    for (name, want) in SIMILAR {
        assert!(rt; has_similar(rt.alloc(), *name, *want), "{name}");
    }
}

const HIDING: &[u8] = b"specification S [a] : noexit behaviour hide b, c in a; stop endspec";

/// The gates of the body come before those of the process.
const HIDING_TWICE: &[u8] =
    b"specification S [a] : noexit behaviour P [a] [] hide x in a; stop where process P [y] : noexit := hide b in hide b, x in y; stop endproc endspec";

const NESTED: &[u8] =
    b"specification S [a] : noexit behaviour stop where process P [u] : noexit := stop where process Q [v] : noexit := stop endproc endproc process R [u, v] : noexit := stop endproc endspec";

/// A text, a name, and the offset of the first gate of this name that is hidden.
const HIDDEN: &[(&[u8], &str, Option<usize>)] = &[
    (HIDING, "B", Some(44)),
    (HIDING, "C", Some(47)),
    (HIDING, "A", None),
    (HIDING, "b", None),
    (HIDING_TWICE, "X", Some(53)),
    (HIDING_TWICE, "B", Some(103)),
    (HIDING_TWICE, "Y", None),
];

/// A text, a name, and the definition that has the first formal gate of this name.
const FORMAL: &[(&[u8], &str, Option<&str>)] = &[
    (HIDING, "B", None),
    (HIDING_TWICE, "Y", Some("P")),
    (HIDING_TWICE, "A", Some("S")),
    (NESTED, "U", Some("P")),
    (NESTED, "V", Some("Q")),
    (NESTED, "W", None),
];

fn has_hidden(alloc: Global, text: &[u8], name: &str, want: Option<usize>) -> bool {
    let answer = parse(alloc, text);
    match &answer {
        Ok(specification) => hidden_gate(specification, name) == want,
        Err(_) => false,
    }
}

fn has_formal(alloc: Global, text: &[u8], name: &str, want: Option<&str>) -> bool {
    let answer = parse(alloc, text);
    match &answer {
        Ok(specification) => has_formal_in(specification, name, want),
        Err(_) => false,
    }
}

fn has_formal_in(specification: &Specification, name: &str, want: Option<&str>) -> bool {
    match formal_gate(specification, name) {
        Some(process) => want == Some(process.text()),
        None => want.is_none(),
    }
}

#[test]
fn finds_where_a_gate_is_hidden(rt: HostRuntime) {
    for (text, name, want) in HIDDEN {
        assert!(rt; has_hidden(rt.alloc(), *text, *name, *want), "{name}");
    }
}

#[test]
fn finds_whose_formal_gate_it_is(rt: HostRuntime) {
    for (text, name, want) in FORMAL {
        assert!(rt; has_formal(rt.alloc(), *text, *name, *want), "{name}");
    }
}
