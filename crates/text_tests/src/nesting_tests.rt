//! How deep constructs may nest.
use super::table_texts::{assert_fault, fault_of_text, joined};
use std::alloc::{AllocError, Global};
use std::test::Fail;

/// A text up to its behaviour expression, which begins at offset 39.
const FRONT: &str = "specification S [a] : noexit behaviour ";

/// A piece of text, repeated.
fn repeated(alloc: Global, piece: &str, count: usize) -> Result<String, AllocError> {
    let mut text = String::new(alloc);
    for _ in 0..count {
        text.push_str(piece)?;
    }
    Ok(text)
}

/// A text whose behaviour expression is a piece repeated, the middle, and another piece repeated as often.
fn nested(
    alloc: Global,
    piece: &str,
    middle: &str,
    closing: &str,
    count: usize,
) -> Result<String, AllocError> {
    let before = repeated(alloc, piece, count)?;
    let after = repeated(alloc, closing, count)?;
    joined(
        alloc,
        &[FRONT, before.as_str(), middle, after.as_str(), " endspec"],
    )
}

fn nested_fault(
    alloc: Global,
    piece: &str,
    middle: &str,
    closing: &str,
    count: usize,
) -> Result<(u8, usize), AllocError> {
    let text = nested(alloc, piece, middle, closing, count)?;
    Ok(fault_of_text(alloc, text.as_bytes()))
}

/// A construct, its opening, what it encloses, its closing, and the offset of the fault if 201 of it are nested.
const CONSTRUCTS: &[(&str, &str, &str, &str, usize)] = &[
    ("a prefix of a gate", "a;", "stop", "", 440),
    ("a prefix of the internal action", "i;", "stop", "", 440),
    ("parentheses", "(", "stop", ")", 239),
    ("hiding", "hide a in ", "stop", "", 2039),
    ("choice", "stop[]", "stop", "", 1243),
    ("interleaving", "stop|||", "stop", "", 1443),
    ("full synchronization", "stop||", "stop", "", 1243),
    ("synchronization on no gate", "stop|[]|", "stop", "", 1643),
    ("synchronization on a gate", "stop|[a]|", "stop", "", 1843),
    ("disabling", "stop[>", "stop", "", 1243),
    ("enabling", "exit>>", "stop", "", 1243),
    (
        "a process",
        "stop where process P:noexit:=",
        "stop",
        " endproc",
        5850,
    ),
];

/// Each construct nested 200 deep is accepted, and nested 201 deep is an error at the token that opens the last one.
#[test]
fn limits_each_construct(rt: HostRuntime) -> Result<(), Fail> {
    for (words, piece, middle, closing, at) in CONSTRUCTS {
        let most = nested_fault(rt.alloc(), piece, middle, closing, 200)?;
        assert_fault(&rt, words, most, (0, 0));
        let over = nested_fault(rt.alloc(), piece, middle, closing, 201)?;
        assert_fault(&rt, words, over, (5, *at));
    }
    Ok(())
}

/// A behaviour expression inside 200 prefixes, and the number and the offset of the fault; 0 and 0 if it is accepted.
const INSIDE: &[(&str, &str, u8, usize)] = &[
    ("a call with gates", "P[a]", 0, 0),
    ("an operator after all prefixes", "stop [] stop", 0, 0),
    (
        "a definition after all prefixes",
        "stop where process P : noexit := stop endproc",
        0,
        0,
    ),
    ("`hide`", "hide a in stop", 5, 439),
    ("a parenthesis", "(stop)", 5, 439),
    ("the semicolon of an internal action", "i ; stop", 5, 441),
    ("an internal action and no semicolon", "i stop", 4, 441),
    ("a sign of choice that fits nowhere", "[] stop", 4, 439),
    ("a semicolon that fits nowhere", "; stop", 4, 439),
    ("a semicolon after an operand", "stop ; stop", 4, 444),
    ("`process` that fits nowhere", "process", 4, 439),
    ("a word of full LOTOS", "let", 7, 439),
];

/// What may be inside 200 prefixes `a;`. Its first token is at offset 439.
#[test]
fn limits_what_is_nested(rt: HostRuntime) -> Result<(), Fail> {
    for (words, inside, number, at) in INSIDE {
        let found = nested_fault(rt.alloc(), "a;", inside, "", 200)?;
        assert_fault(&rt, words, found, (*number, *at));
    }
    Ok(())
}

/// A process definition up to its behaviour expression, after a behaviour expression.
const PROCESS: &str = "stop where process P:noexit:=";

/// An opening, what is opened 200 times before it, the text that does not fit, and the offset of the fault.
const MISFITS: &[(&str, &str, &str, usize)] = &[
    ("`hide`", "a;", "hide ;", 439),
    ("a parenthesis", "a;", "( ;", 439),
    ("the semicolon of a prefix", "a;", "a ; ]", 441),
    ("a sign of choice", "exit>>", "stop [] ;", 1244),
    ("interleaving", "exit>>", "stop ||| ;", 1244),
    ("full synchronization", "exit>>", "stop || ;", 1244),
    ("synchronization", "exit>>", "stop |[ ;", 1244),
    ("disabling", "exit>>", "stop [> ;", 1244),
    ("enabling", "exit>>", "stop >> ;", 1244),
    ("`process`", PROCESS, "stop where process ;", 5850),
];

/// Inside 200 open constructs a token that opens another is an error, whatever follows it.
#[test]
fn limits_openings_before_a_misfit(rt: HostRuntime) -> Result<(), Fail> {
    for (words, piece, middle, at) in MISFITS {
        let found = nested_fault(rt.alloc(), piece, middle, "", 200)?;
        assert_fault(&rt, words, found, (5, *at));
    }
    Ok(())
}

/// What is tested, the text before and after 199 pairs of parentheses, and the number and the offset of the fault; 0
/// and 0 if it is accepted.
const NESTED: &[(&str, &str, &str, u8, usize)] = &[
    (
        "199 parentheses on the left of a choice",
        "",
        "[](stop)",
        0,
        0,
    ),
    (
        "200 parentheses on the left of a choice",
        "(",
        ")[](stop)",
        0,
        0,
    ),
    (
        "199 parentheses on the right of a choice",
        "stop[]",
        "",
        0,
        0,
    ),
    (
        "200 parentheses on the right of a choice",
        "stop[](",
        ")",
        5,
        244,
    ),
    ("199 parentheses in a hide form", "hide a in ", "", 0, 0),
    ("200 parentheses in a hide form", "hide a in (", ")", 5, 248),
    (
        "199 parentheses in each of two processes",
        "stop where process P:noexit:=(stop)endproc process Q:noexit:=",
        "endproc",
        0,
        0,
    ),
    (
        "200 parentheses in the second process",
        "stop where process P:noexit:=stop endproc process Q:noexit:=(",
        ")endproc",
        5,
        298,
    ),
];

/// A text with 199 pairs of parentheses.
fn parenthesized(alloc: Global, before: &str, after: &str) -> Result<String, AllocError> {
    let opened = repeated(alloc, "(", 199)?;
    let closed = repeated(alloc, ")", 199)?;
    joined(
        alloc,
        &[
            FRONT,
            before,
            opened.as_str(),
            "stop",
            closed.as_str(),
            after,
            " endspec",
        ],
    )
}

fn parenthesized_fault(
    alloc: Global,
    before: &str,
    after: &str,
) -> Result<(u8, usize), AllocError> {
    let text = parenthesized(alloc, before, after)?;
    Ok(fault_of_text(alloc, text.as_bytes()))
}

/// How the constructs of a text add up.
#[test]
fn counts_nested_constructs(rt: HostRuntime) -> Result<(), Fail> {
    for (words, before, after, number, at) in NESTED {
        let found = parenthesized_fault(rt.alloc(), before, after)?;
        assert_fault(&rt, words, found, (*number, *at));
    }
    Ok(())
}
