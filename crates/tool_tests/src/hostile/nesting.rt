//! Each construct nested as deep as the limit allows, and one deeper.

use super::{Answer, NOTHING, SEARCH, expect, expect_refused};
use std::alloc::{AllocError, Global};
use std::process::Abort;

const FRONT: &[u8] = b"specification S [a] : noexit behaviour ";

/// A construct: what opens it and what closes it, around `stop`.
struct Construct {
    name: &'static str,
    opening: &'static [u8],
    closing: &'static [u8],
    /// The output of a search at depth 1 for `A` if it is nested 200 times.
    output: &'static [u8],
    /// The message if it is nested 201 times.
    message: &'static [u8],
}

const CONSTRUCT: Construct = Construct {
    name: "",
    opening: b"",
    closing: b"",
    output: b"",
    message: b"",
};

#[rattlefmt::skip]
const CONSTRUCTS: &[Construct] = &[
    Construct { name: "parentheses", opening: b"(", closing: b")",
        message: b"lotosseq: 1:240: E05 nesting is over 200\n", ..CONSTRUCT },
    Construct { name: "prefixes", opening: b"a;", output: b"A\n",
        message: b"lotosseq: 1:441: E05 nesting is over 200\n", ..CONSTRUCT },
    Construct { name: "internal prefixes", opening: b"i;",
        message: b"lotosseq: 1:441: E05 nesting is over 200\n", ..CONSTRUCT },
    Construct { name: "hiding", opening: b"hide a in ",
        message: b"lotosseq: 1:2040: E05 nesting is over 200\n", ..CONSTRUCT },
    Construct { name: "choices", opening: b"stop[]",
        message: b"lotosseq: 1:1244: E05 nesting is over 200\n", ..CONSTRUCT },
    Construct { name: "interleaving", opening: b"stop|||",
        message: b"lotosseq: 1:1444: E05 nesting is over 200\n", ..CONSTRUCT },
    Construct { name: "full synchronisation", opening: b"stop||",
        message: b"lotosseq: 1:1244: E05 nesting is over 200\n", ..CONSTRUCT },
    Construct { name: "synchronisation on a gate", opening: b"stop|[a]|",
        message: b"lotosseq: 1:1844: E05 nesting is over 200\n", ..CONSTRUCT },
    Construct { name: "synchronisation on no gate", opening: b"stop|[]|",
        message: b"lotosseq: 1:1644: E05 nesting is over 200\n", ..CONSTRUCT },
    Construct { name: "enabling", opening: b"exit>>",
        message: b"lotosseq: 1:1244: E05 nesting is over 200\n", ..CONSTRUCT },
    Construct { name: "disabling", opening: b"stop[>",
        message: b"lotosseq: 1:1244: E05 nesting is over 200\n", ..CONSTRUCT },
    Construct { name: "processes", opening: b"stop where process P : noexit := ", closing: b" endproc",
        message: b"lotosseq: 1:6651: E05 nesting is over 200\n", ..CONSTRUCT },
];

/// Searches the text with the construct nested 200 times.
fn expect_nested(rt: &impl Abort, alloc: Global, construct: &Construct) -> Result<(), AllocError> {
    let text = text_of(alloc, construct, 200)?;
    let answer = Answer {
        output: construct.output,
        message: NOTHING,
        status: if construct.output.is_empty() { 1 } else { 0 },
    };
    expect(rt, alloc, construct.name, SEARCH, text.as_slice(), &answer);
    Ok(())
}

/// Searches the text with the construct nested 201 times.
fn expect_too_deep(
    rt: &impl Abort,
    alloc: Global,
    construct: &Construct,
) -> Result<(), AllocError> {
    let text = text_of(alloc, construct, 201)?;
    expect_refused(
        rt,
        alloc,
        construct.name,
        text.as_slice(),
        construct.message,
    );
    Ok(())
}

#[test]
fn constructs_nest_so_deep(rt: HostRuntime) -> Result<(), AllocError> {
    for construct in CONSTRUCTS {
        expect_nested(&rt, rt.alloc(), construct)?;
    }
    Ok(())
}

#[test]
fn constructs_nest_no_deeper(rt: HostRuntime) -> Result<(), AllocError> {
    for construct in CONSTRUCTS {
        expect_too_deep(&rt, rt.alloc(), construct)?;
    }
    Ok(())
}

/// The text with the construct nested `count` times.
fn text_of(alloc: Global, construct: &Construct, count: usize) -> Result<Vec<u8>, AllocError> {
    let mut text = Vec::from_slice(alloc, FRONT)?;
    for _construct in 0..count {
        text.extend_from_slice(construct.opening)?;
    }
    text.extend_from_slice(b"stop")?;
    for _construct in 0..count {
        text.extend_from_slice(construct.closing)?;
    }
    text.extend_from_slice(b" endspec")?;
    Ok(text)
}
