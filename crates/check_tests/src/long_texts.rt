//! Explanations of faults in long lines and long texts, of which not all is shown or looked at.
use super::mistakes::assert_explained;
use std::alloc::{AllocError, Global};
use std::process::Abort;

/// The most bytes of a text in which causes are looked for, and the last offset of which it is said what could be there.
const LIMIT: usize = 65_536;

/// What is tested, how many bytes are before the text, how many there are with those after it, the text, and the lines.
type Row = (&'static str, usize, usize, &'static [u8], &'static [u8]);

const UNUSED_EXIT: &[u8] =
    b"specification S [a] : exit\nbehaviour hide b in b; exit >> a; stop\nendspec";

const RING: &[u8] =
    b"specification S [a] : noexit\nbehaviour P[a]\nwhere process P [x] : noexit := P[x] [] x; stop endproc\nendspec";

/// The parenthesis is at the offset 46.
const PARENTHESIS: &[u8] = b"specification S [a] : noexit\nbehaviour a; stop)\nendspec";

const ROWS: &[Row] = &[
    (
        "a functionality in a text of the greatest length",
        0,
        LIMIT,
        UNUSED_EXIT,
        b"  specification S [a] : exit\n                ^\n  it is `noexit` because of the `stop` at 2:35\n  Declare it `noexit`, or end the behaviour with `exit`; a call has what its process declares.\n",
    ),
    (
        "a functionality in a longer text",
        0,
        LIMIT + 1,
        UNUSED_EXIT,
        b"  specification S [a] : exit\n                ^\n  Declare it `noexit`, or end the behaviour with `exit`; a call has what its process declares.\n",
    ),
    (
        "an unguarded call in a text of the greatest length",
        0,
        LIMIT,
        RING,
        b"  where process P [x] : noexit := P[x] [] x; stop endproc\n                ^\n  P calls itself at 3:33\n  Put an action before one of the calls, as in `a; P[a]`, or the call to the right of `>>`.\n",
    ),
    (
        "an unguarded call in a longer text",
        0,
        LIMIT + 1,
        RING,
        b"  where process P [x] : noexit := P[x] [] x; stop endproc\n                ^\n  Put an action before one of the calls, as in `a; P[a]`, or the call to the right of `>>`.\n",
    ),
    (
        "a token at the last offset of which it is said what could be there",
        LIMIT - 46,
        0,
        PARENTHESIS,
        b"  behaviour a; stop)\n                   ^\n  `)` is a sign\n  could be here, among others: `[]` `|[` `||` `|||` `[>` `>>` `where` `endspec`\n  Remove it, or put `(` where the group begins: no `(` is open here.\n",
    ),
    (
        "a token at a later offset",
        LIMIT - 45,
        0,
        PARENTHESIS,
        b"  behaviour a; stop)\n                   ^\n  `)` is a sign\n  Remove it, or put `(` where the group begins: no `(` is open here.\n",
    ),
];

/// A gate that is not declared, after 70 bytes of a line of 137: 60 bytes before it are shown, and 100 in all.
const LONG_LINE: &[u8] =
    b"specification S [a] : noexit\nbehaviour a; a; a; a; a; a; a; a; a; a; a; a; a; a; a; a; a; a; a; a; b; a; a; a; a; a; a; a; a; a; a; a; a; a; a; a; a; a; a; a; a; stop\nendspec";

const LONG_LINE_CUT: &[u8] =
    b"  a; a; a; a; a; a; a; a; a; a; a; a; a; a; a; a; a; a; a; a; b; a; a; a; a; a; a; a; a; a; a; a; a; a\n                                                              ^\n  Correct the name, or add the gate to the definition and to its calls: a process sees its own gates alone.\n";

/// Gates in scope around a hiding and in it.
const AROUND_A_HIDING: &[(&str, &[u8], &[u8])] = &[
    (
        "a gate around a hiding of another one",
        b"specification S [send] : noexit\nbehaviour hide h in sned; stop\nendspec",
        b"  behaviour hide h in sned; stop\n                      ^\n  a gate in scope has a similar name: SEND\n  Correct the name, or add the gate to the definition and to its calls: a process sees its own gates alone.\n",
    ),
    (
        "a gate that is more similar than the hidden one",
        b"specification S [send] : noexit\nbehaviour hide sand in senf; stop\nendspec",
        b"  behaviour hide sand in senf; stop\n                         ^\n  a gate in scope has a similar name: SEND\n  Correct the name, or add the gate to the definition and to its calls: a process sees its own gates alone.\n",
    ),
    (
        "a gate that is less similar than the hidden one",
        b"specification S [send] : noexit\nbehaviour hide sand in sanf; stop\nendspec",
        b"  behaviour hide sand in sanf; stop\n                         ^\n  a gate in scope has a similar name: SAND\n  Correct the name, or add the gate to the definition and to its calls: a process sees its own gates alone.\n",
    ),
];

/// So many line feeds, the text, and line feeds up to this length.
fn padded(alloc: Global, before: usize, length: usize, text: &[u8]) -> Result<Vec<u8>, AllocError> {
    let mut padded_text = Vec::new(alloc);
    for _ in 0..before {
        padded_text.push(b'\n')?;
    }
    padded_text.extend_from_slice(text)?;
    for _ in padded_text.len()..length {
        padded_text.push(b'\n')?;
    }
    Ok(padded_text)
}

fn assert_padded(rt: &impl Abort, alloc: Global, row: &Row) -> Result<(), AllocError> {
    let (name, before, length, text, want) = row;
    let padded_text = padded(alloc, *before, *length, text)?;
    assert_explained(rt, alloc, name, padded_text.as_slice(), want);
    Ok(())
}

#[test]
fn explains_long_texts(rt: HostRuntime) -> Result<(), AllocError> {
    for row in ROWS {
        assert_padded(&rt, rt.alloc(), row)?;
    }
    Ok(())
}

#[test]
fn explains_a_long_line(rt: HostRuntime) {
    assert_explained(
        &rt,
        rt.alloc(),
        "a gate in a long line",
        LONG_LINE,
        LONG_LINE_CUT,
    );
}

#[test]
fn explains_gates_around_a_hiding(rt: HostRuntime) {
    for (name, text, want) in AROUND_A_HIDING {
        assert_explained(&rt, rt.alloc(), name, text, want);
    }
}
