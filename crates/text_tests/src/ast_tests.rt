//! Texts that spell a specification, and what they spell.
use super::table_texts::{FRONT, definition_text, joined};
use lotos_text::TextFault;
use std::alloc::Global;
use std::process::Abort;
use std::test::Fail;

fn assert_text(rt: &impl Abort, words: &str, found: &str, expected: &str) {
    assert_eq!(rt; found, expected, "{}", words);
}

/// What is tested, a behaviour expression, and its form with every group in parentheses.
type Row = (&'static str, &'static str, &'static str);

/// How operators group and bind, hide forms and parentheses.
const GROUPINGS: &[Row] = &[
    (
        "choices group to the right",
        "stop [] stop [] stop",
        "(stop [] (stop [] stop))",
    ),
    (
        "disablings group to the right",
        "stop [> stop [> stop",
        "(stop [> (stop [> stop))",
    ),
    (
        "enablings group to the right",
        "exit >> exit >> stop",
        "(exit >>@40 (exit >>@48 stop))",
    ),
    (
        "the parallel operators share a level and group to the right",
        "a; stop ||| b; stop |[a]| a; b; stop",
        "((A@35; stop) |[]| ((B@47; stop) |[A@57]| (A@61; (B@64; stop))))",
    ),
    (
        "a prefix binds tighter than a choice",
        "a; stop [] b; stop",
        "((A@35; stop) [] (B@46; stop))",
    ),
    (
        "a choice binds tighter than a parallel operator on its right",
        "exit ||| exit [] exit",
        "(exit |[]| (exit [] exit))",
    ),
    (
        "a choice binds tighter than a parallel operator on its left",
        "stop [] stop || stop [] exit",
        "((stop [] stop) || (stop [] exit))",
    ),
    (
        "a parallel operator binds tighter than a disabling",
        "stop || stop [> stop || exit",
        "((stop || stop) [> (stop || exit))",
    ),
    (
        "a disabling binds tighter than an enabling",
        "stop [> exit >> stop [> exit",
        "((stop [> exit) >>@48 (stop [> exit))",
    ),
    (
        "prefixes, an enabling and a disabling",
        "a; exit >> b; stop [> c; stop",
        "((A@35; exit) >>@43 ((B@46; stop) [> (C@57; stop)))",
    ),
    (
        "`hide` after a semicolon reaches to the end",
        "a; hide b in b; stop [] c; stop",
        "(A@35; (hide B@43 in ((B@48; stop) [] (C@59; stop))))",
    ),
    (
        "`hide` as a right operand reaches to the end",
        "stop [] hide a in stop >> exit",
        "(stop [] (hide A@48 in (stop >>@58 exit)))",
    ),
    (
        "`hide` in parentheses ends with them",
        "(hide a in stop) >> exit",
        "((hide A@41 in stop) >>@52 exit)",
    ),
    (
        "`hide` inside `hide`",
        "hide a in hide b in stop",
        "(hide A@40 in (hide B@50 in stop))",
    ),
    (
        "two hidden gates",
        "hide a,b in stop",
        "(hide A@40,B@42 in stop)",
    ),
    (
        "parentheses leave nothing",
        "(a; stop [] b; stop)",
        "((A@36; stop) [] (B@47; stop))",
    ),
    (
        "parentheses group to the left",
        "(stop [] exit) [] stop",
        "((stop [] exit) [] stop)",
    ),
    ("parentheses about parentheses", "((stop))", "stop"),
    (
        "a prefix of parentheses",
        "a; (i; exit)",
        "(A@35; (i; exit))",
    ),
    (
        "a prefix of a choice in parentheses",
        "a; (stop [] i; exit)",
        "(A@35; (stop [] (i; exit)))",
    ),
    ("a prefix of a prefix", "i; i; stop", "(i; (i; stop))"),
];

/// Calls, lists of gates, and how tokens are spelled.
const SPELLINGS: &[Row] = &[
    ("a call without gates", "P", "P@35"),
    ("a call with gates", "P [a,b]", "P@35[A@38,B@40]"),
    ("the same gate twice", "P[a,a]", "P@35[A@37,A@39]"),
    ("a prefix of a call", "a; P[a]", "(A@35; P@38[A@40])"),
    ("a choice of calls without gates", "P[]Q", "(P@35 [] Q@38)"),
    (
        "a choice of calls without blanks",
        "P[a][]Q[b]",
        "(P@35[A@37] [] Q@41[B@43])",
    ),
    (
        "synchronization on a gate, without blanks",
        "P[a]|[b]|Q[b]",
        "(P@35[A@37] |[B@41]| Q@44[B@46])",
    ),
    (
        "full synchronization, without blanks",
        "P[a]||Q[b]",
        "(P@35[A@37] || Q@41[B@43])",
    ),
    (
        "interleaving, without blanks",
        "P[a]|||Q[b]",
        "(P@35[A@37] |[]| Q@42[B@44])",
    ),
    (
        "synchronization on no gate",
        "stop |[]| stop",
        "(stop |[]| stop)",
    ),
    (
        "synchronization on no gate, with blanks",
        "stop |[ ] | stop",
        "(stop |[]| stop)",
    ),
    (
        "synchronization on two gates",
        "stop |[a,b]| stop",
        "(stop |[A@42,B@44]| stop)",
    ),
    (
        "upper case is the same",
        "A; I; STOP [] Exit",
        "((A@35; (i; stop)) [] exit)",
    ),
    (
        "a name that begins with a reserved word",
        "stop1; i_; hide2",
        "(STOP1@35; (I_@42; HIDE2@46))",
    ),
    (
        "a comment between a gate and its semicolon",
        "a (* ; *) ; stop",
        "(A@35; stop)",
    ),
    (
        "bytes outside ASCII in a comment",
        "a(* caf\u{e9} *);stop",
        "(A@35; stop)",
    ),
];

/// The definition whose behaviour expression this is, as `definition_text` writes it.
fn behaviour_text(alloc: Global, expression: &str) -> Result<String, TextFault> {
    let text = joined(alloc, &[FRONT, expression, " endspec"])?;
    definition_text(alloc, text.as_bytes())
}

/// What comes before the behaviour expression.
const FRONT_TEXT: &str = "S@14 noexit := ";

fn without_front(text: &str) -> &str {
    text.strip_prefix(FRONT_TEXT).unwrap_or("")
}

fn assert_behaviour(
    rt: &impl Abort,
    alloc: Global,
    words: &str,
    expression: &str,
    expected: &str,
) -> Result<(), TextFault> {
    let found = behaviour_text(alloc, expression)?;
    assert_text(rt, words, without_front(found.as_str()), expected);
    Ok(())
}

fn assert_behaviours(rt: &impl Abort, alloc: Global, rows: &[Row]) -> Result<(), TextFault> {
    for (words, expression, expected) in rows {
        assert_behaviour(rt, alloc, words, expression, expected)?;
    }
    Ok(())
}

#[test]
fn reads_groups(rt: HostRuntime) -> Result<(), Fail> {
    Ok(assert_behaviours(&rt, rt.alloc(), GROUPINGS)?)
}

#[test]
fn reads_calls_and_spellings(rt: HostRuntime) -> Result<(), Fail> {
    Ok(assert_behaviours(&rt, rt.alloc(), SPELLINGS)?)
}

/// What is tested, a text, and its definitions as `write_definition` prints them.
const DEFINITIONS: &[(&str, &str, &str)] = &[
    (
        "every field",
        "specification S [a,b] : exit behaviour a; b; exit endspec",
        "S@14[A@17,B@19] exit := (A@39; (B@42; exit))",
    ),
    (
        "a header without gates",
        "SPECIFICATION x_1 : noexit BEHAVIOR stop EndSpec",
        "X_1@14 noexit := stop",
    ),
    (
        "upper and lower case, and a comment",
        "SPECIFICATION s [A] : NoExit BEHAVIOR a (* ; *) ; Stop ENDSPEC",
        "S@14[A@17] noexit := (A@38; stop)",
    ),
    (
        "one process",
        "specification S [a] : noexit behaviour P[a] where process P [x] : noexit := x; stop endproc endspec",
        "S@14[A@17] noexit := P@39[A@41] {P@58[X@61] noexit := (X@76; stop)}",
    ),
    (
        "a process without gates",
        "specification S : exit behaviour P where process P : exit := exit endproc endspec",
        "S@14 exit := P@33 {P@49 exit := exit}",
    ),
    (
        "a process in a process, and one after it",
        "specification S [a] : noexit behaviour P[a] where process P [x] : noexit := Q[x] where process Q [y] : noexit := y; P[y] endproc endproc process Q [x,y] : exit := exit endproc endspec",
        "S@14[A@17] noexit := P@39[A@41] {P@58[X@61] noexit := Q@76[X@78] {Q@95[Y@98] noexit := (Y@113; P@116[Y@118])}} {Q@145[X@148,Y@150] exit := exit}",
    ),
    (
        "comments and a line feed for blanks",
        "specification(**)S:noexit behaviour stop where\nprocess(*P*)P:noexit:=stop endproc(* *)endspec(**)",
        "S@17 noexit := stop {P@59 noexit := stop}",
    ),
];

fn assert_definition(
    rt: &impl Abort,
    alloc: Global,
    words: &str,
    text: &str,
    expected: &str,
) -> Result<(), TextFault> {
    let found = definition_text(alloc, text.as_bytes())?;
    assert_text(rt, words, found.as_str(), expected);
    Ok(())
}

#[test]
fn reads_definitions(rt: HostRuntime) -> Result<(), Fail> {
    for (words, text, expected) in DEFINITIONS {
        assert_definition(&rt, rt.alloc(), words, text, expected)?;
    }
    Ok(())
}
