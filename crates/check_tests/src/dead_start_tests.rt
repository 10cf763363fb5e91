//! Behaviours that can do nothing: specifications with their warnings.
use super::warning_lines::{Row, assert_rows, warning_lines};
use std::alloc::{AllocError, Global};
use std::test::Fail;

/// Behaviours that can do nothing, and others that can do something.
const DEAD_STARTS: &[Row] = &[
    (
        "two gates in full synchronization",
        "specification S [a, b] : noexit behaviour a; stop || b; stop endspec",
        "14 the behaviour of S can do nothing: no action, no internal step, no termination\n",
    ),
    (
        "one gate in full synchronization",
        "specification S [a] : noexit behaviour a; stop || a; stop endspec",
        "",
    ),
    (
        "an internal step in full synchronization",
        "specification S [a] : noexit behaviour a; stop || i; stop endspec",
        "",
    ),
    (
        "a list of two gates, of which each side offers another",
        "specification S [a, b] : noexit behaviour a; stop |[a, b]| b; stop endspec",
        "14 the behaviour of S can do nothing: no action, no internal step, no termination\n52 gate A of `|[..]|` is never offered on the right\n55 gate B of `|[..]|` is never offered on the left\n",
    ),
    (
        "gates that are offered, but not at once",
        "specification S [a, b] : noexit behaviour a; b; stop |[a, b]| b; a; stop endspec",
        "14 the behaviour of S can do nothing: no action, no internal step, no termination\n",
    ),
    (
        "a gate that is not in the list",
        "specification S [a, b] : noexit behaviour a; stop |[b]| b; stop endspec",
        "52 gate B of `|[..]|` is never offered on the left\n",
    ),
    (
        "a gate that is hidden on one side",
        "specification S [a] : noexit behaviour (hide a in a; stop) || a; stop endspec",
        "",
    ),
    (
        "a gate that is hidden around both sides",
        "specification S [b] : noexit behaviour hide a in (a; stop || b; stop) endspec",
        "14 the behaviour of S can do nothing: no action, no internal step, no termination\n",
    ),
    (
        "the choice of two",
        "specification S [a, b] : noexit behaviour (a; stop || b; stop) [] (b; stop || a; stop) endspec",
        "14 the behaviour of S can do nothing: no action, no internal step, no termination\n",
    ),
    (
        "the choice of one and an action",
        "specification S [a, b] : noexit behaviour (a; stop || b; stop) [] b; stop endspec",
        "",
    ),
    (
        "the choice of `stop` and `stop`",
        "specification S : noexit behaviour stop [] stop endspec",
        "14 the behaviour of S can do nothing: no action, no internal step, no termination\n",
    ),
    (
        "`stop` itself",
        "specification S : noexit behaviour stop endspec",
        "",
    ),
];

/// The same with termination, and through calls.
const DEAD_STARTS_OF_PARTS: &[Row] = &[
    (
        "`exit` beside `stop`",
        "specification S : noexit behaviour exit ||| stop endspec",
        "14 the behaviour of S can do nothing: no action, no internal step, no termination\n",
    ),
    (
        "`exit` in full synchronization with `stop`",
        "specification S : noexit behaviour exit || stop endspec",
        "14 the behaviour of S can do nothing: no action, no internal step, no termination\n",
    ),
    (
        "two times `exit`",
        "specification S : exit behaviour exit ||| exit endspec",
        "",
    ),
    (
        "`exit` inside a hiding",
        "specification S : exit behaviour hide a in exit endspec",
        "38 gate A of `hide` is not used\n",
    ),
    (
        "`>>` after what can do nothing",
        "specification S [a, b] : noexit behaviour (exit || a; exit) >> b; stop endspec",
        "14 the behaviour of S can do nothing: no action, no internal step, no termination\n",
    ),
    (
        "`>>` after `exit`",
        "specification S : noexit behaviour exit >> stop endspec",
        "",
    ),
    (
        "`[>` between two that can do nothing",
        "specification S [a, b] : noexit behaviour (a; stop || b; stop) [> (stop ||| stop) endspec",
        "14 the behaviour of S can do nothing: no action, no internal step, no termination\n",
    ),
    (
        "`[>` before an action",
        "specification S [a, b] : noexit behaviour (a; stop || b; stop) [> a; stop endspec",
        "",
    ),
    (
        "`[>` after `exit`",
        "specification S [a, b] : exit behaviour exit [> (a; exit || b; exit) endspec",
        "",
    ),
    (
        "gates that are exchanged in a call",
        "specification S [a, b] : noexit behaviour P[a, b] || P[b, a] where process P [x, y] : noexit := x; y; stop endproc endspec",
        "14 the behaviour of S can do nothing: no action, no internal step, no termination\n",
    ),
    (
        "gates in one order in two calls",
        "specification S [a, b] : noexit behaviour P[a, b] || P[a, b] where process P [x, y] : noexit := x; y; stop endproc endspec",
        "",
    ),
    (
        "two formal gates that are one actual gate",
        "specification S [a, b] : noexit behaviour P[a, a] || P[b, b] where process P [x, y] : noexit := x; stop [] y; stop endproc endspec",
        "14 the behaviour of S can do nothing: no action, no internal step, no termination\n",
    ),
    (
        "gates with the names of formal ones",
        "specification S [x, y] : noexit behaviour P[y, x] || x; stop where process P [x, y] : noexit := x; y; stop endproc endspec",
        "14 the behaviour of S can do nothing: no action, no internal step, no termination\n42 the gates of P have changed places: its own are X, Y\n",
    ),
    (
        "calls after an action",
        "specification S [a, b] : noexit behaviour P[a] || P[b] where process P [x] : noexit := x; P[x] endproc endspec",
        "14 the behaviour of S can do nothing: no action, no internal step, no termination\n",
    ),
    (
        "calls of calls, of processes before and after",
        "specification S [a, b] : noexit behaviour P[a] || R[b] where process P [x] : noexit := Q[x] endproc process Q [x] : noexit := x; R[x] endproc process R [x] : noexit := P[x] endproc endspec",
        "14 the behaviour of S can do nothing: no action, no internal step, no termination\n",
    ),
    (
        "the same with one gate",
        "specification S [a] : noexit behaviour P[a] || R[a] where process P [x] : noexit := Q[x] endproc process Q [x] : noexit := x; R[x] endproc process R [x] : noexit := P[x] endproc endspec",
        "",
    ),
    (
        "one that is declared `exit`",
        "specification S [a, b] : exit behaviour P[a] || P[b] where process P [x] : exit := x; P[x] endproc endspec",
        "14 S is declared exit, but can never terminate\n14 the behaviour of S can do nothing: no action, no internal step, no termination\n67 P is declared exit, but can never terminate\n",
    ),
];

#[test]
fn warns_about_behaviours_that_can_do_nothing(rt: HostRuntime) -> Result<(), Fail> {
    Ok(assert_rows(&rt, rt.alloc(), DEAD_STARTS)?)
}

#[test]
fn warns_about_parts_that_can_do_nothing(rt: HostRuntime) -> Result<(), Fail> {
    Ok(assert_rows(&rt, rt.alloc(), DEAD_STARTS_OF_PARTS)?)
}

/// How many processes the chain has.
const PROCESSES_OF_CHAIN: usize = 2000;

/// A specification with processes that each call the next one, or the one before. The last one begins with an action by
/// one gate, and the behaviour waits for the other.
fn chain_text(alloc: Global, forward: bool) -> Result<String, AllocError> {
    let mut text = String::new(alloc);
    text.push_str("specification S[a, b] : noexit behaviour P0[a] || b; stop where ")?;
    for number in 0..PROCESSES_OF_CHAIN {
        if forward {
            add_link(alloc, &mut text, number)?;
        } else {
            add_link(
                alloc,
                &mut text,
                (PROCESSES_OF_CHAIN - 1).saturating_sub(number),
            )?;
        }
    }
    text.push_str("process P")?;
    text.push_str(PROCESSES_OF_CHAIN.to_string(alloc)?.as_str())?;
    text.push_str("[x] : noexit := x; stop endproc endspec")?;
    Ok(text)
}

/// A process that calls the next one.
fn add_link(alloc: Global, text: &mut String, number: usize) -> Result<(), AllocError> {
    text.push_str("process P")?;
    text.push_str(number.to_string(alloc)?.as_str())?;
    text.push_str("[x] : noexit := P")?;
    text.push_str(number.saturating_add(1).to_string(alloc)?.as_str())?;
    text.push_str("[x] ||| stop endproc ")
}

#[test]
fn warns_about_a_long_chain_of_processes(rt: HostRuntime) -> Result<(), Fail> {
    for forward in [true, false] {
        let text = chain_text(rt.alloc(), forward)?;
        let lines = warning_lines(rt.alloc(), text.as_str())?;
        assert_eq!(rt;
            lines.as_str(),
            "14 the behaviour of S can do nothing: no action, no internal step, no termination\n"
        );
    }
    Ok(())
}
