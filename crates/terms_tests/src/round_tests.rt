//! Steps that go round, with what makes the internal ones: worked rows.
use super::accepted_text::table_of;
use super::gate_names::texts_of;
use super::origin_tests::{add_text, labels_of};
use super::texts::{assert_text, label_text};
use lotos_normal::NormalTable;
use lotos_origins::{Origin, Round, find_round};
use lotos_terms::Label;
use std::alloc::{AllocError, Global};
use std::process::Abort;
use std::test::Fail;

/// What is tested, a specification, a row and a loop of labels, and the steps that go round, with the loop in brackets. An
/// internal step is written by what makes it.
type Row = (
    &'static str,
    &'static str,
    &'static [&'static str],
    &'static [&'static str],
    &'static str,
);

/// Worked out by hand.
const ROWS: &[Row] = &[
    (
        "an internal action of the text",
        "specification S [a] : noexit behaviour a; L where process L : noexit := i; L endproc endspec",
        &["A"],
        &["i"],
        " A [ i ]",
    ),
    (
        "labels, and more of them than a turn before the loop",
        "specification S [a] : noexit behaviour P [a] where process P [x] : noexit := x; P [x] endproc endspec",
        &["A", "A", "A"],
        &["A", "A"],
        " A A A [ A A ]",
    ),
    (
        "a step out of the loop beside it",
        "specification S [a] : noexit behaviour hide s, t in P [s, t] where process P [x, y] : noexit := x; stop [] y; P [x, y] endproc endspec",
        &[],
        &["i"],
        " [ i(T) ]",
    ),
    (
        "a process beside the loop that makes one step",
        "specification S [a] : noexit behaviour hide s, t in (P [t] ||| s; stop) where process P [x] : noexit := x; P [x] endproc endspec",
        &[],
        &["i"],
        " [ i(T) ]",
    ),
    (
        "a step that disables the loop",
        "specification S [a] : noexit behaviour hide s, t in (P [t] [> s; stop) where process P [x] : noexit := x; P [x] endproc endspec",
        &[],
        &["i"],
        " [ i(T) ]",
    ),
    (
        "gates that take turns",
        "specification S [a] : noexit behaviour hide s, t in P [s, t] where process P [x, y] : noexit := x; P [y, x] endproc endspec",
        &[],
        &["i"],
        " [ i(S) i(T) ]",
    ),
    (
        "gates that take turns, in a process that has one name for both, after the step from its call",
        "specification S [g] : noexit behaviour Q [g, g] where process Q [s, t] : noexit := hide s, t in P [s, t] endproc process P [x, y] : noexit := x; P [y, x] endproc endspec",
        &[],
        &["i"],
        " i(S) [ i(T) i(S) ]",
    ),
    (
        "three gates that take turns",
        "specification S [a] : noexit behaviour hide s, t, u in P [s, t, u] where process P [x, y, z] : noexit := x; P [y, z, x] endproc endspec",
        &[],
        &["i"],
        " [ i(S) i(T) i(U) ]",
    ),
    (
        "a first turn by another gate",
        "specification S [a] : noexit behaviour hide s in P [s] where process P [x] : noexit := hide t in (x; P [t]) endproc endspec",
        &[],
        &["i"],
        " i(S) [ i(T) ]",
    ),
    (
        "a loop beside another process",
        "specification S [a, b] : noexit behaviour a; b; stop ||| (hide t in P [t]) where process P [x] : noexit := x; P [x] endproc endspec",
        &["A"],
        &["i"],
        " A [ i(T) ]",
    ),
    (
        "a loop in the left operand of an enabling",
        "specification S [a] : noexit behaviour hide s in (P [s, a] >> a; stop) where process P [x, y] : exit := x; y; P [x, y] [] x; exit endproc endspec",
        &[],
        &["i", "A"],
        " [ i(S) A ]",
    ),
];

/// Appends the labels, each after a blank, the internal ones by their origins.
fn add_labels(
    names: &[String],
    labels: &[Label],
    origins: &[Origin],
    into: &mut String,
) -> Result<(), AllocError> {
    let mut internal = 0usize;
    for label in labels {
        into.push_str(" ")?;
        match (*label, origins.get(internal)) {
            (Label::Internal, Some(origin)) => {
                add_text(names, *origin, into)?;
                internal = internal.saturating_add(1);
            }
            _ => into.push_str(label_text(names, *label))?,
        }
    }
    Ok(())
}

/// The steps that go round.
fn round_text(alloc: Global, names: &[String], round: &Round) -> Result<String, AllocError> {
    let mut text = String::new(alloc);
    let row = round.row.as_slice();
    let turn = round.turn.as_slice();
    add_labels(names, row, round.row_origins.as_slice(), &mut text)?;
    text.push_str(" [")?;
    add_labels(names, turn, round.turn_origins.as_slice(), &mut text)?;
    text.push_str(" ]")?;
    Ok(text)
}

/// What is found from the start of a table along a row and a loop.
fn found(
    alloc: Global,
    table: &mut NormalTable,
    row: &[&str],
    turn: &[&str],
) -> Result<String, Fail> {
    let names = texts_of(alloc, table.gates())?;
    let row = labels_of(alloc, names.as_slice(), row)?;
    let turn = labels_of(alloc, names.as_slice(), turn)?;
    if turn.is_empty() {
        Err("a loop without labels")?;
    }
    let start = table.start();
    let round = find_round(alloc, table, start, row.as_slice(), turn.as_slice())?;
    Ok(round_text(alloc, names.as_slice(), &round)?)
}

#[test]
fn rounds(rt: HostRuntime) -> Result<(), Fail> {
    for (subject, text, row, turn, expected) in ROWS {
        let mut table = table_of(rt.alloc(), text)?;
        let text = found(rt.alloc(), &mut table, row, turn)?;
        assert_text(&rt, subject, text.as_str(), expected);
    }
    Ok(())
}
