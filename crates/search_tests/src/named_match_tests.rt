//! What makes the internal steps of first matches: worked rows.
use super::accepted_text::normal_table_of_text;
use super::named_match_run::{NamedMatch, named_match};
use super::set_texts::{HIDDEN_LOOP, MEETING, SERVER};
use lotos_origins::{Origin, Round};
use lotos_pattern::EverPattern;
use lotos_terms::Label;
use lotos_text::Name;
use std::alloc::{AllocError, Global};
use std::process::Abort;
use std::test::Fail;

/// What is tested, a specification, the words of a pattern, and the run of the first match; internal steps are not
/// observed. An internal step is written by what makes it: `i`, `i(` and the name of a hidden gate and `)`, or
/// `i(exit)`. After `<forever>` come the labels of a row, and in brackets those of a loop.
type Row = (
    &'static str,
    &'static str,
    &'static [&'static str],
    &'static str,
);

/// Two ways to an end, one with a hidden gate and one with the internal action.
const TWO_WAYS: &str =
    "specification S [a, b] : noexit behaviour hide s in (s; a; stop [] i; b; stop) endspec";

/// A loop of two hidden gates under two hidings, after one of them.
const TWO_HIDINGS: &str =
    "specification S [a] : noexit behaviour hide s in (s; (hide t in P [s, t])) where process P [x, y] : noexit := x; y; P [x, y] endproc endspec";

/// Worked out by hand.
const ROWS: &[Row] = &[
    (
        "no demand on the end",
        MEETING,
        &["<until>", "exit"],
        "A i(S) B i(exit) C exit",
    ),
    (
        "a label that never comes",
        MEETING,
        &["<until>", "<never>", "C"],
        "A i(S) B i(exit) C",
    ),
    (
        "a refused label",
        SERVER,
        &["REQ", "<refuses>", "RSP"],
        "REQ i",
    ),
    (
        "the way to an end by the internal action",
        TWO_WAYS,
        &["<until>", "<refuses>", "A"],
        "i",
    ),
    (
        "the way to an end by a hidden gate",
        TWO_WAYS,
        &["<until>", "<refuses>", "B"],
        "i(S)",
    ),
    (
        "the end where one label never comes",
        TWO_WAYS,
        &["<until>", "<never>", "A"],
        "i",
    ),
    (
        "the end where another label never comes",
        TWO_WAYS,
        &["<until>", "<never>", "B"],
        "i(S)",
    ),
    (
        "a loop of a hidden gate",
        HIDDEN_LOOP,
        &["<until>", "<livelock>"],
        "A B <forever> [ i(H) ]",
    ),
    (
        "a row before it",
        HIDDEN_LOOP,
        &["A", "<forever>", "<any>"],
        "A <forever> B [ i(H) ]",
    ),
    (
        "a loop of a label and a hidden gate",
        HIDDEN_LOOP,
        &["<until>", "<forever>", "A"],
        "<forever> [ A i(H) ]",
    ),
    (
        "a loop with the internal action of the text",
        SERVER,
        &["REQ", "<forever>", "<not>", "RSP"],
        "REQ <forever> [ i NAK REQ ]",
    ),
    (
        "a row and a loop of hidden gates",
        TWO_HIDINGS,
        &["<until>", "<livelock>"],
        "<forever> i(S) [ i(S) i(T) ]",
    ),
];

/// Appends a blank, if there is a text before it.
fn add_blank(into: &mut String) -> Result<(), AllocError> {
    if into.is_empty() {
        Ok(())
    } else {
        into.push_str(" ")
    }
}

/// Appends the name of the gate with this number.
fn add_gate(names: &[Name], number: usize, into: &mut String) -> Result<(), AllocError> {
    match names.get(number) {
        Some(name) => into.push_str(name.text()),
        None => into.push_str("no gate"),
    }
}

/// Appends an internal step, by what makes it.
fn add_origin(
    names: &[Name],
    origin: Option<&Origin>,
    into: &mut String,
) -> Result<(), AllocError> {
    match origin {
        None => into.push_str("no origin"),
        Some(Origin::Text) => into.push_str("i"),
        Some(Origin::Termination) => into.push_str("i(exit)"),
        Some(Origin::Hidden(gate)) => {
            into.push_str("i(")?;
            add_gate(names, gate.number(), into)?;
            into.push_str(")")
        }
    }
}

/// Appends the labels, the internal ones by the origins.
fn add_labels(
    names: &[Name],
    labels: &[Label],
    origins: &[Origin],
    into: &mut String,
) -> Result<(), AllocError> {
    let mut index = 0usize;
    for label in labels {
        add_blank(into)?;
        match label {
            Label::Gate(gate) => add_gate(names, gate.number(), into)?,
            Label::Exit => into.push_str("exit")?,
            Label::Internal => {
                add_origin(names, origins.get(index), into)?;
                index = index.saturating_add(1);
            }
        }
    }
    Ok(())
}

/// Appends the steps that never end.
fn add_round(names: &[Name], round: &Round, into: &mut String) -> Result<(), AllocError> {
    add_blank(into)?;
    into.push_str("<forever>")?;
    add_labels(
        names,
        round.row.as_slice(),
        round.row_origins.as_slice(),
        into,
    )?;
    into.push_str(" [")?;
    add_labels(
        names,
        round.turn.as_slice(),
        round.turn_origins.as_slice(),
        into,
    )?;
    into.push_str(" ]")
}

/// The run and the steps that never end, as rows have them.
fn text_of(alloc: Global, names: &[Name], found: &NamedMatch) -> Result<String, AllocError> {
    let mut text = String::new(alloc);
    let run = found.ended.found.word.as_slice();
    add_labels(names, run, found.named.origins.as_slice(), &mut text)?;
    if let Some(round) = &found.named.round {
        add_round(names, round, &mut text)?;
    }
    Ok(text)
}

/// The run of the first match, with its internal steps by what makes them.
fn answer_to(alloc: Global, text: &str, words: &[&str]) -> Result<String, Fail> {
    let mut table = normal_table_of_text(alloc, text)?;
    let pattern = EverPattern::read(alloc, words, false)?;
    match named_match(alloc, &mut table, &pattern)? {
        Some(found) => Ok(text_of(alloc, table.gates(), &found)?),
        None => Ok(String::from_str(alloc, "none")?),
    }
}

fn assert_answer(rt: &impl Abort, subject: &str, found: &str, expected: &str) {
    assert_eq!(rt; found, expected, "{}", subject);
}

#[test]
fn runs_of_first_matches_have_their_origins(rt: HostRuntime) -> Result<(), Fail> {
    for (subject, text, words, expected) in ROWS {
        let found = answer_to(rt.alloc(), text, words)?;
        assert_answer(&rt, subject, found.as_str(), expected);
    }
    Ok(())
}
