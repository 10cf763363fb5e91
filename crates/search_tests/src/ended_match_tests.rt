//! First matches whose end a pattern demands something of: worked rows, with the row and the loop of steps that never
//! end, and bounds on the states.
use super::accepted_text::normal_table_of_text;
use super::ended_match_run::{Answer, LassoTexts, NO_MATCH, TOO_MANY, answer_of};
use super::set_texts::{HIDDEN_LOOP, MEETING, SERVER};
use lotos_normal::NormalTable;
use lotos_pattern::EverPattern;
use std::alloc::{AllocError, Global};
use std::process::Abort;
use std::test::Fail;

/// A question and the expected answer.
#[derive(Clone, Copy)]
struct Row {
    /// A specification.
    text: &'static str,
    words: &'static [&'static str],
    strong: bool,
    /// The most product states that may be stored, and the most normal forms.
    states: usize,
    /// The sequence and the run of the match; after `<forever>` the labels of the row, and then in brackets those of
    /// the loop.
    answer: &'static str,
}

const MANY: usize = 1000;

/// One label before a loop of another one.
const ROW_AND_LOOP: &str =
    "specification S [a,b] : noexit behaviour a; P[b] where process P [x] : noexit := x; P[x] endproc endspec";

/// A system that grows for ever.
const GROWING: &str =
    "specification S [a,b] : noexit behaviour P[a] where process P [x] : noexit := x; (P[x] ||| P[x]) endproc endspec";

/// Internal steps are not observed.
const ROWS: &[Row] = &[
    Row {
        text: HIDDEN_LOOP,
        words: &["<until>", "<livelock>"],
        strong: false,
        states: MANY,
        answer: "A B : A B <forever> [ i ]",
    },
    Row {
        text: HIDDEN_LOOP,
        words: &["<until>", "<never>", "A"],
        strong: false,
        states: MANY,
        answer: "A B : A B",
    },
    Row {
        text: HIDDEN_LOOP,
        words: &["<until>", "<forever>", "A"],
        strong: false,
        states: MANY,
        answer: "<empty> : <empty> <forever> [ A i ]",
    },
    Row {
        text: HIDDEN_LOOP,
        words: &["<until>", "<refuses>", "A"],
        strong: false,
        states: MANY,
        answer: NO_MATCH,
    },
    Row {
        text: HIDDEN_LOOP,
        words: &["<until>", "<refuses>", "B"],
        strong: false,
        states: MANY,
        answer: "<empty> : <empty>",
    },
    Row {
        text: HIDDEN_LOOP,
        words: &["<until>", "<never>", "A,B"],
        strong: false,
        states: MANY,
        answer: "A B : A B",
    },
    // The loop begins after the first step that goes on for ever, which is that by B.
    Row {
        text: HIDDEN_LOOP,
        words: &["A", "<forever>", "<any>"],
        strong: false,
        states: MANY,
        answer: "A : A <forever> B [ i ]",
    },
    Row {
        text: SERVER,
        words: &["<while>", "<any>", "REQ", "<forever>", "<not>", "RSP"],
        strong: false,
        states: MANY,
        answer: "REQ : REQ <forever> [ i NAK REQ ]",
    },
    Row {
        text: SERVER,
        words: &["REQ", "<forever>", "<not>", "REQ"],
        strong: false,
        states: MANY,
        answer: NO_MATCH,
    },
    Row {
        text: SERVER,
        words: &["REQ", "<refuses>", "RSP"],
        strong: false,
        states: MANY,
        answer: "REQ : REQ i",
    },
    Row {
        text: SERVER,
        words: &["REQ", "<refuses>", "RSP,NAK"],
        strong: false,
        states: MANY,
        answer: NO_MATCH,
    },
    Row {
        text: SERVER,
        words: &["<until>", "<never>", "RSP"],
        strong: false,
        states: MANY,
        answer: NO_MATCH,
    },
    Row {
        text: MEETING,
        words: &["<until>", "<never>", "C"],
        strong: false,
        states: MANY,
        answer: "A B C : A i B i C",
    },
    Row {
        text: MEETING,
        words: &["<until>", "<never>", "<not>", "C,exit"],
        strong: false,
        states: MANY,
        answer: "A B : A i B",
    },
    Row {
        text: MEETING,
        words: &["<until>", "<livelock>"],
        strong: false,
        states: MANY,
        answer: NO_MATCH,
    },
    Row {
        text: MEETING,
        words: &["<until>", "<forever>", "<any>"],
        strong: false,
        states: MANY,
        answer: NO_MATCH,
    },
    Row {
        text: ROW_AND_LOOP,
        words: &["<forever>", "A,B"],
        strong: false,
        states: MANY,
        answer: "<empty> : <empty> <forever> A [ B ]",
    },
    // No demand on the end.
    Row {
        text: MEETING,
        words: &["<until>", "<not>", "A,B"],
        strong: false,
        states: MANY,
        answer: "A B C : A i B i C",
    },
];

/// Internal steps are observed.
const STRONG_ROWS: &[Row] = &[
    Row {
        text: HIDDEN_LOOP,
        words: &["<until>", "<livelock>"],
        strong: true,
        states: MANY,
        answer: "A B : A B <forever> [ i ]",
    },
    Row {
        text: HIDDEN_LOOP,
        words: &["<until>", "<never>", "A"],
        strong: true,
        states: MANY,
        answer: "A B : A B",
    },
    Row {
        text: HIDDEN_LOOP,
        words: &["<until>", "<never>", "i"],
        strong: true,
        states: MANY,
        answer: NO_MATCH,
    },
    Row {
        text: HIDDEN_LOOP,
        words: &["<until>", "i", "<forever>", "A"],
        strong: true,
        states: MANY,
        answer: "A i : A i <forever> [ A i ]",
    },
    Row {
        text: SERVER,
        words: &["REQ", "<forever>", "<not>", "RSP"],
        strong: true,
        states: MANY,
        answer: "REQ : REQ <forever> [ i NAK REQ ]",
    },
    Row {
        text: SERVER,
        words: &["REQ", "i", "<forever>", "REQ,NAK"],
        strong: true,
        states: MANY,
        answer: "REQ i : REQ i <forever> [ NAK REQ i ]",
    },
    Row {
        text: SERVER,
        words: &["REQ", "<refuses>", "RSP"],
        strong: true,
        states: MANY,
        answer: NO_MATCH,
    },
    Row {
        text: MEETING,
        words: &["<until>", "<never>", "i"],
        strong: true,
        states: MANY,
        answer: "A i B i : A i B i",
    },
    Row {
        text: MEETING,
        words: &["<until>", "<never>", "<not>", "C,exit"],
        strong: true,
        states: MANY,
        answer: "A i B i : A i B i",
    },
];

/// Too few states, and just enough.
const BOUNDS: &[Row] = &[
    // Three normal forms, and as many product states.
    Row {
        text: HIDDEN_LOOP,
        words: &["<until>", "<never>", "A"],
        strong: false,
        states: 3,
        answer: "A B : A B",
    },
    Row {
        text: HIDDEN_LOOP,
        words: &["<until>", "<never>", "A"],
        strong: false,
        states: 2,
        answer: TOO_MANY,
    },
    Row {
        text: HIDDEN_LOOP,
        words: &["<until>", "<livelock>"],
        strong: true,
        states: 3,
        answer: "A B : A B <forever> [ i ]",
    },
    Row {
        text: HIDDEN_LOOP,
        words: &["<until>", "<livelock>"],
        strong: true,
        states: 2,
        answer: TOO_MANY,
    },
    // All normal forms are found first, though the empty sequence is a match.
    Row {
        text: HIDDEN_LOOP,
        words: &["<until>", "<forever>", "A"],
        strong: false,
        states: 2,
        answer: TOO_MANY,
    },
    Row {
        text: GROWING,
        words: &["<until>", "<never>", "B"],
        strong: false,
        states: 50,
        answer: TOO_MANY,
    },
    // None is found first if the end must refuse a set.
    Row {
        text: GROWING,
        words: &["<until>", "<refuses>", "B"],
        strong: false,
        states: 1,
        answer: "<empty> : <empty>",
    },
    // Two normal forms, and more product states.
    Row {
        text: ROW_AND_LOOP,
        words: &["A", "B", "B", "<never>", "A"],
        strong: false,
        states: 4,
        answer: "A B B : A B B",
    },
    Row {
        text: ROW_AND_LOOP,
        words: &["A", "B", "B", "<never>", "A"],
        strong: false,
        states: 3,
        answer: TOO_MANY,
    },
    // Seven normal forms, and no match.
    Row {
        text: MEETING,
        words: &["<until>", "<livelock>"],
        strong: false,
        states: 7,
        answer: NO_MATCH,
    },
    Row {
        text: MEETING,
        words: &["<until>", "<livelock>"],
        strong: false,
        states: 6,
        answer: TOO_MANY,
    },
    Row {
        text: HIDDEN_LOOP,
        words: &["<until>", "<never>", "A"],
        strong: false,
        states: 0,
        answer: TOO_MANY,
    },
    Row {
        text: HIDDEN_LOOP,
        words: &["<until>", "<livelock>"],
        strong: false,
        states: usize::MAX,
        answer: "A B : A B <forever> [ i ]",
    },
];

/// The labels, each after a blank.
fn add_labels(out: &mut String, labels: &[String]) -> Result<(), AllocError> {
    for label in labels {
        out.push_str(" ")?;
        out.push_str(label.as_str())?;
    }
    Ok(())
}

fn add_lasso(out: &mut String, lasso: &LassoTexts) -> Result<(), AllocError> {
    out.push_str(" <forever>")?;
    add_labels(out, lasso.row.as_slice())?;
    out.push_str(" [")?;
    add_labels(out, lasso.turn.as_slice())?;
    out.push_str(" ]")
}

/// The answer as rows have it.
fn answer_text(alloc: Global, answer: &Answer) -> Result<String, AllocError> {
    let mut out = String::from_str(alloc, answer.found.as_str())?;
    if let Some(lasso) = &answer.lasso {
        add_lasso(&mut out, lasso)?;
    }
    Ok(out)
}

fn answer_in(alloc: Global, table: &mut NormalTable, row: Row) -> Result<String, Fail> {
    let pattern = EverPattern::read(alloc, row.words, row.strong)?;
    let answer = answer_of(alloc, table, &pattern, row.states)?;
    Ok(answer_text(alloc, &answer)?)
}

fn answer_to(alloc: Global, row: Row) -> Result<String, Fail> {
    let mut table = normal_table_of_text(alloc, row.text)?;
    answer_in(alloc, &mut table, row)
}

fn assert_answers(rt: &impl Abort, alloc: Global, rows: &[Row]) -> Result<(), Fail> {
    for row in rows {
        let found = answer_to(alloc, *row)?;
        assert_answer(rt, *row, found.as_str());
    }
    Ok(())
}

fn assert_answer(rt: &impl Abort, row: Row, found: &str) {
    assert_eq!(rt;
        found,
        row.answer,
        "{:?} of {}, internal steps observed: {}, {} states",
        row.words, row.text, row.strong, row.states
    );
}

#[test]
fn matches_with_demanded_ends(rt: HostRuntime) -> Result<(), Fail> {
    assert_answers(&rt, rt.alloc(), ROWS)
}

#[test]
fn matches_with_demanded_ends_and_internal_steps(rt: HostRuntime) -> Result<(), Fail> {
    assert_answers(&rt, rt.alloc(), STRONG_ROWS)
}

#[test]
fn matches_with_demanded_ends_within_the_states(rt: HostRuntime) -> Result<(), Fail> {
    assert_answers(&rt, rt.alloc(), BOUNDS)
}
