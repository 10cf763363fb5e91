//! First matches in small specifications.

use super::accepted_text::{joined, normal_table_of_text};
use super::progress_tests::NONE;
use super::row_label::{A, B, EXIT, I, RowLabel, are_labels};
use lotos_ever::{Found, Halt, find_shortest_match, find_shortest_match_with_progress};
use lotos_normal::NormalTable;
use lotos_pattern::Pattern;
use std::alloc::Global;
use std::process::Abort;
use std::test::Fail;

/// A question and the expected answer.
#[derive(Clone, Copy)]
struct Row<'a> {
    /// The functionality and the behaviour of a specification with the gates `a` and `b`, then `where` with the
    /// processes, if there are any.
    behaviour: &'a str,
    words: &'a [&'a str],
    strong: bool,
    /// The most product states that may be stored.
    states: usize,
    answer: Answer<'a>,
}

#[derive(Clone, Copy)]
enum Answer<'a> {
    NoMatch,
    /// The run of the first match, and what is observed of it.
    Found(&'a [RowLabel], &'a [RowLabel]),
    TooManyStates,
}

const MANY: usize = 1000;

const LOOP: &str = "noexit behaviour P[a,b] where process P [x,y] : noexit := x; y; P[x,y] endproc";

/// Matches, and patterns that match at no depth.
const ANSWERS: &[Row] = &[
    // The empty sequence, and a start that is a deadlock.
    Row {
        behaviour: "noexit behaviour stop",
        words: &["<deadlock>"],
        strong: false,
        states: MANY,
        answer: Answer::Found(&[], &[]),
    },
    Row {
        behaviour: "noexit behaviour stop",
        words: &["a"],
        strong: false,
        states: MANY,
        answer: Answer::NoMatch,
    },
    Row {
        behaviour: "noexit behaviour a; stop",
        words: &["<deadlock>"],
        strong: false,
        states: MANY,
        answer: Answer::NoMatch,
    },
    Row {
        behaviour: "exit behaviour a; b; exit",
        words: &["a", "b", "exit"],
        strong: false,
        states: MANY,
        answer: Answer::Found(&[A, B, EXIT], &[A, B, EXIT]),
    },
    // Internal steps, not observed and observed.
    Row {
        behaviour: "noexit behaviour i; i; a; stop",
        words: &["a"],
        strong: false,
        states: MANY,
        answer: Answer::Found(&[I, I, A], &[A]),
    },
    Row {
        behaviour: "noexit behaviour i; i; a; stop",
        words: &["a"],
        strong: true,
        states: MANY,
        answer: Answer::NoMatch,
    },
    Row {
        behaviour: "noexit behaviour i; i; a; stop",
        words: &["i", "i", "a"],
        strong: true,
        states: MANY,
        answer: Answer::Found(&[I, I, A], &[I, I, A]),
    },
    // A deadlock after an internal step.
    Row {
        behaviour: "noexit behaviour a; i; stop",
        words: &["a", "<deadlock>"],
        strong: false,
        states: MANY,
        answer: Answer::Found(&[A, I], &[A]),
    },
    // No match, in a finite system.
    Row {
        behaviour: "noexit behaviour a; stop ||| b; stop",
        words: &["a", "a"],
        strong: false,
        states: MANY,
        answer: Answer::NoMatch,
    },
    // No match, in a loop whose rounds have the same normal forms.
    Row {
        behaviour: LOOP,
        words: &["<while>", "<any>", "a", "a"],
        strong: false,
        states: 10,
        answer: Answer::NoMatch,
    },
    Row {
        behaviour: LOOP,
        words: &["<until>", "<deadlock>"],
        strong: false,
        states: 10,
        answer: Answer::NoMatch,
    },
    Row {
        behaviour: LOOP,
        words: &["b"],
        strong: false,
        states: 10,
        answer: Answer::NoMatch,
    },
    // More than one round of the loop.
    Row {
        behaviour: LOOP,
        words: &["a", "b", "a", "b", "a"],
        strong: false,
        states: MANY,
        answer: Answer::Found(&[A, B, A, B, A], &[A, B, A, B, A]),
    },
];

/// Which of several matches is found.
const FIRST_MATCHES: &[Row] = &[
    // The fewest steps, although another run begins with a smaller label.
    Row {
        behaviour: "noexit behaviour a; i; i; b; stop [] i; a; b; stop",
        words: &["a", "b"],
        strong: false,
        states: MANY,
        answer: Answer::Found(&[I, A, B], &[A, B]),
    },
    // Of matches with as many steps the first by the labels. One label leads to several terms, in either order, and the
    // runs differ at the next step or later.
    Row {
        behaviour: "noexit behaviour a; a; stop [] a; b; stop",
        words: &["<any>", "<any>"],
        strong: false,
        states: MANY,
        answer: Answer::Found(&[A, A], &[A, A]),
    },
    Row {
        behaviour: "noexit behaviour a; b; stop [] a; a; stop",
        words: &["<any>", "<any>"],
        strong: false,
        states: MANY,
        answer: Answer::Found(&[A, A], &[A, A]),
    },
    Row {
        behaviour: "noexit behaviour a; b; a; b; stop [] a; b; b; a; stop",
        words: &["<any>", "<any>", "<any>", "<any>"],
        strong: false,
        states: MANY,
        answer: Answer::Found(&[A, B, A, B], &[A, B, A, B]),
    },
    Row {
        behaviour: "noexit behaviour a; b; b; a; stop [] a; b; a; b; stop",
        words: &["<any>", "<any>", "<any>", "<any>"],
        strong: false,
        states: MANY,
        answer: Answer::Found(&[A, B, A, B], &[A, B, A, B]),
    },
    Row {
        behaviour: "noexit behaviour b; a; b; a; stop [] b; a; b; b; stop [] b; a; a; b; stop",
        words: &["<any>", "<any>", "<any>", "<any>"],
        strong: false,
        states: MANY,
        answer: Answer::Found(&[B, A, A, B], &[B, A, A, B]),
    },
    Row {
        behaviour: "noexit behaviour b; a; a; b; stop [] b; a; b; b; stop [] b; a; b; a; stop",
        words: &["<any>", "<any>", "<any>", "<any>"],
        strong: false,
        states: MANY,
        answer: Answer::Found(&[B, A, A, B], &[B, A, A, B]),
    },
    // The same after internal steps, and by different internal steps.
    Row {
        behaviour: "noexit behaviour i; a; stop [] i; b; stop",
        words: &["<any>"],
        strong: false,
        states: MANY,
        answer: Answer::Found(&[I, A], &[A]),
    },
    Row {
        behaviour: "noexit behaviour i; b; stop [] i; a; stop",
        words: &["<any>"],
        strong: false,
        states: MANY,
        answer: Answer::Found(&[I, A], &[A]),
    },
    Row {
        behaviour: "noexit behaviour i; b; i; a; stop [] i; i; b; a; stop",
        words: &["b", "a"],
        strong: false,
        states: MANY,
        answer: Answer::Found(&[I, B, I, A], &[B, A]),
    },
    Row {
        behaviour: "noexit behaviour i; i; b; a; stop [] i; b; i; a; stop",
        words: &["b", "a"],
        strong: false,
        states: MANY,
        answer: Answer::Found(&[I, B, I, A], &[B, A]),
    },
    // The internal action is the last label, and termination the last but one.
    Row {
        behaviour: "noexit behaviour i; a; stop [] a; i; stop",
        words: &["a", "<deadlock>"],
        strong: false,
        states: MANY,
        answer: Answer::Found(&[A, I], &[A]),
    },
    Row {
        behaviour: "exit behaviour exit [] b; stop",
        words: &["<any>"],
        strong: false,
        states: MANY,
        answer: Answer::Found(&[B], &[B]),
    },
    Row {
        behaviour: "exit behaviour i; stop [] exit",
        words: &["<any>"],
        strong: true,
        states: MANY,
        answer: Answer::Found(&[EXIT], &[EXIT]),
    },
];

/// Matches of sets of labels.
const SETS: &[Row] = &[
    // One label of a set, and one outside of it.
    Row {
        behaviour: "noexit behaviour i; b; stop [] i; a; stop",
        words: &["a,b"],
        strong: false,
        states: MANY,
        answer: Answer::Found(&[I, A], &[A]),
    },
    Row {
        behaviour: "exit behaviour i; b; stop [] exit [] a; stop",
        words: &["<not>", "a"],
        strong: false,
        states: MANY,
        answer: Answer::Found(&[EXIT], &[EXIT]),
    },
    Row {
        behaviour: "noexit behaviour i; b; stop [] a; stop",
        words: &["<not>", "a"],
        strong: false,
        states: MANY,
        answer: Answer::Found(&[I, B], &[B]),
    },
    Row {
        behaviour: "noexit behaviour i; b; stop [] a; stop",
        words: &["<not>", "a"],
        strong: true,
        states: MANY,
        answer: Answer::Found(&[I], &[I]),
    },
    // Repetition over a set.
    Row {
        behaviour: "noexit behaviour a; a; i; b; stop",
        words: &["<until>", "<not>", "a"],
        strong: false,
        states: MANY,
        answer: Answer::Found(&[A, A, I, B], &[A, A, B]),
    },
    Row {
        behaviour: "noexit behaviour a; a; i; b; stop",
        words: &["<until>", "b,i"],
        strong: true,
        states: MANY,
        answer: Answer::Found(&[A, A, I], &[A, A, I]),
    },
    Row {
        behaviour: "exit behaviour a; b; stop [] a; exit",
        words: &["<while>", "a,exit", "<deadlock>"],
        strong: false,
        states: MANY,
        answer: Answer::Found(&[A, EXIT], &[A, EXIT]),
    },
    // Twice one label, with no other one between.
    Row {
        behaviour: LOOP,
        words: &["<while>", "<any>", "a", "<while>", "<not>", "b", "a"],
        strong: false,
        states: MANY,
        answer: Answer::NoMatch,
    },
    Row {
        behaviour: "noexit behaviour a; b; a; stop [] a; i; b; a; a; stop",
        words: &["<while>", "<any>", "a", "<while>", "<not>", "b", "a"],
        strong: false,
        states: MANY,
        answer: Answer::Found(&[A, I, B, A, A], &[A, B, A, A]),
    },
];

/// Bounds on the states, and recursions.
const STATES: &[Row] = &[
    // Too few states, and just enough.
    Row {
        behaviour: "noexit behaviour a; stop",
        words: &["a"],
        strong: false,
        states: 1,
        answer: Answer::TooManyStates,
    },
    Row {
        behaviour: "noexit behaviour a; stop",
        words: &["a"],
        strong: false,
        states: 2,
        answer: Answer::Found(&[A], &[A]),
    },
    Row {
        behaviour: "noexit behaviour a; stop",
        words: &["<while>", "b"],
        strong: false,
        states: 1,
        answer: Answer::Found(&[], &[]),
    },
    Row {
        behaviour: "noexit behaviour a; stop",
        words: &["b"],
        strong: false,
        states: 1,
        answer: Answer::NoMatch,
    },
    Row {
        behaviour: "noexit behaviour stop",
        words: &["a"],
        strong: false,
        states: 0,
        answer: Answer::TooManyStates,
    },

    // A system that grows for ever.
    Row {
        behaviour: "noexit behaviour P[a] where process P [x] : noexit := x; (P[x] ||| P[x]) endproc",
        words: &["<until>", "b"],
        strong: false,
        states: 50,
        answer: Answer::TooManyStates,
    },
    Row {
        behaviour: "noexit behaviour P[a] where process P [x] : noexit := x; (P[x] ||| P[x]) endproc",
        words: &["a", "a", "a"],
        strong: false,
        states: 50,
        answer: Answer::Found(&[A, A, A], &[A, A, A]),
    },

    // Recursions with swapped gates, with hiding, and with parallel composition.
    Row {
        behaviour: "noexit behaviour P[a,b] where process P [x,y] : noexit := x; P[y,x] endproc",
        words: &["<while>", "<any>", "a", "a"],
        strong: false,
        states: 10,
        answer: Answer::NoMatch,
    },
    Row {
        behaviour: "noexit behaviour P[a] where process P [x] : noexit := hide y in y; x; P[x] endproc",
        words: &["<until>", "<deadlock>"],
        strong: false,
        states: 10,
        answer: Answer::NoMatch,
    },
    Row {
        behaviour: "noexit behaviour P[a] ||| P[b] where process P [x] : noexit := x; P[x] endproc",
        words: &["<while>", "b", "<deadlock>"],
        strong: false,
        states: 10,
        answer: Answer::NoMatch,
    },
    Row {
        behaviour: "noexit behaviour P[a,b] |[a]| Q[a] where process P [x,y] : noexit := x; y; P[x,y] endproc process Q [x] : noexit := x; x; x; stop endproc",
        words: &["<until>", "<deadlock>"],
        strong: false,
        states: 30,
        answer: Answer::Found(&[A, B, A, B, A, B], &[A, B, A, B, A, B]),
    },
    // Ends that refuse a set: not where an internal step is left, nor where a label of the set can come.
    Row {
        behaviour: "noexit behaviour a; (b; stop [] i; a; stop)",
        words: &["a", "<refuses>", "b"],
        strong: false,
        states: MANY,
        answer: Answer::Found(&[A, I], &[A]),
    },
    Row {
        behaviour: "noexit behaviour a; (b; stop [] i; a; stop)",
        words: &["a", "<refuses>", "b,a"],
        strong: false,
        states: MANY,
        answer: Answer::NoMatch,
    },
    Row {
        behaviour: "noexit behaviour a; (b; stop [] i; a; stop)",
        words: &["a", "<refuses>", "<not>", "a"],
        strong: false,
        states: MANY,
        answer: Answer::Found(&[A, I], &[A]),
    },
    Row {
        behaviour: "noexit behaviour a; (b; stop [] i; a; stop)",
        words: &["<until>", "<refuses>", "b"],
        strong: false,
        states: MANY,
        answer: Answer::Found(&[], &[]),
    },
    Row {
        behaviour: "noexit behaviour P[a] where process P [x] : noexit := x; i; P[x] endproc",
        words: &["<until>", "<refuses>", "a"],
        strong: false,
        states: 10,
        answer: Answer::NoMatch,
    },
    // A thousand states: five processes, each at one of four places.
    Row {
        behaviour: "noexit behaviour hide b in (P[a] ||| P[a] ||| P[a] ||| P[a] ||| P[a]) where process P [x] : noexit := x; x; x; stop endproc",
        words: &["<until>", "b"],
        strong: false,
        states: 1024,
        answer: Answer::NoMatch,
    },
    Row {
        behaviour: "noexit behaviour hide b in (P[a] ||| P[a] ||| P[a] ||| P[a] ||| P[a]) where process P [x] : noexit := x; x; x; stop endproc",
        words: &["<until>", "b"],
        strong: false,
        states: 1023,
        answer: Answer::TooManyStates,
    },
    // A state that is a part of an earlier one.
    Row {
        behaviour: "noexit behaviour (a; stop ||| a; stop) [> b; (a; stop ||| a; stop)",
        words: &["a", "b", "a", "a"],
        strong: false,
        states: MANY,
        answer: Answer::Found(&[A, B, A, A], &[A, B, A, A]),
    },
];

/// The table of a specification, given by its functionality and its behaviour.
pub fn boxed_table(alloc: Global, behaviour: &str) -> Result<Box<NormalTable>, Fail> {
    let text = joined(alloc, &["specification S [a,b] : ", behaviour, " endspec"])?;
    normal_table_of_text(alloc, text.as_str())
}

fn is_found(found: &Found, expected: Answer) -> bool {
    match expected {
        Answer::Found(run, sequence) => {
            are_labels(found.word.as_slice(), run)
                && are_labels(found.sequence.as_slice(), sequence)
        }
        Answer::NoMatch => false,
        Answer::TooManyStates => false,
    }
}

/// Whether the answer is the expected one.
fn is_answer(answer: Result<Option<Found>, Halt>, expected: Answer) -> bool {
    match &answer {
        Ok(None) => matches!(expected, Answer::NoMatch),
        Ok(Some(found)) => is_found(found, expected),
        Err(Halt::TooManyStates) => matches!(expected, Answer::TooManyStates),
        Err(Halt::Memory) => false,
    }
}

/// What the search for a match returns.
fn search(
    alloc: Global,
    table: &mut NormalTable,
    pattern: &Pattern,
    states: usize,
) -> Result<Option<Found>, Halt> {
    find_shortest_match(alloc, table, pattern, states)
}

/// What the same search returns with an observer.
fn observed_search(
    alloc: Global,
    table: &mut NormalTable,
    pattern: &Pattern,
    states: usize,
) -> Result<Option<Found>, Halt> {
    let mut visits = NONE;
    find_shortest_match_with_progress(alloc, table, pattern, states, &mut visits)
}

fn has_answer_in(alloc: Global, table: &mut NormalTable, row: Row) -> Result<bool, Fail> {
    let pattern = Pattern::read(alloc, row.words, row.strong)?;
    Ok(
        is_answer(search(alloc, table, &pattern, row.states), row.answer)
            && is_answer(
                observed_search(alloc, table, &pattern, row.states),
                row.answer,
            ),
    )
}

fn has_answer(alloc: Global, row: Row) -> Result<bool, Fail> {
    let mut table = boxed_table(alloc, row.behaviour)?;
    has_answer_in(alloc, &mut table, row)
}

fn assert_answers(rt: &impl Abort, alloc: Global, rows: &[Row]) -> Result<(), Fail> {
    for row in rows {
        let holds = has_answer(alloc, *row)?;
        assert_answer(rt, *row, holds);
    }
    Ok(())
}

#[test]
fn answers_whether_there_is_a_match(rt: HostRuntime) -> Result<(), Fail> {
    assert_answers(&rt, rt.alloc(), ANSWERS)
}

#[test]
fn answers_with_the_first_match(rt: HostRuntime) -> Result<(), Fail> {
    assert_answers(&rt, rt.alloc(), FIRST_MATCHES)
}

#[test]
fn answers_with_sets_of_labels(rt: HostRuntime) -> Result<(), Fail> {
    assert_answers(&rt, rt.alloc(), SETS)
}

#[test]
fn answers_within_the_states(rt: HostRuntime) -> Result<(), Fail> {
    assert_answers(&rt, rt.alloc(), STATES)
}

fn assert_answer(rt: &impl Abort, row: Row, holds: bool) {
    assert!(rt;
        holds,
        "{:?} of {}, internal steps observed: {}, {} states",
        row.words, row.behaviour, row.strong, row.states
    );
}
