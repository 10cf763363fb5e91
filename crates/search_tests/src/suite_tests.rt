//! Suites for automata that were worked out by hand: their lines, their labels, and the bound on the lines.
use super::accepted_text::checked;
use super::cover_run::label_texts;
use super::exploration_tests::{ALL, sets_of};
use super::listing_run::spell;
use super::set_texts::{BRANCHES, HIDDEN_LOOP, INACTION, LINK, SAME_FUTURE, SERVER, TWO_ACTIONS};
use lotos_automaton::find_automaton;
use lotos_listing::NoProgress;
use lotos_sets::FormSets;
use lotos_suite::{SuiteFault, SuiteLine, find_suite, suite_labels};
use lotos_text::Name;
use std::alloc::Global;
use std::process::Abort;
use std::test::Fail;

const ONE_GATE: &str = "specification S [a] : noexit behaviour stop endspec";

const OTHER_GATE: &str = "specification S [b] : noexit behaviour stop endspec";

const LOOP: &str =
    "specification S [a] : noexit behaviour P [a] where process P [a] : noexit := a; P [a] endproc endspec";

const TERMINATION: &str = "specification S [a] : exit behaviour a; exit endspec";

/// Two of its gates never come.
const ONE_OF_THREE: &str = "specification S [a,c,b] : noexit behaviour a; stop endspec";

/// A specification, how many states more an implementation may have, and the lines of the suite over its gates.
const SUITES: &[(&str, usize, &str)] = &[
    // No label: an implementation cannot fail.
    (INACTION, 0, "<empty>"),
    (INACTION, 1, "<empty>"),
    (ONE_GATE, 0, "A!"),
    (ONE_GATE, 1, "A!"),
    (LOOP, 0, "A"),
    (LOOP, 1, "A A"),
    (TERMINATION, 0, "exit!; A A!; A exit A!; A exit exit!"),
    // Nothing comes after a label that may not come, so more states make no longer lines.
    (TWO_ACTIONS, 0, "B!; A A!; A B A!; A B B!"),
    (TWO_ACTIONS, 1, "B!; A A!; A B A!; A B B!"),
    (
        SERVER,
        0,
        "NAK!; RSP!; REQ REQ!; REQ NAK NAK!; REQ RSP NAK!",
    ),
    (SAME_FUTURE, 0, "A A!; A B!; B A!"),
    (BRANCHES, 0, "A A!; A B!; B B!; B A A!; B A B!"),
    (HIDDEN_LOOP, 0, "B!; A A A; A A B; A B A!; A B B!"),
    (
        LINK,
        0,
        "GET!; PUT PUT!; PUT GET PUT GET; PUT GET PUT PUT!; PUT GET GET PUT GET; PUT GET GET GET GET GET; PUT GET GET GET PUT GET; PUT GET GET PUT PUT PUT!; PUT GET GET GET GET PUT PUT PUT; PUT GET GET GET PUT PUT PUT PUT!",
    ),
    (
        LINK,
        1,
        "GET!; PUT PUT!; PUT GET PUT PUT!; PUT GET PUT GET GET; PUT GET GET PUT GET GET; PUT GET GET PUT PUT GET; PUT GET GET PUT PUT PUT!; PUT GET PUT GET PUT PUT!; PUT GET GET GET GET GET GET; PUT GET GET GET GET PUT GET; PUT GET GET GET PUT GET GET; PUT GET GET GET PUT PUT GET; PUT GET GET GET PUT PUT PUT PUT!; PUT GET GET PUT GET PUT PUT PUT!; PUT GET GET GET GET GET PUT PUT PUT; PUT GET GET GET GET PUT PUT PUT PUT!; PUT GET GET GET PUT GET PUT PUT PUT",
    ),
];

/// A specification, another one whose gates are the own ones, and the lines of the suite.
const OWN_GATES: &[(&str, &str, &str)] = &[
    (ONE_GATE, INACTION, "<empty>"),
    // A gate that is none of the specification's is left out.
    (INACTION, ONE_GATE, "<empty>"),
    (ONE_OF_THREE, INACTION, "A A!"),
    (ONE_OF_THREE, ONE_GATE, "A A!"),
    (ONE_OF_THREE, OTHER_GATE, "B!; A A!; A B!"),
    (ONE_OF_THREE, ONE_OF_THREE, "B!; C!; A A!; A B!; A C!"),
];

/// A specification, how many states more an implementation may have, the most lines, and the lines of the suite over its
/// gates.
const BOUNDS: &[(&str, usize, usize, &str)] = &[
    (INACTION, 0, 0, TOO_MANY),
    (INACTION, 0, 1, "<empty>"),
    (LOOP, 1, 0, TOO_MANY),
    (LOOP, 1, 1, "A A"),
    (TWO_ACTIONS, 0, 3, TOO_MANY),
    (TWO_ACTIONS, 0, 4, "B!; A A!; A B A!; A B B!"),
    (LINK, 0, 9, TOO_MANY),
    (LINK, 1, 16, TOO_MANY),
];

const TOO_MANY: &str = "too many lines";

/// What is asked for.
#[derive(Clone, Copy)]
struct SuiteQuestion<'a> {
    /// A specification.
    text: &'a str,
    /// A specification whose gates are the own ones.
    own: &'a str,
    /// How many states more an implementation may have.
    extra: usize,
    /// The most lines.
    most: usize,
}

/// The suite of the question, as text.
fn suite_text(alloc: Global, question: SuiteQuestion) -> Result<String, Fail> {
    let SuiteQuestion {
        text,
        own,
        extra,
        most,
    } = question;
    let own = checked(alloc, own)?;
    let mut sets = sets_of(alloc, text, false, ALL)?;
    let suite = suite_of(alloc, &mut sets, own.gates(), extra, most)?;
    match suite {
        Ok(lines) => lines_text(alloc, sets.table().gates(), lines.as_slice()),
        Err(SuiteFault::TooManyLines) => Ok(String::from_str(alloc, TOO_MANY)?),
        Err(SuiteFault::Memory) => Err("memory is wanting")?,
    }
}

/// The suite for the automaton of what can be observed, over the own gates and the labels that can come.
fn suite_of(
    alloc: Global,
    sets: &mut FormSets,
    own: &[Name],
    extra: usize,
    most: usize,
) -> Result<Result<Vec<SuiteLine>, SuiteFault>, Fail> {
    sets.table().recall_sound();
    match find_automaton(alloc, sets, ALL, &mut NoProgress) {
        Ok(graph) => {
            let labels = suite_labels(alloc, sets.table().gates(), own, graph.as_slice())?;
            Ok(find_suite(alloc, graph.as_slice(), labels.as_slice(), extra, most))
        }
        Err(_) => Err("the automaton is not found")?,
    }
}

/// The lines, each as its labels, with a mark after the last one if that may not come.
fn lines_text(alloc: Global, gates: &[Name], lines: &[SuiteLine]) -> Result<String, Fail> {
    let mut text = String::new(alloc);
    for (number, line) in lines.iter().enumerate() {
        if number > 0 {
            text.push_str("; ")?;
        }
        add_line(alloc, &mut text, gates, line)?;
    }
    Ok(text)
}

fn add_line(
    alloc: Global,
    text: &mut String,
    gates: &[Name],
    line: &SuiteLine,
) -> Result<(), Fail> {
    let labels = label_texts(alloc, gates, line.labels.as_slice())?;
    spell(text, labels.as_slice())?;
    if line.is_refused {
        text.push_str("!")?;
    }
    Ok(())
}

fn assert_suite(
    rt: &impl Abort,
    alloc: Global,
    question: SuiteQuestion,
    expected: &str,
) -> Result<(), Fail> {
    let found = suite_text(alloc, question)?;
    assert_eq!(rt;
        found.as_str(),
        expected,
        "{}, own gates of {}, {} states more, at most {} lines",
        question.text,
        question.own,
        question.extra,
        question.most
    );
    Ok(())
}

#[test]
fn finds_all_lines(rt: HostRuntime) -> Result<(), Fail> {
    for (text, extra, expected) in SUITES {
        let question = SuiteQuestion {
            text,
            own: text,
            extra: *extra,
            most: ALL,
        };
        assert_suite(&rt, rt.alloc(), question, expected)?;
    }
    Ok(())
}

#[test]
fn asks_for_own_gates_and_for_labels_that_come(rt: HostRuntime) -> Result<(), Fail> {
    for (text, own, expected) in OWN_GATES {
        let question = SuiteQuestion {
            text,
            own,
            extra: 0,
            most: ALL,
        };
        assert_suite(&rt, rt.alloc(), question, expected)?;
    }
    Ok(())
}

#[test]
fn stops_where_there_are_too_many_lines(rt: HostRuntime) -> Result<(), Fail> {
    for (text, extra, most, expected) in BOUNDS {
        let question = SuiteQuestion {
            text,
            own: text,
            extra: *extra,
            most: *most,
        };
        assert_suite(&rt, rt.alloc(), question, expected)?;
    }
    Ok(())
}
