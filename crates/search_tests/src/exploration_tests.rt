//! Explorations of all that can be observed and automata of it, as graphs that were worked out by hand, and where they
//! stop.
use super::accepted_text::normal_table_of_text;
use super::cover_run::{label_text, label_texts};
use super::listing_run::spell;
use super::progress_tests::{NONE, Visits};
use super::set_texts::{
    BRANCHES, HIDDEN_LOOP, INACTION, INTERNAL_LOOP, LATE, LINK, MEETING, SAME_FUTURE, SERVER,
    TWO_ACTIONS, TWO_WAYS,
};
use lotos_automaton::{AutomatonFault, Transition, explore, find_automaton};
use lotos_normal::NormalTable;
use lotos_sets::FormSets;
use lotos_terms::Label;
use lotos_text::Name;
use std::alloc::{AllocError, Global};
use std::process::Abort;
use std::test::Fail;

/// More normal forms and sets than any of these has.
pub const ALL: usize = 100;

/// A specification, whether internal steps are observed, the bounds on the normal forms of a set and on the sets, the
/// graph with its states in order, and what the observer is told.
type Row = (&'static str, bool, usize, usize, &'static str, Visits);

const GRAPHS: &[Row] = &[
    (INACTION, false, 1, 1, "-", NONE),
    (INTERNAL_LOOP, false, ALL, ALL, "-", NONE),
    (INTERNAL_LOOP, true, ALL, ALL, "i 0", NONE),
    (TWO_ACTIONS, false, ALL, 3, "A 1; B 2; -", UP_TO_TWO),
    (HIDDEN_LOOP, false, 2, 3, "A 1; A 1 B 2; -", UP_TO_TWO),
    (HIDDEN_LOOP, true, ALL, 3, "A 1; B 2 i 0; i 2", UP_TO_TWO),
    (SERVER, false, ALL, ALL, "REQ 1; NAK 0 RSP 0", UP_TO_ONE),
    (
        MEETING,
        false,
        ALL,
        ALL,
        "A 1; B 2; C 3; exit 4; -",
        UP_TO_FOUR,
    ),
    (BRANCHES, false, 2, ALL, "A 1 B 2; -; A 1", TWO_OF_ONE),
    (
        TWO_WAYS,
        false,
        ALL,
        ALL,
        "A 1 B 1; C 2; A 3; -",
        UP_TO_THREE,
    ),
    (
        LATE,
        false,
        ALL,
        ALL,
        "A 0 B 1; A 2; A 3 B 0; -",
        UP_TO_THREE,
    ),
    (SAME_FUTURE, false, ALL, ALL, "A 1 B 2; -; -", TWO_OF_ONE),
    (
        LINK,
        false,
        ALL,
        5,
        "PUT 1; GET 2; GET 3 PUT 1; GET 4 PUT 2; GET 4 PUT 3",
        UP_TO_FOUR,
    ),
];

/// A specification, the two bounds, and where the exploration stops.
const STOPS: &[(&str, usize, usize, &str)] = &[
    (INACTION, 0, ALL, "over terms <empty>"),
    (INACTION, ALL, 0, "over states <empty>"),
    (INACTION, 0, 0, "over terms <empty>"),
    (HIDDEN_LOOP, 1, ALL, "over terms A"),
    (SERVER, 1, ALL, "over terms REQ"),
    (BRANCHES, 1, ALL, "over terms B"),
    (BRANCHES, 1, 1, "over states A"),
    (TWO_ACTIONS, ALL, 1, "over states A"),
    (TWO_ACTIONS, ALL, 2, "over states A B"),
    (HIDDEN_LOOP, ALL, 2, "over states A B"),
    (LINK, ALL, 4, "over states PUT GET GET GET"),
];

/// One new sequence of one label.
const UP_TO_ONE: Visits = Visits {
    count: 1,
    lengths: 1,
    longest: 1,
};

/// Two of one label.
const TWO_OF_ONE: Visits = Visits {
    count: 2,
    lengths: 2,
    longest: 1,
};

/// One new sequence of each length, up to this one.
const UP_TO_TWO: Visits = Visits {
    count: 2,
    lengths: 3,
    longest: 2,
};

const UP_TO_THREE: Visits = Visits {
    count: 3,
    lengths: 6,
    longest: 3,
};

const UP_TO_FOUR: Visits = Visits {
    count: 4,
    lengths: 10,
    longest: 4,
};

/// A specification, whether internal steps are observed, and its automaton with the states in order.
const AUTOMATA: &[(&str, bool, &str)] = &[
    (INACTION, false, "-"),
    (INTERNAL_LOOP, false, "-"),
    (INTERNAL_LOOP, true, "i 0"),
    (TWO_ACTIONS, false, "A 1; B 2; -"),
    (SERVER, false, "REQ 1; NAK 0 RSP 0"),
    (BRANCHES, false, "A 1 B 2; -; A 1"),
    (TWO_WAYS, false, "A 1 B 1; C 2; A 3; -"),
    // After `a` and after `b` nothing more can be observed.
    (SAME_FUTURE, false, "A 1 B 1; -"),
    (
        LINK,
        false,
        "PUT 1; GET 2; GET 3 PUT 1; GET 4 PUT 2; GET 4 PUT 3",
    ),
];

/// The sets of a specification, none of which is made yet.
pub fn sets_of(
    alloc: Global,
    text: &str,
    strong: bool,
    terms: usize,
) -> Result<Box<FormSets>, Fail> {
    let table = normal_table_of_text(alloc, text)?;
    Ok(boxed_sets(alloc, table, strong, terms)?)
}

fn boxed_sets(
    alloc: Global,
    table: Box<NormalTable>,
    strong: bool,
    terms: usize,
) -> Result<Box<FormSets>, AllocError> {
    let sets = FormSets::new(alloc, Box::into_inner(table), strong, terms);
    Ok(Box::new(alloc, sets)?)
}

/// The graph, or where the exploration stops, as text.
fn explored(
    alloc: Global,
    sets: &mut FormSets,
    states: usize,
    visits: &mut Visits,
) -> Result<String, Fail> {
    match explore(alloc, sets, states, visits) {
        Ok(graph) => graph_text(alloc, sets.table().gates(), graph.as_slice()),
        Err(AutomatonFault::OverTerms(labels)) => {
            stop_text(
                alloc,
                sets.table().gates(),
                "over terms ",
                labels.as_slice(),
            )
        }
        Err(AutomatonFault::OverStates(labels)) => {
            stop_text(
                alloc,
                sets.table().gates(),
                "over states ",
                labels.as_slice(),
            )
        }
        Err(AutomatonFault::Memory) => Err("memory is wanting")?,
    }
}

/// For each state its transitions, each as its label and the number of the state that it leads to; `-` if it has none.
fn graph_text(alloc: Global, gates: &[Name], graph: &[Vec<Transition>]) -> Result<String, Fail> {
    let mut text = String::new(alloc);
    for (number, transitions) in graph.iter().enumerate() {
        if number > 0 {
            text.push_str("; ")?;
        }
        add_transitions(alloc, &mut text, gates, transitions.as_slice())?;
    }
    Ok(text)
}

fn add_transitions(
    alloc: Global,
    text: &mut String,
    gates: &[Name],
    transitions: &[Transition],
) -> Result<(), Fail> {
    if transitions.is_empty() {
        text.push_str("-")?;
    }
    for (index, transition) in transitions.iter().enumerate() {
        if index > 0 {
            text.push_str(" ")?;
        }
        let label = label_text(gates, transition.label)?;
        let state = transition.state;
        text.push_str(format!(in alloc; "{label} {state}")?.as_str())?;
    }
    Ok(())
}

/// These words and the sequence of these labels.
fn stop_text(alloc: Global, gates: &[Name], words: &str, labels: &[Label]) -> Result<String, Fail> {
    let mut text = String::from_str(alloc, words)?;
    let labels = label_texts(alloc, gates, labels)?;
    spell(&mut text, labels.as_slice())?;
    Ok(text)
}

/// The row's graph and what the observer is told.
fn run(alloc: Global, row: &Row) -> Result<(String, Visits), Fail> {
    let (text, strong, terms, states, _, _) = *row;
    let mut visits = NONE;
    let mut sets = sets_of(alloc, text, strong, terms)?;
    let graph = explored(alloc, &mut sets, states, &mut visits)?;
    Ok((graph, visits))
}

fn assert_graph(rt: &impl Abort, alloc: Global, row: &Row) -> Result<(), Fail> {
    let (graph, visits) = run(alloc, row)?;
    let (text, strong, terms, states, expected, told) = *row;
    assert_eq!(rt;
        (graph.as_str(), visits),
        (expected, told),
        "{text}, internal steps observed: {strong}, at most {terms} terms and {states} states"
    );
    Ok(())
}

#[test]
fn explores_all_that_can_be_observed(rt: HostRuntime) -> Result<(), Fail> {
    for row in GRAPHS {
        assert_graph(&rt, rt.alloc(), row)?;
    }
    Ok(())
}

fn assert_stop(
    rt: &impl Abort,
    alloc: Global,
    row: &(&str, usize, usize, &str),
) -> Result<(), Fail> {
    let (text, terms, states, expected) = *row;
    let mut visits = NONE;
    let mut sets = sets_of(alloc, text, false, terms)?;
    let found = explored(alloc, &mut sets, states, &mut visits)?;
    assert_eq!(rt;
        found.as_str(),
        expected,
        "{text}, at most {terms} terms and {states} states"
    );
    Ok(())
}

#[test]
fn stops_at_the_first_sequence_beyond_a_bound(rt: HostRuntime) -> Result<(), Fail> {
    for row in STOPS {
        assert_stop(&rt, rt.alloc(), row)?;
    }
    Ok(())
}

/// The automaton as text.
fn automaton_text(alloc: Global, sets: &mut FormSets) -> Result<String, Fail> {
    let mut visits = NONE;
    match find_automaton(alloc, sets, ALL, &mut visits) {
        Ok(automaton) => graph_text(alloc, sets.table().gates(), automaton.as_slice()),
        Err(_) => Err("the automaton is not found")?,
    }
}

fn assert_automaton(
    rt: &impl Abort,
    alloc: Global,
    text: &str,
    strong: bool,
    expected: &str,
) -> Result<(), Fail> {
    let mut sets = sets_of(alloc, text, strong, ALL)?;
    let found = automaton_text(alloc, &mut sets)?;
    assert_eq!(rt;
        found.as_str(),
        expected,
        "{text}, internal steps observed: {strong}"
    );
    Ok(())
}

#[test]
fn finds_least_automata(rt: HostRuntime) -> Result<(), Fail> {
    for (text, strong, expected) in AUTOMATA {
        assert_automaton(&rt, rt.alloc(), text, *strong, expected)?;
    }
    Ok(())
}
