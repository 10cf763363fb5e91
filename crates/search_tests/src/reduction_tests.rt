//! Classes of states with the same future, and reduced graphs, worked out by hand.
use lotos_automaton::{Transition, classes, is_graph, reduce};
use lotos_terms::{Gate, Label};
use std::alloc::{AllocError, Global};
use std::process::Abort;
use std::test::Fail;

/// For each state its transitions: the letter of a label, and the state that it leads to. The letters are `a` and `b` for
/// gates, `x` for termination, and `i`.
type Lists = &'static [&'static [(char, usize)]];

/// What is tested, a graph, the classes of its states, and the reduced graph.
type Row = (&'static str, Lists, &'static [usize], Lists);

const ROWS: &[Row] = &[
    ("no states", &[], &[], &[]),
    ("one state", &[&[]], &[0], &[&[]]),
    (
        "one state with loops",
        &[&[('a', 0), ('x', 0)]],
        &[0],
        &[&[('a', 0), ('x', 0)]],
    ),
    (
        "a one-place buffer",
        &[
            &[('a', 1)],
            &[('b', 2)],
            &[('a', 3)],
            &[('b', 4)],
            &[('a', 1)],
        ],
        &[0, 1, 0, 1, 0],
        &[&[('a', 1)], &[('b', 0)]],
    ),
    (
        "a chain to a deadlock",
        &[&[('a', 1)], &[('a', 2)], &[('a', 3)], &[]],
        &[0, 1, 2, 3],
        &[&[('a', 1)], &[('a', 2)], &[('a', 3)], &[]],
    ),
    (
        "loops of two and of three",
        &[
            &[('a', 1)],
            &[('a', 0)],
            &[('a', 3)],
            &[('a', 4)],
            &[('a', 2)],
        ],
        &[0, 0, 0, 0, 0],
        &[&[('a', 0)]],
    ),
];

/// Graphs whose states are told apart by one label or by more.
const TOLD_APART: &[Row] = &[
    (
        "branches that differ in their third label",
        &[
            &[('a', 1), ('b', 2)],
            &[('a', 3)],
            &[('a', 4)],
            &[('a', 5)],
            &[('a', 6)],
            &[],
            &[('x', 5)],
        ],
        &[0, 1, 2, 3, 4, 5, 6],
        &[
            &[('a', 1), ('b', 2)],
            &[('a', 3)],
            &[('a', 4)],
            &[('a', 5)],
            &[('a', 6)],
            &[],
            &[('x', 5)],
        ],
    ),
    (
        "branches that are the same",
        &[&[('a', 1), ('b', 2)], &[('i', 0)], &[('i', 0)]],
        &[0, 1, 1],
        &[&[('a', 1), ('b', 1)], &[('i', 0)]],
    ),
    (
        "labels of each kind",
        &[
            &[('a', 1), ('b', 2), ('x', 3), ('i', 4)],
            &[('a', 4)],
            &[('b', 4)],
            &[('x', 4)],
            &[('i', 4)],
        ],
        &[0, 1, 2, 3, 4],
        &[
            &[('a', 1), ('b', 2), ('x', 3), ('i', 4)],
            &[('a', 4)],
            &[('b', 4)],
            &[('x', 4)],
            &[('i', 4)],
        ],
    ),
    (
        "a ring in which one state can do more",
        &[
            &[('a', 1), ('b', 0)],
            &[('a', 2)],
            &[('a', 3)],
            &[('a', 4)],
            &[('a', 0)],
        ],
        &[0, 1, 2, 3, 4],
        &[
            &[('a', 1), ('b', 0)],
            &[('a', 2)],
            &[('a', 3)],
            &[('a', 4)],
            &[('a', 0)],
        ],
    ),
    (
        "a ring in which every second state can do more",
        &[
            &[('a', 1), ('b', 0)],
            &[('a', 2)],
            &[('a', 3), ('b', 2)],
            &[('a', 0)],
        ],
        &[0, 1, 0, 1],
        &[&[('a', 1), ('b', 0)], &[('a', 0)]],
    ),
    (
        "three states that differ from two others in their third label",
        &[
            &[('a', 5)],
            &[('a', 5)],
            &[('a', 5)],
            &[('a', 4)],
            &[('a', 4)],
            &[('a', 6)],
            &[('b', 6)],
        ],
        &[0, 0, 0, 1, 1, 2, 3],
        &[&[('a', 2)], &[('a', 1)], &[('a', 3)], &[('b', 3)]],
    ),
    (
        "classes in the order of their first states",
        &[&[('b', 2)], &[('a', 1)], &[('b', 2)]],
        &[0, 1, 0],
        &[&[('b', 0)], &[('a', 1)]],
    ),
];

/// What is tested, lists of transitions, and whether they are a graph.
const GRAPHS: &[(&str, Lists, bool)] = &[
    ("no lists", &[], true),
    ("an empty list", &[&[]], true),
    (
        "labels that ascend",
        &[&[('a', 0), ('b', 0), ('x', 0), ('i', 0)]],
        true,
    ),
    ("labels that descend", &[&[('b', 0), ('a', 0)]], false),
    (
        "termination after the internal action",
        &[&[('i', 0), ('x', 0)]],
        false,
    ),
    ("a label twice", &[&[('a', 0), ('a', 0)]], false),
    ("a transition to the last state", &[&[('a', 1)], &[]], true),
    ("a transition to no state", &[&[('a', 1)]], false),
    (
        "a second list that does not ascend",
        &[&[('a', 1)], &[('b', 0), ('a', 0)]],
        false,
    ),
];

fn label_of(letter: char) -> Label {
    match letter {
        'x' => Label::Exit,
        'i' => Label::Internal,
        'b' => Label::Gate(Gate::of_number(1)),
        _ => Label::Gate(Gate::of_number(0)),
    }
}

fn transitions_of(alloc: Global, list: &[(char, usize)]) -> Result<Vec<Transition>, AllocError> {
    let mut transitions = Vec::new(alloc);
    for (letter, state) in list {
        transitions.push(Transition {
            label: label_of(*letter),
            state: *state,
        })?;
    }
    Ok(transitions)
}

fn graph_of(alloc: Global, lists: &[&[(char, usize)]]) -> Result<Vec<Vec<Transition>>, AllocError> {
    let mut graph = Vec::new(alloc);
    for list in lists {
        graph.push(transitions_of(alloc, list)?)?;
    }
    Ok(graph)
}

/// Whether the lists are a graph with these classes and this reduced graph.
fn has_reduced(alloc: Global, row: &Row) -> Result<bool, AllocError> {
    let (_, lists, numbers, reduced) = *row;
    let graph = graph_of(alloc, lists)?;
    if !is_graph(graph.as_slice()) {
        return Ok(false);
    }
    let found = classes(alloc, graph.as_slice())?;
    let made = reduce(alloc, graph.as_slice(), found.as_slice())?;
    let expected = graph_of(alloc, reduced)?;
    Ok(found.as_slice() == numbers && made == expected)
}

fn assert_reduced(rt: &impl Abort, alloc: Global, rows: &[Row]) -> Result<(), Fail> {
    for row in rows {
        let right = has_reduced(alloc, row)?;
        let (name, _, _, _) = *row;
        assert!(rt; right, "{}", name);
    }
    Ok(())
}

fn is_a_graph(alloc: Global, lists: &[&[(char, usize)]]) -> Result<bool, AllocError> {
    let graph = graph_of(alloc, lists)?;
    Ok(is_graph(graph.as_slice()))
}

#[test]
fn states_with_the_same_future_are_merged(rt: HostRuntime) -> Result<(), Fail> {
    assert_reduced(&rt, rt.alloc(), ROWS)
}

#[test]
fn states_are_told_apart(rt: HostRuntime) -> Result<(), Fail> {
    assert_reduced(&rt, rt.alloc(), TOLD_APART)
}

#[test]
fn lists_are_graphs(rt: HostRuntime) -> Result<(), Fail> {
    for (name, lists, expected) in GRAPHS {
        let found = is_a_graph(rt.alloc(), lists)?;
        assert_eq!(rt; found, *expected, "{}", name);
    }
    Ok(())
}
