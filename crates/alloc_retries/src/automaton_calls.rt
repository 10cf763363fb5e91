//! Automata of what can be observed.

use crate::lines::{Line, print_rows, put, put_label, put_sequence};
use crate::retry_heap::{Heap, Stop};
use crate::set_calls::{HIDDEN_LOOP, SAME_PREFIX, sets_of};
use lotos_automaton::{AutomatonFault, Transition, find_automaton};
use lotos_listing::NoProgress;
use lotos_text::Name;
use std::fmt::Write;

/// A specification, whether internal steps are observed, the most terms of a set, and the most sets.
type Row = (&'static str, bool, usize, usize);

const ROWS: &[Row] = &[
    (HIDDEN_LOOP, false, 9, 9),
    // A bound that the sets reach, and the next one.
    (HIDDEN_LOOP, true, 9, 3),
    (HIDDEN_LOOP, false, 9, 2),
    (SAME_PREFIX, false, 1, 9),
];

pub fn rows(rt: &impl Print, heap: &Heap) -> Result<(), Stop> {
    print_rows(rt, heap, "automaton:", ROWS, write_row)
}

/// Writes the automaton, or where its exploration stops.
fn write_row(heap: &Heap, line: &mut Line, row: &Row) -> Result<(), Stop> {
    let (text, strong, terms, states) = *row;
    let mut sets = sets_of(heap, text, strong, terms)?;
    let alloc = heap.alloc;
    let found = heap.retried_on(&mut sets, |sets| {
        find_automaton(alloc, sets, states, &mut NoProgress)
    });
    let gates = sets.table().gates();
    match found {
        Ok(graph) => write_graph(line, gates, graph.as_slice()),
        Err(AutomatonFault::OverTerms(labels)) => {
            write!(line, " more than {terms} terms at ")?;
            put_sequence(line, gates, labels.as_slice())
        }
        Err(AutomatonFault::OverStates(labels)) => {
            write!(line, " more than {states} states at ")?;
            put_sequence(line, gates, labels.as_slice())
        }
        Err(AutomatonFault::Memory) => Err(Stop::Memory),
    }
}

/// Writes the transitions of each state: their labels, and the states that they lead to.
fn write_graph(line: &mut Line, gates: &[Name], graph: &[Vec<Transition>]) -> Result<(), Stop> {
    for (number, transitions) in graph.iter().enumerate() {
        if number > 0 {
            put(line, ";")?;
        }
        write_transitions(line, gates, transitions.as_slice())?;
    }
    Ok(())
}

fn write_transitions(
    line: &mut Line,
    gates: &[Name],
    transitions: &[Transition],
) -> Result<(), Stop> {
    for transition in transitions {
        put_label(line, gates, transition.label)?;
        write!(line, " {}", transition.state)?;
    }
    Ok(())
}
