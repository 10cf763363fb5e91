//! Places of sequences, and whether a pattern accepts there.
use super::sequence_ends::{end_after, joined, place_after};
use lotos_pattern::{End, Pattern, PatternFault};
use std::alloc::{AllocError, Global};
use std::process::Abort;
use std::test::Fail;

/// Whether internal steps are observed, a pattern, labels, and whether their sequence may end; none if it has no place.
type Row = (
    bool,
    &'static [&'static str],
    &'static [&'static str],
    Option<End>,
);

/// Places in patterns that end with a label to come.
const UP_TO_A_LABEL: &[Row] = &[
    (false, &["<until>", "B"], &[], Some(End::No)),
    (false, &["<until>", "B"], &["B"], Some(End::Yes)),
    (false, &["<until>", "B"], &["A"], Some(End::No)),
    (false, &["<until>", "B"], &["A", "exit"], Some(End::No)),
    (
        false,
        &["<until>", "B"],
        &["A", "exit", "B"],
        Some(End::Yes),
    ),
    (false, &["<until>", "B"], &["B", "A"], None),
    (false, &["<until>", "B"], &["B", "B"], None),
    (false, &["<until>", "B"], &["i"], None),
    (false, &["<until>", "B"], &["A", "i"], None),
];

/// Places in patterns that end with a deadlock.
const DEADLOCKS: &[Row] = &[
    (false, &["A", "<deadlock>"], &[], Some(End::No)),
    (false, &["A", "<deadlock>"], &["A"], Some(End::IfRefuses)),
    (false, &["A", "<deadlock>"], &["B"], None),
    (false, &["A", "<deadlock>"], &["A", "A"], None),
    (false, &["<until>", "<deadlock>"], &[], Some(End::IfRefuses)),
    (
        false,
        &["<until>", "<deadlock>"],
        &["A"],
        Some(End::IfRefuses),
    ),
    (
        false,
        &["<until>", "<deadlock>"],
        &["A", "exit", "B"],
        Some(End::IfRefuses),
    ),
    (false, &["<until>", "<deadlock>"], &["i"], None),
    (false, &["<until>", "<deadlock>"], &["A", "i"], None),
    (false, &["<deadlock>"], &[], Some(End::IfRefuses)),
    (false, &["<deadlock>"], &["A"], None),
];

/// Places in patterns whose end must refuse a set.
const REFUSALS: &[Row] = &[
    (false, &["A", "<refuses>", "A"], &[], Some(End::No)),
    (
        false,
        &["A", "<refuses>", "A"],
        &["A"],
        Some(End::IfRefuses),
    ),
    (false, &["A", "<refuses>", "A"], &["A", "A"], None),
    (false, &["A", "<refuses>", "A"], &["B"], None),
    (false, &["<refuses>", "A,B"], &[], Some(End::IfRefuses)),
    (false, &["<refuses>", "A,B"], &["A"], None),
    (false, &["<refuses>", "A,B"], &["exit"], None),
    (false, &["<refuses>", "<any>"], &[], Some(End::IfRefuses)),
    (
        false,
        &["<refuses>", "<not>", "A"],
        &[],
        Some(End::IfRefuses),
    ),
    (false, &["<refuses>", "<not>", "A"], &["A"], None),
    (false, &["<refuses>", "<not>", "A"], &["B"], None),
    (true, &["<refuses>", "i"], &[], Some(End::IfRefuses)),
    (true, &["<refuses>", "<not>", "i"], &["i"], None),
];

/// Places in patterns with labels, or any labels, before an end that must refuse a set.
const LABELS_BEFORE_REFUSALS: &[Row] = &[
    (
        false,
        &["<until>", "<refuses>", "A"],
        &[],
        Some(End::IfRefuses),
    ),
    (
        false,
        &["<until>", "<refuses>", "A"],
        &["A", "exit"],
        Some(End::IfRefuses),
    ),
    (false, &["<until>", "<refuses>", "A"], &["A", "i"], None),
    (
        true,
        &["<until>", "<refuses>", "A"],
        &["A", "i"],
        Some(End::IfRefuses),
    ),
    (
        false,
        &["<until>", "<refuses>", "<not>", "A"],
        &["B"],
        Some(End::IfRefuses),
    ),
    (
        false,
        &["<until>", "B", "<refuses>", "B"],
        &["A"],
        Some(End::No),
    ),
    (
        false,
        &["<until>", "B", "<refuses>", "B"],
        &["A", "B"],
        Some(End::IfRefuses),
    ),
    (
        false,
        &["<until>", "B", "<refuses>", "B"],
        &["B", "A"],
        None,
    ),
    (
        true,
        &["<while>", "i", "<refuses>", "<not>", "i"],
        &["i", "i"],
        Some(End::IfRefuses),
    ),
    (
        true,
        &["<while>", "i", "<refuses>", "<not>", "i"],
        &["i", "A"],
        None,
    ),
];

/// Places in patterns without repetitions.
const LABELS: &[Row] = &[
    (false, &[], &[], Some(End::Yes)),
    (false, &[], &["A"], None),
    (false, &[], &["i"], None),
    (false, &["<any>"], &[], Some(End::No)),
    (false, &["<any>"], &["A"], Some(End::Yes)),
    (false, &["<any>"], &["exit"], Some(End::Yes)),
    (false, &["<any>"], &["A", "A"], None),
    (false, &["<any>"], &["i"], None),
    (false, &["a"], &["A"], Some(End::Yes)),
    (false, &["a"], &["a"], None),
    (false, &["EXIT"], &["exit"], Some(End::Yes)),
    (false, &["EXIT"], &["EXIT"], None),
];

/// Places in patterns with one repetition at the end.
const REPETITIONS: &[Row] = &[
    (false, &["A", "<while>", "B"], &[], Some(End::No)),
    (false, &["A", "<while>", "B"], &["A"], Some(End::Yes)),
    (
        false,
        &["A", "<while>", "B"],
        &["A", "B", "B"],
        Some(End::Yes),
    ),
    (false, &["A", "<while>", "B"], &["A", "B", "A"], None),
    (false, &["A", "<while>", "B"], &["A", "i"], None),
    (false, &["<while>", "<any>"], &[], Some(End::Yes)),
    (false, &["<while>", "<any>"], &["A", "exit"], Some(End::Yes)),
    (false, &["<while>", "<any>"], &["i"], None),
    (true, &["<while>", "<any>"], &["i"], Some(End::Yes)),
];

/// Places in patterns with repetitions before other elements.
const LONGER_REPETITIONS: &[Row] = &[
    (
        false,
        &["<while>", "<any>", "B"],
        &["B", "A"],
        Some(End::No),
    ),
    (
        false,
        &["<while>", "<any>", "B"],
        &["B", "B"],
        Some(End::Yes),
    ),
    (
        false,
        &["<while>", "A", "<while>", "A", "<any>"],
        &["A"],
        Some(End::Yes),
    ),
    (
        false,
        &["<while>", "A", "<while>", "A", "<any>"],
        &["A", "B"],
        Some(End::Yes),
    ),
    (
        false,
        &["<while>", "A", "<while>", "A", "<any>"],
        &["B", "A"],
        None,
    ),
    (
        false,
        &["<while>", "<any>", "<deadlock>"],
        &[],
        Some(End::IfRefuses),
    ),
    (
        false,
        &["<while>", "<any>", "<deadlock>"],
        &["A", "B"],
        Some(End::IfRefuses),
    ),
    (false, &["<while>", "A", "<deadlock>"], &["A", "B"], None),
];

/// Places in patterns where internal steps are observed.
const INTERNAL_STEPS: &[Row] = &[
    (true, &["i", "I", "A"], &["i", "i", "A"], Some(End::Yes)),
    (true, &["i", "I", "A"], &["i", "A"], None),
    (true, &["i", "I", "A"], &["i", "I"], None),
    (true, &["<until>", "i"], &["A", "i"], Some(End::Yes)),
    (
        true,
        &["<until>", "<deadlock>"],
        &["i"],
        Some(End::IfRefuses),
    ),
];

/// Places in patterns of sets of labels.
const SETS: &[Row] = &[
    (false, &["A,B"], &[], Some(End::No)),
    (false, &["A,B"], &["B"], Some(End::Yes)),
    (false, &["A,B"], &["exit"], None),
    (false, &["A,A"], &["A"], Some(End::Yes)),
    (false, &["a,Exit"], &["exit"], Some(End::Yes)),
    (false, &["<not>", "A,B"], &["exit"], Some(End::Yes)),
    (false, &["<not>", "A,B"], &["B"], None),
    (false, &["<not>", "A"], &["i"], None),
    (true, &["<not>", "A"], &["i"], Some(End::Yes)),
    (true, &["<not>", "i"], &["i"], None),
];

/// Places in patterns that repeat labels of sets, or pass over them.
const SETS_WITH_OTHERS: &[Row] = &[
    (false, &["<until>", "A,B"], &["exit", "B"], Some(End::Yes)),
    (false, &["<until>", "A,B"], &["B", "A"], None),
    (
        false,
        &["<until>", "<not>", "A"],
        &["A", "A", "B"],
        Some(End::Yes),
    ),
    (false, &["<until>", "<not>", "A"], &["A"], Some(End::No)),
    (false, &["<until>", "<not>", "A"], &["A", "i"], None),
    (
        true,
        &["<until>", "<not>", "A"],
        &["A", "i"],
        Some(End::Yes),
    ),
    (false, &["<while>", "A,B"], &["B", "A"], Some(End::Yes)),
    (false, &["<while>", "A,B"], &["B", "exit"], None),
    (
        false,
        &["<while>", "<not>", "A"],
        &["B", "exit"],
        Some(End::Yes),
    ),
    (false, &["<while>", "<not>", "A"], &["B", "A"], None),
    (
        false,
        &["<while>", "<any>", "A", "<while>", "<not>", "B", "A"],
        &["B", "A", "exit", "A"],
        Some(End::Yes),
    ),
    (
        false,
        &["<while>", "<any>", "A", "<while>", "<not>", "B", "A"],
        &["A", "B", "A"],
        Some(End::No),
    ),
    (
        false,
        &["<not>", "A", "<deadlock>"],
        &["B"],
        Some(End::IfRefuses),
    ),
];

/// Whether internal steps are observed in the pattern of the words, and whether the sequence may end in it; none if it
/// has no place.
fn place_in(
    alloc: Global,
    words: &[&str],
    strong: bool,
    labels: &[&str],
) -> Result<(bool, Option<End>), PatternFault> {
    let pattern = Pattern::read(alloc, words, strong)?;
    Ok((pattern.strong(), end_after(&pattern, labels)))
}

fn assert_place(rt: &impl Abort, alloc: Global, row: Row) -> Result<(), PatternFault> {
    let (strong, words, labels, end) = row;
    let found = place_in(alloc, words, strong, labels)?;
    assert_eq!(rt; found, (strong, end), "{:?} at {:?}", words, labels);
    Ok(())
}

/// Asserts whether each sequence may end, and that internal steps are observed exactly where they are asked for.
fn assert_places(rt: &impl Abort, alloc: Global, rows: &[Row]) -> Result<(), PatternFault> {
    for row in rows {
        assert_place(rt, alloc, *row)?;
    }
    Ok(())
}

#[test]
fn finds_places_up_to_a_label(rt: HostRuntime) -> Result<(), Fail> {
    Ok(assert_places(&rt, rt.alloc(), UP_TO_A_LABEL)?)
}

#[test]
fn finds_places_before_deadlocks(rt: HostRuntime) -> Result<(), Fail> {
    Ok(assert_places(&rt, rt.alloc(), DEADLOCKS)?)
}

#[test]
fn finds_places_before_refusals(rt: HostRuntime) -> Result<(), Fail> {
    Ok(assert_places(&rt, rt.alloc(), REFUSALS)?)
}

#[test]
fn finds_places_of_labels_before_refusals(rt: HostRuntime) -> Result<(), Fail> {
    Ok(assert_places(&rt, rt.alloc(), LABELS_BEFORE_REFUSALS)?)
}

#[test]
fn finds_places_of_labels(rt: HostRuntime) -> Result<(), Fail> {
    Ok(assert_places(&rt, rt.alloc(), LABELS)?)
}

#[test]
fn finds_places_in_repetitions(rt: HostRuntime) -> Result<(), Fail> {
    Ok(assert_places(&rt, rt.alloc(), REPETITIONS)?)
}

#[test]
fn finds_places_in_longer_repetitions(rt: HostRuntime) -> Result<(), Fail> {
    Ok(assert_places(&rt, rt.alloc(), LONGER_REPETITIONS)?)
}

#[test]
fn finds_places_where_internal_steps_are_observed(rt: HostRuntime) -> Result<(), Fail> {
    Ok(assert_places(&rt, rt.alloc(), INTERNAL_STEPS)?)
}

#[test]
fn finds_places_in_sets(rt: HostRuntime) -> Result<(), Fail> {
    Ok(assert_places(&rt, rt.alloc(), SETS)?)
}

#[test]
fn finds_places_in_sets_with_others(rt: HostRuntime) -> Result<(), Fail> {
    Ok(assert_places(&rt, rt.alloc(), SETS_WITH_OTHERS)?)
}

/// A pattern, labels, and the NFA states after their sequence.
type StatesRow = (
    &'static [&'static str],
    &'static [&'static str],
    &'static [usize],
);

/// States in patterns in which each label can be done in one way.
const STATES: &[StatesRow] = &[
    (&[], &[], &[0]),
    (&["A"], &["A"], &[1]),
    (&["<until>", "B", "A"], &["A", "A"], &[0]),
    (&["<until>", "B", "A"], &["A", "B"], &[1]),
    (&["<until>", "B", "A"], &["B", "A"], &[2]),
    (&["<while>", "A", "<any>"], &[], &[0]),
    (&["<while>", "A", "<any>"], &["A"], &[0, 2]),
    (&["<while>", "A", "<any>"], &["A", "A"], &[0, 2]),
    (&["<while>", "A", "<any>"], &["A", "B"], &[2]),
];

/// The same in patterns in which a label can be done in more than one way.
const STATES_OF_TWO_WAYS: &[StatesRow] = &[
    (&["<while>", "<any>", "B"], &["B"], &[0, 2]),
    (&["<while>", "<any>", "B"], &["B", "A"], &[0]),
    (&["<while>", "A", "<while>", "B", "A"], &["A"], &[0, 3]),
    (&["<while>", "A", "<while>", "B", "A"], &["A", "B"], &[1]),
    (&["<while>", "A", "<while>", "B", "A"], &["B", "A"], &[3]),
    (&["A", "<until>", "<deadlock>"], &["A", "B"], &[1]),
    (&["<while>", "A", "<deadlock>"], &["A"], &[0]),
    (&["A", "<until>", "<refuses>", "B"], &["A", "B"], &[1]),
    (&["<while>", "A", "<refuses>", "<not>", "A"], &["A"], &[0]),
    (&["<while>", "A,B", "B"], &["A"], &[0]),
    (&["<while>", "A,B", "B"], &["B"], &[0, 2]),
    (&["<while>", "<not>", "A", "<any>"], &["B"], &[0, 2]),
    (&["<while>", "<not>", "A", "<any>"], &["A"], &[2]),
];

/// A place with these states, as `Debug` writes it: the first of its words has a bit for each state below 64.
fn place_with(alloc: Global, states: &[usize]) -> Result<String, AllocError> {
    let mut bits: u64 = 0;
    for state in states {
        if *state < 64 {
            bits |= 1 << *state;
        }
    }
    let bits = bits.to_string(alloc)?;
    joined(
        alloc,
        &["Some(Place { bits: [", bits.as_str(), ", 0, 0, 0, 0] })"],
    )
}

/// The place of the sequence in the pattern of the words, as `Debug` writes it.
fn place_of(alloc: Global, words: &[&str], labels: &[&str]) -> Result<String, PatternFault> {
    let pattern = Pattern::read(alloc, words, false)?;
    let place = place_after(&pattern, labels);
    Ok(format!(in alloc; "{place:?}")?)
}

fn assert_states(
    rt: &impl Abort,
    alloc: Global,
    words: &[&str],
    labels: &[&str],
    states: &[usize],
) -> Result<(), PatternFault> {
    let place = place_of(alloc, words, labels)?;
    let expected = place_with(alloc, states)?;
    assert_eq!(rt;
        place.as_str(),
        expected.as_str(),
        "{:?} at {:?}",
        words,
        labels
    );
    Ok(())
}

/// Asserts that the places have the states of the rows, and no others.
fn assert_each_states(
    rt: &impl Abort,
    alloc: Global,
    rows: &[StatesRow],
) -> Result<(), PatternFault> {
    for (words, labels, states) in rows {
        assert_states(rt, alloc, words, labels, states)?;
    }
    Ok(())
}

#[test]
fn has_states(rt: HostRuntime) -> Result<(), Fail> {
    Ok(assert_each_states(&rt, rt.alloc(), STATES)?)
}

#[test]
fn has_states_of_two_ways(rt: HostRuntime) -> Result<(), Fail> {
    Ok(assert_each_states(&rt, rt.alloc(), STATES_OF_TWO_WAYS)?)
}
