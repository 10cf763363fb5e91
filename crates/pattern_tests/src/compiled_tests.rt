//! Compiled patterns: they lead where the pattern leads, and a place has one number.
use super::compiled_walks::{compiled, compiled_end_after, number_after, numbers_of};
use super::language_tests::{LABELS, sequences};
use super::sequence_ends::end_after;
use lotos_pattern::{CompiledPattern, End, Pattern, PatternFault, PlaceNumber};
use std::alloc::{AllocError, Global};
use std::process::Abort;
use std::test::Fail;

/// Whether internal steps are observed, and the words of a pattern.
type Spelled = (bool, &'static [&'static str]);

const FEW_ELEMENTS: &[Spelled] = &[
    (false, &[]),
    (false, &["A"]),
    (false, &["<any>"]),
    (false, &["A,exit", "<not>", "A"]),
    (false, &["<until>", "B", "<until>", "B,A"]),
    (false, &["<while>", "A", "<while>", "A,B"]),
    (false, &["<while>", "<any>", "A", "B"]),
    (false, &["<while>", "<not>", "A,B", "<any>"]),
    (false, &["<until>", "<not>", "exit", "A"]),
    (false, &["C", "A"]),
];

const ENDS_AND_INTERNAL_STEPS: &[Spelled] = &[
    (false, &["<deadlock>"]),
    (false, &["A,B", "<deadlock>"]),
    (false, &["<while>", "A", "<deadlock>"]),
    (false, &["<while>", "<not>", "A", "<until>", "<deadlock>"]),
    (false, &["A", "<refuses>", "A"]),
    (
        false,
        &[
            "<while>",
            "<not>",
            "A",
            "<until>",
            "<refuses>",
            "<not>",
            "B",
        ],
    ),
    (true, &["<until>", "<deadlock>"]),
    (true, &["<until>", "<refuses>", "i"]),
    (true, &["<while>", "i", "<refuses>", "<any>"]),
    (true, &["<not>", "i", "i"]),
    (true, &["<while>", "i,A", "<any>"]),
    (true, &["<until>", "<not>", "i", "<deadlock>"]),
    (true, &["<while>", "i", "B", "<while>", "i"]),
];

/// The first sequence that ends otherwise in the compiled pattern than in the pattern of the words; none if there is
/// none. All sequences are followed in one compiled pattern.
fn first_difference(
    alloc: Global,
    spelled: Spelled,
    all: &[Vec<&'static str>],
) -> Result<Option<usize>, PatternFault> {
    let pattern = Pattern::read(alloc, spelled.1, spelled.0)?;
    let mut same = compiled(alloc, pattern.copied(alloc)?, &LABELS)?;
    Ok(first_other_end(alloc, &pattern, &mut same, all)?)
}

fn first_other_end(
    alloc: Global,
    pattern: &Pattern,
    same: &mut CompiledPattern,
    all: &[Vec<&'static str>],
) -> Result<Option<usize>, AllocError> {
    for index in 0..all.len() {
        let labels = all[index].as_slice();
        if end_after(pattern, labels) != end_in(alloc, same, labels)? {
            return Ok(Some(index));
        }
    }
    Ok(None)
}

/// Whether the sequence may end in the compiled pattern; none if it has no place.
fn end_in(
    alloc: Global,
    pattern: &mut CompiledPattern,
    labels: &[&str],
) -> Result<Option<End>, AllocError> {
    let numbers = numbers_of(alloc, labels, &LABELS)?;
    compiled_end_after(pattern, numbers.as_slice())
}

/// Asserts that each sequence of up to four labels ends in the compiled pattern as it does in the pattern.
fn assert_same(
    rt: &impl Abort,
    alloc: Global,
    spelled: Spelled,
    all: &[Vec<&'static str>],
) -> Result<(), PatternFault> {
    let difference = first_difference(alloc, spelled, all)?;
    assert_eq!(rt; difference, None, "{:?}", spelled);
    Ok(())
}

fn assert_each(rt: &impl Abort, alloc: Global, rows: &[Spelled]) -> Result<(), PatternFault> {
    let all = sequences(alloc)?;
    for spelled in rows {
        assert_same(rt, alloc, *spelled, all.as_slice())?;
    }
    Ok(())
}

#[test]
fn leads_as_few_elements_do(rt: HostRuntime) -> Result<(), Fail> {
    Ok(assert_each(&rt, rt.alloc(), FEW_ELEMENTS)?)
}

#[test]
fn leads_as_ends_and_internal_steps_do(rt: HostRuntime) -> Result<(), Fail> {
    Ok(assert_each(&rt, rt.alloc(), ENDS_AND_INTERNAL_STEPS)?)
}

/// Words of a pattern, two sequences, and whether they have one place: whether the same numbers of elements can be done
/// after them.
type PlacesRow = (
    &'static [&'static str],
    &'static [&'static str],
    &'static [&'static str],
    bool,
);

const PLACES: &[PlacesRow] = &[
    (&["<while>", "<any>", "B"], &[], &["A"], true),
    (&["<while>", "<any>", "B"], &["A"], &["A", "A"], true),
    (&["<while>", "<any>", "B"], &["B"], &["A", "B"], true),
    (&["<while>", "<any>", "B"], &["B"], &["B", "A"], false),
    (&["<while>", "<any>", "B"], &["A"], &["B", "A"], true),
    (&["A,B", "exit"], &["A"], &["B"], true),
    (&["A,B", "exit"], &[], &["B"], false),
    (&["A,B", "exit"], &["A", "exit"], &["B", "exit"], true),
    (&["<until>", "B", "A"], &["A", "A"], &[], true),
    (&["<until>", "B", "A"], &["A", "B"], &["B"], true),
    (&["<until>", "B", "A"], &["B", "A"], &["B"], false),
    // After one `A` or more, none or one of the elements can be done.
    (&["<while>", "A", "<while>", "A"], &["A"], &["A", "A"], true),
    (&["<while>", "A", "<while>", "A"], &[], &["A"], false),
    // None has a place.
    (&["A"], &["B"], &["A", "A"], true),
];

/// The number of the place of the sequence, if it has a place.
fn number_in(
    alloc: Global,
    pattern: &mut CompiledPattern,
    labels: &[&str],
) -> Result<Option<PlaceNumber>, AllocError> {
    let numbers = numbers_of(alloc, labels, &LABELS)?;
    number_after(pattern, numbers.as_slice())
}

/// Whether two sequences have the same number in the compiled pattern of the words.
fn have_one_number(
    alloc: Global,
    words: &[&str],
    one: &[&str],
    other: &[&str],
) -> Result<bool, PatternFault> {
    let mut pattern = compiled_words(alloc, words)?;
    Ok(have_one_number_in(alloc, &mut pattern, one, other)?)
}

/// The pattern of the words, compiled.
fn compiled_words(alloc: Global, words: &[&str]) -> Result<Box<CompiledPattern>, PatternFault> {
    let pattern = Pattern::read(alloc, words, false)?;
    Ok(compiled(alloc, pattern, &LABELS)?)
}

fn have_one_number_in(
    alloc: Global,
    pattern: &mut CompiledPattern,
    one: &[&str],
    other: &[&str],
) -> Result<bool, AllocError> {
    let first = number_in(alloc, pattern, one)?;
    let second = number_in(alloc, pattern, other)?;
    Ok(first == second)
}

fn assert_places(rt: &impl Abort, alloc: Global, row: PlacesRow) -> Result<(), PatternFault> {
    let (words, one, other, alike) = row;
    let found = have_one_number(alloc, words, one, other)?;
    assert_eq!(rt; found, alike, "{:?}: {:?} and {:?}", words, one, other);
    Ok(())
}

/// A place has one number, in whichever ways it is reached, and different places have different numbers.
#[test]
fn numbers_each_place_once(rt: HostRuntime) -> Result<(), Fail> {
    for row in PLACES {
        assert_places(&rt, rt.alloc(), *row)?;
    }
    Ok(())
}

/// The numbers of the places of all sequences.
fn numbers_in(
    alloc: Global,
    pattern: &mut CompiledPattern,
    all: &[Vec<&'static str>],
) -> Result<Vec<Option<PlaceNumber>>, AllocError> {
    let mut numbers = Vec::new(alloc);
    for labels in all {
        numbers.push(number_in(alloc, pattern, labels.as_slice())?)?;
    }
    Ok(numbers)
}

/// The first sequence that has another number when it is followed again, after all others; none if there is none.
fn first_renumbered(
    alloc: Global,
    words: &[&str],
    all: &[Vec<&'static str>],
) -> Result<Option<usize>, PatternFault> {
    let mut pattern = compiled_words(alloc, words)?;
    Ok(first_other_number(alloc, &mut pattern, all)?)
}

fn first_other_number(
    alloc: Global,
    pattern: &mut CompiledPattern,
    all: &[Vec<&'static str>],
) -> Result<Option<usize>, AllocError> {
    let numbers = numbers_in(alloc, pattern, all)?;
    for index in 0..all.len() {
        let again = number_in(alloc, pattern, all[index].as_slice())?;
        if numbers.get(index) != Some(&again) {
            return Ok(Some(index));
        }
    }
    Ok(None)
}

/// A place keeps its number.
#[test]
fn keeps_numbers(rt: HostRuntime) -> Result<(), Fail> {
    let words: &[&str] = &["<while>", "A,B", "<until>", "exit", "<while>", "<not>", "B"];
    let all = sequences(rt.alloc())?;
    let renumbered = first_renumbered(rt.alloc(), words, all.as_slice())?;
    assert_eq!(&rt; renumbered, None);
    Ok(())
}
