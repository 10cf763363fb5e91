//! Compiled patterns of many elements and labels.
use super::compiled_walks::{boxed, compiled_end_after, number_after};
use lotos_pattern::{CompiledPattern, End, Pattern, PatternFault};
use std::alloc::{AllocError, Global};
use std::process::Abort;
use std::test::Fail;

/// How many labels there are: `G0`, `G1` and so on.
const LABELS: usize = 500;

/// How many labels a set has: set 0 has the first of them, set 1 the next, and so on.
const SIZE: usize = 50;

/// How many sets there are.
const SETS: usize = 10;

/// How many elements a pattern has. Each is over the next set, and after the last set comes the first again.
const ELEMENTS: usize = 256;

/// How many labels a sequence has, the set of the first one, and how many sets each is further than the one before it.
#[derive(Clone, Copy, Debug)]
struct Walk(usize, usize, usize);

/// Sequences in the pattern in which each element is one label, and whether they may end; none if one has no place.
const ONE_EACH: &[(Walk, Option<End>)] = &[
    (Walk(0, 0, 1), Some(End::No)),
    (Walk(1, 0, 1), Some(End::No)),
    (Walk(1, 1, 1), None),
    (Walk(2, 0, 0), None),
    (Walk(255, 0, 1), Some(End::No)),
    (Walk(256, 0, 1), Some(End::Yes)),
    (Walk(257, 0, 1), None),
];

/// The same in the pattern in which each element is any number of labels.
const ANY_NUMBER_EACH: &[(Walk, Option<End>)] = &[
    (Walk(0, 0, 1), Some(End::Yes)),
    (Walk(256, 0, 1), Some(End::Yes)),
    (Walk(257, 0, 1), None),
    (Walk(300, 3, 0), Some(End::Yes)),
    // Each label is nine elements further: 28 times nine is 252.
    (Walk(28, 9, 9), Some(End::Yes)),
    (Walk(29, 9, 9), None),
];

/// The labels.
fn labels(alloc: Global) -> Result<Vec<String>, AllocError> {
    let mut texts = Vec::new(alloc);
    for number in 0..LABELS {
        texts.push(format!(in alloc; "G{number}")?)?;
    }
    Ok(texts)
}

/// The words that name the labels of each set, and then `<while>`.
fn texts(alloc: Global) -> Result<Vec<String>, AllocError> {
    let mut texts = Vec::new(alloc);
    for set in 0..SETS {
        texts.push(set_word(alloc, set * SIZE)?)?;
    }
    texts.push(String::from_str(alloc, "<while>")?)?;
    Ok(texts)
}

/// The word that names the labels of the set whose first label has this number.
fn set_word(alloc: Global, first: usize) -> Result<String, AllocError> {
    let mut word = format!(in alloc; "G{first}")?;
    for further in 1..SIZE {
        add_label(alloc, &mut word, first.saturating_add(further))?;
    }
    Ok(word)
}

/// Appends a comma and the label with this number.
fn add_label(alloc: Global, word: &mut String, number: usize) -> Result<(), AllocError> {
    word.push_str(format!(in alloc; ",G{number}")?.as_str())
}

/// The pattern whose elements are each one label, or each any number of labels.
fn pattern_of(alloc: Global, any_number: bool) -> Result<Pattern, PatternFault> {
    let texts = texts(alloc)?;
    let mut words = Vec::new(alloc);
    for element in 0..ELEMENTS {
        if any_number {
            add_word(&mut words, texts.as_slice(), SETS)?;
        }
        add_word(&mut words, texts.as_slice(), element % SETS)?;
    }
    Pattern::read(alloc, words.as_slice(), false)
}

/// Appends the text with this index.
fn add_word<'a>(
    words: &mut Vec<&'a str>,
    texts: &'a [String],
    index: usize,
) -> Result<(), AllocError> {
    if let Some(text) = texts.get(index) {
        words.push(text.as_str())?;
    }
    Ok(())
}

/// The numbers of the labels of the sequence.
fn numbers(alloc: Global, of: Walk) -> Result<Vec<usize>, AllocError> {
    let mut numbers = Vec::new(alloc);
    for index in 0..of.0 {
        let set = index.saturating_mul(of.2).saturating_add(of.1) % SETS;
        numbers.push(set * SIZE + index % SIZE)?;
    }
    Ok(numbers)
}

/// Asserts that the sequence may end so, and that it has the same place when it is followed again.
fn assert_walk(
    rt: &impl Abort,
    alloc: Global,
    pattern: &mut CompiledPattern,
    row: (Walk, Option<End>),
) -> Result<(), AllocError> {
    let labels = numbers(alloc, row.0)?;
    let first = number_after(pattern, labels.as_slice())?;
    let end = compiled_end_after(pattern, labels.as_slice())?;
    let again = number_after(pattern, labels.as_slice())?;
    assert_eq!(rt; (end, first == again), (row.1, true), "{:?}", row.0);
    Ok(())
}

/// Asserts it for each row.
fn assert_walks(
    rt: &impl Abort,
    alloc: Global,
    any_number: bool,
    rows: &[(Walk, Option<End>)],
) -> Result<(), PatternFault> {
    let labels = labels(alloc)?;
    let mut pattern = boxed(alloc, pattern_of(alloc, any_number)?, labels)?;
    Ok(assert_walks_in(rt, alloc, &mut pattern, rows)?)
}

fn assert_walks_in(
    rt: &impl Abort,
    alloc: Global,
    pattern: &mut CompiledPattern,
    rows: &[(Walk, Option<End>)],
) -> Result<(), AllocError> {
    for row in rows {
        assert_walk(rt, alloc, pattern, *row)?;
    }
    Ok(())
}

#[test]
fn leads_through_many_labels(rt: HostRuntime) -> Result<(), Fail> {
    Ok(assert_walks(&rt, rt.alloc(), false, ONE_EACH)?)
}

#[test]
fn leads_past_many_labels(rt: HostRuntime) -> Result<(), Fail> {
    Ok(assert_walks(&rt, rt.alloc(), true, ANY_NUMBER_EACH)?)
}
