//! Patterns of many elements.
use super::sequence_ends::{assert_end, end_after};
use lotos_pattern::{End, Pattern, PatternFault};
use std::alloc::Global;
use std::test::Fail;

/// Words repeated a number of times, with the words after them.
#[derive(Clone, Copy)]
struct Repeated(&'static [&'static str], usize, &'static [&'static str]);

fn written(alloc: Global, of: Repeated) -> Result<Vec<&'static str>, PatternFault> {
    let mut all = Vec::new(alloc);
    for _ in 0..of.1 {
        all.extend_from_slice(of.0)?;
    }
    all.extend_from_slice(of.2)?;
    Ok(all)
}

/// Whether the sequence may end in the pattern of the words; none if it has no place.
fn end_of(alloc: Global, words: Repeated, labels: Repeated) -> Result<Option<End>, PatternFault> {
    let words = written(alloc, words)?;
    let pattern = Pattern::read(alloc, words.as_slice(), false)?;
    let labels = written(alloc, labels)?;
    Ok(end_after(&pattern, labels.as_slice()))
}

const NONE: &[&str] = &[];

const ALL: &[(&str, Repeated, Repeated, Option<End>)] = &[
    (
        "256 elements, skipped to the end",
        Repeated(&["<while>", "A"], 256, NONE),
        Repeated(NONE, 0, NONE),
        Some(End::Yes),
    ),
    (
        "256 elements, the first for each label",
        Repeated(&["<while>", "A"], 256, NONE),
        Repeated(NONE, 0, &["A", "A"]),
        Some(End::Yes),
    ),
    (
        "256 elements, and a label of none",
        Repeated(&["<while>", "A"], 256, NONE),
        Repeated(NONE, 0, &["A", "B"]),
        None,
    ),
    (
        "256 elements, the last a refused set, skipped to the end",
        Repeated(&["<while>", "A"], 255, &["<refuses>", "A"]),
        Repeated(NONE, 0, &["A"]),
        Some(End::IfRefuses),
    ),
    (
        "256 labels, one of them not done",
        Repeated(&["A"], 256, NONE),
        Repeated(&["A"], 255, NONE),
        Some(End::No),
    ),
    (
        "256 labels, all done",
        Repeated(&["A"], 256, NONE),
        Repeated(&["A"], 256, NONE),
        Some(End::Yes),
    ),
    (
        "256 labels, and one more",
        Repeated(&["A"], 256, NONE),
        Repeated(&["A"], 257, NONE),
        None,
    ),
];

/// A pattern of 256 elements is skipped to its end, and matched to its end.
#[test]
fn has_the_last_state(rt: HostRuntime) -> Result<(), Fail> {
    for (subject, words, labels, end) in ALL {
        let found = end_of(rt.alloc(), *words, *labels)?;
        assert_end(&rt, &[*subject], labels.2, found, *end);
    }
    Ok(())
}

/// How many elements come before the last: the states after them are around the ends of a place's words.
const BEFORE: &[usize] = &[1, 62, 63, 64, 65, 127, 128, 255];

/// A word or two, the labels that are repeated as often, those after them, and whether the sequence may end. The last
/// element of the pattern is `B`.
const LAST: &[(&[&str], &[&str], &[&str], Option<End>)] = &[
    (&["A"], &["A"], &[], Some(End::No)),
    (&["A"], &["A"], &["B"], Some(End::Yes)),
    (&["A"], &["A"], &["B", "B"], None),
    (&["<while>", "A"], &[], &["A"], Some(End::No)),
    (&["<while>", "A"], &[], &["A", "B"], Some(End::Yes)),
    (&["<while>", "A"], &[], &["B", "A"], None),
];

/// The last element is found after many others, whether these are done one by one or skipped.
#[test]
fn has_states_of_each_word(rt: HostRuntime) -> Result<(), Fail> {
    for count in BEFORE {
        for (words, labels, after, end) in LAST {
            let pattern = Repeated(words, *count, &["B"]);
            let found = end_of(rt.alloc(), pattern, Repeated(labels, *count, after))?;
            assert_end(&rt, words, after, found, *end);
        }
    }
    Ok(())
}
