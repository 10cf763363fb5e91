//! Calls after the end and after a halt, and the order of sequences.
use super::listing_run::{Extent, Question, assert_text, begin};
use lotos_listing::{Halt, compare};
use lotos_search::Search;
use std::alloc::{AllocError, Global};
use std::test::Fail;

const QUESTION: Question = Question {
    behaviour: "noexit behaviour a; stop [] b; stop [] b; a; stop",
    words: &["<any>"],
    strong: false,
    extent: Extent::Depth(1),
    mark: None,
    terms: 2,
};

/// What one call returns.
fn name_of_next(search: &mut Search) -> &'static str {
    match search.next() {
        Ok(Some(_)) => "item ",
        Ok(None) => "end ",
        Err(Halt::OverTerms(_)) => "over ",
        Err(Halt::Failed) => "failed ",
        Err(Halt::Memory) => "memory ",
    }
}

fn names_of_calls(alloc: Global, search: &mut Search, calls: usize) -> Result<String, AllocError> {
    let mut names = String::new(alloc);
    for _ in 0..calls {
        names.push_str(name_of_next(search))?;
    }
    Ok(names)
}

/// What the first calls return.
fn first_calls(alloc: Global, question: Question, calls: usize) -> Result<String, Fail> {
    let mut search = begin(alloc, question)?;
    Ok(names_of_calls(alloc, &mut search, calls)?)
}

#[test]
fn returns_nothing_after_the_end(rt: HostRuntime) -> Result<(), Fail> {
    let found = first_calls(rt.alloc(), QUESTION, 5)?;
    assert_text(&rt, QUESTION, found.as_str(), "item item end end end ");
    Ok(())
}

/// The question with a bound that the second prefix exceeds.
const BOUNDED: Question = Question {
    terms: 1,
    ..QUESTION
};

#[test]
fn fails_after_a_halt(rt: HostRuntime) -> Result<(), Fail> {
    let found = first_calls(rt.alloc(), BOUNDED, 5)?;
    assert_text(
        &rt,
        BOUNDED,
        found.as_str(),
        "item over failed failed failed ",
    );
    Ok(())
}

/// Sequences in order.
const SEQUENCES: [&[&str]; 9] = [
    &[],
    &["A"],
    &["A1"],
    &["exit"],
    &["i"],
    &["A", "i"],
    &["A1", "A"],
    &["B", "A"],
    &["A", "A", "A"],
];

#[test]
fn compares_sequences(rt: HostRuntime) {
    for (place, left) in SEQUENCES.iter().enumerate() {
        for (other, right) in SEQUENCES.iter().enumerate() {
            let expected = place.cmp(&other);
            assert_eq!(rt;
                compare(left, right),
                expected,
                "{:?} and {:?}",
                left,
                right
            );
        }
    }
}
