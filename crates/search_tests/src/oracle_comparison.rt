//! Searches of small specifications, by depth against two oracles and by length against one of them.
use super::derivation_oracle::{Derivation, derivations, listing_by_derivations};
use super::graph::Graph;
use super::graph_question::GraphQuestion;
use super::length_oracle::listing_by_length;
use super::listing_run::{
    Extent, Item, Listing, Question, assert_listing, assert_text, listing_with_memo, run, spell,
    text_from, text_of,
};
use super::samples::{
    CALLS, CHOICES, FIRST_PATTERNS, HIDING, INTERLEAVING, OPERATORS, PREFIXES, RECURSIONS,
    SECOND_PATTERNS, SET_PATTERNS, SYNCHRONIZATION, THIRD_PATTERNS, Words,
};
use lotos_pattern::Pattern;
use std::alloc::{AllocError, Global};
use std::process::Abort;
use std::test::Fail;

/// More terms than any prefix here reaches.
const ALL: usize = 1000;

/// The bounds on the terms of a prefix.
const BOUNDS: [usize; 3] = [1, 3, ALL];

/// The capacities of failure memos. A state key takes two at least, so the first two memos hold none; the third is full
/// after three keys at most.
const CAPACITIES: [usize; 4] = [0, 1, 6, 40];

/// The greatest length, and shorter ones.
const LENGTH: u8 = 4;

const SHORTER: [u8; 2] = [0, 2];

/// A specification, its terms and derivations up to a depth, and its normal forms.
#[derive(Drop)]
struct Sample {
    behaviour: &'static str,
    depth: u8,
    /// The quarter of the patterns that it is searched for by depth, and the eighth by length.
    turn: usize,
    graph: Graph,
    derivations: Vec<Derivation>,
    forms: Graph,
}

#[test]
fn prefixes(rt: HostRuntime) -> Result<(), Fail> {
    compare(&rt, rt.alloc(), PREFIXES, 6)
}

#[test]
fn choices(rt: HostRuntime) -> Result<(), Fail> {
    compare(&rt, rt.alloc(), CHOICES, 5)
}

#[test]
fn interleaving(rt: HostRuntime) -> Result<(), Fail> {
    compare(&rt, rt.alloc(), INTERLEAVING, 5)
}

#[test]
fn synchronization(rt: HostRuntime) -> Result<(), Fail> {
    compare(&rt, rt.alloc(), SYNCHRONIZATION, 5)
}

#[test]
fn hiding(rt: HostRuntime) -> Result<(), Fail> {
    compare(&rt, rt.alloc(), HIDING, 5)
}

#[test]
fn enabling_and_disabling(rt: HostRuntime) -> Result<(), Fail> {
    compare(&rt, rt.alloc(), OPERATORS, 6)
}

#[test]
fn calls(rt: HostRuntime) -> Result<(), Fail> {
    compare(&rt, rt.alloc(), CALLS, 5)
}

#[test]
fn recursions(rt: HostRuntime) -> Result<(), Fail> {
    compare(&rt, rt.alloc(), RECURSIONS, 5)
}

/// Compares the searches of specifications, each for a quarter of the patterns.
fn compare(
    rt: &impl Abort,
    alloc: Global,
    samples: &[&'static str],
    depth: u8,
) -> Result<(), Fail> {
    for (turn, behaviour) in samples.iter().enumerate() {
        compare_one(rt, alloc, behaviour, depth, turn)?;
    }
    Ok(())
}

fn compare_one(
    rt: &impl Abort,
    alloc: Global,
    behaviour: &'static str,
    depth: u8,
    turn: usize,
) -> Result<(), Fail> {
    let sample = sample_of(alloc, behaviour, depth, turn)?;
    compare_sample(rt, alloc, &sample)
}

fn sample_of(
    alloc: Global,
    behaviour: &'static str,
    depth: u8,
    turn: usize,
) -> Result<Sample, Fail> {
    let graph = Graph::new(alloc, behaviour, depth)?;
    let derivations = derivations(alloc, &graph, depth)?;
    let forms = Graph::of_forms(alloc, behaviour)?;
    Ok(Sample {
        behaviour,
        depth,
        turn,
        graph,
        derivations,
        forms,
    })
}

fn compare_sample(rt: &impl Abort, alloc: Global, sample: &Sample) -> Result<(), Fail> {
    compare_patterns(rt, alloc, sample, FIRST_PATTERNS, &[false, true])?;
    compare_patterns(rt, alloc, sample, SECOND_PATTERNS, &[false, true])?;
    compare_patterns(rt, alloc, sample, THIRD_PATTERNS, &[true])?;
    compare_sets(rt, alloc, sample)
}

fn compare_sets(rt: &impl Abort, alloc: Global, sample: &Sample) -> Result<(), Fail> {
    compare_patterns(rt, alloc, sample, SET_PATTERNS, &[false, true])
}

fn compare_patterns(
    rt: &impl Abort,
    alloc: Global,
    sample: &Sample,
    patterns: &[Words],
    flags: &[bool],
) -> Result<(), Fail> {
    for (number, words) in patterns.iter().enumerate() {
        for strong in flags {
            compare_pattern(rt, alloc, sample, number, words, *strong)?;
        }
    }
    Ok(())
}

/// Compares the searches for one pattern, if it is the sample's turn.
fn compare_pattern(
    rt: &impl Abort,
    alloc: Global,
    sample: &Sample,
    number: usize,
    words: Words,
    strong: bool,
) -> Result<(), Fail> {
    if number % 4 == sample.turn % 4 {
        compare_depths(rt, alloc, sample, words, strong)?;
    }
    if number % 8 == sample.turn % 8 {
        compare_lengths(rt, alloc, sample, words, strong)?;
    }
    Ok(())
}

/// Compares at all depths without a bound, and at the greatest depth with bounds and after a mark.
fn compare_depths(
    rt: &impl Abort,
    alloc: Global,
    sample: &Sample,
    words: Words,
    strong: bool,
) -> Result<(), Fail> {
    let whole = Question {
        behaviour: sample.behaviour,
        words,
        strong,
        extent: Extent::Depth(sample.depth),
        mark: None,
        terms: ALL,
    };
    for depth in 0..sample.depth {
        let extent = Extent::Depth(depth);
        compare_depth(rt, alloc, sample, Question { extent, ..whole }, depth)?;
    }
    for terms in BOUNDS {
        compare_with_marks(rt, alloc, sample, Question { terms, ..whole })?;
    }
    Ok(())
}

/// Compares one search by depth.
fn compare_depth(
    rt: &impl Abort,
    alloc: Global,
    sample: &Sample,
    question: Question,
    depth: u8,
) -> Result<(), Fail> {
    let listing = run(alloc, question)?;
    compare_listing(rt, alloc, sample, question, depth, &listing)
}

/// Compares one search by the greatest depth, the same with small failure memos, and what comes after the item in the
/// middle.
fn compare_with_marks(
    rt: &impl Abort,
    alloc: Global,
    sample: &Sample,
    question: Question,
) -> Result<(), Fail> {
    let listing = run(alloc, question)?;
    compare_listing(rt, alloc, sample, question, sample.depth, &listing)?;
    compare_memos(rt, alloc, sample, question, &listing)?;
    compare_after_mark(rt, alloc, question, &CAPACITIES, &listing)
}

fn compare_listing(
    rt: &impl Abort,
    alloc: Global,
    sample: &Sample,
    question: Question,
    depth: u8,
    listing: &Listing,
) -> Result<(), Fail> {
    let pattern = Pattern::read(alloc, question.words, question.strong)?;
    let graph_question = GraphQuestion {
        graph: &sample.graph,
        pattern: &pattern,
        depth,
        length: depth,
        terms: question.terms,
    };
    compare_by_length(rt, alloc, question, graph_question, listing)?;
    compare_by_derivations(rt, alloc, sample, question, graph_question, listing)
}

/// Compares a listing with the oracle by length.
fn compare_by_length(
    rt: &impl Abort,
    alloc: Global,
    question: Question,
    graph_question: GraphQuestion,
    listing: &Listing,
) -> Result<(), Fail> {
    let found = text_of(alloc, listing)?;
    let by_length = listing_by_length(alloc, graph_question)?;
    let expected = text_of(alloc, &by_length)?;
    assert_text(rt, question, found.as_str(), expected.as_str());
    Ok(())
}

/// Compares a listing with the oracle over derivations.
fn compare_by_derivations(
    rt: &impl Abort,
    alloc: Global,
    sample: &Sample,
    question: Question,
    graph_question: GraphQuestion,
    listing: &Listing,
) -> Result<(), Fail> {
    let found = text_of(alloc, listing)?;
    let expected = listing_by_derivations(alloc, graph_question, sample.derivations.as_slice())?;
    assert_text(rt, question, found.as_str(), expected.as_str());
    Ok(())
}

/// Compares searches with small failure memos with this listing, and with the oracle over derivations.
fn compare_memos(
    rt: &impl Abort,
    alloc: Global,
    sample: &Sample,
    question: Question,
    listing: &Listing,
) -> Result<(), Fail> {
    let usual = text_of(alloc, listing)?;
    let expected = listing_by_oracle(alloc, sample, question)?;
    for capacity in CAPACITIES {
        let found = listing_with_memo(alloc, question, capacity)?;
        assert_memo(rt, question, capacity, found.as_str(), usual.as_str());
        assert_memo(rt, question, capacity, found.as_str(), expected.as_str());
    }
    Ok(())
}

/// What the oracle over derivations lists up to the greatest depth.
fn listing_by_oracle(alloc: Global, sample: &Sample, question: Question) -> Result<String, Fail> {
    let pattern = Pattern::read(alloc, question.words, question.strong)?;
    let graph_question = GraphQuestion {
        graph: &sample.graph,
        pattern: &pattern,
        depth: sample.depth,
        length: sample.depth,
        terms: question.terms,
    };
    listing_by_derivations(alloc, graph_question, sample.derivations.as_slice())
}

/// Asserts what a search with a failure memo of this capacity lists.
fn assert_memo(rt: &impl Abort, question: Question, capacity: usize, found: &str, expected: &str) {
    assert_eq!(rt;
        found,
        expected,
        "{}: {:?}, internal steps observed: {}, after {:?}, at most {} terms, a memo of {}",
        question.behaviour, question.words, question.strong, question.mark, question.terms, capacity
    );
}

/// Compares what comes after the item in the middle, also with failure memos of these capacities.
fn compare_after_mark(
    rt: &impl Abort,
    alloc: Global,
    question: Question,
    capacities: &[usize],
    listing: &Listing,
) -> Result<(), Fail> {
    let middle = listing.items.len() / 2;
    match listing.items.get(middle) {
        Some(item) => {
            compare_after_item(rt, alloc, question, capacities, listing, middle + 1, item)
        }
        None => Ok(()),
    }
}

/// Compares what comes after this item, which is the one before the index `next`.
fn compare_after_item(
    rt: &impl Abort,
    alloc: Global,
    question: Question,
    capacities: &[usize],
    listing: &Listing,
    next: usize,
    item: &Item,
) -> Result<(), Fail> {
    let line = line_of(alloc, item)?;
    let again = Question {
        mark: Some(line.as_str()),
        ..question
    };
    compare_rest(rt, alloc, again, capacities, listing, next)
}

fn line_of(alloc: Global, item: &Item) -> Result<String, AllocError> {
    let mut line = String::new(alloc);
    spell(&mut line, item.sequence.as_slice())?;
    Ok(line)
}

/// Compares searches that go on after a mark with the rest of the whole listing.
fn compare_rest(
    rt: &impl Abort,
    alloc: Global,
    again: Question,
    capacities: &[usize],
    listing: &Listing,
    next: usize,
) -> Result<(), Fail> {
    let expected = text_from(alloc, listing, next)?;
    for capacity in capacities {
        let found = listing_with_memo(alloc, again, *capacity)?;
        assert_memo(rt, again, *capacity, found.as_str(), expected.as_str());
    }
    assert_listing(rt, alloc, again, expected.as_str())
}

/// Compares by length: at shorter lengths without a bound, and at the greatest one with bounds and after a mark.
fn compare_lengths(
    rt: &impl Abort,
    alloc: Global,
    sample: &Sample,
    words: Words,
    strong: bool,
) -> Result<(), Fail> {
    let whole = Question {
        behaviour: sample.behaviour,
        words,
        strong,
        extent: Extent::Length(LENGTH),
        mark: None,
        terms: ALL,
    };
    for length in SHORTER {
        let extent = Extent::Length(length);
        compare_length(rt, alloc, sample, Question { extent, ..whole }, length)?;
    }
    for terms in BOUNDS {
        let question = Question { terms, ..whole };
        let listing = compare_length(rt, alloc, sample, question, LENGTH)?;
        compare_after_mark(rt, alloc, question, &[], &listing)?;
    }
    Ok(())
}

/// Compares one search by length, and returns the listing.
fn compare_length(
    rt: &impl Abort,
    alloc: Global,
    sample: &Sample,
    question: Question,
    length: u8,
) -> Result<Listing, Fail> {
    let listing = run(alloc, question)?;
    let pattern = Pattern::read(alloc, question.words, question.strong)?;
    let graph_question = GraphQuestion {
        graph: &sample.forms,
        pattern: &pattern,
        depth: u8::MAX,
        length,
        terms: question.terms,
    };
    compare_by_length(rt, alloc, question, graph_question, &listing)?;
    Ok(listing)
}
