//! First matches in small specifications against the oracle, also those whose end a pattern demands something of.
use super::end_oracle::{Demand, ends_of};
use super::ended_match_run::{Answer, LassoTexts, NO_MATCH, TOO_MANY, answer_of};
use super::graph::Graph;
use super::lasso_walk::is_lasso;
use super::listing_run::{normal_table_of, spell};
use super::match_oracle::{MatchQuestion, first_match, last_forms, observed};
use super::samples::{
    CALLS, CHOICES, END_PATTERNS, FIRST_PATTERNS, HIDING, INTERLEAVING, LOOPS, OPERATORS, PREFIXES,
    RECURSIONS, SECOND_PATTERNS, SET_PATTERNS, STRONG_END_PATTERNS, SYNCHRONIZATION,
    THIRD_PATTERNS, Words,
};
use lotos_normal::NormalTable;
use lotos_pattern::{EndKind, EverPattern};
use std::alloc::{AllocError, Global};
use std::process::Abort;
use std::test::Fail;

/// More states than any search here needs, unless there is no end of normal forms.
const STATES: usize = 200;

/// A specification and its normal forms.
#[derive(Clone, Copy)]
struct Sample<'a> {
    behaviour: &'a str,
    forms: &'a Graph,
}

/// What is searched for.
#[derive(Clone, Copy)]
struct Asked {
    words: Words,
    /// What the demand on the end says.
    kind: EndKind,
    strong: bool,
}

#[test]
fn matches_in_loops(rt: HostRuntime) -> Result<(), Fail> {
    compare(&rt, rt.alloc(), LOOPS)
}

#[test]
fn matches_in_recursions(rt: HostRuntime) -> Result<(), Fail> {
    compare(&rt, rt.alloc(), RECURSIONS)
}

#[test]
fn matches_in_calls(rt: HostRuntime) -> Result<(), Fail> {
    compare(&rt, rt.alloc(), CALLS)
}

#[test]
fn matches_in_prefixes(rt: HostRuntime) -> Result<(), Fail> {
    compare(&rt, rt.alloc(), PREFIXES)
}

#[test]
fn matches_in_choices(rt: HostRuntime) -> Result<(), Fail> {
    compare(&rt, rt.alloc(), CHOICES)
}

#[test]
fn matches_in_interleaving(rt: HostRuntime) -> Result<(), Fail> {
    compare(&rt, rt.alloc(), INTERLEAVING)
}

#[test]
fn matches_in_synchronization(rt: HostRuntime) -> Result<(), Fail> {
    compare(&rt, rt.alloc(), SYNCHRONIZATION)
}

#[test]
fn matches_in_hiding(rt: HostRuntime) -> Result<(), Fail> {
    compare(&rt, rt.alloc(), HIDING)
}

#[test]
fn matches_in_enabling_and_disabling(rt: HostRuntime) -> Result<(), Fail> {
    compare(&rt, rt.alloc(), OPERATORS)
}

/// Compares the matches of specifications.
fn compare(rt: &impl Abort, alloc: Global, samples: &[&'static str]) -> Result<(), Fail> {
    for behaviour in samples {
        compare_one(rt, alloc, behaviour)?;
    }
    Ok(())
}

fn compare_one(rt: &impl Abort, alloc: Global, behaviour: &'static str) -> Result<(), Fail> {
    let forms = Graph::of_forms(alloc, behaviour)?;
    let forms = &forms;
    let mut table = normal_table_of(alloc, behaviour)?;
    compare_in(rt, alloc, Sample { behaviour, forms }, &mut table)
}

/// Compares the matches in the table of a specification. If there is no end of its normal forms, there are too many of
/// them for each search that has to find all.
fn compare_in(
    rt: &impl Abort,
    alloc: Global,
    sample: Sample,
    table: &mut NormalTable,
) -> Result<(), Fail> {
    if !sample.forms.is_whole() {
        return compare_bound(rt, alloc, sample, table, STATES);
    }
    let fewer = sample.forms.len().saturating_sub(1);
    compare_bound(rt, alloc, sample, table, fewer)?;
    compare_ends(rt, alloc, sample, table)?;
    compare_others(rt, alloc, sample, table)
}

/// Asserts that there are too many normal forms for this bound.
fn compare_bound(
    rt: &impl Abort,
    alloc: Global,
    sample: Sample,
    table: &mut NormalTable,
    bound: usize,
) -> Result<(), Fail> {
    for (words, kind) in END_PATTERNS {
        let asked = Asked {
            words: *words,
            kind: *kind,
            strong: false,
        };
        let found = found_within(alloc, table, asked, bound)?;
        assert_found(rt, sample, asked, found.as_str(), TOO_MANY);
    }
    Ok(())
}

/// What is found within a bound.
fn found_within(
    alloc: Global,
    table: &mut NormalTable,
    asked: Asked,
    bound: usize,
) -> Result<String, Fail> {
    let pattern = EverPattern::read(alloc, asked.words, asked.strong)?;
    let answer = answer_of(alloc, table, &pattern, bound)?;
    Ok(answer.found)
}

/// Compares the matches of patterns that demand something of what can come after the end.
fn compare_ends(
    rt: &impl Abort,
    alloc: Global,
    sample: Sample,
    table: &mut NormalTable,
) -> Result<(), Fail> {
    for (words, kind) in END_PATTERNS {
        compare_pattern(rt, alloc, sample, table, words, *kind, false)?;
        compare_pattern(rt, alloc, sample, table, words, *kind, true)?;
    }
    for (words, kind) in STRONG_END_PATTERNS {
        compare_pattern(rt, alloc, sample, table, words, *kind, true)?;
    }
    Ok(())
}

/// Compares the matches of other patterns.
fn compare_others(
    rt: &impl Abort,
    alloc: Global,
    sample: Sample,
    table: &mut NormalTable,
) -> Result<(), Fail> {
    compare_patterns(rt, alloc, sample, table, FIRST_PATTERNS, &[false, true])?;
    compare_patterns(rt, alloc, sample, table, SECOND_PATTERNS, &[false, true])?;
    compare_patterns(rt, alloc, sample, table, SET_PATTERNS, &[false, true])?;
    compare_patterns(rt, alloc, sample, table, THIRD_PATTERNS, &[true])
}

fn compare_patterns(
    rt: &impl Abort,
    alloc: Global,
    sample: Sample,
    table: &mut NormalTable,
    patterns: &[Words],
    flags: &[bool],
) -> Result<(), Fail> {
    for words in patterns {
        for strong in flags {
            compare_pattern(rt, alloc, sample, table, words, EndKind::Refuses, *strong)?;
        }
    }
    Ok(())
}

/// Compares what one search finds.
fn compare_pattern(
    rt: &impl Abort,
    alloc: Global,
    sample: Sample,
    table: &mut NormalTable,
    words: Words,
    kind: EndKind,
    strong: bool,
) -> Result<(), Fail> {
    let asked = Asked {
        words,
        kind,
        strong,
    };
    let pattern = EverPattern::read(alloc, words, strong)?;
    let answer = answer_of(alloc, table, &pattern, STATES)?;
    compare_answer(rt, alloc, sample, asked, &pattern, &answer)
}

fn compare_answer(
    rt: &impl Abort,
    alloc: Global,
    sample: Sample,
    asked: Asked,
    pattern: &EverPattern,
    answer: &Answer,
) -> Result<(), Fail> {
    let demand = Demand {
        kind: asked.kind,
        set: pattern.pattern.refusal(),
        strong: asked.strong,
    };
    let ends = ends_of(alloc, sample.forms, demand)?;
    let question = MatchQuestion {
        graph: sample.forms,
        pattern: &pattern.pattern,
        ends: ends.as_slice(),
    };
    let run = first_match(alloc, question)?;
    let expected = expected_text(alloc, demand, &run)?;
    let found = found_text(alloc, question, demand, &run, answer)?;
    assert_found(rt, sample, asked, found.as_str(), expected.as_str());
    Ok(())
}

/// The sequence and the run of a match, and whether it goes on for ever.
fn expected_text(
    alloc: Global,
    demand: Demand,
    run: &Option<Vec<&'static str>>,
) -> Result<String, AllocError> {
    match run {
        None => String::from_str(alloc, NO_MATCH),
        Some(run) => match_text(alloc, demand, run.as_slice()),
    }
}

fn match_text(alloc: Global, demand: Demand, run: &[&'static str]) -> Result<String, AllocError> {
    let mut text = String::new(alloc);
    let sequence = observed(alloc, run, demand.strong)?;
    spell(&mut text, sequence.as_slice())?;
    text.push_str(" : ")?;
    spell(&mut text, run)?;
    if demand.is_about_rows() {
        text.push_str(GOES_ON)?;
    }
    Ok(text)
}

const GOES_ON: &str = ", goes on for ever";

/// What a search found, and whether its lasso can be followed after this run.
fn found_text(
    alloc: Global,
    question: MatchQuestion,
    demand: Demand,
    run: &Option<Vec<&'static str>>,
    answer: &Answer,
) -> Result<String, Fail> {
    let mut text = String::from_str(alloc, answer.found.as_str())?;
    if let Some(lasso) = &answer.lasso {
        if can_follow(alloc, question, demand, run, lasso)? {
            text.push_str(GOES_ON)?;
        } else {
            text.push_str(", wrong lasso")?;
        }
    }
    Ok(text)
}

fn can_follow(
    alloc: Global,
    question: MatchQuestion,
    demand: Demand,
    run: &Option<Vec<&'static str>>,
    lasso: &LassoTexts,
) -> Result<bool, Fail> {
    match run {
        None => Ok(false),
        Some(run) => {
            let last = last_forms(alloc, question, run.as_slice())?;
            is_lasso(alloc, question.graph, demand, last.as_slice(), lasso)
        }
    }
}

fn assert_found(rt: &impl Abort, sample: Sample, asked: Asked, found: &str, expected: &str) {
    assert_eq!(rt;
        found,
        expected,
        "{}: {:?}, internal steps observed: {}",
        sample.behaviour, asked.words, asked.strong
    );
}
