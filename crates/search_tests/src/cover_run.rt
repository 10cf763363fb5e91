//! A search for the lines of a cover, and all that it returns, as text.
use super::accepted_text::normal_table_of_text;
use super::listing_run::{mark_of, spell};
use super::progress_tests::{NONE, Visits};
use lotos_automaton::AutomatonFault;
use lotos_listing::{Found, Mark};
use lotos_normal::NormalTable;
use lotos_suite::{CoverHalt, CoverSearch};
use lotos_terms::Label;
use lotos_text::Name;
use std::alloc::{AllocError, Global};
use std::process::Abort;
use std::test::Fail;

/// More lines than any cover here has.
const MOST_LINES: usize = 1_000;

/// What is covered.
#[derive(Clone, Copy)]
pub struct CoverQuestion<'a> {
    /// A specification.
    pub text: &'a str,
    pub strong: bool,
    /// The most normal forms of a set.
    pub terms: usize,
    /// The most sets.
    pub states: usize,
}

/// The lines of a cover and how it ends, as text, and what its observer is told.
#[derive(Drop)]
pub struct Cover {
    pub text: String,
    pub visits: Visits,
}

/// What one call returns.
#[derive(Drop)]
pub struct Answer {
    pub kind: Kind,
    /// The labels of its sequence. At the end and after a halt there are none.
    pub labels: Vec<Label>,
}

#[derive(Clone, Copy)]
pub enum Kind {
    Line,
    OverTerms,
    OverStates,
    End,
    Failed,
}

/// The search for the lines after this one, or for all, not yet asked for a line.
pub fn begin_cover(
    alloc: Global,
    question: CoverQuestion,
    after: Option<&str>,
) -> Result<Box<CoverSearch>, Fail> {
    let mark = mark_of(alloc, after, question.strong)?;
    let table = normal_table_of_text(alloc, question.text)?;
    Ok(begin_in(alloc, table, question, mark)?)
}

fn begin_in(
    alloc: Global,
    table: Box<NormalTable>,
    question: CoverQuestion,
    mark: Option<Mark>,
) -> Result<Box<CoverSearch>, AllocError> {
    let table = Box::into_inner(table);
    let CoverQuestion {
        strong,
        terms,
        states,
        ..
    } = question;
    let search = CoverSearch::begin(alloc, table, strong, terms, states, mark);
    Ok(Box::new(alloc, search)?)
}

/// What one call of the search returns, with an observer.
pub fn next_answer(
    alloc: Global,
    search: &mut CoverSearch,
    visits: &mut Visits,
) -> Result<Answer, Fail> {
    match search.next_with_progress(visits) {
        Ok(Some(found)) => line_of(found),
        Ok(None) => Ok(without_labels(alloc, Kind::End)),
        Err(CoverHalt::Fault(AutomatonFault::OverTerms(labels))) => Ok(Answer {
            kind: Kind::OverTerms,
            labels,
        }),
        Err(CoverHalt::Fault(AutomatonFault::OverStates(labels))) => Ok(Answer {
            kind: Kind::OverStates,
            labels,
        }),
        Err(CoverHalt::Fault(AutomatonFault::Memory)) => Err("memory is wanting")?,
        Err(CoverHalt::Failed) => Ok(without_labels(alloc, Kind::Failed)),
    }
}

/// The answer of a line, which has no run.
fn line_of(found: Found) -> Result<Answer, Fail> {
    let Found { sequence, word } = found;
    if !word.is_empty() {
        return Err("a line with a run")?;
    }
    Ok(Answer {
        kind: Kind::Line,
        labels: sequence,
    })
}

fn without_labels(alloc: Global, kind: Kind) -> Answer {
    Answer {
        kind,
        labels: Vec::new(alloc),
    }
}

/// What the search after this line returns, to its end.
pub fn run_cover(
    alloc: Global,
    question: CoverQuestion,
    after: Option<&str>,
) -> Result<Cover, Fail> {
    let mut search = begin_cover(alloc, question, after)?;
    all_answers(alloc, &mut search)
}

fn all_answers(alloc: Global, search: &mut CoverSearch) -> Result<Cover, Fail> {
    let mut text = String::new(alloc);
    let mut visits = NONE;
    for _ in 0..MOST_LINES {
        let answer = next_answer(alloc, search, &mut visits)?;
        add_answer(alloc, &mut text, search.gates(), &answer)?;
        if !matches!(answer.kind, Kind::Line) {
            return Ok(Cover { text, visits });
        }
    }
    Err("a cover without end")?
}

/// Appends what a call returned.
pub fn add_answer(
    alloc: Global,
    text: &mut String,
    gates: &[Name],
    answer: &Answer,
) -> Result<(), Fail> {
    match answer.kind {
        Kind::Line => {
            add_sequence(alloc, text, "", gates, answer)?;
            Ok(text.push_str("; ")?)
        }
        Kind::OverTerms => add_sequence(alloc, text, "over terms ", gates, answer),
        Kind::OverStates => add_sequence(alloc, text, "over states ", gates, answer),
        Kind::End => Ok(text.push_str("end")?),
        Kind::Failed => Ok(text.push_str("failed")?),
    }
}

/// Appends these words and the sequence of an answer.
fn add_sequence(
    alloc: Global,
    text: &mut String,
    words: &str,
    gates: &[Name],
    answer: &Answer,
) -> Result<(), Fail> {
    text.push_str(words)?;
    let labels = label_texts(alloc, gates, answer.labels.as_slice())?;
    Ok(spell(text, labels.as_slice())?)
}

pub fn label_texts<'a>(
    alloc: Global,
    gates: &'a [Name],
    labels: &[Label],
) -> Result<Vec<&'a str>, Fail> {
    let mut texts = Vec::new(alloc);
    for label in labels {
        texts.push(label_text(gates, *label)?)?;
    }
    Ok(texts)
}

/// The text of a label where the gates have these names.
pub fn label_text(gates: &[Name], label: Label) -> Result<&str, Fail> {
    match label {
        Label::Gate(gate) => {
            let name = gates.get(gate.number()).ok_or("an unknown gate")?;
            Ok(name.text())
        }
        Label::Exit => Ok("exit"),
        Label::Internal => Ok("i"),
    }
}

/// Asserts what the search returns.
pub fn assert_cover(
    rt: &impl Abort,
    question: CoverQuestion,
    after: Option<&str>,
    found: &Cover,
    expected: &Cover,
) {
    assert_cover_text(rt, question, after, found, expected.text.as_str());
    assert_eq!(rt;
        found.visits,
        expected.visits,
        "visits of {}, internal steps observed: {}, after {:?}, at most {} terms and {} states",
        question.text, question.strong, after, question.terms, question.states
    );
}

/// Asserts the lines and how the cover ends.
pub fn assert_cover_text(
    rt: &impl Abort,
    question: CoverQuestion,
    after: Option<&str>,
    found: &Cover,
    expected: &str,
) {
    assert_eq!(rt;
        found.text.as_str(),
        expected,
        "{}, internal steps observed: {}, after {:?}, at most {} terms and {} states",
        question.text,
        question.strong,
        after,
        question.terms,
        question.states
    );
}
