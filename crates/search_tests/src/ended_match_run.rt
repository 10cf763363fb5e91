//! Searches for first matches whose end a pattern demands something of, and what they return as text.
use lotos_ends::Lasso;
use lotos_ever::{EndedMatch, Halt, find_shortest_match_with_end};
use lotos_listing::NoProgress;
use lotos_normal::NormalTable;
use lotos_pattern::EverPattern;
use lotos_terms::Label;
use lotos_text::Name;
use std::alloc::{AllocError, Global};
use std::test::Fail;

/// What is returned if there is no match.
pub const NO_MATCH: &str = "none";

/// What is returned if there are more states than the bound.
pub const TOO_MANY: &str = "too many states";

/// What a search returns.
#[derive(Drop)]
pub struct Answer {
    /// The sequence and the run of the match, or one of the two texts above.
    pub found: String,
    /// The labels of the steps that never end, if there are any.
    pub lasso: Option<LassoTexts>,
}

/// The labels of a lasso.
#[derive(Drop)]
pub struct LassoTexts {
    pub row: Vec<String>,
    pub turn: Vec<String>,
}

/// What the search returns in a table.
pub fn answer_of(
    alloc: Global,
    table: &mut NormalTable,
    pattern: &EverPattern,
    states: usize,
) -> Result<Answer, Fail> {
    match find_shortest_match_with_end(alloc, table, pattern, states, &mut NoProgress) {
        Ok(Some(ended)) => Ok(match_answer(alloc, table.gates(), &ended)?),
        Ok(None) => Ok(plain_answer(alloc, NO_MATCH)?),
        Err(Halt::TooManyStates) => Ok(plain_answer(alloc, TOO_MANY)?),
        Err(Halt::Memory) => Err("out of memory")?,
    }
}

fn plain_answer(alloc: Global, text: &str) -> Result<Answer, AllocError> {
    Ok(Answer {
        found: String::from_str(alloc, text)?,
        lasso: None,
    })
}

fn match_answer(alloc: Global, gates: &[Name], ended: &EndedMatch) -> Result<Answer, AllocError> {
    let mut found = String::new(alloc);
    add_all(&mut found, gates, ended.found.sequence.as_slice())?;
    found.push_str(" : ")?;
    add_all(&mut found, gates, ended.found.word.as_slice())?;
    let lasso = match &ended.lasso {
        None => None,
        Some(lasso) => Some(lasso_texts(alloc, gates, lasso)?),
    };
    Ok(Answer { found, lasso })
}

fn lasso_texts(alloc: Global, gates: &[Name], lasso: &Lasso) -> Result<LassoTexts, AllocError> {
    Ok(LassoTexts {
        row: texts_of(alloc, gates, lasso.row.as_slice())?,
        turn: texts_of(alloc, gates, lasso.turn.as_slice())?,
    })
}

fn texts_of(alloc: Global, gates: &[Name], labels: &[Label]) -> Result<Vec<String>, AllocError> {
    let mut texts = Vec::new(alloc);
    for label in labels {
        texts.push(String::from_str(alloc, label_text(gates, *label))?)?;
    }
    Ok(texts)
}

/// Adds the labels with blanks between, `<empty>` if there are none.
fn add_all(out: &mut String, gates: &[Name], labels: &[Label]) -> Result<(), AllocError> {
    let Some((first, others)) = labels.split_first() else {
        return out.push_str("<empty>");
    };
    out.push_str(label_text(gates, *first))?;
    for label in others {
        out.push_str(" ")?;
        out.push_str(label_text(gates, *label))?;
    }
    Ok(())
}

fn label_text(gates: &[Name], label: Label) -> &str {
    match label {
        Label::Gate(gate) => match gates.get(gate.number()) {
            Some(name) => name.text(),
            None => "unknown",
        },
        Label::Exit => "exit",
        Label::Internal => "i",
    }
}
