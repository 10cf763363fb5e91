//! A search, by depth or by length, and all that it returns.
ghost use Rattle.std.specs.Prelude.{◌≤◌};
ghost use Rattle.lotos_listing.specs.Question.{HaveTexts};

use super::accepted_text::{joined, normal_table_of_text, table_of_text};
use super::item_search::ItemSearch;
use lotos_length::LengthSearch;
use lotos_listing::{Halt, Mark};
use lotos_normal::NormalTable;
use lotos_pattern::Pattern;
use lotos_search::Search;
use lotos_terms::{Label, Table};
use std::alloc::{AllocError, Global};
use std::process::Abort;
use std::test::Fail;

/// All labels of the specifications here, in order.
pub const LABELS: [&str; 6] = ["A", "A1", "B", "C", "exit", "i"];

/// More items than any listing here has.
const MOST_ITEMS: usize = 10_000;

/// What bounds the sequences of a listing.
#[derive(Clone, Copy, Debug)]
pub enum Extent {
    /// The most steps of a derivation.
    Depth(u8),
    /// The most labels of a sequence, of derivations of any number of steps.
    Length(u8),
}

/// What is searched for.
#[derive(Clone, Copy)]
pub struct Question<'a> {
    /// The functionality and the behaviour of a specification with the gates `a`, `a1`, `b` and `c`, and what follows
    /// them.
    pub behaviour: &'a str,
    pub words: &'a [&'a str],
    pub strong: bool,
    pub extent: Extent,
    pub mark: Option<&'a str>,
    pub terms: usize,
}

/// An item, by the texts of its labels.
#[derive(Drop)]
pub struct Item {
    pub sequence: Vec<&'static str>,
    pub word: Vec<&'static str>,
}

/// How a listing ends.
#[derive(Drop)]
pub enum Ending {
    Complete,
    /// This prefix is oversized.
    Over(Vec<&'static str>),
}

#[derive(Drop)]
pub struct Listing {
    pub items: Vec<Item>,
    pub ending: Ending,
}

/// The text of a specification, given by its functionality and its behaviour.
pub fn specification(alloc: Global, behaviour: &str) -> Result<String, AllocError> {
    joined(
        alloc,
        &["specification S [a,a1,b,c] : ", behaviour, " endspec"],
    )
}

/// Its table.
fn table_of(alloc: Global, behaviour: &str) -> Result<Box<Table>, Fail> {
    let text = specification(alloc, behaviour)?;
    table_of_text(alloc, text.as_str())
}

/// Its normal table.
pub fn normal_table_of(alloc: Global, behaviour: &str) -> Result<Box<NormalTable>, Fail> {
    let text = specification(alloc, behaviour)?;
    normal_table_of_text(alloc, text.as_str())
}

/// The mark of a line, if there is one.
pub fn mark_of(alloc: Global, line: Option<&str>, strong: bool) -> Result<Option<Mark>, Fail> {
    match line {
        Some(line) => Ok(Some(Mark::read(alloc, line, strong)?)),
        None => Ok(None),
    }
}

/// The search by depth, not yet asked for an item.
pub fn begin(alloc: Global, question: Question) -> Result<Box<Search>, Fail> {
    begin_with(alloc, question, None)
}

/// The same, with a failure memo of this capacity if one is given.
pub fn begin_with(
    alloc: Global,
    question: Question,
    capacity: Option<usize>,
) -> Result<Box<Search>, Fail> {
    let Extent::Depth(depth) = question.extent else {
        return Err("no listing by depth")?;
    };
    if question.terms == 0 {
        return Err("a bound of no terms")?;
    }
    let mark = mark_of(alloc, question.mark, question.strong)?;
    begin_after(alloc, question, depth, capacity, mark)
}

fn begin_after(
    alloc: Global,
    question: Question,
    depth: u8,
    capacity: Option<usize>,
    mark: Option<Mark>,
) -> Result<Box<Search>, Fail>
    requires { 1 ≤ question.terms }
{
    let pattern = Pattern::read(alloc, question.words, question.strong)?;
    begin_pattern(alloc, question, depth, capacity, pattern, mark)
}

fn begin_pattern(
    alloc: Global,
    question: Question,
    depth: u8,
    capacity: Option<usize>,
    pattern: Pattern,
    mark: Option<Mark>,
) -> Result<Box<Search>, Fail>
    requires { 1 ≤ question.terms }
{
    let Question {
        behaviour,
        terms,
        ..
    } = question;
    let table = table_of(alloc, behaviour)?;
    Ok(begin_in(alloc, table, pattern, depth, mark, terms, capacity)?)
}

fn begin_in(
    alloc: Global,
    table: Box<Table>,
    pattern: Pattern,
    depth: u8,
    mark: Option<Mark>,
    terms: usize,
    capacity: Option<usize>,
) -> Result<Box<Search>, AllocError>
    requires { 1 ≤ terms }
{
    let table = Box::into_inner(table);
    let search = begin_search(alloc, table, pattern, depth, mark, terms, capacity)?;
    Ok(Box::new(alloc, search)?)
}

fn begin_search(
    alloc: Global,
    table: Table,
    pattern: Pattern,
    depth: u8,
    mark: Option<Mark>,
    terms: usize,
    capacity: Option<usize>,
) -> Result<Search, AllocError>
    requires { 1 ≤ terms }
{
    match capacity {
        None => Search::begin(alloc, table, pattern, depth, mark, terms),
        Some(capacity) => {
            Search::begin_with_memo(alloc, table, pattern, depth, mark, terms, capacity)
        }
    }
}

/// The search by length, not yet asked for an item. Each item has its run.
fn begin_by_length(
    alloc: Global,
    question: Question,
    length: u8,
) -> Result<Box<LengthSearch>, Fail> {
    let mark = mark_of(alloc, question.mark, question.strong)?;
    let pattern = Pattern::read(alloc, question.words, question.strong)?;
    begin_length_pattern(alloc, question, length, pattern, mark)
}

fn begin_length_pattern(
    alloc: Global,
    question: Question,
    length: u8,
    pattern: Pattern,
    mark: Option<Mark>,
) -> Result<Box<LengthSearch>, Fail> {
    let Question {
        behaviour,
        terms,
        ..
    } = question;
    let table = normal_table_of(alloc, behaviour)?;
    Ok(begin_length_in(alloc, table, pattern, length, terms, mark)?)
}

fn begin_length_in(
    alloc: Global,
    table: Box<NormalTable>,
    pattern: Pattern,
    length: u8,
    terms: usize,
    mark: Option<Mark>,
) -> Result<Box<LengthSearch>, AllocError> {
    let table = Box::into_inner(table);
    let search = LengthSearch::begin(alloc, table, pattern, length, terms, mark, true)?;
    Ok(Box::new(alloc, search)?)
}

/// What the search returns, from its first item to its end.
pub fn run(alloc: Global, question: Question) -> Result<Listing, Fail> {
    match question.extent {
        Extent::Depth(_) => run_by_depth(alloc, question),
        Extent::Length(length) => run_by_length(alloc, question, length),
    }
}

fn run_by_depth(alloc: Global, question: Question) -> Result<Listing, Fail> {
    let mut search = begin(alloc, question)?;
    rest(alloc, &mut *search)
}

fn run_by_length(alloc: Global, question: Question, length: u8) -> Result<Listing, Fail> {
    let mut search = begin_by_length(alloc, question, length)?;
    rest(alloc, &mut *search)
}

/// The same of a search by depth with a failure memo of this capacity, as text.
pub fn listing_with_memo(
    alloc: Global,
    question: Question,
    capacity: usize,
) -> Result<String, Fail> {
    let mut search = begin_with(alloc, question, Some(capacity))?;
    let listing = rest(alloc, &mut *search)?;
    Ok(text_of(alloc, &listing)?)
}

/// What the search returns, as text.
pub fn listing_text(alloc: Global, question: Question) -> Result<String, Fail> {
    let listing = run(alloc, question)?;
    Ok(text_of(alloc, &listing)?)
}

/// Asserts the listing as text.
pub fn assert_listing(
    rt: &impl Abort,
    alloc: Global,
    question: Question,
    expected: &str,
) -> Result<(), Fail> {
    let found = listing_text(alloc, question)?;
    assert_text(rt, question, found.as_str(), expected);
    Ok(())
}

/// Asserts that a text about a question is the expected one.
pub fn assert_text(rt: &impl Abort, question: Question, found: &str, expected: &str) {
    assert_eq!(rt;
        found,
        expected,
        "{}: {:?}, internal steps observed: {}, {:?}, after {:?}, at most {} terms",
        question.behaviour,
        question.words,
        question.strong,
        question.extent,
        question.mark,
        question.terms
    );
}

/// What the search still returns, to its end.
fn rest<S: ItemSearch>(alloc: Global, search: &mut S) -> Result<Listing, Fail> {
    let mut items = Vec::new(alloc);
    for _ in 0..MOST_ITEMS {
        match advance(alloc, search)? {
            Step::Item(item) => items.push(item)?,
            Step::End(ending) => return Ok(Listing { items, ending }),
        }
    }
    Err("a listing without end")?
}

/// What one call returns.
enum Step {
    Item(Item),
    End(Ending),
}

fn advance<S: ItemSearch>(alloc: Global, search: &mut S) -> Result<Step, Fail> {
    match search.next_item() {
        Ok(Some(found)) => Ok(Step::Item(Item {
            sequence: texts(alloc, search, found.sequence.as_slice())?,
            word: texts(alloc, search, found.word.as_slice())?,
        })),
        Ok(None) => Ok(Step::End(Ending::Complete)),
        Err(Halt::OverTerms(labels)) => {
            let prefix = texts(alloc, search, labels.as_slice())?;
            Ok(Step::End(Ending::Over(prefix)))
        }
        Err(Halt::Memory) => Err("memory is wanting")?,
        Err(Halt::Failed) => Err("a halt before")?,
    }
}

/// The texts of labels of a search.
fn texts<S: ItemSearch>(
    alloc: Global,
    search: &S,
    labels: &[Label],
) -> Result<Vec<&'static str>, Fail>
    requires { HaveTexts (S.names search.now) labels.now }
{
    let mut texts = Vec::new(alloc);
    for label in labels {
        texts.push(known(search.label_text(*label)).ok_or("an unknown label")?)?;
    }
    Ok(texts)
}

/// The one of the labels that has this text.
pub fn known(text: &str) -> Option<&'static str> {
    for label in LABELS {
        if label == text {
            return Some(label);
        }
    }
    None
}

/// A listing as text: its items, each with its run if that is not the sequence, and how it ends.
pub fn text_of(alloc: Global, listing: &Listing) -> Result<String, AllocError> {
    text_from(alloc, listing, 0)
}

/// The same without the items before this one.
pub fn text_from(alloc: Global, listing: &Listing, first: usize) -> Result<String, AllocError> {
    let mut out = String::new(alloc);
    for (place, item) in listing.items.iter().enumerate() {
        if place >= first {
            add_item(&mut out, item.sequence.as_slice(), item.word.as_slice())?;
        }
    }
    add_ending(&mut out, &listing.ending)?;
    Ok(out)
}

/// Appends an item, with its run if that is not the sequence.
pub fn add_item(out: &mut String, sequence: &[&str], word: &[&str]) -> Result<(), AllocError> {
    spell(out, sequence)?;
    if sequence != word {
        out.push_str(" : ")?;
        spell(out, word)?;
    }
    out.push_str("; ")
}

pub fn add_ending(out: &mut String, ending: &Ending) -> Result<(), AllocError> {
    match ending {
        Ending::Complete => out.push_str("end"),
        Ending::Over(prefix) => {
            out.push_str("over ")?;
            spell(out, prefix.as_slice())
        }
    }
}

/// Appends the labels, separated by one blank each.
pub fn spell(out: &mut String, labels: &[&str]) -> Result<(), AllocError> {
    let Some((first, others)) = labels.split_first() else {
        return out.push_str("<empty>");
    };
    out.push_str(first)?;
    for label in others {
        out.push_str(" ")?;
        out.push_str(label)?;
    }
    Ok(())
}
