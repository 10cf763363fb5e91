//! Items after a line, and second items.
ghost use Rattle.std.specs.Prelude.{◌≤◌};

use super::accepted_text::table_of_text;
use super::row_label::{A, B, EXIT, RowLabel, are_labels};
use lotos_listing::{Found, Halt};
use lotos_pattern::Pattern;
use lotos_terms::Table;
use std::alloc::Global;
use std::process::Abort;
use std::test::Fail;
use uses::{ItemFault, item_after, second_item};

/// The depth of the searches, and a bound that no prefix exceeds.
const DEPTH: u8 = 3;

const TERMS: usize = 100;

/// A specification with the sequences `<empty>`, `A`, `B`, `A exit`, `B A`, `B A exit`.
const TEXT: &str = "specification S [a,b] : exit behaviour a; exit [] b; a; exit endspec";

/// A line, and the sequence of the first item after it, if there is one.
const LINES: &[(&str, Option<&[RowLabel]>)] = &[
    ("<empty>", Some(&[A])),
    ("A", Some(&[B])),
    ("B", Some(&[A, EXIT])),
    ("A exit", Some(&[B, A])),
    ("A exit : A exit", Some(&[B, A])),
    ("B A", Some(&[B, A, EXIT])),
    ("B A exit", None),
    // Lines that the listing does not have.
    ("A A", Some(&[A, EXIT])),
    ("C", Some(&[A, EXIT])),
    ("A A A A", None),
];

/// Whether the answer is this item.
fn is_item<E>(answer: &Result<Option<Found>, E>, wanted: Option<&[RowLabel]>) -> bool {
    match answer {
        Ok(Some(item)) => match wanted {
            Some(labels) => are_labels(item.sequence.as_slice(), labels),
            None => false,
        },
        Ok(None) => wanted.is_none(),
        Err(_) => false,
    }
}

/// The item that `item_after` returns, without its search.
fn found_after(
    alloc: Global,
    table: Box<Table>,
    pattern: Pattern,
    line: &str,
) -> Result<Option<Found>, ItemFault> {
    let (_search, found) = item_after(alloc, table, pattern, DEPTH, line, TERMS)?;
    Ok(found)
}

/// The same of the specification.
fn after(alloc: Global, line: &str) -> Result<Result<Option<Found>, ItemFault>, Fail> {
    let pattern = Pattern::read(alloc, &["<while>", "<any>"], false)?;
    Ok(found_after(alloc, table_of_text(alloc, TEXT)?, pattern, line))
}

fn is_after(alloc: Global, line: &str, wanted: Option<&[RowLabel]>) -> Result<bool, Fail> {
    let answer = after(alloc, line)?;
    Ok(is_item(&answer, wanted))
}

#[test]
fn finds_the_item_after_a_line(rt: HostRuntime) -> Result<(), Fail> {
    for (line, wanted) in LINES {
        let holds = is_after(rt.alloc(), line, *wanted)?;
        assert_after(&rt, line, *wanted, holds);
    }
    Ok(())
}

fn assert_after(rt: &impl Abort, line: &str, wanted: Option<&[RowLabel]>, holds: bool) {
    assert!(rt; holds, "after {}: {:?}", line, wanted);
}

fn is_refused(alloc: Global, line: &str) -> Result<bool, Fail> {
    let answer = after(alloc, line)?;
    Ok(matches!(&answer, Err(ItemFault::Line)))
}

#[test]
fn rejects_a_line_that_no_listing_has(rt: HostRuntime) -> Result<(), Fail> {
    assert!(rt; is_refused(rt.alloc(), "A  B")?, "two blanks");
    Ok(())
}

/// The item that `second_item` returns, without its search.
fn found_second(
    alloc: Global,
    table: Box<Table>,
    pattern: Pattern,
    terms: usize,
) -> Result<Option<Found>, Halt>
    requires { 1 ≤ terms }
{
    let (_search, found) = second_item(alloc, table, pattern, DEPTH, terms)?;
    Ok(found)
}

/// The same of a specification.
fn second(
    alloc: Global,
    text: &str,
    words: &[&str],
    terms: usize,
) -> Result<Result<Option<Found>, Halt>, Fail>
    requires { 1 ≤ terms }
{
    let pattern = Pattern::read(alloc, words, false)?;
    Ok(found_second(alloc, table_of_text(alloc, text)?, pattern, terms))
}

fn is_second(alloc: Global, words: &[&str], wanted: Option<&[RowLabel]>) -> Result<bool, Fail> {
    let answer = second(alloc, TEXT, words, TERMS)?;
    Ok(is_item(&answer, wanted))
}

/// The words of a pattern, and the sequence of the second item of its listing, if there is one.
const SECOND: &[(&[&str], Option<&[RowLabel]>)] = &[
    (&["<while>", "<any>"], Some(&[A])),
    (&["<any>"], Some(&[B])),
    // `A exit` and `B A`.
    (&["<any>", "<any>"], Some(&[B, A])),
    // `A exit` and `B A exit`.
    (&["<until>", "exit"], Some(&[B, A, EXIT])),
    // `B` alone.
    (&["b"], None),
    // None at all.
    (&["c"], None),
];

#[test]
fn finds_the_second_item(rt: HostRuntime) -> Result<(), Fail> {
    for (words, wanted) in SECOND {
        let holds = is_second(rt.alloc(), words, *wanted)?;
        assert_second(&rt, words, *wanted, holds);
    }
    Ok(())
}

fn assert_second(rt: &impl Abort, words: &[&str], wanted: Option<&[RowLabel]>, holds: bool) {
    assert!(rt; holds, "{:?}: {:?}", words, wanted);
}

/// Whether the prefix `A` is over one term.
fn is_over(alloc: Global, text: &str) -> Result<bool, Fail> {
    let answer = second(alloc, text, &["<while>", "<any>"], 1)?;
    match &answer {
        Err(Halt::OverTerms(prefix)) => Ok(are_labels(prefix.as_slice(), &[A])),
        _ => Ok(false),
    }
}

#[test]
fn stops_where_a_prefix_is_over(rt: HostRuntime) -> Result<(), Fail> {
    let text = "specification S [a] : noexit behaviour a; stop [] a; a; stop endspec";
    assert!(rt; is_over(rt.alloc(), text)?);
    Ok(())
}
