//! The bound on the terms of a set.
use super::set_texts::{HIDDEN_LOOP, MEETING, SAME_PREFIX, SERVER, describe};
use super::set_walk::SetWalk;
use std::alloc::Global;
use std::test::Fail;

/// What is tested, a specification, whether internal steps are observed, the bound, a sequence, and what follows it.
type Row = (
    &'static str,
    &'static str,
    bool,
    usize,
    &'static [&'static str],
    &'static str,
);

/// The terms of each set are counted by hand.
const ROWS: &[Row] = &[
    (
        "no term within the bound",
        SERVER,
        false,
        0,
        &[],
        "<too many>",
    ),
    ("one term within the bound", SERVER, false, 1, &[], "REQ "),
    (
        "two terms and a bound of one",
        SERVER,
        false,
        1,
        &["REQ"],
        "<too many>",
    ),
    (
        "two terms and a bound of two",
        SERVER,
        false,
        2,
        &["REQ"],
        "NAK RSP ",
    ),
    (
        "one term, for the internal step is observed",
        SERVER,
        true,
        1,
        &["REQ"],
        "RSP i ",
    ),
    (
        "a loop of two terms and a bound of two",
        HIDDEN_LOOP,
        false,
        2,
        &["A", "A"],
        "A B ",
    ),
    (
        "a loop of two terms and a bound of one",
        HIDDEN_LOOP,
        false,
        1,
        &["A"],
        "<too many>",
    ),
    (
        "two terms by one label and a bound of one",
        SAME_PREFIX,
        true,
        1,
        &["A"],
        "<too many>",
    ),
    (
        "two terms by one label and a bound of two",
        SAME_PREFIX,
        true,
        2,
        &["A"],
        "B C ",
    ),
    (
        "two terms after a meeting",
        MEETING,
        false,
        2,
        &["A", "B"],
        "C ",
    ),
    (
        "two terms after a meeting and a bound of one",
        MEETING,
        false,
        1,
        &["A"],
        "<too many>",
    ),
];

fn answer(
    alloc: Global,
    text: &str,
    strong: bool,
    bound: usize,
    sequence: &[&str],
) -> Result<String, Fail> {
    let mut walk = SetWalk::new(alloc, text, strong, bound)?;
    Ok(describe(alloc, &mut walk, sequence)?)
}

#[test]
fn sets_have_at_most_as_many_terms_as_the_bound(rt: HostRuntime) -> Result<(), Fail> {
    for (subject, text, strong, bound, sequence, expected) in ROWS {
        let found = answer(rt.alloc(), text, *strong, *bound, sequence)?;
        assert_eq!(rt; found.as_str(), *expected, "{}", subject);
    }
    Ok(())
}
