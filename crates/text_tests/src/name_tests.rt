//! Names, each parsed as that of a specification.
use super::table_texts::{accepted, joined};
use lotos_text::{Name, TextFault};
use std::alloc::Global;
use std::cmp::Ordering;
use std::process::Abort;
use std::test::Fail;

/// The name that a word spells.
fn name_of(alloc: Global, word: &str) -> Result<Name, TextFault> {
    let text = joined(
        alloc,
        &["specification ", word, " : noexit behaviour stop endspec"],
    )?;
    let tree = accepted(alloc, text.as_bytes())?;
    Ok(tree.whole.name.name.copy(alloc)?)
}

/// Two names, and how the first compares with the second.
const PAIRS: &[(&str, &str, Ordering)] = &[
    ("a", "a", Ordering::Equal),
    ("Gate_1", "gATE_1", Ordering::Equal),
    ("a", "a1", Ordering::Less),
    ("a1", "a", Ordering::Greater),
    ("ab", "b", Ordering::Less),
    ("b", "ab", Ordering::Greater),
    ("a1", "az", Ordering::Less),
    ("az", "a_", Ordering::Less),
];

/// How the names of two words compare, and whether they are equal.
fn compared(alloc: Global, left: &str, right: &str) -> Result<(Ordering, bool), TextFault> {
    let left = name_of(alloc, left)?;
    let right = name_of(alloc, right)?;
    Ok((left.cmp(&right), left == right))
}

fn assert_compared(
    rt: &impl Abort,
    alloc: Global,
    left: &str,
    right: &str,
    expected: Ordering,
) -> Result<(), TextFault> {
    let found = compared(alloc, left, right)?;
    assert_eq!(rt;
        found,
        (expected, expected == Ordering::Equal),
        "{} and {}",
        left,
        right
    );
    Ok(())
}

#[test]
fn orders_names_as_their_texts(rt: HostRuntime) -> Result<(), Fail> {
    for (left, right, expected) in PAIRS {
        assert_compared(&rt, rt.alloc(), left, right, *expected)?;
    }
    Ok(())
}

/// Whether a copy of the name of a word has this text and is equal to it.
fn is_copied(alloc: Global, word: &str, text: &str) -> Result<bool, TextFault> {
    let name = name_of(alloc, word)?;
    let copy = name.copy(alloc)?;
    Ok(copy.text() == text && copy == name)
}

#[test]
fn copies_a_name(rt: HostRuntime) -> Result<(), Fail> {
    assert!(rt; is_copied(rt.alloc(), "Gate_1", "GATE_1")?);
    Ok(())
}
