//! Which numbers `--limit`, `--terms`, `--states` and `--extra` take, and what is said of others.

use super::request_tests::{answer, wrong_text};
use std::test::Fail;

/// How the numbers are written, words, and their request as `Debug` writes it.
const TAKEN: &[(&str, &[&str], &str)] = &[
    (
        "zeros before the digits",
        &[
            "lotosseq",
            "cover",
            "--limit=007",
            "--terms=008",
            "--states=009",
        ],
        "Cover(CoverRequest { limit: Some(7), after: None, terms: 8, states: 9, interface: Whole, strong: false, progress: false, brief: false })",
    ),
    (
        "a plus sign",
        &[
            "lotosseq",
            "cover",
            "--limit=+1",
            "--terms=+2",
            "--states=+3",
        ],
        "Cover(CoverRequest { limit: Some(1), after: None, terms: 2, states: 3, interface: Whole, strong: false, progress: false, brief: false })",
    ),
    (
        "a plus sign and zeros, more digits than the greatest number has",
        &[
            "lotosseq",
            "cover",
            "--limit=+0000000000000000000000000004",
            "--terms=+0000000000000000000000000005",
            "--states=+0000000000000000000000000006",
        ],
        "Cover(CoverRequest { limit: Some(4), after: None, terms: 5, states: 6, interface: Whole, strong: false, progress: false, brief: false })",
    ),
    (
        "no extra states, written with a sign",
        &["lotosseq", "suite", "--extra=+00"],
        "Suite(SuiteRequest { extra: 0, limit: None, after: None, terms: 100000, states: 1000000, interface: Whole, strong: false, progress: false, brief: false })",
    ),
    (
        "the greatest numbers",
        &[
            "lotosseq",
            "cover",
            "--limit=1000000000",
            "--terms=1000000",
            "--states=100000000",
        ],
        "Cover(CoverRequest { limit: Some(1000000000), after: None, terms: 1000000, states: 100000000, interface: Whole, strong: false, progress: false, brief: false })",
    ),
];

#[test]
fn takes_numerals(rt: HostRuntime) -> Result<(), Fail> {
    for (subject, words, expected) in TAKEN {
        let found = answer(rt.alloc(), words)?;
        assert_eq!(rt; found.as_str(), *expected, "{}", subject);
    }
    Ok(())
}

/// Words with a numeral out of range, and the text of the fault.
const OUT_OF_RANGE: &[(&[&str], &str)] = &[
    (
        &["lotosseq", "cover", "--limit=-1"],
        "error: invalid value '-1' for '--limit <N>': -1 is not in 1..=1000000000\n\nFor more information, try '--help'.\n",
    ),
    (
        &["lotosseq", "cover", "--terms=-1"],
        "error: invalid value '-1' for '--terms <N>': -1 is not in 1..=1000000\n\nFor more information, try '--help'.\n",
    ),
    (
        &["lotosseq", "cover", "--states=-1"],
        "error: invalid value '-1' for '--states <N>': -1 is not in 1..=100000000\n\nFor more information, try '--help'.\n",
    ),
    (
        &["lotosseq", "search", "--length=1", "--terms=-0"],
        "error: invalid value '-0' for '--terms <N>': 0 is not in 1..=1000000\n\nFor more information, try '--help'.\n",
    ),
    (
        &["lotosseq", "ever", "--states=-0"],
        "error: invalid value '-0' for '--states <N>': 0 is not in 1..=100000000\n\nFor more information, try '--help'.\n",
    ),
    (
        &["lotosseq", "after", "--terms=+1000001"],
        "error: invalid value '+1000001' for '--terms <N>': 1000001 is not in 1..=1000000\n\nFor more information, try '--help'.\n",
    ),
    (
        &["lotosseq", "ever", "--states=4294967296"],
        "error: invalid value '4294967296' for '--states <N>': 4294967296 is not in 1..=100000000\n\nFor more information, try '--help'.\n",
    ),
    (
        &["lotosseq", "suite", "--extra=4"],
        "error: invalid value '4' for '--extra <K>': 4 is not in 0..=3\n\nFor more information, try '--help'.\n",
    ),
    (
        &["lotosseq", "suite", "--extra=-1"],
        "error: invalid value '-1' for '--extra <K>': -1 is not in 0..=3\n\nFor more information, try '--help'.\n",
    ),
];

#[test]
fn says_which_numbers_are_taken(rt: HostRuntime) {
    for (words, expected) in OUT_OF_RANGE {
        let text = wrong_text(rt.alloc(), words);
        assert_eq!(rt; text.as_str(), *expected);
    }
}

/// Words with a text that is no numeral, or one of a number of more than 64 bits.
const NO_NUMERALS: &[&[&str]] = &[
    &["lotosseq", "cover", "--limit="],
    &["lotosseq", "cover", "--terms="],
    &["lotosseq", "cover", "--states="],
    &["lotosseq", "after", "--terms=+"],
    &["lotosseq", "after", "--terms=-"],
    &["lotosseq", "after", "--terms=++1"],
    &["lotosseq", "after", "--terms=+-1"],
    &["lotosseq", "after", "--terms=-+1"],
    &["lotosseq", "after", "--terms=--1"],
    &["lotosseq", "after", "--terms= 1"],
    &["lotosseq", "ever", "--states=1 "],
    &["lotosseq", "ever", "--states=1_000"],
    &["lotosseq", "ever", "--states=1000.0"],
    &["lotosseq", "ever", "--states=1e3"],
    &["lotosseq", "ever", "--states=0x10"],
    &["lotosseq", "ever", "--states=99999999999999999999"],
    &["lotosseq", "ever", "--states=-99999999999999999999"],
    &["lotosseq", "suite", "--extra="],
    &["lotosseq", "suite", "--extra=one"],
];

#[test]
fn refuses_other_texts(rt: HostRuntime) -> Result<(), Fail> {
    for words in NO_NUMERALS {
        let found = answer(rt.alloc(), words)?;
        assert_eq!(rt; found.as_str(), "wrong", "{:?}", words);
    }
    Ok(())
}
