//! Which labels follow a sequence, and where it can end in a deadlock.
use super::set_texts::{HIDDEN_LOOP, HIDDEN_STOP, MEETING, SAME_PREFIX, SERVER, describe};
use super::set_walk::SetWalk;
use std::alloc::Global;
use std::test::Fail;

/// What is tested, a specification, whether internal steps are observed, a sequence, and what follows it.
type Row = (
    &'static str,
    &'static str,
    bool,
    &'static [&'static str],
    &'static str,
);

/// By the inference rules, by hand.
const ROWS: &[Row] = &[
    ("a hidden loop at first", HIDDEN_LOOP, false, &[], "A "),
    (
        "a hidden loop after one step",
        HIDDEN_LOOP,
        false,
        &["A"],
        "A B ",
    ),
    (
        "a hidden loop after the hidden step",
        HIDDEN_LOOP,
        false,
        &["A", "A"],
        "A B ",
    ),
    ("internal steps alone", HIDDEN_LOOP, false, &["A", "B"], ""),
    (
        "nothing after internal steps alone",
        HIDDEN_LOOP,
        false,
        &["A", "B", "A"],
        "<none>",
    ),
    (
        "no label that does not come",
        HIDDEN_LOOP,
        false,
        &["B"],
        "<none>",
    ),
    (
        "no internal step if none is observed",
        HIDDEN_LOOP,
        false,
        &["A", "i"],
        "<none>",
    ),
    ("a hidden loop, observed", HIDDEN_LOOP, true, &["A"], "B i "),
    (
        "the hidden step, observed",
        HIDDEN_LOOP,
        true,
        &["A", "i"],
        "A ",
    ),
    (
        "internal steps alone, observed",
        HIDDEN_LOOP,
        true,
        &["A", "B", "i", "i"],
        "i ",
    ),
    ("a server at first", SERVER, false, &[], "REQ "),
    (
        "a server that may have decided",
        SERVER,
        false,
        &["REQ"],
        "NAK RSP ",
    ),
    (
        "a server that has refused",
        SERVER,
        false,
        &["REQ", "NAK"],
        "REQ ",
    ),
    (
        "a server after two requests",
        SERVER,
        false,
        &["REQ", "RSP", "REQ"],
        "NAK RSP ",
    ),
    (
        "a server whose decision is observed",
        SERVER,
        true,
        &["REQ"],
        "RSP i ",
    ),
    (
        "a server that has decided",
        SERVER,
        true,
        &["REQ", "i"],
        "NAK ",
    ),
    ("a meeting at first", MEETING, false, &[], "A "),
    ("a meeting that may have been", MEETING, false, &["A"], "B "),
    (
        "termination of both sides",
        MEETING,
        false,
        &["A", "B"],
        "C ",
    ),
    ("termination", MEETING, false, &["A", "B", "C"], "exit "),
    (
        "a deadlock after termination",
        MEETING,
        false,
        &["A", "B", "C", "exit"],
        "<deadlock>",
    ),
    ("a meeting, observed", MEETING, true, &["A"], "i "),
    ("a meeting that has been", MEETING, true, &["A", "i"], "B "),
    (
        "termination of both sides, observed",
        MEETING,
        true,
        &["A", "i", "B"],
        "i ",
    ),
    (
        "what is enabled",
        MEETING,
        true,
        &["A", "i", "B", "i"],
        "C ",
    ),
    ("two prefixes of a gate", SAME_PREFIX, false, &["A"], "B C "),
    (
        "the first of two prefixes",
        SAME_PREFIX,
        false,
        &["A", "B"],
        "<deadlock>",
    ),
    (
        "the second of two prefixes",
        SAME_PREFIX,
        true,
        &["A", "C"],
        "<deadlock>",
    ),
    (
        "a deadlock beside a label",
        HIDDEN_STOP,
        false,
        &["A"],
        "B <deadlock>",
    ),
    (
        "no deadlock before the internal step",
        HIDDEN_STOP,
        true,
        &["A"],
        "B i ",
    ),
    (
        "a deadlock after the internal step",
        HIDDEN_STOP,
        true,
        &["A", "i"],
        "<deadlock>",
    ),
];

fn answer(alloc: Global, text: &str, strong: bool, sequence: &[&str]) -> Result<String, Fail> {
    let mut walk = SetWalk::new(alloc, text, strong, 9)?;
    Ok(describe(alloc, &mut walk, sequence)?)
}

#[test]
fn labels_and_deadlocks_follow_sequences(rt: HostRuntime) -> Result<(), Fail> {
    for (subject, text, strong, sequence, expected) in ROWS {
        let found = answer(rt.alloc(), text, *strong, sequence)?;
        assert_eq!(rt; found.as_str(), *expected, "{}", subject);
    }
    Ok(())
}
