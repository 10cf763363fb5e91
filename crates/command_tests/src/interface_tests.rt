//! Which gates a question is about: `--hide` and `--only`.

use super::request_tests::{answer, wrong_text};
use lotos_command::{Interface, Request, request};
use std::alloc::{AllocError, Global};
use std::test::Fail;

/// What is tested, words, and the interface and the words of their question as `Debug` writes them.
type Row = (&'static str, &'static [&'static str], &'static str);

const GIVEN: &[Row] = &[
    (
        "a search without some gates",
        &["lotosseq", "search", "--length=3", "--hide", "B", "A"],
        "Hide(\"B\") [\"A\"]",
    ),
    (
        "a search of some gates",
        &["lotosseq", "search", "A", "--only=a,C", "--depth", "3"],
        "Only(\"a,C\") [\"A\"]",
    ),
    (
        "a match without some gates",
        &["lotosseq", "ever", "--hide=A,B", "C"],
        "Hide(\"A,B\") [\"C\"]",
    ),
    (
        "a match of some gates",
        &["lotosseq", "ever", "--only", "A,C", "A C"],
        "Only(\"A,C\") [\"A\", \"C\"]",
    ),
    (
        "what comes after a sequence, without some gates",
        &["lotosseq", "after", "REQ", "--hide", "RSP"],
        "Hide(\"RSP\") [\"REQ\"]",
    ),
    (
        "what comes after a sequence, of some gates",
        &["lotosseq", "after", "--only=req", "--strong", "REQ"],
        "Only(\"req\") [\"REQ\"]",
    ),
    (
        "a cover without some gates",
        &["lotosseq", "cover", "--hide=B", "--after", "A"],
        "Hide(\"B\") []",
    ),
    (
        "a cover of some gates",
        &["lotosseq", "cover", "--progress", "--only", "A,C"],
        "Only(\"A,C\") []",
    ),
    (
        "an automaton without some gates",
        &["lotosseq", "graph", "--hide=a,C", "--terms=3"],
        "Hide(\"a,C\") []",
    ),
    (
        "a suite of some gates",
        &["lotosseq", "suite", "--only=a", "--extra=1"],
        "Only(\"a\") []",
    ),
    (
        "a comparison of some gates",
        &["lotosseq", "compare", "--within", "--only", "A,c"],
        "Only(\"A,c\") []",
    ),
];

/// Names are not looked up, and a value may be any text.
const TEXTS: &[Row] = &[
    (
        "no name",
        &["lotosseq", "ever", "--only", "", "A"],
        "Only(\"\") [\"A\"]",
    ),
    (
        "no name after `=`",
        &["lotosseq", "cover", "--hide="],
        "Hide(\"\") []",
    ),
    (
        "a blank beside a comma",
        &["lotosseq", "after", "--hide", "A, B", "C"],
        "Hide(\"A, B\") [\"C\"]",
    ),
    (
        "what is no name, and an equals sign",
        &["lotosseq", "ever", "--hide=<any>,=,é"],
        "Hide(\"<any>,=,\u{e9}\") []",
    ),
    (
        "the name of a subcommand",
        &["lotosseq", "search", "--depth=1", "--only", "check", "A"],
        "Only(\"check\") [\"A\"]",
    ),
];

/// Words that look like options.
const NO_OPTIONS: &[Row] = &[
    (
        "an option as the value",
        &["lotosseq", "ever", "--hide=--strong", "A"],
        "Hide(\"--strong\") [\"A\"]",
    ),
    (
        "the other option as the value",
        &["lotosseq", "cover", "--only=--hide=A"],
        "Only(\"--hide=A\") []",
    ),
    (
        "the option after `--`",
        &["lotosseq", "ever", "--", "--only", "A"],
        "Whole [\"--only\", \"A\"]",
    ),
    (
        "the other option after `--`",
        &["lotosseq", "after", "--only=A", "--", "--hide=B"],
        "Only(\"A\") [\"--hide=B\"]",
    ),
    (
        "the option in a pair of quotes",
        &["lotosseq", "search", "--length=1", "A --hide B"],
        "Whole [\"A\", \"--hide\", \"B\"]",
    ),
];

fn shown(alloc: Global, interface: &Interface, words: &[String]) -> Result<String, AllocError> {
    format!(in alloc; "{interface:?} {words:?}")
}

/// The interface and the words of the question that these words ask as `Debug` writes them, or `no question`.
fn question(alloc: Global, words: &[&str]) -> Result<String, AllocError> {
    match request(alloc, words) {
        Ok(Request::Search(asked)) => shown(alloc, &asked.interface, &asked.words),
        Ok(Request::Ever(asked)) => shown(alloc, &asked.interface, &asked.words),
        Ok(Request::After(asked)) => shown(alloc, &asked.interface, &asked.words),
        Ok(Request::Cover(asked)) => shown(alloc, &asked.interface, &[]),
        Ok(Request::Graph(asked)) => shown(alloc, &asked.interface, &[]),
        Ok(Request::Suite(asked)) => shown(alloc, &asked.interface, &[]),
        Ok(Request::Compare(asked)) => shown(alloc, &asked.interface, &[]),
        _ => format!(in alloc; "no question"),
    }
}

#[test]
fn reads_interfaces(rt: HostRuntime) -> Result<(), Fail> {
    for (subject, words, expected) in GIVEN {
        let found = question(rt.alloc(), words)?;
        assert_eq!(rt; found.as_str(), *expected, "{}", subject);
    }
    Ok(())
}

#[test]
fn takes_any_text(rt: HostRuntime) -> Result<(), Fail> {
    for (subject, words, expected) in TEXTS {
        let found = question(rt.alloc(), words)?;
        assert_eq!(rt; found.as_str(), *expected, "{}", subject);
    }
    Ok(())
}

#[test]
fn distinguishes_options_from_words(rt: HostRuntime) -> Result<(), Fail> {
    for (subject, words, expected) in NO_OPTIONS {
        let found = question(rt.alloc(), words)?;
        assert_eq!(rt; found.as_str(), *expected, "{}", subject);
    }
    Ok(())
}

/// Words that fit no command.
const REFUSED: &[&[&str]] = &[
    &["lotosseq", "search", "--length=1", "--hide=A", "--hide=A"],
    &["lotosseq", "search", "--length=1", "--only=A", "--only=B"],
    &["lotosseq", "ever", "--hide", "A", "B", "--hide", "A"],
    &["lotosseq", "ever", "--only=A", "--only=A"],
    &["lotosseq", "after", "--hide=A", "--hide=B"],
    &["lotosseq", "after", "--only=A", "--only=A"],
    &["lotosseq", "cover", "--hide=A", "--hide=A"],
    &["lotosseq", "cover", "--only=A", "--only=B"],
    &["lotosseq", "ever", "--hide"],
    &["lotosseq", "cover", "--only"],
    &["lotosseq", "graph", "--hide=A", "--hide=B"],
    &["lotosseq", "suite", "--only=A", "--only=B"],
    &["lotosseq", "ever", "--hide", "--strong", "A"],
    &["lotosseq", "ever", "--only", "--", "A"],
    &["lotosseq", "check", "--hide=A"],
    &["lotosseq", "check", "--only=A"],
    &["lotosseq", "--hide=A", "cover"],
];

#[test]
fn refuses_options_twice_and_without_a_value(rt: HostRuntime) -> Result<(), Fail> {
    for words in REFUSED {
        let found = answer(rt.alloc(), words)?;
        assert_eq!(rt; found.as_str(), "wrong", "{:?}", words);
    }
    Ok(())
}

/// Words with both options, and the text of the fault, with the usage line of the subcommand.
const BOTH: &[(&[&str], &str)] = &[
    (
        &["lotosseq", "search", "--length=1", "--hide=A", "--only=B"],
        "error: the argument '--hide <GATES>' cannot be used with '--only <GATES>'

Usage: lotosseq search [OPTIONS] <--depth <N>|--length <N>> [WORD]...

For more information, try '--help'.
",
    ),
    (
        &["lotosseq", "ever", "--only", "B", "A", "--hide", "A"],
        "error: the argument '--hide <GATES>' cannot be used with '--only <GATES>'

Usage: lotosseq ever [OPTIONS] [WORD]...

For more information, try '--help'.
",
    ),
    (
        &["lotosseq", "after", "--hide=", "--only=A", "A"],
        "error: the argument '--hide <GATES>' cannot be used with '--only <GATES>'

Usage: lotosseq after [OPTIONS] [LABEL]...

For more information, try '--help'.
",
    ),
    (
        &["lotosseq", "graph", "--hide=A", "--only=A"],
        "error: the argument '--hide <GATES>' cannot be used with '--only <GATES>'

Usage: lotosseq graph [OPTIONS]

For more information, try '--help'.
",
    ),
    (
        &["lotosseq", "suite", "--hide=A", "--only=A"],
        "error: the argument '--hide <GATES>' cannot be used with '--only <GATES>'

Usage: lotosseq suite [OPTIONS]

For more information, try '--help'.
",
    ),
    (
        &["lotosseq", "cover", "--hide=A", "--only=A"],
        "error: the argument '--hide <GATES>' cannot be used with '--only <GATES>'

Usage: lotosseq cover [OPTIONS]

For more information, try '--help'.
",
    ),
    (
        &["lotosseq", "search", "--hide=A", "--only=A"],
        "error: the following required arguments were not provided:
  <--depth <N>|--length <N>>

Usage: lotosseq search [OPTIONS] <--depth <N>|--length <N>> [WORD]...

For more information, try '--help'.
",
    ),
];

#[test]
fn says_that_one_of_the_two_is_allowed(rt: HostRuntime) {
    for (words, expected) in BOTH {
        let text = wrong_text(rt.alloc(), words);
        assert_eq!(rt; text.as_str(), *expected);
    }
}
