//! Hints for an option that a command does not have, though another command has it: why it needs none; and for a line that
//! is taken for an option.

use std::io::Write;

/// How clap's text about an option that a command does not have begins.
const UNEXPECTED: &str = "error: unexpected argument '--";

/// How clap's text about a word begins that has the sign `-` and a blank first.
const SIGNED: &str = "error: unexpected argument '- '";

/// A command, options that it does not have, and why it needs none of them.
type Reason = (&'static str, &'static [&'static str], &'static str);

const REASONS: [Reason; 33] = [
    (
        "search",
        &["states"],
        "--terms bounds the states that a prefix may lead to",
    ),
    ("search", &["warn"], WARN),
    (
        "check",
        &[
            "depth", "length", "limit", "terms", "states", "after", "hide", "only", "strong",
            "known", "progress", "hidden",
        ],
        "it looks at the text alone, and at no sequences",
    ),
    (
        "ever",
        &["depth", "length"],
        "it looks for a match of any length",
    ),
    ("ever", &["limit", "after"], "it writes one line at most"),
    (
        "ever",
        &["terms"],
        "--states bounds the states that it looks at",
    ),
    ("ever", &["known"], KNOWN),
    ("ever", &["warn"], WARN),
    (
        "after",
        &["depth", "length", "after"],
        "its words are the whole sequence",
    ),
    (
        "after",
        &["limit"],
        "it writes each label that can come next, once",
    ),
    (
        "after",
        &["states"],
        "--terms bounds the states that a beginning of the sequence may lead to",
    ),
    (
        "after",
        &["explain", "hidden"],
        "it writes labels, and no sequences that have runs",
    ),
    ("after", &["known"], KNOWN),
    ("after", &["warn"], WARN),
    (
        "cover",
        &["depth", "length"],
        "it ends when all that can be observed is shown",
    ),
    (
        "cover",
        &["explain"],
        "ever --explain with the words of a line shows its run",
    ),
    (
        "cover",
        &["hidden"],
        "ever --hidden with the words of a line shows its run",
    ),
    ("cover", &["known"], "it has no words"),
    ("cover", &["warn"], WARN),
    (
        "graph",
        &["depth", "length"],
        "it has all that can be observed, of any length",
    ),
    ("graph", &["limit", "after"], "it is written as a whole"),
    (
        "graph",
        &["explain", "hidden"],
        "it has labels, and no sequences that have runs",
    ),
    ("graph", &["known"], "it has no words"),
    ("graph", &["warn"], WARN),
    (
        "suite",
        &["depth", "length"],
        "it ends when nothing is missed",
    ),
    (
        "suite",
        &["explain", "hidden"],
        "ever --explain or ever --hidden with the labels of a line shows their run",
    ),
    ("suite", &["known"], "it has no words"),
    ("suite", &["warn"], WARN),
    (
        "compare",
        &["depth", "length"],
        "it compares sequences of any length",
    ),
    ("compare", &["limit", "after"], "it writes one line at most"),
    (
        "compare",
        &["explain", "hidden"],
        "ever --explain or ever --hidden with the words of the line shows its run",
    ),
    ("compare", &["known"], "it has no words"),
    ("compare", &["warn"], WARN),
];

const KNOWN: &str = "it always refuses a word that names no gate";

const WARN: &str = "check --warn warns";

/// Says why a command needs no such option, if the text is clap's about an option that the command does not have and
/// another one has. The first of the words is the program's own name, and the next one the command. Returns whether it
/// was said.
pub(crate) fn hint_at_option<E: Write>(text: &str, words: &[&str], err: &mut E) -> bool {
    let (Some(command), Some(option)) = (words.get(1), refused_option(text)) else {
        return false;
    };
    let Some(reason) = reason_for(command, option) else {
        return false;
    };
    let _ = writeln!(err, "lotosseq: {command} has no --{option}: {reason}");
    true
}

/// Says how a line with the sign `-` is given, if clap's text is about a word that begins as one. Returns whether it was
/// said.
pub(crate) fn hint_at_sign<E: Write>(text: &str, err: &mut E) -> bool {
    if !text.starts_with(SIGNED) {
        return false;
    }
    let _ = writeln!(
        err,
        "lotosseq: a line that begins with - goes after an equals sign, as in --after=\"- A\""
    );
    true
}

/// The option that clap's text is about, without its hyphens and a value, if the text is that of an unexpected option.
fn refused_option(text: &str) -> Option<&str> {
    let (argument, _) = text.strip_prefix(UNEXPECTED)?.split_once('\'')?;
    match argument.split_once('=') {
        Some((option, _)) => Some(option),
        None => Some(argument),
    }
}

/// Why the command needs no such option.
fn reason_for(command: &str, option: &str) -> Option<&'static str> {
    for (name, options, reason) in REASONS {
        if name == command && options.iter().any(|other| *other == option) {
            return Some(reason);
        }
    }
    None
}
