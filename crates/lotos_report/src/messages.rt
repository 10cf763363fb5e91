//! Messages for standard error. They do not allocate, and write errors are ignored.

use lotos_outcome::{Ended, NumberText, Refusal, Stop};
use std::fmt;
use std::io::{ErrorKind, Write};

/// Where messages go: standard error, or another stream in its place.
#[derive(Drop)]
pub struct Messages<E> {
    pub stream: E,
    /// Whether the stream is a terminal. There a report of progress is one line, which is renewed.
    pub terminal: bool,
    /// Whether the specification is read from a terminal.
    pub keyboard: bool,
}

/// Says that the specification is read from the keyboard, if it is and the messages go to a terminal too.
pub fn report_keyboard<E: Write>(messages: &mut Messages<E>) {
    if messages.terminal && messages.keyboard {
        let _ = writeln!(
            messages.stream,
            "lotosseq: the specification is read from the keyboard; Ctrl-D at the beginning of a line ends it"
        );
    }
}

/// Reports why a command is refused.
pub fn report_refusal<E: Write>(err: &mut E, refusal: &Refusal) {
    let _ = writeln!(err, "lotosseq: {refusal}");
}

/// Reports how a command ended, if it was refused or stopped. What was found is not said.
pub fn report_end<F, P, E: Write>(err: &mut E, ended: &Ended<F, P>) {
    match ended {
        Ended::Done(_) => {}
        Ended::Refused(refusal) => report_refusal(err, refusal),
        Ended::Stopped { cause, .. } => report_failure(err, *cause),
    }
}

/// Why a listing stopped.
#[derive(Clone, Copy, Debug)]
pub struct ListingStop<'a> {
    pub cause: Stop,
    /// The text of the prefix that reaches too many terms, if that is the cause.
    pub prefix: &'a str,
    /// The number of terms, sets or lines that was exceeded, if that is the cause.
    pub bound: usize,
}

/// Reports after which sequence a listing stopped, if a line was written, and why.
pub fn report_stop<E: Write>(err: &mut E, last: &Option<String>, stop: ListingStop<'_>) {
    let _ = match last {
        Some(sequence) => writeln!(err, "lotosseq: stopped after {sequence}: {stop}"),
        None => writeln!(err, "lotosseq: stopped before the first line: {stop}"),
    };
}

/// Reports why a command stopped that writes all at once, and so wrote nothing.
pub fn report_stop_unwritten<E: Write>(err: &mut E, stop: ListingStop<'_>) {
    let _ = writeln!(err, "lotosseq: stopped: {stop}");
}

/// Reports why a run without a listing failed.
pub fn report_failure<E: Write>(err: &mut E, cause: Stop) {
    let stop = ListingStop {
        cause,
        prefix: "",
        bound: 0,
    };
    let _ = writeln!(err, "lotosseq: {stop}");
}

/// Reports why the arguments of the process could not be read.
pub fn report_unread_arguments<E: Write>(err: &mut E, cause: ErrorKind) {
    if cause == ErrorKind::InvalidData {
        let _ = writeln!(err, "lotosseq: an argument is not Unicode");
    } else {
        report_failure(err, Stop::Memory);
    }
}

/// Reports that a search for a match reached more product states than this bound.
pub fn report_too_many_states<E: Write>(err: &mut E, states: usize) {
    let _ = writeln!(
        err,
        "lotosseq: stopped: more than {} states; --states N allows more",
        NumberText(states)
    );
}

/// Reports that a comparison found no difference, and how many pairs of sets it looked at.
pub fn report_no_difference<E: Write>(err: &mut E, pairs: usize) {
    let plural = if pairs == 1 { "" } else { "s" };
    let _ = writeln!(
        err,
        "lotosseq: no difference; {} pair{plural} of sets",
        NumberText(pairs)
    );
}

/// Reports that a comparison reached more pairs of sets than this bound.
pub fn report_too_many_pairs<E: Write>(err: &mut E, pairs: usize) {
    let _ = writeln!(
        err,
        "lotosseq: stopped: more than {} pairs of sets; --states N allows more",
        NumberText(pairs)
    );
}

/// Reports that a comparison stopped at this sequence, which reaches more terms than this bound in one of the two
/// specifications, the `first` or the `second`.
pub fn report_terms_of<E: Write>(err: &mut E, terms: usize, sequence: &str, specification: &str) {
    let terms = NumberText(terms);
    let _ = writeln!(
        err,
        "lotosseq: stopped: more than {terms} terms at {sequence} in the {specification} specification"
    );
}

/// Reports that a label of a sequence cannot come, and what can come in its place. `number` is that of its word,
/// counted from 1.
pub fn report_label<E: Write>(
    err: &mut E,
    number: usize,
    words: &[String],
    instead: &Option<String>,
) {
    let Some(word) = words.get(number.saturating_sub(1)) else {
        return;
    };
    let number = NumberText(number);
    let _ = match instead {
        Some(labels) => writeln!(
            err,
            "lotosseq: label {number}, {word}, cannot come here; what can: {labels}"
        ),
        None => writeln!(
            err,
            "lotosseq: label {number}, {word}, cannot come here, and no other can"
        ),
    };
}

/// Reports that the first so many labels of a sequence reach more terms than this bound.
pub fn report_too_many_terms<E: Write>(err: &mut E, terms: usize, labels: usize) {
    let terms = NumberText(terms);
    let labels = NumberText(labels);
    let _ = writeln!(
        err,
        "lotosseq: stopped: more than {terms} terms after {labels} labels"
    );
}

/// Writes a text with its own line feeds. Every other control character, which a terminal might obey, is `\x` and the
/// digits of its number.
pub fn report_text<E: Write>(err: &mut E, text: &str) {
    let _ = write!(err, "{}", ShownText(text));
}

/// A text as it can be shown at a terminal.
#[derive(Clone, Copy, Debug)]
struct ShownText<'a>(&'a str);

impl fmt::Display for ShownText<'_> {
    fn fmt<W: fmt::Write>(&self, f: &mut fmt::Formatter<W>) -> fmt::Result {
        for letter in self.0.chars() {
            write_letter(letter, f)?;
        }
        Ok(())
    }
}

/// Writes a letter of a text.
pub(crate) fn write_letter<W: fmt::Write>(letter: char, f: &mut fmt::Formatter<W>) -> fmt::Result {
    if letter.is_control() && letter != '\n' {
        write!(f, "\\x{:02x}", u32::from(letter))
    } else {
        f.write_char(letter)
    }
}

impl fmt::Display for ListingStop<'_> {
    fn fmt<W: fmt::Write>(&self, f: &mut fmt::Formatter<W>) -> fmt::Result {
        let bound = NumberText(self.bound);
        match self.cause {
            Stop::Limit => f.write_str("limit reached"),
            Stop::Terms => write!(f, "more than {bound} terms at {}", self.prefix),
            Stop::States => write!(f, "more than {bound} sets; --states N allows more"),
            Stop::Lines => write!(
                f,
                "more than {bound} lines; a smaller --extra or fewer gates give fewer"
            ),
            Stop::Memory => f.write_str("E99 out of memory"),
            Stop::Write => f.write_str("output cannot be written"),
        }
    }
}
