//! What a terminal is told of a refused word: which one it is, and what could be in its place.

use crate::hints::{AskedWords, WordCommand};
use crate::messages::write_letter;
use crate::name_hints::NameHint;
use lotos_outcome::{NumberText, Refusal};
use lotos_pattern::PatternFault;
use std::fmt;
use std::io::Write;

/// The most characters of a word that are shown.
const SHOWN: usize = 64;

/// How an often wanted question is written.
const LATER: &str = "lotosseq: an A and later a B is: A <while> <any> B";

/// Writes which word it is for which a command is refused, and what could be in its place, if the refusal is for a word.
/// `hint` is about the first name that is no gate.
pub(crate) fn explain_word<E: Write>(
    asked: AskedWords<'_>,
    refusal: &Refusal,
    hint: &Option<NameHint>,
    err: &mut E,
) {
    match refusal {
        Refusal::Pattern(fault) => explain_pattern_fault(asked, fault, err),
        Refusal::E41(number) => report_fault(asked, *number, err),
        Refusal::E45(number) => report_internal_step(asked, *number, err),
        Refusal::E49(number) => report_unknown_name(asked, *number, hint, err),
        _ => {}
    }
}

/// Writes which word it is for which words spell no pattern, and what could be in its place.
fn explain_pattern_fault<E: Write>(asked: AskedWords<'_>, fault: &PatternFault, err: &mut E) {
    match fault {
        PatternFault::E41(number) => {
            report_fault(asked, *number, err);
            let _ = writeln!(err, "{LATER}");
        }
        PatternFault::E42(number) | PatternFault::E48(number) | PatternFault::E50(number) => {
            report_operand(asked, *number, err);
        }
        PatternFault::E43(number) => {
            report_word(
                asked,
                *number,
                "comes after an end, which is the last element",
                err,
            );
        }
        PatternFault::E44(number) => {
            report_word(
                asked,
                *number,
                "is one element too many; after follows a sequence of any number of labels",
                err,
            );
        }
        PatternFault::E45(number) => report_internal_step(asked, *number, err),
        PatternFault::E51(number) => {
            report_word(
                asked,
                *number,
                "is answered by: lotosseq ever .. <FILE",
                err,
            );
        }
        PatternFault::E99(_) => {}
    }
}

/// Writes what there is to say about the word with this number, counted from 1, if there is such a word.
fn report_word<E: Write>(asked: AskedWords<'_>, number: usize, text: &str, err: &mut E) {
    if let Some(word) = asked.word(number) {
        let (number, word) = (NumberText(number), ShownWord(word));
        let _ = writeln!(err, "lotosseq: word {number}, {word}, {text}");
    }
}

fn report_internal_step<E: Write>(asked: AskedWords<'_>, number: usize, err: &mut E) {
    report_word(
        asked,
        number,
        "needs --strong, with which internal steps are observed as i",
        err,
    );
}

/// Writes why the word with this number is neither a label nor an element.
fn report_fault<E: Write>(asked: AskedWords<'_>, number: usize, err: &mut E) {
    if let Some(word) = asked.word(number) {
        let (number, shown) = (NumberText(number), ShownWord(word));
        let fault = WordFault {
            word,
            command: asked.command,
        };
        let _ = writeln!(err, "lotosseq: word {number}, {shown}, {fault}");
    }
}

/// Writes what may come after the word with this number, and why what comes after it may not.
fn report_operand<E: Write>(asked: AskedWords<'_>, number: usize, err: &mut E) {
    let Some(front) = asked.word(number) else {
        return;
    };
    let next = number.saturating_add(1);
    match asked.word(next) {
        None => {
            let _ = writeln!(
                err,
                "lotosseq: no word comes after word {}, {front}",
                NumberText(number)
            );
        }
        Some(word) if word.starts_with('<') => {
            report_word(asked, next, "is no set of labels", err);
        }
        Some(_) => report_fault(asked, next, err),
    }
    let _ = writeln!(err, "lotosseq: after {front} comes {}", operands_of(front));
}

/// What may come after a word that needs another one.
fn operands_of(front: &str) -> &'static str {
    if front.eq_ignore_ascii_case("<until>") {
        "A, A,B, <not> A,B or an end as <deadlock>; any one label is <any>, any number of them <while> <any>"
    } else if front.eq_ignore_ascii_case("<not>") {
        "A or A,B"
    } else {
        "A, A,B, <not> A,B or <any>"
    }
}

/// Writes which name of the word with this number is no gate.
fn report_unknown_name<E: Write>(
    asked: AskedWords<'_>,
    number: usize,
    hint: &Option<NameHint>,
    err: &mut E,
) {
    let Some(word) = asked.word(number) else {
        return;
    };
    let (number, shown) = (NumberText(number), ShownWord(word));
    let _ = match hint {
        Some(hint) if word.contains(',') => {
            let name = ShownWord(hint.name());
            writeln!(
                err,
                "lotosseq: word {number}, {shown}: {name} is no gate of the specification"
            )
        }
        _ => writeln!(err, "lotosseq: word {number} is {shown}"),
    };
}

/// Why a word of a command is neither a label nor an element, in words.
#[derive(Clone, Copy, Debug)]
struct WordFault<'a> {
    word: &'a str,
    command: WordCommand,
}

impl fmt::Display for WordFault<'_> {
    fn fmt<W: fmt::Write>(&self, f: &mut fmt::Formatter<W>) -> fmt::Result {
        if self.word.starts_with('<') {
            return f.write_str(self.command.elements());
        }
        let is_set = self.command.has_elements();
        if is_set && has_empty_name(self.word) {
            return f.write_str("has a comma without a name beside it; one label of several is A,B");
        }
        let Some(letter) = foreign_letter(self.word, is_set) else {
            return f.write_str("has a name that does not begin with a letter");
        };
        write!(f, "has `{}`, which no name has", ShownLetter(letter))?;
        if is_set {
            f.write_str("; one label of several is A,B")?;
        }
        Ok(())
    }
}

/// Whether a name between the commas of a word is empty.
fn has_empty_name(word: &str) -> bool {
    word.split(',').any(|name| name.is_empty())
}

/// The first character of a word that is in no name; nor between two of them, if the word may have several.
fn foreign_letter(word: &str, is_set: bool) -> Option<char> {
    for letter in word.chars() {
        let is_between = is_set && letter == ',';
        if !letter.is_ascii_alphanumeric() && letter != '_' && !is_between {
            return Some(letter);
        }
    }
    None
}

/// A word as it is shown: its first characters. A control character, which a terminal might obey, is `\x` and the digits
/// of its number, and a word without characters a pair of quotes.
#[derive(Clone, Copy, Debug)]
pub(crate) struct ShownWord<'a>(pub &'a str);

impl fmt::Display for ShownWord<'_> {
    fn fmt<W: fmt::Write>(&self, f: &mut fmt::Formatter<W>) -> fmt::Result {
        if self.0.is_empty() {
            return f.write_str("\"\"");
        }
        for (number, letter) in self.0.chars().enumerate() {
            if number == SHOWN {
                return f.write_str("..");
            }
            write!(f, "{}", ShownLetter(letter))?;
        }
        Ok(())
    }
}

/// A character of a word as it is shown.
#[derive(Clone, Copy, Debug)]
struct ShownLetter(char);

impl fmt::Display for ShownLetter {
    fn fmt<W: fmt::Write>(&self, f: &mut fmt::Formatter<W>) -> fmt::Result {
        if self.0 == '\n' {
            f.write_str("\\x0a")
        } else {
            write_letter(self.0, f)
        }
    }
}
