//! Hints for standard error, after a refusal: a word names a file, though a specification is read from standard input,
//! a word is almost an element, a name is no gate, or a command has no such option. A terminal is told more: which word
//! it is, and what explains a fault of the text. A hint for which there is no memory is left out.

use crate::element_hints::write_element_hint;
use crate::fault_explanations::explain_fault;
use crate::name_hints::{NameHint, hint_in_text, write_name_hint};
use crate::option_hints::{hint_at_option, hint_at_sign};
use crate::word_explanations::explain_word;
use lotos_command::CommandFault;
use lotos_outcome::Refusal;
use lotos_pattern::PatternFault;
use std::alloc::Global;
use std::io::Write;

/// The command that reads two specifications.
const COMPARE: &str = "compare";

/// What the name of a file with a specification may end in.
const EXTENSIONS: [&str; 3] = [".lotos", ".lot", ".lts"];

/// A command that has words.
#[derive(Clone, Copy, Debug)]
pub enum WordCommand {
    /// `search`, whose words are those of a pattern.
    Search,
    /// `ever`, whose words are those of a pattern.
    Ever,
    /// `after`, whose words are labels.
    After,
}

/// The words of a command that may be meant otherwise.
#[derive(Clone, Copy, Debug)]
pub struct AskedWords<'a> {
    pub command: WordCommand,
    pub words: &'a [String],
    /// Whether a word that names no gate of the specification is refused.
    pub refuses_unknown: bool,
}

/// What is known of a command that is refused.
#[derive(Clone, Copy, Debug)]
pub struct RefusedCommand<'a> {
    /// Its words, if it has any.
    pub asked: Option<AskedWords<'a>>,
    /// What could be meant by the first name in its words that is no gate.
    pub hint: &'a Option<NameHint>,
    /// The text that is refused, or whose gates are not those of the interface.
    pub text: &'a [u8],
    /// Whether more is said than a hint: at a terminal.
    pub explains: bool,
}

impl<'a> AskedWords<'a> {
    /// The word with this number, counted from 1.
    pub(crate) fn word(self, number: usize) -> Option<&'a str> {
        match self.words.get(number.saturating_sub(1)) {
            Some(word) => Some(word.as_str()),
            None => None,
        }
    }
}

impl WordCommand {
    /// The words with which the command begins.
    fn text(self) -> &'static str {
        match self {
            WordCommand::Search => "search ..",
            WordCommand::Ever => "ever ..",
            WordCommand::After => "after ..",
        }
    }

    /// Whether its words may be elements of a pattern.
    pub(crate) fn has_elements(self) -> bool {
        !matches!(self, WordCommand::After)
    }

    /// What is said of a word that is meant as an element and is none: which words are elements here.
    pub(crate) fn elements(self) -> &'static str {
        match self {
            WordCommand::Search => {
                "is no element; elements are <any>, <not> A, <until> SET, <while> SET, <deadlock> and <refuses> SET"
            }
            WordCommand::Ever => {
                "is no element; elements are <any>, <not> A, <until> SET, <while> SET, <deadlock>, <refuses> SET, <livelock>, <forever> SET and <never> SET"
            }
            WordCommand::After => {
                "is no label; a sequence has labels alone, and the words of ever and search may be elements"
            }
        }
    }
}

/// Gives a hint if a command is refused for one of its words that names a file, that is almost an element, or that names
/// no gate, or for a name of its interface. If more is to be said, that is which word it is, and what explains a fault of
/// the text.
pub fn hint_after_refusal<E: Write>(
    alloc: Global,
    command: &RefusedCommand<'_>,
    refusal: &Refusal,
    err: &mut E,
) {
    if let Some(asked) = command.asked {
        let is_hinted = hint_at_word(alloc, asked, refusal, err);
        if command.explains && !is_hinted {
            explain_word(asked, refusal, command.hint, err);
        }
        if let (Refusal::E49(_), Some(hint)) = (refusal, command.hint) {
            write_name_hint(hint, err);
        }
    }
    if let Refusal::E52(name) = refusal {
        hint_at_list(name.as_str(), err);
    }
    if command.explains {
        explain_text(alloc, command.text, refusal, err);
    }
}

/// Explains a refusal for a text, or for a name of an interface that is no gate of its specification.
fn explain_text<E: Write>(alloc: Global, text: &[u8], refusal: &Refusal, err: &mut E) {
    match refusal {
        Refusal::E52(name) => {
            if let Some(hint) = hint_in_text(alloc, text, name.as_str()) {
                write_name_hint(&hint, err);
            }
        }
        _ => explain_fault(alloc, text, None, Some(refusal), err),
    }
}

/// Gives a hint if the words fit no command: if the command does not have an option that another one has, if a line of a
/// suite is taken for an option, or else if one of them names a file. The first of the words is the program's own name.
pub fn hint_after_fault<E: Write>(fault: &CommandFault, words: &[&str], err: &mut E) {
    let CommandFault::Wrong(text) = fault else {
        return;
    };
    if hint_at_option(text.as_str(), words, err) || hint_at_sign(text.as_str(), err) {
        return;
    }
    if let Some(command) = command_of_file(words) {
        write_hint(command, err);
    }
}

/// Gives a hint if the word that is refused names a file or is almost an element. Returns whether there was one.
fn hint_at_word<E: Write>(
    alloc: Global,
    asked: AskedWords<'_>,
    refusal: &Refusal,
    err: &mut E,
) -> bool {
    let Some(number) = doubtful_word(refusal) else {
        return false;
    };
    let Some(word) = asked.word(number) else {
        return false;
    };
    if is_file_name(word) {
        write_hint(asked.command.text(), err);
        return true;
    }
    asked.command.has_elements() && write_element_hint(alloc, number, word, err)
}

/// Says how the names of `--hide` and `--only` are joined, if this one is empty or has a blank.
fn hint_at_list<E: Write>(name: &str, err: &mut E) {
    if name.is_empty() || name.contains(' ') {
        let _ = writeln!(
            err,
            "lotosseq: the names of --hide and --only are joined by commas, one between two names and no blanks"
        );
    }
}

/// The number, counted from 1, of the word that may be meant otherwise, if the refusal is for one: the word itself, or
/// the one after a word that needs another.
fn doubtful_word(refusal: &Refusal) -> Option<usize> {
    match refusal {
        Refusal::Pattern(PatternFault::E41(number)) | Refusal::E41(number) | Refusal::E49(number) =>
            Some(*number),
        Refusal::Pattern(
            PatternFault::E42(number) | PatternFault::E48(number) | PatternFault::E50(number),
        ) => number.checked_add(1),
        _ => None,
    }
}

/// Whether the word, which is no label, may be the name of a file: it has a slash or ends as such a name.
fn is_file_name(word: &str) -> bool {
    word.contains('/') || EXTENSIONS.iter().any(|end| word.ends_with(*end))
}

/// The command that these words name, if one of the others is that of a file: one that is no option of `check`, or that
/// may be the name of a file.
fn command_of_file(words: &[&str]) -> Option<&'static str> {
    let [_program, command, others @ ..] = words else {
        return None;
    };
    if *command == "check" && others.iter().any(|word| !word.starts_with("-")) {
        return Some("check");
    }
    if !others.iter().any(|word| is_file_name(word)) {
        return None;
    }
    match *command {
        "search" => Some(WordCommand::Search.text()),
        "ever" => Some(WordCommand::Ever.text()),
        "after" => Some(WordCommand::After.text()),
        "cover" => Some("cover"),
        "graph" => Some("graph"),
        "suite" => Some("suite"),
        "compare" => Some(COMPARE),
        _ => None,
    }
}

fn write_hint<E: Write>(command: &str, err: &mut E) {
    let _ = if command == COMPARE {
        writeln!(
            err,
            "lotosseq: two specifications are read from standard input: cat FIRST SECOND | lotosseq {command}"
        )
    } else {
        writeln!(
            err,
            "lotosseq: a specification is read from standard input: lotosseq {command} <FILE"
        )
    };
}
