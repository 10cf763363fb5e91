//! What a terminal is told of an answer: what the words of the question mean, where they are often taken otherwise. Errors
//! of the error stream are ignored.

use crate::no_match::{END_WORDS, is_among};
use crate::word_explanations::ShownWord;
use lotos_outcome::NumberText;
use std::fmt;
use std::io::Write;

/// Says what a pattern without words matches, if it has none.
pub fn note_empty_pattern<E: Write>(words: &[String], err: &mut E) {
    if words.is_empty() {
        let _ = writeln!(
            err,
            "lotosseq: a pattern without words matches the empty sequence alone, which can always happen"
        );
    }
}

/// Says of a pattern without a match that an `<until>` of it goes to the first label of its set alone, if what comes after
/// it could match after a later one.
pub fn note_first_labels<E: Write>(words: &[String], err: &mut E) {
    if let Some(first) = first_alone(words) {
        let (number, set) = (NumberText(first.number), SetText(first.set));
        let _ = writeln!(
            err,
            "lotosseq: word {number}, <until>, goes to the first {set} alone; for any {set} write: <while> <any> {set}"
        );
    }
}

/// A word `<until>` and the words of its set.
#[derive(Clone, Copy, Drop)]
struct FirstAlone<'a> {
    /// The number of the word, counted from 1.
    number: usize,
    set: &'a [String],
}

/// The first `<until>` whose set is followed by an element before which no other labels may be.
fn first_alone(words: &[String]) -> Option<FirstAlone<'_>> {
    for (number, word) in words.iter().enumerate() {
        if word.as_str().eq_ignore_ascii_case("<until>") {
            let next = number.saturating_add(1);
            if let Some(set) = set_alone(words.get(next..)?) {
                return Some(FirstAlone { number: next, set });
            }
        }
    }
    None
}

/// The words of the set with which these words begin, if they are followed by an element before which no other labels may
/// be.
fn set_alone(words: &[String]) -> Option<&[String]> {
    let first = words.first()?;
    if is_among(first.as_str(), &END_WORDS) {
        return None;
    }
    let count = if first.as_str().eq_ignore_ascii_case("<not>") {
        2
    } else {
        1
    };
    let others = words.get(count..)?;
    if others.is_empty() || begins_with_any_labels(others) {
        return None;
    }
    words.get(..count)
}

/// Whether the words begin with an element that is matched by any number of labels before others.
fn begins_with_any_labels(words: &[String]) -> bool {
    match words {
        [first, ..] if first.as_str().eq_ignore_ascii_case("<until>") => true,
        [first, second, ..] => {
            first.as_str().eq_ignore_ascii_case("<while>")
                && second.as_str().eq_ignore_ascii_case("<any>")
        }
        _ => false,
    }
}

/// The words of a set as they are shown.
#[derive(Clone, Copy, Drop)]
struct SetText<'a>(&'a [String]);

impl fmt::Display for SetText<'_> {
    fn fmt<W: fmt::Write>(&self, f: &mut fmt::Formatter<W>) -> fmt::Result {
        for (number, word) in self.0.iter().enumerate() {
            if number > 0 {
                f.write_char(' ')?;
            }
            write!(f, "{}", ShownWord(word.as_str()))?;
        }
        Ok(())
    }
}
