//! What is said where a search for a match has found none. Write errors are ignored.

use lotos_listing::Searched;
use lotos_outcome::NumberText;
use std::fmt;
use std::io::Write;

/// The words that are no element by themselves: each belongs to the word after it.
const FRONT_WORDS: [&str; 6] = [
    "<not>",
    "<until>",
    "<while>",
    "<refuses>",
    "<forever>",
    "<never>",
];

/// The words with which an end begins.
pub(crate) const END_WORDS: [&str; 5] = [
    "<deadlock>",
    "<refuses>",
    "<livelock>",
    "<forever>",
    "<never>",
];

/// Reports that there is no match of any length. If it is known how much was looked at, that is said too: how many
/// states there are, and how far the pattern can be matched, whose words these are.
pub fn report_no_match<E: Write>(err: &mut E, searched: &Option<Searched>, words: &[String]) {
    let _ = match searched {
        None => writeln!(err, "lotosseq: it happens at no depth"),
        Some(searched) => {
            let searched = *searched;
            writeln!(
                err,
                "lotosseq: it happens at no depth; {}",
                SearchedText { searched, words }
            )
        }
    };
}

/// How much was looked at, in words.
#[derive(Drop)]
struct SearchedText<'a> {
    searched: Searched,
    words: &'a [String],
}

impl fmt::Display for SearchedText<'_> {
    fn fmt<W: fmt::Write>(&self, f: &mut fmt::Formatter<W>) -> fmt::Result {
        if self.searched.states == 1 {
            f.write_str("1 state")?;
        } else {
            write!(f, "{} states", NumberText(self.searched.states))?;
        }
        if self.searched.is_stuck {
            return f.write_str(
                "; nothing can be matched, since the specification is in a deadlock from the start",
            );
        }
        let before = words_before(self.words, self.searched.elements);
        let (last, wanted) = (NumberText(before), NumberText(before.saturating_add(1)));
        match before {
            0 => write!(f, "; {}", UnmatchedText(self.words)),
            1 => write!(
                f,
                "; word {last} can be matched, and then nothing that word {wanted} wants"
            ),
            _ => write!(
                f,
                "; words 1 to {last} can be matched, and then nothing that word {wanted} wants"
            ),
        }
    }
}

/// That the first element of the pattern with these words cannot be matched: a label, or an end, which no state is as.
#[derive(Clone, Copy, Debug)]
struct UnmatchedText<'a>(&'a [String]);

impl fmt::Display for UnmatchedText<'_> {
    fn fmt<W: fmt::Write>(&self, f: &mut fmt::Formatter<W>) -> fmt::Result {
        let words = self.0;
        if !is_end(words) {
            return f.write_str("word 1 cannot be matched");
        }
        if !begins_with_until(words) {
            f.write_str("at the start ")?;
        }
        match words.len() {
            1 => f.write_str("no state is as word 1 demands"),
            last => write!(f, "no state is as words 1 to {} demand", NumberText(last)),
        }
    }
}

/// Whether the words are those of an end, alone or after `<until>`.
fn is_end(words: &[String]) -> bool {
    let at = usize::from(begins_with_until(words));
    words
        .get(at)
        .is_some_and(|word| is_among(word.as_str(), &END_WORDS))
}

fn begins_with_until(words: &[String]) -> bool {
    words
        .first()
        .is_some_and(|word| word.as_str().eq_ignore_ascii_case("<until>"))
}

/// The number of words before the element that cannot be matched, where the first `done` elements are known to be
/// matched: the words of these and of each `<while>` after them, which matches without a label too, or all before the
/// last element if there are no more.
fn words_before(words: &[String], done: usize) -> usize {
    let mut left = done;
    let mut start = 0;
    let mut is_inside = false;
    for (number, word) in words.iter().enumerate() {
        if !is_inside {
            start = number;
            if left == 0 && !word.as_str().eq_ignore_ascii_case("<while>") {
                return start;
            }
            left = left.saturating_sub(1);
        }
        is_inside = is_among(word.as_str(), &FRONT_WORDS);
    }
    start
}

pub(crate) fn is_among(word: &str, others: &[&str]) -> bool {
    others.iter().any(|other| word.eq_ignore_ascii_case(other))
}
