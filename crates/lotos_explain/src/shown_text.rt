//! The parts of a text as an explanation shows them. Errors of the writer are ignored.

use crate::continuations::NAME;
use crate::line_bounds::line_of;
use lotos_text::{Token, line_column};
use std::fmt;
use std::io::Write;

/// The most bytes of a line that are shown before the place, and in all.
const SHOWN_BEFORE: usize = 60;

const SHOWN: usize = 100;

/// The most bytes of a token that are shown.
const SHOWN_OF_TOKEN: usize = 40;

/// Writes the line of the offset, or a part of a long one, and a mark under the offset.
pub(crate) fn show_line<E: Write>(text: &[u8], at: usize, err: &mut E) {
    if at > text.len() {
        return;
    }
    let bounds = line_of(text, at);
    let from = bounds.start.max(at.saturating_sub(SHOWN_BEFORE));
    let to = bounds.end.min(from.saturating_add(SHOWN));
    let from = character_start(text, from, at);
    let to = character_start(text, to, bounds.end);
    if let (Some(before), Some(after)) = (text.get(from..at), text.get(at..to)) {
        let _ = writeln!(err, "  {}{}", ShownBytes(before), ShownBytes(after));
        let _ = writeln!(err, "  {}^", Blanks(columns(before)));
    }
}

/// The first offset from the one to the other at which no byte inside a character of UTF-8 is; else the other.
fn character_start(text: &[u8], from: usize, to: usize) -> usize {
    for at in from..to {
        if !matches!(text.get(at), Some(128..=191)) {
            return at;
        }
    }
    to
}

/// How many characters the bytes are shown as.
fn columns(bytes: &[u8]) -> usize {
    match str::from_utf8(bytes) {
        Ok(text) => text.chars().count(),
        Err(_) => bytes.len(),
    }
}

/// Bytes as text: in UTF-8 a column for each character, else a column for each byte. Those that are not printed, or may
/// take another number of columns, are shown as `?`, blanks as a blank.
#[derive(Clone, Copy, Drop)]
struct ShownBytes<'a>(&'a [u8]);

impl fmt::Display for ShownBytes<'_> {
    fn fmt<W: fmt::Write>(&self, f: &mut fmt::Formatter<W>) -> fmt::Result {
        match str::from_utf8(self.0) {
            Ok(text) => {
                for character in text.chars() {
                    f.write_char(shown_char(character))?;
                }
            }
            Err(_) => {
                for byte in self.0 {
                    let is_shown = byte.is_ascii();
                    f.write_char(if is_shown {
                        shown_char(char::from(*byte))
                    } else {
                        '?'
                    })?;
                }
            }
        }
        Ok(())
    }
}

/// The character, if it is printed and takes one column: of ASCII, a letter of the Latin, Greek or Cyrillic script, a
/// dash, a quotation mark, an arrow or a sign of mathematics.
fn shown_char(character: char) -> char {
    match character {
        ' '..='~' => character,
        '\t'..='\r' => ' ',
        '\u{a1}'..='\u{ac}' | '\u{ae}'..='\u{2ff}' | '\u{370}'..='\u{482}' => character,
        '\u{48a}'..='\u{52f}' | '\u{1e00}'..='\u{1eff}' => character,
        '\u{2010}'..='\u{2027}' | '\u{2190}'..='\u{22ff}' => character,
        _ => '?',
    }
}

/// The line and the column of an offset, if it is not after the end of the text.
#[derive(Clone, Copy, Drop)]
pub(crate) struct Position<'a>(pub &'a [u8], pub usize);

impl fmt::Display for Position<'_> {
    fn fmt<W: fmt::Write>(&self, f: &mut fmt::Formatter<W>) -> fmt::Result {
        if self.1 > self.0.len() {
            return Ok(());
        }
        let (line, column) = line_column(self.0, self.1);
        write!(f, "{line}:{column}")
    }
}

/// So many blanks.
#[derive(Clone, Copy, Drop)]
struct Blanks(usize);

impl fmt::Display for Blanks {
    fn fmt<W: fmt::Write>(&self, f: &mut fmt::Formatter<W>) -> fmt::Result {
        for _ in 0..self.0 {
            f.write_char(' ')?;
        }
        Ok(())
    }
}

/// The bytes of a token of the text, in backquotes.
#[derive(Clone, Copy, Drop)]
pub(crate) struct TokenText<'a>(pub &'a [u8], pub Token);

impl fmt::Display for TokenText<'_> {
    fn fmt<W: fmt::Write>(&self, f: &mut fmt::Formatter<W>) -> fmt::Result {
        let end = self.1.end.min(self.1.at.saturating_add(SHOWN_OF_TOKEN));
        let dots = if end < self.1.end { ".." } else { "" };
        match self.0.get(self.1.at..end) {
            Some(bytes) => write!(f, "`{}{dots}`", ShownBytes(bytes)),
            None => Ok(()),
        }
    }
}

/// A byte that begins no token: as a character if it is one, else by its number.
#[derive(Clone, Copy, Drop)]
pub(crate) struct ByteText(pub u8);

impl fmt::Display for ByteText {
    fn fmt<W: fmt::Write>(&self, f: &mut fmt::Formatter<W>) -> fmt::Result {
        match self.0 {
            b' '..=b'~' => write!(f, "`{}`", char::from(self.0)),
            128.. => write!(f, "the byte {}, which is not ASCII,", self.0),
            _ => write!(f, "the byte {}", self.0),
        }
    }
}

/// Words and signs, each in backquotes after a blank.
#[derive(Clone, Copy, Drop)]
pub(crate) struct WordList<'a>(pub &'a [&'static str]);

impl fmt::Display for WordList<'_> {
    fn fmt<W: fmt::Write>(&self, f: &mut fmt::Formatter<W>) -> fmt::Result {
        for word in self.0 {
            if *word == NAME {
                f.write_str(" a name")?;
            } else {
                write!(f, " `{word}`")?;
            }
        }
        Ok(())
    }
}
