//! The lines of warnings on standard error. Errors of the error stream are ignored.

use lotos_outcome::PositionText;
use lotos_warn::Warning;
use std::io::Write;

/// How many warnings are written.
const MOST: usize = 1000;

/// Writes a line for each of the first warnings about the text, and one that says how many more there are. The warnings
/// are in the order of their offsets, so the text is read once.
pub fn write_warnings<E: Write>(err: &mut E, text: &[u8], warnings: &[Warning]) {
    let mut position = Position {
        at: 0,
        line: 1,
        column: 1,
    };
    let written = warnings.len().min(MOST);
    for warning in &warnings[..written] {
        position = position.moved(text, warning.at());
        let position_text = PositionText(Some((position.line, position.column)));
        let _ = writeln!(err, "lotosseq: {position_text}warning: {warning}");
    }
    write_left_out(err, warnings.len() - written);
}

/// Writes how many warnings are left out, if any are.
fn write_left_out<E: Write>(err: &mut E, count: usize) {
    if count == 1 {
        let _ = writeln!(err, "1 more warning is not written.");
    } else if count > 1 {
        let _ = writeln!(err, "{count} more warnings are not written.");
    }
}

/// An offset in a text, with its line and its column, both counted from 1.
#[derive(Clone, Copy)]
struct Position {
    at: usize,
    line: usize,
    column: usize,
}

impl Position {
    /// The position of a later offset.
    fn moved(self, text: &[u8], to: usize) -> Position {
        let mut line = self.line;
        let mut column = self.column;
        for k in self.at..to.min(text.len()) {
            if text[k] == b'\n' {
                line = line.saturating_add(1);
                column = 1;
            } else {
                column = column.saturating_add(1);
            }
        }
        Position {
            at: to,
            line,
            column,
        }
    }
}
