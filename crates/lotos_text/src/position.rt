//! Positions: lines and columns of offsets.
ghost use Rattle.std.specs.Prelude.{◌≤◌, length};
ghost use Rattle.lotos_text.specs.Position.{IsPosition};

/// The line and the column of an offset, each counted from 1. The column counts bytes.
///
/// A line ends with a line feed. The offset is at most the length of the text.
pub fn line_column(text: &[u8], at: usize) -> (usize, usize)
    requires { at ≤ length text.now }
    ensures { IsPosition text.now at result.0 result.1 }
{
    let mut line = 1;
    let mut start = 0;
    for k in 0..at {
        if text[k] == b'\n' {
            line += 1;
            start = k + 1;
        }
    }
    (line, at - start + 1)
}
