//! The line of an offset.
ghost use Rattle.std.specs.Prelude.{◌≡◌, ◌≤◌, length};
ghost use Rattle.lotos_explain.specs.LineBounds.{IsLineEnd, IsLineOf, IsLineStart};

/// The bytes of a line, without its line feed: those from offset `start` to offset `end`.
#[derive(Clone, Copy, Debug, PartialEq, Eq)]
pub struct LineBounds {
    pub start: usize,
    pub end: usize,
}

/// The bounds of the line that has the offset, which is at most the length of the text. The line feed at the end of a
/// line belongs to that line and is outside its bounds. Lines and columns are those of `lotos_text::line_column`.
pub fn line_of(text: &[u8], at: usize) -> LineBounds
    requires { at ≤ length text.now }
    ensures { IsLineOf text.now at result }
{
    let start = line_start(text, at);
    let end = line_end(text, at);
    LineBounds { start, end }
}

fn line_start(text: &[u8], at: usize) -> usize
    requires { at ≤ length text.now }
    ensures { IsLineStart text.now at result }
{
    let mut start = 0;
    for k in 0..at {
        if text[k] == b'\n' {
            start = k + 1;
        }
    }
    start
}

fn line_end(text: &[u8], at: usize) -> usize
    requires { at ≤ length text.now }
    ensures { IsLineEnd text.now at result }
{
    let mut end = at;
    while end < text.len() {
        if text[end] == b'\n' {
            return end;
        }
        end += 1;
    }
    end
}
