//! Numbers, names and positions as messages show them. They do not allocate.

use itoa::Buffer;
use std::fmt;

/// A number in decimal digits.
#[derive(Clone, Copy, Debug)]
pub struct NumberText(pub usize);

impl fmt::Display for NumberText {
    fn fmt<W: fmt::Write>(&self, f: &mut fmt::Formatter<W>) -> fmt::Result {
        let mut digits = Buffer::new();
        f.write_str(digits.format(self.0))
    }
}

/// A name as the command line gives it. A byte that is no graphic ASCII character is `\x` and two digits, and the empty
/// name is a pair of quotes.
#[derive(Clone, Copy, Debug)]
pub struct GivenName<'a>(pub &'a str);

impl fmt::Display for GivenName<'_> {
    fn fmt<W: fmt::Write>(&self, f: &mut fmt::Formatter<W>) -> fmt::Result {
        if self.0.is_empty() {
            return f.write_str("\"\"");
        }
        for byte in self.0.as_bytes() {
            write_byte(*byte, f)?;
        }
        Ok(())
    }
}

/// Writes a byte of a name.
fn write_byte<W: fmt::Write>(byte: u8, f: &mut fmt::Formatter<W>) -> fmt::Result {
    if byte.is_ascii_graphic() {
        f.write_char(char::from(byte))
    } else {
        write!(f, "\\x{byte:02x}")
    }
}

/// `line:column: ` before a message, or nothing.
#[derive(Clone, Copy, Debug)]
pub struct PositionText(pub Option<(usize, usize)>);

impl fmt::Display for PositionText {
    fn fmt<W: fmt::Write>(&self, f: &mut fmt::Formatter<W>) -> fmt::Result {
        match self.0 {
            Some((line, column)) => write!(f, "{}:{}: ", NumberText(line), NumberText(column)),
            None => Ok(()),
        }
    }
}
