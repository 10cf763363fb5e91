//! Lines of offsets, and what is at an offset.
use lotos_explain::{Description, LineBounds, describe_token, line_of};
use lotos_text::{Sign, Token, TokenKind, Word};
use std::alloc::Global;

/// A text, an offset, and the bounds of the line that has it.
const LINES: &[(&[u8], usize, usize, usize)] = &[
    (b"", 0, 0, 0),
    (b"ab", 0, 0, 2),
    (b"ab", 2, 0, 2),
    (b"ab\ncd\n", 1, 0, 2),
    // The line feed belongs to the line that it ends.
    (b"ab\ncd\n", 2, 0, 2),
    (b"ab\ncd\n", 3, 3, 5),
    (b"ab\ncd\n", 5, 3, 5),
    (b"ab\ncd\n", 6, 6, 6),
    (b"\n\n", 1, 1, 1),
    (b"\r\nab", 3, 2, 4),
];

#[test]
fn bounds_the_line_of_an_offset(rt: HostRuntime) {
    for (text, at, start, end) in LINES {
        if *at <= text.len() {
            let found = line_of(text, *at);
            let want = LineBounds {
                start: *start,
                end: *end,
            };
            assert_eq!(rt; found, want, "offset {at}");
        }
    }
}

/// A text, an offset, and what is there.
const PLACES: &[(&[u8], usize, Description)] = &[
    (
        b"a; stop",
        0,
        Description::Token(Token {
            at: 0,
            end: 1,
            kind: TokenKind::Identifier,
        }),
    ),
    (
        b"a; stop",
        1,
        Description::Token(Token {
            at: 1,
            end: 2,
            kind: TokenKind::Sign(Sign::Semicolon),
        }),
    ),
    (b"a; stop", 2, Description::Nothing),
    (
        b"a; stop",
        3,
        Description::Token(Token {
            at: 3,
            end: 7,
            kind: TokenKind::Reserved(Word::StopWord),
        }),
    ),
    (b"a; stop", 4, Description::Nothing),
    (b"a; stop", 7, Description::End),
    (b"a; stop", 8, Description::Nothing),
    (b"", 0, Description::End),
    (b"a = b", 2, Description::Byte(b'=')),
    // Where lexing fails elsewhere nothing is said of a token.
    (b"a = b", 0, Description::Nothing),
    (b"a = b", 5, Description::End),
    (b"\xef\xbb\xbfa", 0, Description::ByteOrderMark),
    (b"\xef\xbba", 0, Description::Byte(0xef)),
    (b"a\xef\xbb\xbf", 1, Description::ByteOrderMark),
    (b"a (* b", 2, Description::Comment),
    (b"a (* b *)", 2, Description::Nothing),
    (
        b"|[]|",
        0,
        Description::Token(Token {
            at: 0,
            end: 2,
            kind: TokenKind::Sign(Sign::LeftSync),
        }),
    ),
];

fn described(alloc: Global, text: &[u8], at: usize) -> Option<Description> {
    if text.len() > 100 {
        return None;
    }
    describe_token(alloc, text, at).ok()
}

#[test]
fn says_what_is_at_an_offset(rt: HostRuntime) {
    for (text, at, want) in PLACES {
        let found = described(rt.alloc(), text, *at);
        assert!(rt; found == Some(*want), "offset {at}: {found:?}");
    }
}
