//! The lexer: from a text to its tokens.
ghost use Rattle.std.specs.Prelude.{◌≡◌, ◌<◌, ◌≤◌, length, take, IfOk, IfErr, IfSome, IfNone};
ghost use Rattle.lotos_text.specs.Lexing.{Lexes, AreTokensIn, StartsWith, IsComment, IsUnclosedComment, comment_opening, is_blank, is_word_byte, sign_text, classify};
ghost use Rattle.lotos_text.specs.Lexemes.{IsNextLexeme, longest_sign};
ghost use Rattle.lotos_text.specs.Limits.{max_text_length};
ghost use Rattle.lotos_text.specs.TextFaults.{IsLexingFault};
ghost use Rattle.std.specs.List.{prefix_len};

use crate::fault::TextFault;
use crate::token::{Sign, Token, TokenKind, Word};
use std::alloc::Global;

/// The most bytes that a text may have (this project's profile).
pub const TEXT_LIMIT: usize = 1_048_576;

/// The tokens of a text, in order.
///
/// Blanks and comments separate tokens and yield none. A comment opens with `(*` and ends with the first `*)` after
/// that; comments do not nest.
///
/// # Errors
///
/// E03 for a text of more than [`TEXT_LIMIT`] bytes, whatever its bytes are. Otherwise E01 at the first byte at which a
/// blank, a comment or a token has to begin and none does, or E02 at the opening of a comment that is not closed,
/// whichever comes first. E99 if an allocation fails.
pub fn tokens(alloc: Global, text: &[u8]) -> Result<Vec<Token>, TextFault>
    ensures short { IfOk result (λ found. length text.now ≤ max_text_length) }
    ensures lexes { IfOk result (λ found. Lexes text.now found.items) }
    ensures in_text { IfOk result (λ found. AreTokensIn text.now found.items) }
    ensures fails { IfErr result (IsLexingFault text.now) }
{
    if text.len() > TEXT_LIMIT {
        return Err(TextFault::E03);
    }
    let mut found = Vec::new(alloc);
    let mut at = 0;
    while at < text.len() {
        match next_lexeme(&text[at..]) {
            Lexeme::Blank => at += 1,
            Lexeme::Comment(length) => at += length,
            Lexeme::Token(length, kind) => {
                let end = at + length;
                found.push(Token { at, end, kind })?;
                at = end;
            }
            Lexeme::Unclosed => return Err(TextFault::E02(at)),
            Lexeme::Unknown => return Err(TextFault::E01(at)),
        }
    }
    Ok(found)
}

/// What the lexer takes next.
#[derive(Clone, Copy)]
enum Lexeme {
    /// One blank byte.
    Blank,
    /// A comment, with its length in bytes.
    Comment(usize),
    /// A token, with its length in bytes.
    Token(usize, TokenKind),
    /// The opening of a comment that is not closed.
    Unclosed,
    /// A byte with which no blank, comment or token begins.
    Unknown,
}

/// The lexeme at the start of a text that is not empty.
#[tactic(auto, using(crate::proofs::NextLexemes::found_fronts))]
fn next_lexeme(text: &[u8]) -> Lexeme
    requires { 0 < length text.now }
    ensures { IsNextLexeme text.now result }
{
    let first = text[0];
    if is_blank(first) {
        Lexeme::Blank
    } else if first.is_ascii_alphabetic() {
        let length = word_length(text);
        Lexeme::Token(length, classify_word(&text[..length]))
    } else if text.starts_with(b"(*") {
        match comment_length(text) {
            Some(length) => Lexeme::Comment(length),
            None => Lexeme::Unclosed,
        }
    } else {
        match longest_sign(text) {
            Some(sign) => Lexeme::Token(sign_text(sign).len(), TokenKind::Sign(sign)),
            None => Lexeme::Unknown,
        }
    }
}

/// The length in bytes, closing included, of the comment that opens at the start of a text; `None` if it is not closed.
fn comment_length(text: &[u8]) -> Option<usize>
    requires { StartsWith comment_opening text.now }
    ensures closed { IfSome result (λ n. IsComment (take n text.now) × (n ≤ length text.now)) }
    ensures open { IfNone result (IsUnclosedComment text.now) }
{
    let mut at = 2;
    while at < text.len() {
        if text[at..].starts_with(b"*)") {
            return Some(at + 2);
        }
        at += 1;
    }
    None
}

fn is_blank(byte: u8) -> bool
    ensures { result ≡ is_blank byte }
{
    matches!(byte, 9..=13 | b' ')
}

fn is_word_byte(byte: u8) -> bool
    ensures { result ≡ is_word_byte byte }
{
    byte.is_ascii_alphanumeric() || byte == b'_'
}

/// The number of word bytes at the start of a text.
fn word_length(text: &[u8]) -> usize
    ensures { result ≡ prefix_len is_word_byte text.now }
{
    text.iter().take_while(|byte| is_word_byte(**byte)).count()
}

/// The keywords in lower case.
const KEYWORDS: [(&[u8], Word); 19] = [
    (b"specification", Word::SpecificationWord),
    (b"endspec", Word::EndspecWord),
    (b"behaviour", Word::BehaviourWord),
    (b"behavior", Word::BehaviourWord),
    (b"process", Word::ProcessWord),
    (b"endproc", Word::EndprocWord),
    (b"where", Word::WhereWord),
    (b"stop", Word::StopWord),
    (b"exit", Word::ExitWord),
    (b"noexit", Word::NoexitWord),
    (b"hide", Word::HideWord),
    (b"in", Word::InWord),
    (b"i", Word::IWord),
    (b"accept", Word::AcceptWord),
    (b"choice", Word::ChoiceWord),
    (b"let", Word::LetWord),
    (b"par", Word::ParWord),
    (b"library", Word::LibraryWord),
    (b"type", Word::TypeWord),
];

/// The kind of a word: a keyword, in any mix of cases, or an identifier.
fn classify_word(found: &[u8]) -> TokenKind
    ensures { result ≡ classify found.now }
{
    for (word, reserved) in &KEYWORDS {
        if found.eq_ignore_ascii_case(word) {
            return TokenKind::Reserved(*reserved);
        }
    }
    TokenKind::Identifier
}

/// All signs, longer ones before shorter ones.
const SIGNS: [Sign; 15] = [
    Sign::Interleave,
    Sign::Define,
    Sign::Choice,
    Sign::Disable,
    Sign::Enable,
    Sign::LeftSync,
    Sign::Full,
    Sign::Semicolon,
    Sign::Colon,
    Sign::Comma,
    Sign::LeftParenthesis,
    Sign::RightParenthesis,
    Sign::LeftBracket,
    Sign::RightBracket,
    Sign::Bar,
];

/// The longest sign at the start of a text.
fn longest_sign(text: &[u8]) -> Option<Sign>
    ensures { result ≡ longest_sign text.now }
{
    SIGNS
        .iter()
        .copied()
        .find(|sign| text.starts_with(sign_text(*sign)))
}

/// The bytes of a sign.
fn sign_text(sign: Sign) -> &'static [u8]
    ensures { result.now ≡ sign_text sign }
{
    match sign {
        Sign::Semicolon => b";",
        Sign::Colon => b":",
        Sign::Define => b":=",
        Sign::Comma => b",",
        Sign::LeftParenthesis => b"(",
        Sign::RightParenthesis => b")",
        Sign::LeftBracket => b"[",
        Sign::RightBracket => b"]",
        Sign::Choice => b"[]",
        Sign::Disable => b"[>",
        Sign::Enable => b">>",
        Sign::LeftSync => b"|[",
        Sign::Full => b"||",
        Sign::Interleave => b"|||",
        Sign::Bar => b"|",
    }
}
