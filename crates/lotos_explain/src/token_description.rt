//! What is at an offset of a text.
ghost use Rattle.std.specs.Prelude.{◌<◌, ◌≤◌, IfOk, IfNone, IfSome, length};
ghost use Rattle.lotos_text.specs.Lexing.{FailsAtByte, Lexes};
ghost use Rattle.lotos_text.specs.Limits.{max_text_length};
ghost use Rattle.lotos_explain.specs.Descriptions.{FailsElsewhere, IsAmongAt, IsDescribed, IsLexingFailure, IsNoneAt};

use lotos_text::laws::tokens_are_unique;
use lotos_text::{TextFault, Token, tokens};
use std::alloc::{AllocError, Global};

/// What is at an offset of a text.
#[derive(Clone, Copy, Debug, PartialEq, Eq)]
pub enum Description {
    /// This token begins there.
    Token(Token),
    /// A comment that is not closed opens there.
    Comment,
    /// A byte order mark in UTF-8 is there, with which no token begins.
    ByteOrderMark,
    /// This byte is there, with which no token begins.
    Byte(u8),
    /// The text ends there.
    End,
    /// None of these: a blank, a comment, the middle of a token, or an offset after that of a fault of the lexer or
    /// after the end.
    Nothing,
}

/// What is at the offset of a text of at most [`lotos_text::TEXT_LIMIT`] bytes.
///
/// # Errors
///
/// If an allocation fails.
pub fn describe_token(alloc: Global, text: &[u8], at: usize) -> Result<Description, AllocError>
    requires { length text.now ≤ max_text_length }
    ensures { IfOk result (IsDescribed text.now at) }
{
    match tokens(alloc, text) {
        Ok(found) => Ok(describe_in_tokens(text, found.as_slice(), at)),
        Err(TextFault::E99(error)) => Err(error),
        Err(fault) => Ok(describe_by_fault(text, &fault, at)),
    }
}

/// What is at the offset of a text with these tokens.
fn describe_in_tokens(text: &[u8], found: &[Token], at: usize) -> Description
    requires { Lexes text.now found.now }
    ensures { IsDescribed text.now at result }
{
    tokens_are_unique();
    match token_at(found, at) {
        Some(token) => Description::Token(token),
        None if at == text.len() => Description::End,
        None => Description::Nothing,
    }
}

/// The token of the list at the offset, if there is one.
fn token_at(found: &[Token], at: usize) -> Option<Token>
    ensures is { IfSome result (IsAmongAt found.now at) }
    ensures none { IfNone result (IsNoneAt found.now at) }
{
    for token in found {
        if token.at == at {
            return Some(*token);
        }
    }
    None
}

/// What is at the offset of a text in which lexing fails so.
fn describe_by_fault(text: &[u8], fault: &TextFault, at: usize) -> Description
    requires { IsLexingFailure text.now fault.now }
    ensures { IsDescribed text.now at result }
{
    match fault {
        TextFault::E01(place) if *place == at => describe_byte(text, at),
        TextFault::E02(place) if *place == at => Description::Comment,
        _ => describe_elsewhere(text, at),
    }
}

/// What is at the offset, at which lexing fails at its byte.
fn describe_byte(text: &[u8], at: usize) -> Description
    requires { FailsAtByte text.now at }
    ensures { IsDescribed text.now at result }
{
    failing_byte_is_inside(text, at);
    if text[at..].starts_with(b"\xef\xbb\xbf") {
        Description::ByteOrderMark
    } else {
        Description::Byte(text[at])
    }
}

/// An offset at which lexing fails at its byte is inside the text.
fn failing_byte_is_inside(text: &[u8], at: usize)
    requires { FailsAtByte text.now at }
    ensures { at < length text.now }
{}

/// What is at the offset of a text in which lexing fails somewhere else.
fn describe_elsewhere(text: &[u8], at: usize) -> Description
    requires { FailsElsewhere text.now at }
    ensures { IsDescribed text.now at result }
{
    tokens_are_unique();
    if at == text.len() {
        Description::End
    } else {
        Description::Nothing
    }
}
