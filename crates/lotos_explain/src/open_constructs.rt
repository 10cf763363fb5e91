//! The constructs with a closing word or sign that are open at an offset: parentheses, processes and the specification.
ghost use Rattle.std.specs.Prelude.{◌≡◌, ◌≤◌, IfOk, OnOk, [], length};
ghost use Rattle.lotos_explain.specs.OpenConstructs.{AreOpenAt, after_token, after_tokens, closes, opens};

use lotos_text::{Sign, TextFault, Token, TokenKind, Word, tokens};
use std::alloc::{AllocError, Global};

/// The tokens that open the constructs that are open at the offset, which is at most the length of the text, the
/// outermost first; none if the bytes before it do not lex.
///
/// # Errors
///
/// If an allocation fails.
pub fn open_constructs_at(alloc: Global, text: &[u8], at: usize) -> Result<Vec<Token>, AllocError>
    requires { at ≤ length text.now }
    ensures { IfOk result (λ found. AreOpenAt text.now at found.items) }
{
    match tokens(alloc, &text[..at]) {
        Ok(found) => left_open(alloc, found.as_slice()),
        Err(TextFault::E99(error)) => Err(error),
        Err(_) => Ok(Vec::new(alloc)),
    }
}

/// Those of the tokens that open a construct that no later one closes, the outermost first.
fn left_open(alloc: Global, found: &[Token]) -> Result<Vec<Token>, AllocError>
    ensures { IfOk result (λ left. left.items ≡ after_tokens [] found.now) }
{
    let mut opened = Vec::new(alloc);
    for token in found {
        add_token(&mut opened, *token)?;
    }
    Ok(opened)
}

/// Adds a token that opens a construct; removes the last one at a token that closes one.
fn add_token(opened: &mut Vec<Token>, token: Token) -> Result<(), AllocError>
    ensures { OnOk result (opened.new.items ≡ after_token opened.old.items token) }
{
    if is_opening(token.kind) {
        opened.push(token)?;
    } else if is_closing(token.kind) {
        opened.pop();
    }
    Ok(())
}

fn is_opening(kind: TokenKind) -> bool
    ensures { result ≡ opens kind }
{
    matches!(
        kind,
        TokenKind::Reserved(Word::SpecificationWord | Word::ProcessWord)
            | TokenKind::Sign(Sign::LeftParenthesis)
    )
}

/// Whether a token of the kind is the closing word or sign of a construct.
fn is_closing(kind: TokenKind) -> bool
    ensures { result ≡ closes kind }
{
    matches!(
        kind,
        TokenKind::Reserved(Word::EndspecWord | Word::EndprocWord)
            | TokenKind::Sign(Sign::RightParenthesis)
    )
}

/// Whether a token of the one kind closes what a token of the other opens.
pub(crate) fn is_closed_by(opening: TokenKind, closing: TokenKind) -> bool {
    match closing {
        TokenKind::Reserved(Word::EndspecWord) => closing_of(opening) == "endspec",
        TokenKind::Reserved(Word::EndprocWord) => closing_of(opening) == "endproc",
        TokenKind::Sign(Sign::RightParenthesis) => closing_of(opening) == ")",
        _ => false,
    }
}

/// The closing word or sign of the construct that a token of the kind opens.
pub(crate) fn closing_of(kind: TokenKind) -> &'static str {
    match kind {
        TokenKind::Reserved(Word::ProcessWord) => "endproc",
        TokenKind::Reserved(_) => "endspec",
        _ => ")",
    }
}
