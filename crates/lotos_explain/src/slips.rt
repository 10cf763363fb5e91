//! Slips from which a token may come that is not expected.

use crate::continuations::NAME;
use crate::neighbour_advice::{Neighbours, advice_by_neighbours};
use crate::open_constructs::{closing_of, is_closed_by, open_constructs_at};
use crate::similar_names::similar_word;
use crate::token_description::Description;
use lotos_text::{Sign, TextFault, Token, TokenKind, Word, tokens};
use std::alloc::{AllocError, Global};

/// The fewest bytes of the beginning of a word that may be meant for the word.
const SHORTEST_FRONT: usize = 3;

/// What may be wrong at a token that is not expected.
#[derive(Drop)]
pub(crate) enum Slip {
    /// The token may be meant for this word.
    Word(&'static str),
    /// A `;` may be missing after this name, which is just before the token.
    Semicolon(Token),
    /// A `,` may be missing after this name, which is just before the token.
    Comma(Token),
    /// This is to be done.
    Advice(&'static str),
    /// This word or sign may be missing before the token.
    Missing(&'static str),
    /// The construct that this token opens is not closed before. A process and the specification have a name.
    Unclosed { opening: Token, name: Option<Token> },
}

/// What may be wrong at the offset. `what` is there, and `expected` could be.
pub(crate) fn slip_at(
    alloc: Global,
    text: &[u8],
    at: usize,
    what: &Description,
    expected: &[&'static str],
) -> Result<Option<Slip>, AllocError> {
    if at > text.len() {
        return Ok(None);
    }
    if let Some(word) = word_meant(alloc, text, what, expected)? {
        return Ok(Some(Slip::Word(word)));
    }
    let before = tokens_of(alloc, &text[..at])?;
    if let Some(slip) = separator_missing(before.as_slice(), what, expected) {
        return Ok(Some(slip));
    }
    let open = open_constructs_at(alloc, text, at)?;
    if let Some(opening) = unclosed_at(open.as_slice(), what, expected) {
        let name = name_after(before.as_slice(), opening);
        return Ok(Some(Slip::Unclosed { opening, name }));
    }
    let Description::Token(token) = what else {
        return Ok(None);
    };
    let rest = tokens_of(alloc, &text[at..])?;
    let near = Neighbours {
        before: before.as_slice(),
        token: *token,
        rest: rest.as_slice(),
        open: open.as_slice(),
    };
    Ok(slip_by_neighbours(&near, expected))
}

/// Whether a `;` or a `,` may be missing, after the last of the tokens before.
fn separator_missing(
    before: &[Token],
    what: &Description,
    expected: &[&'static str],
) -> Option<Slip> {
    let name = before.last()?;
    if name.kind != TokenKind::Identifier {
        return None;
    }
    if expected.contains(&";") && begins_behaviour(what) {
        return Some(Slip::Semicolon(*name));
    }
    let is_name = matches!(what, Description::Token(token) if token.kind == TokenKind::Identifier);
    if expected.contains(&",") && is_name {
        return Some(Slip::Comma(*name));
    }
    None
}

/// What is to be done by the tokens beside the token, or else the one word or sign that could be there.
fn slip_by_neighbours(near: &Neighbours<'_, '_, '_>, expected: &[&'static str]) -> Option<Slip> {
    if let Some(advice) = advice_by_neighbours(near, expected) {
        return Some(Slip::Advice(advice));
    }
    match expected {
        [word] if *word != NAME => Some(Slip::Missing(*word)),
        _ => None,
    }
}

/// The word that may be meant by a name where that is expected: a similar one, or one that begins with it.
fn word_meant(
    alloc: Global,
    text: &[u8],
    what: &Description,
    expected: &[&'static str],
) -> Result<Option<&'static str>, AllocError> {
    let Description::Token(token) = what else {
        return Ok(None);
    };
    match (token.kind, text.get(token.at..token.end)) {
        (TokenKind::Identifier, Some(bytes)) => {
            let lower = bytes.to_ascii_lowercase(alloc)?;
            match str::from_utf8(lower.as_slice()) {
                Ok(name) => similar_or_longer(alloc, name, expected),
                Err(_) => Ok(None),
            }
        }
        _ => Ok(None),
    }
}

/// The most similar of the words, else the first that begins with the name, if that is not too short.
fn similar_or_longer(
    alloc: Global,
    name: &str,
    expected: &[&'static str],
) -> Result<Option<&'static str>, AllocError> {
    if let Some(word) = similar_word(alloc, name, expected)? {
        return Ok(Some(word));
    }
    for word in expected {
        if name.len() >= SHORTEST_FRONT && word.starts_with(name) {
            return Ok(Some(*word));
        }
    }
    Ok(None)
}

/// Whether a behaviour can begin with what is described.
fn begins_behaviour(what: &Description) -> bool {
    let Description::Token(token) = what else {
        return false;
    };
    matches!(
        token.kind,
        TokenKind::Identifier
            | TokenKind::Reserved(Word::StopWord | Word::ExitWord | Word::HideWord | Word::IWord)
            | TokenKind::Sign(Sign::LeftParenthesis)
    )
}

/// The tokens of the text; none if it does not lex.
fn tokens_of(alloc: Global, front: &[u8]) -> Result<Vec<Token>, AllocError> {
    match tokens(alloc, front) {
        Ok(found) => Ok(found),
        Err(TextFault::E99(error)) => Err(error),
        Err(_) => Ok(Vec::new(alloc)),
    }
}

/// The name of the process or the specification that this one of the tokens begins.
fn name_after(found: &[Token], opening: Token) -> Option<Token> {
    for token in found {
        if token.at >= opening.end {
            let is_name = token.kind == TokenKind::Identifier
                && opening.kind != TokenKind::Sign(Sign::LeftParenthesis);
            return if is_name { Some(*token) } else { None };
        }
    }
    None
}

/// The innermost of the open constructs if its closing could be at the place, and what is there is the end of the text,
/// the closing of another one, or the beginning of the next process.
fn unclosed_at(open: &[Token], what: &Description, expected: &[&'static str]) -> Option<Token> {
    let (innermost, outer) = open.split_last()?;
    let is_unclosed = match what {
        Description::End => true,
        Description::Token(token) => is_outside(innermost.kind, outer, token.kind),
        _ => false,
    };
    if is_unclosed && expected.contains(&closing_of(innermost.kind)) {
        Some(*innermost)
    } else {
        None
    }
}

/// Whether a token of the kind closes one of the outer constructs, or begins a process after an inner one.
fn is_outside(innermost: TokenKind, outer: &[Token], kind: TokenKind) -> bool {
    if kind == TokenKind::Reserved(Word::ProcessWord) {
        return innermost == kind;
    }
    for opening in outer {
        if is_closed_by(opening.kind, kind) {
            return true;
        }
    }
    false
}
