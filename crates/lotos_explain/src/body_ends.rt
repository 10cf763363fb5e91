//! Where the `stop` and `exit` of a body are in the text.

use lotos_text::{Sign, TextFault, Token, TokenKind, Word, tokens};
use std::alloc::{AllocError, Global};

/// What a token is part of, for a definition.
#[derive(Clone, Copy, PartialEq, Eq)]
enum Part {
    /// What is before the body.
    Head,
    Body,
    /// What is after the body.
    Rest,
}

/// The offset of the `stop` or `exit` that has so many of them before it in a body, if that body has others too. The body
/// is that of the definition whose name has the offset.
///
/// # Errors
///
/// If an allocation fails.
pub(crate) fn end_among_others(
    alloc: Global,
    text: &[u8],
    name: usize,
    before: usize,
) -> Result<Option<usize>, AllocError> {
    match tokens(alloc, text) {
        Ok(found) => Ok(end_in(found.as_slice(), name, before)),
        Err(TextFault::E99(error)) => Err(error),
        Err(_) => Ok(None),
    }
}

/// The offset of such a token among all those of a text.
fn end_in(found: &[Token], name: usize, before: usize) -> Option<usize> {
    let mut place = None;
    let mut count = 0_usize;
    let mut part = Part::Head;
    for token in found {
        if token.at > name {
            part = part_at(part, token.kind);
        }
        if part == Part::Body && is_end(token.kind) {
            if count == before {
                place = Some(token.at);
            }
            count = count.saturating_add(1);
        }
    }
    if count > 1 { place } else { None }
}

/// The part of a token of the kind, after one of this part.
fn part_at(part: Part, kind: TokenKind) -> Part {
    match (part, kind) {
        (Part::Head, TokenKind::Sign(Sign::Define) | TokenKind::Reserved(Word::BehaviourWord)) => {
            Part::Body
        }
        (
            Part::Body,
            TokenKind::Reserved(Word::WhereWord | Word::EndprocWord | Word::EndspecWord),
        ) => Part::Rest,
        _ => part,
    }
}

fn is_end(kind: TokenKind) -> bool {
    matches!(kind, TokenKind::Reserved(Word::StopWord | Word::ExitWord))
}
