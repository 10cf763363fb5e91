//! Which words and signs could be at an offset.
ghost use Rattle.std.specs.Prelude.{◌≡◌, ◌≤◌, ◌∷◌, ◌++◌, IfOk, length, true};
ghost use Rattle.std.specs.List.{AllByRecursion};
ghost use Rattle.lotos_explain.specs.ExpectedTokens.{CouldBeAt, CouldFollow};

use crate::continuations::{CANDIDATES, Candidate};
use crate::open_constructs::{closing_of, open_constructs_at};
use lotos_text::{TextFault, Token, parse};
use std::alloc::{AllocError, Global};

/// Words and signs that could be at the offset, which is at most the length of the text: with each, some text that
/// begins with the bytes before the offset spells a specification. There may be others. The name `a` stands for every
/// name.
///
/// # Errors
///
/// If an allocation fails.
pub fn expected_tokens(
    alloc: Global,
    text: &[u8],
    at: usize,
) -> Result<Vec<&'static str>, AllocError>
    requires { at ≤ length text.now }
    ensures { IfOk result (λ found. AllByRecursion (λ c. CouldBeAt text.now at c.now) found.items) }
{
    let front = &text[..at];
    let open = open_constructs_at(alloc, text, at)?;
    let mut found = Vec::new(alloc);
    for candidate in CANDIDATES {
        if could_follow(alloc, front, open.as_slice(), candidate)? {
            found.push(candidate.text)?;
        }
    }
    Ok(found)
}

/// Whether one of the candidate's continuations shows that it could come after the front.
fn could_follow(
    alloc: Global,
    front: &[u8],
    open: &[Token],
    candidate: &Candidate,
) -> Result<bool, AllocError>
    ensures { IfOk result (λ yes. yes ≡ true → CouldFollow front.now candidate.now.text.now) }
{
    let left = match (candidate.closes, open.split_last()) {
        (true, Some((_, outer))) => outer,
        _ => open,
    };
    let closing = closings_of(alloc, left)?;
    for continuation in candidate.continuations {
        let more = joined(alloc, continuation.as_bytes(), closing.as_slice())?;
        if is_spelled(alloc, front, candidate.text.as_bytes(), more.as_slice())? {
            return Ok(true);
        }
    }
    Ok(false)
}

/// The closings of the constructs that these tokens open, the innermost first, with a blank before each.
fn closings_of(alloc: Global, open: &[Token]) -> Result<Vec<u8>, AllocError> {
    let mut closing = Vec::new(alloc);
    for token in open.iter().rev() {
        closing.push(b' ')?;
        closing.extend_from_slice(closing_of(token.kind).as_bytes())?;
    }
    Ok(closing)
}

fn joined(alloc: Global, first: &[u8], second: &[u8]) -> Result<Vec<u8>, AllocError> {
    let mut both = Vec::new(alloc);
    both.extend_from_slice(first)?;
    both.extend_from_slice(second)?;
    Ok(both)
}

/// Whether the front, the word and what is more, with a blank before and after the word, spell a specification.
fn is_spelled(alloc: Global, front: &[u8], word: &[u8], more: &[u8]) -> Result<bool, AllocError>
    ensures { IfOk result (λ yes. yes ≡ true → CouldFollow front.now word.now) }
{
    let text = text_with(alloc, front, word, more)?;
    match parse(alloc, text.as_slice()) {
        Ok(_) => Ok(true),
        Err(TextFault::E99(error)) => Err(error),
        Err(_) => Ok(false),
    }
}

/// The front, the word and what is more, with a blank before and after the word.
fn text_with(alloc: Global, front: &[u8], word: &[u8], more: &[u8]) -> Result<Vec<u8>, AllocError>
    ensures { IfOk result (λ text. text.items ≡ front.now ++ 32 ∷ word.now ++ 32 ∷ more.now) }
{
    let mut text = Vec::new(alloc);
    text.extend_from_slice(front)?;
    text.push(b' ')?;
    text.extend_from_slice(word)?;
    text.push(b' ')?;
    text.extend_from_slice(more)?;
    Ok(text)
}
