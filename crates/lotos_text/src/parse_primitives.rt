//! Parsers of the phrases without nesting: single tokens, names and lists of names.
//!
//! A parser takes the remaining tokens and returns what it parsed and the tokens after it, or where it failed.
ghost use Rattle.std.specs.Prelude.{◌≡◌, [], ◌∷◌, alloc_error, IfOk, IfErr, IfSome, IfNone, MatchOption};
ghost use Rattle.lotos_text.specs.Grammar.{IsOfKind, located_name};
ghost use Rattle.lotos_text.specs.Lexing.{IsTokenIn, AreTokensIn};
ghost use Rattle.lotos_text.specs.ParserContracts.{DoesNotStartWith, Parses, FailsAtAnyNesting, FailsAtToken};
ghost use Rattle.lotos_text.specs.Phrases.{OneToken, NameList, OptionalGates, FunctionalityPhrase};
ghost use Rattle.lotos_text.specs.declared.token.TokenKind.TheVariants.{Identifier};
ghost use Rattle.lotos_text.specs.declared.parse_primitives.ParseError.TheVariants.{Memory};

use crate::ast::{Functionality, Placed};
use crate::name::Name;
use crate::token::{Sign, Token, TokenKind, Word};
use std::alloc::{AllocError, AllocFailed, Global};

/// Why a parser failed.
#[derive(Drop)]
pub(crate) enum ParseError<'a> {
    /// The first of these tokens is unexpected; if there is none, the end of the text is.
    Unexpected(&'a [Token]),
    /// This token opens a construct where no more may be open.
    TooDeep(Token),
    Memory(AllocError),
}

impl<'a> From<AllocError> for ParseError<'a> {
    ghost from_gives = { λ x e. e ≡ Memory x };

    fn from(error: AllocError) -> ParseError<'a> {
        ParseError::Memory(error)
    }
}

impl<'a, T: Drop> From<AllocFailed<T>> for ParseError<'a> {
    ghost from_gives = { λ _ e. e ≡ Memory alloc_error };

    fn from(_error: AllocFailed<T>) -> ParseError<'a> {
        ParseError::Memory(AllocError)
    }
}

/// Names in brackets, or none if there is no bracket.
pub(crate) fn parse_gate_list<'a>(
    alloc: Global,
    text: &[u8],
    tokens: &'a [Token],
) -> Result<(Vec<Placed>, &'a [Token]), ParseError<'a>>
    requires { AreTokensIn text.now tokens.now }
    ensures parses { IfOk result (λ p. Parses (OptionalGates text.now) tokens.now p.0.items p.1.now) }
    ensures rest { IfOk result (λ p. AreTokensIn text.now p.1.now) }
    ensures fails { IfErr result (FailsAtAnyNesting (OptionalGates text.now) tokens.now) }
{
    let Some((_, inside)) = eat(tokens, TokenKind::Sign(Sign::LeftBracket)) else {
        return Ok((Vec::new(alloc), tokens));
    };
    let (gates, rest) = parse_names(alloc, text, inside)?;
    let (_, rest) = expect(rest, TokenKind::Sign(Sign::RightBracket))?;
    Ok((gates, rest))
}

/// One or more names, separated by commas.
pub(crate) fn parse_names<'a>(
    alloc: Global,
    text: &[u8],
    tokens: &'a [Token],
) -> Result<(Vec<Placed>, &'a [Token]), ParseError<'a>>
    requires { AreTokensIn text.now tokens.now }
    ensures parses { IfOk result (λ p. Parses (NameList text.now) tokens.now p.0.items p.1.now) }
    ensures rest { IfOk result (λ p. AreTokensIn text.now p.1.now) }
    ensures fails { IfErr result (FailsAtAnyNesting (NameList text.now) tokens.now) }
{
    let mut found = Vec::new(alloc);
    let mut rest = tokens;
    loop {
        let (first, remainder) = expect(rest, TokenKind::Identifier)?;
        let name = locate_name(alloc, text, first)?;
        found.push(name)?;
        let Some((_, after)) = eat(remainder, TokenKind::Sign(Sign::Comma)) else {
            return Ok((found, remainder));
        };
        rest = after;
    }
}

/// A colon and a functionality.
pub(crate) fn parse_functionality<'a>(
    tokens: &'a [Token],
) -> Result<(Functionality, &'a [Token]), ParseError<'a>>
    ensures parses { IfOk result (λ p. Parses FunctionalityPhrase tokens.now p.0 p.1.now) }
    ensures fails { IfErr result (FailsAtToken FunctionalityPhrase tokens.now) }
{
    let (_, rest) = expect(tokens, TokenKind::Sign(Sign::Colon))?;
    if let Some((_, after)) = eat(rest, TokenKind::Reserved(Word::ExitWord)) {
        return Ok((Functionality::Exit, after));
    }
    let (_, after) = expect(rest, TokenKind::Reserved(Word::NoexitWord))?;
    Ok((Functionality::NoExit, after))
}

/// The name that an identifier spells.
pub(crate) fn locate_name(alloc: Global, text: &[u8], token: Token) -> Result<Placed, AllocError>
    requires token_in_text { IsTokenIn text.now token }
    requires named { IsOfKind token Identifier }
    ensures { IfOk result (λ p. p ≡ located_name text.now token) }
{
    let name = Name::from_word(alloc, &text[token.at..token.end])?;
    Ok(Placed { name, at: token.at })
}

/// Takes the first token, which must be of the kind, and returns it with the tokens after it.
pub(crate) fn expect<'a>(
    tokens: &'a [Token],
    kind: TokenKind,
) -> Result<(Token, &'a [Token]), ParseError<'a>>
    ensures parses { IfOk result (λ p. (tokens.now ≡ p.0 ∷ p.1.now) × IsOfKind p.0 kind) }
    ensures fails { IfErr result (FailsAtToken (OneToken kind) tokens.now) }
{
    match eat(tokens, kind) {
        Some(found) => Ok(found),
        None => Err(ParseError::Unexpected(tokens)),
    }
}

/// Takes the first token if it is of the kind, and returns it with the tokens after it.
pub(crate) fn eat(tokens: &[Token], kind: TokenKind) -> Option<(Token, &[Token])>
    ensures some { IfSome result (λ p. (tokens.now ≡ p.0 ∷ p.1.now) × IsOfKind p.0 kind) }
    ensures none { IfNone result (DoesNotStartWith kind tokens.now) }
{
    match tokens {
        [first, rest @ ..] if first.kind == kind => Some((*first, rest)),
        _ => None,
    }
}

/// The first token, and the tokens after it.
pub(crate) fn split_first_token(tokens: &[Token]) -> Option<(Token, &[Token])>
    ensures { MatchOption result (tokens.now ≡ []) (λ p. tokens.now ≡ p.0 ∷ p.1.now) }
{
    match tokens {
        [first, rest @ ..] => Some((*first, rest)),
        [] => None,
    }
}
