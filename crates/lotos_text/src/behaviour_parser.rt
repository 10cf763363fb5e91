//! The parser of behaviour expressions, by recursive descent through the levels of their operators.
//!
//! `nesting_left` is how many more constructs may be open. A construct that would be one too many is an error at the
//! token that opens it.
ghost use Rattle.std.specs.Prelude.{◌≡◌, ◌<◌, ◌≤◌, ◌∷◌, ℕ, Some, None, length, IfOk, IfErr};
ghost use Rattle.lotos_text.specs.AstOf.{behaviour_view, level_view};
ghost use Rattle.lotos_text.specs.Grammar.{IsOfKind, IsAction, BindsTighter, Level as AnyLevel, prefixing, located_name};
ghost use Rattle.lotos_text.specs.Lexing.{IsTokenIn, AreTokensIn};
ghost use Rattle.lotos_text.specs.Follow.{precedence};
ghost use Rattle.lotos_text.specs.ParserContracts.{DoesNotStartWith, Parses, FailsAtAnyNesting, FailsWithin, StopsAt};
ghost use Rattle.lotos_text.specs.Phrases.{BehaviourPhrase};
ghost use Rattle.lotos_text.specs.OperandStarts as starts;
ghost use Rattle.lotos_text.specs.declared.token.TokenKind.TheVariants.{Identifier, Reserved, Sign as of_sign};
ghost use Rattle.lotos_text.specs.declared.token.Sign.TheVariants.{LeftParenthesis, Semicolon};
ghost use Rattle.lotos_text.specs.declared.token.Word.TheVariants.{HideWord, IWord};

use crate::ast::{Action, Behaviour, Placed};
use crate::ast_builders::{apply_operator, box_behaviour, make_hide, make_prefix};
use crate::operators::{Level, next_tighter, operator_at, parse_operator};
use crate::parse_primitives::{
    ParseError, eat, expect, locate_name, parse_gate_list, parse_names, split_first_token,
};
use crate::token::{Sign, Token, TokenKind, Word};
use std::alloc::Global;

/// A behaviour expression of a level: a hide form, or operands joined by the level's operators.
#[cycle(expressions)]
pub(crate) fn parse_behaviour<'a>(
    alloc: Global,
    text: &[u8],
    nesting_left: usize,
    level: Level,
    tokens: &'a [Token],
) -> Result<(Box<Behaviour>, &'a [Token]), ParseError<'a>>
    requires { AreTokensIn text.now tokens.now }
    ensures parses { IfOk result
        (λ p. Parses (BehaviourPhrase text.now (level_view level) (Some nesting_left))
        tokens.now (behaviour_view p.0.value) p.1.now) }
    ensures rest { IfOk result (λ p. AreTokensIn text.now p.1.now) }
    ensures shorter { IfOk result (λ p. length p.1.now < length tokens.now) }
    ensures fails { IfErr result
        (FailsWithin (BehaviourPhrase text.now (level_view level)) nesting_left tokens.now) }
{
    match eat(tokens, TokenKind::Reserved(Word::HideWord)) {
        Some((word, rest)) => parse_hide(alloc, text, nesting_left, word, rest),
        None => parse_level(alloc, text, nesting_left, level, tokens),
    }
}

/// A hide form, after its first token, the keyword `hide`.
#[cycle(expressions)]
fn parse_hide<'a>(
    alloc: Global,
    text: &[u8],
    nesting_left: usize,
    first: Token,
    tokens: &'a [Token],
) -> Result<(Box<Behaviour>, &'a [Token]), ParseError<'a>>
    requires opens { IsOfKind first (Reserved HideWord) }
    requires in_text { AreTokensIn text.now tokens.now }
    ensures parses { IfOk result (λ p. (level : AnyLevel) →
        Parses (BehaviourPhrase text.now level (Some nesting_left))
        (first ∷ tokens.now) (behaviour_view p.0.value) p.1.now) }
    ensures rest { IfOk result (λ p. AreTokensIn text.now p.1.now) }
    ensures shorter { IfOk result (λ p. length p.1.now < length tokens.now) }
    ensures fails { IfErr result (λ error. (level : AnyLevel) →
        FailsWithin (BehaviourPhrase text.now level) nesting_left (first ∷ tokens.now) error) }
{
    if nesting_left == 0 {
        return Err(ParseError::TooDeep(first));
    }
    let (gates, rest) = parse_names(alloc, text, tokens)?;
    let (_, rest) = expect(rest, TokenKind::Reserved(Word::InWord))?;
    let (body, rest) = parse_behaviour(alloc, text, nesting_left - 1, Level::Enabling, rest)?;
    let whole = make_hide(alloc, gates, body)?;
    Ok((whole, rest))
}

/// Operands joined by the level's operators, or an operand if the level has none; no hide form.
#[cycle(expressions)]
fn parse_level<'a>(
    alloc: Global,
    text: &[u8],
    nesting_left: usize,
    level: Level,
    tokens: &'a [Token],
) -> Result<(Box<Behaviour>, &'a [Token]), ParseError<'a>>
    requires no_hide { DoesNotStartWith (Reserved HideWord) tokens.now }
    requires in_text { AreTokensIn text.now tokens.now }
    ensures parses { IfOk result
        (λ p. Parses (BehaviourPhrase text.now (level_view level) (Some nesting_left))
        tokens.now (behaviour_view p.0.value) p.1.now) }
    ensures rest { IfOk result (λ p. AreTokensIn text.now p.1.now) }
    ensures shorter { IfOk result (λ p. length p.1.now < length tokens.now) }
    ensures fails { IfErr result
        (FailsWithin (BehaviourPhrase text.now (level_view level)) nesting_left tokens.now) }
{
    match next_tighter(level) {
        Some(below) => parse_operation(alloc, text, nesting_left, level, below, tokens),
        None => parse_operand(alloc, text, nesting_left, tokens),
    }
}

/// A left operand of the next tighter level, and, if an operator of the level follows, that operator and its right
/// operand.
#[cycle(expressions)]
fn parse_operation<'a>(
    alloc: Global,
    text: &[u8],
    nesting_left: usize,
    level: Level,
    below: Level,
    tokens: &'a [Token],
) -> Result<(Box<Behaviour>, &'a [Token]), ParseError<'a>>
    requires below { BindsTighter (level_view level) (level_view below) }
    requires no_hide { DoesNotStartWith (Reserved HideWord) tokens.now }
    requires in_text { AreTokensIn text.now tokens.now }
    ensures parses { IfOk result
        (λ p. Parses (BehaviourPhrase text.now (level_view level) (Some nesting_left))
        tokens.now (behaviour_view p.0.value) p.1.now) }
    ensures rest { IfOk result (λ p. AreTokensIn text.now p.1.now) }
    ensures shorter { IfOk result (λ p. length p.1.now < length tokens.now) }
    ensures fails { IfErr result
        (FailsWithin (BehaviourPhrase text.now (level_view level)) nesting_left tokens.now) }
{
    let (left, rest) = parse_level(alloc, text, nesting_left, below, tokens)?;
    let Some((infix, first, after)) = operator_at(rest, level) else {
        return Ok((left, rest));
    };
    if nesting_left == 0 {
        return Err(ParseError::TooDeep(first));
    }
    let (operator, rest) = parse_operator(alloc, text, infix, first, after)?;
    let (right, rest) = parse_behaviour(alloc, text, nesting_left - 1, level, rest)?;
    let whole = apply_operator(alloc, operator, left, right)?;
    Ok((whole, rest))
}

/// An operand: `stop`, `exit`, a behaviour expression in parentheses, a prefix or a call.
#[cycle(expressions)]
fn parse_operand<'a>(
    alloc: Global,
    text: &[u8],
    nesting_left: usize,
    tokens: &'a [Token],
) -> Result<(Box<Behaviour>, &'a [Token]), ParseError<'a>>
    requires no_hide { DoesNotStartWith (Reserved HideWord) tokens.now }
    requires in_text { AreTokensIn text.now tokens.now }
    ensures parses { IfOk result
        (λ p. Parses (BehaviourPhrase text.now prefixing (Some nesting_left))
        tokens.now (behaviour_view p.0.value) p.1.now) }
    ensures rest { IfOk result (λ p. AreTokensIn text.now p.1.now) }
    ensures shorter { IfOk result (λ p. length p.1.now < length tokens.now) }
    ensures fails { IfErr result (FailsWithin (BehaviourPhrase text.now prefixing) nesting_left tokens.now) }
{
    let Some((first, rest)) = split_first_token(tokens) else {
        return Err(ParseError::Unexpected(tokens));
    };
    match operand_start(first.kind) {
        OperandStart::Stop => {
            expect_operand_end(rest)?;
            let whole = box_behaviour(alloc, Behaviour::Stop)?;
            Ok((whole, rest))
        }
        OperandStart::Exit => {
            expect_operand_end(rest)?;
            let whole = box_behaviour(alloc, Behaviour::Exit)?;
            Ok((whole, rest))
        }
        OperandStart::Parenthesis => parse_parenthesized(alloc, text, nesting_left, first, rest),
        OperandStart::Internal => parse_prefix(
            alloc,
            text,
            nesting_left,
            first,
            Action::Internal,
            rest,
        ),
        OperandStart::Name => parse_named(alloc, text, nesting_left, first, rest),
        OperandStart::Nothing => Err(ParseError::Unexpected(tokens)),
    }
}

/// A behaviour expression in parentheses, after its first token, the left parenthesis.
#[cycle(expressions)]
fn parse_parenthesized<'a>(
    alloc: Global,
    text: &[u8],
    nesting_left: usize,
    first: Token,
    tokens: &'a [Token],
) -> Result<(Box<Behaviour>, &'a [Token]), ParseError<'a>>
    requires opens { IsOfKind first (of_sign LeftParenthesis) }
    requires in_text { AreTokensIn text.now tokens.now }
    ensures parses { IfOk result
        (λ p. Parses (BehaviourPhrase text.now prefixing (Some nesting_left))
        (first ∷ tokens.now) (behaviour_view p.0.value) p.1.now) }
    ensures rest { IfOk result (λ p. AreTokensIn text.now p.1.now) }
    ensures shorter { IfOk result (λ p. length p.1.now < length tokens.now) }
    ensures fails { IfErr result
        (FailsWithin (BehaviourPhrase text.now prefixing) nesting_left (first ∷ tokens.now)) }
{
    if nesting_left == 0 {
        return Err(ParseError::TooDeep(first));
    }
    let (inner, rest) = parse_behaviour(alloc, text, nesting_left - 1, Level::Enabling, tokens)?;
    let (_, rest) = expect(rest, TokenKind::Sign(Sign::RightParenthesis))?;
    expect_operand_end(rest)?;
    Ok((inner, rest))
}

/// A prefix or a call, after its first token, a name.
#[cycle(expressions)]
fn parse_named<'a>(
    alloc: Global,
    text: &[u8],
    nesting_left: usize,
    first: Token,
    tokens: &'a [Token],
) -> Result<(Box<Behaviour>, &'a [Token]), ParseError<'a>>
    requires named { IsOfKind first Identifier }
    requires token_in_text { IsTokenIn text.now first }
    requires in_text { AreTokensIn text.now tokens.now }
    ensures parses { IfOk result
        (λ p. Parses (BehaviourPhrase text.now prefixing (Some nesting_left))
        (first ∷ tokens.now) (behaviour_view p.0.value) p.1.now) }
    ensures rest { IfOk result (λ p. AreTokensIn text.now p.1.now) }
    ensures shorter { IfOk result (λ p. length p.1.now ≤ length tokens.now) }
    ensures fails { IfErr result
        (FailsWithin (BehaviourPhrase text.now prefixing) nesting_left (first ∷ tokens.now)) }
{
    let name = locate_name(alloc, text, first)?;
    match eat(tokens, TokenKind::Sign(Sign::Semicolon)) {
        Some(_) => parse_prefix(alloc, text, nesting_left, first, Action::Gate(name), tokens),
        None => parse_call(alloc, text, first, name, tokens),
    }
}

/// A prefix, after its first token, the action.
#[cycle(expressions)]
fn parse_prefix<'a>(
    alloc: Global,
    text: &[u8],
    nesting_left: usize,
    first: Token,
    action: Action,
    tokens: &'a [Token],
) -> Result<(Box<Behaviour>, &'a [Token]), ParseError<'a>>
    requires acts { IsAction text.now first action }
    requires begins { DoesNotStartWith (of_sign Semicolon) tokens.now → IsOfKind first (Reserved IWord) }
    requires in_text { AreTokensIn text.now tokens.now }
    ensures parses { IfOk result
        (λ p. Parses (BehaviourPhrase text.now prefixing (Some nesting_left))
        (first ∷ tokens.now) (behaviour_view p.0.value) p.1.now) }
    ensures rest { IfOk result (λ p. AreTokensIn text.now p.1.now) }
    ensures shorter { IfOk result (λ p. length p.1.now < length tokens.now) }
    ensures fails { IfErr result
        (FailsWithin (BehaviourPhrase text.now prefixing) nesting_left (first ∷ tokens.now)) }
{
    let (semicolon, rest) = expect(tokens, TokenKind::Sign(Sign::Semicolon))?;
    if nesting_left == 0 {
        return Err(ParseError::TooDeep(semicolon));
    }
    let (body, rest) = parse_behaviour(alloc, text, nesting_left - 1, Level::Prefixing, rest)?;
    let whole = make_prefix(alloc, action, body)?;
    Ok((whole, rest))
}

/// A call, after its first token, the name.
fn parse_call<'a>(
    alloc: Global,
    text: &[u8],
    first: Token,
    name: Placed,
    tokens: &'a [Token],
) -> Result<(Box<Behaviour>, &'a [Token]), ParseError<'a>>
    requires named { IsOfKind first Identifier }
    requires placed { name ≡ located_name text.now first }
    requires calls { DoesNotStartWith (of_sign Semicolon) tokens.now }
    requires in_text { AreTokensIn text.now tokens.now }
    ensures parses { IfOk result
        (λ p. (nesting_left : ℕ) →
        Parses (BehaviourPhrase text.now prefixing (Some nesting_left))
        (first ∷ tokens.now) (behaviour_view p.0.value) p.1.now) }
    ensures rest { IfOk result (λ p. AreTokensIn text.now p.1.now) }
    ensures shorter { IfOk result (λ p. length p.1.now ≤ length tokens.now) }
    ensures fails { IfErr result
        (FailsAtAnyNesting (BehaviourPhrase text.now prefixing None) (first ∷ tokens.now)) }
{
    let (gates, rest) = parse_gate_list(alloc, text, tokens)?;
    expect_operand_end(rest)?;
    let whole = box_behaviour(alloc, Behaviour::Call { name, gates })?;
    Ok((whole, rest))
}

/// Succeeds if the operand before the tokens ends there: neither `[` nor `;` may follow one.
fn expect_operand_end<'a>(tokens: &'a [Token]) -> Result<(), ParseError<'a>>
    ensures whole { IfOk result (λ _. precedence tokens.now < 5) }
    ensures fails { IfErr result (λ error. StopsAt tokens.now error × (precedence tokens.now ≡ 5)) }
{
    match eat(tokens, TokenKind::Sign(Sign::LeftBracket)) {
        Some(_) => return Err(ParseError::Unexpected(tokens)),
        None => {}
    }
    match eat(tokens, TokenKind::Sign(Sign::Semicolon)) {
        Some(_) => Err(ParseError::Unexpected(tokens)),
        None => Ok(()),
    }
}

/// What an operand is that starts with a token.
#[derive(Clone, Copy)]
enum OperandStart {
    Stop,
    Exit,
    /// A prefix of the internal action.
    Internal,
    /// A prefix of a gate, or a call.
    Name,
    Parenthesis,
    /// No operand starts with the token.
    Nothing,
}

fn operand_start(kind: TokenKind) -> OperandStart
    ensures { result ≡ starts.operand_start kind }
{
    match kind {
        TokenKind::Identifier => OperandStart::Name,
        TokenKind::Reserved(word) => keyword_start(word),
        TokenKind::Sign(sign) => sign_start(sign),
    }
}

fn keyword_start(word: Word) -> OperandStart
    ensures { result ≡ starts.keyword_start word }
{
    match word {
        Word::StopWord => OperandStart::Stop,
        Word::ExitWord => OperandStart::Exit,
        Word::IWord => OperandStart::Internal,
        _ => OperandStart::Nothing,
    }
}

fn sign_start(sign: Sign) -> OperandStart
    ensures { result ≡ starts.sign_start sign }
{
    match sign {
        Sign::LeftParenthesis => OperandStart::Parenthesis,
        _ => OperandStart::Nothing,
    }
}
