//! The binary operators of behaviour expressions, and their levels.
ghost use Rattle.std.specs.Prelude.{◌≡◌, ◌≤◌, ◌∷◌, Some, length, IfOk, IfErr, IfSome, IfNone, MatchOption, MatchBool};
ghost use Rattle.lotos_text.specs.AstOf.{level_view, operator_view};
ghost use Rattle.lotos_text.specs.Grammar.{BindsTighter, prefixing};
ghost use Rattle.lotos_text.specs.Lexing.{AreTokensIn};
ghost use Rattle.lotos_text.specs.Follow.{precedence, level_precedence};
ghost use Rattle.lotos_text.specs.ParserContracts.{Parses, FailsAtAnyNesting};
ghost use Rattle.lotos_text.specs.Phrases.{OneOperator, SyncList};
ghost use Rattle.lotos_text.specs.OperandStarts as starts;

use crate::ast::{Placed, SyncSet};
use crate::ast_builders::BinaryOperator;
use crate::parse_primitives::{ParseError, eat, expect, parse_names, split_first_token};
use crate::token::{Sign, Token, TokenKind};
use std::alloc::Global;

/// A level of behaviour expressions, from the loosest to the tightest: that of some binary operators, or `Prefixing`,
/// which has none.
#[derive(Clone, Copy)]
pub(crate) enum Level {
    Enabling,
    Disabling,
    Parallel,
    Choosing,
    Prefixing,
}

/// The next tighter level, which is that of the left operands of this level's operators; `None` for `Prefixing`.
pub(crate) fn next_tighter(level: Level) -> Option<Level>
    ensures { MatchOption result (level_view level ≡ prefixing)
        (λ m. BindsTighter (level_view level) (level_view m)) }
{
    match level {
        Level::Enabling => Some(Level::Disabling),
        Level::Disabling => Some(Level::Parallel),
        Level::Parallel => Some(Level::Choosing),
        Level::Choosing => Some(Level::Prefixing),
        Level::Prefixing => None,
    }
}

/// The sign that a binary operator begins with.
#[derive(Clone, Copy)]
pub(crate) enum Infix {
    Enable,
    Disable,
    Interleave,
    Full,
    /// `|[`, which is followed by the gates of the operator.
    Sync,
    Choice,
}

fn infix_of(kind: TokenKind) -> Option<Infix>
    ensures { result ≡ starts.infix_of kind }
{
    match kind {
        TokenKind::Sign(Sign::Enable) => Some(Infix::Enable),
        TokenKind::Sign(Sign::Disable) => Some(Infix::Disable),
        TokenKind::Sign(Sign::Interleave) => Some(Infix::Interleave),
        TokenKind::Sign(Sign::Full) => Some(Infix::Full),
        TokenKind::Sign(Sign::LeftSync) => Some(Infix::Sync),
        TokenKind::Sign(Sign::Choice) => Some(Infix::Choice),
        _ => None,
    }
}

/// If the tokens start with an operator of the level: its sign, its first token, and the tokens after that one.
pub(crate) fn operator_at(tokens: &[Token], level: Level) -> Option<(Infix, Token, &[Token])>
    ensures some { IfSome result (λ p. (tokens.now ≡ p.1 ∷ p.2.now)
        × (starts.infix_of p.1.kind ≡ Some p.0) × (starts.infix_level p.0 ≡ level_view level)) }
    ensures none { IfNone result (precedence tokens.now ≡ level_precedence (level_view level) →
        level_view level ≡ prefixing) }
{
    let (first, rest) = split_first_token(tokens)?;
    let infix = infix_of(first.kind)?;
    if has_level(infix, level) {
        Some((infix, first, rest))
    } else {
        None
    }
}

fn has_level(kind: Infix, level: Level) -> bool
    ensures { MatchBool result (starts.infix_level kind ≡ level_view level) (starts.infix_level kind
        ≡ level_view level → ⊥) }
{
    match kind {
        Infix::Enable => matches!(level, Level::Enabling),
        Infix::Disable => matches!(level, Level::Disabling),
        Infix::Interleave | Infix::Full | Infix::Sync => matches!(level, Level::Parallel),
        Infix::Choice => matches!(level, Level::Choosing),
    }
}

/// The operator that the first token begins.
pub(crate) fn parse_operator<'a>(
    alloc: Global,
    text: &[u8],
    kind: Infix,
    first: Token,
    tokens: &'a [Token],
) -> Result<(BinaryOperator, &'a [Token]), ParseError<'a>>
    requires begins { starts.infix_of first.kind ≡ Some kind }
    requires in_text { AreTokensIn text.now tokens.now }
    ensures parses { IfOk result
        (λ p. Parses (OneOperator text.now (starts.infix_level kind))
        (first ∷ tokens.now) (operator_view p.0) p.1.now) }
    ensures rest { IfOk result (λ p. AreTokensIn text.now p.1.now) }
    ensures shorter { IfOk result (λ p. length p.1.now ≤ length tokens.now) }
    ensures fails { IfErr result
        (FailsAtAnyNesting (OneOperator text.now (starts.infix_level kind)) (first ∷ tokens.now)) }
{
    match kind {
        Infix::Enable => Ok((BinaryOperator::Enable(first.at), tokens)),
        Infix::Disable => Ok((BinaryOperator::Disable, tokens)),
        Infix::Interleave => {
            let none = Vec::new(alloc);
            Ok((BinaryOperator::Synchronize(SyncSet::Gates(none)), tokens))
        }
        Infix::Full => Ok((BinaryOperator::Synchronize(SyncSet::All), tokens)),
        Infix::Sync => {
            let (gates, rest) = parse_sync_list(alloc, text, tokens)?;
            Ok((BinaryOperator::Synchronize(SyncSet::Gates(gates)), rest))
        }
        Infix::Choice => Ok((BinaryOperator::Choose, tokens)),
    }
}

/// The gates after `|[`, perhaps none, up to and including the `]` and the `|`.
fn parse_sync_list<'a>(
    alloc: Global,
    text: &[u8],
    tokens: &'a [Token],
) -> Result<(Vec<Placed>, &'a [Token]), ParseError<'a>>
    requires { AreTokensIn text.now tokens.now }
    ensures parses { IfOk result (λ p. Parses (SyncList text.now) tokens.now p.0.items p.1.now) }
    ensures rest { IfOk result (λ p. AreTokensIn text.now p.1.now) }
    ensures shorter { IfOk result (λ p. length p.1.now ≤ length tokens.now) }
    ensures fails { IfErr result (FailsAtAnyNesting (SyncList text.now) tokens.now) }
{
    match eat(tokens, TokenKind::Sign(Sign::RightBracket)) {
        Some((_, rest)) => {
            let (_, rest) = expect(rest, TokenKind::Sign(Sign::Bar))?;
            Ok((Vec::new(alloc), rest))
        }
        None => {
            let (gates, rest) = parse_names(alloc, text, tokens)?;
            let (_, rest) = expect(rest, TokenKind::Sign(Sign::RightBracket))?;
            let (_, rest) = expect(rest, TokenKind::Sign(Sign::Bar))?;
            Ok((gates, rest))
        }
    }
}
