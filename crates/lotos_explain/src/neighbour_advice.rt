//! What to do about a token that is not expected, by the tokens beside it.

use crate::continuations::NAME;
use crate::open_constructs::is_closed_by;
use lotos_text::{Sign, Token, TokenKind, Word};

/// A token that is not expected, and what is beside it.
#[derive(Clone, Copy, Drop)]
pub(crate) struct Neighbours<'a, 'b, 'c> {
    /// The tokens before it.
    pub before: &'a [Token],
    pub token: Token,
    /// The token itself and those after it, with offsets from its own; none if a later one does not lex.
    pub rest: &'b [Token],
    /// The tokens that open the constructs that are open at it, the outermost first.
    pub open: &'c [Token],
}

impl Neighbours<'_, '_, '_> {
    /// The kind of the last token before it.
    fn last_kind(&self) -> Option<TokenKind> {
        match self.before.last() {
            Some(token) => Some(token.kind),
            None => None,
        }
    }

    /// Whether the token after it is this sign.
    fn is_before(&self, sign: Sign) -> bool {
        self.rest
            .get(1)
            .is_some_and(|next| next.kind == TokenKind::Sign(sign))
    }

    /// Whether it is after the end of the specification.
    fn is_after_end(&self) -> bool {
        self.open.is_empty() && self.last_kind() == Some(TokenKind::Reserved(Word::EndspecWord))
    }

    /// Whether it closes no construct that is open.
    fn closes_nothing(&self) -> bool {
        !self
            .open
            .iter()
            .any(|opening| is_closed_by(opening.kind, self.token.kind))
    }

    /// Whether it is after `||` or `|||`.
    fn is_after_bars(&self) -> bool {
        matches!(
            self.last_kind(),
            Some(TokenKind::Sign(Sign::Full | Sign::Interleave))
        )
    }

    /// Whether the two tokens before it are a name and `[]`, with nothing between them.
    fn is_after_empty_list(&self) -> bool {
        match self.before {
            [.., name, list] => {
                name.kind == TokenKind::Identifier
                    && list.kind == TokenKind::Sign(Sign::Choice)
                    && name.end == list.at
            }
            _ => false,
        }
    }
}

/// What to do about the token, if the tokens beside it say so. `expected` could be in its place.
pub(crate) fn advice_by_neighbours(
    near: &Neighbours<'_, '_, '_>,
    expected: &[&'static str],
) -> Option<&'static str> {
    if near.is_after_end() {
        return Some("Remove it: the specification has ended before it.");
    }
    if near.is_after_empty_list() && expected.contains(&"stop") {
        return Some(
            "Remove `[]` before it if it is meant as a list without gates: such a call is a name alone. `[]` is a choice.",
        );
    }
    if let Some(advice) = operand_missing(near, expected) {
        return Some(advice);
    }
    match near.token.kind {
        TokenKind::Identifier => name_advice(near, expected),
        TokenKind::Reserved(word) => word_advice(word, near, expected),
        TokenKind::Sign(sign) => sign_advice(sign, near, expected),
    }
}

/// What to do where a behaviour is missing, before an operator or before what ends one, or a `]`.
fn operand_missing(
    near: &Neighbours<'_, '_, '_>,
    expected: &[&'static str],
) -> Option<&'static str> {
    let kind = near.token.kind;
    if expected.contains(&"]") && kind != TokenKind::Identifier {
        return Some("Put `]` before it, after the last gate of the list.");
    }
    if !expected.contains(&"stop") {
        return None;
    }
    if is_operator(kind) {
        return Some("Remove it, or put a behaviour before it: an operator is between two.");
    }
    if is_end(kind) {
        return Some("Put a behaviour before it, as `stop`, `a; stop` or the call of a process.");
    }
    None
}

/// Whether a token of the kind is an operator between two behaviours.
fn is_operator(kind: TokenKind) -> bool {
    matches!(
        kind,
        TokenKind::Sign(
            Sign::Choice
                | Sign::Full
                | Sign::Interleave
                | Sign::LeftSync
                | Sign::Disable
                | Sign::Enable
                | Sign::Bar
        )
    )
}

/// Whether a token of the kind comes after a whole behaviour.
fn is_end(kind: TokenKind) -> bool {
    matches!(
        kind,
        TokenKind::Reserved(Word::WhereWord | Word::EndprocWord | Word::EndspecWord)
            | TokenKind::Sign(Sign::RightParenthesis)
    )
}

/// What to do about a name.
fn name_advice(near: &Neighbours<'_, '_, '_>, expected: &[&'static str]) -> Option<&'static str> {
    if is_in_head(expected) {
        return Some(BRACKETS);
    }
    let begins = near.is_before(Sign::Semicolon) || near.is_before(Sign::LeftBracket);
    if begins && expected.contains(&"[]") {
        return Some(OPERATOR);
    }
    None
}

/// What to do about a reserved word.
fn word_advice(
    word: Word,
    near: &Neighbours<'_, '_, '_>,
    expected: &[&'static str],
) -> Option<&'static str> {
    match word {
        Word::BehaviourWord => functionality_missing(expected).or(define_missing(expected)),
        Word::ProcessWord if expected.contains(&"where") => {
            Some("Put `where` before the first process.")
        }
        Word::WhereWord if expected.contains(&"process") => {
            Some("Remove it: one `where` has all the processes.")
        }
        Word::EndprocWord if near.closes_nothing() => {
            Some("Remove it: no process is open here.")
        }
        Word::StopWord | Word::ExitWord | Word::HideWord | Word::IWord
            if expected.contains(&"[]") => { Some(OPERATOR) }
        _ => None,
    }
}

/// What to do about a sign.
fn sign_advice(
    sign: Sign,
    near: &Neighbours<'_, '_, '_>,
    expected: &[&'static str],
) -> Option<&'static str> {
    match sign {
        Sign::Define if expected.contains(&"behaviour") => {
            Some("Write `behaviour` in a specification; `:=` is for processes.")
        }
        Sign::Define => functionality_missing(expected),
        Sign::Bar if expected.contains(&"|[") => Some(MEETING),
        Sign::Full | Sign::Interleave if expected.contains(&"|") => {
            Some("Write one `|` after the list of gates, as in `|[a]|`.")
        }
        Sign::Choice if expected.contains(&"[") => {
            Some("Remove it: a list without gates is left out.")
        }
        Sign::LeftBracket
            if near.last_kind() == Some(TokenKind::Reserved(Word::HideWord))
                && expected.contains(&NAME) => {
            Some("Write the gates of `hide` without brackets, as in `hide a, b in`.")
        }
        Sign::LeftBracket if near.is_before(Sign::RightBracket) => {
            Some("Write `[]` for a choice, with nothing between its two signs.")
        }
        Sign::LeftBracket if expected.contains(&"|[") || near.is_after_bars() => Some(MEETING),
        Sign::LeftParenthesis if is_in_head(expected) => Some(BRACKETS),
        Sign::LeftParenthesis if expected.contains(&"[]") => Some(OPERATOR),
        Sign::RightParenthesis if near.closes_nothing() => {
            Some("Remove it, or put `(` where the group begins: no `(` is open here.")
        }
        Sign::Comma if expected.contains(&";") => {
            Some("Write `;` after a gate that is an action; `,` is for lists of gates.")
        }
        _ => None,
    }
}

/// What to do where the functionality of a process or of the specification is missing, with its colon or without.
fn functionality_missing(expected: &[&'static str]) -> Option<&'static str> {
    if expected.contains(&":") {
        return Some("Put `: noexit` before it, or `: exit` if the behaviour can end with `exit`.");
    }
    if expected.contains(&"noexit") {
        return Some("Put `noexit` before it, or `exit` if the behaviour can end with `exit`.");
    }
    None
}

/// What to do where `behaviour` is in the place of `:=`.
fn define_missing(expected: &[&'static str]) -> Option<&'static str> {
    if expected.contains(&":=") {
        return Some("Write `:=` in a process; `behaviour` is for the specification.");
    }
    None
}

/// Whether the words and signs could be after the name of a process or of the specification.
fn is_in_head(expected: &[&'static str]) -> bool {
    expected.contains(&"[") && expected.contains(&":")
}

const MEETING: &str =
    "Write the gates at which both sides meet between `|[` and `]|`, as in `|[a, b]|`, or `|||` if there are none.";

const BRACKETS: &str = "Write the gates between `[` and `]`, with `,` between them.";

const OPERATOR: &str =
    "Put an operator before it: `[]` for a choice, `|||` for both side by side, `>>` for one after the other.";
