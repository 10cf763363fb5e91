//! The lines that explain a fault of the parser. Errors of the writer are ignored, and what there is no memory for is left out.

use crate::advice::text_advice;
use crate::expectations::expected_tokens;
use crate::open_constructs::closing_of;
use crate::shown_text::{ByteText, Position, TokenText, WordList, show_line};
use crate::slips::{Slip, slip_at};
use crate::token_description::{Description, describe_token};
use lotos_text::{Sign, TEXT_LIMIT, TextFault, Token, TokenKind};
use std::alloc::{AllocError, Global};
use std::io::Write;

/// The most bytes before a fault at whose place completions are tried: each trial parses all of them.
const EXPECTED_LIMIT: usize = 1 << 16;

/// Explains a fault of the parser in a text: the line of its place, what is there, what could be there, and what to do.
///
/// The text of E03 is not looked at.
pub fn explain_text_fault<E: Write>(alloc: Global, text: &[u8], fault: &TextFault, err: &mut E) {
    let Some(at) = fault.at() else {
        let _ = writeln!(
            err,
            "  {}",
            text_advice(fault, &Description::Nothing, &[], &[])
        );
        return;
    };
    show_line(text, at, err);
    if explain_token(alloc, text, fault, at, err).is_err() {
        let _ = writeln!(err, "  There is no memory to say more.");
    }
}

/// Writes what is at the offset, what could be there, and what to do.
fn explain_token<E: Write>(
    alloc: Global,
    text: &[u8],
    fault: &TextFault,
    at: usize,
    err: &mut E,
) -> Result<(), AllocError> {
    let what = description_of(alloc, text, at)?;
    let expected = expected_at(alloc, text, fault, at)?;
    let slip = match fault {
        TextFault::E07(_) => None,
        _ => slip_at(alloc, text, at, &what, expected.as_slice())?,
    };
    report_description(text, &what, err);
    if !expected.is_empty() && !matches!(slip, Some(Slip::Semicolon(_) | Slip::Comma(_))) {
        let words = WordList(expected.as_slice());
        let _ = writeln!(err, "  could be here, among others:{words}");
    }
    let rest = text.get(at..).unwrap_or_default();
    let advice = text_advice(fault, &what, rest, expected.as_slice());
    report_slip(text, &what, slip, advice, err);
    Ok(())
}

/// Writes what may be wrong at the place, and what to do: about that, or else what the advice says.
fn report_slip<E: Write>(
    text: &[u8],
    what: &Description,
    slip: Option<Slip>,
    advice: &str,
    err: &mut E,
) {
    match slip {
        Some(Slip::Word(word)) => {
            let _ = writeln!(
                err,
                "  Did you mean `{word}`? If not, put what is missing before it."
            );
        }
        Some(Slip::Semicolon(name)) => report_semicolon(text, what, name, err),
        Some(Slip::Comma(name)) => {
            let name = TokenText(text, name);
            let _ = writeln!(err, "  a `,` may be missing between {name} and it");
            let _ = writeln!(err, "  Put `,` between the gates of a list.");
        }
        Some(Slip::Advice(sentence)) => {
            let _ = writeln!(err, "  {sentence}");
        }
        Some(Slip::Missing(word)) => {
            let _ = writeln!(err, "  Put `{word}` before it.");
        }
        Some(Slip::Unclosed { opening, name }) => {
            report_unclosed(text, what, opening, name, err);
            let _ = writeln!(err, "  {advice}");
        }
        None => {
            let _ = writeln!(err, "  {advice}");
        }
    }
}

/// Writes that a `;` may be missing after the name. A `(` that follows the name at once may begin the gates of a call.
fn report_semicolon<E: Write>(text: &[u8], what: &Description, name: Token, err: &mut E) {
    let is_list = matches!(
        what,
        Description::Token(token)
            if token.kind == TokenKind::Sign(Sign::LeftParenthesis) && token.at == name.end
    );
    let name = TokenText(text, name);
    let _ = writeln!(err, "  a `;` may be missing between {name} and it");
    let _ = if is_list {
        writeln!(
            err,
            "  Put `;` after {name} if it is a gate; write the gates of a process between `[` and `]`."
        )
    } else {
        writeln!(
            err,
            "  Put `;` after {name} if it is a gate, or an operator as `[]` if it is a process."
        )
    };
}

/// Writes where the construct began that is open at the place. A process and the specification have a name.
fn report_unclosed<E: Write>(
    text: &[u8],
    what: &Description,
    opening: Token,
    name: Option<Token>,
    err: &mut E,
) {
    let place = Position(text, opening.at);
    let before = if *what == Description::End {
        ""
    } else {
        " before it"
    };
    let closing = closing_of(opening.kind);
    let opening = TokenText(text, opening);
    let _ = match name {
        Some(name) => {
            let name = TokenText(text, name);
            writeln!(
                err,
                "  {opening} {name}, which begins at {place}, has no `{closing}`{before}"
            )
        }
        None => writeln!(err, "  {opening} at {place} is not closed{before}"),
    };
}

/// What is at the offset; of a text that is too long nothing.
fn description_of(alloc: Global, text: &[u8], at: usize) -> Result<Description, AllocError> {
    if text.len() > TEXT_LIMIT {
        return Ok(Description::Nothing);
    }
    describe_token(alloc, text, at)
}

/// What could be at the offset, if the fault is a token that is not there or should not be, and not too far from the
/// beginning.
fn expected_at(
    alloc: Global,
    text: &[u8],
    fault: &TextFault,
    at: usize,
) -> Result<Vec<&'static str>, AllocError> {
    let is_of_tokens = matches!(
        fault,
        TextFault::E01(_) | TextFault::E04(_) | TextFault::E06(_) | TextFault::E07(_)
    );
    if is_of_tokens && at <= text.len() && at <= EXPECTED_LIMIT {
        expected_tokens(alloc, text, at)
    } else {
        Ok(Vec::new(alloc))
    }
}

fn report_description<E: Write>(text: &[u8], what: &Description, err: &mut E) {
    let _ = match what {
        Description::Token(token) => {
            writeln!(
                err,
                "  {} {}",
                TokenText(text, *token),
                kind_text(token.kind)
            )
        }
        Description::Comment => writeln!(err, "  a comment that is not closed"),
        Description::ByteOrderMark => writeln!(err, "  a byte order mark"),
        Description::Byte(byte) => writeln!(
            err,
            "  {} begins no word and no sign",
            ByteText(*byte)
        ),
        Description::End => writeln!(err, "  the text ends here"),
        Description::Nothing => Ok(()),
    };
}

fn kind_text(kind: TokenKind) -> &'static str {
    match kind {
        TokenKind::Identifier => "is an identifier",
        TokenKind::Reserved(_) => "is a reserved word",
        TokenKind::Sign(_) => "is a sign",
    }
}
