//! What to do about a fault, in one sentence or two.

use crate::continuations::NAME;
use crate::token_description::Description;
use lotos_check::CheckFault;
use lotos_text::{Functionality, Sign, TextFault, TokenKind};

/// What to do about a fault of the parser. `what` is at its place, where the rest of the text is this one, and `expected`
/// could be there.
pub(crate) fn text_advice(
    fault: &TextFault,
    what: &Description,
    rest: &[u8],
    expected: &[&'static str],
) -> &'static str {
    match fault {
        TextFault::E01(_) => byte_advice(what, rest, expected),
        TextFault::E02(_) => "Close the comment with `*)`; comments do not nest.",
        TextFault::E03 => "Leave out comments, and processes that are not called.",
        TextFault::E04(_) => token_advice(what, expected),
        TextFault::E05(_)
            if matches!(what, Description::Token(token) if token.kind == TokenKind::Sign(Sign::Semicolon)) =>
            {
                "Each `;` opens a construct: divide a long sequence among processes, each of which calls the next."
            }
        TextFault::E05(_) => "Make an inner part a process of its own.",
        TextFault::E06(_) => {
            "Put what is missing at the end: close each parenthesis, each process and the specification."
        }
        TextFault::E07(_) => {
            "Choose another name, or write the behaviour without it: this word of full LOTOS is not read here."
        }
        TextFault::E99(_) => "Allow the program more memory.",
    }
}

/// What to do about bytes with which no token begins. They begin the rest of the text.
fn byte_advice(what: &Description, rest: &[u8], expected: &[&'static str]) -> &'static str {
    match what {
        Description::ByteOrderMark => "Save the text without a byte order mark.",
        Description::Byte(b'=') if expected.contains(&":=") => {
            "Write `:=` after the functionality of a process."
        }
        Description::Byte(b'=') => {
            "Write `:=` in a definition; values and guards of full LOTOS are not read here."
        }
        Description::Byte(b'-') if rest.starts_with(b"->") && expected.contains(&";") => {
            "Write `;` after a gate, as in `a; stop`."
        }
        Description::Byte(b'-') if rest.starts_with(b"->") => {
            "Guards of full LOTOS are not read here: write a choice, with a gate for each case."
        }
        Description::Byte(b'-') => {
            "Write an underscore in a name; a comment is written between `(*` and `*)`."
        }
        Description::Byte(128..) => {
            "Write a name in letters of ASCII, digits and underscores; only comments have other characters."
        }
        Description::Byte(b'0'..=b'9' | b'_') => "Begin the name with a letter.",
        Description::Byte(b'!' | b'?') => {
            "Values of full LOTOS are not read here: have a gate for each value."
        }
        Description::Byte(b'/' | b'#' | b'%') => "Write a comment between `(*` and `*)`.",
        Description::Byte(b'{' | b'}') => {
            "Group behaviours by `(` and `)`, and gates by `[` and `]`."
        }
        Description::Byte(b'+') => "Write `[]` for a choice.",
        Description::Byte(b'&') => {
            "Write `|||` for both side by side, or `|[a]|` for two that meet at the gate `a`."
        }
        Description::Byte(b'*') => "Remove it: no comment is open here, as comments do not nest.",
        Description::Byte(b'>' | b'<') => "Write `>>` for enabling, or `[>` for disabling.",
        Description::Byte(b'.') => "Write `;` after an action, and nothing after the last word.",
        _ => "Remove it, or put it into a comment, `(*` to `*)`.",
    }
}

/// What to do about a token that is not expected.
fn token_advice(what: &Description, expected: &[&'static str]) -> &'static str {
    let Description::Token(token) = what else {
        return "Put what is missing before it, or remove it.";
    };
    match token.kind {
        TokenKind::Identifier => {
            "Correct it if it is misspelt, or put what is missing before it."
        }
        TokenKind::Reserved(_) => {
            if expected.contains(&NAME) {
                "Choose another name if it is meant as one, or put what is missing before it."
            } else {
                "Put what is missing before it, or remove it."
            }
        }
        TokenKind::Sign(Sign::Semicolon) => {
            "Write `;` only after a gate or `i`: remove it, or write `>>` after `exit` or a call."
        }
        TokenKind::Sign(_) => "Put what is missing before it, or remove it.",
    }
}

/// What to do about a gate of the specification that a process does not have.
pub(crate) const HAND_ON: &str =
    "Hand it on: add it to the gates of the process and to those of its calls.";

/// What to do about a gate in the place of a behaviour.
pub(crate) const PUT_SEMICOLON: &str =
    "Put `;` after it, and then what comes next; a name without `;` is a call of a process.";

/// What to do about a call of a process that is not visible.
pub(crate) const MOVE_OUT: &str =
    "Move its definition out, into a `where` that is around the call too, or give the call its right name.";

/// What to do about a call of the specification.
pub(crate) const CALL_A_PROCESS: &str =
    "It is the name of the specification, which is not called: make a process of its behaviour.";

/// What to do about a specification that breaks a static rule.
pub(crate) fn check_advice(fault: &CheckFault) -> &'static str {
    match fault {
        CheckFault::E20(_) => "Rename one of the two gates, here and in the behaviour.",
        CheckFault::E21(_) => {
            "Correct the name, or add the gate to the definition and to its calls: a process sees its own gates alone."
        }
        CheckFault::E22(_) => {
            "Correct the name, or define the process in a `where` around the call; if it is a gate, put `;` after it."
        }
        CheckFault::E23 { .. } => "Give as many gates as the definition has, in its order.",
        CheckFault::E24(_) => "Rename one of the two processes, here and in its calls.",
        CheckFault::E25 { declared, .. } => functionality_advice(*declared),
        CheckFault::E26(_) => "End the behaviour to the left of `>>` with `exit`.",
        CheckFault::E27 { .. } => {
            "Put an action before one of the calls, as in `a; P[a]`, or the call to the right of `>>`."
        }
        CheckFault::E99(_) => "Allow the program more memory.",
    }
}

/// What to do about a behaviour that has the other functionality.
fn functionality_advice(declared: Functionality) -> &'static str {
    match declared {
        Functionality::Exit => {
            "Declare it `noexit`, or end the behaviour with `exit`; a call has what its process declares."
        }
        Functionality::NoExit => {
            "Declare it `exit`, or end the behaviour with `stop`; a call has what its process declares."
        }
    }
}
