//! The warnings about accepted specifications, in a form that fits in tables.
ghost use Rattle.std.specs.Prelude.{IfOk};
ghost use Rattle.lotos_text.specs.AstOf.{definition_view};
ghost use Rattle.lotos_check.specs.Acceptance.{IsAccepted};
ghost use Rattle.lotos_check.specs.CheckedView.{system_of};

use lotos_check::{AcceptFault, AcceptedText, accept};
use lotos_warn::{Warning, warnings};
use std::alloc::{AllocError, Global};
use std::process::Abort;

/// What is tested, a specification, and its warnings: the offset and the text of each, a line for each.
pub type Row = (&'static str, &'static str, &'static str);

/// What is written of a specification that is not accepted.
const NOT_ACCEPTED: &str = "not accepted";

/// The warnings about a specification, a line for each.
pub fn warning_lines(alloc: Global, text: &str) -> Result<String, AllocError> {
    let answer = accept(alloc, text.as_bytes());
    lines_of_answer(alloc, &answer)
}

fn lines_of_answer(
    alloc: Global,
    answer: &Result<AcceptedText, AcceptFault>,
) -> Result<String, AllocError>
    requires { IfOk answer.now (λ it.
        IsAccepted (definition_view it.specification.whole) (system_of it.system)) }
{
    match answer {
        Ok(accepted) => lines_of(alloc, accepted),
        Err(AcceptFault::Memory) => Err(AllocError),
        Err(_) => String::from_str(alloc, NOT_ACCEPTED),
    }
}

fn lines_of(alloc: Global, accepted: &AcceptedText) -> Result<String, AllocError>
    requires { IsAccepted (definition_view accepted.now.specification.whole) (system_of accepted.now.system) }
{
    let mut lines = String::new(alloc);
    let found = warnings(alloc, &accepted.specification, &accepted.system)?;
    for warning in &found {
        add_line(alloc, &mut lines, warning)?;
    }
    Ok(lines)
}

fn add_line(alloc: Global, lines: &mut String, warning: &Warning) -> Result<(), AllocError> {
    lines.push_str(warning.at().to_string(alloc)?.as_str())?;
    lines.push_str(" ")?;
    lines.push_str(warning.to_string(alloc)?.as_str())?;
    lines.push_str("\n")
}

fn assert_row(
    rt: &impl Abort,
    alloc: Global,
    words: &str,
    text: &str,
    expected: &str,
) -> Result<(), AllocError> {
    let lines = warning_lines(alloc, text)?;
    assert!(rt; lines.as_str() == expected, "{words}: {}", lines.as_str());
    Ok(())
}

/// Stops with a row's words and its lines, if these are not what is expected.
pub fn assert_rows(rt: &impl Abort, alloc: Global, rows: &[Row]) -> Result<(), AllocError> {
    for (words, text, expected) in rows {
        assert_row(rt, alloc, words, text, expected)?;
    }
    Ok(())
}
