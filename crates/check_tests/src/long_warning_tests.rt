//! Warnings about long specifications, which are counted.
ghost use Rattle.std.specs.Prelude.{IfOk};
ghost use Rattle.lotos_text.specs.AstOf.{definition_view};
ghost use Rattle.lotos_check.specs.Acceptance.{IsAccepted};
ghost use Rattle.lotos_check.specs.CheckedView.{system_of};

use super::table_texts::joined;
use lotos_check::{AcceptFault, AcceptedText, accept};
use lotos_warn::{Side, Warning, warnings};
use std::alloc::{AllocError, Global};
use std::test::Fail;

/// A piece of text with each of the numbers after it, the pieces separated.
fn numbered(
    alloc: Global,
    piece: &str,
    separator: &str,
    count: usize,
) -> Result<String, AllocError> {
    let mut text = String::new(alloc);
    for number in 0..count {
        if number > 0 {
            text.push_str(separator)?;
        }
        text.push_str(piece)?;
        text.push_str(number.to_string(alloc)?.as_str())?;
    }
    Ok(text)
}

/// One hundred actions, by the gates from this number on, and then `stop`.
fn add_actions(alloc: Global, text: &mut String, first: usize) -> Result<(), AllocError> {
    for number in 0..100usize {
        text.push_str("a")?;
        text.push_str(
            (first.saturating_add(number) % GATES)
                .to_string(alloc)?
                .as_str(),
        )?;
        text.push_str("; ")?;
    }
    text.push_str("stop")
}

/// How many gates the long text has.
const GATES: usize = 3000;

/// A choice of thirty sequences of one hundred actions, in parentheses.
fn add_choice(alloc: Global, text: &mut String, first: usize) -> Result<(), AllocError> {
    text.push_str("(")?;
    for number in 0..30usize {
        if number > 0 {
            text.push_str(" [] ")?;
        }
        add_actions(alloc, text, first.saturating_add(100 * number))?;
    }
    text.push_str(")")
}

/// A behaviour of 30,000 actions by all gates: a choice of ten choices.
fn long_body(alloc: Global) -> Result<String, AllocError> {
    let mut text = String::new(alloc);
    for number in 0..10usize {
        if number > 0 {
            text.push_str(" [] ")?;
        }
        add_choice(alloc, &mut text, 3000 * number)?;
    }
    Ok(text)
}

/// A specification with 3,000 gates in a list: the left side has 30,000 actions and offers each, the right side offers
/// none. So it can do nothing.
fn long_text(alloc: Global) -> Result<String, AllocError> {
    let gates = numbered(alloc, "a", ",", GATES)?;
    let body = long_body(alloc)?;
    joined(
        alloc,
        &[
            "specification S[",
            gates.as_str(),
            "] : noexit behaviour (",
            body.as_str(),
            ") |[",
            gates.as_str(),
            "]| stop endspec",
        ],
    )
}

/// How many of the warnings are about the right side.
fn count_right(found: &[Warning]) -> usize {
    let mut count = 0usize;
    for warning in found {
        if is_right(warning) {
            count = count.saturating_add(1);
        }
    }
    count
}

fn is_right(warning: &Warning) -> bool {
    matches!(
        warning,
        Warning::UnofferedGate {
            side: Side::Right,
            ..
        }
    )
}

/// How many warnings a specification has, and how many of these are about the right side.
fn warning_counts(alloc: Global, text: &str) -> Result<(usize, usize), AllocError> {
    let answer = accept(alloc, text.as_bytes());
    counts_of_answer(alloc, &answer)
}

fn counts_of_answer(
    alloc: Global,
    answer: &Result<AcceptedText, AcceptFault>,
) -> Result<(usize, usize), AllocError>
    requires { IfOk answer.now (λ it.
        IsAccepted (definition_view it.specification.whole) (system_of it.system)) }
{
    match answer {
        Ok(accepted) => counts_of(alloc, accepted),
        Err(_) => Ok((0, 0)),
    }
}

fn counts_of(alloc: Global, accepted: &AcceptedText) -> Result<(usize, usize), AllocError>
    requires { IsAccepted (definition_view accepted.now.specification.whole) (system_of accepted.now.system) }
{
    let found = warnings(alloc, &accepted.specification, &accepted.system)?;
    Ok((found.as_slice().len(), count_right(found.as_slice())))
}

#[test]
fn warns_about_each_gate_of_a_long_text(rt: HostRuntime) -> Result<(), Fail> {
    let text = long_text(rt.alloc())?;
    let (all, right) = warning_counts(rt.alloc(), text.as_str())?;
    assert_eq!(rt; all, GATES + 1);
    assert_eq!(rt; right, GATES);
    Ok(())
}

/// A specification with a name of 100,000 bytes and 20,000 gates, none of which is used, and a list with one gate 20,000
/// times, around which both sides can do nothing.
fn long_name_text(alloc: Global) -> Result<String, AllocError> {
    let name = repeated(alloc, "s", 100000)?;
    let gates = numbered(alloc, "a", ",", 20000)?;
    let list = repeated(alloc, "a0,", 20000)?;
    joined(
        alloc,
        &[
            "specification ",
            name.as_str(),
            "[",
            gates.as_str(),
            "] : noexit behaviour stop |[",
            list.as_str(),
            "a0]| stop endspec",
        ],
    )
}

fn repeated(alloc: Global, piece: &str, count: usize) -> Result<String, AllocError> {
    let mut text = String::new(alloc);
    for _ in 0..count {
        text.push_str(piece)?;
    }
    Ok(text)
}

#[test]
fn warns_about_many_gates_of_a_long_name(rt: HostRuntime) -> Result<(), Fail> {
    let text = long_name_text(rt.alloc())?;
    let (all, right) = warning_counts(rt.alloc(), text.as_str())?;
    assert_eq!(rt; all, 20002);
    assert_eq!(rt; right, 1);
    Ok(())
}

/// How many lists are around the call.
const LISTS: usize = 190;

/// A specification with a call that has 20,000 gates inside 190 compositions, each of which has one gate in its list
/// and `stop` on its left side.
fn nested_text(alloc: Global) -> Result<String, AllocError> {
    let gates = numbered(alloc, "a", ",", 20000)?;
    let lists = lists(alloc)?;
    joined(
        alloc,
        &[
            "specification S[",
            gates.as_str(),
            "] : noexit behaviour ",
            lists.as_str(),
            "P[",
            gates.as_str(),
            "] where process P[",
            gates.as_str(),
            "] : noexit := i; P[",
            gates.as_str(),
            "] endproc endspec",
        ],
    )
}

/// What stands before the call.
fn lists(alloc: Global) -> Result<String, AllocError> {
    let mut text = String::new(alloc);
    for _ in 0..LISTS {
        text.push_str("stop |[a0]| ")?;
    }
    Ok(text)
}

#[test]
fn warns_about_lists_around_a_call_with_many_gates(rt: HostRuntime) -> Result<(), Fail> {
    let text = nested_text(rt.alloc())?;
    let (all, right) = warning_counts(rt.alloc(), text.as_str())?;
    assert_eq!(rt; all, LISTS);
    assert_eq!(rt; right, 0);
    Ok(())
}
