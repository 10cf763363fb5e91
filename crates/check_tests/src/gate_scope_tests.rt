//! Gates that are in scope at a point of a body, and gates that are not.
use super::table_texts::{assert_answer, assert_message, joined, message};
use lotos_text::TextFault;
use std::alloc::{AllocError, Global};
use std::process::Abort;
use std::test::Fail;

/// What is tested, a behaviour expression with gates `a` and `b`, and the message and the offset of its fault; no
/// message and no offset if it is accepted.
const SCOPES: &[(&str, &str, &str, Option<usize>)] = &[
    (
        "the gates that were added",
        "a; b; stop [> stop |[b, a]| stop",
        "",
        None,
    ),
    (
        "the gate that was not added",
        "a; b; stop [> stop |[b, c]| stop",
        "E21 gate C is not declared",
        Some(65),
    ),
    (
        "both lists",
        "hide b, c in a; b; stop |[b, c]| stop",
        "",
        None,
    ),
    (
        "the first list still",
        "(hide b, c in stop) [> stop |[a, b]| stop",
        "",
        None,
    ),
    (
        "the second list no more",
        "(hide b, c in stop) [> stop |[b, c]| stop",
        "E21 gate C is not declared",
        Some(74),
    ),
];

fn behaviour_text(alloc: Global, behaviour: &str) -> Result<String, AllocError> {
    joined(
        alloc,
        &[
            "specification s[a, b] : noexit behaviour ",
            behaviour,
            " endspec",
        ],
    )
}

/// Asserts the message and the offset of the fault of a behaviour expression with gates `a` and `b`.
fn assert_behaviour(
    rt: &impl Abort,
    alloc: Global,
    words: &str,
    behaviour: &str,
    expected: &str,
    at: Option<usize>,
) -> Result<(), TextFault> {
    let text = behaviour_text(alloc, behaviour)?;
    assert_message(rt, alloc, words, text.as_str(), expected, at)
}

/// A list of formal gates, and a hide form for one of them and another gate: what is in scope inside the form and after
/// it.
#[test]
fn knows_the_gates_that_were_added(rt: HostRuntime) -> Result<(), Fail> {
    for (words, behaviour, expected, at) in SCOPES {
        assert_behaviour(&rt, rt.alloc(), words, behaviour, expected, *at)?;
    }
    Ok(())
}

/// What is tested, a specification, and its system.
const SYSTEMS: &[(&str, &str, &str)] = &[
    (
        "a gate that is declared and hidden counts once, and so does one that is listed twice: three are left of the list",
        "specification s[a, b] : noexit behaviour hide b, c in stop |[a, b, b, c]| stop endspec",
        " A B: (hide B C in (stop |[ A B C ]| stop))",
    ),
    (
        "the gates of a hide form, in order and without repeats",
        "specification s : noexit behaviour hide b, ab, a_, A, b, a1 in stop endspec",
        ": (hide A A1 AB A_ B in stop)",
    ),
    (
        "the gate of a prefix, and those that are known",
        "specification s[a, b] : noexit behaviour a; stop |[b, a]| b; stop endspec",
        " A B: ((A; stop) |[ A B ]| (B; stop))",
    ),
];

#[test]
fn orders_gates_without_repeats(rt: HostRuntime) -> Result<(), Fail> {
    for (words, text, expected) in SYSTEMS {
        assert_answer(&rt, rt.alloc(), words, text, expected)?;
    }
    Ok(())
}

/// Which gate is tested, a behaviour expression with gates `a` and `b`, and the offset of its fault, if it has one.
const SYNCHRONIZATIONS: &[(&str, &str, Option<usize>)] = &[
    ("the gate of the list", "a; stop |[b, c]| c; stop", Some(54)),
    (
        "the gate that is not known",
        "a; stop |[b, a]| c; stop",
        Some(58),
    ),
    ("the gate that is known", "a; stop |[b, a]| b; stop", None),
];

fn fault_offset(alloc: Global, behaviour: &str) -> Result<Option<usize>, TextFault> {
    let text = behaviour_text(alloc, behaviour)?;
    Ok(message(alloc, text.as_str())?.1)
}

#[test]
fn rejects_gates_that_are_not_known(rt: HostRuntime) -> Result<(), Fail> {
    for (words, behaviour, at) in SYNCHRONIZATIONS {
        assert_eq!(rt; fault_offset(rt.alloc(), behaviour)?, *at, "{}", words);
    }
    Ok(())
}
