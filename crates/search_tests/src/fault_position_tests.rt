//! Texts with the positions of their faults.
use std::test::Fail;
use uses::{Verdict, find_fault};

/// A text, and the line and the column of its fault; none if it is accepted.
const TEXTS: &[(&str, Option<(usize, usize)>)] = &[
    ("specification S [a] : exit behaviour a; exit endspec", None),
    // A byte that begins no token.
    ("specification S [a]\n ?", Some((2, 2))),
    // A comment that is not closed.
    ("(* a\n", Some((1, 1))),
    // A token that is not expected: `;` in place of a behaviour.
    (
        "specification S [a] : exit\nbehaviour\n  ; exit endspec",
        Some((3, 3)),
    ),
    // The text ends too early.
    ("specification S\n", Some((2, 1))),
    // A word of full LOTOS.
    (
        "specification S [a] : exit\nbehaviour choice",
        Some((2, 11)),
    ),
    // A gate that is not declared.
    (
        "specification S [a] : exit behaviour\n\na; b; exit endspec",
        Some((3, 4)),
    ),
    // The left side of `>>` never exits.
    (
        "specification S [a] : exit behaviour\n(a; stop) >>\nexit endspec",
        Some((2, 11)),
    ),
];

fn verdict(wanted: Option<(usize, usize)>) -> Verdict {
    match wanted {
        Some((line, column)) => Verdict::Faulty { line, column },
        None => Verdict::Accepted,
    }
}

#[test]
fn names_the_places_of_faults(rt: HostRuntime) -> Result<(), Fail> {
    for (text, wanted) in TEXTS {
        assert_eq!(rt;
            find_fault(rt.alloc(), text.as_bytes())?,
            verdict(*wanted),
            "{}",
            text
        );
    }
    Ok(())
}
