//! Texts of two specifications: the systems of both, and the fault that is found first.
use super::table_texts::{accept_fault_text, assert_text, joined, system_text};
use lotos_check::accept_pair;
use std::alloc::{AllocError, Global};
use std::test::Fail;

/// What is tested, a text, and the systems of its two specifications, or the fault.
const PAIRS: &[(&str, &str, &str)] = &[
    (
        "both are accepted, each with its own gates and processes",
        "specification S [a] : noexit behaviour a; stop endspec
         specification T [b] : noexit behaviour P [b] where process P [x] : noexit := x; P [x] endproc endspec",
        " A: (A; stop) and  B: 0 B; P X noexit (X; 0 X)",
    ),
    (
        "a gate of the first is none of the second",
        "specification S [a] : noexit behaviour a; stop endspec specification T [b] : noexit behaviour a; stop endspec",
        "E21 A 94",
    ),
    (
        "a process of the first is none of the second",
        "specification S : noexit behaviour P where process P : noexit := stop endproc endspec \
         specification T : noexit behaviour P endspec",
        "E22 P 121",
    ),
    (
        "both break a rule: that of the first is found",
        "specification S : noexit behaviour a; stop endspec specification T : noexit behaviour a; a; stop endspec",
        "E21 A 35",
    ),
    (
        "the first breaks a rule, and the second is not spelled",
        "specification S : noexit behaviour a; stop endspec specification T : noexit behaviour stop stop endspec",
        "E04 91",
    ),
    (
        "one specification alone",
        "specification S : noexit behaviour a; stop endspec",
        "E06 50",
    ),
];

#[test]
fn accepts_pairs(rt: HostRuntime) -> Result<(), Fail> {
    for (words, text, expected) in PAIRS {
        let found = pair_answer(rt.alloc(), text)?;
        assert_text(&rt, words, found.as_str(), expected);
    }
    Ok(())
}

/// The systems of the two specifications of a text, with ` and ` between them, or its fault.
fn pair_answer(alloc: Global, text: &str) -> Result<String, AllocError> {
    match accept_pair(alloc, text.as_bytes()) {
        Ok((first, second)) => {
            let first = system_text(alloc, &first.system)?;
            let second = system_text(alloc, &second.system)?;
            joined(alloc, &[first.as_str(), " and ", second.as_str()])
        }
        Err(fault) => accept_fault_text(alloc, &fault),
    }
}
