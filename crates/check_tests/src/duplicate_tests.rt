//! Names that are declared twice, and names that several lists declare once each.
use super::table_texts::assert_message;
use std::test::Fail;

/// What is declared twice, a specification, and the message and the offset of its fault; no message and no offset if it
/// is accepted.
const DUPLICATES: &[(&str, &str, &str, Option<usize>)] = &[
    (
        "two gates",
        "specification s[a, b] : noexit behaviour stop endspec",
        "",
        None,
    ),
    (
        "a gate of the specification",
        "specification s[a, b, A] : noexit behaviour stop endspec",
        "E20 gate A is declared twice",
        Some(22),
    ),
    (
        "a gate of a process",
        "specification s[a] : noexit behaviour stop where process p[b, b] : noexit := stop endproc endspec",
        "E20 gate B is declared twice",
        Some(62),
    ),
    (
        "the gate of the outer list again in an inner one",
        "specification s[a] : noexit behaviour stop where process p[a] : noexit := stop endproc endspec",
        "",
        None,
    ),
    (
        "a process of one where",
        "specification s : noexit behaviour stop where process p : noexit := stop endproc process P : noexit := stop endproc endspec",
        "E24 process P is declared twice",
        Some(89),
    ),
    (
        "the process of the outer where again in an inner one",
        "specification s : noexit behaviour stop where process p : noexit := stop where process p : noexit := stop endproc endproc endspec",
        "",
        None,
    ),
    (
        "a name before what is inside it",
        "specification s : noexit behaviour stop where process p : noexit := stop endproc process p[a, a] : noexit := stop endproc endspec",
        "E24 process P is declared twice",
        Some(89),
    ),
    (
        "what is inside before the next name",
        "specification s : noexit behaviour stop where process p[a, a] : noexit := stop endproc process p : noexit := stop endproc endspec",
        "E20 gate A is declared twice",
        Some(59),
    ),
];

#[test]
fn rejects_the_first_name_that_is_declared_twice(rt: HostRuntime) -> Result<(), Fail> {
    for (words, text, expected, at) in DUPLICATES {
        assert_message(&rt, rt.alloc(), words, text, expected, *at)?;
    }
    Ok(())
}
