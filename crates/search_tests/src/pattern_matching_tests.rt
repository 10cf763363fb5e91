//! Sequences, and whether patterns match them.
use lotos_pattern::{End, PatternFault};
use std::test::Fail;
use uses::matches;

/// A pattern, the labels of a sequence, and the result.
const ANSWERS: &[(&[&str], &[&str], End)] = &[
    (&[], &[], End::Yes),
    (&[], &["A"], End::No),
    (&["a", "exit"], &["A", "exit"], End::Yes),
    (&["a", "exit"], &["A"], End::No),
    (&["a", "exit"], &["A", "exit", "A"], End::No),
    (&["<until>", "b", "a"], &["C", "A", "B", "A"], End::Yes),
    (&["<until>", "b", "a"], &["B", "B", "A"], End::No),
    (&["<while>", "<any>", "b"], &["A", "B", "C", "B"], End::Yes),
    (&["<while>", "<any>"], &["i"], End::No),
    (&["a", "<deadlock>"], &["A"], End::IfRefuses),
    (&["a", "<deadlock>"], &["A", "A"], End::No),
    (&["<until>", "<deadlock>"], &["B", "A"], End::IfRefuses),
];

#[test]
fn recognizes_matching_sequences(rt: HostRuntime) -> Result<(), Fail> {
    for (words, sequence, wanted) in ANSWERS {
        let answer = matches(rt.alloc(), words, sequence)?;
        assert_eq!(rt; answer, *wanted, "{:?} and {:?}", words, sequence);
    }
    Ok(())
}

#[test]
fn rejects_words_that_spell_no_pattern(rt: HostRuntime) {
    let answer = matches(rt.alloc(), &["a", "<until>"], &["A"]);
    assert!(rt;
        matches!(answer, Err(PatternFault::E42(2))),
        "the second word"
    );
}
