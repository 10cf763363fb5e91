//! Texts of two specifications: what they spell, and the numbers and the offsets of their faults.
use super::table_texts::{assert_fault, fault_of_pair, joined, pair_text};
use lotos_text::TextFault;
use std::alloc::{AllocError, Global};
use std::process::Abort;
use std::test::Fail;

/// A specification of 47 bytes.
const WHOLE: &str = "specification S : noexit behaviour stop endspec";

/// What is tested, a text, and the two definitions that it spells.
const SPELLED: &[(&str, &str, &str)] = &[
    (
        "the second after a line end",
        "specification S : noexit behaviour stop endspec\nspecification T [a] : exit behaviour a; exit endspec",
        "S@14 noexit := stop and T@62[A@65] exit := (A@85; exit)",
    ),
    (
        "the same name twice, with a process of the first",
        "specification S [a] : noexit behaviour P [a] where process P [b] : noexit := b; stop endproc endspec (* the \
         second *) specification S : exit behaviour exit endspec",
        "S@14[A@17] noexit := P@39[A@42] {P@59[B@62] noexit := (B@77; stop)} and S@132 exit := exit",
    ),
];

#[test]
fn spells_two_specifications(rt: HostRuntime) -> Result<(), Fail> {
    for (words, text, expected) in SPELLED {
        let found = spelled_text(rt.alloc(), text)?;
        assert_eq!(rt; found.as_str(), *expected, "{}", words);
    }
    Ok(())
}

/// What a text spells, or "a fault".
fn spelled_text(alloc: Global, text: &str) -> Result<String, AllocError> {
    match pair_text(alloc, text.as_bytes()) {
        Ok(found) => Ok(found),
        Err(TextFault::E99(error)) => Err(error),
        Err(_) => joined(alloc, &["a fault"]),
    }
}

/// What is wrong, what stands before `WHOLE`, what stands after it, and the number and the offset of the fault.
type Row = (&'static str, &'static str, &'static str, u8, usize);

const FAULTS: &[Row] = &[
    ("one specification alone", "", "", 6, 47),
    ("one specification and blanks", "", " \n", 6, 49),
    (
        "the second ends too early",
        "",
        " specification T : noexit behaviour",
        6,
        82,
    ),
    (
        "a process between",
        "",
        " process P : noexit := stop endproc",
        4,
        48,
    ),
    ("a word of full LOTOS between", "", " type T is", 7, 48),
    (
        "a fault of the first",
        "specification T : noexit behaviour stop stop endspec ",
        "",
        4,
        40,
    ),
    (
        "a fault of the second",
        "",
        " specification T : noexit behaviour stop stop endspec",
        4,
        88,
    ),
    (
        "a third one",
        "specification T : noexit behaviour stop endspec ",
        " specification",
        4,
        96,
    ),
    ("a comment that stays open", "", " (* specification", 2, 48),
    (
        "a byte that begins no token, after a fault",
        "stop ",
        " ~",
        1,
        53,
    ),
];

#[test]
fn rejects_what_is_not_two(rt: HostRuntime) -> Result<(), Fail> {
    for (words, front, rest, number, at) in FAULTS {
        let found = joined_fault(rt.alloc(), front, rest)?;
        assert_fault(&rt, words, found, (*number, *at));
    }
    Ok(())
}

/// The fault of the text with `WHOLE` between these parts.
fn joined_fault(alloc: Global, front: &str, rest: &str) -> Result<(u8, usize), AllocError> {
    let text = joined(alloc, &[front, WHOLE, rest])?;
    Ok(fault_of_pair(alloc, text.as_bytes()))
}

/// A specification whose behaviour is in so many parentheses.
fn nested(alloc: Global, parentheses: usize) -> Result<String, AllocError> {
    let mut text = joined(alloc, &["specification S : noexit behaviour "])?;
    for _ in 0..parentheses {
        text.push_str("(")?;
    }
    text.push_str("stop")?;
    for _ in 0..parentheses {
        text.push_str(")")?;
    }
    text.push_str(" endspec ")?;
    Ok(text)
}

/// Each of the two may nest 200 constructs, whatever the other nests.
#[test]
fn counts_the_nesting_of_each(rt: HostRuntime) -> Result<(), Fail> {
    let alloc = rt.alloc();
    let deep = nested(alloc, 200)?;
    let deeper = nested(alloc, 201)?;
    let both = joined(alloc, &[deep.as_str(), deep.as_str()])?;
    let first = joined(alloc, &[deeper.as_str(), deep.as_str()])?;
    let second = joined(alloc, &[deep.as_str(), deeper.as_str()])?;
    assert_fault(
        &rt,
        "both nest 200",
        fault_of_pair(alloc, both.as_bytes()),
        (0, 0),
    );
    assert_fault(
        &rt,
        "the first nests 201",
        fault_of_pair(alloc, first.as_bytes()),
        (5, 235),
    );
    // the first has 35 bytes, 200 parentheses, `stop`, 200 more and ` endspec `: 448
    assert_fault(
        &rt,
        "the second nests 201",
        fault_of_pair(alloc, second.as_bytes()),
        (5, 683),
    );
    Ok(())
}
