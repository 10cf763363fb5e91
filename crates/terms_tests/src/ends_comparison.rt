//! What can still come, against the oracle.
use super::end_states_tests::exceed_bound_in;
use super::ends_oracle::{LIMIT, coming, ending, steps_of_forms};
use super::label_set::LabelSet;
use super::normal_step_tests::rows;
use super::oracle_comparison::specifications;
use super::recurrence_tests::forms;
use super::term_list::{PrintedStep, TermList};
use super::term_list_error::TermListError;
use super::texts::{assert_holds, assert_number};
use lotos_ends::EndStates;
use lotos_terms::Term;
use std::alloc::Global;
use std::process::Abort;
use std::test::Fail;

/// Sets of labels, with the internal action and without it.
pub const SETS: &[LabelSet] = &[
    LabelSet {
        names: &[],
        is_complement: false,
    },
    LabelSet {
        names: &["A"],
        is_complement: false,
    },
    LabelSet {
        names: &["B", "exit"],
        is_complement: false,
    },
    LabelSet {
        names: &["i"],
        is_complement: false,
    },
    LabelSet {
        names: &[],
        is_complement: true,
    },
    LabelSet {
        names: &["i"],
        is_complement: true,
    },
    LabelSet {
        names: &["A", "i"],
        is_complement: true,
    },
    LabelSet {
        names: &["B"],
        is_complement: true,
    },
    LabelSet {
        names: &["exit", "i"],
        is_complement: true,
    },
];

/// What is tested, and a specification in which some rows of steps end and others do not.
pub const LOOPS: &[(&str, &str)] = &[
    (
        "internal steps for ever",
        "specification S : noexit behaviour P where process P : noexit := i; P endproc endspec",
    ),
    (
        "internal steps for ever, or a termination",
        "specification S [a] : exit behaviour a; P where process P : exit := i; P [] exit endproc endspec",
    ),
    (
        "a loop that can be left, to internal steps for ever",
        "specification S [a,b] : noexit behaviour hide h in P[a,b,h] where process P [a,b,h] : noexit := a; (h; P[a,b,h] [] b; Q[h]) endproc process Q [h] : noexit := h; Q[h] endproc endspec",
    ),
    (
        "a loop of three labels, one of them after an internal step",
        "specification S [a,b,c] : noexit behaviour P[a,b,c] where process P [a,b,c] : noexit := a; (b; P[a,b,c] [] i; c; P[a,b,c]) endproc endspec",
    ),
    (
        "a loop of five labels",
        "specification S [a,b,c,d,e] : noexit behaviour P[a,b,c,d,e] where process P [a,b,c,d,e] : noexit := a; c; b; d; e; P[a,b,c,d,e] endproc endspec",
    ),
    (
        "a loop after a row, and a loop before it",
        "specification S [a,b,c] : noexit behaviour P[a,b,c] where process P [a,b,c] : noexit := a; P[a,b,c] [] b; c; a; Q[c] endproc process Q [c] : noexit := c; c; Q[c] endproc endspec",
    ),
    (
        "loops in loops",
        "specification S [a,b,c] : noexit behaviour P[a,b,c] where process P [a,b,c] : noexit := a; Q[a,b,c] [] i; stop endproc process Q [a,b,c] : noexit := b; Q[a,b,c] [] c; P[a,b,c] [] i; R[a] endproc process R [a] : noexit := a; R[a] endproc endspec",
    ),
    (
        "two ways to the same forms, one of them internal",
        "specification S [a,b] : noexit behaviour i; i; P[a,b] [] a; i; P[b,a] where process P [x,y] : noexit := x; x; stop [] y; P[x,y] endproc endspec",
    ),
    (
        "loops beside each other, one of them hidden",
        "specification S [a,b,c] : noexit behaviour hide c in (P[a,b] ||| P[c,b]) where process P [x,y] : noexit := x; P[x,y] [] y; stop endproc endspec",
    ),
    (
        "loops that meet, until one side stops",
        "specification S [a,b,c] : noexit behaviour P[a,b] |[a]| Q[a,c] where process P [x,y] : noexit := x; y; P[x,y] endproc process Q [x,y] : noexit := x; Q[x,y] [] y; stop endproc endspec",
    ),
    (
        "loops that meet and can no more after two rounds",
        "specification S [a,b] : noexit behaviour P[a,b] |[a]| a; a; stop where process P [x,y] : noexit := x; P[x,y] [] y; i; P[x,y] endproc endspec",
    ),
    (
        "a loop that is disabled, then a row that is enabled",
        "specification S [a,b,c] : exit behaviour (P[a] [> b; exit) >> i; c; exit where process P [x] : exit := x; P[x] [] i; exit endproc endspec",
    ),
    (
        "a termination after every step, and one that never comes",
        "specification S [a,b] : exit behaviour P[a] ||| (b; exit [] b; Q[a]) where process P [x] : exit := x; P[x] [] exit endproc process Q [x] : exit := x; Q[x] endproc endspec",
    ),
    (
        "a hidden loop under a loop that is seen",
        "specification S [a,b] : noexit behaviour hide b in P[a,b] where process P [x,y] : noexit := x; P[y,x] [] y; stop endproc endspec",
    ),
];

/// The number of forms whose flags are not these.
pub fn count_wrong(
    list: &TermList,
    found: &EndStates,
    expected: &[bool],
) -> Result<usize, TermListError> {
    let mut wrong: usize = 0;
    for (index, flag) in expected.iter().enumerate() {
        if found.flag(list.term(index)?) != Some(*flag) {
            wrong = wrong.saturating_add(1);
        }
    }
    Ok(wrong)
}

/// The number of forms of which it is found, other than by the oracle, whether a label of the set can come.
fn count_wrong_coming(
    alloc: Global,
    list: &mut TermList,
    forms: &[Vec<PrintedStep>],
    set: LabelSet,
) -> Result<usize, Fail> {
    let flags = set.flags(alloc, list.gates())?;
    let found = list.find_coming(alloc, &flags, LIMIT)?;
    let expected = coming(alloc, forms, set, true)?;
    Ok(count_wrong(list, &found, expected.as_slice())?)
}

/// The number of forms of which it is found, other than by the oracle, whether rows within the set end.
fn count_wrong_ending(
    alloc: Global,
    list: &mut TermList,
    forms: &[Vec<PrintedStep>],
    set: LabelSet,
) -> Result<usize, Fail> {
    let flags = set.flags(alloc, list.gates())?;
    let found = list.find_ending(alloc, flags, LIMIT)?;
    let expected = ending(alloc, forms, set)?;
    Ok(count_wrong(list, &found, expected.as_slice())?)
}

/// Asserts for each set that all forms have the flags that the oracle finds, or, if there are more forms than the limit,
/// that this is found. Returns whether there are no more.
fn assert_flags(
    rt: &impl Abort,
    alloc: Global,
    subject: &str,
    list: &mut TermList,
) -> Result<bool, Fail> {
    let forms = steps_of_forms(alloc, list)?;
    if list.count() > forms.len() {
        let (are_too_many, _) = exceed_bound_in(alloc, list, LIMIT)?;
        assert_holds(rt, subject, are_too_many);
        return Ok(false);
    }
    assert_all_flags(rt, alloc, subject, list, forms.as_slice())?;
    Ok(true)
}

fn assert_all_flags(
    rt: &impl Abort,
    alloc: Global,
    subject: &str,
    list: &mut TermList,
    forms: &[Vec<PrintedStep>],
) -> Result<(), Fail> {
    for (number, set) in SETS.iter().enumerate() {
        let wrong = count_wrong_coming(alloc, list, forms, *set)?;
        assert_none(rt, subject, "what can come", number, wrong);
        let wrong = count_wrong_ending(alloc, list, forms, *set)?;
        assert_none(rt, subject, "what ends", number, wrong);
    }
    Ok(())
}

fn assert_none(rt: &impl Abort, subject: &str, words: &str, number: usize, wrong: usize) {
    assert_eq!(rt; wrong, 0, "{}: {} with set {}", subject, words, number);
}

/// The same of a specification.
fn compare(rt: &impl Abort, alloc: Global, subject: &str, text: &str) -> Result<bool, Fail> {
    let mut list = TermList::new_normal(alloc, text)?;
    assert_flags(rt, alloc, subject, &mut list)
}

#[test]
fn ends_of_loops_by_the_definition(rt: HostRuntime) -> Result<(), Fail> {
    for (subject, text) in LOOPS {
        let is_all = compare(&rt, rt.alloc(), subject, text)?;
        assert_holds(&rt, subject, is_all);
    }
    Ok(())
}

#[test]
fn ends_of_recursions_by_the_definition(rt: HostRuntime) -> Result<(), Fail> {
    for (subject, text, _) in forms() {
        let is_all = compare(&rt, rt.alloc(), subject, text)?;
        assert_holds(&rt, subject, is_all);
    }
    Ok(())
}

/// One of these specifications reaches forms without end: the process that hides calls itself twice, beside each other.
#[test]
fn ends_of_operators_by_the_definition(rt: HostRuntime) -> Result<(), Fail> {
    let mut endless: usize = 0;
    for (subject, text, _) in rows() {
        if !compare(&rt, rt.alloc(), subject, text)? {
            endless = endless.saturating_add(1);
        }
    }
    assert_number(&rt, "specifications with forms without end", endless, 1);
    Ok(())
}

#[test]
fn ends_without_recursion_by_the_definition(rt: HostRuntime) -> Result<(), Fail> {
    for (subject, text) in specifications() {
        let is_all = compare(&rt, rt.alloc(), subject, text)?;
        assert_holds(&rt, subject, is_all);
    }
    Ok(())
}

/// Whether the term is one of the first ones of the list.
fn is_among_first(list: &TermList, count: usize, term: Term) -> Result<bool, TermListError> {
    for index in 0..count {
        if list.term(index)? == term {
            return Ok(true);
        }
    }
    Ok(false)
}

/// Of the terms after the first ones: how many are not among them, and how many of these have a flag.
fn count_others(
    list: &TermList,
    count: usize,
    found: &EndStates,
) -> Result<(usize, usize), TermListError> {
    let mut others: usize = 0;
    let mut flagged: usize = 0;
    for index in count..list.count() {
        let term = list.term(index)?;
        if !is_among_first(list, count, term)? {
            others = others.saturating_add(1);
            if found.flag(term).is_some() {
                flagged = flagged.saturating_add(1);
            }
        }
    }
    Ok((others, flagged))
}

/// The same of the terms to which the steps of all normal forms lead. They are others if they are no normal forms.
fn count_others_after_steps(alloc: Global, list: &mut TermList) -> Result<(usize, usize), Fail> {
    let count = steps_of_forms(alloc, list)?.len();
    for index in 0..count {
        list.add_successors(alloc, index)?;
    }
    let flags = SETS[0].flags(alloc, list.gates())?;
    let found = list.find_coming(alloc, &flags, LIMIT)?;
    Ok(count_others(list, count, &found)?)
}

fn others_of(alloc: Global, text: &str) -> Result<(usize, usize), Fail> {
    let mut list = TermList::new_normal(alloc, text)?;
    count_others_after_steps(alloc, &mut list)
}

#[test]
fn terms_that_are_not_reached_have_no_flag(rt: HostRuntime) -> Result<(), Fail> {
    let mut all: usize = 0;
    for (subject, text, _) in forms() {
        let (others, flagged) = others_of(rt.alloc(), text)?;
        assert_number(&rt, subject, flagged, 0);
        all = all.saturating_add(others);
    }
    assert!(rt; all > 0, "terms that are no normal forms");
    Ok(())
}
