//! What can still come, in worked rows, and the bound on the normal forms.
use super::label_set::LabelSet;
use super::term_list::TermList;
use super::term_list_error::TermListError;
use super::texts::assert_holds;
use lotos_ends::{EndStates, EndsFault};
use lotos_terms::Term;
use std::alloc::Global;
use std::process::Abort;
use std::test::Fail;

/// A loop by `A` and a hidden step, until `B` comes; then internal steps for ever.
pub const LIVELOCK: &str =
    "specification V [a, b] : noexit behaviour hide h in P [a, b, h] where process P [a, b, h] : noexit := a; (h; P [a, b, h] [] b; Q [h]) endproc process Q [h] : noexit := h; Q [h] endproc endspec";

/// A server that answers each request, or refuses to.
pub const SERVER: &str =
    "specification D [req, rsp, nak] : noexit behaviour S [req, rsp, nak] where process S [req, rsp, nak] : noexit := req; (rsp; S [req, rsp, nak] [] i; nak; S [req, rsp, nak]) endproc endspec";

/// Two sides that meet at a hidden gate, and a label after both.
pub const MEETING: &str =
    "specification G [a, b, c] : exit behaviour hide s in ((a; s; exit) |[s]| (s; b; exit)) >> c; exit endspec";

/// A room that is entered and left by turns.
const ROOM: &str =
    "specification T [win, wout, bell, rin, rout] : noexit behaviour R [win, wout, bell, rin, rout] where process R [win, wout, bell, rin, rout] : noexit := win; bell; rin; rout; wout; R [win, wout, bell, rin, rout] endproc endspec";

/// What is tested, a specification, the labels on a way from the start, a set by names and whether they are left out of
/// it, whether a label of the set can come after this way, and whether each row of steps within the set ends there.
type Row = (
    &'static str,
    &'static str,
    &'static [&'static str],
    &'static [&'static str],
    bool,
    bool,
    bool,
);

/// Found by hand.
const ROWS: &[Row] = &[
    (
        "no label at the start of a loop",
        LIVELOCK,
        &[],
        &[],
        false,
        false,
        true,
    ),
    (
        "no label within a loop",
        LIVELOCK,
        &["A"],
        &[],
        false,
        false,
        true,
    ),
    (
        "internal steps for ever",
        LIVELOCK,
        &["A", "B"],
        &[],
        false,
        false,
        false,
    ),
    (
        "a label of a loop at its start",
        LIVELOCK,
        &[],
        &["A"],
        false,
        true,
        false,
    ),
    (
        "a label of a loop within it",
        LIVELOCK,
        &["A"],
        &["A"],
        false,
        true,
        false,
    ),
    (
        "a label of a loop after one turn",
        LIVELOCK,
        &["A", "i", "A", "i"],
        &["A"],
        false,
        true,
        false,
    ),
    (
        "a label of a loop that is over",
        LIVELOCK,
        &["A", "B"],
        &["A"],
        false,
        false,
        false,
    ),
    (
        "a label that ends a loop",
        LIVELOCK,
        &["A"],
        &["B"],
        false,
        true,
        false,
    ),
    (
        "both labels, and the loop is over",
        LIVELOCK,
        &["A", "B"],
        &["A", "B"],
        false,
        false,
        false,
    ),
    (
        "all labels for ever",
        LIVELOCK,
        &["A"],
        &[],
        true,
        true,
        false,
    ),
    (
        "a server without its answer, at the start",
        SERVER,
        &[],
        &["RSP", "i"],
        true,
        true,
        false,
    ),
    (
        "a server without its answer, after a request",
        SERVER,
        &["REQ"],
        &["RSP", "i"],
        true,
        true,
        false,
    ),
    (
        "an answer, after a request",
        SERVER,
        &["REQ"],
        &["RSP"],
        false,
        true,
        true,
    ),
    (
        "an answer, after a refusal begins",
        SERVER,
        &["REQ", "i"],
        &["RSP"],
        false,
        true,
        true,
    ),
    (
        "requests and answers",
        SERVER,
        &["REQ", "i"],
        &["REQ", "RSP"],
        false,
        true,
        true,
    ),
    (
        "requests and answers, after a refusal",
        SERVER,
        &["REQ", "i", "NAK"],
        &["REQ", "RSP"],
        false,
        true,
        false,
    ),
    (
        "a termination of a server",
        SERVER,
        &[],
        &["exit"],
        false,
        false,
        true,
    ),
    (
        "all but a request",
        SERVER,
        &["REQ"],
        &["REQ", "i"],
        true,
        true,
        true,
    ),
    (
        "a last label, at the start",
        MEETING,
        &[],
        &["C"],
        false,
        true,
        true,
    ),
    (
        "a last label, just before it",
        MEETING,
        &["A", "i", "B", "i"],
        &["C"],
        false,
        true,
        true,
    ),
    (
        "a last label, after it",
        MEETING,
        &["A", "i", "B", "i", "C"],
        &["C"],
        false,
        false,
        true,
    ),
    (
        "a first label, after it",
        MEETING,
        &["A"],
        &["A"],
        false,
        false,
        true,
    ),
    (
        "all labels, at the start of few steps",
        MEETING,
        &[],
        &[],
        true,
        true,
        true,
    ),
    (
        "a termination that comes",
        MEETING,
        &["A", "i", "B", "i", "C"],
        &["exit"],
        false,
        true,
        true,
    ),
    (
        "a termination that has come",
        MEETING,
        &["A", "i", "B", "i", "C", "exit"],
        &["exit"],
        false,
        false,
        true,
    ),
    (
        "all labels, after a termination",
        MEETING,
        &["A", "i", "B", "i", "C", "exit"],
        &[],
        true,
        false,
        true,
    ),
    (
        "all but the labels that are left",
        MEETING,
        &["A", "i", "B", "i"],
        &["C", "exit", "i"],
        true,
        false,
        true,
    ),
    (
        "internal steps, before the last label",
        MEETING,
        &["A"],
        &["i"],
        false,
        true,
        true,
    ),
    (
        "internal steps, when there are none left",
        MEETING,
        &["A", "i", "B", "i"],
        &["i"],
        false,
        false,
        true,
    ),
    (
        "one label of a ring",
        ROOM,
        &["WIN"],
        &["RIN"],
        false,
        true,
        true,
    ),
    (
        "all but one label of a ring",
        ROOM,
        &["WIN"],
        &["RIN", "i"],
        true,
        true,
        true,
    ),
    (
        "all but one label of a ring, after it",
        ROOM,
        &["WIN", "BELL", "RIN"],
        &["RIN", "i"],
        true,
        true,
        true,
    ),
    (
        "all labels of a ring",
        ROOM,
        &["WIN"],
        &["WIN", "WOUT", "BELL", "RIN", "ROUT"],
        false,
        true,
        false,
    ),
    (
        "all but the labels of a ring",
        ROOM,
        &["WIN"],
        &["WIN", "WOUT", "BELL", "RIN", "ROUT"],
        true,
        false,
        true,
    ),
];

/// More normal forms than any specification here reaches.
const LIMIT: usize = 50;

/// The index of the form after the labels, from the first form of the list.
pub fn form_after(
    alloc: Global,
    list: &mut TermList,
    labels: &[&str],
) -> Result<usize, TermListError> {
    let mut index = 0;
    for label in labels {
        index = form_after_step(alloc, list, index, label)?;
    }
    Ok(index)
}

fn form_after_step(
    alloc: Global,
    list: &mut TermList,
    index: usize,
    label: &str,
) -> Result<usize, TermListError> {
    let steps = list.printed_normal_steps(alloc, index)?;
    for step in &steps {
        if step.text.as_str() == label {
            return Ok(step.to);
        }
    }
    Err(TermListError::Index)
}

/// The flag of a form.
pub fn flag_of(found: &EndStates, form: Term) -> Result<bool, TermListError> {
    match found.flag(form) {
        Some(flag) => Ok(flag),
        None => Err(TermListError::Index),
    }
}

fn can_come(alloc: Global, list: &mut TermList, set: LabelSet, form: Term) -> Result<bool, Fail> {
    let flags = set.flags(alloc, list.gates())?;
    let found = list.find_coming(alloc, &flags, LIMIT)?;
    Ok(flag_of(&found, form)?)
}

fn ends(alloc: Global, list: &mut TermList, set: LabelSet, form: Term) -> Result<bool, Fail> {
    let flags = set.flags(alloc, list.gates())?;
    let found = list.find_ending(alloc, flags, LIMIT)?;
    Ok(flag_of(&found, form)?)
}

/// Whether a label of the set can come after these labels, and whether each row of steps within the set ends there.
fn answers(
    alloc: Global,
    text: &str,
    labels: &[&str],
    set: LabelSet,
) -> Result<(bool, bool), Fail> {
    let mut list = TermList::new_normal(alloc, text)?;
    answers_in(alloc, &mut list, labels, set)
}

fn answers_in(
    alloc: Global,
    list: &mut TermList,
    labels: &[&str],
    set: LabelSet,
) -> Result<(bool, bool), Fail> {
    let index = form_after(alloc, list, labels)?;
    let form = list.term(index)?;
    let coming = can_come(alloc, list, set, form)?;
    let ending = ends(alloc, list, set, form)?;
    Ok((coming, ending))
}

#[test]
fn what_can_come_and_what_ends(rt: HostRuntime) -> Result<(), Fail> {
    for (subject, text, labels, names, is_complement, coming, ending) in ROWS {
        let set = LabelSet {
            names: *names,
            is_complement: *is_complement,
        };
        let found = answers(rt.alloc(), text, labels, set)?;
        assert_answers(&rt, subject, found, (*coming, *ending));
    }
    Ok(())
}

fn assert_answers(rt: &impl Abort, words: &str, found: (bool, bool), expected: (bool, bool)) {
    assert_eq!(rt; found, expected, "{}", words);
}

/// What a specification has, it, and the number of its normal forms, counted by hand.
pub const COUNTS: &[(&str, &str, usize)] = &[
    (
        "inaction alone",
        "specification S : noexit behaviour stop endspec",
        1,
    ),
    (
        "one form with one step",
        "specification S [a] : noexit behaviour P[a] where process P [x] : noexit := x; P[x] endproc endspec",
        1,
    ),
    ("a loop of two forms, and one after it", LIVELOCK, 3),
    ("a request, an answer and a refusal", SERVER, 3),
    ("a ring of five", ROOM, 5),
    ("a row of six steps", MEETING, 7),
];

/// Whether more forms are reached than the bound.
pub fn are_too_many(found: Result<EndStates, EndsFault>) -> Result<bool, EndsFault> {
    match found {
        Ok(_) => Ok(false),
        Err(EndsFault::TooManyStates) => Ok(true),
        Err(EndsFault::Memory) => Err(EndsFault::Memory),
    }
}

/// Whether both functions find too many forms, and whether one of them does.
fn exceed_bound(alloc: Global, text: &str, bound: usize) -> Result<(bool, bool), Fail> {
    let mut list = TermList::new_normal(alloc, text)?;
    exceed_bound_in(alloc, &mut list, bound)
}

/// The same of the forms that the first term of a list reaches.
pub fn exceed_bound_in(
    alloc: Global,
    list: &mut TermList,
    bound: usize,
) -> Result<(bool, bool), Fail> {
    let set = LabelSet {
        names: &["A"],
        is_complement: false,
    };
    let flags = set.flags(alloc, list.gates())?;
    let coming = are_too_many(list.find_coming(alloc, &flags, bound))?;
    let ending = are_too_many(list.find_ending(alloc, flags, bound))?;
    Ok((coming && ending, coming || ending))
}

#[test]
fn at_most_as_many_forms_as_the_bound(rt: HostRuntime) -> Result<(), Fail> {
    for (subject, text, count) in COUNTS {
        let (_, is_one) = exceed_bound(rt.alloc(), text, *count)?;
        assert_holds(&rt, subject, !is_one);
        let (are_both, _) = exceed_bound(rt.alloc(), text, count.saturating_sub(1))?;
        assert_holds(&rt, subject, are_both);
    }
    Ok(())
}
