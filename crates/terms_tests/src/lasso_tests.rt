//! Lassos of steps that never end: worked rows, and a walk along each that is found.
use super::demanded_ends_tests::{NO_LABELS, pattern_set};
use super::end_states_tests::{LIVELOCK, MEETING, SERVER, flag_of, form_after};
use super::ends_comparison::{LOOPS, SETS};
use super::ends_oracle::{LIMIT, steps_of_forms};
use super::gate_names::texts_of;
use super::label_set::LabelSet;
use super::lasso_walk::is_lasso;
use super::recurrence_tests::forms;
use super::term_list::{PrintedStep, TermList};
use super::texts::{assert_holds, assert_number, assert_text, label_text};
use lotos_ends::{EndStates, Lasso};
use lotos_pattern::EndKind;
use lotos_terms::Label;
use std::alloc::{AllocError, Global};
use std::process::Abort;
use std::test::Fail;

/// A row of two labels before a loop of one.
const ROW_AND_LOOP: &str =
    "specification S [a, b, c] : noexit behaviour a; b; P [c] where process P [c] : noexit := c; P [c] endproc endspec";

/// A row of one label before a loop of three, of which one is internal.
const ROW_AND_LONG_LOOP: &str =
    "specification S [a, b, c] : noexit behaviour c; P [a, b] where process P [a, b] : noexit := a; i; b; P [a, b] endproc endspec";

/// A step that comes first and leads to an end, and one that goes on.
const DEAD_END: &str =
    "specification S [a, b] : noexit behaviour P [a, b] where process P [a, b] : noexit := a; stop [] b; P [a, b] endproc endspec";

/// What is tested, a specification, the labels on a way from the start, the kind of end, the names of a set and whether
/// they are left out of it, and the lasso that begins at the form after this way, with the loop in brackets.
type Row = (
    &'static str,
    &'static str,
    &'static [&'static str],
    EndKind,
    &'static [&'static str],
    bool,
    &'static str,
);

/// Found by hand.
const ROWS: &[Row] = &[
    (
        "internal steps for ever",
        LIVELOCK,
        &["A", "B"],
        EndKind::Livelock,
        &[],
        false,
        " [ i ]",
    ),
    (
        "no internal steps for ever",
        LIVELOCK,
        &["A"],
        EndKind::Livelock,
        &["A"],
        false,
        "none",
    ),
    (
        "a loop of a label and an internal step",
        LIVELOCK,
        &[],
        EndKind::Forever,
        &["A"],
        false,
        " [ A i ]",
    ),
    (
        "the same loop from its other form",
        LIVELOCK,
        &["A"],
        EndKind::Forever,
        &["A"],
        false,
        " [ i A ]",
    ),
    (
        "requests without an answer",
        SERVER,
        &["REQ"],
        EndKind::Forever,
        &["RSP"],
        true,
        " [ i NAK REQ ]",
    ),
    (
        "answers without a request",
        SERVER,
        &["REQ"],
        EndKind::Forever,
        &["REQ"],
        true,
        "none",
    ),
    (
        "a loop after a row",
        ROW_AND_LOOP,
        &[],
        EndKind::Forever,
        &["A", "B", "C"],
        false,
        " A B [ C ]",
    ),
    (
        "a loop after a shorter row",
        ROW_AND_LOOP,
        &["A"],
        EndKind::Forever,
        &["A"],
        true,
        " B [ C ]",
    ),
    (
        "a row within the set before a loop outside of it",
        ROW_AND_LOOP,
        &[],
        EndKind::Forever,
        &["A", "B"],
        false,
        "none",
    ),
    (
        "a loop of three after a row",
        ROW_AND_LONG_LOOP,
        &[],
        EndKind::Forever,
        &[],
        true,
        " C [ A i B ]",
    ),
    (
        "a first step that leads to an end",
        DEAD_END,
        &[],
        EndKind::Forever,
        &["A", "B"],
        false,
        " [ B ]",
    ),
    (
        "steps that end",
        MEETING,
        &["A"],
        EndKind::Forever,
        &[],
        true,
        "none",
    ),
];

/// The labels, each after a blank.
fn add_labels(out: &mut String, names: &[String], labels: &[Label]) -> Result<(), AllocError> {
    for label in labels {
        out.push_str(" ")?;
        out.push_str(label_text(names, *label))?;
    }
    Ok(())
}

/// The row and then the loop in brackets, or `none`.
fn lasso_text(
    alloc: Global,
    names: &[String],
    found: &Option<Lasso>,
) -> Result<String, AllocError> {
    match found {
        None => String::from_str(alloc, "none"),
        Some(lasso) => {
            let mut out = String::new(alloc);
            add_labels(&mut out, names, lasso.row.as_slice())?;
            out.push_str(" [")?;
            add_labels(&mut out, names, lasso.turn.as_slice())?;
            out.push_str(" ]")?;
            Ok(out)
        }
    }
}

/// The set whose steps go on for ever, for a kind of end.
fn followed_set(kind: EndKind, set: LabelSet) -> LabelSet {
    match kind {
        EndKind::Livelock => NO_LABELS,
        _ => set,
    }
}

/// The lasso at the form with an index.
fn lasso_at(
    alloc: Global,
    list: &mut TermList,
    ends: &EndStates,
    index: usize,
    set: LabelSet,
) -> Result<Option<Lasso>, Fail> {
    let flags = set.flags(alloc, list.gates())?;
    Ok(list.find_lasso(alloc, ends, index, &flags)?)
}

fn lasso_text_after(
    alloc: Global,
    list: &mut TermList,
    labels: &[&str],
    kind: EndKind,
    set: LabelSet,
) -> Result<String, Fail> {
    let index = form_after(alloc, list, labels)?;
    let demanded = pattern_set(alloc, set)?;
    let ends = list.find_ends(alloc, kind, &demanded, false, LIMIT)?;
    let found = lasso_at(alloc, list, &ends, index, followed_set(kind, set))?;
    let names = texts_of(alloc, list.gates())?;
    Ok(lasso_text(alloc, names.as_slice(), &found)?)
}

/// The lasso that begins at the form after the labels.
fn lasso_after(
    alloc: Global,
    text: &str,
    labels: &[&str],
    kind: EndKind,
    set: LabelSet,
) -> Result<String, Fail> {
    let mut list = TermList::new_normal(alloc, text)?;
    lasso_text_after(alloc, &mut list, labels, kind, set)
}

#[test]
fn lassos_of_worked_rows(rt: HostRuntime) -> Result<(), Fail> {
    for (subject, text, labels, kind, names, is_complement, expected) in ROWS {
        let set = LabelSet {
            names: *names,
            is_complement: *is_complement,
        };
        let found = lasso_after(rt.alloc(), text, labels, *kind, set)?;
        assert_text(&rt, subject, found.as_str(), expected);
    }
    Ok(())
}

/// Whether a lasso is found at the form exactly if it is such an end, and can be followed.
fn is_right_at(
    alloc: Global,
    list: &mut TermList,
    steps: &[Vec<PrintedStep>],
    ends: &EndStates,
    index: usize,
    set: LabelSet,
) -> Result<bool, Fail> {
    let is_end = flag_of(ends, list.term(index)?)?;
    match lasso_at(alloc, list, ends, index, set)? {
        None => Ok(!is_end),
        Some(lasso) => Ok(is_end && is_lasso(alloc, steps, index, set, &lasso)?),
    }
}

/// The number of forms at which a lasso is missed, or found and none.
fn count_wrong_lassos(
    alloc: Global,
    list: &mut TermList,
    steps: &[Vec<PrintedStep>],
    kind: EndKind,
    set: LabelSet,
) -> Result<usize, Fail> {
    let demanded = pattern_set(alloc, set)?;
    let ends = list.find_ends(alloc, kind, &demanded, false, LIMIT)?;
    let mut wrong: usize = 0;
    for index in 0..steps.len() {
        if !is_right_at(alloc, list, steps, &ends, index, followed_set(kind, set))? {
            wrong = wrong.saturating_add(1);
        }
    }
    Ok(wrong)
}

fn count_wrong_in_sets(
    alloc: Global,
    list: &mut TermList,
    steps: &[Vec<PrintedStep>],
) -> Result<usize, Fail> {
    let mut wrong = count_wrong_lassos(alloc, list, steps, EndKind::Livelock, NO_LABELS)?;
    for set in SETS {
        let more = count_wrong_lassos(alloc, list, steps, EndKind::Forever, *set)?;
        wrong = wrong.saturating_add(more);
    }
    Ok(wrong)
}

/// The number of wrong lassos of a specification, for each set.
fn count_wrong_of(alloc: Global, text: &str) -> Result<usize, Fail> {
    let mut list = TermList::new_normal(alloc, text)?;
    count_wrong_of_list(alloc, &mut list)
}

fn count_wrong_of_list(alloc: Global, list: &mut TermList) -> Result<usize, Fail> {
    let steps = steps_of_forms(alloc, list)?;
    count_wrong_in_sets(alloc, list, steps.as_slice())
}

#[test]
fn lassos_of_loops_can_be_followed(rt: HostRuntime) -> Result<(), Fail> {
    for (subject, text) in LOOPS {
        let wrong = count_wrong_of(rt.alloc(), text)?;
        assert_number(&rt, subject, wrong, 0);
    }
    Ok(())
}

#[test]
fn lassos_of_recursions_can_be_followed(rt: HostRuntime) -> Result<(), Fail> {
    for (subject, text, _) in forms() {
        let wrong = count_wrong_of(rt.alloc(), text)?;
        assert_number(&rt, subject, wrong, 0);
    }
    Ok(())
}

/// Without flags no lasso is found at a term that is not reached.
#[test]
fn no_lasso_at_other_terms(rt: HostRuntime) -> Result<(), Fail> {
    let found = lasso_at_other_term(rt.alloc())?;
    assert_holds(&rt, "no lasso at a term that is not reached", !found);
    Ok(())
}

/// Whether a lasso is found at the body of a prefix that is no normal form, though it goes on for ever.
fn lasso_at_other_term(alloc: Global) -> Result<bool, Fail> {
    let mut list = TermList::new_normal(alloc, ROW_AND_LOOP)?;
    let ends = ends_of_all_labels(alloc, &mut list)?;
    list.add_successors(alloc, 0)?;
    list.add_successors(alloc, 1)?;
    let all = LabelSet {
        names: &[],
        is_complement: true,
    };
    let found = lasso_at(alloc, &mut list, &ends, 2, all)?;
    Ok(found.is_some())
}

fn ends_of_all_labels(alloc: Global, list: &mut TermList) -> Result<EndStates, Fail> {
    let demanded = pattern_set(
        alloc,
        LabelSet {
            names: &[],
            is_complement: true,
        },
    )?;
    Ok(list.find_ends(alloc, EndKind::Forever, &demanded, false, LIMIT)?)
}
