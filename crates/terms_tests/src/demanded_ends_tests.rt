//! The ends that a pattern may demand, of each kind: worked rows, the oracle, and the bound on the normal forms.
use super::end_states_tests::{
    COUNTS, LIVELOCK, MEETING, SERVER, are_too_many, flag_of, form_after,
};
use super::ends_comparison::{LOOPS, SETS, count_wrong};
use super::ends_oracle::{LIMIT, coming, ending, negated, refusing, steps_of_forms};
use super::label_set::LabelSet;
use super::recurrence_tests::forms;
use super::term_list::{PrintedStep, TermList};
use super::texts::assert_holds;
use lotos_pattern::EndKind;
use std::alloc::{AllocError, Global};
use std::process::Abort;
use std::test::Fail;

/// All kinds, each with its word, and whether internal steps are observed.
const KINDS: &[(&str, EndKind, bool)] = &[
    ("refuses", EndKind::Refuses, false),
    ("livelock", EndKind::Livelock, false),
    ("forever", EndKind::Forever, false),
    ("never", EndKind::Never, false),
    ("never of observed internal steps", EndKind::Never, true),
];

/// What is tested, a specification, the labels on a way from the start, the kind of end, the names of a set and whether
/// they are left out of it, and whether the form after this way is such an end.
type Row = (
    &'static str,
    &'static str,
    &'static [&'static str],
    EndKind,
    &'static [&'static str],
    bool,
    bool,
);

/// Found by hand.
const ROWS: &[Row] = &[
    (
        "a label that can come at once is not refused",
        LIVELOCK,
        &[],
        EndKind::Refuses,
        &["A"],
        false,
        false,
    ),
    (
        "a label that comes later is refused",
        LIVELOCK,
        &[],
        EndKind::Refuses,
        &["B"],
        false,
        true,
    ),
    (
        "a form with an internal step refuses nothing",
        LIVELOCK,
        &["A", "B"],
        EndKind::Refuses,
        &["A"],
        false,
        false,
    ),
    (
        "an answer is refused after an internal step",
        SERVER,
        &["REQ", "i"],
        EndKind::Refuses,
        &["RSP"],
        false,
        true,
    ),
    (
        "an answer is not refused before it",
        SERVER,
        &["REQ"],
        EndKind::Refuses,
        &["RSP"],
        false,
        false,
    ),
    (
        "all but one label are refused",
        SERVER,
        &["REQ", "i"],
        EndKind::Refuses,
        &["NAK"],
        true,
        true,
    ),
    (
        "a deadlock refuses all labels",
        MEETING,
        &["A", "i", "B", "i", "C", "exit"],
        EndKind::Refuses,
        &[],
        true,
        true,
    ),
    (
        "a termination is not refused",
        MEETING,
        &["A", "i", "B", "i", "C"],
        EndKind::Refuses,
        &["exit"],
        false,
        false,
    ),
    (
        "a loop with a label is no livelock, with this label in the set",
        LIVELOCK,
        &["A"],
        EndKind::Livelock,
        &["A"],
        false,
        false,
    ),
    (
        "internal steps for ever",
        LIVELOCK,
        &["A", "B"],
        EndKind::Livelock,
        &["A"],
        false,
        true,
    ),
    (
        "a loop with a label goes on for ever within it",
        LIVELOCK,
        &["A"],
        EndKind::Forever,
        &["A"],
        false,
        true,
    ),
    (
        "and within all labels",
        LIVELOCK,
        &["A"],
        EndKind::Forever,
        &[],
        true,
        true,
    ),
    (
        "requests without an answer",
        SERVER,
        &["REQ"],
        EndKind::Forever,
        &["RSP"],
        true,
        true,
    ),
    (
        "answers without a request",
        SERVER,
        &["REQ"],
        EndKind::Forever,
        &["REQ"],
        true,
        false,
    ),
    (
        "a label of a loop that is over",
        LIVELOCK,
        &["A", "B"],
        EndKind::Never,
        &["A"],
        false,
        true,
    ),
    (
        "a label of a loop",
        LIVELOCK,
        &["A"],
        EndKind::Never,
        &["A"],
        false,
        false,
    ),
    (
        "no label but internal steps",
        LIVELOCK,
        &["A", "B"],
        EndKind::Never,
        &[],
        true,
        true,
    ),
    (
        "no label but those of a loop that is over, and internal steps",
        LIVELOCK,
        &["A", "B"],
        EndKind::Never,
        &["A"],
        true,
        true,
    ),
    (
        "a label besides internal steps",
        LIVELOCK,
        &["A"],
        EndKind::Never,
        &["A"],
        true,
        false,
    ),
    (
        "no label but the last ones",
        MEETING,
        &["A", "i", "B", "i"],
        EndKind::Never,
        &["C", "exit"],
        true,
        true,
    ),
];

/// Found by hand, with internal steps observed.
const STRONG_ROWS: &[Row] = &[
    (
        "the internal action is one of all labels",
        LIVELOCK,
        &["A", "B"],
        EndKind::Never,
        &[],
        true,
        false,
    ),
    (
        "the internal action is one of the labels other than A",
        LIVELOCK,
        &["A", "B"],
        EndKind::Never,
        &["A"],
        true,
        false,
    ),
    (
        "the internal action by name",
        LIVELOCK,
        &["A", "B"],
        EndKind::Never,
        &["i"],
        false,
        false,
    ),
    (
        "no label but internal steps and the last ones",
        MEETING,
        &["A", "i", "B"],
        EndKind::Never,
        &["C", "exit", "i"],
        true,
        true,
    ),
];

/// The set as patterns have it.
pub fn pattern_set(alloc: Global, set: LabelSet) -> Result<lotos_pattern::LabelSet, AllocError> {
    let mut labels = Vec::new(alloc);
    for name in set.names {
        labels.push(String::from_str(alloc, name)?)?;
    }
    if set.is_complement {
        return Ok(lotos_pattern::LabelSet::Others(labels));
    }
    Ok(lotos_pattern::LabelSet::These(labels))
}

/// Whether the form after the labels is such an end.
fn is_end_after(
    alloc: Global,
    text: &str,
    labels: &[&str],
    demand: (EndKind, bool),
    set: LabelSet,
) -> Result<bool, Fail> {
    let mut list = TermList::new_normal(alloc, text)?;
    is_end_in(alloc, &mut list, labels, demand, set)
}

fn is_end_in(
    alloc: Global,
    list: &mut TermList,
    labels: &[&str],
    demand: (EndKind, bool),
    set: LabelSet,
) -> Result<bool, Fail> {
    let index = form_after(alloc, list, labels)?;
    let form = list.term(index)?;
    let set = pattern_set(alloc, set)?;
    let found = list.find_ends(alloc, demand.0, &set, demand.1, LIMIT)?;
    Ok(flag_of(&found, form)?)
}

fn assert_rows(rt: &impl Abort, alloc: Global, rows: &[Row], strong: bool) -> Result<(), Fail> {
    for (subject, text, labels, kind, names, is_complement, expected) in rows {
        let set = LabelSet {
            names: *names,
            is_complement: *is_complement,
        };
        let found = is_end_after(alloc, text, labels, (*kind, strong), set)?;
        assert_end(rt, subject, found, *expected);
    }
    Ok(())
}

#[test]
fn ends_as_demanded(rt: HostRuntime) -> Result<(), Fail> {
    assert_rows(&rt, rt.alloc(), ROWS, false)
}

#[test]
fn ends_as_demanded_with_internal_steps(rt: HostRuntime) -> Result<(), Fail> {
    assert_rows(&rt, rt.alloc(), STRONG_ROWS, true)
}

fn assert_end(rt: &impl Abort, words: &str, found: bool, expected: bool) {
    assert_eq!(rt; found, expected, "{}", words);
}

/// The labels of no set.
pub const NO_LABELS: LabelSet = LabelSet {
    names: &[],
    is_complement: false,
};

/// For each form, whether it is such an end, by the oracle.
fn ends_by_oracle(
    alloc: Global,
    forms: &[Vec<PrintedStep>],
    demand: (EndKind, bool),
    set: LabelSet,
) -> Result<Vec<bool>, AllocError> {
    match demand.0 {
        EndKind::Refuses => refusing(alloc, forms, set),
        EndKind::Livelock => endless(alloc, forms, NO_LABELS),
        EndKind::Forever => endless(alloc, forms, set),
        EndKind::Never => past(alloc, forms, set, demand.1),
    }
}

fn endless(
    alloc: Global,
    forms: &[Vec<PrintedStep>],
    set: LabelSet,
) -> Result<Vec<bool>, AllocError> {
    let found = ending(alloc, forms, set)?;
    negated(alloc, found.as_slice())
}

fn past(
    alloc: Global,
    forms: &[Vec<PrintedStep>],
    set: LabelSet,
    strong: bool,
) -> Result<Vec<bool>, AllocError> {
    let found = coming(alloc, forms, set, strong)?;
    negated(alloc, found.as_slice())
}

/// The number of forms of which it is found, other than by the oracle, whether they are such ends.
fn count_wrong_ends(
    alloc: Global,
    list: &mut TermList,
    forms: &[Vec<PrintedStep>],
    demand: (EndKind, bool),
    set: LabelSet,
) -> Result<usize, Fail> {
    let demanded = pattern_set(alloc, set)?;
    let found = list.find_ends(alloc, demand.0, &demanded, demand.1, LIMIT)?;
    let expected = ends_by_oracle(alloc, forms, demand, set)?;
    Ok(count_wrong(list, &found, expected.as_slice())?)
}

fn assert_ends_of_kind(
    rt: &impl Abort,
    alloc: Global,
    subject: &str,
    list: &mut TermList,
    forms: &[Vec<PrintedStep>],
    kind: (&str, EndKind, bool),
) -> Result<(), Fail> {
    for (number, set) in SETS.iter().enumerate() {
        let wrong = count_wrong_ends(alloc, list, forms, (kind.1, kind.2), *set)?;
        assert_none(rt, subject, kind.0, number, wrong);
    }
    Ok(())
}

fn assert_none(rt: &impl Abort, subject: &str, word: &str, number: usize, wrong: usize) {
    assert_eq!(rt; wrong, 0, "{}: {} with set {}", subject, word, number);
}

/// Asserts for each kind and each set that all forms of a specification have the flags that the oracle finds.
fn compare(rt: &impl Abort, alloc: Global, subject: &str, text: &str) -> Result<(), Fail> {
    let mut list = TermList::new_normal(alloc, text)?;
    compare_in(rt, alloc, subject, &mut list)
}

fn compare_in(
    rt: &impl Abort,
    alloc: Global,
    subject: &str,
    list: &mut TermList,
) -> Result<(), Fail> {
    let forms = steps_of_forms(alloc, list)?;
    assert_holds(rt, subject, list.count() <= forms.len());
    for kind in KINDS {
        assert_ends_of_kind(rt, alloc, subject, list, forms.as_slice(), *kind)?;
    }
    Ok(())
}

#[test]
fn ends_of_each_kind_by_the_definition(rt: HostRuntime) -> Result<(), Fail> {
    for (subject, text) in LOOPS {
        compare(&rt, rt.alloc(), subject, text)?;
    }
    for (subject, text, _) in forms() {
        compare(&rt, rt.alloc(), subject, text)?;
    }
    Ok(())
}

/// Whether more forms are reached than the bound, as ends of a kind are looked for.
fn exceeds_bound(
    alloc: Global,
    text: &str,
    kind: EndKind,
    strong: bool,
    bound: usize,
) -> Result<bool, Fail> {
    let mut list = TermList::new_normal(alloc, text)?;
    let set = pattern_set(alloc, NO_LABELS)?;
    Ok(are_too_many(list.find_ends(alloc, kind, &set, strong, bound))?)
}

#[test]
fn at_most_as_many_forms_as_the_bound_for_each_kind(rt: HostRuntime) -> Result<(), Fail> {
    for (subject, text, count) in COUNTS {
        for (_, kind, strong) in KINDS {
            let is_over = exceeds_bound(rt.alloc(), text, *kind, *strong, *count)?;
            assert_holds(&rt, subject, !is_over);
            let is_over = exceeds_bound(rt.alloc(), text, *kind, *strong, count.saturating_sub(1))?;
            assert_holds(&rt, subject, is_over);
        }
    }
    Ok(())
}
