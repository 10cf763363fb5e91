//! Covers that were worked out by hand: their lines, bounds, marks, and what observers are told.
use super::cover_run::{
    Answer, CoverQuestion, Kind, add_answer, assert_cover_text, begin_cover, next_answer, run_cover,
};
use super::progress_tests::{NONE, Visits};
use super::set_texts::{
    BRANCHES, HIDDEN_LOOP, HIDDEN_STOP, INACTION, INTERNAL_LOOP, LATE, LINK, MEETING, SAME_FUTURE,
    SAME_PREFIX, SERVER, TWO_ACTIONS, TWO_WAYS,
};
use lotos_suite::CoverSearch;
use std::alloc::Global;
use std::process::Abort;
use std::test::Fail;

/// More normal forms and sets than any of these has.
const ALL: usize = 100;

const INTERNAL_STEP: &str = "specification S : noexit behaviour i; stop endspec";

const INTERNAL_FIRST: &str = "specification S [a] : noexit behaviour i; a; stop endspec";

/// Two sets of normal forms after which the same can be observed.
const TWO_TURNS: &str =
    "specification S [a] : noexit behaviour P [a] where process P [a] : noexit := a; a; P [a] endproc endspec";

/// Two futures that three labels tell apart.
const TOLD_LATE: &str =
    "specification S [a,b] : noexit behaviour a; a; a; stop [] b; a; a; a; stop endspec";

/// A specification, whether internal steps are observed, and its cover.
const COVERS: &[(&str, bool, &str)] = &[
    (HIDDEN_LOOP, false, "A A; A B; end"),
    (HIDDEN_LOOP, true, "A i; A B i; end"),
    (SERVER, false, "REQ NAK; REQ RSP; end"),
    (SERVER, true, "REQ RSP; REQ i NAK; end"),
    (MEETING, false, "A B C exit; end"),
    (MEETING, true, "A i B i C exit; end"),
    (
        LINK,
        false,
        "PUT GET PUT; PUT GET GET PUT; PUT GET GET GET GET; PUT GET GET GET PUT; end",
    ),
    (SAME_PREFIX, false, "A B; A C; end"),
    (HIDDEN_STOP, false, "A B; end"),
    (HIDDEN_STOP, true, "A B; A i; end"),
    (BRANCHES, false, "A; B A; end"),
    (TWO_WAYS, false, "B; A C A; end"),
    (LATE, false, "A; B A A; B A B; end"),
    (TWO_TURNS, false, "A; end"),
    (SAME_FUTURE, false, "A; B; end"),
    (SAME_FUTURE, true, "A; B i; end"),
    (TOLD_LATE, false, "B A; A A A; end"),
];

/// Specifications of which nothing can be observed, and what can if internal steps are.
const SILENT: &[(&str, bool, &str)] = &[
    (INACTION, false, "end"),
    (INTERNAL_STEP, false, "end"),
    (INTERNAL_LOOP, false, "end"),
    (INACTION, true, "end"),
    (INTERNAL_STEP, true, "i; end"),
    (INTERNAL_LOOP, true, "i; end"),
];

/// A specification, the most normal forms of a set, a mark, and the cover.
const TERMS: &[(&str, usize, Option<&str>, &str)] = &[
    (INACTION, 0, None, "over terms <empty>"),
    (INACTION, 1, None, "end"),
    (INTERNAL_FIRST, 1, None, "over terms <empty>"),
    (INTERNAL_FIRST, 2, None, "A; end"),
    (HIDDEN_LOOP, 1, None, "over terms A"),
    (HIDDEN_LOOP, 2, None, "A A; A B; end"),
    (SERVER, 1, None, "over terms REQ"),
    (BRANCHES, 1, None, "over terms B"),
    (BRANCHES, 2, None, "A; B A; end"),
    // The halt is at the same sequence wherever the mark is.
    (BRANCHES, 1, Some("<empty>"), "over terms B"),
    (BRANCHES, 1, Some("A"), "over terms B"),
    (BRANCHES, 1, Some("B A"), "over terms B"),
    (BRANCHES, 1, Some("A A A"), "over terms B"),
];

/// A specification, the most sets, a mark, and the cover.
const STATES: &[(&str, usize, Option<&str>, &str)] = &[
    (INACTION, 0, None, "over states <empty>"),
    (INACTION, 1, None, "end"),
    (INTERNAL_LOOP, 1, None, "end"),
    (TWO_ACTIONS, 0, None, "over states <empty>"),
    (TWO_ACTIONS, 1, None, "over states A"),
    (TWO_ACTIONS, 2, None, "over states A B"),
    (TWO_ACTIONS, 3, None, "A B; end"),
    // The bound counts sets, also of one future.
    (TWO_TURNS, 1, None, "over states A"),
    (TWO_TURNS, 2, None, "A; end"),
    (SAME_FUTURE, 2, None, "over states B"),
    (SAME_FUTURE, 3, None, "A; B; end"),
    (HIDDEN_LOOP, 2, None, "over states A B"),
    (HIDDEN_LOOP, 3, None, "A A; A B; end"),
    (LINK, 4, None, "over states PUT GET GET GET"),
    (
        LINK,
        5,
        Some("PUT GET GET PUT"),
        "PUT GET GET GET GET; PUT GET GET GET PUT; end",
    ),
    // The halt is at the same sequence wherever the mark is.
    (HIDDEN_LOOP, 2, Some("A"), "over states A B"),
    (HIDDEN_LOOP, 2, Some("A A"), "over states A B"),
    (HIDDEN_LOOP, 2, Some("A B"), "over states A B"),
    (HIDDEN_LOOP, 2, Some("C C C"), "over states A B"),
];

/// Whether internal steps are observed, a mark before, between, at or after the lines `A A` and `A B`, or `A i` and
/// `A B i`, and what comes after it.
const MARKS: &[(bool, &str, &str)] = &[
    (false, "<empty>", "A A; A B; end"),
    (false, "A", "A A; A B; end"),
    (false, "exit", "A A; A B; end"),
    (false, "A A", "A B; end"),
    (false, "a a : A i A", "A B; end"),
    (false, "A A1", "A B; end"),
    (false, "A B", "end"),
    (false, "A C", "end"),
    (false, "B A", "end"),
    (false, "A A A", "end"),
    (true, "A exit", "A i; A B i; end"),
    (true, "A i", "A B i; end"),
    (true, "i i", "A B i; end"),
    (true, "A A i", "A B i; end"),
    (true, "A B i", "end"),
    (true, "A i A", "end"),
];

/// A specification, the most sets, and what the first five calls return.
const CALLS: &[(&str, usize, &str)] = &[
    (INACTION, ALL, "end end end end end "),
    (HIDDEN_LOOP, ALL, "A A; A B; end end end "),
    (
        INACTION,
        0,
        "over states <empty> failed failed failed failed ",
    ),
    (
        HIDDEN_LOOP,
        2,
        "over states A B failed failed failed failed ",
    ),
];

/// A specification, whether internal steps are observed, and what the observer is told after each call.
const TOLD: &[(&str, bool, &[Visits])] = &[
    (INACTION, false, &[NONE]),
    (INTERNAL_LOOP, true, &[NONE, NONE]),
    // All are explored before the first line: A and A B.
    (TWO_ACTIONS, false, &[TWO_NEW, TWO_NEW]),
    // A and A B.
    (HIDDEN_LOOP, false, &[TWO_NEW, TWO_NEW, TWO_NEW]),
    (HIDDEN_LOOP, true, &[TWO_NEW, TWO_NEW, TWO_NEW]),
    // PUT, PUT GET, PUT GET GET and PUT GET GET GET.
    (
        LINK,
        false,
        &[FOUR_NEW, FOUR_NEW, FOUR_NEW, FOUR_NEW, FOUR_NEW],
    ),
    // A, of which the set has the future of the first one.
    (TWO_TURNS, false, &[ONE_NEW, ONE_NEW]),
];

/// One new sequence of each length, up to this one.
const ONE_NEW: Visits = Visits {
    count: 1,
    lengths: 1,
    longest: 1,
};

const TWO_NEW: Visits = Visits {
    count: 2,
    lengths: 3,
    longest: 2,
};

const FOUR_NEW: Visits = Visits {
    count: 4,
    lengths: 10,
    longest: 4,
};

/// The whole cover of a specification.
fn whole(text: &str, strong: bool) -> CoverQuestion<'_> {
    CoverQuestion {
        text,
        strong,
        terms: ALL,
        states: ALL,
    }
}

fn assert_run(
    rt: &impl Abort,
    alloc: Global,
    question: CoverQuestion,
    after: Option<&str>,
    expected: &str,
) -> Result<(), Fail> {
    let found = run_cover(alloc, question, after)?;
    assert_cover_text(rt, question, after, &found, expected);
    Ok(())
}

fn assert_whole(rt: &impl Abort, alloc: Global, rows: &[(&str, bool, &str)]) -> Result<(), Fail> {
    for (text, strong, expected) in rows {
        assert_run(rt, alloc, whole(text, *strong), None, expected)?;
    }
    Ok(())
}

#[test]
fn covers_what_can_be_observed(rt: HostRuntime) -> Result<(), Fail> {
    assert_whole(&rt, rt.alloc(), COVERS)
}

#[test]
fn ends_where_nothing_can_be_observed(rt: HostRuntime) -> Result<(), Fail> {
    assert_whole(&rt, rt.alloc(), SILENT)
}

#[test]
fn halts_at_too_many_normal_forms(rt: HostRuntime) -> Result<(), Fail> {
    for (text, terms, mark, expected) in TERMS {
        let question = CoverQuestion {
            terms: *terms,
            ..whole(text, false)
        };
        assert_run(&rt, rt.alloc(), question, *mark, expected)?;
    }
    Ok(())
}

#[test]
fn halts_at_too_many_sets(rt: HostRuntime) -> Result<(), Fail> {
    for (text, states, mark, expected) in STATES {
        let question = CoverQuestion {
            states: *states,
            ..whole(text, false)
        };
        assert_run(&rt, rt.alloc(), question, *mark, expected)?;
    }
    Ok(())
}

#[test]
fn goes_on_after_a_mark(rt: HostRuntime) -> Result<(), Fail> {
    for (strong, mark, expected) in MARKS {
        let question = whole(HIDDEN_LOOP, *strong);
        assert_run(&rt, rt.alloc(), question, Some(*mark), expected)?;
    }
    Ok(())
}

/// What the first five calls return.
fn first_calls(alloc: Global, question: CoverQuestion) -> Result<String, Fail> {
    let mut search = begin_cover(alloc, question, None)?;
    answers_of_calls(alloc, &mut search)
}

fn answers_of_calls(alloc: Global, search: &mut CoverSearch) -> Result<String, Fail> {
    let mut text = String::new(alloc);
    let mut visits = NONE;
    for _ in 0..5 {
        let answer = next_answer(alloc, search, &mut visits)?;
        add_answer(alloc, &mut text, search.gates(), &answer)?;
        add_blank(&mut text, &answer)?;
    }
    Ok(text)
}

/// Appends a blank, unless the answer is a line, which has one.
fn add_blank(text: &mut String, answer: &Answer) -> Result<(), Fail> {
    if !matches!(answer.kind, Kind::Line) {
        text.push_str(" ")?;
    }
    Ok(())
}

#[test]
fn stays_ended_or_failed(rt: HostRuntime) -> Result<(), Fail> {
    for (text, states, expected) in CALLS {
        let question = CoverQuestion {
            states: *states,
            ..whole(text, false)
        };
        let found = first_calls(rt.alloc(), question)?;
        assert_calls(&rt, question, found.as_str(), expected);
    }
    Ok(())
}

fn assert_calls(rt: &impl Abort, question: CoverQuestion, found: &str, expected: &str) {
    assert_eq!(rt;
        found,
        expected,
        "{}, at most {} sets",
        question.text, question.states
    );
}

/// What the observer of a search is told after each of so many calls.
fn told_after(alloc: Global, search: &mut CoverSearch, calls: usize) -> Result<Vec<Visits>, Fail> {
    let mut told = Vec::new(alloc);
    let mut visits = NONE;
    for _ in 0..calls {
        let _ = next_answer(alloc, search, &mut visits)?;
        told.push(visits)?;
    }
    Ok(told)
}

fn told(alloc: Global, question: CoverQuestion, calls: usize) -> Result<Vec<Visits>, Fail> {
    let mut search = begin_cover(alloc, question, None)?;
    told_after(alloc, &mut search, calls)
}

#[test]
fn tells_of_each_new_access_sequence(rt: HostRuntime) -> Result<(), Fail> {
    for (text, strong, expected) in TOLD {
        let question = whole(text, *strong);
        let found = told(rt.alloc(), question, expected.len())?;
        assert_told(&rt, question, found.as_slice(), expected);
    }
    Ok(())
}

fn assert_told(rt: &impl Abort, question: CoverQuestion, found: &[Visits], expected: &[Visits]) {
    assert_eq!(rt;
        found,
        expected,
        "{}, internal steps observed: {}",
        question.text, question.strong
    );
}
