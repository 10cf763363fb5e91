//! Tables of listings that were worked out by hand.
use super::listing_run::{Extent, Question, assert_listing};
use std::alloc::Global;
use std::process::Abort;
use std::test::Fail;

/// More terms than any prefix here reaches.
const ALL: usize = 1000;

/// The depth, the words of the pattern, and the listing: its items, each with its run if that is not the sequence, and
/// how it ends.
type Plain = (u8, &'static [&'static str], &'static str);

const ACTIONS: &[(&str, &[Plain])] = &[
    (
        "exit behaviour a; b; exit",
        &[
            (3, &["A", "B", "exit"], "A B exit; end"),
            (2, &["A", "B", "exit"], "end"),
        ],
    ),
    ("NoExit BEHAVIOR a (* ; *) ; Stop", &[(1, &["a"], "A; end")]),
    (
        "noexit behaviour stop",
        &[(0, &["<deadlock>"], "<empty>; end")],
    ),
    (
        "noexit behaviour a; stop [] a; b; stop",
        &[(2, &["<any>"], "A; end")],
    ),
    ("noexit behaviour a; stop", &[(5, &[], "<empty>; end")]),
    (
        "noexit behaviour a; b; b; stop",
        &[(3, &["<until>", "B"], "A B; end")],
    ),
];

const INTERNAL: &[(&str, &[Plain])] = &[
    (
        "noexit behaviour i; i; a; stop",
        &[(2, &["A"], "end"), (3, &["A"], "A : i i A; end")],
    ),
    (
        "noexit behaviour i; a; stop [] a; b; stop",
        &[
            (2, &["A"], "A; end"),
            (2, &["A", "<deadlock>"], "A : i A; end"),
        ],
    ),
    (
        "noexit behaviour i; stop",
        &[
            (0, &["<deadlock>"], "end"),
            (1, &["<deadlock>"], "<empty> : i; end"),
        ],
    ),
    (
        "noexit behaviour i; i; a; b; stop [] i; a; b; stop",
        &[
            (2, &["A", "B"], "end"),
            (3, &["A", "B"], "A B : i A B; end"),
            (4, &["A", "B"], "A B : i A B; end"),
        ],
    ),
    (
        "noexit behaviour i; a; stop [] a; i; stop",
        &[
            (2, &["A", "<deadlock>"], "A : A i; end"),
            (2, &["A"], "A; end"),
        ],
    ),
];

const COMPOSITIONS: &[(&str, &[Plain])] = &[
    (
        "noexit behaviour a; stop ||| b; stop",
        &[(2, &["<until>", "<deadlock>"], "A B; B A; end")],
    ),
    (
        "exit behaviour a; exit [> b; stop",
        &[(2, &["<until>", "<deadlock>"], "B; A B; A exit; end")],
    ),
    (
        "exit behaviour exit ||| a; exit",
        &[(2, &["exit"], "end"), (2, &["A", "exit"], "A exit; end")],
    ),
    (
        "noexit behaviour hide a in a; b; stop [] b; stop",
        &[(2, &["B"], "B; end")],
    ),
    (
        "noexit behaviour hide a in b; stop [] a; stop",
        &[(1, &["<any>"], "B; end")],
    ),
    (
        "noexit behaviour a; stop ||| b; stop |[a]| a; b; stop",
        &[(3, &["<until>", "<deadlock>"], "A B; B A; end")],
    ),
];

const CALLS: &[(&str, &[Plain])] = &[
    (
        "noexit behaviour P[a,a] where process P [x,y] : noexit := x; stop |[x]| y; x; stop endproc",
        &[(2, &["<until>", "<deadlock>"], "A A; end")],
    ),
    (
        "noexit behaviour P[a] where process P [x] : noexit := x; exit >> P[x] endproc",
        &[
            (4, &["A", "A", "A"], "end"),
            (5, &["A", "A", "A"], "A A A : A i A i A; end"),
        ],
    ),
    (
        "noexit behaviour P[a]||Q[a] where process P [x] : noexit := x; stop endproc process Q [x] : noexit := x; stop endproc",
        &[(1, &["A"], "A; end")],
    ),
];

const REPETITION: &[(&str, &[Plain])] = &[(
    "noexit behaviour a; b; b; stop",
    &[
        (3, &["A", "<while>", "B"], "A; A B; A B B; end"),
        (3, &["<while>", "<any>"], "<empty>; A; A B; A B B; end"),
        (3, &["<while>", "<any>", "B"], "A B; A B B; end"),
        (2, &["<while>", "A", "<while>", "A", "<any>"], "A; A B; end"),
        (3, &["<while>", "<any>", "<deadlock>"], "A B B; end"),
    ],
)];

const SETS: &[(&str, &[Plain])] = &[(
    "noexit behaviour a; (b; stop [] c; stop [] i; a; stop)",
    &[
        (3, &["A", "B,C"], "A B; A C; end"),
        (3, &["A", "c,C,b"], "A B; A C; end"),
        (3, &["A", "<not>", "B,C"], "A A : A i A; end"),
        (3, &["<until>", "B,C"], "A B; A C; end"),
        (3, &["<until>", "<not>", "A"], "A B; A C; end"),
        (3, &["<while>", "A,C"], "<empty>; A; A A : A i A; A C; end"),
        (
            3,
            &["<while>", "<not>", "B", "<deadlock>"],
            "A A : A i A; A C; end",
        ),
    ],
)];

const OBSERVED_SETS: &[(&str, &[Plain])] = &[(
    "noexit behaviour a; (b; stop [] c; stop [] i; a; stop)",
    &[
        (3, &["A", "i,B", "<any>"], "A i A; end"),
        (3, &["A", "<not>", "i"], "A B; A C; end"),
        (3, &["A", "<not>", "B"], "A C; A i; end"),
        (3, &["<while>", "<not>", "B,C", "A"], "A; A i A; end"),
    ],
)];

const OBSERVED: &[(&str, &[Plain])] = &[
    (
        "noexit behaviour i; i; a; stop",
        &[
            (3, &["i", "I", "A"], "i i A; end"),
            (3, &["A"], "end"),
            (3, &["<until>", "i"], "i; end"),
        ],
    ),
    (
        "noexit behaviour i; a; stop [] a; b; stop",
        &[(2, &["<until>", "<deadlock>"], "A B; i A; end")],
    ),
    (
        "noexit behaviour hide a in a; b; stop [] b; stop",
        &[(2, &["<until>", "<deadlock>"], "B; i B; end")],
    ),
];

/// Listings by length, of at most so many labels: runs of the same length that differ in where their internal steps are;
/// a first run that does not begin with that of its prefix; and ends that refuse only after a longer run.
const FIRST_RUNS: &[(&str, &[Plain])] = &[
    (
        "noexit behaviour hide h in (h; a; b; stop [] a; h; b; stop)",
        &[
            (2, &["A", "B"], "A B : A i B; end"),
            (2, &["<until>", "A"], "A; end"),
        ],
    ),
    (
        "noexit behaviour hide h in (h; a; h; b; stop [] a; h; h; b; stop)",
        &[(2, &["A", "B"], "A B : A i i B; end")],
    ),
    (
        "noexit behaviour hide h in (h; h; a; b; stop [] a; h; h; b; stop [] h; a; h; b; stop)",
        &[(2, &["A", "B"], "A B : A i i B; end")],
    ),
    (
        "noexit behaviour hide h in (h; a; b; stop [] a; h; h; b; stop)",
        &[
            (2, &["A", "B"], "A B : i A B; end"),
            (2, &["<until>", "A"], "A; end"),
        ],
    ),
    (
        "noexit behaviour hide h in (a; b; stop [] h; h; a; stop)",
        &[
            (1, &["A"], "A; end"),
            (1, &["A", "<deadlock>"], "A : i i A; end"),
        ],
    ),
    (
        "noexit behaviour hide h in (a; h; stop [] h; a; stop)",
        &[(1, &["A", "<deadlock>"], "A : A i; end")],
    ),
    (
        "noexit behaviour hide h in (h; h; a; stop [] a; h; h; h; stop)",
        &[(1, &["A", "<deadlock>"], "A : i i A; end")],
    ),
];

/// Compares listings by depth of all items, with a bound that no prefix exceeds.
fn expect(
    rt: &impl Abort,
    alloc: Global,
    rows: &[(&str, &[Plain])],
    strong: bool,
) -> Result<(), Fail> {
    for (behaviour, searches) in rows {
        for (depth, words, expected) in *searches {
            let question = Question {
                behaviour,
                words,
                strong,
                extent: Extent::Depth(*depth),
                mark: None,
                terms: ALL,
            };
            assert_listing(rt, alloc, question, expected)?;
        }
    }
    Ok(())
}

/// Compares listings by length of all items, with a bound that no prefix exceeds.
fn expect_by_length(rt: &impl Abort, alloc: Global, rows: &[(&str, &[Plain])]) -> Result<(), Fail> {
    for (behaviour, searches) in rows {
        for (length, words, expected) in *searches {
            let question = Question {
                behaviour,
                words,
                strong: false,
                extent: Extent::Length(*length),
                mark: None,
                terms: ALL,
            };
            assert_listing(rt, alloc, question, expected)?;
        }
    }
    Ok(())
}

#[test]
fn lists_sequences(rt: HostRuntime) -> Result<(), Fail> {
    expect(&rt, rt.alloc(), ACTIONS, false)?;
    expect(&rt, rt.alloc(), INTERNAL, false)?;
    expect(&rt, rt.alloc(), COMPOSITIONS, false)?;
    expect(&rt, rt.alloc(), CALLS, false)?;
    expect(&rt, rt.alloc(), REPETITION, false)
}

#[test]
fn lists_first_runs_by_length(rt: HostRuntime) -> Result<(), Fail> {
    expect_by_length(&rt, rt.alloc(), FIRST_RUNS)
}

#[test]
fn lists_sequences_of_sets(rt: HostRuntime) -> Result<(), Fail> {
    expect(&rt, rt.alloc(), SETS, false)?;
    expect(&rt, rt.alloc(), OBSERVED_SETS, true)
}

#[test]
fn lists_internal_steps(rt: HostRuntime) -> Result<(), Fail> {
    expect(&rt, rt.alloc(), OBSERVED, true)
}

/// Marks before, between, at and after the items `B`, `A B` and `A exit`, and what comes after them.
const MARKS: &[(&str, &str)] = &[
    ("<empty>", "B; A B; A exit; end"),
    ("A", "B; A B; A exit; end"),
    ("B", "A B; A exit; end"),
    ("exit", "A B; A exit; end"),
    ("A A", "A B; A exit; end"),
    ("A B", "A exit; end"),
    ("A C", "A exit; end"),
    ("A exit : A exit", "end"),
    ("B A", "end"),
    ("A A A", "end"),
];

#[test]
fn goes_on_after_marks(rt: HostRuntime) -> Result<(), Fail> {
    for (mark, expected) in MARKS {
        let question = Question {
            behaviour: "exit behaviour a; exit [> b; stop",
            words: &["<until>", "<deadlock>"],
            strong: false,
            extent: Extent::Depth(2),
            mark: Some(*mark),
            terms: ALL,
        };
        assert_listing(&rt, rt.alloc(), question, expected)?;
    }
    Ok(())
}

/// Whether internal steps are observed, a mark, and what comes after it.
const RUN_MARKS: &[(bool, &str, &str)] = &[
    (false, "A : i A", "A B; end"),
    (false, "A", "A B; end"),
    (true, "A B", "i A; end"),
    (true, "exit i", "i A; end"),
    (true, "i A", "end"),
];

#[test]
fn goes_on_after_words(rt: HostRuntime) -> Result<(), Fail> {
    for (strong, mark, expected) in RUN_MARKS {
        let question = Question {
            behaviour: "noexit behaviour i; a; stop [] a; b; stop",
            words: &["<until>", "<deadlock>"],
            strong: *strong,
            extent: Extent::Depth(2),
            mark: Some(*mark),
            terms: ALL,
        };
        assert_listing(&rt, rt.alloc(), question, expected)?;
    }
    Ok(())
}

const ONE: &str = "noexit behaviour a; stop [] a; b; stop";

const TWO: &str = "noexit behaviour a; stop [] b; stop [] b; a; stop";

const THREE: &str = "noexit behaviour a; stop [] b; stop";

const HIDDEN: &str = "noexit behaviour i; a; stop";

/// A behaviour, a depth, the words, a mark, the bound on the terms of a prefix, and the listing.
const BOUNDS: &[(&str, u8, &[&str], Option<&str>, usize, &str)] = &[
    (ONE, 2, &["<any>"], None, 1, "over A"),
    (TWO, 1, &["<any>"], None, 1, "A; over B"),
    (TWO, 1, &["<any>"], Some("A"), 1, "over B"),
    (TWO, 1, &["<any>"], Some("<empty>"), 1, "A; over B"),
    (TWO, 1, &["<any>"], Some("B"), 1, "over B"),
    (TWO, 1, &["<any>"], Some("A A"), 1, "over B"),
    (TWO, 1, &["<any>"], None, 2, "A; B; end"),
    (THREE, 1, &["<any>"], None, 1, "A; B; end"),
    (HIDDEN, 2, &["A"], None, 1, "over <empty>"),
    (HIDDEN, 2, &["A"], None, 2, "A : i A; end"),
];

#[test]
fn stops_at_prefixes_that_are_over(rt: HostRuntime) -> Result<(), Fail> {
    for (behaviour, depth, words, mark, terms, expected) in BOUNDS {
        let question = Question {
            behaviour,
            words,
            strong: false,
            extent: Extent::Depth(*depth),
            mark: *mark,
            terms: *terms,
        };
        assert_listing(&rt, rt.alloc(), question, expected)?;
    }
    Ok(())
}

/// A set that is not closed under internal steps has one term.
#[test]
fn counts_terms_with_internal_steps_shown(rt: HostRuntime) -> Result<(), Fail> {
    let question = Question {
        behaviour: HIDDEN,
        words: &["i", "A"],
        strong: true,
        extent: Extent::Depth(2),
        mark: None,
        terms: 1,
    };
    assert_listing(&rt, rt.alloc(), question, "i A; end")
}
