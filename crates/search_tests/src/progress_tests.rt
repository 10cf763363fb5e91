//! What searches tell their observers.
use super::listing_run::{Extent, Question, begin, begin_with};
use super::match_tests::boxed_table;
use lotos_ever::find_shortest_match_with_progress;
use lotos_listing::{Found, Halt, NoProgress, Progress};
use lotos_normal::NormalTable;
use lotos_pattern::Pattern;
use lotos_search::Search;
use std::alloc::Global;
use std::process::Abort;
use std::test::Fail;

/// An observer that counts.
#[derive(Clone, Copy, Debug, PartialEq, Eq)]
pub struct Visits {
    pub count: usize,
    /// The sum of the lengths.
    pub lengths: usize,
    pub longest: usize,
}

/// Before the first visit.
pub const NONE: Visits = Visits {
    count: 0,
    lengths: 0,
    longest: 0,
};

impl Progress for Visits {
    fn visit(&mut self, length: usize) {
        self.count = self.count.saturating_add(1);
        self.lengths = self.lengths.saturating_add(length);
        self.longest = self.longest.max(length);
    }
}

/// How many steps lead on from what a search expands, and how many dead ends it comes to.
#[derive(Clone, Copy, Debug, PartialEq, Eq)]
struct Expansions {
    steps: usize,
    dead_ends: usize,
}

/// An observer that counts all of these.
#[derive(Clone, Copy, Debug, PartialEq, Eq)]
struct Seen {
    visits: Visits,
    expansions: Expansions,
}

/// Before the search.
const NOTHING: Seen = Seen {
    visits: NONE,
    expansions: Expansions {
        steps: 0,
        dead_ends: 0,
    },
};

impl Progress for Seen {
    fn visit(&mut self, length: usize) {
        self.visits.visit(length);
    }

    fn expanded(&mut self, steps: usize) {
        self.expansions.steps = self.expansions.steps.saturating_add(steps);
        if steps == 0 {
            self.expansions.dead_ends = self.expansions.dead_ends.saturating_add(1);
        }
    }
}

/// A listing and what its search visits and expands, worked out by hand: for each length up to the depth in turn, the
/// prefixes of the tree up to that length. Each visit is a step, but for one at which the search halts.
const LISTINGS: &[(Question, Visits, Expansions)] = &[
    // The empty prefix alone, which cannot go on, for each of two lengths.
    (
        Question {
            behaviour: "noexit behaviour i; i; a; stop",
            words: &["A"],
            strong: false,
            extent: Extent::Depth(2),
            mark: None,
            terms: 10,
        },
        NONE,
        Expansions {
            steps: 0,
            dead_ends: 2,
        },
    ),
    // A and B; A, A B, B and B A.
    (
        Question {
            behaviour: "noexit behaviour a; stop ||| b; stop",
            words: &["<until>", "<deadlock>"],
            strong: false,
            extent: Extent::Depth(2),
            mark: None,
            terms: 10,
        },
        Visits {
            count: 6,
            lengths: 8,
            longest: 2,
        },
        Expansions {
            steps: 6,
            dead_ends: 0,
        },
    ),
    // A; A and A B; A and A B, which cannot go on.
    (
        Question {
            behaviour: "noexit behaviour a; b; b; stop",
            words: &["<until>", "B"],
            strong: false,
            extent: Extent::Depth(3),
            mark: None,
            terms: 10,
        },
        Visits {
            count: 5,
            lengths: 7,
            longest: 2,
        },
        Expansions {
            steps: 5,
            dead_ends: 1,
        },
    ),
    // The same sequences after a mark: nothing is skipped.
    (
        Question {
            behaviour: "noexit behaviour a; stop ||| b; stop",
            words: &["<until>", "<deadlock>"],
            strong: false,
            extent: Extent::Depth(2),
            mark: Some("A B"),
            terms: 10,
        },
        Visits {
            count: 6,
            lengths: 8,
            longest: 2,
        },
        Expansions {
            steps: 6,
            dead_ends: 0,
        },
    ),
    // A, and B, which reaches two terms: it is told of before its set is made, and its step after that.
    (
        Question {
            behaviour: "noexit behaviour a; stop [] b; stop [] b; a; stop",
            words: &["<any>"],
            strong: false,
            extent: Extent::Depth(1),
            mark: None,
            terms: 1,
        },
        Visits {
            count: 2,
            lengths: 2,
            longest: 1,
        },
        Expansions {
            steps: 1,
            dead_ends: 0,
        },
    ),
    // A and B; A, A C, and B, below which no more is looked for, as B reaches what A does; A, A C, A C C and B; and the
    // same once more, where A C C cannot go on.
    (
        TWO_WAYS,
        Visits {
            count: 13,
            lengths: 20,
            longest: 3,
        },
        Expansions {
            steps: 13,
            dead_ends: 1,
        },
    ),
];

/// No sequence of this listing is a member, and both first steps reach the same term.
const TWO_WAYS: Question = Question {
    behaviour: "noexit behaviour a; c; c; stop [] b; c; c; stop",
    words: &["<any>", "<any>", "<any>", "<any>"],
    strong: false,
    extent: Extent::Depth(4),
    mark: None,
    terms: 10,
};

/// Capacities of a failure memo, and what the search visits with it. A state key takes two at least, so the first two
/// memos hold none: A and B; A, A C, B and B C; and twice A, A C, A C C, B, B C and B C C, the second time with A C C and
/// B C C as dead ends. The third holds all.
const MEMOS: &[(usize, Visits, Expansions)] = &[
    (0, WITHOUT_MEMO, ALL_EXPANDED),
    (1, WITHOUT_MEMO, ALL_EXPANDED),
    (
        40,
        Visits {
            count: 13,
            lengths: 20,
            longest: 3,
        },
        Expansions {
            steps: 13,
            dead_ends: 1,
        },
    ),
];

const ALL_EXPANDED: Expansions = Expansions {
    steps: 18,
    dead_ends: 2,
};

const WITHOUT_MEMO: Visits = Visits {
    count: 18,
    lengths: 32,
    longest: 3,
};

/// Whether two calls return the same.
fn are_same(left: &Result<Option<Found>, Halt>, right: &Result<Option<Found>, Halt>) -> bool {
    match (left, right) {
        (Ok(Some(one)), Ok(Some(other))) => {
            one.sequence.as_slice() == other.sequence.as_slice()
                && one.word.as_slice() == other.word.as_slice()
        }
        (Ok(None), Ok(None)) => true,
        (Err(Halt::OverTerms(one)), Err(Halt::OverTerms(other))) => {
            one.as_slice() == other.as_slice()
        }
        (Err(Halt::Failed), Err(Halt::Failed)) => true,
        _ => false,
    }
}

/// Whether the first calls of two searches return the same, with an observer and without one.
fn return_same<P: Progress>(plain: &mut Search, observed: &mut Search, progress: &mut P) -> bool {
    for _ in 0..8 {
        if !are_same(&plain.next(), &observed.next_with_progress(progress)) {
            return false;
        }
    }
    true
}

/// What an observed search of the question visits and expands, with a failure memo of this capacity if one is given, if it
/// returns the same as one without an observer.
fn seen_by(
    alloc: Global,
    question: Question,
    capacity: Option<usize>,
) -> Result<Option<Seen>, Fail> {
    let mut plain = begin(alloc, question)?;
    let mut observed = begin_with(alloc, question, capacity)?;
    let mut seen = NOTHING;
    if return_same(&mut plain, &mut observed, &mut seen) {
        Ok(Some(seen))
    } else {
        Ok(None)
    }
}

fn assert_seen(rt: &impl Abort, question: Question, found: Option<Seen>, expected: Seen) {
    assert_eq!(rt;
        found,
        Some(expected),
        "{}: {:?}, {:?}, after {:?}",
        question.behaviour,
        question.words,
        question.extent,
        question.mark
    );
}

#[test]
fn observed_searches_return_the_same_and_visit_these_prefixes(rt: HostRuntime) -> Result<(), Fail> {
    for (question, visits, expansions) in LISTINGS {
        let found = seen_by(rt.alloc(), *question, None)?;
        let expected = Seen {
            visits: *visits,
            expansions: *expansions,
        };
        assert_seen(&rt, *question, found, expected);
    }
    Ok(())
}

#[test]
fn a_smaller_memo_has_more_prefixes_visited(rt: HostRuntime) -> Result<(), Fail> {
    for (capacity, visits, expansions) in MEMOS {
        let found = seen_by(rt.alloc(), TWO_WAYS, Some(*capacity))?;
        let expected = Seen {
            visits: *visits,
            expansions: *expansions,
        };
        assert_seen(&rt, TWO_WAYS, found, expected);
    }
    Ok(())
}

#[test]
fn a_silent_observer_changes_nothing(rt: HostRuntime) -> Result<(), Fail> {
    for (question, _, _) in LISTINGS {
        assert!(rt; is_silent(rt.alloc(), *question)?);
    }
    Ok(())
}

/// Whether a search of the question returns the same with a silent observer.
fn is_silent(alloc: Global, question: Question) -> Result<bool, Fail> {
    let mut plain = begin(alloc, question)?;
    let mut observed = begin(alloc, question)?;
    Ok(return_same(&mut plain, &mut observed, &mut NoProgress))
}

/// A question for a match of any length, the states that its search stores, and how many steps these have, worked out by
/// hand.
struct Stored {
    behaviour: &'static str,
    words: &'static [&'static str],
    states: usize,
    visits: Visits,
    expansions: Expansions,
}

const STORED: &[Stored] = &[
    // The start, which is told of before the bound is reached, as is its step.
    Stored {
        behaviour: "noexit behaviour a; stop",
        words: &["a"],
        states: 1,
        visits: Visits {
            count: 1,
            lengths: 0,
            longest: 0,
        },
        expansions: Expansions {
            steps: 1,
            dead_ends: 0,
        },
    },
    // The start, and the deadlock after a.
    Stored {
        behaviour: "noexit behaviour a; stop",
        words: &["a"],
        states: 10,
        visits: Visits {
            count: 2,
            lengths: 1,
            longest: 1,
        },
        expansions: Expansions {
            steps: 1,
            dead_ends: 1,
        },
    },
    // The start; b; stop and a; stop after one step; stop after two, by two derivations.
    Stored {
        behaviour: "noexit behaviour a; b; stop [] b; a; stop",
        words: &["<any>", "<any>", "<any>"],
        states: 10,
        visits: Visits {
            count: 4,
            lengths: 4,
            longest: 2,
        },
        expansions: Expansions {
            steps: 4,
            dead_ends: 1,
        },
    },
    // One state for each of the first four words; the last one never comes. The step of the last state counts too.
    Stored {
        behaviour: "noexit behaviour P[a,b] where process P [x,y] : noexit := x; y; P[x,y] endproc",
        words: &["a", "b", "a", "b", "b"],
        states: 10,
        visits: Visits {
            count: 5,
            lengths: 10,
            longest: 4,
        },
        expansions: Expansions {
            steps: 5,
            dead_ends: 0,
        },
    },
    // The start; stop and b; stop after the same label; stop at the next place.
    Stored {
        behaviour: "noexit behaviour a; stop [] a; b; stop",
        words: &["<any>", "<any>", "<any>"],
        states: 10,
        visits: Visits {
            count: 4,
            lengths: 4,
            longest: 2,
        },
        expansions: Expansions {
            steps: 3,
            dead_ends: 2,
        },
    },
];

/// What the observer of a search for a match is told.
fn stored_in(
    alloc: Global,
    table: &mut NormalTable,
    words: &[&str],
    states: usize,
) -> Result<Seen, Fail> {
    let pattern = Pattern::read(alloc, words, false)?;
    let mut seen = NOTHING;
    let _ = find_shortest_match_with_progress(alloc, table, &pattern, states, &mut seen);
    Ok(seen)
}

fn seen_of(alloc: Global, row: &Stored) -> Result<Seen, Fail> {
    let mut table = boxed_table(alloc, row.behaviour)?;
    stored_in(alloc, &mut table, row.words, row.states)
}

#[test]
fn observed_searches_for_a_match_store_these_states(rt: HostRuntime) -> Result<(), Fail> {
    for row in STORED {
        let found = seen_of(rt.alloc(), row)?;
        assert_stored(&rt, row, found);
    }
    Ok(())
}

fn assert_stored(rt: &impl Abort, row: &Stored, found: Seen) {
    let expected = Seen {
        visits: row.visits,
        expansions: row.expansions,
    };
    assert_eq!(rt; found, expected, "{:?} of {}", row.words, row.behaviour);
}
