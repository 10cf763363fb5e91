//! Covers of small specifications against an oracle.
use super::cover_oracle::{Behaviour, Limits, Observed, cover_of, observed_sequences};
use super::cover_run::{CoverQuestion, assert_cover, run_cover};
use super::graph::Graph;
use super::listing_run::{specification, spell};
use super::samples::{
    CALLS, CHOICES, HIDING, INTERLEAVING, OPERATORS, PREFIXES, RECURSIONS, SYNCHRONIZATION,
};
use std::alloc::{AllocError, Global};
use std::process::Abort;
use std::test::Fail;

/// More normal forms than a set has here, and more sets than a specification without endless growth has.
const ALL: usize = 200;

const ALL_STATES: usize = 40;

/// The bounds on the normal forms of a set, and on the sets.
const TERMS: [usize; 3] = [1, 2, 3];

const STATES: [usize; 5] = [0, 1, 2, 3, 5];

/// The most labels of marks that are no lines.
const MARKED: usize = 2;

/// Recursions in which a label leads to several normal forms.
const LOOPS: &[&str] = &[
    "noexit behaviour P[a,b,c] where process P [x,y,z] : noexit := x; (y; P[x,y,z] [] i; z; P[x,y,z]) endproc",
    "noexit behaviour hide h in P[a,b,h] where process P [x,y,h] : noexit := x; (h; P[x,y,h] [] y; Q[h]) endproc process Q [h] : noexit := h; Q[h] endproc",
    "noexit behaviour P[a,b] where process P [x,y] : noexit := x; P[x,y] [] y; P[x,y] [] x; (x; Q[x,y] [] y; Q[x,y]) endproc process Q [x,y] : noexit := x; stop [] y; stop endproc",
    "noexit behaviour P[a,b] where process P [x,y] : noexit := y; x; (y; P[x,y] [] x; stop) [] x; P[x,y] endproc",
    "noexit behaviour hide d in S[a,d] |[d]| R[b,d] where process S [x,d] : noexit := x; T[x,d] endproc process T [x,d] : noexit := d; (S[x,d] [] i; T[x,d]) endproc process R [y,d] : noexit := d; (i; R[y,d] [] y; R[y,d]) endproc",
];

/// A specification, and its sequences of at most `length` labels.
#[derive(Drop)]
struct Sample {
    text: String,
    strong: bool,
    length: usize,
    sequences: Vec<Observed>,
}

#[test]
fn covers_of_prefixes(rt: HostRuntime) -> Result<(), Fail> {
    compare(&rt, rt.alloc(), PREFIXES, 7)
}

#[test]
fn covers_of_choices(rt: HostRuntime) -> Result<(), Fail> {
    compare(&rt, rt.alloc(), CHOICES, 5)
}

#[test]
fn covers_of_interleaving(rt: HostRuntime) -> Result<(), Fail> {
    compare(&rt, rt.alloc(), INTERLEAVING, 6)
}

#[test]
fn covers_of_synchronization(rt: HostRuntime) -> Result<(), Fail> {
    compare(&rt, rt.alloc(), SYNCHRONIZATION, 6)
}

#[test]
fn covers_of_hiding(rt: HostRuntime) -> Result<(), Fail> {
    compare(&rt, rt.alloc(), HIDING, 6)
}

#[test]
fn covers_of_enabling_and_disabling(rt: HostRuntime) -> Result<(), Fail> {
    compare(&rt, rt.alloc(), OPERATORS, 7)
}

#[test]
fn covers_of_calls(rt: HostRuntime) -> Result<(), Fail> {
    compare(&rt, rt.alloc(), CALLS, 6)
}

#[test]
fn covers_of_recursions(rt: HostRuntime) -> Result<(), Fail> {
    compare(&rt, rt.alloc(), RECURSIONS, 5)
}

#[test]
fn covers_of_loops(rt: HostRuntime) -> Result<(), Fail> {
    compare(&rt, rt.alloc(), LOOPS, 7)
}

/// Compares the covers of specifications with those of the oracle, up to this length.
fn compare(rt: &impl Abort, alloc: Global, samples: &[&str], length: usize) -> Result<(), Fail> {
    for behaviour in samples {
        for strong in [false, true] {
            compare_one(rt, alloc, behaviour, strong, length)?;
        }
    }
    Ok(())
}

fn compare_one(
    rt: &impl Abort,
    alloc: Global,
    behaviour: &str,
    strong: bool,
    length: usize,
) -> Result<(), Fail> {
    let graph = Graph::of_forms(alloc, behaviour)?;
    let of_graph = Behaviour {
        graph: &graph,
        strong,
    };
    let sample = Sample {
        text: specification(alloc, behaviour)?,
        strong,
        length,
        sequences: observed_sequences(alloc, of_graph, length)?,
    };
    compare_sample(rt, alloc, &sample)
}

/// Compares with bounds, and without them after marks.
fn compare_sample(rt: &impl Abort, alloc: Global, sample: &Sample) -> Result<(), Fail> {
    let whole = CoverQuestion {
        text: sample.text.as_str(),
        strong: sample.strong,
        terms: ALL,
        states: ALL_STATES,
    };
    for terms in TERMS {
        compare_after(
            rt,
            alloc,
            sample,
            CoverQuestion { terms, ..whole },
            None,
            None,
        )?;
    }
    for states in STATES {
        compare_after(
            rt,
            alloc,
            sample,
            CoverQuestion { states, ..whole },
            None,
            None,
        )?;
    }
    compare_after(rt, alloc, sample, whole, None, None)?;
    compare_marks(rt, alloc, sample, whole)
}

/// Compares what comes after each short sequence and each that is explored, among which are the lines.
fn compare_marks(
    rt: &impl Abort,
    alloc: Global,
    sample: &Sample,
    whole: CoverQuestion,
) -> Result<(), Fail> {
    let all = sample.sequences.as_slice();
    for (index, one) in all.iter().enumerate() {
        let labels = one.labels.len();
        if labels <= MARKED || (labels < sample.length && one.is_covered) {
            compare_mark(rt, alloc, sample, whole, index, one)?;
        }
    }
    Ok(())
}

/// Compares what comes after this sequence, which has this index.
fn compare_mark(
    rt: &impl Abort,
    alloc: Global,
    sample: &Sample,
    whole: CoverQuestion,
    index: usize,
    one: &Observed,
) -> Result<(), Fail> {
    let line = spelled(alloc, one)?;
    let after = Some(line.as_str());
    compare_after(rt, alloc, sample, whole, after, Some(index))
}

fn spelled(alloc: Global, one: &Observed) -> Result<String, AllocError> {
    let mut line = String::new(alloc);
    spell(&mut line, one.labels.as_slice())?;
    Ok(line)
}

/// Compares one search after a line with the oracle's cover after the sequence with this index, which is that line. Where
/// longer sequences would be explored, the oracle knows no cover.
fn compare_after(
    rt: &impl Abort,
    alloc: Global,
    sample: &Sample,
    question: CoverQuestion,
    after: Option<&str>,
    mark: Option<usize>,
) -> Result<(), Fail> {
    let limits = Limits {
        terms: question.terms,
        states: question.states,
        length: sample.length,
    };
    if let Some(expected) = cover_of(alloc, sample.sequences.as_slice(), limits, mark)? {
        let found = run_cover(alloc, question, after)?;
        assert_cover(rt, question, after, &found, &expected);
    }
    Ok(())
}
