//! Runs of a few specifications.
use super::accepted_text::{joined, table_of_text};
use super::row_label::{A, B, EXIT, I, RowLabel, are_labels};
use lotos_terms::{Label, Step, Table};
use std::alloc::{AllocError, Global};
use std::process::Abort;
use std::test::Fail;
use uses::first_run;

/// The functionality and the behaviour of a specification with the gates `a` and `b`, a depth, and the labels of its
/// first run.
const RUNS: &[(&str, usize, &[RowLabel])] = &[
    ("noexit behaviour stop", 3, &[]),
    ("noexit behaviour a; b; stop", 0, &[]),
    ("noexit behaviour a; b; stop", 1, &[A]),
    ("noexit behaviour a; b; stop", 2, &[A, B]),
    // A deadlock after two steps.
    ("noexit behaviour a; b; stop", 5, &[A, B]),
    // The term after termination has no step.
    ("exit behaviour b; i; exit", 9, &[B, I, EXIT]),
    // Labels ascend, so the step of `a` is the first one.
    ("noexit behaviour b; stop [] a; stop", 9, &[A]),
    // Neither side can do its step alone.
    ("noexit behaviour a; stop || b; stop", 9, &[]),
    // No deadlock at all.
    (
        "noexit behaviour P[a,b] where process P [x,y] : noexit := x; y; P[x,y] endproc",
        5,
        &[A, B, A, B, A],
    ),
];

fn table_of(alloc: Global, behaviour: &str) -> Result<Box<Table>, Fail> {
    let text = joined(alloc, &["specification S [a,b] : ", behaviour, " endspec"])?;
    table_of_text(alloc, text.as_str())
}

/// The labels of a run.
fn labels_of(alloc: Global, run: &[Step]) -> Result<Vec<Label>, AllocError> {
    let mut labels = Vec::new(alloc);
    for step in run {
        labels.push(step.label)?;
    }
    Ok(labels)
}

/// The labels of the first run of a table.
fn run_labels(alloc: Global, table: &mut Table, depth: usize) -> Result<Vec<Label>, AllocError> {
    let run = first_run(alloc, table, depth)?;
    labels_of(alloc, run.as_slice())
}

fn has_run(
    alloc: Global,
    table: &mut Table,
    depth: usize,
    wanted: &[RowLabel],
) -> Result<bool, AllocError> {
    let labels = run_labels(alloc, table, depth)?;
    Ok(are_labels(labels.as_slice(), wanted))
}

fn follows(
    alloc: Global,
    behaviour: &str,
    depth: usize,
    wanted: &[RowLabel],
) -> Result<bool, Fail> {
    let mut table = table_of(alloc, behaviour)?;
    Ok(has_run(alloc, &mut table, depth, wanted)?)
}

#[test]
fn follows_runs(rt: HostRuntime) -> Result<(), Fail> {
    for (behaviour, depth, wanted) in RUNS {
        let holds = follows(rt.alloc(), behaviour, *depth, wanted)?;
        assert_follows(&rt, behaviour, *depth, wanted, holds);
    }
    Ok(())
}

fn assert_follows(
    rt: &impl Abort,
    behaviour: &str,
    depth: usize,
    wanted: &[RowLabel],
    holds: bool,
) {
    assert!(rt;
        holds,
        "{} at depth {}, the labels {:?}",
        behaviour, depth, wanted
    );
}
