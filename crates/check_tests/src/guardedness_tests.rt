//! Processes that call each other, with their unguarded calls and their ranks.
use super::table_texts::{checked, joined};
use lotos_check::{CheckFault, Checked};
use std::alloc::{AllocError, Global};
use std::process::Abort;
use std::test::Fail;

/// Where a body calls a process.
#[derive(Clone, Copy)]
enum Place {
    Bare,
    AfterPrefix,
    LeftOfEnable,
    RightOfEnable,
    Hidden,
    LeftOfPar,
    RightOfPar,
    LeftOfDisable,
    RightOfDisable,
}

/// What stands before and after the call there, in a body.
fn around(place: Place) -> (&'static str, &'static str) {
    match place {
        Place::Bare => ("", " [] exit"),
        Place::AfterPrefix => ("i; ", ""),
        Place::LeftOfEnable => ("", " >> exit"),
        Place::RightOfEnable => ("exit >> ", ""),
        Place::Hidden => ("hide a in ", ""),
        Place::LeftOfPar => ("", " || exit"),
        Place::RightOfPar => ("exit || ", ""),
        Place::LeftOfDisable => ("", " [> exit"),
        Place::RightOfDisable => ("exit [> ", ""),
    }
}

/// A body that calls the process there.
fn called(alloc: Global, place: Place, process: usize) -> Result<String, AllocError> {
    let (before, after) = around(place);
    let process = process.to_string(alloc)?;
    joined(alloc, &[before, "P", process.as_str(), after])
}

fn front_of(alloc: Global, number: usize) -> Result<String, AllocError> {
    let number = number.to_string(alloc)?;
    joined(alloc, &["process P", number.as_str(), " : exit := exit"])
}

/// The definition of the process with this number, whose body is a choice of its calls.
fn process(
    alloc: Global,
    number: usize,
    calls: &[(usize, Place, usize)],
) -> Result<String, AllocError> {
    let mut text = front_of(alloc, number)?;
    for (caller, place, process) in calls {
        if *caller == number {
            let body = called(alloc, *place, *process)?;
            text.push_str(" [] (")?;
            text.push_str(body.as_str())?;
            text.push_str(")")?;
        }
    }
    text.push_str(" endproc ")?;
    Ok(text)
}

/// A specification of `count` processes with these calls, each from one process to another.
fn specification(
    alloc: Global,
    count: usize,
    calls: &[(usize, Place, usize)],
) -> Result<String, AllocError> {
    let mut text = String::from_str(alloc, "specification S : exit behaviour exit ")?;
    if count > 0 {
        text.push_str("where ")?;
    }
    for number in 0..count {
        let definition = process(alloc, number, calls)?;
        text.push_str(definition.as_str())?;
    }
    text.push_str("endspec")?;
    Ok(text)
}

/// Whether recursion is guarded.
#[derive(Drop)]
enum Ranking {
    /// The rank of each process.
    Guarded(Vec<usize>),
    /// The processes each of which has an unguarded call to one of them.
    Unguarded(Vec<usize>),
}

/// The ranking of `count` processes with these calls.
fn ranked(alloc: Global, count: usize, calls: &[(usize, Place, usize)]) -> Result<Ranking, Fail> {
    let text = specification(alloc, count, calls)?;
    let found = checked(alloc, text.as_str())?;
    ranking_of(alloc, &found)
}

fn ranking_of(alloc: Global, found: &Result<Checked, CheckFault>) -> Result<Ranking, Fail> {
    match found {
        Ok(system) => Ok(Ranking::Guarded(ranks_of(alloc, system)?)),
        Err(CheckFault::E27 { set, .. }) => Ok(Ranking::Unguarded(set.clone()?)),
        Err(_) => Err("another fault than E27")?,
    }
}

/// The rank of each process, by number.
fn ranks_of(alloc: Global, system: &Checked) -> Result<Vec<usize>, AllocError> {
    let mut ranks = Vec::new(alloc);
    let processes = system.processes();
    for (number, _process) in processes.iter().enumerate() {
        ranks.push(system.rank(number))?;
    }
    Ok(ranks)
}

/// The set of processes with unguarded calls into it; empty if recursion is guarded.
fn unguarded_of(found: &Ranking) -> &[usize] {
    match found {
        Ranking::Guarded(_) => &[],
        Ranking::Unguarded(set) => set.as_slice(),
    }
}

/// Where the call occurs, and whether it is unguarded.
const CALLS: &[(&str, Place, bool)] = &[
    ("bare", Place::Bare, true),
    ("under a prefix", Place::AfterPrefix, false),
    ("left of `>>`", Place::LeftOfEnable, true),
    ("right of `>>`", Place::RightOfEnable, false),
    ("under a hide form", Place::Hidden, true),
    ("left of `||`", Place::LeftOfPar, true),
    ("right of `||`", Place::RightOfPar, true),
    ("left of `[>`", Place::LeftOfDisable, true),
    ("right of `[>`", Place::RightOfDisable, true),
];

/// Asserts the set of processes with unguarded calls into it, if the last of eight processes calls itself there.
fn assert_unguarded(
    rt: &impl Abort,
    alloc: Global,
    words: &str,
    place: Place,
    expected: &[usize],
) -> Result<(), Fail> {
    let found = ranked(alloc, 8, &[(7, place, 7)])?;
    assert_eq!(rt; unguarded_of(&found), expected, "a call {}", words);
    Ok(())
}

#[test]
fn distinguishes_guarded_calls(rt: HostRuntime) -> Result<(), Fail> {
    for (words, place, unguarded) in CALLS {
        let expected: &[usize] = if *unguarded { &[7] } else { &[] };
        assert_unguarded(&rt, rt.alloc(), words, *place, expected)?;
    }
    Ok(())
}

fn assert_ranking(
    rt: &impl Abort,
    words: &str,
    found: &Ranking,
    ranks: &[usize],
    unguarded: &[usize],
) {
    match found {
        Ranking::Guarded(numbers) => {
            assert_eq!(rt; numbers.as_slice(), ranks, "the numbers of {}", words);
            assert!(rt; unguarded.is_empty(), "guarded: {}", words);
        }
        Ranking::Unguarded(set) => {
            assert_eq!(rt; set.as_slice(), unguarded, "the set of {}", words);
        }
    }
}

fn assert_ranked(
    rt: &impl Abort,
    alloc: Global,
    words: &str,
    count: usize,
    calls: &[(usize, Place, usize)],
    ranks: &[usize],
    unguarded: &[usize],
) -> Result<(), Fail> {
    let found = ranked(alloc, count, calls)?;
    assert_ranking(rt, words, &found, ranks, unguarded);
    Ok(())
}

/// What is tested, the number of processes, the calls, and the ranks, or the set of processes with unguarded calls into
/// it.
const RANKINGS: &[(&str, usize, &[(usize, Place, usize)], &[usize], &[usize])] = &[
    ("no process", 0, &[], &[], &[]),
    (
        "a chain against the order",
        3,
        &[(0, Place::Bare, 1), (1, Place::Bare, 2)],
        &[2, 1, 0],
        &[],
    ),
    (
        "a self-call under a prefix",
        1,
        &[(0, Place::AfterPrefix, 0)],
        &[0],
        &[],
    ),
    (
        "a self-call right of `>>`",
        1,
        &[(0, Place::RightOfEnable, 0)],
        &[0],
        &[],
    ),
    (
        "a self-call left of `>>`",
        1,
        &[(0, Place::LeftOfEnable, 0)],
        &[],
        &[0],
    ),
    (
        "a cycle and a process that none calls",
        3,
        &[(0, Place::Bare, 2), (2, Place::Bare, 0)],
        &[],
        &[0, 2],
    ),
    (
        "two cycles, and a process that calls into one",
        5,
        &[
            (0, Place::Bare, 2),
            (1, Place::Bare, 1),
            (2, Place::Bare, 3),
            (3, Place::Bare, 2),
            (3, Place::Bare, 4),
        ],
        &[],
        &[0, 1, 2, 3],
    ),
    (
        "a cycle that a prefix breaks",
        3,
        &[
            (0, Place::Bare, 1),
            (1, Place::AfterPrefix, 0),
            (1, Place::Bare, 2),
        ],
        &[2, 1, 0],
        &[],
    ),
];

#[test]
fn ranks_or_refuses(rt: HostRuntime) -> Result<(), Fail> {
    for (words, count, calls, ranks, unguarded) in RANKINGS {
        assert_ranked(&rt, rt.alloc(), words, *count, calls, ranks, unguarded)?;
    }
    Ok(())
}

/// The number of the last process of a long chain.
const LAST: usize = 299;

/// Each process but the last calls the next one, and the last one the first if it is a cycle.
fn long_calls(alloc: Global, is_cycle: bool) -> Result<Vec<(usize, Place, usize)>, AllocError> {
    let mut calls = Vec::new(alloc);
    for number in 0..LAST {
        calls.push((number, Place::Bare, number + 1))?;
    }
    if is_cycle {
        calls.push((LAST, Place::Bare, 0))?;
    }
    Ok(calls)
}

/// The numbers up to the last one, or from it down.
fn numbers(alloc: Global, is_falling: bool) -> Result<Vec<usize>, AllocError> {
    let mut numbers = Vec::new(alloc);
    for number in 0..=LAST {
        numbers.push(if is_falling { LAST - number } else { number })?;
    }
    Ok(numbers)
}

#[test]
fn ranks_a_long_chain(rt: HostRuntime) -> Result<(), Fail> {
    let calls = long_calls(rt.alloc(), false)?;
    let falling = numbers(rt.alloc(), true)?;
    assert_ranked(
        &rt,
        rt.alloc(),
        "a chain of 300",
        LAST + 1,
        calls.as_slice(),
        falling.as_slice(),
        &[],
    )
}

#[test]
fn rejects_a_long_cycle(rt: HostRuntime) -> Result<(), Fail> {
    let calls = long_calls(rt.alloc(), true)?;
    let all = numbers(rt.alloc(), false)?;
    assert_ranked(
        &rt,
        rt.alloc(),
        "a cycle of 300",
        LAST + 1,
        calls.as_slice(),
        &[],
        all.as_slice(),
    )
}

/// The processes that can be ranked: by rank if all can, otherwise by number.
fn order_of(alloc: Global, count: usize, found: &Ranking) -> Result<Vec<usize>, AllocError> {
    let mut order = Vec::new(alloc);
    match found {
        Ranking::Guarded(ranks) => {
            for expected in 0..count {
                for (process, rank) in ranks.iter().enumerate() {
                    if *rank == expected {
                        order.push(process)?;
                    }
                }
            }
        }
        Ranking::Unguarded(set) => {
            for process in 0..count {
                if !set.as_slice().contains(&process) {
                    order.push(process)?;
                }
            }
        }
    }
    Ok(order)
}

/// What is tested, the number of processes, the calls, and the processes that can be ranked, in order.
const ORDERS: &[(&str, usize, &[(usize, Place, usize)], &[usize])] = &[
    ("no process", 0, &[], &[]),
    (
        "a chain against the order",
        3,
        &[(0, Place::Bare, 1), (1, Place::Bare, 2)],
        &[2, 1, 0],
    ),
    (
        "a process that calls another twice",
        2,
        &[(0, Place::Bare, 1), (0, Place::Bare, 1)],
        &[1, 0],
    ),
    (
        "a process called by two, and one that calls both",
        4,
        &[
            (3, Place::Bare, 0),
            (3, Place::Bare, 2),
            (0, Place::Bare, 1),
            (2, Place::Bare, 1),
        ],
        &[1, 0, 2, 3],
    ),
    (
        "a cycle, a process that calls into it, and one called from it",
        4,
        &[
            (0, Place::Bare, 1),
            (1, Place::Bare, 2),
            (2, Place::Bare, 1),
            (2, Place::Bare, 3),
        ],
        &[3],
    ),
    (
        "a call of a process that calls itself, and one of another",
        3,
        &[
            (0, Place::Bare, 1),
            (0, Place::Bare, 2),
            (1, Place::Bare, 1),
        ],
        &[2],
    ),
];

/// The same of the ranking of these processes.
fn ranked_order(
    alloc: Global,
    count: usize,
    calls: &[(usize, Place, usize)],
) -> Result<Vec<usize>, Fail> {
    let found = ranked(alloc, count, calls)?;
    Ok(order_of(alloc, count, &found)?)
}

fn assert_order(
    rt: &impl Abort,
    alloc: Global,
    words: &str,
    count: usize,
    calls: &[(usize, Place, usize)],
    expected: &[usize],
) -> Result<(), Fail> {
    let order = ranked_order(alloc, count, calls)?;
    assert_eq!(rt; order.as_slice(), expected, "the order of {}", words);
    Ok(())
}

#[test]
fn orders_callers_after_their_calls(rt: HostRuntime) -> Result<(), Fail> {
    for (words, count, calls, expected) in ORDERS {
        assert_order(&rt, rt.alloc(), words, *count, calls, expected)?;
    }
    Ok(())
}
