//! Complete runs of `ever` without a match: how much was looked at.

use super::rows::{NO_MATCH, Row, expect_row, parts_of, run_of, words_of};
use super::runs::{Bytes, Parts, RUN, expect_parts};
use super::worked_texts::{BUFFER, DELAYED_WITHOUT_B};
use std::alloc::{AllocError, Global};
use std::process::Abort;

/// Patterns that match nothing, each after the number of states that are looked at, with the whole message.
#[rattlefmt::skip]
const ROWS: &[(usize, Row)] = &[
    // The buffer is empty, full, or has been emptied last.
    (3, Row { text: BUFFER, words: "ever '<while> <any> B B'",
        message: b"lotosseq: it happens at no depth; 3 states; words 1 to 3 can be matched, and then nothing that word 4 wants\n",
        ..NO_MATCH }),
    (2, Row { text: b"specification S [a,b] : noexit behaviour a; stop ||| b; stop endspec", words: "ever A A",
        message: b"lotosseq: it happens at no depth; 2 states; word 1 can be matched, and then nothing that word 2 wants\n",
        ..NO_MATCH }),
    (1, Row { text: b"specification S [a] : noexit behaviour stop endspec", words: "ever A",
        message: b"lotosseq: it happens at no depth; 1 state; nothing can be matched, since the specification is in a deadlock from the start\n",
        ..NO_MATCH }),
    (1, Row { text: BUFFER, words: "ever B",
        message: b"lotosseq: it happens at no depth; 1 state; word 1 cannot be matched\n", ..NO_MATCH }),
    (1, Row { text: BUFFER, words: "ever '<not> A'",
        message: b"lotosseq: it happens at no depth; 1 state; word 1 cannot be matched\n", ..NO_MATCH }),
    (2, Row { text: BUFFER, words: "ever 'A <deadlock>'",
        message: b"lotosseq: it happens at no depth; 2 states; word 1 can be matched, and then nothing that word 2 wants\n",
        ..NO_MATCH }),
    (2, Row { text: BUFFER, words: "ever '<until> <deadlock>'",
        message: b"lotosseq: it happens at no depth; 2 states; no state is as words 1 to 2 demand\n", ..NO_MATCH }),
    (1, Row { text: BUFFER, words: "ever <deadlock>",
        message: b"lotosseq: it happens at no depth; 1 state; at the start no state is as word 1 demands\n",
        ..NO_MATCH }),
    (1, Row { text: BUFFER, words: "ever '<refuses> A,B'",
        message: b"lotosseq: it happens at no depth; 1 state; at the start no state is as words 1 to 2 demand\n",
        ..NO_MATCH }),
    // All terms are found first if the end is about what can come: `exit` and then `stop`; A, A B, B, none of the two.
    (2, Row { text: b"specification S [a] : exit behaviour exit endspec", words: "ever <livelock>",
        message: b"lotosseq: it happens at no depth; 2 states; at the start no state is as word 1 demands\n",
        ..NO_MATCH }),
    (4, Row { text: b"specification S [a,b] : noexit behaviour a; stop ||| b; stop endspec", words: "ever '<never> A'",
        message: b"lotosseq: it happens at no depth; 4 states; at the start no state is as words 1 to 2 demand\n",
        ..NO_MATCH }),
    // The word of a set belongs to its element, and `<until>` to the end.
    (4, Row { text: BUFFER, words: "ever '<while> <not> B A <until> <never> B'",
        message: b"lotosseq: it happens at no depth; 4 states; words 1 to 4 can be matched, and then nothing that word 5 wants\n",
        ..NO_MATCH }),
    // A `<while>` matches without a label too, at the start and further on.
    (1, Row { text: BUFFER, words: "ever '<while> <not> A B'",
        message: b"lotosseq: it happens at no depth; 1 state; words 1 to 3 can be matched, and then nothing that word 4 wants\n",
        ..NO_MATCH }),
    (2, Row { text: BUFFER, words: "ever 'A <while> A <while> <not> B <deadlock>'",
        message: b"lotosseq: it happens at no depth; 2 states; words 1 to 6 can be matched, and then nothing that word 7 wants\n",
        ..NO_MATCH }),
    (3, Row { text: DELAYED_WITHOUT_B, words: "ever A B",
        message: b"lotosseq: it happens at no depth; 3 states; word 1 can be matched, and then nothing that word 2 wants\n",
        ..NO_MATCH }),
    (2, Row { text: DELAYED_WITHOUT_B, words: "ever --strong i i",
        message: b"lotosseq: it happens at no depth; 2 states; word 1 can be matched, and then nothing that word 2 wants\n",
        ..NO_MATCH }),
];

/// A search that stops because there are too many states.
const STOPPED: Parts<'static> = Parts {
    output: Bytes::Are(b""),
    message: Bytes::AtLeastOne,
    status: 4,
    reads: None,
    flushes: Some(0),
};

/// Expects that the search of a row ends so with this bound on the states.
fn expect_bounded(
    rt: &impl Abort,
    alloc: Global,
    row: &Row,
    states: usize,
    parts: &Parts<'_>,
) -> Result<(), AllocError> {
    let line = format!(in alloc; "{} --states={states}", row.words)?;
    let words = words_of(alloc, line.as_str())?;
    expect_parts(rt, alloc, &run_of(row, words.as_slice(), &RUN), parts);
    Ok(())
}

/// Expects that the search of a row needs to look at so many states.
fn expect_states(
    rt: &impl Abort,
    alloc: Global,
    row: &Row,
    states: usize,
) -> Result<(), AllocError> {
    expect_bounded(rt, alloc, row, states, &parts_of(row))?;
    if states > 1 {
        expect_bounded(rt, alloc, row, states - 1, &STOPPED)?;
    }
    Ok(())
}

#[test]
fn what_was_looked_at(rt: HostRuntime) {
    for (_states, row) in ROWS {
        expect_row(&rt, rt.alloc(), row, &RUN);
    }
}

#[test]
fn so_many_states_are_reached(rt: HostRuntime) -> Result<(), AllocError> {
    for (states, row) in ROWS {
        expect_states(&rt, rt.alloc(), row, *states)?;
    }
    Ok(())
}
