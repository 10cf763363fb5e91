//! Runs of more than 128 and of more than 255 steps, command lines of more than 300 words, sequences of more than 65,535
//! labels, and lines of more than 65,535 bytes.

use super::super::expected_output::{expect_output, repeated, repeated_words};
use std::alloc::{AllocError, Global};

/// A gate over and over.
const LOOP: &[u8] =
    b"specification S [a] : noexit behaviour P[a] where process P [x] : noexit := x; P[x] endproc endspec";

/// An internal step and a gate, over and over.
const SLOW_LOOP: &[u8] =
    b"specification S [a] : noexit behaviour P[a] where process P [x] : noexit := i; x; P[x] endproc endspec";

/// The line of so many labels `A`, each with an internal step before it in the run.
fn slow_line(alloc: Global, count: usize) -> Result<Vec<u8>, AllocError> {
    let before = count.saturating_sub(1);
    let sequence = repeated(alloc, b"A", b" A", before, b" : ")?;
    repeated(alloc, sequence.as_slice(), b"i A ", before, b"i A\n")
}

#[test]
fn a_search_for_a_run_of_150_steps(rt: HostRuntime) -> Result<(), AllocError> {
    let front = ["lotosseq", "search", "--depth", "150", "--explain"];
    let words = repeated_words(rt.alloc(), front.as_slice(), &["A"], 150)?;
    let sequence = repeated(rt.alloc(), b"A", b" A", 149, b" : A")?;
    let line = repeated(rt.alloc(), sequence.as_slice(), b" A", 149, b"\n")?;
    expect_output(&rt, rt.alloc(), words.as_slice(), LOOP, line.as_slice());
    Ok(())
}

#[test]
fn a_search_for_a_run_of_254_steps_with_internal_ones(rt: HostRuntime) -> Result<(), AllocError> {
    let front = ["lotosseq", "search", "--depth", "255", "--explain"];
    let words = repeated_words(rt.alloc(), front.as_slice(), &["A"], 127)?;
    let line = slow_line(rt.alloc(), 127)?;
    expect_output(
        &rt,
        rt.alloc(),
        words.as_slice(),
        SLOW_LOOP,
        line.as_slice(),
    );
    Ok(())
}

#[test]
fn a_search_with_510_words_of_a_pattern(rt: HostRuntime) -> Result<(), AllocError> {
    let front = ["lotosseq", "search", "--depth", "255"];
    let words = repeated_words(rt.alloc(), front.as_slice(), &["<until>", "A"], 255)?;
    let line = repeated(rt.alloc(), b"A", b" A", 254, b"\n")?;
    expect_output(&rt, rt.alloc(), words.as_slice(), LOOP, line.as_slice());
    Ok(())
}

#[test]
fn a_match_with_512_words_of_a_pattern_and_a_run_of_512_steps(
    rt: HostRuntime,
) -> Result<(), AllocError> {
    let front = ["lotosseq", "ever", "--explain"];
    let words = repeated_words(rt.alloc(), front.as_slice(), &["<until>", "A"], 256)?;
    let line = slow_line(rt.alloc(), 256)?;
    expect_output(
        &rt,
        rt.alloc(),
        words.as_slice(),
        SLOW_LOOP,
        line.as_slice(),
    );
    Ok(())
}

/// The length of a long name, in bytes.
const LONG: usize = 70_000;

/// A specification that does one gate with a long name.
fn long_gate(alloc: Global) -> Result<Vec<u8>, AllocError> {
    let gates = repeated(
        alloc,
        b"specification S [",
        b"a",
        LONG,
        b"] : noexit behaviour ",
    )?;
    repeated(alloc, gates.as_slice(), b"a", LONG, b"; stop endspec")
}

/// The line of the gate with the long name, with its run.
fn long_line(alloc: Global) -> Result<Vec<u8>, AllocError> {
    let sequence = repeated(alloc, b"", b"A", LONG, b" : ")?;
    repeated(alloc, sequence.as_slice(), b"A", LONG, b"\n")
}

#[test]
fn lines_of_140_004_bytes(rt: HostRuntime) -> Result<(), AllocError> {
    let text = long_gate(rt.alloc())?;
    let line = long_line(rt.alloc())?;
    for words in [
        ["lotosseq", "search", "--depth", "1", "--explain", "<any>"].as_slice(),
        ["lotosseq", "ever", "--explain", "<any>"].as_slice(),
    ] {
        expect_output(&rt, rt.alloc(), words, text.as_slice(), line.as_slice());
    }
    Ok(())
}

#[test]
fn a_label_of_70_000_bytes_that_can_come(rt: HostRuntime) -> Result<(), AllocError> {
    let text = long_gate(rt.alloc())?;
    let line = repeated(rt.alloc(), b"", b"A", LONG, b"\n")?;
    let words = ["lotosseq", "after"];
    expect_output(
        &rt,
        rt.alloc(),
        words.as_slice(),
        text.as_slice(),
        line.as_slice(),
    );
    Ok(())
}

/// So many labels `A`, with a blank after each.
fn long_log(alloc: Global, count: usize) -> Result<String, AllocError> {
    let mut log = String::new(alloc);
    for _label in 0..count {
        log.push_str("A ")?;
    }
    Ok(log)
}

#[test]
fn a_sequence_of_66_000_labels_in_one_word(rt: HostRuntime) -> Result<(), AllocError> {
    let log = long_log(rt.alloc(), 66_000)?;
    let words = ["lotosseq", "after", log.as_str()];
    expect_output(&rt, rt.alloc(), words.as_slice(), SLOW_LOOP, b"A\n");
    Ok(())
}

#[test]
fn a_process_with_a_name_of_70_000_bytes(rt: HostRuntime) -> Result<(), AllocError> {
    let front = b"specification S : noexit behaviour stop where process ";
    let text = repeated(
        rt.alloc(),
        front,
        b"p",
        LONG,
        b" : noexit := stop endproc endspec",
    )?;
    let line = repeated(rt.alloc(), b"", b"P", LONG, b" 0 noexit\n")?;
    let words = ["lotosseq", "check"];
    expect_output(
        &rt,
        rt.alloc(),
        words.as_slice(),
        text.as_slice(),
        line.as_slice(),
    );
    Ok(())
}
