//! Specifications with more than 255 processes and gates, and with more than 65,536 bytes and tokens.

use super::super::expected_output::expect_output;
use std::alloc::{AllocError, Global};

const CHECK: &[&str] = &["lotosseq", "check"];

const SEARCH: &[&str] = &["lotosseq", "search", "--depth", "1", "A"];

const EVER: &[&str] = &["lotosseq", "ever", "A"];

/// The lines of so many processes with one gate each, named `P0`, `P1` and so on.
fn process_lines(alloc: Global, count: usize) -> Result<String, AllocError> {
    let mut lines = String::new(alloc);
    for number in 0..count {
        lines.push_str(format!(in alloc; "P{number} 1 noexit\n")?.as_str())?;
    }
    Ok(lines)
}

const FRONT: &str = "specification S [a] : noexit behaviour P0[a] where";

/// Three hundred processes of which each but the last only calls the next.
fn chain(alloc: Global) -> Result<String, AllocError> {
    let mut text = String::from_str(alloc, FRONT)?;
    for number in 0..299usize {
        let called = number + 1;
        let process = format!(in alloc; " process P{number} [x] : noexit := P{called}[x] endproc")?;
        text.push_str(process.as_str())?;
    }
    text.push_str(" process P299 [x] : noexit := x; stop endproc endspec")?;
    Ok(text)
}

#[test]
fn three_hundred_processes_that_call_each_other(rt: HostRuntime) -> Result<(), AllocError> {
    let text = chain(rt.alloc())?;
    let lines = process_lines(rt.alloc(), 300)?;
    expect_output(&rt, rt.alloc(), CHECK, text.as_bytes(), lines.as_bytes());
    expect_output(&rt, rt.alloc(), SEARCH, text.as_bytes(), b"A\n");
    expect_output(&rt, rt.alloc(), EVER, text.as_bytes(), b"A\n");
    Ok(())
}

/// Three hundred and fifty processes of 100 actions each: 35,000 actions in more than 70,000 tokens and bytes.
fn many_actions(alloc: Global) -> Result<String, AllocError> {
    let body = actions(alloc)?;
    let body = body.as_str();
    let mut text = String::from_str(alloc, FRONT)?;
    for number in 0..350usize {
        let process = format!(in alloc; " process P{number} [x] : noexit := {body} endproc")?;
        text.push_str(process.as_str())?;
    }
    text.push_str(" endspec")?;
    Ok(text)
}

/// A behaviour of 100 actions.
fn actions(alloc: Global) -> Result<String, AllocError> {
    let mut body = String::new(alloc);
    for _action in 0..100 {
        body.push_str("x;")?;
    }
    body.push_str("stop")?;
    Ok(body)
}

#[test]
fn a_check_of_70_000_tokens(rt: HostRuntime) -> Result<(), AllocError> {
    let text = many_actions(rt.alloc())?;
    let lines = process_lines(rt.alloc(), 350)?;
    expect_output(&rt, rt.alloc(), CHECK, text.as_bytes(), lines.as_bytes());
    Ok(())
}

#[test]
fn a_search_of_35_000_actions(rt: HostRuntime) -> Result<(), AllocError> {
    let text = many_actions(rt.alloc())?;
    expect_output(&rt, rt.alloc(), SEARCH, text.as_bytes(), b"A\n");
    Ok(())
}

#[test]
fn a_match_among_35_000_actions(rt: HostRuntime) -> Result<(), AllocError> {
    let text = many_actions(rt.alloc())?;
    expect_output(&rt, rt.alloc(), EVER, text.as_bytes(), b"A\n");
    Ok(())
}

/// Three hundred gates, of which the last one happens.
fn many_gates(alloc: Global) -> Result<String, AllocError> {
    let mut text = String::from_str(alloc, "specification S [g0")?;
    for number in 1..300usize {
        text.push_str(format!(in alloc; ",g{number}")?.as_str())?;
    }
    text.push_str("] : noexit behaviour g299; stop endspec")?;
    Ok(text)
}

#[test]
fn three_hundred_gates(rt: HostRuntime) -> Result<(), AllocError> {
    let text = many_gates(rt.alloc())?;
    let search = ["lotosseq", "search", "--depth", "1", "<any>"];
    expect_output(
        &rt,
        rt.alloc(),
        search.as_slice(),
        text.as_bytes(),
        b"G299\n",
    );
    let ever = ["lotosseq", "ever", "g299"];
    expect_output(&rt, rt.alloc(), ever.as_slice(), text.as_bytes(), b"G299\n");
    Ok(())
}
