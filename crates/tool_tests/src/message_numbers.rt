//! Numbers in messages: each of them is greater than 255.

use super::expected_output::{expect_message, repeated, repeated_words};
use super::rows::push_words;
use std::alloc::{AllocError, Global};

const TEXT: &[u8] = b"specification S [a] : noexit behaviour a; stop endspec";

const SEARCH: &[&str] = &["lotosseq", "search", "--depth", "1", "--known"];

/// How often the pattern begins with `<while> A`, its last words, and the message about the word with the number 301.
#[rattlefmt::skip]
const ROWS: &[(usize, &str, &[u8])] = &[
    (150, "A-B", b"lotosseq: E41 word 301 is neither a label nor an element\n"),
    (150, "<until>", b"lotosseq: E42 word 301 needs a label or <deadlock> after it\n"),
    (149, "<until> <deadlock> A", b"lotosseq: E43 word 301 follows an end element\n"),
    (150, "i", b"lotosseq: E45 word 301 is i, which cannot be observed\n"),
    (150, "<while>", b"lotosseq: E48 word 301 needs a label or <any> after it\n"),
    (150, "B", b"lotosseq: E49 word 301 is no gate of the specification\n"),
    (150, "<not>", b"lotosseq: E50 word 301 needs a label after it\n"),
    (150, "<never>", b"lotosseq: E51 word 301 is answered by ever alone\n"),
];

#[test]
fn the_word_with_the_number_301(rt: HostRuntime) -> Result<(), AllocError> {
    for (count, last, message) in ROWS {
        let mut words = repeated_words(rt.alloc(), SEARCH, &["<while>", "A"], *count)?;
        push_words(&mut words, *last)?;
        expect_message(&rt, rt.alloc(), words.as_slice(), TEXT, *message, 2);
    }
    Ok(())
}

/// A gate over and over, and at any time nine internal steps in any order: these reach 512 terms.
const LOOP: &[u8] =
    b"specification S [a,b] : noexit behaviour P[a,b] where process P [x,y] : noexit := x; P[x,y] [] y; Q endproc
process Q : noexit := i; stop ||| i; stop ||| i; stop ||| i; stop ||| i; stop ||| i; stop ||| i; stop ||| i; stop ||| i; stop endproc endspec";

/// The last label of a sequence, after 300 times `A`, the message about it, and the status.
#[rattlefmt::skip]
const LABELS: &[(&str, &[u8], u8)] = &[
    ("A-B", b"lotosseq: E41 word 301 is no label\n", 2),
    ("i", b"lotosseq: E45 word 301 is i, which cannot be observed\n", 2),
    ("C", b"lotosseq: E49 word 301 is no gate of the specification\n", 2),
    ("exit", b"lotosseq: label 301, exit, cannot come here; what can: A B\n", 1),
    ("B", b"lotosseq: stopped: more than 300 terms after 301 labels\n", 4),
];

#[test]
fn the_label_with_the_number_301(rt: HostRuntime) -> Result<(), AllocError> {
    for (last, message, status) in LABELS {
        let front = ["lotosseq", "after", "--terms", "300"];
        let mut words = repeated_words(rt.alloc(), front.as_slice(), &["A"], 300)?;
        words.push(*last)?;
        expect_message(&rt, rt.alloc(), words.as_slice(), LOOP, *message, *status);
    }
    Ok(())
}

#[test]
fn the_300th_column_of_the_301st_line(rt: HostRuntime) -> Result<(), AllocError> {
    let lines = repeated(rt.alloc(), TEXT, b"\n", 300, b"")?;
    let text = repeated(rt.alloc(), lines.as_slice(), b" ", 299, b"?")?;
    let message = b"lotosseq: 301:300: E01 byte begins no token\n";
    expect_message(
        &rt,
        rt.alloc(),
        &["lotosseq", "check"],
        text.as_slice(),
        message,
        2,
    );
    Ok(())
}

/// A call with 301 gates of a process with 300.
fn many_gates(alloc: Global) -> Result<String, AllocError> {
    let mut text = String::from_str(alloc, "specification S [a] : noexit behaviour P[a")?;
    for _gate in 0..300 {
        text.push_str(",a")?;
    }
    text.push_str("] where process P [x")?;
    for number in 1..300usize {
        text.push_str(format!(in alloc; ",x{number}")?.as_str())?;
    }
    text.push_str("] : noexit := stop endproc endspec")?;
    Ok(text)
}

#[test]
fn a_call_with_301_gates(rt: HostRuntime) -> Result<(), AllocError> {
    let text = many_gates(rt.alloc())?;
    let message = b"lotosseq: 1:40: E23 gates of P: 300 formal, 301 actual\n";
    expect_message(
        &rt,
        rt.alloc(),
        &["lotosseq", "check"],
        text.as_bytes(),
        message,
        2,
    );
    Ok(())
}

/// Nine internal steps in any order reach 512 terms.
const NINE_STEPS: &[u8] = b"specification S : noexit behaviour
i; stop ||| i; stop ||| i; stop ||| i; stop ||| i; stop ||| i; stop ||| i; stop ||| i; stop ||| i; stop endspec";

#[test]
fn more_than_300_terms(rt: HostRuntime) {
    let words = ["lotosseq", "search", "--depth", "9", "--terms", "300"];
    let message = b"lotosseq: stopped before the first line: more than 300 terms at <empty>\n";
    expect_message(&rt, rt.alloc(), words.as_slice(), NINE_STEPS, message, 4);
}

/// Two processes with 30 actions each, side by side: 31 * 31 states.
const TWO_ROWS: &[u8] =
    b"specification S [a,b] : noexit behaviour P[a] ||| P[b] where process P [x] : noexit :=
x; x; x; x; x; x; x; x; x; x; x; x; x; x; x; x; x; x; x; x; x; x; x; x; x; x; x; x; x; x; stop endproc endspec";

#[test]
fn more_than_300_states(rt: HostRuntime) {
    let words = [
        "lotosseq",
        "ever",
        "--states",
        "300",
        "<until>",
        "<deadlock>",
    ];
    let message = b"lotosseq: stopped: more than 300 states; --states N allows more\n";
    expect_message(&rt, rt.alloc(), words.as_slice(), TWO_ROWS, message, 4);
}
