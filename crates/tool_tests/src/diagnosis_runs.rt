//! Complete runs of `check` with `--explain` and `--warn`: the lines of the processes, the message and the explanation.

use super::expected_output::expect_message;
use super::rows::{REFUSED, ROW, Row, expect_row, expect_run, parts_of};
use super::runs::{
    Bytes, Outcome, Parts, RUN, Run, Taken, WHOLE, expect, expect_broken, expect_parts,
    expect_unflushed, expect_unreadable,
};
use super::worked_texts::{ONE_GATE, ONE_STEP};
use std::alloc::{AllocError, Global};
use std::process::Abort;

const EXPLAIN: &[&str] = &["lotosseq", "check", "--explain"];

const WARN: &[&str] = &["lotosseq", "check", "--warn"];

const BOTH: &[&str] = &["lotosseq", "check", "--warn", "--explain"];

/// Texts that are refused, each with the explanation.
#[rattlefmt::skip]
const MISTAKES: &[(Row, &[u8])] = &[
    (Row { name: "no semicolon after a gate", text: b"specification S [a] : noexit\nbehaviour a stop\nendspec\n",
        message: b"lotosseq: 2:13: E04 token is not expected\n", ..REFUSED },
        b"  behaviour a stop\n              ^\n  `stop` is a reserved word\n  a `;` may be missing between `a` and it\n  Put `;` after `a` if it is a gate, or an operator as `[]` if it is a process.\n"),
    (Row { name: "an equals sign for a definition",
        text: b"specification S [a] : noexit behaviour P[a]\nwhere process P [x] : noexit = x; stop endproc\nendspec",
        message: b"lotosseq: 2:30: E01 byte begins no token\n", ..REFUSED },
        b"  where process P [x] : noexit = x; stop endproc\n                               ^\n  `=` begins no word and no sign\n  could be here, among others: `:=`\n  Write `:=` after the functionality of a process.\n"),
    (Row { name: "a gate called in", text: b"specification S [in, out] : noexit\nbehaviour in; out; stop endspec",
        message: b"lotosseq: 1:18: E04 token is not expected\n", ..REFUSED },
        b"  specification S [in, out] : noexit\n                   ^\n  `in` is a reserved word\n  could be here, among others: a name\n  Choose another name if it is meant as one, or put what is missing before it.\n"),
    (Row { name: "a byte order mark", text: b"\xef\xbb\xbfspecification S : noexit behaviour stop endspec",
        message: b"lotosseq: 1:1: E01 byte begins no token\n", ..REFUSED },
        b"  ?specification S : noexit behaviour stop endspec\n  ^\n  a byte order mark\n  could be here, among others: `specification`\n  Save the text without a byte order mark.\n"),
    (Row { name: "no endproc",
        text: b"specification S [a] : noexit\nbehaviour P[a]\nwhere\nprocess P [x] : noexit := x; stop\nendspec\n",
        message: b"lotosseq: 5:1: E04 token is not expected\n", ..REFUSED },
        b"  endspec\n  ^\n  `endspec` is a reserved word\n  could be here, among others: `[]` `|[` `||` `|||` `[>` `>>` `where` `endproc`\n  `process` `P`, which begins at 4:1, has no `endproc` before it\n  Put what is missing before it, or remove it.\n"),
    (Row { name: "no endspec", text: b"specification S [a] : noexit\nbehaviour a; stop",
        message: b"lotosseq: 2:18: E06 text ends too early\n", ..REFUSED },
        b"  behaviour a; stop\n                   ^\n  the text ends here\n  could be here, among others: `[]` `|[` `||` `|||` `[>` `>>` `where` `endspec`\n  `specification` `S`, which begins at 1:1, has no `endspec`\n  Put what is missing at the end: close each parenthesis, each process and the specification.\n"),
    (Row { name: "a misspelt word", text: b"specification S [a] : noexit behavoir a; stop endspec",
        message: b"lotosseq: 1:30: E04 token is not expected\n", ..REFUSED },
        b"  specification S [a] : noexit behavoir a; stop endspec\n                               ^\n  `behavoir` is an identifier\n  could be here, among others: `behaviour`\n  Did you mean `behaviour`? If not, put what is missing before it.\n"),
    (Row { name: "a gate that is not declared", text: b"specification S [a] : noexit\nbehaviour b; stop\nendspec",
        message: b"lotosseq: 2:11: E21 gate B is not declared\n", ..REFUSED },
        b"  behaviour b; stop\n            ^\n  Correct the name, or add the gate to the definition and to its calls: a process sees its own gates alone.\n"),
    (Row { name: "a misspelt gate", text: b"specification S [send] : noexit\nbehaviour sned; stop\nendspec",
        message: b"lotosseq: 2:11: E21 gate SNED is not declared\n", ..REFUSED },
        b"  behaviour sned; stop\n            ^\n  a gate in scope has a similar name: SEND\n  Correct the name, or add the gate to the definition and to its calls: a process sees its own gates alone.\n"),
    (Row { name: "a process that is not declared", text: b"specification S [a] : noexit\nbehaviour Q[a]\nendspec",
        message: b"lotosseq: 2:11: E22 process Q is not declared\n", ..REFUSED },
        b"  behaviour Q[a]\n            ^\n  Correct the name, or define the process in a `where` around the call; if it is a gate, put `;` after it.\n"),
    (Row { name: "a misspelt process",
        text: b"specification S [a] : noexit\nbehaviour Sendr[a]\nwhere process Sender [x] : noexit := x; stop endproc\nendspec",
        message: b"lotosseq: 2:11: E22 process SENDR is not declared\n", ..REFUSED },
        b"  behaviour Sendr[a]\n            ^\n  a process that is visible here has a similar name: SENDER\n  Correct the name, or define the process in a `where` around the call; if it is a gate, put `;` after it.\n"),
    (Row { name: "another functionality than the declared one",
        text: b"specification S [a] : exit\nbehaviour a; stop\nendspec",
        message: b"lotosseq: 1:15: E25 S is declared exit and is noexit\n", ..REFUSED },
        b"  specification S [a] : exit\n                ^\n  it is `noexit` because of a `stop`\n  Declare it `noexit`, or end the behaviour with `exit`; a call has what its process declares.\n"),
    (Row { name: "a process that calls itself at once",
        text: b"specification S [a] : noexit\nbehaviour P[a]\nwhere process P [x] : noexit := P[x] endproc\nendspec",
        message: b"lotosseq: 3:15: E27 the unguarded calls of P do not end\n", ..REFUSED },
        b"  where process P [x] : noexit := P[x] endproc\n                ^\n  P calls itself at 3:33\n  Put an action before one of the calls, as in `a; P[a]`, or the call to the right of `>>`.\n"),
    (Row { name: "no exit to the left of enabling",
        text: b"specification S [a] : noexit\nbehaviour a; stop >> stop\nendspec",
        message: b"lotosseq: 2:19: E26 left side of >> never exits\n", ..REFUSED },
        b"  behaviour a; stop >> stop\n                    ^\n  End the behaviour to the left of `>>` with `exit`.\n"),
];

/// Runs the words on the text of a row, and expects the message with the explanation after it.
fn expect_refusal(
    rt: &impl Abort,
    alloc: Global,
    row: &Row,
    words: &'static str,
    explanation: &'static [u8],
) {
    let devices = Run {
        piece: 3,
        message: Taken { piece: 7, ..WHOLE },
        ..RUN
    };
    let parts = Parts {
        message: Bytes::Join(row.message, explanation),
        ..parts_of(row)
    };
    expect_run(rt, alloc, &Row { words, ..*row }, &devices, &parts);
}

/// Expects that each mistake is refused, and is explained or not.
fn expect_mistakes(rt: &impl Abort, alloc: Global, words: &'static str, explains: bool) {
    for (row, explanation) in MISTAKES {
        let explained: &[u8] = if explains { *explanation } else { b"" };
        expect_refusal(rt, alloc, row, words, explained);
    }
}

#[test]
fn mistakes_are_explained(rt: HostRuntime) {
    expect_mistakes(&rt, rt.alloc(), "check --explain", true);
    expect_mistakes(&rt, rt.alloc(), "check --warn --explain", true);
}

#[test]
fn mistakes_are_explained_on_request_alone(rt: HostRuntime) {
    expect_mistakes(&rt, rt.alloc(), "check --warn", false);
}

const LINE: &[u8] = b"P 1 noexit\n";

/// A run that writes the line.
const CHECKED: Run<'static, 'static> = Run {
    name: "a check",
    words: WARN,
    text: ONE_GATE,
    ..RUN
};

const UNWRITTEN: &[u8] = b"lotosseq: output cannot be written\n";

#[test]
fn an_accepted_specification_has_no_explanation(rt: HostRuntime) {
    let outcome = Outcome {
        output: LINE,
        message: b"",
        status: 0,
        flushes: 1,
    };
    for words in [EXPLAIN, WARN, BOTH] {
        expect(&rt, rt.alloc(), &Run { words, ..CHECKED }, &outcome);
    }
}

#[test]
fn input_that_cannot_be_read_has_no_explanation(rt: HostRuntime) {
    for words in [EXPLAIN, WARN] {
        let run = Run {
            words,
            piece: 3,
            ..CHECKED
        };
        expect_unreadable(&rt, rt.alloc(), &run, 2);
    }
}

#[test]
fn a_text_that_is_too_long_is_explained(rt: HostRuntime) -> Result<(), AllocError> {
    let text = super::expected_output::repeated(rt.alloc(), b"", b" ", 1_048_577, b"")?;
    expect_message(
        &rt,
        rt.alloc(),
        EXPLAIN,
        text.as_slice(),
        b"lotosseq: E03 text is longer than 1048576 bytes\n  Leave out comments, and processes that are not called.\n",
        2,
    );
    Ok(())
}

#[test]
fn output_that_fails_has_its_message_alone(rt: HostRuntime) {
    for words in [EXPLAIN, WARN, BOTH] {
        let run = Run {
            words,
            output: Taken { piece: 2, ..WHOLE },
            ..CHECKED
        };
        for most in 0..LINE.len() {
            expect_broken(&rt, rt.alloc(), &run, most, LINE, UNWRITTEN);
        }
    }
}

/// Explains a fault over an error stream that is full after `most` bytes, and expects the status.
fn expect_cut_message(rt: &impl Abort, alloc: Global, most: usize) {
    let run = Run {
        name: "a message that is cut",
        number: most,
        words: EXPLAIN,
        text: b"specification S [a] : noexit\nbehaviour a stop\nendspec\n",
        message: Taken {
            piece: 5,
            most,
            ..WHOLE
        },
        ..RUN
    };
    let parts = Parts {
        output: Bytes::Are(b""),
        message: Bytes::AtMost(most),
        status: 2,
        reads: None,
        flushes: Some(0),
    };
    expect_parts(rt, alloc, &run, &parts);
}

#[test]
fn messages_that_cannot_be_written_change_no_status(rt: HostRuntime) {
    for most in [0usize, 1, 41, 42, 43, 60, 100] {
        expect_cut_message(&rt, rt.alloc(), most);
    }
}

/// Accepted texts: the lines of the processes, and the warnings.
#[rattlefmt::skip]
const WARNED: &[Row] = &[
    Row { name: "a process that no call names",
        text: b"specification S [a] : noexit\nbehaviour a; stop\nwhere\nprocess P [x] : noexit := x; stop endproc\nendspec",
        output: b"P 1 noexit\n", message: b"lotosseq: 4:9: warning: process P is never called\n", ..ROW },
    Row { name: "gates that are not used, in two definitions",
        text: b"specification S [a,b] : noexit\nbehaviour P[a]\nwhere process P [x] : noexit := stop endproc endspec",
        output: b"P 1 noexit\n",
        message: b"lotosseq: 1:15: warning: the behaviour of S can do nothing: no action, no internal step, no termination\nlotosseq: 1:20: warning: gate B of S is not used\nlotosseq: 3:18: warning: gate X of P is not used\n",
        ..ROW },
    Row { name: "a gate that neither side offers",
        text: b"specification S [a] : noexit behaviour stop\n |[a]| stop endspec",
        message: b"lotosseq: 1:15: warning: the behaviour of S can do nothing: no action, no internal step, no termination\nlotosseq: 2:4: warning: gate A of `|[..]|` is never offered on the left\nlotosseq: 2:4: warning: gate A of `|[..]|` is never offered on the right\n",
        ..ROW },
    Row { name: "a hidden gate on which two sides do not synchronize",
        text: b"specification S [a,b] : noexit behaviour\nhide c in (a; c; stop ||| c; b; stop) endspec",
        message: b"lotosseq: 2:6: warning: gate C of `hide` is offered on both sides of a parallel composition, which do not synchronize on it\n",
        ..ROW },
    Row { name: "nothing to warn of", text: ONE_STEP, ..ROW },
];

/// Runs the words on the text of a row, and expects the lines and this message.
fn expect_warnings(
    rt: &impl Abort,
    alloc: Global,
    row: &Row,
    words: &'static str,
    message: &'static [u8],
) {
    let devices = Run {
        piece: 5,
        output: Taken { piece: 3, ..WHOLE },
        message: Taken { piece: 7, ..WHOLE },
        ..RUN
    };
    let warned = Row {
        words,
        message,
        ..*row
    };
    expect_row(rt, alloc, &warned, &devices);
}

#[test]
fn warnings_after_the_lines(rt: HostRuntime) {
    for row in WARNED {
        expect_warnings(&rt, rt.alloc(), row, "check --warn", row.message);
        expect_warnings(&rt, rt.alloc(), row, "check --warn --explain", row.message);
        expect_warnings(&rt, rt.alloc(), row, "check --explain", b"");
    }
}

#[test]
fn no_warnings_if_the_output_fails(rt: HostRuntime) {
    for row in WARNED {
        let run = Run {
            name: row.name,
            text: row.text,
            ..CHECKED
        };
        expect_unflushed(&rt, rt.alloc(), &run, row.output, UNWRITTEN);
    }
}
