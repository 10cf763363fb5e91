//! Complete runs of `check`: the lines of the processes, and the faults of specifications, which a search reports too.

use super::rows::{REFUSED, ROW, Row, expect_row, expect_rows_in_any_pieces};
use super::runs::{
    RUN, Run, SINGLE, Taken, WHOLE, expect_broken, expect_unflushed, expect_unreadable,
};
use super::worked_texts::{TWO_STEPS, UNDECLARED};
use std::alloc::Global;
use std::process::Abort;

/// A check of a text that is accepted.
const CHECKED: Row = Row {
    words: "check",
    ..ROW
};

#[rattlefmt::skip]
const ACCEPTED: &[Row] = &[
    Row { name: "inner processes after their own, one with a name of an outer one",
        text: b"specification S [a] : noexit behaviour P[a] where process P [x] : noexit := Q[x] where process Q [y] : noexit := y; P[y] endproc endproc process Q [x,y] : noexit := x; y; stop endproc endspec",
        output: b"P 1 noexit\nQ 1 noexit\nQ 2 noexit\n", ..CHECKED },
    Row { name: "a process with two gates",
        text: b"specification S [a,b] : noexit behaviour P[a,a] where process P [x,y] : noexit := x; stop |[x]| y; x; stop endproc endspec",
        output: b"P 2 noexit\n", ..CHECKED },
    Row { name: "no process", text: TWO_STEPS, ..CHECKED },
    Row { name: "a call right of enabling, which is guarded",
        text: b"specification S [a] : noexit behaviour P[a] where process P [x] : noexit := x; exit >> P[x] endproc endspec",
        output: b"P 1 noexit\n", ..CHECKED },
    Row { name: "processes without gates, with exit and noexit",
        text: b"specification S : noexit behaviour stop where process P : noexit := exit >> stop endproc process Q : exit := exit [> P endproc endspec",
        output: b"P 0 noexit\nQ 0 exit\n", ..CHECKED },
    Row { name: "ten gates, and names in lower case",
        text: b"specification s : noexit behaviour stop where process p_1 [a,b,c,d,e,f,g,h,i1,j] : noexit := a; stop endproc endspec",
        output: b"P_1 10 noexit\n", ..CHECKED },
    Row { name: "gates that stand twice in lists of hiding, of parallel expressions and of calls",
        text: b"specification S [a] : noexit behaviour hide b, b in P[a,a] |[a,a]| P[b,b] where process P [x,y] : noexit := x; y; stop endproc endspec",
        output: b"P 2 noexit\n", ..CHECKED },
];

/// A fault of each kind.
#[rattlefmt::skip]
const FAULTS: &[Row] = &[
    Row { name: "a gate that is not declared", text: UNDECLARED,
        message: b"lotosseq: 1:40: E21 gate B is not declared\n", ..REFUSED },
    Row { name: "a process that calls itself at once",
        text: b"specification S [a] : noexit behaviour P[a] where process P [x] : noexit := P[x] [] x; stop endproc endspec",
        message: b"lotosseq: 1:59: E27 the unguarded calls of P do not end\n", ..REFUSED },
    Row { name: "a process that is declared exit and never exits",
        text: b"specification S [a] : exit behaviour P[a] where process P [x] : exit := x; stop endproc endspec",
        message: b"lotosseq: 1:57: E25 P is declared exit and is noexit\n", ..REFUSED },
    Row { name: "a comment that is not closed", text: b"specification S (* open",
        message: b"lotosseq: 1:17: E02 comment is not closed\n", ..REFUSED },
    Row { name: "a text that ends after a semicolon", text: b"specification S [a] : noexit behaviour a;",
        message: b"lotosseq: 1:42: E06 text ends too early\n", ..REFUSED },
    Row { name: "the empty text", message: b"lotosseq: 1:1: E06 text ends too early\n", ..REFUSED },
    Row { name: "a word of full LOTOS", text: b"specification S [a] : noexit behaviour choice endspec",
        message: b"lotosseq: 1:40: E07 word of full LOTOS\n", ..REFUSED },
    Row { name: "an empty list of gates", text: b"specification S [] : noexit behaviour stop endspec",
        message: b"lotosseq: 1:17: E04 token is not expected\n", ..REFUSED },
    Row { name: "a gate that is declared twice", text: b"specification S [a,A] : noexit behaviour stop endspec",
        message: b"lotosseq: 1:20: E20 gate A is declared twice\n", ..REFUSED },
    Row { name: "a process that is not declared", text: b"specification S [a] : noexit behaviour Q[a] endspec",
        message: b"lotosseq: 1:40: E22 process Q is not declared\n", ..REFUSED },
    Row { name: "a call with too few gates",
        text: b"specification S [a] : noexit behaviour P[a] where process P [x,y] : noexit := x; stop endproc endspec",
        message: b"lotosseq: 1:40: E23 gates of P: 2 formal, 1 actual\n", ..REFUSED },
    Row { name: "a left operand that never exits",
        text: b"specification S [a] : noexit behaviour a; stop >> stop endspec",
        message: b"lotosseq: 1:48: E26 left side of >> never exits\n", ..REFUSED },
    Row { name: "a process that is declared twice",
        text: b"specification S : noexit behaviour stop where process P : noexit := stop endproc process p : noexit := stop endproc endspec",
        message: b"lotosseq: 1:90: E24 process P is declared twice\n", ..REFUSED },
    Row { name: "two processes that call each other, with one more that calls them",
        text: b"specification S [a] : noexit behaviour a; stop where process T [x] : noexit := x; T[x] endproc process P [x] : noexit := Q[x] endproc process Q [x] : noexit := P[x] [] T[x] endproc process R [x] : noexit := P[x] endproc endspec",
        message: b"lotosseq: 1:104: E27 the unguarded calls of P do not end\n", ..REFUSED },
];

/// Names that their place does not see.
#[rattlefmt::skip]
const SCOPES: &[Row] = &[
    Row { name: "a gate of the outer process",
        text: b"specification S [a] : noexit behaviour P[a] where process P [x] : noexit := Q where process Q : noexit :=\n x; stop endproc endproc endspec",
        message: b"lotosseq: 2:2: E21 gate X is not declared\n", ..REFUSED },
    Row { name: "a gate of the specification in a process",
        text: b"specification S [a] : noexit behaviour P where process P : noexit := a; stop endproc endspec",
        message: b"lotosseq: 1:70: E21 gate A is not declared\n", ..REFUSED },
    Row { name: "an inner process of a sibling",
        text: b"specification S : noexit behaviour P where process P : noexit := R endproc process Q : noexit := stop where process R : noexit := stop endproc endproc endspec",
        message: b"lotosseq: 1:66: E22 process R is not declared\n", ..REFUSED },
    Row { name: "an inner process of another one, from the behaviour",
        text: b"specification S : noexit behaviour Q where process P : noexit := Q where process Q : noexit := stop endproc endproc endspec",
        message: b"lotosseq: 1:36: E22 process Q is not declared\n", ..REFUSED },
    Row { name: "a call with too many gates of the nearest process of its name",
        text: b"specification S [a] : noexit behaviour P[a,a] where process P [x,y] : noexit := x; y; P[x,y] where process P [x] : noexit := x; stop endproc endproc endspec",
        message: b"lotosseq: 1:87: E23 gates of P: 1 formal, 2 actual\n", ..REFUSED },
    Row { name: "a call left of enabling, which is not guarded",
        text: b"specification S [a] : noexit behaviour stop where process P [x] : exit := P[x] >> x; exit endproc endspec",
        message: b"lotosseq: 1:59: E27 the unguarded calls of P do not end\n", ..REFUSED },
    Row { name: "a gate that is hidden in the other operand",
        text: b"specification S : noexit behaviour (hide b in b; stop) ||| hide c in b; stop endspec",
        message: b"lotosseq: 1:70: E21 gate B is not declared\n", ..REFUSED },
];

/// Texts with two faults.
#[rattlefmt::skip]
const ORDER: &[Row] = &[
    Row { name: "two faults of one pass, by their places",
        text: b"specification S [a] : noexit behaviour b; Q[a] endspec",
        message: b"lotosseq: 1:40: E21 gate B is not declared\n", ..REFUSED },
    Row { name: "two faults of one pass, the process first",
        text: b"specification S [a] : noexit behaviour Q[b] endspec",
        message: b"lotosseq: 1:40: E22 process Q is not declared\n", ..REFUSED },
    Row { name: "a repeated gate after an unknown one",
        text: b"specification S [a] : noexit behaviour b; stop where process P [x,x] : noexit := stop endproc endspec",
        message: b"lotosseq: 1:67: E20 gate X is declared twice\n", ..REFUSED },
    Row { name: "a wrong number of gates after a wrong functionality",
        text: b"specification S [a] : exit behaviour a; stop where process P [x] : noexit := P endproc endspec",
        message: b"lotosseq: 1:78: E23 gates of P: 1 formal, 0 actual\n", ..REFUSED },
    Row { name: "a wrong functionality after unguarded recursion",
        text: b"specification S : noexit behaviour stop where process P : noexit := P endproc process Q : noexit := exit endproc endspec",
        message: b"lotosseq: 1:87: E25 Q is declared noexit and is exit\n", ..REFUSED },
];

/// Functionalities of composed behaviours.
#[rattlefmt::skip]
const FUNCTIONALITIES: &[Row] = &[
    Row { name: "a parallel expression of which one side exits",
        text: b"specification S : exit behaviour exit ||| stop endspec",
        message: b"lotosseq: 1:15: E25 S is declared exit and is noexit\n", ..REFUSED },
    Row { name: "a disabling of which one side exits", text: b"specification S : noexit behaviour exit [> stop endspec",
        message: b"lotosseq: 1:15: E25 S is declared noexit and is exit\n", ..REFUSED },
    Row { name: "an enabling, by its right operand", text: b"specification S : exit behaviour exit >> stop endspec",
        message: b"lotosseq: 1:15: E25 S is declared exit and is noexit\n", ..REFUSED },
    Row { name: "a call, as it is declared",
        text: b"specification S : exit behaviour P where process P : noexit := stop endproc endspec",
        message: b"lotosseq: 1:15: E25 S is declared exit and is noexit\n", ..REFUSED },
    Row { name: "a left operand that is a call of a process with noexit",
        text: b"specification S : noexit behaviour P >> stop where process P : noexit := stop endproc endspec",
        message: b"lotosseq: 1:38: E26 left side of >> never exits\n", ..REFUSED },
];

#[test]
fn lists_processes(rt: HostRuntime) {
    expect_rows_in_any_pieces(&rt, rt.alloc(), ACCEPTED);
}

/// Expects the message of each text of a check and of a search.
fn expect_faults(rt: &impl Abort, alloc: Global, rows: &[Row]) {
    for row in rows {
        expect_fault(rt, alloc, row, "check");
        expect_fault(rt, alloc, row, "search --depth 1 A");
    }
}

/// Expects that the words refuse the text of a row.
fn expect_fault(rt: &impl Abort, alloc: Global, row: &Row, words: &'static str) {
    expect_row(rt, alloc, &Row { words, ..*row }, &RUN);
}

#[test]
fn names_each_fault(rt: HostRuntime) {
    expect_faults(&rt, rt.alloc(), FAULTS);
}

#[test]
fn names_faults_of_scopes(rt: HostRuntime) {
    expect_faults(&rt, rt.alloc(), SCOPES);
}

#[test]
fn names_the_first_fault(rt: HostRuntime) {
    expect_faults(&rt, rt.alloc(), ORDER);
}

#[test]
fn names_faults_of_functionalities(rt: HostRuntime) {
    expect_faults(&rt, rt.alloc(), FUNCTIONALITIES);
}

const TEXT: &[u8] =
    b"specification S : noexit behaviour stop where process P : noexit := stop endproc endspec";

const LINE: &[u8] = b"P 0 noexit\n";

/// A run that writes the line.
const WRITTEN: Run<'static, 'static> = Run {
    name: "a check",
    words: &["lotosseq", "check"],
    text: TEXT,
    output: Taken { piece: 4, ..WHOLE },
    message: SINGLE,
    ..RUN
};

const UNWRITTEN: &[u8] = b"lotosseq: output cannot be written\n";

#[test]
fn the_output_fails_after_each_byte(rt: HostRuntime) {
    for most in 0usize..11 {
        expect_broken(&rt, rt.alloc(), &WRITTEN, most, LINE, UNWRITTEN);
    }
}

#[test]
fn a_flush_that_fails_is_a_failed_write(rt: HostRuntime) {
    expect_unflushed(&rt, rt.alloc(), &WRITTEN, LINE, UNWRITTEN);
    let empty = Run {
        text: b"specification S : noexit behaviour stop endspec",
        ..WRITTEN
    };
    expect_unflushed(&rt, rt.alloc(), &empty, b"", UNWRITTEN);
}

#[test]
fn each_read_fails_in_turn(rt: HostRuntime) {
    let run = Run {
        piece: 3,
        output: SINGLE,
        ..WRITTEN
    };
    for number in 1usize..30 {
        expect_unreadable(&rt, rt.alloc(), &run, number);
    }
}
