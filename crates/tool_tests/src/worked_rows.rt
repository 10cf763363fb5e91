//! Complete runs of searches, of help, and of words that fit no command: the output, the message, and the status.

use super::expected_output::repeated_words;
use super::rows::{
    REFUSED, REFUSED_FIRST, ROW, Row, expect_refused_first, expect_rows_in_any_pieces,
};
use super::runs::{
    Bytes, Outcome, Parts, RUN, Run, SINGLE, SINGLE_BYTES, Taken, UNREAD, WHOLE, expect,
    expect_broken, expect_parts, expect_refused_unread, expect_refused_words, expect_unflushed,
    expect_unreadable,
};
use super::worked_texts::{DELAYED_OR_LONGER, ONE_STEP, SLOW_WITHOUT_B, TWO_STEPS, UNDECLARED};
use std::alloc::{AllocError, Global};
use std::process::Abort;

/// Texts that are accepted.
#[rattlefmt::skip]
const LISTINGS: &[Row] = &[
    Row { name: "a derivation of exactly the depth", text: TWO_STEPS,
        words: "search --depth 3 A B exit", output: b"A B exit\n", ..ROW },
    Row { name: "termination counts as a step", text: TWO_STEPS, words: "search --depth 2 A B exit", status: 1, ..ROW },
    Row { name: "no word matches the empty sequence alone",
        text: b"specification S [a,b] : noexit behaviour a; stop endspec",
        words: "search --depth 5", output: b"<empty>\n", ..ROW },
    Row { name: "internal steps count", text: SLOW_WITHOUT_B, words: "search --depth 2 A", status: 1, ..ROW },
    Row { name: "internal steps are not observed", text: SLOW_WITHOUT_B,
        words: "search --depth 3 A", output: b"A\n", ..ROW },
    Row { name: "two derivations of one sequence", text: DELAYED_OR_LONGER,
        words: "search --depth 2 A", output: b"A\n", ..ROW },
    Row { name: "the right operand of a choice",
        text: b"specification S [a,b] : noexit behaviour a; stop [] (b; a; stop) endspec",
        words: "search --depth 2 b a", output: b"B A\n", ..ROW },
    Row { name: "the left operand begins as the pattern and goes on otherwise",
        text: b"specification S [a,b] : noexit behaviour a; a; stop [] a; b; stop endspec",
        words: "search --depth 2 a b", output: b"A B\n", ..ROW },
    Row { name: "nothing follows termination", text: b"specification S [a] : exit behaviour exit [] a; exit endspec",
        words: "search --depth 9 exit exit", status: 1, ..ROW },
    Row { name: "termination where the pattern has a gate",
        text: b"specification S [a] : exit behaviour exit [] a; exit endspec",
        words: "search --depth 2 a EXIT", output: b"A exit\n", ..ROW },
    Row { name: "a label that is no gate never matches", text: ONE_STEP, words: "search --depth 9 C",
        message: b"lotosseq: word 1, C, is no gate of the specification and never matches\n", status: 1, ..ROW },
];

/// Texts that are refused.
#[rattlefmt::skip]
const REFUSALS: &[Row] = &[
    Row { name: "a gate that is not declared", text: UNDECLARED,
        words: "search --depth 1 A", message: b"lotosseq: 1:40: E21 gate B is not declared\n", ..REFUSED },
    Row { name: "a gate that is declared twice, in two cases",
        text: b"specification S [a,A] : noexit behaviour stop endspec",
        words: "search --depth 1 A", message: b"lotosseq: 1:20: E20 gate A is declared twice\n", ..REFUSED },
    Row { name: "a gate declared twice is found before one that is not declared",
        text: b"specification S [a,a] : noexit behaviour b; stop endspec",
        words: "search --depth 1 A", message: b"lotosseq: 1:20: E20 gate A is declared twice\n", ..REFUSED },
    Row { name: "declared exit", text: b"specification S [a] : exit behaviour a; stop endspec",
        words: "search --depth 1 A", message: b"lotosseq: 1:15: E25 S is declared exit and is noexit\n", ..REFUSED },
    Row { name: "declared noexit, on the second line", text: b"specification\nS [a] : noexit behaviour a; exit endspec",
        words: "search --depth 1 A", message: b"lotosseq: 2:1: E25 S is declared noexit and is exit\n", ..REFUSED },
    Row { name: "a text that ends after a semicolon", text: b"specification S [a] : noexit behaviour a;",
        words: "search --depth 1 A", message: b"lotosseq: 1:42: E06 text ends too early\n", ..REFUSED },
    Row { name: "the empty text",
        words: "search --depth 1 A", message: b"lotosseq: 1:1: E06 text ends too early\n", ..REFUSED },
    Row { name: "an empty gate list", text: b"specification S [] : noexit behaviour stop endspec",
        words: "search --depth 1 A", message: b"lotosseq: 1:17: E04 token is not expected\n", ..REFUSED },
    Row { name: "a byte that begins no token", text: b"specification S [a] : noexit\n\tbehaviour a; \xff stop endspec",
        words: "search --depth 1 A", message: b"lotosseq: 2:15: E01 byte begins no token\n", ..REFUSED },
];

#[test]
fn searches(rt: HostRuntime) {
    expect_rows_in_any_pieces(&rt, rt.alloc(), LISTINGS);
}

#[test]
fn searches_of_texts_that_are_refused(rt: HostRuntime) {
    expect_rows_in_any_pieces(&rt, rt.alloc(), REFUSALS);
}

/// Command lines with patterns that are refused before anything is read, and the message of each.
#[rattlefmt::skip]
const PATTERNS: &[Row] = &[
    Row { words: "search --depth 1 I",
        message: b"lotosseq: E45 word 1 is i, which cannot be observed\n", ..REFUSED_FIRST },
    Row { words: "search --depth 1 i",
        message: b"lotosseq: E45 word 1 is i, which cannot be observed\n", ..REFUSED_FIRST },
    Row { words: "search --depth 1 <until> i",
        message: b"lotosseq: E45 word 2 is i, which cannot be observed\n", ..REFUSED_FIRST },
    Row { words: "search --depth 1 <while> i",
        message: b"lotosseq: E45 word 2 is i, which cannot be observed\n", ..REFUSED_FIRST },
    Row { words: "search --depth 1 A <while>",
        message: b"lotosseq: E48 word 2 needs a label or <any> after it\n", ..REFUSED_FIRST },
    Row { words: "search --depth 1 <while> <deadlock>",
        message: b"lotosseq: E48 word 1 needs a label or <any> after it\n", ..REFUSED_FIRST },
    Row { words: "search --depth 1 A-B",
        message: b"lotosseq: E41 word 1 is neither a label nor an element\n", ..REFUSED_FIRST },
    Row { words: "search --depth 1 <foo>",
        message: b"lotosseq: E41 word 1 is neither a label nor an element\n", ..REFUSED_FIRST },
    Row { words: "search --depth 1 A 1a i",
        message: b"lotosseq: E41 word 2 is neither a label nor an element\n", ..REFUSED_FIRST },
    Row { words: "search --depth 1 <until>",
        message: b"lotosseq: E42 word 1 needs a label or <deadlock> after it\n", ..REFUSED_FIRST },
    Row { words: "search --depth 1 <until> <any>",
        message: b"lotosseq: E42 word 1 needs a label or <deadlock> after it\n", ..REFUSED_FIRST },
    Row { words: "search --depth 1 <deadlock> A",
        message: b"lotosseq: E43 word 2 follows an end element\n", ..REFUSED_FIRST },
    Row { words: "search --depth 1 A <deadlock> B",
        message: b"lotosseq: E43 word 3 follows an end element\n", ..REFUSED_FIRST },
    Row { words: "search --depth 1 --after A I",
        message: b"lotosseq: E45 word 1 is i, which cannot be observed\n", ..REFUSED_FIRST },
    Row { words: "search --depth 1 --after i A-B",
        message: b"lotosseq: E41 word 1 is neither a label nor an element\n", ..REFUSED_FIRST },
];

#[test]
fn patterns_that_are_refused_before_anything_is_read(rt: HostRuntime) {
    expect_refused_first(&rt, rt.alloc(), PATTERNS);
}

/// The same with sets of labels.
#[rattlefmt::skip]
const SETS: &[Row] = &[
    Row { words: "search --depth 1 A,,B",
        message: b"lotosseq: E41 word 1 is neither a label nor an element\n", ..REFUSED_FIRST },
    Row { words: "search --depth 1 A B,<any>",
        message: b"lotosseq: E41 word 2 is neither a label nor an element\n", ..REFUSED_FIRST },
    Row { words: "search --depth 1 <until> A,",
        message: b"lotosseq: E42 word 1 needs a label or <deadlock> after it\n", ..REFUSED_FIRST },
    Row { words: "search --depth 1 <while> ,A",
        message: b"lotosseq: E48 word 1 needs a label or <any> after it\n", ..REFUSED_FIRST },
    Row { words: "search --depth 1 A,i",
        message: b"lotosseq: E45 word 1 is i, which cannot be observed\n", ..REFUSED_FIRST },
    Row { words: "search --depth 1 <until> <not> I,A",
        message: b"lotosseq: E45 word 3 is i, which cannot be observed\n", ..REFUSED_FIRST },
    Row { words: "search --depth 1 A <not>",
        message: b"lotosseq: E50 word 2 needs a label after it\n", ..REFUSED_FIRST },
    Row { words: "search --depth 1 <while> <not> <any>",
        message: b"lotosseq: E50 word 2 needs a label after it\n", ..REFUSED_FIRST },
    Row { words: "search --depth 1 <never> A",
        message: b"lotosseq: E51 word 1 is answered by ever alone\n", ..REFUSED_FIRST },
    Row { words: "search --depth 1 A <until> <LiveLock>",
        message: b"lotosseq: E51 word 3 is answered by ever alone\n", ..REFUSED_FIRST },
    Row { words: "search --depth 1 <forever>",
        message: b"lotosseq: E51 word 1 is answered by ever alone\n", ..REFUSED_FIRST },
    Row { words: "search --depth 1 <while> <never> A",
        message: b"lotosseq: E48 word 1 needs a label or <any> after it\n", ..REFUSED_FIRST },
];

#[test]
fn sets_that_are_refused_before_anything_is_read(rt: HostRuntime) {
    expect_refused_first(&rt, rt.alloc(), SETS);
}

/// Values of `--after` that are not lines of a listing.
const NO_LINES: &[&str] = &[
    "",
    " ",
    "A  B",
    " A",
    "A ",
    "A B ",
    "i",
    "I",
    "A i",
    "<EMPT>",
    "<empty> A",
    "<any>",
    "A-B",
    "1A",
    "_A",
    "A\tB",
    " : A",
    "A :A: B",
];

/// Expects that the line is refused as a mark.
fn expect_no_mark(rt: &impl Abort, alloc: Global, line: &'static str) {
    let words = ["lotosseq", "search", "--depth", "1", "--after", line, "A"];
    let message = b"lotosseq: E46 mark is no line of a listing\n";
    expect_refused_words(rt, alloc, line, words.as_slice(), message);
}

#[test]
fn marks_that_are_refused_before_anything_is_read(rt: HostRuntime) {
    for line in NO_LINES {
        expect_no_mark(&rt, rt.alloc(), *line);
    }
}

/// The words of a search for so many labels `A`.
fn many_words(alloc: Global, count: usize) -> Result<Vec<&'static str>, AllocError> {
    repeated_words(
        alloc,
        &["lotosseq", "search", "--depth", "255"],
        &["A"],
        count,
    )
}

/// Expects what a search for so many labels writes, and its status; if it is refused, nothing was read.
fn expect_elements(
    rt: &impl Abort,
    alloc: Global,
    count: usize,
    message: &[u8],
    status: u8,
) -> Result<(), AllocError> {
    let words = many_words(alloc, count)?;
    let run = Run {
        name: "elements of a pattern",
        number: count,
        words: words.as_slice(),
        text: b"specification S [a] : noexit behaviour a; stop endspec",
        ..RUN
    };
    if status == 2 {
        expect_refused_unread(rt, alloc, &run, message);
    } else {
        expect_searched(rt, alloc, &run, message, status);
    }
    Ok(())
}

/// Expects that the text is read, and that no sequence is found.
fn expect_searched(rt: &impl Abort, alloc: Global, run: &Run<'_, '_>, message: &[u8], status: u8) {
    let outcome = Outcome {
        output: b"",
        message,
        status,
        flushes: 1,
    };
    expect(rt, alloc, run, &outcome);
}

#[test]
fn a_pattern_has_at_most_256_elements(rt: HostRuntime) -> Result<(), AllocError> {
    expect_elements(&rt, rt.alloc(), 256, b"", 1)?;
    expect_elements(
        &rt,
        rt.alloc(),
        257,
        b"lotosseq: E44 pattern is over 256 elements\n",
        2,
    )
}

const WORDS: &[&str] = &["lotosseq", "search", "--depth", "3", "A", "B", "exit"];

const LINE: &[u8] = b"A B exit\n";

/// A run that writes the line.
const LISTED: Run<'static, 'static> = Run {
    name: "a listing",
    words: WORDS,
    text: TWO_STEPS,
    output: SINGLE,
    message: SINGLE,
    ..RUN
};

#[test]
fn each_read_fails_in_turn(rt: HostRuntime) {
    let run = Run { piece: 1, ..LISTED };
    for number in 1usize..59 {
        expect_unreadable(&rt, rt.alloc(), &run, number);
    }
}

#[test]
fn the_output_fails_after_each_byte(rt: HostRuntime) {
    for most in 0usize..9 {
        expect_broken(
            &rt,
            rt.alloc(),
            &LISTED,
            most,
            LINE,
            b"lotosseq: stopped before the first line: output cannot be written\n",
        );
    }
}

#[test]
fn a_flush_that_fails_is_a_failed_write(rt: HostRuntime) {
    let run = Run {
        output: Taken { piece: 4, ..WHOLE },
        ..LISTED
    };
    expect_unflushed(
        &rt,
        rt.alloc(),
        &run,
        LINE,
        b"lotosseq: stopped after A B exit: output cannot be written\n",
    );
}

#[test]
fn a_message_that_cannot_be_written_changes_no_status(rt: HostRuntime) {
    let run = Run {
        name: "a message that cannot be written",
        words: WORDS,
        text: b"",
        message: Taken {
            piece: 1,
            most: 3,
            ..WHOLE
        },
        ..SINGLE_BYTES
    };
    let outcome = Outcome {
        output: b"",
        message: b"lot",
        status: 2,
        flushes: 0,
    };
    expect(&rt, rt.alloc(), &run, &outcome);
}

/// Words that ask for help.
const HELP: &[&[&str]] = &[
    &["lotosseq", "--help"],
    &["lotosseq", "search", "--help"],
    &["lotosseq", "check", "--help"],
    &["lotosseq", "help"],
];

#[test]
fn help_goes_to_the_output(rt: HostRuntime) {
    let parts = Parts {
        output: Bytes::AtLeastOne,
        message: Bytes::Are(b""),
        status: 0,
        flushes: Some(1),
        ..UNREAD
    };
    for words in HELP {
        let run = Run {
            words: *words,
            ..RUN
        };
        expect_parts(&rt, rt.alloc(), &run, &parts);
    }
}

/// Words that fit no command.
const NO_COMMANDS: &[&[&str]] = &[
    &["lotosseq"],
    &["lotosseq", "search", "A"],
    &["lotosseq", "search", "--depth", "256", "A"],
    &["lotosseq", "search", "--depth", "1", "--depth", "1"],
    &["lotosseq", "search", "--depth", "one"],
    &["lotosseq", "search", "--depth"],
    &["lotosseq", "search", "--limit", "1", "A"],
    &["lotosseq", "search", "--depth=1", "--limit", "0"],
    &["lotosseq", "search", "--depth=1", "--limit=1000000001"],
    &["lotosseq", "search", "--depth=1", "--limit=1", "--limit=1"],
    &["lotosseq", "search", "--depth=1", "--limit"],
    &["lotosseq", "search", "--depth=1", "--terms", "0"],
    &["lotosseq", "search", "--depth=1", "--terms=1000001"],
    &["lotosseq", "search", "--depth=1", "--terms=1", "--terms=1"],
    &["lotosseq", "search", "--depth=1", "--terms"],
    &["lotosseq", "search", "--depth=1", "--after"],
    &["lotosseq", "search", "--depth=1", "--after=A", "--after=A"],
    &["lotosseq", "search", "--depth=1", "--explain", "--explain"],
    &["lotosseq", "search", "--depth=1", "--explain=yes"],
    &["lotosseq", "search", "--depth=1", "--strong", "--strong"],
    &["lotosseq", "search", "--depth=1", "--strong=yes"],
    &["lotosseq", "search", "--depth=1", "--all"],
    &["lotosseq", "check", "A"],
    &["lotosseq", "check", "--depth", "1"],
    &["lotosseq", "check", "search", "--depth", "1"],
];

#[test]
fn command_faults(rt: HostRuntime) {
    for words in NO_COMMANDS {
        let run = Run {
            words: *words,
            ..RUN
        };
        expect_parts(&rt, rt.alloc(), &run, &UNREAD);
    }
}
