//! Complete runs of `suite`: the output, the message, and the status.

use super::rows::{REFUSED, ROW, Row, expect_rows_in_pieces};
use super::runs::{
    RUN, Run, SINGLE, Taken, WHOLE, expect_broken, expect_refused_words, expect_unreadable,
};
use super::worked_texts::{
    BUFFER, DELAYED, DELAYED_OR_B, GROWING, LINK, MEETING, ONE_GATE, SERVER, SILENT, TURNS,
    UNDECLARED, VANISHING,
};
use std::alloc::Global;
use std::process::Abort;

/// A service that gives back what it was given.
const SERVICE: &[u8] = b"specification S [put, get] : noexit behaviour P [put, get]
where process P [put, get] : noexit := put; get; P [put, get] endproc endspec";

/// `a`, and never `b`.
const ONE_OF_TWO: &[u8] = b"specification S [a,b] : noexit behaviour a; stop endspec";

const NO_GATES: &[u8] = b"specification S : noexit behaviour stop endspec";

const LINK_LINES: &[u8] =
    b"- GET\n- PUT PUT\n+ PUT GET PUT GET\n- PUT GET PUT PUT\n+ PUT GET GET PUT GET\n+ PUT GET GET GET GET GET\n+ PUT GET GET GET PUT GET\n- PUT GET GET PUT PUT PUT\n+ PUT GET GET GET GET PUT PUT PUT\n- PUT GET GET GET PUT PUT PUT PUT\n";

const LINK_LINES_OF_SIX_STATES: &[u8] =
    b"- GET\n- PUT PUT\n- PUT GET PUT PUT\n+ PUT GET PUT GET GET\n+ PUT GET GET PUT GET GET\n+ PUT GET GET PUT PUT GET\n- PUT GET GET PUT PUT PUT\n- PUT GET PUT GET PUT PUT\n+ PUT GET GET GET GET GET GET\n+ PUT GET GET GET GET PUT GET\n+ PUT GET GET GET PUT GET GET\n+ PUT GET GET GET PUT PUT GET\n- PUT GET GET GET PUT PUT PUT PUT\n- PUT GET GET PUT GET PUT PUT PUT\n+ PUT GET GET GET GET GET PUT PUT PUT\n- PUT GET GET GET GET PUT PUT PUT PUT\n+ PUT GET GET GET PUT GET PUT PUT PUT\n";

const MEETING_LINES: &[u8] =
    b"- B\n- C\n- exit\n- A A\n- A C\n- A exit\n- A B A\n- A B B\n- A B exit\n- A B C A\n- A B C B\n- A B C C\n- A B C exit A\n- A B C exit B\n- A B C exit C\n- A B C exit exit\n";

#[rattlefmt::skip]
const SUITES: &[Row] = &[
    Row { name: "messages that are delivered again and again", text: LINK, words: "suite", output: LINK_LINES, ..ROW },
    Row { name: "each message once", text: SERVICE, words: "suite",
        output: b"- GET\n- PUT PUT\n- PUT GET GET\n", ..ROW },
    Row { name: "hidden steps that come back, and some without end", text: VANISHING, words: "suite",
        output: b"- B\n+ A A A\n+ A A B\n- A B A\n- A B B\n", ..ROW },
    Row { name: "a label after an internal step and one without", text: SERVER, words: "suite",
        output: b"- NAK\n- RSP\n- REQ REQ\n- REQ NAK NAK\n- REQ RSP NAK\n", ..ROW },
    Row { name: "termination", text: MEETING, words: "suite", output: MEETING_LINES, ..ROW },
    Row { name: "termination at once", text: b"specification S : exit behaviour exit endspec", words: "suite",
        output: b"- exit exit\n", ..ROW },
    Row { name: "one label again and again", text: ONE_GATE, words: "suite", output: b"+ A\n", ..ROW },
    Row { name: "a gate that is never used", text: ONE_OF_TWO, words: "suite",
        output: b"- B\n- A A\n- A B\n", ..ROW },
    Row { name: "nothing that can be observed", text: SILENT, words: "suite", output: b"- A\n", ..ROW },
    Row { name: "no labels at all", text: NO_GATES, words: "suite", output: b"+ <empty>\n", ..ROW },
];

/// Implementations with more states.
#[rattlefmt::skip]
const EXTRA: &[Row] = &[
    Row { name: "no more", text: SERVICE, words: "suite --extra 0",
        output: b"- GET\n- PUT PUT\n- PUT GET GET\n", ..ROW },
    Row { name: "one more", text: SERVICE, words: "suite --extra 1",
        output: b"- GET\n- PUT PUT\n- PUT GET GET\n+ PUT GET PUT GET\n", ..ROW },
    Row { name: "two more", text: SERVICE, words: "suite --extra=2",
        output: b"- GET\n- PUT PUT\n- PUT GET GET\n- PUT GET PUT PUT\n- PUT GET PUT GET GET\n", ..ROW },
    Row { name: "three more", text: SERVICE, words: "suite --extra=3",
        output: b"- GET\n- PUT PUT\n- PUT GET GET\n- PUT GET PUT PUT\n- PUT GET PUT GET GET\n+ PUT GET PUT GET PUT GET\n", ..ROW },
    Row { name: "one more than five", text: LINK, words: "suite --extra 1", output: LINK_LINES_OF_SIX_STATES, ..ROW },
    Row { name: "one more than three", text: VANISHING, words: "suite --extra 1",
        output: b"- B\n- A B A\n- A B B\n+ A A A A\n+ A A A B\n- A A B A\n- A A B B\n", ..ROW },
    Row { name: "three more than one", text: ONE_GATE, words: "suite --extra 3", output: b"+ A A A A\n", ..ROW },
    Row { name: "three more, without labels", text: NO_GATES, words: "suite --extra 3", output: b"+ <empty>\n", ..ROW },
];

/// Internal steps as labels, and one side of a system.
#[rattlefmt::skip]
const LABELS: &[Row] = &[
    Row { name: "an internal step at the start", text: DELAYED_OR_B, words: "suite --strong",
        output: b"- A\n- B A\n- B B\n- B i\n- i B\n- i i\n- i A A\n- i A B\n", ..ROW },
    Row { name: "hidden steps alone", text: SILENT, words: "suite --strong", output: b"- A\n+ i\n", ..ROW },
    Row { name: "two gates in turns, with hidden steps after each", text: TURNS, words: "suite --only WIN,RIN",
        output: b"- RIN\n- WIN WIN\n- WIN RIN RIN\n", ..ROW },
    Row { name: "a response that is hidden", text: SERVER, words: "suite --hide rsp",
        output: b"- NAK\n- REQ NAK NAK\n+ REQ REQ NAK\n", ..ROW },
    Row { name: "all gates are hidden", text: SERVER, words: "suite --hide RSP,NAK,REQ",
        output: b"+ <empty>\n", ..ROW },
];

#[rattlefmt::skip]
const LIMITS_AND_MARKS: &[Row] = &[
    Row { name: "the limit in the middle", text: SERVICE, words: "suite --limit 2",
        output: b"- GET\n- PUT PUT\n", message: b"lotosseq: stopped after - PUT PUT: limit reached\n", status: 3, ..ROW },
    Row { name: "as many lines as the limit", text: SERVICE, words: "suite --limit 3", output: b"- GET\n- PUT PUT\n- PUT GET GET\n",
        message: b"lotosseq: stopped after - PUT GET GET: limit reached\n", status: 3, ..ROW },
    Row { name: "fewer lines than the limit", text: SERVICE, words: "suite --limit 4",
        output: b"- GET\n- PUT PUT\n- PUT GET GET\n", ..ROW },
    Row { name: "the limit at a line that has to be possible", text: VANISHING, words: "suite --limit 2", output: b"- B\n+ A A A\n",
        message: b"lotosseq: stopped after + A A A: limit reached\n", status: 3, ..ROW },
    Row { name: "after a line", text: SERVICE, words: "suite '--after=- PUT PUT'", output: b"- PUT GET GET\n", ..ROW },
    Row { name: "after its labels with the other sign", text: SERVICE, words: "suite --after '+ put put'",
        output: b"- PUT GET GET\n", ..ROW },
    Row { name: "after its labels", text: SERVICE, words: "suite --after 'PUT PUT'", output: b"- PUT GET GET\n", ..ROW },
    Row { name: "after what is no line of it", text: SERVICE, words: "suite --after '+ A'",
        output: b"- GET\n- PUT PUT\n- PUT GET GET\n", ..ROW },
    Row { name: "after a label that is no line", text: SERVICE, words: "suite --after H",
        output: b"- PUT PUT\n- PUT GET GET\n", ..ROW },
    Row { name: "after the empty sequence", text: SERVICE, words: "suite --after '+ <empty>' --limit 1",
        output: b"- GET\n", message: b"lotosseq: stopped after - GET: limit reached\n", status: 3, ..ROW },
    Row { name: "after the last line", text: SERVICE, words: "suite '--after=- PUT GET GET'", status: 1, ..ROW },
    Row { name: "after the line without labels", text: NO_GATES, words: "suite --after '<EMPTY>'", status: 1, ..ROW },
    Row { name: "after a line, up to the limit", text: LINK, words: "suite --after 'PUT GET PUT GET' --limit 1",
        output: b"- PUT GET PUT PUT\n", message: b"lotosseq: stopped after - PUT GET PUT PUT: limit reached\n", status: 3, ..ROW },
];

/// Bounds on the normal forms of a set, and on the sets.
#[rattlefmt::skip]
const BOUNDS: &[Row] = &[
    Row { name: "two terms at the start, and one is allowed", text: DELAYED, words: "suite --terms 1",
        message: b"lotosseq: stopped: more than 1 terms at <empty>\n", status: 4, ..ROW },
    Row { name: "a system that grows for ever by internal steps", text: GROWING, words: "suite --terms=20 --limit 1",
        message: b"lotosseq: stopped: more than 20 terms at <empty>\n", status: 4, ..ROW },
    Row { name: "two sets, and one is allowed", text: BUFFER, words: "suite --states 1",
        message: b"lotosseq: stopped: more than 1 sets; --states N allows more\n", status: 4, ..ROW },
    Row { name: "two sets, and two are allowed", text: BUFFER, words: "suite --states 2",
        output: b"- B\n- A A\n+ A B A\n", ..ROW },
    Row { name: "five sets, and four are allowed", text: LINK, words: "suite --states=4",
        message: b"lotosseq: stopped: more than 4 sets; --states N allows more\n", status: 4, ..ROW },
];

/// Texts that are refused.
#[rattlefmt::skip]
const REFUSALS: &[Row] = &[
    Row { name: "a gate that is not declared", text: UNDECLARED,
        words: "suite", message: b"lotosseq: 1:40: E21 gate B is not declared\n", ..REFUSED },
    Row { name: "the empty text",
        words: "suite --after A", message: b"lotosseq: 1:1: E06 text ends too early\n", ..REFUSED },
    Row { name: "a name that is no gate", text: SERVER, words: "suite --hide REQ,REQ,RSPS",
        message: b"lotosseq: E52 RSPS is no gate of the specification\n", ..REFUSED },
];

#[test]
fn lines_of_suites(rt: HostRuntime) {
    expect_rows_in_pieces(&rt, rt.alloc(), SUITES);
}

#[test]
fn extra_states(rt: HostRuntime) {
    expect_rows_in_pieces(&rt, rt.alloc(), EXTRA);
}

#[test]
fn labels_of_suites(rt: HostRuntime) {
    expect_rows_in_pieces(&rt, rt.alloc(), LABELS);
}

#[test]
fn limits_and_marks(rt: HostRuntime) {
    expect_rows_in_pieces(&rt, rt.alloc(), LIMITS_AND_MARKS);
}

#[test]
fn bounds_of_suites(rt: HostRuntime) {
    expect_rows_in_pieces(&rt, rt.alloc(), BOUNDS);
}

#[test]
fn texts_are_refused(rt: HostRuntime) {
    expect_rows_in_pieces(&rt, rt.alloc(), REFUSALS);
}

/// Lines that are none of a suite.
const NO_MARKS: &[&str] = &[
    "--after=",
    "--after=+",
    "--after=- ",
    "--after=-PUT",
    "--after=+  PUT",
    "--after=+ - PUT",
    "--after=PUT -",
    "--after=- PUT i",
];

/// Expects that the line is refused as a mark.
fn expect_no_mark(rt: &impl Abort, alloc: Global, after: &'static str) {
    let words = ["lotosseq", "suite", after];
    let message = b"lotosseq: E46 mark is no line of a listing\n";
    expect_refused_words(rt, alloc, after, words.as_slice(), message);
}

#[test]
fn marks_are_refused_first(rt: HostRuntime) {
    for after in NO_MARKS {
        expect_no_mark(&rt, rt.alloc(), *after);
    }
}

const OUTPUT: &[u8] = b"- B\n- A A\n+ A B A\n";

/// A run that writes three lines.
const LISTED: Run<'static, 'static> = Run {
    name: "three lines",
    words: &["lotosseq", "suite"],
    text: BUFFER,
    output: Taken { piece: 3, ..WHOLE },
    ..RUN
};

#[test]
fn the_output_fails_after_each_byte(rt: HostRuntime) {
    let message = b"lotosseq: output cannot be written\n";
    for most in 0usize..18 {
        expect_broken(&rt, rt.alloc(), &LISTED, most, OUTPUT, message);
    }
}

#[test]
fn each_read_fails_in_turn(rt: HostRuntime) {
    let run = Run {
        piece: 8,
        output: SINGLE,
        ..LISTED
    };
    for number in 1usize..14 {
        expect_unreadable(&rt, rt.alloc(), &run, number);
    }
}
