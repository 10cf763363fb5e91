//! The message and the status of each way in which a command ends, also of those that no run of a test can lead to.

use super::memory_devices::ArrayWriter;
use lotos_check::CheckFault;
use lotos_command::Runs;
use lotos_device::FromWrite;
use lotos_listing::MarkFault;
use lotos_pattern::PatternFault;
use lotos_report::report_end;
use lotos_text::TextFault;
use lotos_tool::{
    AfterRequest, AutomatonSize, Command, CommandFault, Continuation, CoverRequest, Ended,
    EverRequest, Extent, GraphRequest, Interface, Listed, ListingPlace, Occurrence, Processes,
    Refusal, SearchRequest, Stop, SuiteRequest, report_command_fault,
};
use std::alloc::{AllocError, Global};
use std::fmt::Display;
use std::io::Write;
use std::process::Abort;

/// A request for a listing with 300 as the bound on the terms.
pub fn search_request(alloc: Global) -> SearchRequest {
    SearchRequest {
        extent: Extent::Depth(1),
        limit: None,
        terms: 300,
        after: None,
        runs: Runs::Omitted,
        interface: Interface::Whole,
        strong: false,
        known: false,
        progress: false,
        brief: false,
        words: Vec::new(alloc),
    }
}

/// A request for a cover with 300 as the bound on the terms and 400 as that on the sets.
fn cover_request() -> CoverRequest {
    CoverRequest {
        limit: None,
        after: None,
        terms: 300,
        states: 400,
        interface: Interface::Whole,
        strong: false,
        progress: false,
        brief: false,
    }
}

/// A request for an automaton with 300 as the bound on the terms and 400 as that on the sets.
fn graph_request() -> GraphRequest {
    GraphRequest {
        terms: 300,
        states: 400,
        interface: Interface::Whole,
        strong: false,
        progress: false,
        brief: false,
    }
}

/// A request for a suite with 300 as the bound on the terms and 400 as that on the sets.
fn suite_request() -> SuiteRequest {
    SuiteRequest {
        extra: 1,
        limit: None,
        after: None,
        terms: 300,
        states: 400,
        interface: Interface::Whole,
        strong: false,
        progress: false,
        brief: false,
    }
}

/// A request for a match with 300 as the bound on the states.
pub fn ever_request(alloc: Global) -> EverRequest {
    EverRequest {
        states: 300,
        runs: Runs::Omitted,
        interface: Interface::Whole,
        strong: false,
        progress: false,
        brief: false,
        words: Vec::new(alloc),
    }
}

/// A request for what can come after the sequence of these words, with 300 as the bound on the terms.
pub fn after_request(words: Vec<String>) -> AfterRequest {
    AfterRequest {
        terms: 300,
        interface: Interface::Whole,
        strong: false,
        progress: false,
        brief: false,
        words,
    }
}

/// Expects what a command reports that ended so, if it is not known how much was looked at.
pub fn expect_end<C: Command>(
    rt: &impl Abort,
    command: &C,
    ended: &Ended<C::Found, C::Place>,
    message: &[u8],
    status: u8,
) {
    let mut err = ArrayWriter::new(4096);
    command.report(ended, &None, &mut err);
    expect_report(rt, &err, message, ended.status(), status);
}

/// Expects this message and this status.
pub fn expect_report(rt: &impl Abort, err: &ArrayWriter, message: &[u8], found: u8, status: u8) {
    assert_eq!(rt; err.got(), message);
    assert_eq!(rt; found, status);
}

/// A listing that stopped for this cause, after a line with this sequence, and at this prefix.
fn stopped(
    alloc: Global,
    cause: Stop,
    last: Option<&str>,
    prefix: Option<&str>,
) -> Result<Ended<Listed, ListingPlace>, AllocError> {
    let place = ListingPlace {
        last: copied(alloc, last)?,
        prefix: copied(alloc, prefix)?,
    };
    Ok(Ended::Stopped { cause, place })
}

fn copied(alloc: Global, text: Option<&str>) -> Result<Option<String>, AllocError> {
    match text {
        Some(text) => Ok(Some(String::from_str(alloc, text)?)),
        None => Ok(None),
    }
}

/// Why a search stops, the last sequence and the prefix, its message and its status.
const SEARCH_STOPS: &[(Stop, Option<&str>, Option<&str>, &[u8], u8)] = &[
    (
        Stop::Limit,
        Some("A exit"),
        None,
        b"lotosseq: stopped after A exit: limit reached\n",
        3,
    ),
    (
        Stop::Limit,
        None,
        None,
        b"lotosseq: stopped before the first line: limit reached\n",
        3,
    ),
    (
        Stop::Memory,
        Some("A exit"),
        None,
        b"lotosseq: stopped after A exit: E99 out of memory\n",
        5,
    ),
    (
        Stop::Memory,
        None,
        None,
        b"lotosseq: stopped before the first line: E99 out of memory\n",
        5,
    ),
    (
        Stop::Write,
        Some("A exit"),
        None,
        b"lotosseq: stopped after A exit: output cannot be written\n",
        6,
    ),
    (
        Stop::Write,
        None,
        None,
        b"lotosseq: stopped before the first line: output cannot be written\n",
        6,
    ),
    (
        Stop::Terms,
        Some("A exit"),
        Some("B A"),
        b"lotosseq: stopped after A exit: more than 300 terms at B A\n",
        4,
    ),
    (
        Stop::Terms,
        None,
        Some("<empty>"),
        b"lotosseq: stopped before the first line: more than 300 terms at <empty>\n",
        4,
    ),
];

#[test]
fn a_search_that_stopped(rt: HostRuntime) -> Result<(), AllocError> {
    let request = search_request(rt.alloc());
    for (cause, last, prefix, message, status) in SEARCH_STOPS {
        let ended = stopped(rt.alloc(), *cause, *last, *prefix)?;
        expect_end(&rt, &request, &ended, *message, *status);
    }
    Ok(())
}

/// Why a cover stops, the last sequence and the prefix, its message and its status.
const COVER_STOPS: &[(Stop, Option<&str>, Option<&str>, &[u8], u8)] = &[
    (
        Stop::States,
        Some("A exit"),
        None,
        b"lotosseq: stopped after A exit: more than 400 sets; --states N allows more\n",
        4,
    ),
    (
        Stop::States,
        None,
        None,
        b"lotosseq: stopped before the first line: more than 400 sets; --states N allows more\n",
        4,
    ),
    (
        Stop::Terms,
        None,
        Some("B A"),
        b"lotosseq: stopped before the first line: more than 300 terms at B A\n",
        4,
    ),
];

#[test]
fn a_cover_that_stopped(rt: HostRuntime) -> Result<(), AllocError> {
    let request = cover_request();
    for (cause, last, prefix, message, status) in COVER_STOPS {
        let ended = stopped(rt.alloc(), *cause, *last, *prefix)?;
        expect_end(&rt, &request, &ended, *message, *status);
    }
    Ok(())
}

/// Why no automaton is written, the sequence, its message and its status.
const GRAPH_STOPS: &[(Stop, Option<&str>, &[u8], u8)] = &[
    (
        Stop::States,
        Some("A exit"),
        b"lotosseq: stopped: more than 400 sets; --states N allows more\n",
        4,
    ),
    (
        Stop::Terms,
        Some("<empty>"),
        b"lotosseq: stopped: more than 300 terms at <empty>\n",
        4,
    ),
    (Stop::Memory, None, b"lotosseq: E99 out of memory\n", 5),
    (
        Stop::Write,
        None,
        b"lotosseq: output cannot be written\n",
        6,
    ),
];

#[test]
fn an_automaton_that_is_not_written(rt: HostRuntime) -> Result<(), AllocError> {
    let request = graph_request();
    for (cause, place, message, status) in GRAPH_STOPS {
        let text = match place {
            Some(text) => Some(String::from_str(rt.alloc(), *text)?),
            None => None,
        };
        let ended = Ended::Stopped {
            cause: *cause,
            place: text,
        };
        expect_end(&rt, &request, &ended, *message, *status);
    }
    let written = Ended::Done(AutomatonSize {
        states: 1,
        transitions: 0,
    });
    expect_end(&rt, &request, &written, b"", 0);
    Ok(())
}

/// Why a suite stops, its last line and the sequence, its message and its status.
const SUITE_STOPS: &[(Stop, Option<&str>, Option<&str>, &[u8], u8)] = &[
    (
        Stop::Limit,
        Some("- A exit"),
        None,
        b"lotosseq: stopped after - A exit: limit reached\n",
        3,
    ),
    (
        Stop::Terms,
        None,
        Some("<empty>"),
        b"lotosseq: stopped: more than 300 terms at <empty>\n",
        4,
    ),
    (
        Stop::States,
        None,
        Some("A exit"),
        b"lotosseq: stopped: more than 400 sets; --states N allows more\n",
        4,
    ),
    (
        Stop::Lines,
        None,
        None,
        b"lotosseq: stopped: more than 10000000 lines; a smaller --extra or fewer gates give fewer\n",
        4,
    ),
    (
        Stop::Memory,
        None,
        None,
        b"lotosseq: E99 out of memory\n",
        5,
    ),
    (
        Stop::Write,
        None,
        None,
        b"lotosseq: output cannot be written\n",
        6,
    ),
];

#[test]
fn a_suite_that_stopped(rt: HostRuntime) -> Result<(), AllocError> {
    let request = suite_request();
    for (cause, last, prefix, message, status) in SUITE_STOPS {
        let ended = stopped(rt.alloc(), *cause, *last, *prefix)?;
        expect_end(&rt, &request, &ended, *message, *status);
    }
    Ok(())
}

#[test]
fn a_search_that_did_not_stop(rt: HostRuntime) {
    let request = search_request(rt.alloc());
    let empty = Ended::Done(Listed { lines: 0 });
    expect_end(&rt, &request, &empty, b"", 1);
    for lines in [1u64, 256, 65_536, 4_294_967_296] {
        expect_end(&rt, &request, &Ended::Done(Listed { lines }), b"", 0);
    }
    let refused = Ended::Refused(Refusal::E49(300));
    let message = b"lotosseq: E49 word 300 is no gate of the specification\n";
    expect_end(&rt, &request, &refused, message, 2);
}

/// Expects what a check reports that ended so.
pub fn expect_check(rt: &impl Abort, ended: &Ended<Processes, ()>, message: &[u8], status: u8) {
    let mut err = ArrayWriter::new(4096);
    report_end(&mut err, ended);
    expect_report(rt, &err, message, ended.status(), status);
}

/// A check that stopped for this cause.
fn stopped_check(cause: Stop) -> Ended<Processes, ()> {
    Ended::Stopped { cause, place: () }
}

#[test]
fn checks(rt: HostRuntime) {
    for count in [0u64, 1, 256] {
        expect_check(&rt, &Ended::Done(Processes { count }), b"", 0);
    }
    let refused = Ended::Refused(Refusal::E47);
    expect_check(&rt, &refused, b"lotosseq: E47 input cannot be read\n", 2);
    let full = stopped_check(Stop::Write);
    expect_check(&rt, &full, b"lotosseq: output cannot be written\n", 6);
    let memory = stopped_check(Stop::Memory);
    expect_check(&rt, &memory, b"lotosseq: E99 out of memory\n", 5);
}

/// Why a search for a match stops, what was found by then, its message and its status.
const EVER_STOPS: &[(Stop, Option<Occurrence>, &[u8], u8)] = &[
    (
        Stop::States,
        None,
        b"lotosseq: stopped: more than 300 states; --states N allows more\n",
        4,
    ),
    (Stop::Memory, None, b"lotosseq: E99 out of memory\n", 5),
    (
        Stop::Write,
        Some(Occurrence::Ever),
        b"lotosseq: output cannot be written\n",
        6,
    ),
    (
        Stop::Write,
        Some(Occurrence::Never),
        b"lotosseq: output cannot be written\n",
        6,
    ),
];

#[test]
fn searches_for_a_match(rt: HostRuntime) {
    let request = ever_request(rt.alloc());
    expect_end(&rt, &request, &Ended::Done(Occurrence::Ever), b"", 0);
    let never = Ended::Done(Occurrence::Never);
    let message = b"lotosseq: it happens at no depth\n";
    expect_end(&rt, &request, &never, message, 1);
    let refused = Ended::Refused(Refusal::E47);
    let message = b"lotosseq: E47 input cannot be read\n";
    expect_end(&rt, &request, &refused, message, 2);
    for (cause, found, message, status) in EVER_STOPS {
        let ended = Ended::Stopped {
            cause: *cause,
            place: *found,
        };
        expect_end(&rt, &request, &ended, *message, *status);
    }
}

/// Why a command that follows a sequence stops, after how many labels if that is the cause, its message and its status.
const AFTER_STOPS: &[(Stop, Option<usize>, &[u8], u8)] = &[
    (
        Stop::Terms,
        Some(0),
        b"lotosseq: stopped: more than 300 terms after 0 labels\n",
        4,
    ),
    (
        Stop::Terms,
        Some(65_536),
        b"lotosseq: stopped: more than 300 terms after 65536 labels\n",
        4,
    ),
    (Stop::Memory, None, b"lotosseq: E99 out of memory\n", 5),
    (
        Stop::Write,
        None,
        b"lotosseq: output cannot be written\n",
        6,
    ),
];

#[test]
fn sequences_that_are_followed(rt: HostRuntime) {
    let request = after_request(Vec::new(rt.alloc()));
    expect_end(&rt, &request, &Ended::Done(Continuation::Followed), b"", 0);
    let refused = Ended::Refused(Refusal::E47);
    let message = b"lotosseq: E47 input cannot be read\n";
    expect_end(&rt, &request, &refused, message, 2);
    let refused = Ended::Refused(Refusal::E41(300));
    let message = b"lotosseq: E41 word 300 is no label\n";
    expect_end(&rt, &request, &refused, message, 2);
    for (cause, labels, message, status) in AFTER_STOPS {
        let ended = Ended::Stopped {
            cause: *cause,
            place: *labels,
        };
        expect_end(&rt, &request, &ended, *message, *status);
    }
}

/// The three words of a sequence.
fn three_words(alloc: Global) -> Result<Vec<String>, AllocError> {
    let mut words = Vec::new(alloc);
    words.push(String::from_str(alloc, "put")?)?;
    words.push(String::from_str(alloc, "PUT")?)?;
    words.push(String::from_str(alloc, "Get")?)?;
    Ok(words)
}

/// The number of a label of the three words that cannot come, the labels that can, and the message.
const LABELS: &[(usize, Option<&str>, &[u8])] = &[
    (
        1,
        None,
        b"lotosseq: label 1, put, cannot come here, and no other can\n",
    ),
    (
        1,
        Some("GET"),
        b"lotosseq: label 1, put, cannot come here; what can: GET\n",
    ),
    (
        1,
        Some("GET exit"),
        b"lotosseq: label 1, put, cannot come here; what can: GET exit\n",
    ),
    (
        2,
        None,
        b"lotosseq: label 2, PUT, cannot come here, and no other can\n",
    ),
    (
        2,
        Some("exit"),
        b"lotosseq: label 2, PUT, cannot come here; what can: exit\n",
    ),
    (
        2,
        Some("ACK i"),
        b"lotosseq: label 2, PUT, cannot come here; what can: ACK i\n",
    ),
    (
        3,
        None,
        b"lotosseq: label 3, Get, cannot come here, and no other can\n",
    ),
    (
        3,
        Some("PUT"),
        b"lotosseq: label 3, Get, cannot come here; what can: PUT\n",
    ),
    (
        3,
        Some("ACK PUT"),
        b"lotosseq: label 3, Get, cannot come here; what can: ACK PUT\n",
    ),
];

#[test]
fn labels_that_cannot_come(rt: HostRuntime) -> Result<(), AllocError> {
    let request = after_request(three_words(rt.alloc())?);
    for (number, instead, message) in LABELS {
        let instead = copied(rt.alloc(), *instead)?;
        let number = *number;
        let ended = Ended::Done(Continuation::CannotCome { number, instead });
        expect_end(&rt, &request, &ended, *message, 1);
    }
    Ok(())
}

/// Expects what is written for a fault of the words.
fn expect_answer(rt: &impl Abort, fault: CommandFault, output: &[u8], message: &[u8], status: u8) {
    let mut out = FromWrite::new(ArrayWriter::new(4096));
    let mut err = ArrayWriter::new(4096);
    let found = report_command_fault(&fault, &mut out, &mut err);
    assert_eq!(rt; out.into_inner().got(), output);
    expect_report(rt, &err, message, found, status);
}

#[test]
fn faults_of_the_words(rt: HostRuntime) -> Result<(), AllocError> {
    let help = CommandFault::Help(String::from_str(rt.alloc(), "a line\nand another\n")?);
    expect_answer(&rt, help, b"a line\nand another\n", b"", 0);
    let wrong = CommandFault::Wrong(String::from_str(rt.alloc(), "error: no\n\nUsage: so\n")?);
    expect_answer(&rt, wrong, b"", b"error: no\n\nUsage: so\n", 2);
    expect_answer(
        &rt,
        CommandFault::Memory,
        b"",
        b"lotosseq: E99 out of memory\n",
        5,
    );
    Ok(())
}

/// Expects the text of a fault of a library.
pub fn expect_text<T: Display>(rt: &impl Abort, fault: &T, text: &[u8]) {
    let mut err = ArrayWriter::new(4096);
    let written = write!(err, "{fault}");
    assert!(rt; written.is_ok());
    assert_eq!(rt; err.got(), text);
}

#[test]
fn out_of_memory_in_the_libraries(rt: HostRuntime) {
    let text = b"E99 out of memory";
    expect_text(&rt, &TextFault::E99(AllocError), text);
    expect_text(&rt, &CheckFault::E99(AllocError), text);
    expect_text(&rt, &PatternFault::E99(AllocError), text);
    expect_text(&rt, &MarkFault::E99(AllocError), text);
}
