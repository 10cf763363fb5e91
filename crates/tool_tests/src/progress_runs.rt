//! Long searches that report their progress.

ghost use Rattle.lotos_command.specs.Request.{HasCompareBounds};

use super::expected_output::{repeated, repeated_words};
use super::memory_devices::{ArrayWriter, SliceReader};
use super::runs::{RUN, Ran, Run, Taken, WHOLE};
use super::worked_texts::VANISHING;
use lotos_check::AcceptedText;
use lotos_device::{FromRead, FromWrite};
use lotos_tool::{
    AfterRequest, CompareRequest, EverRequest, Messages, OutputProgress, Progress, Request, answer,
    request, run_args,
};
use std::alloc::{AllocError, Global};
use std::io::{Error, ErrorKind};
use std::process::Abort;

/// Every sequence of this process is a number of labels `A`. Of each length there is one, and the search visits its
/// prefixes, so the lengths up to `n` have n * (n + 1) / 2 visits: 990 up to 44, and 2,016 up to 63. No prefix is a dead
/// end.
const ONE_GATE: &[u8] =
    b"specification S [a] : noexit behaviour P[a] where process P [x] : noexit := x; P[x] endproc endspec";

/// A system with B after A, and one with C.
const PARTING: &[u8] = b"specification S [a,b] : noexit behaviour a; b; stop endspec
specification S [a,c] : noexit behaviour a; c; stop endspec";

/// All sequences of at most 70 labels, the empty one first.
const ALL: &[&str] = &["lotosseq", "search", "--depth", "70", "<while>", "A"];

const ALL_WITH_PROGRESS: &[&str] = &[
    "lotosseq",
    "search",
    "--depth",
    "70",
    "--progress",
    "<while>",
    "A",
];

/// Asserts the messages of a run, with a terminal and without one, and that its output and its status are those of
/// the same run without progress.
fn assert_reports<'a>(
    rt: &impl Abort,
    alloc: Global,
    words: (&'a [&'a str], &'a [&'a str]),
    text: &[u8],
    flush_fails: bool,
    expected: (&[u8], &[u8], u8),
) {
    let run = Run {
        words: words.0,
        text,
        output: Taken {
            flush_fails,
            ..WHOLE
        },
        ..RUN
    };
    let plain = run.finish_with_terminal(alloc, false);
    assert_eq!(rt; plain.status, expected.2);
    let reporting = Run {
        words: words.1,
        ..run
    };
    assert_report(rt, alloc, &plain, &reporting, false, expected.0);
    assert_report(rt, alloc, &plain, &reporting, true, expected.1);
}

/// Asserts the messages of a run, and that its output and its status are those of the plain run.
fn assert_report(
    rt: &impl Abort,
    alloc: Global,
    plain: &Ran,
    run: &Run<'_, '_>,
    terminal: bool,
    messages: &[u8],
) {
    let ran = run.finish_with_terminal(alloc, terminal);
    assert_eq!(rt; ran.message.got(), messages);
    assert_same(rt, plain, &ran);
}

/// Asserts that two runs have the same output and status.
fn assert_same(rt: &impl Abort, one: &Ran, other: &Ran) {
    assert_eq!(rt; one.output.got(), other.output.got());
    assert_eq!(rt; one.output.flushes, other.output.flushes);
    assert_eq!(rt; one.status, other.status);
}

#[test]
fn a_listing_reports_prefixes_and_lines(rt: HostRuntime) {
    assert_reports(
        &rt,
        rt.alloc(),
        (ALL, ALL_WITH_PROGRESS),
        ONE_GATE,
        false,
        (
            b"lotosseq: length 44, 1024 prefixes, 45 lines\nlotosseq: length 63, 2048 prefixes, 64 lines\n",
            b"\rlotosseq: length 44, 1024 prefixes, 45 lines\x1b[K\r\x1b[K\rlotosseq: length 63, 2048 prefixes, 64 lines\x1b[K\r\x1b[Klotosseq: at the end: length 70, 2485 prefixes, 0 dead ends, 71 lines\n",
            0,
        ),
    );
}

/// No sequence of at most 62 labels has 63.
#[test]
fn a_terminal_is_cleared_before_a_message(rt: HostRuntime) -> Result<(), AllocError> {
    let alloc = rt.alloc();
    let plain = repeated_words(alloc, &["lotosseq", "search", "--depth", "62"], &["A"], 63)?;
    let words = repeated_words(
        alloc,
        &["lotosseq", "search", "--depth", "62", "--progress"],
        &["A"],
        63,
    )?;
    assert_reports(
        &rt,
        alloc,
        (plain.as_slice(), words.as_slice()),
        ONE_GATE,
        true,
        (
            b"lotosseq: length 44, 1024 prefixes, 0 lines\nlotosseq: stopped before the first line: output cannot be written\n",
            b"\rlotosseq: length 44, 1024 prefixes, 0 lines\x1b[K\r\x1b[Klotosseq: stopped before the first line: output cannot be written\nlotosseq: at the end: length 62, 1953 prefixes, 0 dead ends, 0 lines\n",
            6,
        ),
    );
    Ok(())
}

/// Two sequences of 50 labels each, side by side: the states are the pairs of numbers up to 50. With `n` steps there are
/// n + 1 of them for n up to 50, and then 101 - n. With at most `n` steps there are 990 for n = 43, 1,035 for 44, 2,040
/// for 67 and 2,073 for 68, and 2,601 in all. Each side has a step at 50 of its 51 places, beside each place of the other:
/// 5,100 steps in all. The last state is the one dead end.
fn two_sequences(alloc: Global) -> Result<Vec<u8>, AllocError> {
    let mut text = repeated(
        alloc,
        b"specification S [a,b,c] : noexit behaviour ",
        b"a; ",
        50,
        b"stop ||| ",
    )?;
    let other = repeated(alloc, b"", b"b; ", 50, b"stop endspec")?;
    text.extend_from_slice(other.as_slice())?;
    Ok(text)
}

#[test]
fn a_search_without_a_match_reports_states(rt: HostRuntime) -> Result<(), AllocError> {
    let text = two_sequences(rt.alloc())?;
    assert_reports(
        &rt,
        rt.alloc(),
        (
            &["lotosseq", "ever", "<until>", "C"],
            &["lotosseq", "ever", "--progress", "<until>", "C"],
        ),
        text.as_slice(),
        false,
        (
            b"lotosseq: 44 steps, 1024 states; 44 with 43 steps, 34 with 44 so far\nlotosseq: 68 steps, 2048 states; 34 with 67 steps, 8 with 68 so far\nlotosseq: it happens at no depth; 2601 states; word 1 cannot be matched\n",
            b"\rlotosseq: 44 steps, 1024 states; 44 with 43 steps, 34 with 44 so far\x1b[K\rlotosseq: 68 steps, 2048 states; 34 with 67 steps, 8 with 68 so far\x1b[K\r\x1b[Klotosseq: it happens at no depth; 2601 states; word 1 cannot be matched\nlotosseq: at the end: depth 100, 2601 states, 5100 steps, 1 dead end\n",
            1,
        ),
    );
    Ok(())
}

#[test]
fn a_terminal_is_cleared_before_a_match(rt: HostRuntime) -> Result<(), AllocError> {
    let text = two_sequences(rt.alloc())?;
    assert_reports(
        &rt,
        rt.alloc(),
        (
            &["lotosseq", "ever", "<until>", "<deadlock>"],
            &["lotosseq", "ever", "--progress", "<until>", "<deadlock>"],
        ),
        text.as_slice(),
        false,
        (
            b"lotosseq: 44 steps, 1024 states; 44 with 43 steps, 34 with 44 so far\nlotosseq: 68 steps, 2048 states; 34 with 67 steps, 8 with 68 so far\n",
            b"\rlotosseq: 44 steps, 1024 states; 44 with 43 steps, 34 with 44 so far\x1b[K\rlotosseq: 68 steps, 2048 states; 34 with 67 steps, 8 with 68 so far\x1b[K\r\x1b[Klotosseq: at the end: depth 100, 2601 states, 5100 steps, 1 dead end\n",
            0,
        ),
    );
    Ok(())
}

/// Asserts the messages of a run that follows the label `A` so many times, and then these labels.
fn assert_labels(
    rt: &impl Abort,
    alloc: Global,
    count: usize,
    last: &[&'static str],
    expected: (&[u8], &[u8], u8),
) -> Result<(), AllocError> {
    let mut plain = repeated_words(alloc, &["lotosseq", "after"], &["A"], count)?;
    plain.extend_from_slice(last)?;
    let mut words = repeated_words(alloc, &["lotosseq", "after", "--progress"], &["A"], count)?;
    words.extend_from_slice(last)?;
    let words = (plain.as_slice(), words.as_slice());
    assert_reports(rt, alloc, words, ONE_GATE, false, expected);
    Ok(())
}

#[test]
fn a_sequence_that_is_followed_reports_labels(rt: HostRuntime) -> Result<(), AllocError> {
    assert_labels(
        &rt,
        rt.alloc(),
        2_048,
        &[],
        (
            b"lotosseq: 1024 labels\nlotosseq: 2048 labels\n",
            b"\rlotosseq: 1024 labels\x1b[K\rlotosseq: 2048 labels\x1b[K\r\x1b[Klotosseq: at the end: 2048 labels\n",
            0,
        ),
    )?;
    assert_labels(
        &rt,
        rt.alloc(),
        1_023,
        &[],
        (b"", b"lotosseq: at the end: 1023 labels\n", 0),
    )?;
    assert_labels(
        &rt,
        rt.alloc(),
        1,
        &[],
        (b"", b"lotosseq: at the end: 1 label\n", 0),
    )
}

#[test]
fn a_terminal_is_cleared_before_a_label_that_cannot_come(
    rt: HostRuntime,
) -> Result<(), AllocError> {
    assert_labels(
        &rt,
        rt.alloc(),
        1_024,
        &["exit", "A"],
        (
            b"lotosseq: 1024 labels\nlotosseq: label 1025, exit, cannot come here; what can: A\n",
            b"\rlotosseq: 1024 labels\x1b[K\r\x1b[Klotosseq: label 1025, exit, cannot come here; what can: A\nlotosseq: at the end: 1024 labels\n",
            1,
        ),
    )
}

/// Two sides that take 33 and 32 steps of `A` from round to round until `B` ends both: the states are the pairs of their
/// numbers of steps, each of which one sequence of `A` reaches first, after up to 1,055 steps. With the end after `B`,
/// which comes up after the first `A`, these are 1,057 sets. The same can come after each `A`, so the lines are `A` and `B`.
/// Two labels lead on from each set but the one after `B`, which is a dead end. If 1,050 sets may come up, `A` 1,048 times
/// is the last that is expanded, so two labels lead on from 1,049 of them.
fn two_rounds(alloc: Global) -> Result<Vec<u8>, AllocError> {
    let mut text = repeated(
        alloc,
        b"specification S [a,b] : noexit behaviour (L [a] |[a]| M [a]) [> b; stop
where process L [a] : noexit := ",
        b"a; ",
        33,
        b"L [a] endproc ",
    )?;
    let other = repeated(
        alloc,
        b"process M [a] : noexit := ",
        b"a; ",
        32,
        b"M [a] endproc endspec",
    )?;
    text.extend_from_slice(other.as_slice())?;
    Ok(text)
}

#[test]
fn a_cover_reports_sets_and_lines(rt: HostRuntime) -> Result<(), AllocError> {
    let text = two_rounds(rt.alloc())?;
    assert_reports(
        &rt,
        rt.alloc(),
        (&["lotosseq", "cover"], &["lotosseq", "cover", "--progress"]),
        text.as_slice(),
        false,
        (
            b"lotosseq: length 1023, 1024 sets, 0 lines\n",
            b"\rlotosseq: length 1023, 1024 sets, 0 lines\x1b[K\r\x1b[Klotosseq: at the end: length 1055, 1057 sets, 2112 steps, 1 dead end, 2 lines\n",
            0,
        ),
    );
    Ok(())
}

#[test]
fn a_terminal_is_cleared_before_a_stop(rt: HostRuntime) -> Result<(), AllocError> {
    let text = two_rounds(rt.alloc())?;
    assert_reports(
        &rt,
        rt.alloc(),
        (
            &["lotosseq", "cover", "--states", "1050"],
            &["lotosseq", "cover", "--states", "1050", "--progress"],
        ),
        text.as_slice(),
        false,
        (
            b"lotosseq: length 1023, 1024 sets, 0 lines\nlotosseq: stopped before the first line: more than 1050 sets; --states N allows more\n",
            b"\rlotosseq: length 1023, 1024 sets, 0 lines\x1b[K\r\x1b[Klotosseq: stopped before the first line: more than 1050 sets; --states N allows more\nlotosseq: at the end: length 1048, 1050 sets, 2098 steps, 1 dead end, 0 lines\n",
            4,
        ),
    );
    Ok(())
}

#[test]
fn an_automaton_reports_sets(rt: HostRuntime) -> Result<(), AllocError> {
    let text = two_rounds(rt.alloc())?;
    assert_reports(
        &rt,
        rt.alloc(),
        (
            &["lotosseq", "graph", "--states", "1050"],
            &["lotosseq", "graph", "--states", "1050", "--progress"],
        ),
        text.as_slice(),
        false,
        (
            b"lotosseq: length 1023, 1024 sets\nlotosseq: stopped: more than 1050 sets; --states N allows more\n",
            b"\rlotosseq: length 1023, 1024 sets\x1b[K\r\x1b[Klotosseq: stopped: more than 1050 sets; --states N allows more\nlotosseq: at the end: length 1048, 1050 sets, 2098 steps, 1 dead end\n",
            4,
        ),
    );
    Ok(())
}

/// With 44 steps at most the lengths have 990 visits.
#[test]
fn a_short_search_reports_nothing(rt: HostRuntime) {
    assert_reports(
        &rt,
        rt.alloc(),
        (
            &["lotosseq", "search", "--depth", "44", "<while>", "A"],
            &[
                "lotosseq",
                "search",
                "--depth",
                "44",
                "--progress",
                "<while>",
                "A",
            ],
        ),
        ONE_GATE,
        false,
        (
            b"",
            b"lotosseq: at the end: length 44, 990 prefixes, 0 dead ends, 45 lines\n",
            0,
        ),
    );
}

/// The listing, over an error stream that is full after `most` bytes.
fn assert_unchanged(rt: &impl Abort, alloc: Global, plain: &Ran, most: usize, terminal: bool) {
    let run = Run {
        words: ALL_WITH_PROGRESS,
        message: Taken { most, ..WHOLE },
        ..LISTED
    };
    let other = run.finish_with_terminal(alloc, terminal);
    assert_same(rt, plain, &other);
}

/// The listing without progress.
const LISTED: Run<'static, 'static> = Run {
    words: ALL,
    text: ONE_GATE,
    ..RUN
};

#[test]
fn an_error_stream_that_fails_changes_nothing(rt: HostRuntime) {
    let plain = LISTED.finish_with_terminal(rt.alloc(), false);
    for most in [0usize, 1, 50] {
        assert_unchanged(&rt, rt.alloc(), &plain, most, false);
        assert_unchanged(&rt, rt.alloc(), &plain, most, true);
    }
}

/// An observer that counts.
#[derive(Clone, Copy, Debug)]
struct Counter {
    accepted: usize,
    visits: usize,
    lines: usize,
}

impl Progress for Counter {
    fn visit(&mut self, _length: usize) {
        self.visits = self.visits.saturating_add(1);
    }
}

impl OutputProgress for Counter {
    fn accepted(&mut self, _text: &[u8], _accepted_text: &AcceptedText) {
        self.accepted = self.accepted.saturating_add(1);
    }

    fn before_line(&mut self) {
        self.lines = self.lines.saturating_add(1);
    }
}

/// Searches the two sequences for a match.
fn ever_observed(
    alloc: Global,
    question: &EverRequest,
    counter: &mut Counter,
) -> Result<(), AllocError> {
    let text = two_sequences(alloc)?;
    ever_observed_in(alloc, question, text.as_slice(), counter);
    Ok(())
}

/// Searches the text for a match.
fn ever_observed_in(alloc: Global, question: &EverRequest, text: &[u8], counter: &mut Counter) {
    let mut reader = FromRead::new(SliceReader::new(text, 4096));
    let mut out = FromWrite::new(ArrayWriter::new(4096));
    let _ = answer(alloc, question, &mut reader, &mut out, counter);
}

/// Follows a sequence of one gate.
fn after_observed(alloc: Global, question: &AfterRequest, counter: &mut Counter) {
    let mut reader = FromRead::new(SliceReader::new(ONE_GATE, 4096));
    let mut out = FromWrite::new(ArrayWriter::new(4096));
    let _ = answer(alloc, question, &mut reader, &mut out, counter);
}

/// Compares the two systems that differ after A.
fn compare_observed(alloc: Global, question: &CompareRequest, counter: &mut Counter)
    requires { HasCompareBounds question.now }
{
    let mut reader = FromRead::new(SliceReader::new(PARTING, 4096));
    let mut out = FromWrite::new(ArrayWriter::new(4096));
    let _ = answer(alloc, question, &mut reader, &mut out, counter);
}

/// What an observer of the command is told.
fn observe(alloc: Global, words: &[&str]) -> Result<Counter, AllocError> {
    let mut counter = Counter {
        accepted: 0,
        visits: 0,
        lines: 0,
    };
    match request(alloc, words) {
        Ok(Request::Search(search)) => {
            let mut reader = FromRead::new(SliceReader::new(ONE_GATE, 4096));
            let mut out = FromWrite::new(ArrayWriter::new(4096));
            let _ = answer(alloc, &search, &mut reader, &mut out, &mut counter);
        }
        Ok(Request::Ever(question)) => ever_observed(alloc, &question, &mut counter)?,
        Ok(Request::After(question)) => after_observed(alloc, &question, &mut counter),
        Ok(Request::Cover(question)) => {
            let mut reader = FromRead::new(SliceReader::new(VANISHING, 4096));
            let mut out = FromWrite::new(ArrayWriter::new(4096));
            let _ = answer(alloc, &question, &mut reader, &mut out, &mut counter);
        }
        Ok(Request::Graph(question)) => {
            let mut reader = FromRead::new(SliceReader::new(VANISHING, 4096));
            let mut out = FromWrite::new(ArrayWriter::new(4096));
            let _ = answer(alloc, &question, &mut reader, &mut out, &mut counter);
        }
        Ok(Request::Suite(question)) => {
            let mut reader = FromRead::new(SliceReader::new(VANISHING, 4096));
            let mut out = FromWrite::new(ArrayWriter::new(4096));
            let _ = answer(alloc, &question, &mut reader, &mut out, &mut counter);
        }
        Ok(Request::Compare(question)) => compare_observed(alloc, &question, &mut counter),
        Ok(Request::Check) => {}
        Ok(Request::Diagnose(_asked)) => {}
        Err(_fault) => {}
    }
    Ok(counter)
}

/// Asserts what an observer of a command on one specification is told.
fn assert_told(
    rt: &impl Abort,
    alloc: Global,
    words: &[&str],
    visits: usize,
    lines: usize,
) -> Result<(), AllocError> {
    let told = assert_visits(rt, alloc, words, visits, lines)?;
    assert_eq!(rt; told.accepted, 1);
    Ok(())
}

/// Asserts of how many visits and lines an observer of the command is told.
fn assert_visits(
    rt: &impl Abort,
    alloc: Global,
    words: &[&str],
    visits: usize,
    lines: usize,
) -> Result<Counter, AllocError> {
    let told = observe(alloc, words)?;
    assert_eq!(rt; told.visits, visits);
    assert_eq!(rt; told.lines, lines);
    Ok(told)
}

#[test]
fn an_observer_is_told_of_all_visits_and_lines(rt: HostRuntime) -> Result<(), AllocError> {
    let matched = ["lotosseq", "ever", "<until>", "<deadlock>"];
    let unmatched = ["lotosseq", "ever", "<until>", "C"];
    assert_told(&rt, rt.alloc(), ALL, 2_485, 71)?;
    assert_told(&rt, rt.alloc(), unmatched.as_slice(), 2_601, 0)?;
    assert_told(&rt, rt.alloc(), matched.as_slice(), 2_601, 1)
}

#[test]
fn an_observer_is_told_of_each_label(rt: HostRuntime) -> Result<(), AllocError> {
    let first = ["lotosseq", "after"];
    let followed = ["lotosseq", "after", "A A", "A"];
    let impossible = ["lotosseq", "after", "A A", "exit A"];
    assert_told(&rt, rt.alloc(), first.as_slice(), 0, 1)?;
    assert_told(&rt, rt.alloc(), followed.as_slice(), 3, 1)?;
    assert_told(&rt, rt.alloc(), impossible.as_slice(), 2, 0)
}

/// `A` and `A B` lead to new sets, before the first line.
#[test]
fn an_observer_is_told_of_each_set(rt: HostRuntime) -> Result<(), AllocError> {
    let covered = ["lotosseq", "cover"];
    let limited = ["lotosseq", "cover", "--limit", "1"];
    let stopped = ["lotosseq", "cover", "--states", "2"];
    assert_told(&rt, rt.alloc(), covered.as_slice(), 2, 2)?;
    assert_told(&rt, rt.alloc(), limited.as_slice(), 2, 1)?;
    let drawn = ["lotosseq", "graph"];
    assert_told(&rt, rt.alloc(), stopped.as_slice(), 1, 0)?;
    assert_told(&rt, rt.alloc(), drawn.as_slice(), 2, 1)
}

/// `A` leads to a new pair of sets, after which B comes in the first alone.
#[test]
fn an_observer_is_told_of_each_pair(rt: HostRuntime) -> Result<(), AllocError> {
    let compared = ["lotosseq", "compare"];
    let hidden = ["lotosseq", "compare", "--only", "A"];
    let stopped = ["lotosseq", "compare", "--states", "1"];
    assert_visits(&rt, rt.alloc(), compared.as_slice(), 1, 1)?;
    assert_visits(&rt, rt.alloc(), hidden.as_slice(), 1, 0)?;
    assert_visits(&rt, rt.alloc(), stopped.as_slice(), 0, 0)?;
    Ok(())
}

/// Runs arguments that cannot be read, with an error stream that is a terminal or is none.
fn assert_unreadable(rt: &impl Abort, alloc: Global, terminal: bool) {
    let mut reader = FromRead::new(SliceReader::new(ONE_GATE, 4096));
    let mut out = FromWrite::new(ArrayWriter::new(4096));
    let mut messages = Messages {
        stream: ArrayWriter::new(4096),
        terminal,
        keyboard: false,
    };
    let args = Err(Error::from(ErrorKind::InvalidData));
    let status = run_args(alloc, args, &mut reader, &mut out, &mut messages);
    assert_eq!(rt;
        messages.stream.got(),
        b"lotosseq: an argument is not Unicode\n".as_slice()
    );
    assert_eq!(rt; status, 5);
    assert!(rt; out.into_inner().got().is_empty());
}

#[test]
fn arguments_that_cannot_be_read_by_a_terminal(rt: HostRuntime) {
    assert_unreadable(&rt, rt.alloc(), false);
    assert_unreadable(&rt, rt.alloc(), true);
}
