//! The commands and the check, each called by itself: what they return and write, which does not depend on whether
//! progress is asked for or observed, and what an observer is told.
ghost use Rattle.std.specs.Prelude.{IfOk};
ghost use Rattle.lotos_command.specs.Request.{HasBounds};

use super::memory_devices::{ArrayWriter, SliceReader};
use super::rows::words_of;
use super::worked_texts::{ONE_GATE, VANISHING};
use lotos_check::AcceptedText;
use lotos_device::{FromRead, FromWrite};
use lotos_tool::{
    Command, CommandFault, NoProgress, OutputProgress, Progress, Request, Searched, answer,
    check_text, request,
};
use std::alloc::{AllocError, Global};
use std::fmt::Debug;
use std::process::Abort;

/// What an observer is told.
#[derive(Clone, Copy, Debug, PartialEq)]
struct Told {
    /// How often it is told that a text is read next.
    texts: usize,
    /// How often it is told that a text is accepted.
    accepted: usize,
    visits: usize,
    lines: usize,
    /// How much was looked at, if it is told that no match was found.
    searched: Option<Searched>,
}

/// Nothing yet.
const NOTHING: Told = Told {
    texts: 0,
    accepted: 0,
    visits: 0,
    lines: 0,
    searched: None,
};

/// That a text is read, and that it is accepted.
const ACCEPTED: Told = Told {
    texts: 1,
    accepted: 1,
    ..NOTHING
};

impl Progress for Told {
    fn visit(&mut self, _length: usize) {
        self.visits = self.visits.saturating_add(1);
    }

    fn found_none(&mut self, searched: Searched) {
        self.searched = Some(searched);
    }
}

impl OutputProgress for Told {
    fn before_text(&mut self) {
        self.texts = self.texts.saturating_add(1);
    }

    fn accepted(&mut self, _text: &[u8], _accepted_text: &AcceptedText) {
        self.accepted = self.accepted.saturating_add(1);
    }

    fn before_line(&mut self) {
        self.lines = self.lines.saturating_add(1);
    }
}

/// What comes of a call: what the function returns as `Debug` writes it, what it writes, and how often it flushes that.
#[derive(Clone, Copy, Debug, PartialEq)]
struct Called<'a> {
    result: &'a str,
    output: &'a [u8],
    flushes: usize,
}

/// A call of a command: its words without and with the option for progress, a text, what comes of it, and what an
/// observer is told.
struct Call {
    words: &'static str,
    reporting: &'static str,
    text: &'static [u8],
    called: Called<'static>,
    told: Told,
}

/// Searches. Of each length there is one sequence, and up to a length of 2 there are three prefixes with a label.
#[rattlefmt::skip]
const SEARCHES: &[Call] = &[
    Call { words: "search --depth=2 '<while> A'", reporting: "search --depth=2 --progress '<while> A'", text: ONE_GATE,
        called: Called { result: "Done(Listed { lines: 3 })", output: b"<empty>\nA\nA A\n", flushes: 1 },
        told: Told { visits: 3, lines: 3, ..ACCEPTED } },
    Call { words: "search --depth=2 --limit=2 '<while> A'",
        reporting: "search --depth=2 --limit=2 --progress '<while> A'", text: ONE_GATE,
        called: Called { result: "Stopped { cause: Limit, place: ListingPlace { last: Some(\"A\"), prefix: None } }", output: b"<empty>\nA\n", flushes: 1 },
        told: Told { visits: 1, lines: 2, ..ACCEPTED } },
];

/// Matches of any length. The term is always the same, and the states are places in the pattern.
#[rattlefmt::skip]
const MATCHES: &[Call] = &[
    Call { words: "ever 'A A'", reporting: "ever --progress 'A A'", text: ONE_GATE,
        called: Called { result: "Done(Ever)", output: b"A A\n", flushes: 1 },
        told: Told { visits: 3, lines: 1, ..ACCEPTED } },
    Call { words: "ever 'A exit'", reporting: "ever --progress 'A exit'", text: ONE_GATE,
        called: Called { result: "Done(Never)", output: b"", flushes: 1 },
        told: Told { visits: 2, searched: Some(Searched { states: 2, elements: 1, is_stuck: false }), ..ACCEPTED } },
];

/// What can come after a sequence, a cover, an automaton, and a suite: after `A` it may be silent and then take `A`, and it may
/// take `B`, after which nothing is observed. The sets after `A` and after `A B` are new.
#[rattlefmt::skip]
const NEXT: &[Call] = &[
    Call { words: "after 'A A'", reporting: "after --progress 'A A'", text: VANISHING,
        called: Called { result: "Done(Followed)", output: b"A\nB\n", flushes: 1 },
        told: Told { visits: 2, lines: 1, ..ACCEPTED } },
    Call { words: "after 'A exit'", reporting: "after --progress 'A exit'", text: VANISHING,
        called: Called { result: "Done(CannotCome { number: 2, instead: Some(\"A B\") })", output: b"", flushes: 0 },
        told: Told { visits: 1, ..ACCEPTED } },
    Call { words: "cover", reporting: "cover --progress", text: VANISHING,
        called: Called { result: "Done(Listed { lines: 2 })", output: b"A A\nA B\n", flushes: 1 },
        told: Told { visits: 2, lines: 2, ..ACCEPTED } },
    Call { words: "graph", reporting: "graph --progress", text: VANISHING,
        called: Called { result: "Done(AutomatonSize { states: 3, transitions: 3 })", output: b"des (0, 3, 3)\n(0, \"A\", 1)\n(1, \"A\", 1)\n(1, \"B\", 2)\n", flushes: 1 },
        told: Told { visits: 2, lines: 1, ..ACCEPTED } },
    Call { words: "graph --terms 1", reporting: "graph --progress --terms 1", text: VANISHING,
        called: Called { result: "Stopped { cause: Terms, place: Some(\"A\") }", output: b"", flushes: 0 },
        told: ACCEPTED },
    Call { words: "graph --states 2", reporting: "graph --progress --states 2", text: VANISHING,
        called: Called { result: "Stopped { cause: States, place: Some(\"A B\") }", output: b"", flushes: 0 },
        told: Told { visits: 1, ..ACCEPTED } },
    Call { words: "suite", reporting: "suite --progress", text: VANISHING,
        called: Called { result: "Done(Listed { lines: 5 })", output: b"- B\n+ A A A\n+ A A B\n- A B A\n- A B B\n", flushes: 1 },
        told: Told { visits: 2, lines: 1, ..ACCEPTED } },
    Call { words: "suite --limit 1", reporting: "suite --progress --limit 1", text: VANISHING,
        called: Called { result: "Stopped { cause: Limit, place: ListingPlace { last: Some(\"- B\"), prefix: None } }", output: b"- B\n", flushes: 1 },
        told: Told { visits: 2, lines: 1, ..ACCEPTED } },
    Call { words: "suite --after 'A B B'", reporting: "suite --progress --after 'A B B'", text: VANISHING,
        called: Called { result: "Done(Listed { lines: 0 })", output: b"", flushes: 1 },
        told: Told { visits: 2, ..ACCEPTED } },
    Call { words: "suite --terms 1", reporting: "suite --progress --terms 1", text: VANISHING,
        called: Called { result: "Stopped { cause: Terms, place: ListingPlace { last: None, prefix: Some(\"A\") } }", output: b"", flushes: 0 },
        told: ACCEPTED },
];

/// Expects that a call has come to this.
fn expect_called<T: Debug>(
    rt: &impl Abort,
    alloc: Global,
    ended: &T,
    out: FromWrite<ArrayWriter>,
    called: Called<'_>,
) -> Result<(), AllocError> {
    let result = format!(in alloc; "{ended:?}")?;
    let output = out.into_inner();
    let found = Called {
        result: result.as_str(),
        output: output.got(),
        flushes: output.flushes,
    };
    assert_eq!(rt; found, called);
    Ok(())
}

/// Answers the question of a command, and expects what comes of it.
fn expect_answer<C: Command, P: OutputProgress>(
    rt: &impl Abort,
    alloc: Global,
    call: &Call,
    command: &C,
    progress: &mut P,
) -> Result<(), AllocError>
where
    C::Found: Debug,
    C::Place: Debug,
    requires { C.is_bounded command.now }
{
    let mut reader = FromRead::new(SliceReader::new(call.text, 4096));
    let mut out = FromWrite::new(ArrayWriter::new(4096));
    let ended = answer(alloc, command, &mut reader, &mut out, progress);
    expect_called(rt, alloc, &ended, out, call.called)
}

/// Answers the question of the command that is asked for, and expects what comes of it.
fn expect_call<P: OutputProgress>(
    rt: &impl Abort,
    alloc: Global,
    call: &Call,
    asked: &Result<Request, CommandFault>,
    progress: &mut P,
) -> Result<(), AllocError>
    requires { IfOk asked.now HasBounds }
{
    match asked {
        Ok(Request::Search(asked)) => expect_answer(rt, alloc, call, asked, progress),
        Ok(Request::Ever(asked)) => expect_answer(rt, alloc, call, asked, progress),
        Ok(Request::After(asked)) => expect_answer(rt, alloc, call, asked, progress),
        Ok(Request::Cover(asked)) => expect_answer(rt, alloc, call, asked, progress),
        Ok(Request::Graph(asked)) => expect_answer(rt, alloc, call, asked, progress),
        Ok(Request::Suite(asked)) => expect_answer(rt, alloc, call, asked, progress),
        _ => {
            assert!(rt; false, "no command with an observer: {}", call.words);
            Ok(())
        }
    }
}

/// Calls the function without an observer and with one, and expects what that is told.
fn expect_calls(
    rt: &impl Abort,
    alloc: Global,
    call: &Call,
    asked: &Result<Request, CommandFault>,
) -> Result<(), AllocError>
    requires { IfOk asked.now HasBounds }
{
    expect_call(rt, alloc, call, asked, &mut NoProgress)?;
    let mut told = NOTHING;
    expect_call(rt, alloc, call, asked, &mut told)?;
    assert_eq!(rt; told, call.told, "{}", call.words);
    Ok(())
}

/// Expects what comes of these words.
fn expect_words(
    rt: &impl Abort,
    alloc: Global,
    call: &Call,
    words: &str,
) -> Result<(), AllocError> {
    let words = words_of(alloc, words)?;
    expect_calls(rt, alloc, call, &request(alloc, words.as_slice()))
}

/// Expects what comes of the words of each call, without and with the option.
fn expect_each(rt: &impl Abort, alloc: Global, calls: &[Call]) -> Result<(), AllocError> {
    for call in calls {
        expect_words(rt, alloc, call, call.words)?;
        expect_words(rt, alloc, call, call.reporting)?;
    }
    Ok(())
}

#[test]
fn searches(rt: HostRuntime) -> Result<(), AllocError> {
    expect_each(&rt, rt.alloc(), SEARCHES)
}

#[test]
fn matches_of_any_length(rt: HostRuntime) -> Result<(), AllocError> {
    expect_each(&rt, rt.alloc(), MATCHES)
}

#[test]
fn what_comes_next_covers_and_automata(rt: HostRuntime) -> Result<(), AllocError> {
    expect_each(&rt, rt.alloc(), NEXT)
}

/// A check has no observer.
#[test]
fn a_check(rt: HostRuntime) -> Result<(), AllocError> {
    let mut reader = FromRead::new(SliceReader::new(VANISHING, 4096));
    let mut out = FromWrite::new(ArrayWriter::new(4096));
    let ended = check_text(rt.alloc(), &mut reader, &mut out);
    let called = Called {
        result: "Done(Processes { count: 2 })",
        output: b"P 3 noexit\nQ 1 noexit\n",
        flushes: 1,
    };
    expect_called(&rt, rt.alloc(), &ended, out, called)
}
