//! What is written of each refusal, and of each fault that a refusal has.
//!
//! The matches have no arm for what is left, so a variant that is new needs its text here. `tools/check message-rows` sees that
//! each variant is made by a test.

use super::message_texts::{
    after_request, ever_request, expect_check, expect_end, expect_text, search_request,
};
use lotos_check::{AcceptFault, CheckFault};
use lotos_listing::MarkFault;
use lotos_pattern::PatternFault;
use lotos_text::{Functionality, Placed, Specification, TextFault, parse};
use lotos_tool::{Ended, Refusal};
use std::alloc::{AllocError, Global};
use std::process::Abort;

/// What is written of a refusal, for a fault at line 300 and column 7 or a word with the number 300.
fn message_of(refusal: &Refusal) -> &'static str {
    match refusal {
        Refusal::Text { fault, .. } => text_message(fault),
        Refusal::Check { fault, .. } => check_message(fault),
        Refusal::Pattern(fault) => pattern_message(fault),
        Refusal::E41(_) => "lotosseq: E41 word 300 is no label\n",
        Refusal::E45(_) => "lotosseq: E45 word 300 is i, which cannot be observed\n",
        Refusal::Mark(fault) => mark_message(fault),
        Refusal::E47 => "lotosseq: E47 input cannot be read\n",
        Refusal::E49(_) => "lotosseq: E49 word 300 is no gate of the specification\n",
        Refusal::E52(_) => "lotosseq: E52 A\\x20B is no gate of the specification\n",
    }
}

fn text_message(fault: &TextFault) -> &'static str {
    match fault {
        TextFault::E01(_) => "lotosseq: 300:7: E01 byte begins no token\n",
        TextFault::E02(_) => "lotosseq: 300:7: E02 comment is not closed\n",
        TextFault::E03 => "lotosseq: E03 text is longer than 1048576 bytes\n",
        TextFault::E04(_) => "lotosseq: 300:7: E04 token is not expected\n",
        TextFault::E05(_) => "lotosseq: 300:7: E05 nesting is over 200\n",
        TextFault::E06(_) => "lotosseq: 300:7: E06 text ends too early\n",
        TextFault::E07(_) => "lotosseq: 300:7: E07 word of full LOTOS\n",
        TextFault::E99(_) => "lotosseq: E99 out of memory\n",
    }
}

fn check_message(fault: &CheckFault) -> &'static str {
    match fault {
        CheckFault::E20(_) => "lotosseq: 300:7: E20 gate PING_1 is declared twice\n",
        CheckFault::E21(_) => "lotosseq: 300:7: E21 gate PING_1 is not declared\n",
        CheckFault::E22(_) => "lotosseq: 300:7: E22 process PING_1 is not declared\n",
        CheckFault::E23 { .. } => "lotosseq: 300:7: E23 gates of PING_1: 301 formal, 302 actual\n",
        CheckFault::E24(_) => "lotosseq: 300:7: E24 process PING_1 is declared twice\n",
        CheckFault::E25 { declared, .. } => functionality_message(*declared),
        CheckFault::E26(_) => "lotosseq: 300:7: E26 left side of >> never exits\n",
        CheckFault::E27 { .. } => "lotosseq: 300:7: E27 the unguarded calls of PING_1 do not end\n",
        CheckFault::E99(_) => "lotosseq: 300:7: E99 out of memory\n",
    }
}

fn functionality_message(declared: Functionality) -> &'static str {
    match declared {
        Functionality::Exit => "lotosseq: 300:7: E25 PING_1 is declared exit and is noexit\n",
        Functionality::NoExit => "lotosseq: 300:7: E25 PING_1 is declared noexit and is exit\n",
    }
}

fn pattern_message(fault: &PatternFault) -> &'static str {
    match fault {
        PatternFault::E41(_) => "lotosseq: E41 word 300 is neither a label nor an element\n",
        PatternFault::E42(_) => "lotosseq: E42 word 300 needs a label or <deadlock> after it\n",
        PatternFault::E43(_) => "lotosseq: E43 word 300 follows an end element\n",
        PatternFault::E44(_) => "lotosseq: E44 pattern is over 256 elements\n",
        PatternFault::E45(_) => "lotosseq: E45 word 300 is i, which cannot be observed\n",
        PatternFault::E48(_) => "lotosseq: E48 word 300 needs a label or <any> after it\n",
        PatternFault::E50(_) => "lotosseq: E50 word 300 needs a label after it\n",
        PatternFault::E51(_) => "lotosseq: E51 word 300 is answered by ever alone\n",
        PatternFault::E99(_) => "lotosseq: E99 out of memory\n",
    }
}

fn mark_message(fault: &MarkFault) -> &'static str {
    match fault {
        MarkFault::E46 => "lotosseq: E46 mark is no line of a listing\n",
        MarkFault::E99(_) => "lotosseq: E99 out of memory\n",
    }
}

/// Expects that a listing and a check that are refused so say why, with status 2.
fn expect_refused(rt: &impl Abort, alloc: Global, refusal: Refusal) {
    let message = message_of(&refusal).as_bytes();
    let ended = Ended::Refused(refusal);
    expect_end(rt, &search_request(alloc), &ended, message, 2);
    match ended {
        Ended::Refused(refusal) => expect_check(rt, &Ended::Refused(refusal), message, 2),
        Ended::Stopped {
            cause: _cause,
            place: _place,
        } => {}
        Ended::Done(_found) => {}
    }
}

/// The same of a search for a match.
fn expect_refused_match(rt: &impl Abort, alloc: Global, refusal: Refusal) {
    let message = message_of(&refusal).as_bytes();
    expect_end(
        rt,
        &ever_request(alloc),
        &Ended::Refused(refusal),
        message,
        2,
    );
}

/// The same of a command that follows a sequence.
fn expect_refused_sequence(rt: &impl Abort, alloc: Global, refusal: Refusal) {
    let message = message_of(&refusal).as_bytes();
    let request = after_request(Vec::new(alloc));
    expect_end(rt, &request, &Ended::Refused(refusal), message, 2);
}

/// Expects what is written of a fault of the text at line 300 and column 7.
fn expect_text_fault(rt: &impl Abort, alloc: Global, fault: TextFault) {
    let place = Some((300, 7));
    expect_refused(rt, alloc, Refusal::Text { fault, place });
}

#[test]
fn faults_of_texts(rt: HostRuntime) {
    expect_text_fault(&rt, rt.alloc(), TextFault::E01(1));
    expect_text_fault(&rt, rt.alloc(), TextFault::E02(1));
    expect_text_fault(&rt, rt.alloc(), TextFault::E04(1));
    expect_text_fault(&rt, rt.alloc(), TextFault::E05(1));
    expect_text_fault(&rt, rt.alloc(), TextFault::E06(1));
    expect_text_fault(&rt, rt.alloc(), TextFault::E07(1));
}

/// Expects what is written of a fault of the text that has no place.
fn expect_unplaced(rt: &impl Abort, alloc: Global, fault: TextFault) {
    expect_refused(rt, alloc, Refusal::Text { fault, place: None });
}

#[test]
fn faults_of_texts_without_a_place(rt: HostRuntime) {
    expect_unplaced(&rt, rt.alloc(), TextFault::E03);
    expect_unplaced(&rt, rt.alloc(), TextFault::E99(AllocError));
}

/// The name PING_1.
fn placed(alloc: Global) -> Result<Placed, TextFault> {
    let specification = parse(
        alloc,
        b"specification ping_1 : noexit behaviour stop endspec",
    )?;
    whole_name(alloc, &specification)
}

fn whole_name(alloc: Global, specification: &Specification) -> Result<Placed, TextFault> {
    Ok(specification.whole.name.copy(alloc)?)
}

/// Expects what is written of a fault of a specification at line 300 and column 7.
fn expect_check_fault(rt: &impl Abort, alloc: Global, fault: CheckFault) {
    expect_refused(
        rt,
        alloc,
        Refusal::Check {
            fault,
            line: 300,
            column: 7,
        },
    );
}

#[test]
fn faults_of_names(rt: HostRuntime) -> Result<(), TextFault> {
    expect_check_fault(&rt, rt.alloc(), CheckFault::E20(placed(rt.alloc())?));
    expect_check_fault(&rt, rt.alloc(), CheckFault::E21(placed(rt.alloc())?));
    expect_check_fault(&rt, rt.alloc(), CheckFault::E22(placed(rt.alloc())?));
    expect_check_fault(&rt, rt.alloc(), CheckFault::E24(placed(rt.alloc())?));
    Ok(())
}

/// A call of PING_1 with another number of gates.
fn other_number(call: Placed) -> CheckFault {
    CheckFault::E23 {
        call,
        formal: 301,
        actual: 302,
    }
}

/// Expects what is written of PING_1 if it is declared so and is otherwise.
fn expect_other_functionality(
    rt: &impl Abort,
    alloc: Global,
    name: Placed,
    declared: Functionality,
) {
    expect_check_fault(rt, alloc, CheckFault::E25 { name, declared });
}

/// Unguarded recursion of which PING_1 is the first.
fn unguarded(alloc: Global, name: Placed) -> CheckFault {
    let set = Vec::new(alloc);
    CheckFault::E27 { name, set }
}

#[test]
fn faults_of_processes(rt: HostRuntime) -> Result<(), TextFault> {
    expect_check_fault(&rt, rt.alloc(), other_number(placed(rt.alloc())?));
    expect_other_functionality(&rt, rt.alloc(), placed(rt.alloc())?, Functionality::Exit);
    expect_other_functionality(&rt, rt.alloc(), placed(rt.alloc())?, Functionality::NoExit);
    expect_check_fault(&rt, rt.alloc(), CheckFault::E26(1));
    expect_check_fault(&rt, rt.alloc(), unguarded(rt.alloc(), placed(rt.alloc())?));
    expect_check_fault(&rt, rt.alloc(), CheckFault::E99(AllocError));
    Ok(())
}

/// The faults of the words of a pattern, at the word with the number 300.
const PATTERNS: &[PatternFault] = &[
    PatternFault::E41(300),
    PatternFault::E42(300),
    PatternFault::E43(300),
    PatternFault::E44(300),
    PatternFault::E45(300),
    PatternFault::E48(300),
    PatternFault::E50(300),
    PatternFault::E51(300),
    PatternFault::E99(AllocError),
];

#[test]
fn faults_of_patterns(rt: HostRuntime) {
    for fault in PATTERNS {
        expect_refused(&rt, rt.alloc(), Refusal::Pattern(*fault));
        expect_refused_match(&rt, rt.alloc(), Refusal::Pattern(*fault));
    }
}

/// The faults of a mark.
const MARKS: &[MarkFault] = &[MarkFault::E46, MarkFault::E99(AllocError)];

#[test]
fn faults_of_marks(rt: HostRuntime) {
    for fault in MARKS {
        expect_refused(&rt, rt.alloc(), Refusal::Mark(*fault));
    }
}

/// A refusal for a name that is given to `--hide` or `--only`.
fn unknown_name(alloc: Global) -> Result<Refusal, AllocError> {
    Ok(Refusal::E52(String::from_str(alloc, "A B")?))
}

#[test]
fn refusals_of_every_command(rt: HostRuntime) -> Result<(), AllocError> {
    expect_refused(&rt, rt.alloc(), Refusal::E47);
    expect_refused(&rt, rt.alloc(), Refusal::E49(300));
    expect_refused(&rt, rt.alloc(), unknown_name(rt.alloc())?);
    expect_refused_match(&rt, rt.alloc(), Refusal::E47);
    expect_refused_match(&rt, rt.alloc(), Refusal::E49(300));
    expect_refused_match(&rt, rt.alloc(), unknown_name(rt.alloc())?);
    Ok(())
}

#[test]
fn refusals_of_sequences(rt: HostRuntime) -> Result<(), AllocError> {
    expect_refused_sequence(&rt, rt.alloc(), Refusal::E41(300));
    expect_refused_sequence(&rt, rt.alloc(), Refusal::E45(300));
    expect_refused_sequence(&rt, rt.alloc(), Refusal::E47);
    expect_refused_sequence(&rt, rt.alloc(), Refusal::E49(300));
    expect_refused_sequence(&rt, rt.alloc(), unknown_name(rt.alloc())?);
    Ok(())
}

/// The text of why a text is not accepted, for E03 and E26.
fn accept_text(fault: &AcceptFault) -> &'static str {
    match fault {
        AcceptFault::Text(_) => "E03 text is longer than 1048576 bytes",
        AcceptFault::Check(_) => "E26 left side of >> never exits",
        AcceptFault::Memory => "E99 out of memory",
    }
}

fn expect_accept_text(rt: &impl Abort, fault: AcceptFault) {
    expect_text(rt, &fault, accept_text(&fault).as_bytes());
}

#[test]
fn texts_that_are_not_accepted(rt: HostRuntime) {
    expect_accept_text(&rt, AcceptFault::Text(TextFault::E03));
    expect_accept_text(&rt, AcceptFault::Check(CheckFault::E26(1)));
    expect_accept_text(&rt, AcceptFault::Memory);
}
