//! The program: from the words of its command line to its exit status.
ghost use Rattle.std.specs.Prelude.{◌≡◌, ◌==◌, false};
ghost use Rattle.lotos_outcome.specs.Calls.{Ran};
ghost use Rattle.lotos_pattern.specs.Spelling.{texts_of};
ghost use Rattle.lotos_tool.specs.CheckOutcome.{check_meaning};
ghost use Rattle.lotos_tool.specs.Findings.{always};
ghost use Rattle.lotos_tool.specs.ProgramRuns.{IsAnswerTo, ProgramRan, TextWritten};

use crate::command::run_command;
use crate::diagnosis::diagnose;
use lotos_command::{CommandFault, DiagnoseRequest, Request, request};
use lotos_device::{DeviceFailed, Sink, Source};
use lotos_outcome::Stop;
use lotos_output::write_and_flush;
use lotos_report::{
    Messages, MutedStream, hint_after_fault, report_failure, report_keyboard, report_text,
};
use std::alloc::Global;
use std::io::Write;

/// Runs the command that the words ask for and returns its exit status: 0 for a complete output with lines, an accepted
/// specification, a match, a sequence that can be observed, specifications that do not differ, help, or the version; 1
/// for a listing without lines, no match, a sequence that cannot be observed, or specifications that differ; 2 for words, a
/// pattern, a mark, or a specification that is refused, or input that cannot be read; 3 at the limit of lines; 4 for a
/// prefix with too many terms, too many states, or a suite with too many lines; 5 out of memory; 6 for output that cannot
/// be written.
///
/// The first of the words is the program's own name. The lines of the command, or the help or the version if the words
/// ask for it, go to `out`, and every message to `messages`, whose errors change no status. At most one byte more than a
/// text may have is taken from the reader, whatever it returns. Neither the reader nor `out` may have failed before.
pub fn run<R: Source, W: Sink, E: Write>(
    alloc: Global,
    words: &[&str],
    reader: &mut R,
    out: &mut W,
    messages: &mut Messages<E>,
) -> u8
    requires reader { (R.state reader.old).has_failed ≡ false }
    requires out { (W.state out.old).has_failed ≡ false }
    ensures { ProgramRan (texts_of words.now) (R.state reader.old) (R.state reader.new)
        (W.state out.old) (W.state out.new) result }
{
    match request(alloc, words) {
        Ok(Request::Check) => run_check(alloc, reader, out, messages),
        Ok(Request::Diagnose(asked)) => run_diagnosis(alloc, &asked, reader, out, messages),
        Ok(Request::Search(asked)) => run_command(alloc, &asked, reader, out, messages),
        Ok(Request::Ever(asked)) => run_command(alloc, &asked, reader, out, messages),
        Ok(Request::After(asked)) => run_command(alloc, &asked, reader, out, messages),
        Ok(Request::Cover(asked)) => run_command(alloc, &asked, reader, out, messages),
        Ok(Request::Graph(asked)) => run_command(alloc, &asked, reader, out, messages),
        Ok(Request::Suite(asked)) => run_command(alloc, &asked, reader, out, messages),
        Ok(Request::Compare(asked)) => run_command(alloc, &asked, reader, out, messages),
        Err(fault) => end_without_command(&fault, words, out, &mut messages.stream),
    }
}

/// Runs a check and reports it. Returns its status.
fn run_check<R: Source, W: Sink, E: Write>(
    alloc: Global,
    reader: &mut R,
    out: &mut W,
    messages: &mut Messages<E>,
) -> u8
    requires reader { (R.state reader.old).has_failed ≡ false }
    requires out { (W.state out.old).has_failed ≡ false }
    ensures { Ran check_meaning always (R.state reader.old) (R.state reader.new) (W.state out.old)
        (W.state out.new) result }
{
    let asked = DiagnoseRequest {
        explain: false,
        warn: false,
        brief: false,
    };
    run_diagnosis(alloc, &asked, reader, out, messages)
}

/// Runs a check with options and reports it. At a terminal a fault is explained, unless no more is to be said there than
/// elsewhere. Returns its status.
fn run_diagnosis<R: Source, W: Sink, E: Write>(
    alloc: Global,
    asked: &DiagnoseRequest,
    reader: &mut R,
    out: &mut W,
    messages: &mut Messages<E>,
) -> u8
    requires reader { (R.state reader.old).has_failed ≡ false }
    requires out { (W.state out.old).has_failed ≡ false }
    ensures { Ran check_meaning always (R.state reader.old) (R.state reader.new) (W.state out.old)
        (W.state out.new) result }
{
    report_keyboard(messages);
    let asked = DiagnoseRequest {
        explain: asked.explain || messages.terminal && !asked.brief,
        warn: asked.warn,
        brief: asked.brief,
    };
    diagnose(alloc, &asked, reader, out, &mut messages.stream).status()
}

/// Answers words that make no request, with a hint if one of them names a file, and returns the status.
fn end_without_command<W: Sink, E: Write>(
    fault: &CommandFault,
    words: &[&str],
    out: &mut W,
    err: &mut E,
) -> u8
    requires { (W.state out.old).has_failed ≡ false }
    ensures answer { IsAnswerTo fault.now (W.state out.old).written (W.state out.new).written result }
    ensures output { (W.state out.new).has_failed ≡ (result == 6) }
{
    let status = report_command_fault(fault, out, err);
    hint_after_fault(fault, words, err);
    status
}

/// Writes the help or the version that the words ask for to `out`, or reports to `err` why they make no request. Returns
/// the status: 0 for help or the version, 2 for words that fit no command, 5 out of memory, and 6 if the output fails,
/// which must not have failed before. The text that says why words fit no command has line feeds of its own.
pub fn report_command_fault<W: Sink, E: Write>(fault: &CommandFault, out: &mut W, err: &mut E) -> u8
    requires { (W.state out.old).has_failed ≡ false }
    ensures answer { IsAnswerTo fault.now (W.state out.old).written (W.state out.new).written result }
    ensures output { (W.state out.new).has_failed ≡ (result == 6) }
{
    match fault {
        CommandFault::Help(text) => write_text(text.as_str(), out, err),
        CommandFault::Wrong(text) => {
            report_text(err, text.as_str());
            2
        }
        CommandFault::Memory => {
            report_failure(err, Stop::Memory);
            5
        }
    }
}

/// Writes the help or the version and returns the status, 0, or 6 if the output fails.
fn write_text<W: Sink, E: Write>(text: &str, out: &mut W, err: &mut E) -> u8
    requires { (W.state out.old).has_failed ≡ false }
    ensures printed { TextWritten (W.state out.old).written (W.state out.new).written text.now result }
    ensures output { (W.state out.new).has_failed ≡ (result == 6) }
{
    match write_and_flush(out, text.as_bytes()) {
        Ok(()) => 0,
        Err(DeviceFailed) => {
            report_failure(&mut MutedStream::new(err, out.is_unread()), Stop::Write);
            6
        }
    }
}
