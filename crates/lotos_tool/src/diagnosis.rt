//! The check with diagnostics: what `check` writes, and on standard error an explanation of its fault, or warnings.
ghost use Rattle.std.specs.Prelude.{◌≡◌, ◌≤◌, false, length};
ghost use Rattle.lotos_text.specs.Limits.{max_text_length};
ghost use Rattle.lotos_text.specs.AstOf.{definition_view};
ghost use Rattle.lotos_check.specs.Acceptance.{IsAccepted};
ghost use Rattle.lotos_check.specs.AcceptedText.{Accepted, IsParsed};
ghost use Rattle.lotos_check.specs.CheckedView.{system_of};
ghost use Rattle.lotos_outcome.specs.Calls.{Answered, Call, EndsAs};
ghost use Rattle.lotos_outcome.specs.Outcomes.{is_unwritten};
ghost use Rattle.lotos_tool.specs.CheckOutcome.{check_answering, check_meaning};
ghost use Rattle.lotos_outcome.specs.RefusalCauses.{IsTextRefusal};
ghost use Rattle.lotos_outcome.specs.Rejections.{end_of};

use crate::check_command::write_processes;
use crate::findings::Processes;
use lotos_check::{Checked, check_parsed, parse_text};
use lotos_command::DiagnoseRequest;
use lotos_device::{Sink, Source};
use lotos_outcome::{Ended, Rejection, end_of, read_input, reject};
use lotos_report::{MutedStream, explain_fault, report_end, write_warnings};
use lotos_text::Specification;
use lotos_warn::warnings;
use std::alloc::Global;
use std::io::Write;

/// Reads a specification, checks it, writes the lines of its processes, and reports to `err` how that ended; then writes
/// there the diagnostics that are asked for. Neither the reader nor `out` may have failed before.
pub fn diagnose<R: Source, W: Sink, E: Write>(
    alloc: Global,
    asked: &DiagnoseRequest,
    reader: &mut R,
    out: &mut W,
    err: &mut E,
) -> Ended<Processes, ()>
    requires reader { (R.state reader.old).has_failed ≡ false }
    requires out { (W.state out.old).has_failed ≡ false }
    ensures { Call check_meaning (R.state reader.old) (R.state reader.new) (W.state out.old)
        (W.state out.new) result }
{
    match read_input(alloc, reader) {
        Ok(text) => diagnose_text(alloc, asked, text.as_slice(), out, err),
        Err(rejection) => report_rejection(alloc, asked, b"", None, rejection, err),
    }
}

/// Checks a text with diagnostics.
fn diagnose_text<W: Sink, E: Write>(
    alloc: Global,
    asked: &DiagnoseRequest,
    text: &[u8],
    out: &mut W,
    err: &mut E,
) -> Ended<Processes, ()>
    requires text { length text.now ≤ max_text_length }
    requires out { (W.state out.old).has_failed ≡ false }
    ensures ends { EndsAs check_answering (IsTextRefusal text.now) (Accepted text.now)
        (W.state out.old).written (W.state out.new).written result }
    ensures failed { (W.state out.new).has_failed ≡ is_unwritten result }
{
    match parse_text(alloc, text) {
        Ok(specification) => diagnose_parsed(alloc, asked, text, &specification, out, err),
        Err(fault) => report_rejection(alloc, asked, text, None, reject(text, fault), err),
    }
}

/// Checks the specification that a text spells, with diagnostics.
fn diagnose_parsed<W: Sink, E: Write>(
    alloc: Global,
    asked: &DiagnoseRequest,
    text: &[u8],
    specification: &Specification,
    out: &mut W,
    err: &mut E,
) -> Ended<Processes, ()>
    requires text { length text.now ≤ max_text_length }
    requires parsed { IsParsed text.now (definition_view specification.now.whole) }
    requires out { (W.state out.old).has_failed ≡ false }
    ensures ends { EndsAs check_answering (IsTextRefusal text.now) (Accepted text.now)
        (W.state out.old).written (W.state out.new).written result }
    ensures failed { (W.state out.new).has_failed ≡ is_unwritten result }
{
    match check_parsed(alloc, text, specification) {
        Ok(system) => report_processes(alloc, asked, text, specification, &system, out, err),
        Err(fault) => {
            let rejection = reject(text, fault);
            report_rejection(alloc, asked, text, Some(specification), rejection, err)
        }
    }
}

/// Writes the lines of an accepted specification's processes, and then, if that did not fail, its warnings if they are
/// asked for.
fn report_processes<W: Sink, E: Write>(
    alloc: Global,
    asked: &DiagnoseRequest,
    text: &[u8],
    specification: &Specification,
    system: &Checked,
    out: &mut W,
    err: &mut E,
) -> Ended<Processes, ()>
    requires accepted { IsAccepted (definition_view specification.now.whole) (system_of system.now) }
    requires out { (W.state out.old).has_failed ≡ false }
    ensures ends { Answered check_answering (λ asked. asked ≡ system_of system.now)
        (W.state out.old).written (W.state out.new).written result }
    ensures failed { (W.state out.new).has_failed ≡ is_unwritten result }
{
    let ended = write_processes(alloc, system, out);
    report_end(&mut MutedStream::new(err, out.is_unread()), &ended);
    if asked.warn && matches!(ended, Ended::Done(_)) {
        warn(alloc, text, specification, system, err);
    }
    ended
}

/// Writes a line for each warning about an accepted specification, or one that says that there is no memory for them.
fn warn<E: Write>(
    alloc: Global,
    text: &[u8],
    specification: &Specification,
    system: &Checked,
    err: &mut E,
)
    requires { IsAccepted (definition_view specification.now.whole) (system_of system.now) }
{
    match warnings(alloc, specification, system) {
        Ok(list) => write_warnings(err, text, list.as_slice()),
        Err(_) => {
            let _ = writeln!(err, "There is no memory to say more.");
        }
    }
}

/// Reports why a text is rejected, and then explains it if that is asked for. `specification` is what the text spells,
/// if it spells one.
fn report_rejection<E: Write>(
    alloc: Global,
    asked: &DiagnoseRequest,
    text: &[u8],
    specification: Option<&Specification>,
    rejection: Rejection,
    err: &mut E,
) -> Ended<Processes, ()>
    ensures { result ≡ end_of rejection tt }
{
    let ended = end_of(rejection, ());
    report_end(err, &ended);
    if asked.explain {
        explain_fault(alloc, text, specification, ended.refusal(), err);
    }
    ended
}
