//! The command `suite`, from the text to the lines of a test suite that misses nothing.
ghost use Rattle.std.specs.Prelude.{◌≡◌, ◌<◌, ◌≤◌, ◌∷◌, ◌++◌, ℕ, IfErr, IfOk, IfSome, MatchOption, None, OnOk, Some, [], false, length, map, option_map, slice_get, string_bytes, true};
ghost use Rattle.lotos_check.specs.CheckedView.{system_of};
ghost use Rattle.lotos_check.specs.NameLists.{In};
ghost use Rattle.lotos_store.specs.Interning.{plain_lists};
ghost use Rattle.lotos_terms.specs.TableView.{AreGateNames};
ghost use Rattle.lotos_listing.specs.Lookups.{text_of};
ghost use Rattle.lotos_listing.specs.Order.{After};
ghost use Rattle.lotos_suite.specs.SuiteResults.{returned_line, returned_lines};
ghost use Rattle.lotos_suite.specs.declared.suite.SuiteLine.{SuiteLine as LineOf};
ghost use Rattle.lotos_outcome.specs.Outcomes.{is_unwritten};
ghost use Rattle.lotos_outcome.specs.declared.outcome.Ended.TheVariants.{Done, Stopped};
ghost use Rattle.lotos_outcome.specs.declared.outcome.Stop.TheVariants.{Limit};
ghost use Rattle.lotos_tool.specs.ListingOutcome.{last_or};
ghost use Rattle.lotos_tool.specs.ListingParts.{is_at_limit};
ghost use Rattle.lotos_tool.specs.SuiteOutcome.{AreAfter, IsWholeSuite, SuiteQuestion, most_lines, signed_lines, signed_text};
ghost use Rattle.lotos_tool.specs.SuiteParts.{AreInOrder, EndsAsMade, HasMade, HasSuiteHalt, HavePrintedLabels, IsGraphFor, IsMade, IsSuiteFault, IsSuiteHalt, IsTextOf, question_of, sign_text, up_to};
ghost use Rattle.lotos_command.specs.Request.{HasSuiteBounds};

use crate::command::Command;
use crate::exploration::{ExplorationHalt, explore_all, report_exploration, sets_of};
use crate::findings::{Listed, ListingPlace};
use crate::listing_output::{is_at_limit, nowhere, stopped};
use crate::search_observer::Observed;
use lotos_automaton::Transition;
use lotos_check::Checked;
use lotos_command::SuiteRequest;
use lotos_device::{DeviceFailed, Sink, Source};
use lotos_listing::{Mark, Progress, Searched, is_after_mark};
use lotos_outcome::{Ended, OutputProgress, Rejection, Stop, read_asked, read_signed_mark};
use lotos_output::{format_marked, write_and_flush};
use lotos_report::{
    ListingStop, Visited, report_end, report_failure, report_stop, report_stop_unwritten,
};
use lotos_sets::FormSets;
use lotos_suite::laws::lines_miss_nothing;
use lotos_suite::{SuiteFault, SuiteLine, find_suite, suite_labels};
use lotos_text::Name;
use std::alloc::{AllocError, Global};
use std::io::Write;

/// The most lines that a suite may have.
const MOST_LINES: usize = 10_000_000;

/// The lines that are written of a suite, as text.
#[derive(Drop)]
pub(crate) struct SuiteText {
    text: Vec<u8>,
    /// How many lines they are.
    lines: u64,
    /// The last line, without its line feed, if they are as many as the limit.
    last: Option<String>,
}

impl From<SuiteFault> for ExplorationHalt {
    ghost use Rattle.std.specs.Prelude.{◌≡◌};
    ghost use Rattle.lotos_tool.specs.SuiteParts.{suite_halt};

    ghost from_gives = { λ fault halt. halt ≡ suite_halt fault };

    fn from(fault: SuiteFault) -> ExplorationHalt {
        let cause = match fault {
            SuiteFault::TooManyLines => Stop::Lines,
            SuiteFault::Memory => Stop::Memory,
        };
        ExplorationHalt { cause, place: None }
    }
}

/// The lines that the request asks for of the suite of an accepted specification.
fn find_text<P: Progress>(
    alloc: Global,
    request: &SuiteRequest,
    system: Checked,
    mark: &Option<Mark>,
    progress: &mut P,
) -> Result<SuiteText, ExplorationHalt>
    requires { HasSuiteBounds request.now }
    ensures made { IfOk result (HasMade request.now (system_of system) mark.now) }
    ensures halts { IfErr result (HasSuiteHalt request.now (system_of system) mark.now) }
{
    let own = own_gates(alloc, &system)?;
    let mut sets = sets_of(alloc, system, request.strong, request.terms)?;
    explored_text(alloc, request, own.as_slice(), &mut sets, mark, progress)
}

/// The names of the gates of the specification's own list.
fn own_gates(alloc: Global, system: &Checked) -> Result<Vec<Name>, AllocError>
    ensures { IfOk result (λ names. names.items ≡ (system_of system.now).formals) }
{
    let mut names = Vec::new(alloc);
    let own = system.gates();
    for name in own {
        names.push(name.copy(alloc)?)?;
    }
    Ok(names)
}

/// The lines that the request asks for of the suite of the behaviour of the sets. The specification's own list has the
/// gates `own`.
fn explored_text<P: Progress>(
    alloc: Global,
    request: &SuiteRequest,
    own: &[Name],
    sets: &mut FormSets,
    mark: &Option<Mark>,
    progress: &mut P,
) -> Result<SuiteText, ExplorationHalt>
    requires { HasSuiteBounds request.now }
    ensures made { IfOk result (IsMade (question_of request.now sets.old own.now mark.now)) }
    ensures halts { IfErr result (IsSuiteHalt (question_of request.now sets.old own.now mark.now)) }
{
    let graph = explore_all(alloc, sets, request.states, progress)?;
    let table = sets.table();
    table.recall_sound();
    let gates = table.gates();
    let lines = suite_of(alloc, gates, own, graph.as_slice(), request.extra)?;
    let made = text_of(alloc, gates, lines.as_slice(), mark, request.limit)?;
    Ok(made)
}

/// The lines of the suite for an automaton. The gates have the names `gates`, and those of the specification's own list
/// are `own`.
fn suite_of(
    alloc: Global,
    gates: &[Name],
    own: &[Name],
    graph: &[Vec<Transition>],
    extra: usize,
) -> Result<Vec<SuiteLine>, ExplorationHalt>
    requires named { AreGateNames gates.now }
    requires automaton { (q : SuiteQuestion) × IsGraphFor gates.now own.now (plain_lists graph.now) extra q }
    ensures lines { IfOk result (λ v. (q : SuiteQuestion) →
        IsGraphFor gates.now own.now (plain_lists graph.now) extra q →
        IsWholeSuite q (returned_lines gates.now v.items)) }
    ensures few { IfOk result (λ v. length v.items ≤ most_lines) }
    ensures printed { IfOk result (λ v. HavePrintedLabels gates.now v.items) }
    ensures halts { IfErr result (λ halt. (q : SuiteQuestion) →
        IsGraphFor gates.now own.now (plain_lists graph.now) extra q → IsSuiteFault q halt) }
{
    lines_miss_nothing();
    let labels = suite_labels(alloc, gates, own, graph)?;
    let lines = find_suite(alloc, graph, labels.as_slice(), extra, MOST_LINES)?;
    Ok(lines)
}

/// The lines after the mark, up to the limit, as text. The gates have these names.
fn text_of(
    alloc: Global,
    gates: &[Name],
    lines: &[SuiteLine],
    mark: &Option<Mark>,
    limit: Option<u32>,
) -> Result<SuiteText, AllocError>
    requires printed { HavePrintedLabels gates.now lines.now }
    requires ordered { AreInOrder (returned_lines gates.now lines.now) }
    requires limit { IfSome limit (λ n. 1 ≤ n) }
    ensures { IfOk result (IsTextOf mark.now limit (returned_lines gates.now lines.now)) }
{
    let later = lines_after(gates, lines, mark);
    let written = up_to_limit(later, limit);
    let text = format_lines(alloc, gates, written)?;
    let count = written.len() as u64;
    let last = last_at_limit(alloc, gates, written, limit)?;
    Ok(SuiteText {
        text,
        lines: count,
        last,
    })
}

/// The lines that come after the mark; all, if there is none. The gates have these names.
fn lines_after<'a>(gates: &[Name], lines: &'a [SuiteLine], mark: &Option<Mark>) -> &'a [SuiteLine]
    requires printed { HavePrintedLabels gates.now lines.now }
    requires ordered { AreInOrder (returned_lines gates.now lines.now) }
    ensures after { AreAfter mark.now (returned_lines gates.now lines.now)
        (returned_lines gates.now result.now) }
    ensures part { (line : LineOf) → In line result.now → In line lines.now }
{
    let first = count_not_after(gates, lines, mark);
    &lines[first..]
}

/// How many of the lines come before the first one that comes after the mark. The gates have these names.
fn count_not_after(gates: &[Name], lines: &[SuiteLine], mark: &Option<Mark>) -> usize
    requires printed { HavePrintedLabels gates.now lines.now }
    ensures within { result ≤ length lines.now }
    ensures not_after { (k : ℕ) (line : LineOf) → k < result → slice_get lines.now k ≡ Some line →
        After mark.now (map (text_of gates.now) line.labels.items) → ⊥ }
    ensures after { (line : LineOf) → slice_get lines.now result ≡ Some line →
        After mark.now (map (text_of gates.now) line.labels.items) }
{
    for (index, line) in lines.iter().enumerate() {
        if is_after_mark(mark, gates, line.labels.as_slice()) {
            return index;
        }
    }
    lines.len()
}

/// As many of the lines as the limit allows.
fn up_to_limit(lines: &[SuiteLine], limit: Option<u32>) -> &[SuiteLine]
    ensures { result.now ≡ up_to limit lines.now }
{
    match limit {
        Some(limit) => &lines[..lines.len().min(limit as usize)],
        None => lines,
    }
}

/// The lines as text, each ended by a line feed. The gates have these names.
fn format_lines(alloc: Global, gates: &[Name], lines: &[SuiteLine]) -> Result<Vec<u8>, AllocError>
    requires { HavePrintedLabels gates.now lines.now }
    ensures { IfOk result (λ text. text.items ≡ signed_lines (returned_lines gates.now lines.now)) }
{
    let mut text = Vec::new(alloc);
    for line in lines {
        append_line(alloc, gates, line, &mut text)?;
    }
    Ok(text)
}

/// Appends the line and a line feed. The gates have these names.
fn append_line(
    alloc: Global,
    gates: &[Name],
    line: &SuiteLine,
    text: &mut Vec<u8>,
) -> Result<(), AllocError>
    requires { HavePrintedLabels gates.now (line.now ∷ []) }
    ensures { OnOk result (text.new.items
        ≡ text.old.items ++ signed_text (returned_line gates.now line.now) ++ 10 ∷ []) }
{
    let shown = format_line(alloc, gates, line)?;
    text.extend_from_slice(shown.as_bytes())?;
    text.push(b'\n')?;
    Ok(())
}

/// The last of the lines, without a line feed, if they are as many as the limit. The gates have these names.
fn last_at_limit(
    alloc: Global,
    gates: &[Name],
    lines: &[SuiteLine],
    limit: Option<u32>,
) -> Result<Option<String>, AllocError>
    requires printed { HavePrintedLabels gates.now lines.now }
    requires limit { IfSome limit (λ n. 1 ≤ n) }
    ensures { IfOk result (λ last. MatchOption last (is_at_limit (length lines.now) limit ≡ false)
        (λ text. (is_at_limit (length lines.now) limit ≡ true) × (Some (string_bytes text)
        ≡ option_map (λ line. signed_text (returned_line gates.now line)) (last_or None lines.now)))) }
{
    if !is_at_limit(lines.len() as u64, limit) {
        return Ok(None);
    }
    match lines.last() {
        Some(line) => Ok(Some(format_line(alloc, gates, line)?)),
        None => Ok(None),
    }
}

/// The line without its line feed: its sign and its labels. The gates have these names.
fn format_line(alloc: Global, gates: &[Name], line: &SuiteLine) -> Result<String, AllocError>
    requires { HavePrintedLabels gates.now (line.now ∷ []) }
    ensures { IfOk result (λ text. string_bytes text ≡ signed_text (returned_line gates.now line.now)) }
{
    format_marked(alloc, sign_of(line), gates, line.labels.as_slice())
}

/// What the line has before its labels.
fn sign_of(line: &SuiteLine) -> &'static str
    ensures { result.now ≡ sign_text line.now.labels.items line.now.is_refused }
{
    if line.is_refused && !line.labels.is_empty() {
        "- "
    } else {
        "+ "
    }
}

/// Tells the observer that lines are going to be written, if there are any.
fn announce<P: OutputProgress>(lines: &[u8], progress: &mut P) {
    if !lines.is_empty() {
        progress.before_line();
    }
}

/// Writes the lines and flushes them.
fn write_suite<W: Sink>(writer: &mut W, made: SuiteText) -> Ended<Listed, ListingPlace>
    requires { (W.state writer.old).has_failed ≡ false }
    ensures ends { EndsAsMade made (W.state writer.old).written (W.state writer.new).written result }
    ensures failed { (W.state writer.new).has_failed ≡ is_unwritten result }
{
    match write_and_flush(writer, made.text.as_slice()) {
        Ok(()) => ended_at(made.lines, made.last),
        Err(DeviceFailed) => stopped(Stop::Write, None, None),
    }
}

/// How a suite ends of which so many lines were written. `last` is the last one, if the limit was reached.
fn ended_at(lines: u64, last: Option<String>) -> Ended<Listed, ListingPlace>
    ensures { MatchOption last (result ≡ Done (record { lines = lines }))
        (λ text. result ≡ Stopped Limit (record { last = Some text; prefix = None })) }
{
    match last {
        Some(text) => stopped(Stop::Limit, Some(text), None),
        None => Ended::Done(Listed { lines }),
    }
}

/// `suite` writes the lines of a test suite for the automaton of all that can be observed. The implementations of which
/// it is asked (`--extra`) pass all lines of it exactly if they can do what can be observed and nothing else. With a mark
/// only the lines after it are written, and with a limit no more than that. It stops, with nothing written, where the
/// exploration of what can be observed does, or if the suite has more than ten million lines.
impl Command for SuiteRequest {
    ghost use Rattle.lotos_check.specs.CheckedView.{system_of};
    ghost use Rattle.lotos_command.specs.Request.{HasSuiteBounds};
    ghost use Rattle.lotos_tool.specs.SuiteOutcome.{AreSuiteParts, suite_meaning};

    type Parts = (Option<Mark>, Checked);

    type Found = Listed;

    type Place = ListingPlace;

    ghost is_bounded = { HasSuiteBounds };

    ghost meaning = { suite_meaning };

    ghost are_parts = { λ request left left' (mark, system). AreSuiteParts request left left' (system_of system) mark };

    fn read_parts<R: Source, P: OutputProgress>(
        &self,
        alloc: Global,
        reader: &mut R,
        progress: &mut P,
    ) -> Result<(Option<Mark>, Checked), Rejection> {
        let mark = read_signed_mark(alloc, &self.after, self.strong)?;
        let system = read_asked(alloc, &self.interface, reader, progress)?;
        Ok((mark, system))
    }

    fn write_answer<W: Sink, P: OutputProgress>(
        &self,
        alloc: Global,
        parts: (Option<Mark>, Checked),
        writer: &mut W,
        progress: &mut P,
    ) -> Ended<Listed, ListingPlace> {
        let (mark, system) = parts;
        match find_text(alloc, self, system, &mark, progress) {
            Ok(made) => {
                announce(made.text.as_slice(), progress);
                write_suite(writer, made)
            }
            Err(halt) => stopped(halt.cause, None, halt.place),
        }
    }

    fn nowhere(&self) -> ListingPlace {
        nowhere()
    }

    fn observed(&self) -> Observed<'_> {
        Observed {
            words: None,
            interface: &self.interface,
            reports_progress: self.progress,
            brief: self.brief,
            visited: Visited::AllSets,
        }
    }

    fn report<E: Write>(
        &self,
        ended: &Ended<Listed, ListingPlace>,
        _searched: &Option<Searched>,
        err: &mut E,
    ) {
        let Ended::Stopped { cause, place } = ended else {
            report_end(err, ended);
            return;
        };
        match &place.prefix {
            Some(text) => report_exploration(err, *cause, text.as_str(), self.terms, self.states),
            None => report_suite_stop(err, *cause, &place.last),
        }
    }
}

/// Reports that a suite stopped for this cause, and not in the exploration.
fn report_suite_stop<E: Write>(err: &mut E, cause: Stop, last: &Option<String>) {
    let stop = ListingStop {
        cause,
        prefix: "",
        bound: MOST_LINES,
    };
    match cause {
        Stop::Limit => report_stop(err, last, stop),
        Stop::Lines => report_stop_unwritten(err, stop),
        _ => report_failure(err, cause),
    }
}
