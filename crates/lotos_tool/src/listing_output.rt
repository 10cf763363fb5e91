//! The output of a listing, item by item as the search returns them.
ghost use Rattle.std.specs.Prelude.{◌≡◌, ◌⊎◌, ◌≤◌, List, IfErr, IfOk, IfSome, IsErrOf, None, OnOk, Option, false, string_bytes};
ghost use Rattle.std.specs.Io.KnownBytes.{Appends, Keeps};
ghost use Rattle.lotos_listing.specs.Order.{Label as Text};
ghost use Rattle.lotos_listing.specs.Question.{ArePrinted};
ghost use Rattle.lotos_listing.specs.ListingSteps.{running};
ghost use Rattle.lotos_tool.specs.ListingQuestions.{IsHalt, asked_by, names_of};
ghost use Rattle.lotos_output.specs.ItemRuns.{CanWriteRun, runs_view};
ghost use Rattle.lotos_output.specs.OutputLines.{HasText, Item, IsItemOf, sequence_text};
ghost use Rattle.lotos_tool.specs.WrittenItems.{AreRunsFor, IsWrittenItem, item_line};
ghost use Rattle.lotos_outcome.specs.Calls.{Answered};
ghost use Rattle.lotos_outcome.specs.declared.outcome.Ended.TheVariants.{Stopped};
ghost use Rattle.lotos_outcome.specs.declared.outcome.Stop.TheVariants.{Memory};
ghost use Rattle.lotos_outcome.specs.Outcomes.{is_unwritten, is_write_fault};
ghost use Rattle.lotos_tool.specs.ListingOutcome.{listing_answering};
ghost use Rattle.lotos_check.specs.NameLists.{Name as GateName};
ghost use Rattle.lotos_store.specs.declared.label.Label.{Label as TermLabel};
ghost use Rattle.lotos_tool.specs.ListingParts.{HasLastText, IsFinished, IsHaltCause, IsPrefixStop, IsSmall, is_at_limit};
ghost use Rattle.lotos_device.specs.ByteOutput.{AppendsPart};

use crate::findings::{Listed, ListingPlace};
use crate::listing_halt::ListingHalt;
use crate::listing_search::ListingSearch;
use lotos_command::Runs;
use lotos_device::{DeviceFailed, Sink, write_bytes};
use lotos_listing::Found;
use lotos_listing::laws::strict_order;
use lotos_outcome::{Ended, OutputProgress, Stop};
use lotos_output::{ItemRuns, flush_stopped, format_sequence, format_sequence_after};
use lotos_report::{ListingStop, report_end, report_stop};
use lotos_terms::Label;
use lotos_terms::laws::label_text_is_unique;
use lotos_text::Name;
use std::alloc::Global;
use std::io::Write;

/// What the output of a listing has, and how long it may be.
#[derive(Clone, Copy, Debug)]
pub(crate) struct ListingOptions {
    /// What a line has after its sequence.
    pub runs: Runs,
    /// The greatest number of lines, at least 1.
    pub limit: Option<u32>,
}

/// Writes the line of each item as the search returns it, until the listing ends or stops. The search must not have
/// ended or halted. One flush follows a listing that ends, or stops at the limit, at an oversized prefix or at a set of
/// normal forms too many. The observer is told of each prefix that the search visits, and of each line before it is
/// written.
pub fn write_listing<S: ListingSearch, W: Sink, P: OutputProgress>(
    alloc: Global,
    options: ListingOptions,
    runs: &mut ItemRuns,
    search: &mut S,
    writer: &mut W,
    progress: &mut P,
) -> Ended<Listed, ListingPlace>
    requires begun { (S.state search.old).stage ≡ running }
    requires runs { AreRunsFor (S.state search.old).question options.runs (runs_view runs.old) }
    requires limit { IfSome options.limit (λ n. 1 ≤ n) }
    requires unfailed { (W.state writer.old).has_failed ≡ false }
    ensures ends { Answered (listing_answering options) (λ asked. asked ≡ asked_by (S.state search.old))
        (W.state writer.old).written (W.state writer.new).written result }
    ensures failed { (W.state writer.new).has_failed ≡ is_unwritten result }
{
    strict_order();
    label_text_is_unique();
    let mut last = None;
    let mut labels = Vec::new(alloc);
    let mut lines: u64 = 0;
    loop {
        let found = match search.next_item(progress) {
            Ok(Some(found)) => found,
            Ok(None) => return end_listing(writer, last, lines),
            Err(halt) => {
                let Halted { cause, prefix } = stop_at_halt(alloc, search, &halt, writer);
                return stopped(cause, last, prefix);
            }
        };
        progress.before_line();
        let known = labels.as_slice();
        match write_item(
            alloc,
            search,
            &found,
            known,
            text_of_last(&last),
            runs,
            writer,
        ) {
            Ok(text) => last = Some(text),
            Err(cause) => return stopped(cause, last, None),
        }
        labels = found.sequence;
        lines = lines.saturating_add(1);
        if is_at_limit(lines, options.limit) {
            let cause = flush_stopped(writer, Stop::Limit);
            return stopped(cause, last, None);
        }
    }
}

/// The place of a listing that stops before it has begun.
pub fn nowhere() -> ListingPlace
    ensures { result ≡ record { last = None; prefix = None } }
{
    ListingPlace {
        last: None,
        prefix: None,
    }
}

/// A listing for which memory runs out before it begins.
pub fn unstarted() -> Ended<Listed, ListingPlace>
    ensures { result ≡ Stopped Memory (record { last = None; prefix = None }) }
{
    stopped(Stop::Memory, None, None)
}

/// A listing that stopped for this cause after its last line, or at a prefix.
pub(crate) fn stopped(
    cause: Stop,
    last: Option<String>,
    prefix: Option<String>,
) -> Ended<Listed, ListingPlace>
    ensures { result ≡ Stopped cause (record { last = last; prefix = prefix }) }
{
    let place = ListingPlace { last, prefix };
    Ended::Stopped { cause, place }
}

/// Flushes the complete output of a listing with this number of lines.
fn end_listing<W: Sink>(
    writer: &mut W,
    last: Option<String>,
    lines: u64,
) -> Ended<Listed, ListingPlace>
    requires { (W.state writer.old).has_failed ≡ false }
    ensures finished { IsFinished (W.state writer.old).written (W.state writer.new).written
        last lines result }
    ensures failed { (W.state writer.new).has_failed ≡ is_unwritten result }
{
    match writer.flush() {
        Ok(()) => Ended::Done(Listed { lines }),
        Err(DeviceFailed) => stopped(Stop::Write, last, None),
    }
}

/// The text of the last sequence, or an empty one.
fn text_of_last(last: &Option<String>) -> &str
    ensures { (names : List GateName) (labels : List TermLabel) →
        HasLastText names labels last.now → HasText names labels result.now }
{
    match last {
        Some(text) => text.as_str(),
        None => "",
    }
}

/// Writes an item's line and returns the text of its sequence, given the labels and the text of the one before. The line
/// and the text are composed before the first byte is written. Fails with `Stop::Memory`, with nothing written, or
/// `Stop::Write`.
fn write_item<S: ListingSearch, W: Sink>(
    alloc: Global,
    search: &S,
    found: &Found,
    known: &[Label],
    text: &str,
    runs: &mut ItemRuns,
    writer: &mut W,
) -> Result<String, Stop>
    requires printed { (item : Item) ×
        IsItemOf (names_of (S.state search.now).question) found.now.sequence.items found.now.word.items item }
    requires known { HasText (names_of (S.state search.now).question) known.now text.now }
    requires run { CanWriteRun (names_of (S.state search.now).question) (runs_view runs.old)
        found.now.word.items }
    requires unfailed { (W.state writer.old).has_failed ≡ false }
    ensures same { runs_view runs.new ≡ runs_view runs.old }
    ensures whole { OnOk result ((item : Item) ×
        IsWrittenItem (names_of (S.state search.now).question) (runs_view runs.old) found.now item ×
        Appends (W.state writer.old).written (W.state writer.new).written
        (item_line (runs_view runs.old) item)) }
    ensures text { IfOk result (λ text. (s : List Text) →
        ArePrinted (names_of (S.state search.now).question) found.now.sequence.items s →
        string_bytes text ≡ sequence_text s) }
    ensures memory { IsErrOf result Stop.Memory →
        Keeps (W.state writer.old).written (W.state writer.new).written }
    ensures part { IsErrOf result Stop.Write → (item : Item) ×
        IsWrittenItem (names_of (S.state search.now).question) (runs_view runs.old) found.now item ×
        AppendsPart (W.state writer.old).written (W.state writer.new).written
        (item_line (runs_view runs.old) item) }
    ensures causes { IfErr result (λ cause. (cause ≡ Stop.Memory) ⊎ (cause ≡ Stop.Write)) }
    ensures failed { (W.state writer.new).has_failed ≡ is_write_fault result }
{
    let gates = search.gates();
    let sequence = found.sequence.as_slice();
    let Ok(mut line) = format_sequence_after(alloc, gates, known, text, sequence) else {
        return Err(Stop::Memory);
    };
    let end = line.len();
    let Ok(()) = runs.complete_line(alloc, gates, found.word.as_slice(), &mut line) else {
        return Err(Stop::Memory);
    };
    match write_bytes(writer, line.as_bytes()) {
        Ok(()) => {
            line.truncate(end);
            Ok(line)
        }
        Err(DeviceFailed) => Err(Stop::Write),
    }
}

/// Whether there is a limit, and it is this number of lines.
pub(crate) fn is_at_limit(lines: u64, limit: Option<u32>) -> bool
    ensures at { result ≡ is_at_limit lines limit }
    ensures small { IsSmall limit }
{
    match limit {
        Some(limit) => u64::from(limit) == lines,
        None => false,
    }
}

/// Why a listing stops at a halt of its search.
#[derive(Drop)]
struct Halted {
    cause: Stop,
    /// The text of the prefix that reaches too many terms, if that is the cause.
    prefix: Option<String>,
}

/// Why a listing stops, given the halt of a search that was running. Flushes the output unless memory ran out.
fn stop_at_halt<S: ListingSearch, W: Sink>(
    alloc: Global,
    search: &S,
    halt: &ListingHalt,
    writer: &mut W,
) -> Halted
    requires halt { (cursor : Option (List Text)) × IsHalt (S.state search.now).question cursor halt.now }
    requires unfailed { (W.state writer.old).has_failed ≡ false }
    ensures kept { Keeps (W.state writer.old).written (W.state writer.new).written }
    ensures stop { (cursor : Option (List Text)) → IsHalt (S.state search.now).question cursor halt.now →
        IsHaltCause (S.state search.now).question cursor (W.state writer.new).has_failed
        result.cause result.prefix }
{
    match halt {
        ListingHalt::OverTerms(prefix) => {
            stop_at_prefix(alloc, search.gates(), prefix.as_slice(), writer)
        }
        ListingHalt::OverStates => Halted {
            cause: flush_stopped(writer, Stop::States),
            prefix: None,
        },
        ListingHalt::Memory => Halted {
            cause: Stop::Memory,
            prefix: None,
        },
        ListingHalt::Failed => unreachable!(),
    }
}

/// Why a listing stops at an oversized prefix: that prefix, or out of memory for its text, or a failed flush. There is
/// no flush if memory runs out.
fn stop_at_prefix<W: Sink>(
    alloc: Global,
    gates: &[Name],
    prefix: &[Label],
    writer: &mut W,
) -> Halted
    requires printed { (r : List Text) × ArePrinted gates.now prefix.now r }
    requires unfailed { (W.state writer.old).has_failed ≡ false }
    ensures kept { Keeps (W.state writer.old).written (W.state writer.new).written }
    ensures stop { (r : List Text) → ArePrinted gates.now prefix.now r →
        IsPrefixStop r (W.state writer.new).has_failed result.cause result.prefix }
{
    let Ok(text) = format_sequence(alloc, gates, prefix) else {
        return Halted {
            cause: Stop::Memory,
            prefix: None,
        };
    };
    match writer.flush() {
        Ok(()) => Halted {
            cause: Stop::Terms,
            prefix: Some(text),
        },
        Err(DeviceFailed) => Halted {
            cause: Stop::Write,
            prefix: None,
        },
    }
}

/// Reports how a listing ended, if it was refused or stopped. `bound` is the number of terms or sets that was exceeded, if
/// that is why it stopped.
pub fn report_listing<E: Write>(ended: &Ended<Listed, ListingPlace>, bound: usize, err: &mut E) {
    match ended {
        Ended::Stopped { cause, place } => {
            let prefix = match &place.prefix {
                Some(text) => text.as_str(),
                None => "",
            };
            let stop = ListingStop {
                cause: *cause,
                prefix,
                bound,
            };
            report_stop(err, &place.last, stop);
        }
        _ => report_end(err, ended),
    }
}
