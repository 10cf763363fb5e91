//! The command `compare`, from the text of two specifications to the line of their first difference.
ghost use Rattle.std.specs.Prelude.{◌≡◌, IfErr, IfOk, List, Option};
ghost use Rattle.lotos_check.specs.CheckedView.{system_of};
ghost use Rattle.lotos_listing.specs.Order.{Label as Text};
ghost use Rattle.lotos_listing.specs.Question.{ArePrinted};
ghost use Rattle.lotos_compare.specs.BoundedPairs.{BoundedPair};
ghost use Rattle.lotos_compare.specs.Differences.{Line};
ghost use Rattle.lotos_compare.specs.FoundLines.{IsFirstFault, IsPrintedLine, side_of};
ghost use Rattle.lotos_tool.specs.CompareOutcome.{CompareQuestion, IsCompareQuestionOf, IsLineText, IsPlaceOf, compare_answering, side_mark};
ghost use Rattle.lotos_tool.specs.CompareParts.{HasCompared, IsCompared, question_of};
ghost use Rattle.lotos_tool.specs.Halts.{HasHalt, IsHalt, IsHaltAt};

use crate::command::Command;
use crate::exploration::sets_of;
use crate::findings::{Compared, ComparedPlace};
use crate::halt::Halt;
use crate::search_observer::Observed;
use lotos_check::Checked;
use lotos_command::CompareRequest;
use lotos_compare::{CompareFault, Comparison, DifferenceLine, Side, find_first_difference};
use lotos_device::{Sink, Source};
use lotos_listing::{Progress, Searched};
use lotos_outcome::{Ended, OutputProgress, Rejection, Stop, read_asked_pair};
use lotos_output::{format_marked_line, format_sequence, write_whole};
use lotos_report::{
    Visited, report_end, report_no_difference, report_terms_of, report_too_many_pairs,
};
use lotos_sets::FormSets;
use lotos_terms::{Label, label_text};
use lotos_text::Name;
use std::alloc::{AllocError, Global};
use std::io::Write;

/// What a comparison writes, and what it finds.
#[derive(Drop)]
pub(crate) struct ComparedText {
    line: Vec<u8>,
    found: Compared,
}

/// The line of the first difference of two accepted specifications, or that there is none.
fn find_compared<P: Progress>(
    alloc: Global,
    request: &CompareRequest,
    first: Checked,
    second: Checked,
    progress: &mut P,
) -> Result<ComparedText, Halt<ComparedPlace>>
    ensures found { IfOk result (HasCompared request.now (system_of first, system_of second)) }
    ensures halts { IfErr result
        (HasHalt compare_answering (IsCompareQuestionOf request.now (system_of first, system_of second))) }
{
    let mut firsts = sets_of(alloc, first, request.strong, request.terms)?;
    let mut seconds = sets_of(alloc, second, request.strong, request.terms)?;
    compared(
        alloc,
        &mut firsts,
        &mut seconds,
        request.within,
        request.states,
        progress,
    )
}

/// The line of the first difference of the behaviours of which the sets are, or that there is none.
fn compared<P: Progress>(
    alloc: Global,
    first: &mut FormSets,
    second: &mut FormSets,
    within: bool,
    pairs: usize,
    progress: &mut P,
) -> Result<ComparedText, Halt<ComparedPlace>>
    ensures found { IfOk result (IsCompared (question_of first.old second.old within pairs)) }
    ensures halts { IfErr result
        (IsHalt compare_answering (question_of first.old second.old within pairs)) }
{
    match find_first_difference(alloc, first, second, within, pairs, progress) {
        Ok(Comparison::Differs(line)) => Ok(ComparedText {
            line: format_difference(alloc, first.table().gates(), second.table().gates(), &line)?,
            found: Compared::Differ,
        }),
        Ok(Comparison::Alike(count)) => Ok(ComparedText {
            line: Vec::new(alloc),
            found: Compared::Alike(count),
        }),
        Err(fault) => Err(halt_of(alloc, first.table().gates(), &fault)),
    }
}

/// The text of a line. The gates of the first specification have the names `firsts`, those of the second `seconds`.
fn format_difference(
    alloc: Global,
    firsts: &[Name],
    seconds: &[Name],
    found: &DifferenceLine,
) -> Result<Vec<u8>, AllocError>
    requires { (q : BoundedPair) × (line : Line) × (q.one.names ≡ firsts.now) ×
        (q.other.names ≡ seconds.now) × IsPrintedLine q found.now line }
    ensures { IfOk result (λ text. (q : BoundedPair) (line : Line) → q.one.names ≡ firsts.now →
        q.other.names ≡ seconds.now → IsPrintedLine q found.now line → IsLineText line text.items) }
{
    let last = match found.side {
        Side::First => label_text(firsts, found.label),
        Side::Second => label_text(seconds, found.label),
    };
    format_marked_line(
        alloc,
        side_mark(found.side),
        firsts,
        found.sequence.as_slice(),
        last,
    )
}

/// What a line of this side has before its sequence.
fn side_mark(side: Side) -> &'static str
    ensures { result.now ≡ side_mark (side_of side) }
{
    match side {
        Side::First => "< ",
        Side::Second => "> ",
    }
}

/// The halt for this fault, with the text of its sequence. The gates of the first specification have these names.
fn halt_of(alloc: Global, gates: &[Name], fault: &CompareFault) -> Halt<ComparedPlace>
    requires { (q : CompareQuestion) × (q.pair.one.names ≡ gates.now) × IsFirstFault q.pair q.kind fault.now }
    ensures { (q : CompareQuestion) → q.pair.one.names ≡ gates.now → IsFirstFault q.pair q.kind fault.now →
        IsHalt compare_answering q result }
{
    match fault {
        CompareFault::OverTerms(side, labels) => {
            halt_at(alloc, gates, labels.as_slice(), Stop::Terms, Some(*side))
        }
        CompareFault::OverPairs(labels) => {
            halt_at(alloc, gates, labels.as_slice(), Stop::States, None)
        }
        CompareFault::Memory => Halt::from(AllocError),
    }
}

/// The halt for this cause at the sequence of these labels, or out of memory for its text. The gates have these names.
fn halt_at(
    alloc: Global,
    gates: &[Name],
    labels: &[Label],
    cause: Stop,
    side: Option<Side>,
) -> Halt<ComparedPlace>
    requires { (s : List Text) × ArePrinted gates.now labels.now s }
    ensures { (s : List Text) → ArePrinted gates.now labels.now s →
        IsHaltAt cause (IsPlaceOf side s) result }
{
    match format_sequence(alloc, gates, labels) {
        Ok(sequence) => Halt {
            cause,
            place: Some(ComparedPlace { side, sequence }),
        },
        Err(error) => Halt::from(error),
    }
}

/// Tells the observer that the line is going to be written, if there is one.
fn announce<P: OutputProgress>(line: &[u8], progress: &mut P) {
    if !line.is_empty() {
        progress.before_line();
    }
}

/// `compare` looks for the first sequence that can be observed of one of two specifications alone, and writes its line, or
/// nothing if there is none. It stops, with nothing written, at the first sequence that both can do and that reaches more
/// normal forms of one than the request allows or leads to one pair of sets of them more than it allows, if no difference
/// was found before.
impl Command for CompareRequest {
    ghost use Rattle.lotos_check.specs.CheckedView.{system_of};
    ghost use Rattle.lotos_command.specs.Request.{HasCompareBounds};
    ghost use Rattle.lotos_outcome.specs.QuestionParts.{ReadsAskedPair};
    ghost use Rattle.lotos_tool.specs.CompareOutcome.{compare_meaning};

    type Parts = (Checked, Checked);

    type Found = Compared;

    type Place = Option<ComparedPlace>;

    ghost is_bounded = { HasCompareBounds };

    ghost meaning = { compare_meaning };

    ghost are_parts = { λ request left left' (first, second).
        ReadsAskedPair request.interface left left' (system_of first, system_of second) };

    fn read_parts<R: Source, P: OutputProgress>(
        &self,
        alloc: Global,
        reader: &mut R,
        progress: &mut P,
    ) -> Result<(Checked, Checked), Rejection> {
        read_asked_pair(alloc, &self.interface, reader, progress)
    }

    fn write_answer<W: Sink, P: OutputProgress>(
        &self,
        alloc: Global,
        parts: (Checked, Checked),
        writer: &mut W,
        progress: &mut P,
    ) -> Ended<Compared, Option<ComparedPlace>> {
        let (first, second) = parts;
        match find_compared(alloc, self, first, second, progress) {
            Ok(made) => {
                announce(made.line.as_slice(), progress);
                write_whole(writer, made.line.as_slice(), made.found, None)
            }
            Err(halt) => Ended::Stopped {
                cause: halt.cause,
                place: halt.place,
            },
        }
    }

    fn nowhere(&self) -> Option<ComparedPlace> {
        None
    }

    fn observed(&self) -> Observed<'_> {
        Observed {
            words: None,
            interface: &self.interface,
            reports_progress: self.progress,
            brief: self.brief,
            visited: Visited::Pairs,
        }
    }

    fn report<E: Write>(
        &self,
        ended: &Ended<Compared, Option<ComparedPlace>>,
        _searched: &Option<Searched>,
        err: &mut E,
    ) {
        match ended {
            Ended::Done(Compared::Alike(pairs)) => report_no_difference(err, *pairs),
            Ended::Stopped {
                cause: Stop::States,
                ..
            } => report_too_many_pairs(err, self.states),
            Ended::Stopped {
                cause: Stop::Terms,
                place: Some(place),
            } => report_terms_of(
                err,
                self.terms,
                place.sequence.as_str(),
                name_of(place.side),
            ),
            _ => report_end(err, ended),
        }
    }
}

/// What a message calls a specification.
fn name_of(side: Option<Side>) -> &'static str {
    match side {
        Some(Side::Second) => "second",
        _ => "first",
    }
}
