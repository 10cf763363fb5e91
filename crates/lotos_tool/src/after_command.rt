//! The command `after`, from the text to the lines of what can come after a sequence.
ghost use Rattle.std.specs.Prelude.{◌≡◌, ◌+◌, ◌≤◌, Bool, IfErr, IfOk, List, map, string_bytes};
ghost use Rattle.lotos_check.specs.CheckedView.{system_of};
ghost use Rattle.lotos_listing.specs.NamedLabels.{HaveGates};
ghost use Rattle.lotos_listing.specs.Order.{Label as Text};
ghost use Rattle.lotos_listing.specs.Question.{ArePrinted};
ghost use Rattle.lotos_pattern.specs.Spelling.{NamesEach};
ghost use Rattle.lotos_sets.specs.Behaviours.{IsFirstOversized, behaviour_of};
ghost use Rattle.lotos_sets.specs.Following.{IfTooMany};
ghost use Rattle.lotos_outcome.specs.declared.outcome.Ended.TheVariants.{Stopped};
ghost use Rattle.lotos_tool.specs.AfterOutcome.{IsSequenceOf, after_meaning};
ghost use Rattle.lotos_tool.specs.AfterParts.{HasAnswer, HasNoAnswer, IsAnswer, IsMadeOf};

use crate::command::Command;
use crate::findings::Continuation;
use crate::search_observer::Observed;
use lotos_check::Checked;
use lotos_command::AfterRequest;
use lotos_device::{Sink, Source};
use lotos_listing::{Progress, Searched, labels_of_words};
use lotos_normal::NormalTable;
use lotos_outcome::{Ended, OutputProgress, Rejection, Stop, read_asked, refuse_unknown_gates};
use lotos_output::{format_labels, format_next, write_whole};
use lotos_pattern::check_label_words;
use lotos_report::{
    AskedWords, Visited, WordCommand, report_end, report_label, report_too_many_terms,
};
use lotos_runs::laws::table_has_match_question;
use lotos_sets::{FollowFault, Followed, FormSets, follow};
use lotos_text::Name;
use std::alloc::{AllocError, Global};
use std::io::Write;

/// What can come after a sequence.
#[derive(Drop)]
pub(crate) enum Answer {
    /// The sequence can be observed, and these are the lines of what can come after it.
    Lines(Vec<u8>),
    /// The label with this number, counted from 1, cannot come. `instead` is the text of the labels that can, if any
    /// can.
    NoLabel {
        number: usize,
        instead: Option<String>,
    },
}

/// The command stopped for this cause, after so many labels of the sequence if that is known.
fn stopped(cause: Stop, labels: Option<usize>) -> Ended<Continuation, Option<usize>>
    ensures { result ≡ Stopped cause labels }
{
    Ended::Stopped {
        cause,
        place: labels,
    }
}

/// What can come after the sequence in an accepted specification.
fn find_answer<P: Progress>(
    alloc: Global,
    request: &AfterRequest,
    system: Checked,
    progress: &mut P,
) -> Result<Answer, FollowFault>
    requires sequence { (s : List Text) × IsSequenceOf request.now (system_of system) s }
    ensures answer { IfOk result (HasAnswer request.now (system_of system)) }
    ensures none { IfErr result (HasNoAnswer request.now (system_of system)) }
{
    table_has_match_question();
    let table = NormalTable::new(alloc, system)?;
    table.recall_sound();
    let mut sets = FormSets::new(alloc, table, request.strong, request.terms);
    follow_words(alloc, request.words.as_slice(), &mut sets, progress)
}

/// Follows the sequence of the words from set to set, and tells what can come after it.
fn follow_words<P: Progress>(
    alloc: Global,
    words: &[String],
    sets: &mut FormSets,
    progress: &mut P,
) -> Result<Answer, FollowFault>
    requires sequence { (strong : Bool) × (s : List Text) × NamesEach strong (map string_bytes words.now) s }
    requires gates { HaveGates sets.old.table.names (map string_bytes words.now) }
    ensures answer { (strong : Bool) (s : List Text) → NamesEach strong (map string_bytes words.now) s →
        IfOk result (IsAnswer (record { behaviour = behaviour_of sets.old; sequence = s })) }
    ensures none { (strong : Bool) (s : List Text) → NamesEach strong (map string_bytes words.now) s →
        IfErr result (λ fault. IfTooMany fault (IsFirstOversized (behaviour_of sets.old) sets.old.bound s)) }
{
    let labels = labels_of_words(alloc, sets.table().gates(), words)?;
    let followed = follow(sets, labels.as_slice(), progress)?;
    let answer = answer_of(alloc, sets.table().gates(), &followed, labels.len())?;
    Ok(answer)
}

/// The answer, if a sequence of `count` labels was followed and this was found. The gates have these names.
fn answer_of(
    alloc: Global,
    gates: &[Name],
    followed: &Followed,
    count: usize,
) -> Result<Answer, AllocError>
    requires within { followed.now.length ≤ count }
    requires printed { (next : List Text) × ArePrinted gates.now followed.now.next.items next }
    ensures { IfOk result (IsMadeOf gates.now followed.now count) }
{
    let labels = followed.next.as_slice();
    if followed.length == count {
        let lines = format_next(alloc, gates, labels, followed.deadlock)?;
        return Ok(Answer::Lines(lines));
    }
    let number = followed.length + 1;
    let instead = format_labels(alloc, gates, labels)?;
    Ok(Answer::NoLabel { number, instead })
}

/// `after` follows a sequence. If some derivation, of any number of steps, is observed as the sequence, a line is written
/// for each label that can come after it, in the order of the labels, and then `<deadlock>` if the system can be in a
/// deadlock; otherwise nothing is. It stops if a beginning of the sequence reaches more normal forms than the request
/// allows.
impl Command for AfterRequest {
    ghost use Rattle.lotos_check.specs.CheckedView.{system_of};
    ghost use Rattle.lotos_tool.specs.AfterOutcome.{AreAfterParts, after_meaning};

    type Parts = Checked;

    type Found = Continuation;

    type Place = Option<usize>;

    ghost is_bounded = { λ request. Unit {0} };

    ghost meaning = { after_meaning };

    ghost are_parts = { λ request left left' system. AreAfterParts request left left' (system_of system) };

    fn read_parts<R: Source, P: OutputProgress>(
        &self,
        alloc: Global,
        reader: &mut R,
        progress: &mut P,
    ) -> Result<Checked, Rejection> {
        check_label_words(self.words.as_slice(), self.strong)?;
        let system = read_asked(alloc, &self.interface, reader, progress)?;
        refuse_unknown_gates(alloc, &self.words, true, &system)?;
        Ok(system)
    }

    fn write_answer<W: Sink, P: OutputProgress>(
        &self,
        alloc: Global,
        parts: Checked,
        writer: &mut W,
        progress: &mut P,
    ) -> Ended<Continuation, Option<usize>> {
        match find_answer(alloc, self, parts, progress) {
            Ok(Answer::Lines(lines)) => {
                progress.before_line();
                write_whole(writer, lines.as_slice(), Continuation::Followed, None)
            }
            Ok(Answer::NoLabel { number, instead }) => {
                Ended::Done(Continuation::CannotCome { number, instead })
            }
            Err(FollowFault::TooManyTerms(labels)) => stopped(Stop::Terms, Some(labels)),
            Err(FollowFault::Memory) => stopped(Stop::Memory, None),
        }
    }

    fn nowhere(&self) -> Option<usize> {
        None
    }

    fn observed(&self) -> Observed<'_> {
        Observed {
            words: Some(AskedWords {
                command: WordCommand::After,
                words: self.words.as_slice(),
                refuses_unknown: true,
            }),
            interface: &self.interface,
            reports_progress: self.progress,
            brief: self.brief,
            visited: Visited::Labels,
        }
    }

    fn report<E: Write>(
        &self,
        ended: &Ended<Continuation, Option<usize>>,
        _searched: &Option<Searched>,
        err: &mut E,
    ) {
        match ended {
            Ended::Done(Continuation::CannotCome { number, instead }) => {
                report_label(err, *number, self.words.as_slice(), instead);
            }
            Ended::Stopped {
                cause: Stop::Terms,
                place: Some(labels),
            } => report_too_many_terms(err, self.terms, *labels),
            _ => report_end(err, ended),
        }
    }
}
