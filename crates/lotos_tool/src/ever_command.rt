//! The command `ever`, from the text to the line of the first of the shortest matches.
ghost use Rattle.std.specs.Prelude.{◌≡◌, ◌+◌, ◌++◌, IfErr, IfOk, List, OnOk, Option, Some, false, string_bytes, true};
ghost use Rattle.lotos_check.specs.CheckedView.{system_of};
ghost use Rattle.lotos_check.specs.Flat.{System};
ghost use Rattle.lotos_terms.specs.TableView.{IsTableOf};
ghost use Rattle.lotos_runs.specs.MatchQuestions.{match_question_of};
ghost use Rattle.lotos_ever.specs.MatchAnswers.{IsEndedMatch};
ghost use Rattle.lotos_ever.specs.NamedRuns.{EndsAsDemanded};
ghost use Rattle.lotos_outcome.specs.Calls.{Answered};
ghost use Rattle.lotos_outcome.specs.Outcomes.{is_unwritten};
ghost use Rattle.lotos_tool.specs.EverOutcome.{AreEverParts, IsMatchLine, MatchTexts, ever_answering, ever_meaning};
ghost use Rattle.lotos_tool.specs.EverParts.{AreNamedTextsOf, HasLine, HasNoLine, HasTexts, IsEverQuestionFor, IsRoundOf, cause_of_halt, question_about};
ghost use Rattle.lotos_listing.specs.Order.{Label as Text};
ghost use Rattle.lotos_listing.specs.Question.{ArePrinted};
ghost use Rattle.lotos_output.specs.OutputLines.{round_text_if, run_text};
ghost use Rattle.lotos_output.specs.WholeOutput.{EndsWhole};

use crate::command::Command;
use crate::findings::Occurrence;
use crate::search_observer::Observed;
use lotos_check::Checked;
use lotos_command::{EverRequest, Runs};
use lotos_device::{Sink, Source};
use lotos_ever::laws::matches_end_as_demanded;
use lotos_ever::{EndedMatch, Halt, find_shortest_match_with_end, name_run};
use lotos_listing::{Progress, Searched};
use lotos_normal::NormalTable;
use lotos_origins::laws::origins_stay_in_table;
use lotos_outcome::{
    Ended, OutputProgress, Rejection, Stop, read_asked, read_ever_pattern, refuse_unknown_gates,
};
use lotos_output::{
    append_named_round, append_named_run, append_round, append_run, format_sequence, write_whole,
};
use lotos_pattern::EverPattern;
use lotos_report::{
    AskedWords, Visited, WordCommand, note_empty_pattern, note_first_labels, report_end,
    report_no_match, report_too_many_states,
};
use lotos_runs::laws::table_has_match_question;
use lotos_terms::Label;
use lotos_terms::laws::steps_stay_in_table;
use lotos_text::Name;
use std::alloc::{AllocError, Global};
use std::io::Write;

/// Searches an accepted specification for a match, writes the line of the first of the shortest ones if there is one,
/// and flushes the output. Nothing is flushed if the search stops.
fn write_match<W: Sink, P: OutputProgress>(
    alloc: Global,
    request: &EverRequest,
    system: Checked,
    pattern: &EverPattern,
    writer: &mut W,
    progress: &mut P,
) -> Ended<Occurrence, Option<Occurrence>>
    requires { (W.state writer.old).has_failed ≡ false }
    ensures ends { Answered (ever_answering request.now) (IsEverQuestionFor (system_of system) pattern.now)
        (W.state writer.old).written (W.state writer.new).written result }
    ensures failed { (W.state writer.new).has_failed ≡ is_unwritten result }
{
    match find_match_line(alloc, request, system, pattern, progress) {
        Ok(Some(line)) => {
            progress.before_line();
            write_found(writer, line.as_slice(), Occurrence::Ever)
        }
        Ok(None) => write_found(writer, b"", Occurrence::Never),
        Err(halt) => Ended::Stopped {
            cause: cause_of_halt(halt),
            place: None,
        },
    }
}

/// Writes what is to be written of what was found, and flushes the output.
fn write_found<W: Sink>(
    writer: &mut W,
    bytes: &[u8],
    found: Occurrence,
) -> Ended<Occurrence, Option<Occurrence>>
    requires { (W.state writer.old).has_failed ≡ false }
    ensures whole { EndsWhole bytes.now found (Some found) (W.state writer.old).written
        (W.state writer.new).written result }
    ensures failed { (W.state writer.new).has_failed ≡ is_unwritten result }
{
    write_whole(writer, bytes, found, Some(found))
}

/// The cause of a stop at a halt of the search.
fn cause_of_halt(halt: Halt) -> Stop
    ensures { result ≡ cause_of_halt halt }
{
    match halt {
        Halt::TooManyStates => Stop::States,
        Halt::Memory => Stop::Memory,
    }
}

/// The line of the first of the shortest matches, or `None` if there is no match of any length.
fn find_match_line<P: Progress>(
    alloc: Global,
    request: &EverRequest,
    system: Checked,
    pattern: &EverPattern,
    progress: &mut P,
) -> Result<Option<Vec<u8>>, Halt>
    ensures line { IfOk result (HasLine request.now (system_of system) pattern.now) }
    ensures none { IfErr result (HasNoLine request.now (system_of system) pattern.now) }
{
    let mut table = NormalTable::new(alloc, system)?;
    find_line_in(alloc, request, &mut table, pattern, progress)
}

/// The line of the first of the shortest matches in a new table, or `None` if there is no match of any length.
fn find_line_in<P: Progress>(
    alloc: Global,
    request: &EverRequest,
    table: &mut NormalTable,
    pattern: &EverPattern,
    progress: &mut P,
) -> Result<Option<Vec<u8>>, Halt>
    ensures line { (system : System) → IsTableOf system table.old →
        IfOk result (HasLine request.now system pattern.now) }
    ensures none { (system : System) → IsTableOf system table.old →
        IfErr result (HasNoLine request.now system pattern.now) }
{
    table_has_match_question();
    table.recall_sound();
    match find_shortest_match_with_end(alloc, table, pattern, request.states, progress)? {
        Some(ended) => Ok(Some(format_match(alloc, table, pattern, &ended, request.runs)?)),
        None => Ok(None),
    }
}

/// The line of a match: its sequence, if runs are written its run and the steps that go round where it ends, if there are
/// such, and a line feed.
fn format_match(
    alloc: Global,
    table: &mut NormalTable,
    pattern: &EverPattern,
    ended: &EndedMatch,
    runs: Runs,
) -> Result<Vec<u8>, AllocError>
    requires { IsEndedMatch (match_question_of table.old pattern.now.pattern) pattern.now.kind ended.now }
    ensures { IfOk result (λ line. IsMatchLine runs (question_about table.old pattern.now) line.items) }
{
    let mut line = format_sequence(alloc, table.gates(), ended.found.sequence.as_slice())?;
    append_texts(alloc, table, pattern, ended, runs, &mut line)?;
    line.push('\n')?;
    Ok(line.into_bytes())
}

/// Appends the run of a match, and the steps that go round where it ends, if there are such, as they are to be written.
fn append_texts(
    alloc: Global,
    table: &mut NormalTable,
    pattern: &EverPattern,
    ended: &EndedMatch,
    runs: Runs,
    line: &mut String,
) -> Result<(), AllocError>
    requires { IsEndedMatch (match_question_of table.old pattern.now.pattern) pattern.now.kind ended.now }
    ensures { OnOk result
        ((is : IsEndedMatch (match_question_of table.old pattern.now.pattern) pattern.now.kind ended.now) →
        HasTexts runs (question_about table.old pattern.now) is.found.run is.found.first.matches.last
        (string_bytes line.old) (string_bytes line.new)) }
{
    matches_end_as_demanded();
    table.recall_sound();
    match runs {
        Runs::Omitted => Ok(()),
        Runs::Labels => append_labels(alloc, table.gates(), ended, line),
        Runs::Origins => append_origins(alloc, table, pattern, ended.found.word.as_slice(), line),
    }
}

/// Appends the run of a match, and the steps that go round where it ends, if there are such. The gates have these names.
fn append_labels(
    alloc: Global,
    gates: &[Name],
    ended: &EndedMatch,
    line: &mut String,
) -> Result<(), AllocError>
    requires run { (w : List Text) × ArePrinted gates.now ended.now.found.word.items w }
    requires round { (round : Option (List Text × List Text)) × IsRoundOf gates.now ended.now.lasso round }
    ensures { OnOk result ((w : List Text) (round : Option (List Text × List Text)) →
        ArePrinted gates.now ended.now.found.word.items w → IsRoundOf gates.now ended.now.lasso round →
        string_bytes line.new ≡ string_bytes line.old ++ run_text true w ++ round_text_if true round) }
{
    append_run(alloc, gates, ended.found.word.as_slice(), line)?;
    match &ended.lasso {
        None => Ok(()),
        Some(lasso) => {
            append_round(
                alloc,
                gates,
                lasso.row.as_slice(),
                lasso.turn.as_slice(),
                line,
            )
        }
    }
}

/// Appends the run of a match, with what makes its internal steps, and so the steps that go round where it ends, if there
/// are such.
fn append_origins(
    alloc: Global,
    table: &mut NormalTable,
    pattern: &EverPattern,
    run: &[Label],
    line: &mut String,
) -> Result<(), AllocError>
    requires { EndsAsDemanded (match_question_of table.old pattern.now.pattern) pattern.now.kind run.now }
    ensures { OnOk result ((texts : MatchTexts) ×
        AreNamedTextsOf (question_about table.old pattern.now) run.now texts ×
        (string_bytes line.new ≡ string_bytes line.old ++ run_text true texts.run ++
        round_text_if true texts.round)) }
{
    steps_stay_in_table();
    origins_stay_in_table();
    table.recall_sound();
    let named = name_run(alloc, table, pattern, run)?;
    append_named_run(table.gates(), run, named.origins.as_slice(), line)?;
    match &named.round {
        None => Ok(()),
        Some(round) => append_named_round(table.gates(), round, line),
    }
}

/// `ever` searches for a derivation, of any number of steps, that matches a pattern. If there is one, the line of one with
/// the fewest steps is written, and otherwise nothing. It stops if more product states would be stored than the request
/// allows, or more normal forms are reached where all of them must be found.
impl Command for EverRequest {
    ghost use Rattle.lotos_check.specs.CheckedView.{system_of};
    ghost use Rattle.lotos_tool.specs.EverOutcome.{AreEverParts, ever_meaning};

    type Parts = (EverPattern, Checked);

    type Found = Occurrence;

    type Place = Option<Occurrence>;

    ghost is_bounded = { λ request. Unit {0} };

    ghost meaning = { ever_meaning };

    ghost are_parts = { λ request left left' (pattern, system).
        AreEverParts request left left' (system_of system) pattern };

    fn read_parts<R: Source, P: OutputProgress>(
        &self,
        alloc: Global,
        reader: &mut R,
        progress: &mut P,
    ) -> Result<(EverPattern, Checked), Rejection> {
        let pattern = read_ever_pattern(alloc, &self.words, self.strong)?;
        let system = read_asked(alloc, &self.interface, reader, progress)?;
        refuse_unknown_gates(alloc, &self.words, true, &system)?;
        Ok((pattern, system))
    }

    fn write_answer<W: Sink, P: OutputProgress>(
        &self,
        alloc: Global,
        parts: (EverPattern, Checked),
        writer: &mut W,
        progress: &mut P,
    ) -> Ended<Occurrence, Option<Occurrence>> {
        let (pattern, system) = parts;
        write_match(alloc, self, system, &pattern, writer, progress)
    }

    fn nowhere(&self) -> Option<Occurrence> {
        None
    }

    fn observed(&self) -> Observed<'_> {
        Observed {
            words: Some(AskedWords {
                command: WordCommand::Ever,
                words: self.words.as_slice(),
                refuses_unknown: true,
            }),
            interface: &self.interface,
            reports_progress: self.progress,
            brief: self.brief,
            visited: Visited::States,
        }
    }

    fn report<E: Write>(
        &self,
        ended: &Ended<Occurrence, Option<Occurrence>>,
        searched: &Option<Searched>,
        err: &mut E,
    ) {
        match ended {
            Ended::Done(Occurrence::Never) => {
                report_no_match(err, searched, self.words.as_slice());
            }
            Ended::Stopped {
                cause: Stop::States,
                ..
            } => report_too_many_states(err, self.states),
            _ => report_end(err, ended),
        }
    }

    fn note<E: Write>(&self, ended: &Ended<Occurrence, Option<Occurrence>>, err: &mut E) {
        match ended {
            Ended::Done(Occurrence::Ever) => note_empty_pattern(self.words.as_slice(), err),
            Ended::Done(Occurrence::Never) => note_first_labels(self.words.as_slice(), err),
            _ => {}
        }
    }
}
