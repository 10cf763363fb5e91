//! The commands that ask a question about what can be observed, as one.
ghost use Rattle.std.specs.Prelude.{◌≡◌, false};
ghost use Rattle.lotos_outcome.specs.Calls.{Call, Ran};

use crate::search_observer::{Noted, Observed, SearchObserver};
use lotos_device::{Sink, Source};
use lotos_listing::Searched;
use lotos_outcome::{Ended, Finding, OutputProgress, Rejection, end_of};
use lotos_report::{
    Messages, MutedStream, RefusedCommand, Visited, hint_after_refusal, report_counts,
};
use std::alloc::Global;
use std::io::Write;

/// A command that asks a question about what can be observed of a specification.
pub trait Command {
    ghost use Rattle.std.specs.Prelude.{◌≡◌, ◌+◌, ℕ, IfErr, IfOk, List, Option, false};
    ghost use Rattle.lotos_text.specs.Limits.{max_text_length};
    ghost use Rattle.lotos_device.specs.TextInput.{TakesWithin};
    ghost use Rattle.lotos_outcome.specs.Calls.{Answered, Meaning};
    ghost use Rattle.lotos_outcome.specs.Outcomes.{is_unwritten};
    ghost use Rattle.lotos_outcome.specs.Rejections.{IsRejectionBy, is_input_failure};

    /// What is read of its words and its text.
    type Parts: Drop;

    /// What it finds.
    type Found: Finding + Drop;

    /// What is known of the place where it stops.
    type Place: Drop;

    /// What holds of its request, as the command line gives it.
    ghost is_bounded: { Self → Type 0 };

    /// What it does.
    ghost meaning: { Self → Meaning Self.Found Self.Place };

    /// These are the parts, by what the reader had left before them and after them.
    ghost are_parts: { Self → (left left' : Option (List ℕ)) → Self.Parts → Type 0 };

    /// Reads the parts of the question. The first of them to be refused is returned, and words and lines of the request are
    /// refused with nothing read. At most one byte more than a text may have is taken from the reader, which must not have
    /// failed before.
    fn read_parts<R: Source, P: OutputProgress>(
        &self,
        alloc: Global,
        reader: &mut R,
        progress: &mut P,
    ) -> Result<Self::Parts, Rejection>
        requires reader { (R.state reader.old).has_failed ≡ false }
        ensures parts { IfOk result
            (are_parts self.now (R.state reader.old).remaining (R.state reader.new).remaining) }
        ensures rejected { IfErr result (IsRejectionBy ((meaning self.now).Refuses
            (R.state reader.old).remaining (R.state reader.new).remaining)) }
        ensures takes { TakesWithin (R.state reader.old) (R.state reader.new) (max_text_length + 1) }
        ensures failed { (R.state reader.new).has_failed ≡ is_input_failure result };

    /// Looks for the answer to the question that these parts make, and writes it. The writer must not have failed before.
    fn write_answer<W: Sink, P: OutputProgress>(
        &self,
        alloc: Global,
        parts: Self::Parts,
        writer: &mut W,
        progress: &mut P,
    ) -> Ended<Self::Found, Self::Place>
        requires bounds { is_bounded self.now }
        requires parts { (left left' : Option (List ℕ)) × are_parts self.now left left' parts }
        requires writer { (W.state writer.old).has_failed ≡ false }
        ensures ends { (left left' : Option (List ℕ)) → are_parts self.now left left' parts →
            Answered (meaning self.now).answering ((meaning self.now).Reads left left')
            (W.state writer.old).written (W.state writer.new).written result }
        ensures failed { (W.state writer.new).has_failed ≡ is_unwritten result };

    /// The place of a command that stops before it has looked for an answer.
    fn nowhere(&self) -> Self::Place
        ensures { result ≡ (meaning self.now).answering.nowhere };

    /// What an observer has to know of it.
    fn observed(&self) -> Observed<'_>;

    /// Reports how it ended, unless the output says so. `searched` is how much was looked at, if that is known.
    fn report<E: Write>(
        &self,
        ended: &Ended<Self::Found, Self::Place>,
        searched: &Option<Searched>,
        err: &mut E,
    );

    /// Says what its words mean, if that is often taken otherwise where it ends so.
    fn note<E: Write>(&self, _ended: &Ended<Self::Found, Self::Place>, _err: &mut E) {}
}

/// Reads a specification and writes the answer to the question that a command asks of it.
///
/// The words and the lines of the request are read first, then the text, whose specification is checked; then the gates
/// are hidden that the request's interface leaves out; then the gates that the words name are looked up among those that
/// are left, unless the request accepts unknown ones. The first of these to be refused is returned with nothing written,
/// and words and lines are refused with nothing read. A line is composed completely before its first byte is written, and
/// one flush follows what was written, unless memory runs out or a write fails. At most one byte more than a text may have
/// is taken from the reader, whatever it returns. Neither the reader nor the writer may have failed before.
/// The observer is told when the text is accepted, how far the search is, and of each line before it is written;
/// `NoProgress` is one that does nothing.
pub fn answer<C: Command, R: Source, W: Sink, P: OutputProgress>(
    alloc: Global,
    command: &C,
    reader: &mut R,
    writer: &mut W,
    progress: &mut P,
) -> Ended<C::Found, C::Place>
    requires bounds { C.is_bounded command.now }
    requires reader { (R.state reader.old).has_failed ≡ false }
    requires writer { (W.state writer.old).has_failed ≡ false }
    ensures { Call (C.meaning command.now) (R.state reader.old) (R.state reader.new)
        (W.state writer.old) (W.state writer.new) result }
{
    match command.read_parts(alloc, reader, progress) {
        Ok(parts) => command.write_answer(alloc, parts, writer, progress),
        Err(rejection) => end_of(rejection, command.nowhere()),
    }
}

/// Runs a command and reports how it ended, with a hint if it is refused for what may be meant otherwise. Returns its
/// status.
pub(crate) fn run_command<C: Command, R: Source, W: Sink, E: Write>(
    alloc: Global,
    command: &C,
    reader: &mut R,
    out: &mut W,
    messages: &mut Messages<E>,
) -> u8
    requires bounds { C.is_bounded command.now }
    requires reader { (R.state reader.old).has_failed ≡ false }
    requires out { (W.state out.old).has_failed ≡ false }
    ensures { Ran (C.meaning command.now) C.Found.is_yes (R.state reader.old) (R.state reader.new)
        (W.state out.old) (W.state out.new) result }
{
    let mut observer = SearchObserver::new(alloc, command.observed(), messages);
    let ended = answer(alloc, command, reader, out, &mut observer);
    let noted = observer.finish();
    let mut stream = MutedStream::new(&mut messages.stream, out.is_unread());
    report_command(alloc, command, &ended, &noted, &mut stream);
    ended.status()
}

/// Reports how a command ended, with a hint if it is refused for what may be meant otherwise. A terminal is told more:
/// what explains the refusal; or what the words mean, and how far the search was.
fn report_command<C: Command, E: Write>(
    alloc: Global,
    command: &C,
    ended: &Ended<C::Found, C::Place>,
    noted: &Noted,
    err: &mut E,
) {
    command.report(ended, &noted.searched, err);
    let observed = command.observed();
    if let Some(refusal) = ended.refusal() {
        let refused = RefusedCommand {
            asked: observed.words,
            hint: &noted.hint,
            text: noted.text.as_slice(),
            explains: noted.explains,
        };
        hint_after_refusal(alloc, &refused, refusal, err);
    } else if noted.explains {
        command.note(ended, err);
        if observed.reports_progress || matches!(observed.visited, Visited::States) {
            report_counts(err, noted.counts);
        }
    }
}
