//! The command `graph`, from the text to the automaton of all that can be observed.
ghost use Rattle.std.specs.Prelude.{IfErr, IfOk};
ghost use Rattle.lotos_check.specs.CheckedView.{system_of};
ghost use Rattle.lotos_store.specs.Interning.{plain_lists};
ghost use Rattle.lotos_automaton.specs.BoundedBehaviours.{bounded_of};
ghost use Rattle.lotos_output.specs.AutomatonText.{HasTexts};
ghost use Rattle.lotos_tool.specs.ExplorationParts.{IsHalt, IsMemoryHalt};
ghost use Rattle.lotos_tool.specs.GraphParts.{HasAutomaton, HasHalt, IsAutomaton, IsTextOf};

use crate::command::Command;
use crate::exploration::{ExplorationHalt, explore_all, report_exploration, sets_of};
use crate::findings::AutomatonSize;
use crate::search_observer::Observed;
use lotos_automaton::Transition;
use lotos_check::Checked;
use lotos_command::GraphRequest;
use lotos_device::{Sink, Source};
use lotos_listing::{Progress, Searched};
use lotos_outcome::{Ended, OutputProgress, Rejection, read_asked};
use lotos_output::{count_transitions, format_automaton, write_whole};
use lotos_report::{Visited, report_end};
use lotos_sets::FormSets;
use lotos_text::Name;
use std::alloc::Global;
use std::io::Write;

/// An automaton as text.
#[derive(Drop)]
pub(crate) struct GraphText {
    text: Vec<u8>,
    size: AutomatonSize,
}

/// The automaton of all that can be observed of an accepted specification.
fn find_text<P: Progress>(
    alloc: Global,
    request: &GraphRequest,
    system: Checked,
    progress: &mut P,
) -> Result<GraphText, ExplorationHalt>
    ensures automaton { IfOk result (HasAutomaton request.now (system_of system)) }
    ensures halts { IfErr result (HasHalt request.now (system_of system)) }
{
    let mut sets = sets_of(alloc, system, request.strong, request.terms)?;
    explored_text(alloc, &mut sets, request.states, progress)
}

/// The automaton of all that can be observed of the behaviour of the sets, of which at most so many may come up.
fn explored_text<P: Progress>(
    alloc: Global,
    sets: &mut FormSets,
    states: usize,
    progress: &mut P,
) -> Result<GraphText, ExplorationHalt>
    ensures automaton { IfOk result (IsAutomaton (bounded_of sets.old states)) }
    ensures halts { IfErr result (IsHalt (bounded_of sets.old states)) }
{
    let graph = explore_all(alloc, sets, states, progress)?;
    text_of(alloc, sets.table().gates(), graph.as_slice())
}

/// The automaton as text. The gates have these names.
fn text_of(
    alloc: Global,
    gates: &[Name],
    graph: &[Vec<Transition>],
) -> Result<GraphText, ExplorationHalt>
    requires { HasTexts gates.now (plain_lists graph.now) }
    ensures made { IfOk result (IsTextOf gates.now (plain_lists graph.now)) }
    ensures halts { IfErr result IsMemoryHalt }
{
    let text = format_automaton(alloc, gates, graph)?;
    let size = AutomatonSize {
        states: graph.len(),
        transitions: count_transitions(graph),
    };
    Ok(GraphText { text, size })
}

/// `graph` writes the least deterministic automaton of all that can be observed, in the Aldébaran format: a state for each
/// class of sequences after which the same can be observed, in the order of the first sequence of each. It stops, with
/// nothing written, at the first sequence that reaches more normal forms than the request allows or leads to one set of
/// them more than it allows.
impl Command for GraphRequest {
    ghost use Rattle.lotos_check.specs.CheckedView.{system_of};
    ghost use Rattle.lotos_command.specs.Request.{HasGraphBounds};
    ghost use Rattle.lotos_outcome.specs.QuestionParts.{ReadsAsked};
    ghost use Rattle.lotos_tool.specs.GraphOutcome.{graph_meaning};

    type Parts = Checked;

    type Found = AutomatonSize;

    type Place = Option<String>;

    ghost is_bounded = { HasGraphBounds };

    ghost meaning = { graph_meaning };

    ghost are_parts = { λ request left left' system. ReadsAsked request.interface left left' (system_of system) };

    fn read_parts<R: Source, P: OutputProgress>(
        &self,
        alloc: Global,
        reader: &mut R,
        progress: &mut P,
    ) -> Result<Checked, Rejection> {
        read_asked(alloc, &self.interface, reader, progress)
    }

    fn write_answer<W: Sink, P: OutputProgress>(
        &self,
        alloc: Global,
        parts: Checked,
        writer: &mut W,
        progress: &mut P,
    ) -> Ended<AutomatonSize, Option<String>> {
        match find_text(alloc, self, parts, progress) {
            Ok(found) => {
                progress.before_line();
                write_whole(writer, found.text.as_slice(), found.size, None)
            }
            Err(halt) => Ended::Stopped {
                cause: halt.cause,
                place: halt.place,
            },
        }
    }

    fn nowhere(&self) -> Option<String> {
        None
    }

    fn observed(&self) -> Observed<'_> {
        Observed {
            words: None,
            interface: &self.interface,
            reports_progress: self.progress,
            brief: self.brief,
            visited: Visited::AllSets,
        }
    }

    fn report<E: Write>(
        &self,
        ended: &Ended<AutomatonSize, Option<String>>,
        _searched: &Option<Searched>,
        err: &mut E,
    ) {
        match ended {
            Ended::Stopped {
                cause,
                place: Some(text),
            } => report_exploration(err, *cause, text.as_str(), self.terms, self.states),
            _ => report_end(err, ended),
        }
    }
}
