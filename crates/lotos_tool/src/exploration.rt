//! The exploration of what can be observed, up to the automaton or to where it stops.
ghost use Rattle.std.specs.Prelude.{◌≡◌, IfErr, IfOk, List};
ghost use Rattle.lotos_check.specs.CheckedView.{system_of};
ghost use Rattle.lotos_listing.specs.Order.{Label as Text};
ghost use Rattle.lotos_listing.specs.Question.{ArePrinted};
ghost use Rattle.lotos_automaton.specs.BoundedBehaviours.{BoundedBehaviour, bounded_of};
ghost use Rattle.lotos_automaton.specs.Explorations.{IsFirstFault};
ghost use Rattle.lotos_tool.specs.ExplorationParts.{AreSetsOf, IsExplored, IsHalt, IsHaltAt};

use lotos_automaton::{AutomatonFault, Transition, find_automaton};
use lotos_check::Checked;
use lotos_listing::Progress;
use lotos_normal::NormalTable;
use lotos_outcome::Stop;
use lotos_output::format_sequence;
use lotos_report::{ListingStop, report_stop_unwritten};
use lotos_runs::laws::table_has_match_question;
use lotos_sets::FormSets;
use lotos_terms::Label;
use lotos_text::Name;
use std::alloc::{AllocError, Global};
use std::io::Write;

/// Why a command that needs the automaton of all that can be observed writes nothing.
#[derive(Drop)]
pub(crate) struct ExplorationHalt {
    pub(crate) cause: Stop,
    /// The text of the first sequence at which the exploration stops, if that is the cause.
    pub(crate) place: Option<String>,
}

impl From<AllocError> for ExplorationHalt {
    ghost use Rattle.std.specs.Prelude.{◌≡◌, None};
    ghost use Rattle.lotos_outcome.specs.declared.outcome.Stop.TheVariants.{Memory};

    ghost from_gives = { λ _ halt. halt ≡ record { cause = Memory; place = None } };

    fn from(_error: AllocError) -> ExplorationHalt {
        ExplorationHalt {
            cause: Stop::Memory,
            place: None,
        }
    }
}

/// No set yet of the normal forms that the sequences of a specification reach, with this bound on their number.
pub(crate) fn sets_of(
    alloc: Global,
    system: Checked,
    strong: bool,
    terms: usize,
) -> Result<FormSets, AllocError>
    ensures { IfOk result (AreSetsOf (system_of system) strong terms) }
{
    table_has_match_question();
    let table = NormalTable::new(alloc, system)?;
    table.recall_sound();
    Ok(FormSets::new(alloc, table, strong, terms))
}

/// The automaton of all that can be observed of the behaviour of the sets, of which at most so many may come up.
pub(crate) fn explore_all<P: Progress>(
    alloc: Global,
    sets: &mut FormSets,
    states: usize,
    progress: &mut P,
) -> Result<Vec<Vec<Transition>>, ExplorationHalt>
    ensures automaton { IfOk result (IsExplored (bounded_of sets.old states) sets.new) }
    ensures halts { IfErr result (IsHalt (bounded_of sets.old states)) }
{
    match find_automaton(alloc, sets, states, progress) {
        Ok(graph) => Ok(graph),
        Err(fault) => Err(halt_of(alloc, sets.table().gates(), &fault)),
    }
}

/// The halt for this fault, with the text of its sequence. The gates have these names.
fn halt_of(alloc: Global, gates: &[Name], fault: &AutomatonFault) -> ExplorationHalt
    requires { (q : BoundedBehaviour) × (q.behaviour.names ≡ gates.now) × IsFirstFault q fault.now }
    ensures { (q : BoundedBehaviour) → q.behaviour.names ≡ gates.now → IsFirstFault q fault.now →
        IsHalt q result }
{
    match fault {
        AutomatonFault::OverTerms(labels) => {
            halt_at(alloc, gates, labels.as_slice(), Stop::Terms)
        }
        AutomatonFault::OverStates(labels) => {
            halt_at(alloc, gates, labels.as_slice(), Stop::States)
        }
        AutomatonFault::Memory => ExplorationHalt {
            cause: Stop::Memory,
            place: None,
        },
    }
}

/// The halt for this cause at the sequence of these labels, or out of memory for its text. The gates have these names.
fn halt_at(alloc: Global, gates: &[Name], labels: &[Label], cause: Stop) -> ExplorationHalt
    requires { (s : List Text) × ArePrinted gates.now labels.now s }
    ensures { (s : List Text) → ArePrinted gates.now labels.now s → IsHaltAt cause s result }
{
    match format_sequence(alloc, gates, labels) {
        Ok(text) => ExplorationHalt {
            cause,
            place: Some(text),
        },
        Err(AllocError) => ExplorationHalt {
            cause: Stop::Memory,
            place: None,
        },
    }
}

/// Reports that the exploration stopped for this cause at the sequence with this text, and that nothing was written.
pub(crate) fn report_exploration<E: Write>(
    err: &mut E,
    cause: Stop,
    text: &str,
    terms: usize,
    states: usize,
) {
    let bound = match cause {
        Stop::States => states,
        _ => terms,
    };
    let stop = ListingStop {
        cause,
        prefix: text,
        bound,
    };
    report_stop_unwritten(err, stop);
}
