//! Laws of the definitions, each as the contract of an empty function.
ghost use Rattle.std.specs.Prelude.{◌++◌, ◌+◌, ◌<◌, ◌↔◌, ◌∷◌, ◌≡◌, ◌≤◌, ℕ, Bool, List, Option, Some, [], length};
ghost use Rattle.lotos_check.specs.Flat.{System};
ghost use Rattle.lotos_terms.specs.Alphabets.{IsClosedSystem};
ghost use Rattle.lotos_terms.specs.TableView.{IsSoundView, IsTableOf, TableView};
ghost use Rattle.lotos_listing.specs.Listing.{Listing};
ghost use Rattle.lotos_listing.specs.Order.{After, Label as Text};
ghost use Rattle.lotos_listing.specs.Remaining.{remaining};
ghost use Rattle.lotos_sets.specs.Behaviours.{CanBeObserved, Behaviour};
ghost use Rattle.lotos_automaton.specs.BoundedBehaviours.{BoundedBehaviour};
ghost use Rattle.lotos_automaton.specs.Explorations.{SameFuture};
ghost use Rattle.lotos_suite.specs.CoverListings.{IsCoverQuestionOf, IsListedLine};
ghost use Rattle.lotos_suite.specs.CoverSteps.{CoverState, IsBegun, IsEndOfCover};
ghost use Rattle.lotos_check.specs.NameLists.{In};
ghost use Rattle.lotos_store.specs.declared.label.Label.{Label as LabelOf};
ghost use Rattle.lotos_automaton.specs.Automata.{IsAutomatonOf};
ghost use Rattle.lotos_automaton.specs.Graphs.{Graph};
ghost use Rattle.lotos_suite.specs.GraphMachines.{AreSuiteLabels, label_texts, machine_of};
ghost use Rattle.lotos_suite.specs.GraphSuites.{IsSuiteOf};
ghost use Rattle.lotos_suite.specs.Machines.{CanDo, IsMachineOver, Machine};
ghost use Rattle.lotos_suite.specs.SuiteLines.{AreAccesses};
ghost use Rattle.lotos_suite.specs.Suites.{AreAccessSequences, AreSuiteParts, Line, Passes, PassesSuite, SuiteParts};

use lotos_runs::laws::table_has_match_question;
use lotos_sets::laws::forms_are_reached_by_derivations;

/// Each line of a cover is observed of some derivation, and the cover of a question is unique.
pub fn lines_can_be_observed()
    ensures observed { (q : BoundedBehaviour) (s : List Text) →
        IsListedLine q s → CanBeObserved q.behaviour s }
    ensures unique { (q : BoundedBehaviour) (mark : Option (List Text)) (items others : List (List Text)) →
        Listing (IsListedLine q) mark items → Listing (IsListedLine q) mark others → items ≡ others }
{}

/// A cover misses no label: for each sequence that can be observed and each label that can come after it, some line of a
/// search that has ended begins with a sequence after which the same can be observed, and this label.
pub fn covers_show_every_label()
    ensures { (q : BoundedBehaviour) (cursor : Option (List Text)) → IsEndOfCover q cursor →
        (s : List Text) (l : Text) → CanBeObserved q.behaviour (s ++ l ∷ []) →
        (r : List Text) × (y : List Text) × SameFuture q.behaviour r s × IsListedLine q (r ++ l ∷ y) }
{}

/// A search that was begun with a sound table of a system is a search of that system.
pub fn begun_cover_search_has_question()
    ensures { (system : System) (held : TableView) (strong : Bool) (terms states : ℕ)
        (mark : Option (List Text)) (s : CoverState) → IsTableOf system held → IsSoundView held →
        IsBegun held strong terms states mark s → IsCoverQuestionOf system s.question }
{
    table_has_match_question();
}

/// After a line that comes after the cursor fewer sequences remain than after the cursor.
pub fn lines_decrease_remaining()
    ensures { (q : BoundedBehaviour) → IsClosedSystem q.behaviour.processes →
        (cursor : Option (List Text)) (s : List Text) → IsListedLine q s → After cursor s →
        remaining q.behaviour.names q.states (Some s) < remaining q.behaviour.names q.states cursor }
{
    forms_are_reached_by_derivations();
}

/// A suite misses nothing: of the deterministic implementations that have the same labels, and at most so many extra
/// states, exactly those pass all its lines that can do the same sequences as the machine of the suite.
pub fn suite_misses_nothing()
    ensures { (m implementation : Machine) (parts : SuiteParts) → IsMachineOver parts.labels m →
        IsMachineOver parts.labels implementation → AreSuiteParts m parts →
        implementation.states ≤ m.states + parts.extra →
        PassesSuite m parts implementation ↔ ((s : List Text) → CanDo m s ↔ CanDo implementation s) }
{}

/// The machine of an automaton can do exactly what can be observed, and the access sequences of the automaton are those
/// of the machine.
pub fn automata_are_machines()
    ensures observed { (b : Behaviour) (graph : Graph LabelOf) (access : List (List Text)) →
        IsAutomatonOf b graph access → (s : List Text) →
        CanDo (machine_of b.names graph) s ↔ CanBeObserved b s }
    ensures access { (b : Behaviour) (graph : Graph LabelOf) (access : List (List Text)) →
        IsAutomatonOf b graph access → AreAccessSequences (machine_of b.names graph) access }
    ensures accesses { (b : Behaviour) (graph : Graph LabelOf) (access : List (List Text)) →
        IsAutomatonOf b graph access → AreAccesses (machine_of b.names graph) access }
    ensures over { (b : Behaviour) (graph : Graph LabelOf) (access : List (List Text))
        (labels : List LabelOf) → IsAutomatonOf b graph access → AreSuiteLabels b.names graph labels →
        IsMachineOver (label_texts b.names labels) (machine_of b.names graph) }
{}

/// The lines of a suite for an automaton miss nothing: of the deterministic implementations that have the suite's labels,
/// and at most so many states more than the automaton, exactly those pass all lines that can do what can be observed, and
/// no more.
pub fn lines_miss_nothing()
    ensures { (b : Behaviour) (graph : Graph LabelOf) (access : List (List Text)) (labels : List LabelOf)
        (extra : ℕ) (lines : List Line) (implementation : Machine) → IsAutomatonOf b graph access →
        AreSuiteLabels b.names graph labels → IsSuiteOf b.names graph access labels extra lines →
        IsMachineOver (label_texts b.names labels) implementation →
        implementation.states ≤ length graph + extra →
        ((line : Line) → In line lines → Passes implementation line) ↔
        ((s : List Text) → CanBeObserved b s ↔ CanDo implementation s) }
{}
