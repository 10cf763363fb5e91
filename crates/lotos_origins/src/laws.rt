//! Laws of the definitions, each as the contract of an empty function.
ghost use Rattle.std.specs.Prelude.{◌≡◌, ℕ, List, length};
ghost use Rattle.lotos_store.specs.Terms.{IsTerm, Process, Term as TermOf};
ghost use Rattle.lotos_store.specs.declared.label.Label.{Label};
ghost use Rattle.lotos_store.specs.declared.label.Label.TheVariants as labels;
ghost use Rattle.lotos_terms.specs.Steps.{Step};
ghost use Rattle.lotos_terms.specs.TableView.{Grows, IsSoundView, TableView};
ghost use Rattle.lotos_origins.specs.Contexts.{AreAlikeIn, Context, DoAlike, Does, Event, seen_through, under};
ghost use Rattle.lotos_origins.specs.FollowedRuns.{AreAlike, IsFollowed};
ghost use Rattle.lotos_origins.specs.Origins.{DerivesBy, DerivesByNumber, InternalStep, IsOriginOver};
ghost use Rattle.lotos_origins.specs.Rounds.{GoesRoundBy};
ghost use Rattle.lotos_origins.specs.declared.followed_run.FollowedRun.{FollowedRun as FollowedRunOf};
ghost use Rattle.lotos_origins.specs.declared.origin.Origin.{Origin as OriginOf};

use lotos_normal::laws::steps_keep_bisimilarity;
use lotos_terms::laws::steps_stay_in_table;

/// A term has an internal step to another exactly if there is an origin of such a step.
pub fn internal_steps_have_origins()
    ensures step { (system : List Process) (t u : TermOf) (o : OriginOf) → InternalStep system t o u →
        Step system t labels.Internal u }
    ensures origin { (system : List Process) (t u : TermOf) → Step system t labels.Internal u →
        (o : OriginOf) × InternalStep system t o u }
{}

/// An internal step of a term over the gates and processes of a sound table has an origin with a gate of that table, if
/// its origin has a gate.
pub fn origins_stay_in_table()
    ensures { (held : TableView) → IsSoundView held → (t u : TermOf) (o : OriginOf) →
        IsTerm (length held.names) (length held.processes) t → InternalStep held.processes t o u →
        IsOriginOver (length held.names) o }
{
    steps_stay_in_table();
}

/// Some derivation by a run leads from a term to another exactly if there are origins of its internal steps.
pub fn derivations_have_origins()
    ensures derivation { (system : List Process) (t u : TermOf) (run : List Label) (origins : List OriginOf) →
        DerivesBy system t run origins u → DerivesByNumber system t run u }
    ensures origins { (system : List Process) (t u : TermOf) (run : List Label) →
        DerivesByNumber system t run u → (origins : List OriginOf) × DerivesBy system t run origins u }
{}

/// Strongly bisimilar terms have the same steps: for each step of one there is a step of the other by the same label,
/// and the terms that the two lead to are strongly bisimilar.
pub fn alike_terms_have_the_same_steps()
    ensures forward { (system : List Process) (t u t' : TermOf) (k : Label) →
        AreAlike system t u → Step system t k t' →
        (u' : TermOf) × Step system u k u' × AreAlike system t' u' }
    ensures backward { (system : List Process) (t u u' : TermOf) (k : Label) →
        AreAlike system t u → Step system u k u' →
        (t' : TermOf) × Step system t k t' × AreAlike system t' u' }
{
    steps_keep_bisimilarity();
}

/// Terms that are alike in contexts have the same steps, with the same origins of the internal ones: for each step of
/// the first there is one of the second of which its context makes the same, and the terms that the two lead to are
/// alike. They are alike in larger contexts too.
pub fn alike_steps_have_the_same_origins()
    ensures step { (system : List Process) (c d : Context) (t u t' : TermOf) (e : Event) →
        AreAlikeIn system c t d u → Does system t e t' →
        (f : Event) × (u' : TermOf) × Does system u f u' × (seen_through c e ≡ seen_through d f) ×
        AreAlikeIn system c t' d u' }
    ensures context { (system : List Process) (c d outer : Context) (t u : TermOf) →
        AreAlikeIn system c t d u → AreAlikeIn system (under outer c) t (under outer d) u }
{}

/// A loop that leads from a term to one that does alike can be taken as often as one likes, each time with the same
/// origins.
pub fn alike_terms_go_round()
    ensures { (system : List Process) (t x y : TermOf) (row turn : List Label)
        (before around : List OriginOf) → DerivesBy system t row before x → DerivesBy system x turn around y →
        DoAlike system x y → GoesRoundBy system t row turn before around }
{
    alike_steps_have_the_same_origins();
}

/// A run that was followed stays followed as the table grows.
pub fn followed_runs_grow()
    ensures { (old new : TableView) (start : ℕ) (run : List Label) (followed : FollowedRunOf) →
        Grows old new → IsFollowed old start run followed → IsFollowed new start run followed }
{}
