//! Laws of the definitions, each as the contract of an empty function.
ghost use Rattle.std.specs.Prelude.{◌≡◌, List};
ghost use Rattle.lotos_text.specs.AstView.{BehaviourView, DefinitionView, body_of, name_of, stop};
ghost use Rattle.lotos_text.specs.declared.ast.Functionality.TheVariants.{NoExit};
ghost use Rattle.lotos_text.specs.declared.ast.Placed.{Placed};
ghost use Rattle.lotos_check.specs.Functionality.{Func};
ghost use Rattle.lotos_check.specs.NameLists.{Name};
ghost use Rattle.lotos_check.specs.Scope.{Scope};
ghost use Rattle.lotos_check.specs.StaticFaults.{Occurs};
ghost use Rattle.lotos_store.specs.Terms.{Process as ProcessOf, Term};
ghost use Rattle.lotos_warn.specs.Derivations.{HasNoStep, IsStartOf, IsTermOf, NeverTerminates};
ghost use Rattle.lotos_warn.specs.FirstLabels.{IsDeadStart};
ghost use Rattle.lotos_warn.specs.Termination.{MayTerminate};
ghost use Rattle.lotos_warn.specs.Warnings.{IsNeverExit};

/// A behaviour of an accepted specification that has the functionality noexit never terminates successfully: no
/// derivation from its term has a step labelled exit.
pub fn noexit_never_exits()
    ensures { (whole : DefinitionView) (scope : Scope) (gates : List Name) (behaviour : BehaviourView)
        (processes : List ProcessOf) (term : Term) → Occurs whole scope gates behaviour →
        Func scope behaviour NoExit → IsTermOf whole scope behaviour processes term →
        NeverTerminates processes term }
{}

/// Nor does a behaviour that cannot terminate by its text, and so no body of a definition with the warning that it
/// never terminates.
pub fn what_may_not_terminate_never_does()
    ensures text { (whole : DefinitionView) (scope : Scope) (behaviour : BehaviourView)
        (processes : List ProcessOf) (term : Term) → (MayTerminate whole scope behaviour → ⊥) →
        IsTermOf whole scope behaviour processes term → NeverTerminates processes term }
    ensures warning { (whole : DefinitionView) (name : Placed) (warning : IsNeverExit whole name)
        (processes : List ProcessOf) (term : Term) →
        IsTermOf whole warning.scope (body_of warning.definition) processes term →
        NeverTerminates processes term }
{}

/// The behaviour of an accepted specification that can do nothing first, by its text, has no step by the inference rules.
/// And if it has none, and is not `stop`, the specification has the warning.
pub fn what_can_do_nothing_has_no_step()
    ensures warning { (whole : DefinitionView) (name : Placed) → IsDeadStart whole name →
        (processes : List ProcessOf) (term : Term) → IsStartOf whole processes term →
        HasNoStep processes term }
    ensures no_step { (whole : DefinitionView) (processes : List ProcessOf) (term : Term) →
        IsStartOf whole processes term → (body_of whole ≡ stop → ⊥) → HasNoStep processes term →
        IsDeadStart whole (name_of whole) }
{}
