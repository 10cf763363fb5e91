//! What the passes of the static check find together, as the contract of an empty function.
ghost use Rattle.std.specs.Prelude.{◌≡◌, ◌∷◌, [], ℕ, List, Some, map, slice_get, suc};
ghost use Rattle.lotos_text.specs.AstView.{DefinitionView, formals_of, inner_of, name_of};
ghost use Rattle.lotos_text.specs.declared.ast.Placed.{Placed as AnyPlaced};
ghost use Rattle.lotos_check.specs.NameLists.{Name as AnyName, texts};
ghost use Rattle.lotos_check.specs.Scope.{definitions_in, all_definitions, definitions_in_list};
ghost use Rattle.lotos_check.specs.StaticFaults.{IsDistinct, WellTyped};
ghost use Rattle.lotos_check.specs.Flat.{IsFlat, Pairwise, System};
ghost use Rattle.lotos_check.specs.Guard.{IsE27, IsLargestUnguardedSet};
ghost use Rattle.lotos_check.specs.Acceptance.{IsStaticFault, IsFlattened, IsDuplicateFault};
ghost use Rattle.lotos_check.specs.Resolution.{AddsBodies, IsNameFaultIn};
ghost use Rattle.lotos_check.specs.FunctionalityRules.{HasDeclaredFunctionality, IsFunctionalityFaultIn};
ghost use Rattle.lotos_check.specs.CheckedView.{flat_of, process_of};
ghost use Rattle.lotos_check.specs.declared.resolved_body.ResolvedBody.{ResolvedBody as AnyResolved};
ghost use Rattle.lotos_check.specs.declared.resolved.Code.{Code as AnyCode};
ghost use Rattle.lotos_check.specs.declared.resolved.Process.{Process as AnyProcess};
ghost use Rattle.lotos_check.specs.declared.fault.CheckFault.{CheckFault as AnyFault};

/// The passes decide the static rules: without a fault the specification is well typed and its code is the flat system;
/// each fault is one of the specification.
pub(crate) fn passes_decide_static_rules()
    ensures typed { (whole : DefinitionView) (found : List AnyResolved) → IsDistinct whole →
        AddsBodies (all_definitions whole) [] found →
        Pairwise HasDeclaredFunctionality (definitions_in whole) found →
        WellTyped whole }
    ensures flat { (whole : DefinitionView) (found : List AnyResolved) (formals : List AnyName)
        (start : AnyCode) (processes : List AnyProcess) → AddsBodies (all_definitions whole) [] found →
        IsFlattened (whole ∷ definitions_in_list (inner_of whole)) found start processes →
        formals ≡ texts (formals_of whole) →
        IsFlat whole
        (record { formals = formals; start = flat_of start; processes = map process_of processes }) }
    ensures repeated { (whole : DefinitionView) (fault : AnyFault) → IsDuplicateFault whole fault →
        IsStaticFault whole fault }
    ensures name_fault { (whole : DefinitionView) (fault : AnyFault) →
        IsNameFaultIn (all_definitions whole) fault → IsStaticFault whole fault }
    ensures functionality_fault { (whole : DefinitionView) (found : List AnyResolved) (fault : AnyFault) →
        AddsBodies (all_definitions whole) [] found →
        IsFunctionalityFaultIn (definitions_in whole) found fault → IsStaticFault whole fault }
    ensures unguarded { (whole : DefinitionView) (system : System) (set : List ℕ) (first : ℕ)
        (others : List ℕ) (name : AnyPlaced) (d : DefinitionView) → IsFlat whole system →
        IsLargestUnguardedSet system.processes set → set ≡ first ∷ others →
        slice_get (definitions_in whole) (suc first) ≡ Some d → name ≡ name_of d →
        IsE27 whole name set }
{}
