//! The warnings about a specification.
ghost use Rattle.std.specs.Prelude.{◌≡◌, ◌↔◌, ◌⊎◌, IfOk, OnOk, map};
ghost use Rattle.std.specs.List.Sorted.{IsStrictlySortedBy};
ghost use Rattle.lotos_text.specs.AstOf.{definition_view};
ghost use Rattle.lotos_text.specs.AstView.{inner_of};
ghost use Rattle.lotos_check.specs.Acceptance.{IsAccepted};
ghost use Rattle.lotos_check.specs.CheckedView.{system_of};
ghost use Rattle.lotos_check.specs.NameLists.{In};
ghost use Rattle.lotos_check.specs.Scope.{definitions_in, definitions_in_list};
ghost use Rattle.lotos_warn.specs.Additions.{Adds, IsDeadIn, IsEndlessWhole, IsProcessWarningOfAny};
ghost use Rattle.lotos_warn.specs.CallSites.{IsOtherWarning};
ghost use Rattle.lotos_warn.specs.Termination.{exits_by};
ghost use Rattle.lotos_warn.specs.Warnings.{IsWarning};
ghost use Rattle.lotos_warn.specs.WarningOrder.{warning_cmp};
ghost use Rattle.lotos_warn.specs.declared.warning.Warning.{Warning as AnyWarning};

use crate::dead_start::warn_if_dead;
use crate::definition_warnings::{warn_if_endless_whole, warn_of_gates, warn_of_processes};
use crate::exchanged_gates::warn_of_exchanges;
use crate::process_sets::ProcessSets;
use crate::termination::may_exit;
use crate::warning::Warning;
use lotos_check::laws::{binding_is_unique, calls_fit, flat_system_is_unique};
use lotos_check::{Checked, add_definitions};
use lotos_text::{Definition, Specification};
use std::alloc::{AllocError, Global};

/// The warnings about an accepted specification, each once, in the order of their offsets; of two about one gate the one
/// about the left side comes first. `system` is what [`lotos_check::check`] returns for the specification.
///
/// # Errors
///
/// If an allocation fails.
pub fn warnings(
    alloc: Global,
    specification: &Specification,
    system: &Checked,
) -> Result<Vec<Warning>, AllocError>
    requires accepted { IsAccepted (definition_view specification.now.whole) (system_of system.now) }
    ensures exact { IfOk result (λ list. (w : AnyWarning) →
        In w list.items ↔ IsWarning (definition_view specification.now.whole) w) }
    ensures ascending { IfOk result (λ list. IsStrictlySortedBy warning_cmp list.items) }
{
    let mut warnings = unsorted_warnings(alloc, &specification.whole, system)?;
    warnings.sort_unstable();
    warnings.dedup();
    Ok(warnings)
}

fn unsorted_warnings(
    alloc: Global,
    whole: &Definition,
    system: &Checked,
) -> Result<Vec<Warning>, AllocError>
    requires accepted { IsAccepted (definition_view whole.now) (system_of system.now) }
    ensures { IfOk result (λ list. (w : AnyWarning) →
        In w list.items ↔ IsWarning (definition_view whole.now) w) }
{
    let mut definitions = Vec::new(alloc);
    add_definitions(whole, &mut definitions)?;
    let mut warnings = Vec::new(alloc);
    add_warnings(alloc, whole, definitions.as_slice(), system, &mut warnings)?;
    Ok(warnings)
}

/// Appends the warnings about a specification. The definitions are its own and all inside it.
fn add_warnings(
    alloc: Global,
    whole: &Definition,
    definitions: &[&Definition],
    system: &Checked,
    warnings: &mut Vec<Warning>,
) -> Result<(), AllocError>
    requires accepted { IsAccepted (definition_view whole.now) (system_of system.now) }
    requires definitions { map (λ d. definition_view d.now) definitions.now ≡
        definitions_in (definition_view whole.now) }
    ensures { OnOk result (Adds warnings.old.items warnings.new.items
        (IsWarning (definition_view whole.now))) }
{
    binding_is_unique();
    calls_fit();
    add_other_warnings(alloc, whole, definitions, system, warnings)?;
    warn_of_exchanges(alloc, definitions, system, warnings)
}

/// Appends all warnings but those about gates of calls that have changed places.
fn add_other_warnings(
    alloc: Global,
    whole: &Definition,
    definitions: &[&Definition],
    system: &Checked,
    warnings: &mut Vec<Warning>,
) -> Result<(), AllocError>
    requires accepted { IsAccepted (definition_view whole.now) (system_of system.now) }
    requires definitions { map (λ d. definition_view d.now) definitions.now ≡
        definitions_in (definition_view whole.now) }
    ensures { OnOk result (Adds warnings.old.items warnings.new.items
        (IsOtherWarning (definition_view whole.now))) }
{
    binding_is_unique();
    calls_fit();
    flat_system_is_unique();
    warn_of_gates(alloc, definitions, warnings)?;
    let sets = ProcessSets::of(alloc, system)?;
    warn_of_processes_and_whole(alloc, whole, definitions, system, &sets, warnings)
}

/// Appends the warnings about the processes, and those about the specification as a whole. The first definition is its
/// own, the others are those of the processes.
fn warn_of_processes_and_whole(
    alloc: Global,
    whole: &Definition,
    definitions: &[&Definition],
    system: &Checked,
    sets: &ProcessSets,
    warnings: &mut Vec<Warning>,
) -> Result<(), AllocError>
    requires { map (λ d. definition_view d.now) definitions.now ≡
        definitions_in (definition_view whole.now) }
    ensures { OnOk result (Adds warnings.old.items warnings.new.items (λ w.
        IsProcessWarningOfAny sets.now.called.keys sets.now.reached.keys sets.now.exiting.keys 0
        (definitions_in_list (inner_of (definition_view whole.now))) w
        ⊎ (IsEndlessWhole (exits_by sets.now.exiting.keys (system_of system.now).start)
        (definition_view whole.now) w
        ⊎ IsDeadIn (system_of system.now) (definition_view whole.now) w))) }
{
    warn_of_processes(
        alloc,
        &definitions[1..],
        &sets.called,
        &sets.reached,
        &sets.exiting,
        warnings,
    )?;
    let exits = may_exit(system.start(), &sets.exiting);
    warn_if_endless_whole(alloc, whole, exits, warnings)?;
    warn_if_dead(alloc, whole, system, warnings)
}
