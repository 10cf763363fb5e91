//! The warnings about each definition.
ghost use Rattle.std.specs.Prelude.{◌≡◌, ◌∷◌, ◌⊎◌, [], MatchBool, OnOk, map};
ghost use Rattle.lotos_text.specs.AstOf.{definition_view};
ghost use Rattle.lotos_text.specs.AstView.{declared_of};
ghost use Rattle.lotos_text.specs.declared.ast.Functionality.TheVariants.{Exit, NoExit};
ghost use Rattle.lotos_check.specs.NameLists.{In};
ghost use Rattle.lotos_warn.specs.Additions.{Adds, IsEndlessAt, IsEndlessWhole, IsGateWarning, IsGateWarningOfAny, IsProcessWarningOfAny, IsUncalledAt, IsUnreachedAt, IsUnusedAmong, IsUseWarning};

use crate::offered_gates::warn_of_lists;
use crate::shown_name::ShownName;
use crate::used_gates::add_used;
use crate::warning::Warning;
use indexmap::IndexSet;
use lotos_text::{Definition, Functionality, Name, Placed};
use std::alloc::{AllocError, Global};

/// Appends the warnings about the gates of the definitions.
pub(crate) fn warn_of_gates(
    alloc: Global,
    definitions: &[&Definition],
    warnings: &mut Vec<Warning>,
) -> Result<(), AllocError>
    ensures { OnOk result (Adds warnings.old.items warnings.new.items
        (IsGateWarningOfAny (map (λ d. definition_view d.now) definitions.now))) }
{
    for definition in definitions {
        warn_of_gates_in(alloc, *definition, warnings)?;
    }
    Ok(())
}

/// Appends the warnings about the gates of a definition: its formal gates that its body does not use, the gates that its
/// body hides and does not use inside, the gates in the lists of its body that a side never offers, and the hidden gates
/// on which both sides of a composition do not synchronize.
fn warn_of_gates_in(
    alloc: Global,
    definition: &Definition,
    warnings: &mut Vec<Warning>,
) -> Result<(), AllocError>
    ensures { OnOk result (Adds warnings.old.items warnings.new.items
        (IsGateWarning (definition_view definition.now))) }
{
    warn_of_unused_gates(alloc, definition, warnings)?;
    let mut offered = IndexSet::new(alloc);
    let mut apart = IndexSet::new(alloc);
    warn_of_lists(alloc, &definition.body, &mut offered, &mut apart, warnings)
}

/// Appends the warnings about the formal gates of a definition that its body does not use, and about the gates that the
/// body hides and does not use inside.
fn warn_of_unused_gates(
    alloc: Global,
    definition: &Definition,
    warnings: &mut Vec<Warning>,
) -> Result<(), AllocError>
    ensures { OnOk result (Adds warnings.old.items warnings.new.items
        (IsUseWarning (definition_view definition.now))) }
{
    let mut used = IndexSet::new(alloc);
    add_used(alloc, &definition.body, &mut used, warnings)?;
    warn_of_unused(
        alloc,
        definition.formals.as_slice(),
        &definition.name.name,
        &used,
        warnings,
    )
}

/// Appends the warnings about the formal gates of the definition `owner` that are not used.
fn warn_of_unused(
    alloc: Global,
    formals: &[Placed],
    owner: &Name,
    used: &IndexSet<&str>,
    warnings: &mut Vec<Warning>,
) -> Result<(), AllocError>
    ensures { OnOk result (Adds warnings.old.items warnings.new.items
        (IsUnusedAmong (map (λ k. k.now) used.now.keys) owner.now formals.now)) }
{
    for gate in formals {
        warn_if_unused(alloc, gate, owner, used, warnings)?;
    }
    Ok(())
}

/// Appends the warning about a formal gate of the definition `owner`, unless it is used.
fn warn_if_unused(
    alloc: Global,
    gate: &Placed,
    owner: &Name,
    used: &IndexSet<&str>,
    warnings: &mut Vec<Warning>,
) -> Result<(), AllocError>
    ensures { OnOk result (Adds warnings.old.items warnings.new.items
        (IsUnusedAmong (map (λ k. k.now) used.now.keys) owner.now (gate.now ∷ []))) }
{
    if !used.contains(gate.name.text()) {
        let gate = gate.copy(alloc)?;
        let definition = ShownName::of(alloc, owner)?;
        warnings.push(Warning::UnusedGate { gate, definition })?;
    }
    Ok(())
}

/// Appends the warnings about the processes that are not called or not reached, and about those that are declared `exit`
/// and never terminate. The number of a process is its index.
pub(crate) fn warn_of_processes(
    alloc: Global,
    processes: &[&Definition],
    called: &IndexSet<usize>,
    reached: &IndexSet<usize>,
    exiting: &IndexSet<usize>,
    warnings: &mut Vec<Warning>,
) -> Result<(), AllocError>
    ensures { OnOk result (Adds warnings.old.items warnings.new.items
        (IsProcessWarningOfAny called.now.keys reached.now.keys exiting.now.keys 0
        (map (λ d. definition_view d.now) processes.now))) }
{
    for number in 0..processes.len() {
        let process = processes[number];
        warn_if_uncalled(alloc, number, process, called, warnings)?;
        warn_if_unreached(alloc, number, process, called, reached, warnings)?;
        warn_if_endless(alloc, number, process, exiting, warnings)?;
    }
    Ok(())
}

/// Appends the warning about the process with this number, unless it is called.
fn warn_if_uncalled(
    alloc: Global,
    number: usize,
    process: &Definition,
    called: &IndexSet<usize>,
    warnings: &mut Vec<Warning>,
) -> Result<(), AllocError>
    ensures { OnOk result (Adds warnings.old.items warnings.new.items
        (IsUncalledAt called.now.keys number (definition_view process.now))) }
{
    if !called.contains(&number) {
        let process = process.name.copy(alloc)?;
        warnings.push(Warning::UncalledProcess(process))?;
    }
    Ok(())
}

/// Appends the warning about the process with this number, unless it is reached or not called at all.
fn warn_if_unreached(
    alloc: Global,
    number: usize,
    process: &Definition,
    called: &IndexSet<usize>,
    reached: &IndexSet<usize>,
    warnings: &mut Vec<Warning>,
) -> Result<(), AllocError>
    ensures { OnOk result (Adds warnings.old.items warnings.new.items
        (IsUnreachedAt called.now.keys reached.now.keys number (definition_view process.now))) }
{
    if is_unreached(number, called, reached) {
        let process = process.name.copy(alloc)?;
        warnings.push(Warning::UnreachedProcess(process))?;
    }
    Ok(())
}

/// Whether the process with this number is called and not reached.
fn is_unreached(number: usize, called: &IndexSet<usize>, reached: &IndexSet<usize>) -> bool
    ensures { MatchBool result (In number called.now.keys × (In number reached.now.keys → ⊥))
        ((In number called.now.keys → ⊥) ⊎ In number reached.now.keys) }
{
    called.contains(&number) && !reached.contains(&number)
}

/// Appends the warning about the process with this number if it is declared `exit`, and not one that may terminate.
fn warn_if_endless(
    alloc: Global,
    number: usize,
    process: &Definition,
    exiting: &IndexSet<usize>,
    warnings: &mut Vec<Warning>,
) -> Result<(), AllocError>
    ensures { OnOk result (Adds warnings.old.items warnings.new.items
        (IsEndlessAt exiting.now.keys number (definition_view process.now))) }
{
    if is_declared_exit(process) {
        if !exiting.contains(&number) {
            let name = process.name.copy(alloc)?;
            warnings.push(Warning::NeverExits(name))?;
        }
    }
    Ok(())
}

/// Appends the warning about the specification if it is declared `exit`, and its behaviour never terminates.
pub(crate) fn warn_if_endless_whole(
    alloc: Global,
    whole: &Definition,
    exits: bool,
    warnings: &mut Vec<Warning>,
) -> Result<(), AllocError>
    ensures { OnOk result (Adds warnings.old.items warnings.new.items
        (IsEndlessWhole exits (definition_view whole.now))) }
{
    if is_declared_exit(whole) {
        if !exits {
            let name = whole.name.copy(alloc)?;
            warnings.push(Warning::NeverExits(name))?;
        }
    }
    Ok(())
}

/// Whether the definition is declared `exit`.
fn is_declared_exit(definition: &Definition) -> bool
    ensures { MatchBool result (declared_of (definition_view definition.now) ≡ Exit)
        (declared_of (definition_view definition.now) ≡ NoExit) }
{
    match definition.functionality {
        Functionality::Exit => true,
        Functionality::NoExit => false,
    }
}
