//! The gates that a behaviour uses and does not hide, and the gates of hidings that nothing inside uses.
ghost use Rattle.std.specs.Prelude.{◌∷◌, [], OnOk, map};
ghost use Rattle.lotos_text.specs.AstOf.{behaviour_view};
ghost use Rattle.lotos_warn.specs.Additions.{Adds, AddsNames, IsUnusedOfHiding};
ghost use Rattle.lotos_warn.specs.Warnings.{IsHidingWarning, UsesFree};

use crate::gate_names::{insert_action, insert_list, insert_names, insert_visible};
use crate::warning::Warning;
use indexmap::IndexSet;
use lotos_text::{Behaviour, Placed};
use std::alloc::{AllocError, Global};

/// Adds the gates that the behaviour uses: in a prefix, in a call or in the list of a parallel composition, and not
/// hidden there. Appends the warnings about the lists of hidings in it.
pub(crate) fn add_used<'a>(
    alloc: Global,
    behaviour: &'a Behaviour,
    into: &mut IndexSet<&'a str>,
    warnings: &mut Vec<Warning>,
) -> Result<(), AllocError>
    ensures uses { OnOk result (AddsNames (λ k. k.now) into.old.keys into.new.keys
        (UsesFree (behaviour_view behaviour.now))) }
    ensures warns { OnOk result (Adds warnings.old.items warnings.new.items
        (IsHidingWarning (behaviour_view behaviour.now))) }
{
    match behaviour {
        Behaviour::Stop | Behaviour::Exit => Ok(()),
        Behaviour::Prefix { action, body } => {
            insert_action(into, action)?;
            add_used(alloc, body, into, warnings)
        }
        Behaviour::Choice { left, right }
        | Behaviour::Enable { left, right, .. }
        | Behaviour::Disable { left, right } => {
            add_used(alloc, left, into, warnings)?;
            add_used(alloc, right, into, warnings)
        }
        Behaviour::Par { left, sync, right } => {
            add_used(alloc, left, into, warnings)?;
            insert_list(into, sync)?;
            add_used(alloc, right, into, warnings)
        }
        Behaviour::Hide { gates, body } => {
            let mut inside = IndexSet::new(alloc);
            add_used(alloc, body, &mut inside, warnings)?;
            warn_of_unused_hidden(alloc, gates.as_slice(), &inside, warnings)?;
            insert_visible(alloc, into, inside.as_slice(), gates.as_slice())
        }
        Behaviour::Call { gates, .. } => insert_names(into, gates.as_slice()),
    }
}

/// Appends the warnings about the list of a hiding, given the gates that the behaviour inside uses.
fn warn_of_unused_hidden(
    alloc: Global,
    gates: &[Placed],
    used: &IndexSet<&str>,
    warnings: &mut Vec<Warning>,
) -> Result<(), AllocError>
    ensures { OnOk result (Adds warnings.old.items warnings.new.items
        (IsUnusedOfHiding (map (λ k. k.now) used.now.keys) gates.now)) }
{
    for gate in gates {
        warn_if_unused_hidden(alloc, gate, used, warnings)?;
    }
    Ok(())
}

/// Appends the warning about a gate of the list of a hiding if it is not among the used ones.
fn warn_if_unused_hidden(
    alloc: Global,
    gate: &Placed,
    used: &IndexSet<&str>,
    warnings: &mut Vec<Warning>,
) -> Result<(), AllocError>
    ensures { OnOk result (Adds warnings.old.items warnings.new.items
        (IsUnusedOfHiding (map (λ k. k.now) used.now.keys) (gate.now ∷ []))) }
{
    if !used.contains(gate.name.text()) {
        let gate = gate.copy(alloc)?;
        warnings.push(Warning::UnusedHidden(gate))?;
    }
    Ok(())
}
