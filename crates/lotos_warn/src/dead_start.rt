//! The warning about a behaviour of the specification that can do nothing.
ghost use Rattle.std.specs.Prelude.{◌≡◌, IfOk, MatchBool, OnOk};
ghost use Rattle.lotos_text.specs.AstOf.{behaviour_view, definition_view};
ghost use Rattle.lotos_text.specs.AstView.{stop};
ghost use Rattle.lotos_check.specs.CheckedView.{system_of};
ghost use Rattle.lotos_warn.specs.Additions.{Adds, IsDeadIn};
ghost use Rattle.lotos_warn.specs.LabelSets.{IsAlive, IsDead};

use crate::first_labels::{first_labels, has_none};
use crate::process_labels::process_labels;
use crate::warning::Warning;
use lotos_check::Checked;
use lotos_text::{Behaviour, Definition};
use std::alloc::{AllocError, Global};

/// Appends the warning about the specification if its behaviour is not `stop`, and can do nothing.
pub(crate) fn warn_if_dead(
    alloc: Global,
    whole: &Definition,
    system: &Checked,
    warnings: &mut Vec<Warning>,
) -> Result<(), AllocError>
    ensures { OnOk result (Adds warnings.old.items warnings.new.items
        (IsDeadIn (system_of system.now) (definition_view whole.now))) }
{
    if !is_stop(&whole.body) {
        if is_dead(alloc, system)? {
            let name = whole.name.copy(alloc)?;
            warnings.push(Warning::DeadStart(name))?;
        }
    }
    Ok(())
}

/// Whether the behaviour is `stop` itself.
fn is_stop(behaviour: &Behaviour) -> bool
    ensures { MatchBool result (behaviour_view behaviour.now ≡ stop)
        (behaviour_view behaviour.now ≡ stop → ⊥) }
{
    matches!(behaviour, Behaviour::Stop)
}

/// Whether the behaviour of the specification can do nothing.
fn is_dead(alloc: Global, system: &Checked) -> Result<bool, AllocError>
    ensures { IfOk result (λ dead.
        MatchBool dead (IsDead (system_of system.now)) (IsAlive (system_of system.now))) }
{
    let start = system.start();
    let known = process_labels(alloc, system)?;
    let labels = first_labels(alloc, start, system.processes(), known.as_slice())?;
    Ok(has_none(&labels))
}
