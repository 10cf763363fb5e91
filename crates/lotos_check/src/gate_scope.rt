//! The gates in scope at a point of a body: the formal ones, and those hidden around it.
//!
//! The set keeps the order of insertion. A hide form appends the gates that are not yet in scope, and where it ends the
//! set is truncated to those before.
ghost use Rattle.std.specs.Prelude.{◌≡◌, ◌++◌, ◌↔◌, ◌≤◌, List, OnOk, IfOk, IfErr, IsTrue, length, take};
ghost use Rattle.lotos_text.specs.declared.ast.Placed.{Placed as AnyPlaced};
ghost use Rattle.lotos_check.specs.NameLists.{In, Name, texts};
ghost use Rattle.lotos_check.specs.ProcessScopes.{HasNames};
ghost use Rattle.lotos_check.specs.Resolution.{IsUndeclaredGate};

use crate::fault::CheckFault;
use indexmap::IndexSet;
use lotos_text::Placed;
use std::alloc::{AllocError, Global};

/// Adds the gates of a list to those in scope, after them.
pub(crate) fn add_gates<'a>(
    scope: &mut IndexSet<&'a str>,
    gates: &'a [Placed],
) -> Result<(), AllocError>
    ensures added { OnOk result ((names : List Name) → HasNames (λ k. k.now) scope.old.keys names →
        HasNames (λ k. k.now) scope.new.keys (texts gates.now ++ names)) }
    ensures before { OnOk result (take (length scope.old.keys) scope.new.keys ≡ scope.old.keys) }
{
    for gate in gates {
        scope.insert(gate.name.text())?;
    }
    Ok(())
}

/// Fails with E21 at the first of the gates that is not in scope.
pub(crate) fn check_declared(
    alloc: Global,
    scope: &IndexSet<&str>,
    gates: &[Placed],
) -> Result<(), CheckFault>
    ensures declared { IfOk result (λ _. (names : List Name) →
        HasNames (λ k. k.now) scope.now.keys names → (g : AnyPlaced) → In g gates.now →
        In g.name names) }
    ensures undeclared { IfErr result (λ fault. (names : List Name) →
        HasNames (λ k. k.now) scope.now.keys names → IsUndeclaredGate names gates.now fault) }
{
    for gate in gates {
        if !scope.contains(gate.name.text()) {
            return Err(CheckFault::E21(gate.copy(alloc)?));
        }
    }
    Ok(())
}
