//! The resolution of one body: calls by number, its functionality, and its first fault in the order of the text.
ghost use Rattle.std.specs.Prelude.{◌≡◌, List, IfErr, IfOk, OnOk, MatchResult, option_map};
ghost use Rattle.lotos_text.specs.AstView.{call as plain_call};
ghost use Rattle.lotos_text.specs.AstOf.{behaviour_view, sync_view};
ghost use Rattle.lotos_check.specs.NameLists.{Name as AnyName};
ghost use Rattle.lotos_check.specs.Scope.{Scope};
ghost use Rattle.lotos_check.specs.Flat.{action_of};
ghost use Rattle.lotos_check.specs.ProcessScopes.{HasNames, IsScopeStack};
ghost use Rattle.lotos_check.specs.Resolution.{AreSyncGatesDeclared, IsActionDeclared, IsNameFault, IsResolved, IsSyncSet, IsUndeclaredAction, IsUndeclaredInSync};

use crate::fault::CheckFault;
use crate::gate_scope::{add_gates, check_declared};
use crate::name_lists::{copy_names, name_set};
use crate::process_scope::{Binding, find_binding};
use crate::resolved::Code;
use crate::resolved_body::{
    ResolvedBody, box_code, make_choice, make_disable, make_enable, make_hide, make_leaf,
    make_parallel, make_prefix,
};
use indexmap::{IndexMap, IndexSet};
use lotos_text::{Action, Behaviour, Functionality, Name, Placed, SyncSet};
use std::alloc::Global;

/// Resolves a behaviour, given the visible processes and the gates in scope. Fails at the first name in the order of
/// the text that breaks a rule: with E22 or E23 at a call, with E21 at a gate. Unless it fails, the gates in scope are
/// unchanged.
// Calls by number, the functionality and the first `>>` whose left operand never terminates are found in one pass, so
// that no name is looked up twice. The functionality is compared afterwards.
pub(crate) fn resolve<'a>(
    alloc: Global,
    scopes: &[IndexMap<&'a str, Binding<'a>>],
    gates_in_scope: &mut IndexSet<&'a str>,
    behaviour: &'a Behaviour,
) -> Result<ResolvedBody, CheckFault>
    ensures resolved { (scope : Scope) (gates : List AnyName) →
        IsScopeStack (λ k. k.now) scopes.now scope → HasNames (λ k. k.now) gates_in_scope.old.keys gates →
        MatchResult result (IsResolved scope gates (behaviour_view behaviour.now))
        (IsNameFault scope gates (behaviour_view behaviour.now)) }
    ensures declared { OnOk result (gates_in_scope.new.keys ≡ gates_in_scope.old.keys) }
{
    match behaviour {
        Behaviour::Stop => Ok(make_leaf(alloc, Code::Stop, Functionality::NoExit)?),
        Behaviour::Exit => Ok(make_leaf(alloc, Code::Exit, Functionality::Exit)?),
        Behaviour::Prefix { action, body } => {
            let name = resolve_action(alloc, gates_in_scope, action)?;
            let inner = resolve(alloc, scopes, gates_in_scope, body)?;
            Ok(make_prefix(alloc, name, inner)?)
        }
        Behaviour::Choice { left, right } => {
            let first = resolve(alloc, scopes, gates_in_scope, left)?;
            let second = resolve(alloc, scopes, gates_in_scope, right)?;
            Ok(make_choice(alloc, first, second)?)
        }
        Behaviour::Par { left, sync, right } => {
            let first = resolve(alloc, scopes, gates_in_scope, left)?;
            let set = resolve_sync(alloc, gates_in_scope, sync)?;
            let second = resolve(alloc, scopes, gates_in_scope, right)?;
            Ok(make_parallel(alloc, first, set, second)?)
        }
        Behaviour::Hide { gates, body } => {
            let before = gates_in_scope.len();
            add_gates(gates_in_scope, gates.as_slice())?;
            let inner = resolve(alloc, scopes, gates_in_scope, body)?;
            gates_in_scope.truncate(before);
            Ok(make_hide(alloc, gates.as_slice(), inner)?)
        }
        Behaviour::Enable { left, at, right } => {
            let first = resolve(alloc, scopes, gates_in_scope, left)?;
            let second = resolve(alloc, scopes, gates_in_scope, right)?;
            Ok(make_enable(alloc, first, *at, second)?)
        }
        Behaviour::Disable { left, right } => {
            let first = resolve(alloc, scopes, gates_in_scope, left)?;
            let second = resolve(alloc, scopes, gates_in_scope, right)?;
            Ok(make_disable(alloc, first, second)?)
        }
        Behaviour::Call { name, gates } => resolve_call(
            alloc,
            scopes,
            gates_in_scope,
            name,
            gates.as_slice(),
        ),
    }
}

/// The gate of an action; `None` for the internal one. Fails with E21 if the gate is not in scope.
fn resolve_action(
    alloc: Global,
    gates_in_scope: &IndexSet<&str>,
    action: &Action,
) -> Result<Option<Name>, CheckFault>
    ensures name { IfOk result (λ a. a ≡ action_of action.now) }
    ensures declared { IfOk result (λ _. (gates : List AnyName) →
        HasNames (λ k. k.now) gates_in_scope.now.keys gates → IsActionDeclared gates action.now) }
    ensures undeclared { IfErr result (λ fault. (gates : List AnyName) →
        HasNames (λ k. k.now) gates_in_scope.now.keys gates → IsUndeclaredAction gates action.now fault) }
{
    match action {
        Action::Internal => Ok(None),
        Action::Gate(gate) => {
            if !gates_in_scope.contains(gate.name.text()) {
                return Err(CheckFault::E21(gate.copy(alloc)?));
            }
            let name = gate.name.copy(alloc)?;
            Ok(Some(name))
        }
    }
}

/// The gates on which both sides synchronize, as a set; `None` for all gates. Fails with E21 at a gate that is not in
/// scope.
fn resolve_sync(
    alloc: Global,
    gates_in_scope: &IndexSet<&str>,
    sync: &SyncSet,
) -> Result<Option<Vec<Name>>, CheckFault>
    ensures set { IfOk result (λ s. IsSyncSet (option_map (λ v. v.items) s) (sync_view sync.now)) }
    ensures declared { IfOk result (λ _. (gates : List AnyName) →
        HasNames (λ k. k.now) gates_in_scope.now.keys gates →
        AreSyncGatesDeclared gates (sync_view sync.now)) }
    ensures undeclared { IfErr result (λ fault. (gates : List AnyName) →
        HasNames (λ k. k.now) gates_in_scope.now.keys gates →
        IsUndeclaredInSync gates (sync_view sync.now) fault) }
{
    match sync {
        SyncSet::All => Ok(None),
        SyncSet::Gates(gates) => {
            check_declared(alloc, gates_in_scope, gates.as_slice())?;
            let set = name_set(alloc, gates.as_slice())?;
            Ok(Some(set))
        }
    }
}

/// A call. Fails with E22 if no process with the name is visible, with E23 if its definition has another number of
/// gates, and with E21 at a gate that is not in scope.
fn resolve_call<'a>(
    alloc: Global,
    scopes: &[IndexMap<&'a str, Binding<'a>>],
    gates_in_scope: &IndexSet<&'a str>,
    name: &Placed,
    actuals: &[Placed],
) -> Result<ResolvedBody, CheckFault>
    ensures { (scope : Scope) (gates : List AnyName) → IsScopeStack (λ k. k.now) scopes.now scope →
        HasNames (λ k. k.now) gates_in_scope.now.keys gates → MatchResult result
        (IsResolved scope gates (plain_call name.now actuals.now))
        (IsNameFault scope gates (plain_call name.now actuals.now)) }
{
    let Some(binding) = find_binding(scopes, name.name.text()) else {
        return Err(CheckFault::E22(name.copy(alloc)?));
    };
    let formals = binding.definition.formals.as_slice();
    let formal = formals.len();
    if formal != actuals.len() {
        return Err(CheckFault::E23 {
            call: name.copy(alloc)?,
            formal,
            actual: actuals.len(),
        });
    }
    check_declared(alloc, gates_in_scope, actuals)?;
    let gates = copy_names(alloc, actuals)?;
    let process = binding.process;
    let code = box_code(alloc, Code::Call { process, gates })?;
    Ok(ResolvedBody {
        code,
        functionality: binding.definition.functionality,
        never_exits: None,
    })
}
