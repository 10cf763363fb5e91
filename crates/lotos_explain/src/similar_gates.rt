//! A gate that could be meant where a gate that is not in scope is used.
ghost use Rattle.std.specs.Prelude.{◌≡◌, ℕ, List, IfOk, IfSome, true};
ghost use Rattle.lotos_text.specs.AstOf.{behaviour_view, definition_view, sync_view};
ghost use Rattle.lotos_text.specs.AstView.{BehaviourView, par, prefix};
ghost use Rattle.lotos_check.specs.NameLists.{In, Name as AnyName};
ghost use Rattle.lotos_check.specs.Scope.{Scope, definition_in_scope};
ghost use Rattle.lotos_explain.specs.SimilarNames.{IsAmongAt, IsCallAt, IsGateInScopeAt, IsGateInScopeAtCall, IsInScopeAt, IsInScopeInAny, OccursAt, UsesGateAt};

use crate::similar_names::similar_gate;
use lotos_text::{Action, Behaviour, Definition, Name, Placed, Specification, SyncSet};
use std::alloc::{AllocError, Global};

/// Where a name occurs: the offset of a gate that is used, or of the name of a call.
#[derive(Clone, Copy)]
pub(crate) enum Occurrence {
    Gate(usize),
    Call(usize),
}

/// A gate whose name is similar to this one, and that is in scope where the gate with the offset is used. There may be
/// one although none is returned.
///
/// # Errors
///
/// If an allocation fails.
pub fn similar_gate_in_scope<'a>(
    alloc: Global,
    specification: &'a Specification,
    at: usize,
    name: &str,
) -> Result<Option<&'a Name>, AllocError>
    ensures { IfOk result (λ found. IfSome found
        (λ n. IsGateInScopeAt (definition_view specification.now.whole) at n.now)) }
{
    gate_in_definition(alloc, &specification.whole, Occurrence::Gate(at), name)
}

/// A gate whose name is similar to this one, or the same, and that is in scope at the call whose name has the offset.
/// There may be one although none is returned.
///
/// # Errors
///
/// If an allocation fails.
pub fn similar_gate_at_call<'a>(
    alloc: Global,
    specification: &'a Specification,
    at: usize,
    name: &str,
) -> Result<Option<&'a Name>, AllocError>
    ensures { IfOk result (λ found. IfSome found
        (λ n. IsGateInScopeAtCall (definition_view specification.now.whole) at n.now)) }
{
    gate_in_definition(alloc, &specification.whole, Occurrence::Call(at), name)
}

/// Such a gate, if the name occurs there in the body of the definition or of one inside it.
fn gate_in_definition<'a>(
    alloc: Global,
    definition: &'a Definition,
    place: Occurrence,
    name: &str,
) -> Result<Option<&'a Name>, AllocError>
    ensures { (scope : Scope) (first : ℕ) → IfOk result (λ found. IfSome found
        (λ n. IsInScopeInAny (definition_in_scope scope first (definition_view definition.now))
        place n.now)) }
{
    let best = similar_gate(alloc, name, None, definition.formals.as_slice())?;
    if let Some(found) = gate_in_behaviour(alloc, &definition.body, place, name, best)? {
        return Ok(Some(found));
    }
    for inner in &definition.inner {
        if let Some(found) = gate_in_definition(alloc, inner, place, name)? {
            return Ok(Some(found));
        }
    }
    Ok(None)
}

/// Of `best`, which is a gate in scope around the behaviour, and of those hidden around the part in which the name
/// occurs, the most similar one; none if there is no such part.
fn gate_in_behaviour<'a>(
    alloc: Global,
    behaviour: &'a Behaviour,
    place: Occurrence,
    name: &str,
    best: Option<&'a Name>,
) -> Result<Option<&'a Name>, AllocError>
    ensures { (around : List AnyName) → IfSome best.entry (λ n. In n.now around) →
        IfOk result (λ found. IfSome found
        (λ n. IsInScopeAt around (behaviour_view behaviour.now) place n.now)) }
{
    if occurs_in(behaviour, place) {
        return Ok(best);
    }
    match behaviour {
        Behaviour::Stop | Behaviour::Exit | Behaviour::Call { .. } => Ok(None),
        Behaviour::Prefix { body, .. } => gate_in_behaviour(alloc, body, place, name, best),
        Behaviour::Hide { gates, body } => {
            let best = similar_gate(alloc, name, best, gates.as_slice())?;
            gate_in_behaviour(alloc, body, place, name, best)
        }
        Behaviour::Par { left, right, .. }
        | Behaviour::Choice { left, right }
        | Behaviour::Enable { left, right, .. }
        | Behaviour::Disable { left, right } => {
            match gate_in_behaviour(alloc, left, place, name, best)? {
                Some(found) => Ok(Some(found)),
                None => gate_in_behaviour(alloc, right, place, name, best),
            }
        }
    }
}

/// Whether the name occurs there in the behaviour itself, and not only in a part of it.
fn occurs_in(behaviour: &Behaviour, place: Occurrence) -> bool
    ensures { result ≡ true → OccursAt (behaviour_view behaviour.now) place }
{
    match place {
        Occurrence::Gate(at) => uses_gate_at(behaviour, at),
        Occurrence::Call(at) => is_call_at(behaviour, at),
    }
}

/// Whether the behaviour is a call whose name has the offset.
fn is_call_at(behaviour: &Behaviour, at: usize) -> bool
    ensures { result ≡ true → IsCallAt (behaviour_view behaviour.now) at }
{
    match behaviour {
        Behaviour::Call { name, .. } => name.at == at,
        _ => false,
    }
}

/// Whether the behaviour itself uses a gate with the offset.
fn uses_gate_at(behaviour: &Behaviour, at: usize) -> bool
    ensures { result ≡ true → UsesGateAt (behaviour_view behaviour.now) at }
{
    match behaviour {
        Behaviour::Prefix { action, .. } => is_action_at(action, at),
        Behaviour::Par { sync, .. } => is_in_sync_at(sync, at),
        Behaviour::Call { gates, .. } => is_among_at(gates.as_slice(), at),
        Behaviour::Stop
        | Behaviour::Exit
        | Behaviour::Choice { .. }
        | Behaviour::Hide { .. }
        | Behaviour::Enable { .. }
        | Behaviour::Disable { .. } => false,
    }
}

/// Whether the action is a gate with the offset.
fn is_action_at(action: &Action, at: usize) -> bool
    ensures { (body : BehaviourView) → result ≡ true → UsesGateAt (prefix action.now body) at }
{
    match action {
        Action::Internal => false,
        Action::Gate(gate) => gate.at == at,
    }
}

/// Whether the list of a parallel composition has a gate with the offset.
fn is_in_sync_at(sync: &SyncSet, at: usize) -> bool
    ensures { (left right : BehaviourView) → result ≡ true →
        UsesGateAt (par left (sync_view sync.now) right) at }
{
    match sync {
        SyncSet::All => false,
        SyncSet::Gates(gates) => is_among_at(gates.as_slice(), at),
    }
}

/// Whether one of the gates has the offset.
pub(crate) fn is_among_at(gates: &[Placed], at: usize) -> bool
    ensures { result ≡ true → IsAmongAt gates.now at }
{
    for gate in gates {
        if gate.at == at {
            return true;
        }
    }
    false
}
