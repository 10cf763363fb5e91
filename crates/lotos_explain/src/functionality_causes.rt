//! What makes the functionality of a definition.
ghost use Rattle.std.specs.Prelude.{◌≡◌, ℕ, List, IfOk, IfSome, MatchOption, map};
ghost use Rattle.lotos_text.specs.AstView.{BehaviourView, DefinitionView, SyncView, call, choice, disable, par};
ghost use Rattle.lotos_text.specs.AstOf.{behaviour_view, definition_view, definitions_view};
ghost use Rattle.lotos_text.specs.declared.ast.Placed.{Placed as AnyPlaced};
ghost use Rattle.lotos_check.specs.Scope.{Declares, Scope};
ghost use Rattle.lotos_explain.specs.FunctionalityCauses.{HasCause, HasCauseAfter, IsBoundTo, IsCauseAt, IsDeclared, IsEnclosing, ends_of};
ghost use Rattle.lotos_explain.specs.EnclosingDefinitions.{AreScopesOf};

use crate::enclosing_definitions::scopes_at;
use lotos_text::{Behaviour, Definition, Functionality, Name, Placed, Specification};
use std::alloc::{AllocError, Global};

/// A behaviour without operands.
#[derive(Clone, Copy, Debug)]
pub enum Leaf<'a> {
    /// Inaction, `stop`.
    Stop,
    /// Successful termination, `exit`.
    Exit,
    /// A call, by its name.
    Call(&'a Placed),
}

/// The functionality of a behaviour, and a part without operands such that each part on the way to it has the same one.
#[derive(Clone, Copy, Debug)]
pub struct Cause<'a> {
    pub functionality: Functionality,
    pub leaf: Leaf<'a>,
    /// How many `stop` and `exit` the behaviour has before the leaf.
    pub before: usize,
}

/// What makes the functionality of the definition whose name has the offset. There may be a cause although none is
/// returned. Each call in the body is looked up among all visible processes.
///
/// # Errors
///
/// If an allocation fails.
pub fn functionality_cause<'a>(
    alloc: Global,
    specification: &'a Specification,
    at: usize,
) -> Result<Option<Cause<'a>>, AllocError>
    ensures { IfOk result (λ found. IfSome found
        (IsCauseAt (definition_view specification.now.whole) at)) }
{
    match scopes_at(alloc, specification, at)? {
        Some(scopes) => Ok(cause_of_first(scopes.as_slice(), at)),
        None => Ok(None),
    }
}

/// The cause of the first of the definitions, if its name has the offset. The others are those around it, the nearest
/// first.
fn cause_of_first<'a>(scopes: &[&'a Definition], at: usize) -> Option<Cause<'a>>
    ensures { (whole : DefinitionView) →
        AreScopesOf whole (map (λ d. definition_view d.now) scopes.now) → IfSome result (IsCauseAt whole at) }
{
    match scopes.first() {
        Some(definition) if definition.name.at == at => cause_in(scopes, &definition.body),
        _ => None,
    }
}

/// The cause of a behaviour; none if a call in it has no binding. `scopes` are the definitions whose `where`s are
/// visible, the nearest first.
fn cause_in<'a>(scopes: &[&'a Definition], behaviour: &'a Behaviour) -> Option<Cause<'a>>
    ensures { (scope : Scope) → IsEnclosing (map (λ d. definition_view d.now) scopes.now) scope →
        IfSome result (HasCause scope (behaviour_view behaviour.now)) }
{
    match behaviour {
        Behaviour::Stop => Some(Cause {
            functionality: Functionality::NoExit,
            leaf: Leaf::Stop,
            before: 0,
        }),
        Behaviour::Exit => Some(Cause {
            functionality: Functionality::Exit,
            leaf: Leaf::Exit,
            before: 0,
        }),
        Behaviour::Prefix { body, .. } | Behaviour::Hide { body, .. } => cause_in(scopes, body),
        Behaviour::Enable { left, right, .. } => cause_after(left, cause_in(scopes, right)),
        Behaviour::Choice { left, right } | Behaviour::Disable { left, right } => {
            let first = cause_in(scopes, left);
            let second = cause_after(left, cause_in(scopes, right));
            either_cause(first, second)
        }
        Behaviour::Par { left, right, .. } => {
            let first = cause_in(scopes, left);
            let second = cause_after(left, cause_in(scopes, right));
            both_cause(first, second)
        }
        Behaviour::Call { name, .. } => call_cause(scopes, name),
    }
}

/// The cause of a right operand, with the `stop` and `exit` of the left one before its leaf; none if there is none or
/// these are too many.
fn cause_after<'a>(left: &Behaviour, right: Option<Cause<'a>>) -> Option<Cause<'a>>
    ensures { (scope : Scope) (r : BehaviourView) → IfSome right.entry (HasCause scope r) →
        IfSome result (HasCauseAfter scope (behaviour_view left.now) r) }
{
    let cause = right?;
    let before = count_ends(left)?.checked_add(cause.before)?;
    Some(Cause {
        functionality: cause.functionality,
        leaf: cause.leaf,
        before,
    })
}

/// How many `stop` and `exit` the behaviour has; none if these are too many.
fn count_ends(behaviour: &Behaviour) -> Option<usize>
    ensures { IfSome result (λ n. n ≡ ends_of (behaviour_view behaviour.now)) }
{
    match behaviour {
        Behaviour::Stop | Behaviour::Exit => Some(1),
        Behaviour::Call { .. } => Some(0),
        Behaviour::Prefix { body, .. } | Behaviour::Hide { body, .. } => count_ends(body),
        Behaviour::Par { left, right, .. }
        | Behaviour::Choice { left, right }
        | Behaviour::Enable { left, right, .. }
        | Behaviour::Disable { left, right } => {
            let first = count_ends(left)?;
            let second = count_ends(right)?;
            first.checked_add(second)
        }
    }
}

/// The cause of a choice or a disabling, which has exit if either operand has exit.
fn either_cause<'a>(left: Option<Cause<'a>>, right: Option<Cause<'a>>) -> Option<Cause<'a>>
    ensures of_choice { (scope : Scope) (l r : BehaviourView) → IfSome left.entry (HasCause scope l) →
        IfSome right.entry (HasCauseAfter scope l r) → IfSome result (HasCause scope (choice l r)) }
    ensures of_disable { (scope : Scope) (l r : BehaviourView) → IfSome left.entry (HasCause scope l) →
        IfSome right.entry (HasCauseAfter scope l r) → IfSome result (HasCause scope (disable l r)) }
{
    let left = left?;
    let right = right?;
    match left.functionality {
        Functionality::Exit => Some(left),
        Functionality::NoExit => Some(right),
    }
}

/// The cause of a parallel composition, which has exit only if both operands have exit.
fn both_cause<'a>(left: Option<Cause<'a>>, right: Option<Cause<'a>>) -> Option<Cause<'a>>
    ensures { (scope : Scope) (l r : BehaviourView) (s : SyncView) → IfSome left.entry (HasCause scope l) →
        IfSome right.entry (HasCauseAfter scope l r) → IfSome result (HasCause scope (par l s r)) }
{
    let left = left?;
    let right = right?;
    match left.functionality {
        Functionality::Exit => Some(right),
        Functionality::NoExit => Some(left),
    }
}

/// The cause of a call: what its definition declares.
fn call_cause<'a>(scopes: &[&'a Definition], name: &'a Placed) -> Option<Cause<'a>>
    ensures { (scope : Scope) (gates : List AnyPlaced) →
        IsEnclosing (map (λ d. definition_view d.now) scopes.now) scope →
        IfSome result (HasCause scope (call name.now gates)) }
{
    let definition = find_definition(scopes, &name.name)?;
    Some(Cause {
        functionality: definition.functionality,
        leaf: Leaf::Call(name),
        before: 0,
    })
}

/// The definition that the name is bound to.
pub(crate) fn find_definition<'a>(scopes: &[&'a Definition], name: &Name) -> Option<&'a Definition>
    ensures { (scope : Scope) → IsEnclosing (map (λ d. definition_view d.now) scopes.now) scope →
        IfSome result (λ d. IsBoundTo scope name.now (definition_view d.now)) }
{
    match scopes.split_first() {
        None => None,
        Some((nearest, outer)) => match declared_in(nearest.inner.as_slice(), name) {
            Some(definition) => Some(definition),
            None => find_definition(outer, name),
        },
    }
}

/// The first of the definitions with the name.
fn declared_in<'a>(definitions: &'a [Definition], name: &Name) -> Option<&'a Definition>
    ensures { (first : ℕ) → MatchOption result
        ((k : ℕ) (d : DefinitionView) → Declares (definitions_view definitions.now) first name.now k d → ⊥)
        (λ d. IsDeclared (definitions_view definitions.now) first name.now (definition_view d.now)) }
{
    for definition in definitions {
        if definition.name.name == *name {
            return Some(definition);
        }
    }
    None
}
