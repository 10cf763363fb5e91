//! Unguarded calls that go round.
ghost use Rattle.std.specs.Prelude.{◌≡◌, IfOk, IfSome, map};
ghost use Rattle.std.specs.List.{AllByRecursion};
ghost use Rattle.lotos_text.specs.AstOf.{behaviour_view, definition_view};
ghost use Rattle.lotos_text.specs.AstView.{DefinitionView};
ghost use Rattle.lotos_check.specs.Scope.{Scope};
ghost use Rattle.lotos_explain.specs.EnclosingDefinitions.{AreScopesOf};
ghost use Rattle.lotos_explain.specs.FunctionalityCauses.{IsBoundTo, IsEnclosing};
ghost use Rattle.lotos_explain.specs.UnguardedRings.{CallsUnguarded, IsUnguardedCall};

use crate::enclosing_definitions::scopes_at;
use crate::functionality_causes::find_definition;
use lotos_check::add_definitions;
use lotos_text::{Behaviour, Definition, Placed, Specification};
use std::alloc::{AllocError, Global};

/// An unguarded call: one under no prefix and not to the right of `>>`.
#[derive(Debug, Drop)]
pub struct UnguardedCall<'a> {
    /// The process whose body has the call.
    pub caller: &'a Placed,
    /// The name of the call.
    pub called: &'a Placed,
    /// The process that is called.
    pub callee: &'a Placed,
}

/// Unguarded calls that go round: each calls the process whose body has the next one, the last that of the first. They
/// are found from the process whose name has the offset on, among those with the numbers of `set`, as they are in
/// `lotos_check::CheckFault::E27`. There may be some although none are returned.
///
/// # Errors
///
/// If an allocation fails.
pub fn unguarded_ring<'a>(
    alloc: Global,
    specification: &'a Specification,
    at: usize,
    set: &[usize],
) -> Result<Vec<UnguardedCall<'a>>, AllocError>
    ensures { IfOk result (λ ring.
        AllByRecursion (IsUnguardedCall (definition_view specification.now.whole)) ring.items) }
{
    let members = names_of(alloc, specification, set)?;
    match offset_in_ring(alloc, specification, at, members.as_slice())? {
        Some(start) => ring_from(alloc, specification, start, members.as_slice()),
        None => Ok(Vec::new(alloc)),
    }
}

/// The offsets of the names of the processes with these numbers.
fn names_of(
    alloc: Global,
    specification: &Specification,
    set: &[usize],
) -> Result<Vec<usize>, AllocError> {
    let mut definitions = Vec::new(alloc);
    add_definitions(&specification.whole, &mut definitions)?;
    let mut names = Vec::new(alloc);
    for (index, definition) in definitions.iter().enumerate() {
        if index > 0 && set.contains(&(index - 1)) {
            names.push(definition.name.at)?;
        }
    }
    Ok(names)
}

/// The offset of the name of the process that is reached by as many unguarded calls as there are members: one of those
/// that come again.
fn offset_in_ring(
    alloc: Global,
    specification: &Specification,
    at: usize,
    members: &[usize],
) -> Result<Option<usize>, AllocError> {
    let mut from = at;
    for _ in 0..members.len() {
        match unguarded_call(alloc, specification, from, members)? {
            Some(call) => from = call.callee.at,
            None => return Ok(None),
        }
    }
    Ok(Some(from))
}

/// The calls from the process whose name has the offset on until it comes again; none if it does not come again.
fn ring_from<'a>(
    alloc: Global,
    specification: &'a Specification,
    start: usize,
    members: &[usize],
) -> Result<Vec<UnguardedCall<'a>>, AllocError>
    ensures { IfOk result (λ ring.
        AllByRecursion (IsUnguardedCall (definition_view specification.now.whole)) ring.items) }
{
    let mut calls = Vec::new(alloc);
    let mut from = start;
    for _ in 0..members.len() {
        match unguarded_call(alloc, specification, from, members)? {
            Some(call) => {
                from = call.callee.at;
                calls.push(call)?;
            }
            None => return Ok(Vec::new(alloc)),
        }
        if from == start {
            return Ok(calls);
        }
    }
    Ok(Vec::new(alloc))
}

/// The first unguarded call in the body of the process whose name has the offset that calls one of the members.
fn unguarded_call<'a>(
    alloc: Global,
    specification: &'a Specification,
    at: usize,
    members: &[usize],
) -> Result<Option<UnguardedCall<'a>>, AllocError>
    ensures { IfOk result (λ found. IfSome found
        (IsUnguardedCall (definition_view specification.now.whole))) }
{
    match scopes_at(alloc, specification, at)? {
        Some(scopes) => Ok(call_of_first(scopes.as_slice(), members)),
        None => Ok(None),
    }
}

/// The first such call in the body of the first of the definitions. The others are those around it, the nearest first.
fn call_of_first<'a>(scopes: &[&'a Definition], members: &[usize]) -> Option<UnguardedCall<'a>>
    ensures { (whole : DefinitionView) →
        AreScopesOf whole (map (λ d. definition_view d.now) scopes.now) →
        IfSome result (IsUnguardedCall whole) }
{
    let definition = scopes.first()?;
    let (called, callee) = call_in(scopes, &definition.body, members)?;
    Some(UnguardedCall {
        caller: &definition.name,
        called,
        callee: &callee.name,
    })
}

/// The first such call in the behaviour, and the definition that it is bound to.
fn call_in<'a>(
    scopes: &[&'a Definition],
    behaviour: &'a Behaviour,
    members: &[usize],
) -> Option<(&'a Placed, &'a Definition)>
    ensures { (scope : Scope) → IsEnclosing (map (λ d. definition_view d.now) scopes.now) scope →
        IfSome result (λ p. CallsUnguarded (behaviour_view behaviour.now) p.0.now ×
        IsBoundTo scope p.0.now.name (definition_view p.1.now)) }
{
    match behaviour {
        Behaviour::Stop | Behaviour::Exit | Behaviour::Prefix { .. } => None,
        Behaviour::Hide { body, .. } => call_in(scopes, body, members),
        Behaviour::Enable { left, .. } => call_in(scopes, left, members),
        Behaviour::Choice { left, right }
        | Behaviour::Par { left, right, .. }
        | Behaviour::Disable { left, right } => match call_in(scopes, left, members) {
            Some(found) => Some(found),
            None => call_in(scopes, right, members),
        },
        Behaviour::Call { name, .. } => {
            let definition = find_definition(scopes, &name.name)?;
            if members.contains(&definition.name.at) {
                Some((name, definition))
            } else {
                None
            }
        }
    }
}
