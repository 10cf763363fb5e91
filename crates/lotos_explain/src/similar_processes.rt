//! A process that could be meant where a process that is not visible is called.
ghost use Rattle.std.specs.Prelude.{◌≡◌, ℕ, List, IfOk, IfSome, true};
ghost use Rattle.lotos_text.specs.AstOf.{behaviour_view, definition_view};
ghost use Rattle.lotos_check.specs.NameLists.{Name as AnyName};
ghost use Rattle.lotos_check.specs.Scope.{Scope, definition_in_scope};
ghost use Rattle.lotos_explain.specs.SimilarNames.{CallsAt, IsBound, IsBoundInAny, IsProcessVisibleAt};

use crate::similar_names::similar_process;
use lotos_text::{Behaviour, Definition, Name, Specification};
use std::alloc::{AllocError, Global};

/// A process whose name is similar to this one, and that is visible where the call whose name has the offset is. There
/// may be one although none is returned.
///
/// # Errors
///
/// If an allocation fails.
pub fn similar_process_in_scope<'a>(
    alloc: Global,
    specification: &'a Specification,
    at: usize,
    name: &str,
) -> Result<Option<&'a Name>, AllocError>
    ensures { IfOk result (λ found. IfSome found
        (λ n. IsProcessVisibleAt (definition_view specification.now.whole) at n.now)) }
{
    process_in_definition(alloc, &specification.whole, at, name, None)
}

/// Of `best`, which is a process visible around the definition, and of those visible at the call with the offset, the
/// most similar one; none if the body of the definition and of those inside it have no such call.
fn process_in_definition<'a>(
    alloc: Global,
    definition: &'a Definition,
    at: usize,
    name: &str,
    best: Option<&'a Name>,
) -> Result<Option<&'a Name>, AllocError>
    ensures { (scope : Scope) (first : ℕ) → IfSome best.entry (λ n. IsBound scope n.now) →
        IfOk result (λ found. IfSome found
        (λ n. IsBoundInAny (definition_in_scope scope first (definition_view definition.now)) at n.now)) }
{
    let best = similar_process(alloc, name, best, definition.inner.as_slice())?;
    if calls_at(&definition.body, at) {
        return Ok(best);
    }
    for inner in &definition.inner {
        if let Some(found) = process_in_definition(alloc, inner, at, name, best)? {
            return Ok(Some(found));
        }
    }
    Ok(None)
}

/// Whether the behaviour contains a call whose name has the offset.
pub(crate) fn calls_at(behaviour: &Behaviour, at: usize) -> bool
    ensures { (around : List AnyName) → result ≡ true → CallsAt around (behaviour_view behaviour.now) at }
{
    match behaviour {
        Behaviour::Stop | Behaviour::Exit => false,
        Behaviour::Call { name, .. } => name.at == at,
        Behaviour::Prefix { body, .. } | Behaviour::Hide { body, .. } => calls_at(body, at),
        Behaviour::Par { left, right, .. }
        | Behaviour::Choice { left, right }
        | Behaviour::Enable { left, right, .. }
        | Behaviour::Disable { left, right } => calls_at(left, at) || calls_at(right, at),
    }
}
