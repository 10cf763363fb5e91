//! A definition with those around it.
ghost use Rattle.std.specs.Prelude.{◌≡◌, ◌∷◌, ℕ, IfOk, IfSome, map};
ghost use Rattle.lotos_text.specs.AstOf.{definition_view};
ghost use Rattle.lotos_check.specs.Scope.{Scope, definition_in_scope};
ghost use Rattle.lotos_explain.specs.EnclosingDefinitions.{AreScopesInAny, AreScopesOf};
ghost use Rattle.lotos_explain.specs.FunctionalityCauses.{IsEnclosing};

use crate::similar_processes::calls_at;
use lotos_text::{Definition, Specification};
use std::alloc::{AllocError, Global};

/// The first definition whose name has the offset, or whose body has a call with the offset, and then those around it,
/// the nearest first. Their `where`s are visible in its body.
pub(crate) fn scopes_at<'a>(
    alloc: Global,
    specification: &'a Specification,
    at: usize,
) -> Result<Option<Vec<&'a Definition>>, AllocError>
    ensures { IfOk result (λ found. IfSome found (λ scopes.
        AreScopesOf (definition_view specification.now.whole)
        (map (λ d. definition_view d.now) scopes.items))) }
{
    scopes_in_definition(alloc, &[], &specification.whole, at)
}

/// Such definitions, if it is this one or one inside it. `outer` are the definitions around it, the nearest first.
fn scopes_in_definition<'a>(
    alloc: Global,
    outer: &[&'a Definition],
    definition: &'a Definition,
    at: usize,
) -> Result<Option<Vec<&'a Definition>>, AllocError>
    ensures { (scope : Scope) (first : ℕ) →
        IsEnclosing (map (λ d. definition_view d.now) outer.now) scope →
        IfOk result (λ found. IfSome found (λ scopes.
        AreScopesInAny (definition_in_scope scope first (definition_view definition.now))
        (map (λ d. definition_view d.now) scopes.items))) }
{
    let scopes = scopes_inside(alloc, outer, definition)?;
    if definition.name.at == at || calls_at(&definition.body, at) {
        return Ok(Some(scopes));
    }
    for inner in &definition.inner {
        if let Some(found) = scopes_in_definition(alloc, scopes.as_slice(), inner, at)? {
            return Ok(Some(found));
        }
    }
    Ok(None)
}

/// The definition, and then those around it.
fn scopes_inside<'a>(
    alloc: Global,
    outer: &[&'a Definition],
    definition: &'a Definition,
) -> Result<Vec<&'a Definition>, AllocError>
    ensures { IfOk result (λ scopes. map (λ d. definition_view d.now) scopes.items
        ≡ definition_view definition.now ∷ map (λ d. definition_view d.now) outer.now) }
{
    let mut scopes = Vec::new(alloc);
    scopes.push(definition)?;
    for one in outer {
        scopes.push(*one)?;
    }
    Ok(scopes)
}
