//! The definition that a call is bound to.
ghost use Rattle.std.specs.Prelude.{IfOk, IfSome, map};
ghost use Rattle.lotos_text.specs.AstOf.{definition_view};
ghost use Rattle.lotos_text.specs.AstView.{DefinitionView};
ghost use Rattle.lotos_explain.specs.CalledDefinitions.{IsCalledAt};
ghost use Rattle.lotos_explain.specs.EnclosingDefinitions.{AreScopesOf};

use crate::enclosing_definitions::scopes_at;
use crate::functionality_causes::find_definition;
use crate::similar_processes::calls_at;
use lotos_text::{Definition, Placed, Specification};
use std::alloc::{AllocError, Global};

/// The definition that the name is bound to at the call that has its offset. There may be one although none is returned.
///
/// # Errors
///
/// If an allocation fails.
pub fn called_definition<'a>(
    alloc: Global,
    specification: &'a Specification,
    called: &Placed,
) -> Result<Option<&'a Definition>, AllocError>
    ensures { IfOk result (λ found. IfSome found
        (λ d. IsCalledAt (definition_view specification.now.whole) called.now (definition_view d.now))) }
{
    match scopes_at(alloc, specification, called.at)? {
        Some(scopes) => Ok(called_by_first(scopes.as_slice(), called)),
        None => Ok(None),
    }
}

/// Such a definition, if the call is in the body of the first of these. The others are those around it, the nearest
/// first.
fn called_by_first<'a>(scopes: &[&'a Definition], called: &Placed) -> Option<&'a Definition>
    ensures { (whole : DefinitionView) →
        AreScopesOf whole (map (λ d. definition_view d.now) scopes.now) →
        IfSome result (λ d. IsCalledAt whole called.now (definition_view d.now)) }
{
    match scopes.first() {
        Some(definition) if calls_at(&definition.body, called.at) => {
            find_definition(scopes, &called.name)
        }
        _ => None,
    }
}
