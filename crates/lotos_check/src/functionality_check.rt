//! The functionality of each definition against the declared one, and of the left operands of `>>`.
ghost use Rattle.std.specs.Prelude.{◌≡◌, IfErr, IfOk, length, map};
ghost use Rattle.lotos_text.specs.AstOf.{definition_view};
ghost use Rattle.lotos_check.specs.Flat.{Pairwise};
ghost use Rattle.lotos_check.specs.FunctionalityRules.{HasDeclaredFunctionality, IsFunctionalityFaultIn, IsFunctionalityFault};

use crate::fault::CheckFault;
use crate::resolved_body::ResolvedBody;
use lotos_text::Definition;
use std::alloc::Global;

/// Compares the resolution of each body with its definition; both lists are in the order of the text. Returns the first
/// fault: E25 if the declared functionality is not that of the body, E26 if the left operand of a `>>` has noexit.
pub(crate) fn check_functionality(
    alloc: Global,
    definitions: &[&Definition],
    found: &[ResolvedBody],
) -> Result<(), CheckFault>
    requires { length definitions.now ≡ length found.now }
    ensures typed { IfOk result
        (λ _. Pairwise HasDeclaredFunctionality
        (map (λ d. definition_view d.now) definitions.now) found.now) }
    ensures functionality_fault { IfErr result
        (IsFunctionalityFaultIn (map (λ d. definition_view d.now) definitions.now) found.now) }
{
    for index in 0..found.len() {
        check_body(alloc, definitions[index], &found[index])?;
    }
    Ok(())
}

/// Compares the resolution of one body with its definition.
fn check_body(
    alloc: Global,
    definition: &Definition,
    found: &ResolvedBody,
) -> Result<(), CheckFault>
    ensures typed { IfOk result (λ _. HasDeclaredFunctionality (definition_view definition.now) found.now) }
    ensures functionality_fault { IfErr result
        (IsFunctionalityFault (definition_view definition.now) found.now) }
{
    if definition.functionality != found.functionality {
        return Err(CheckFault::E25 {
            name: definition.name.copy(alloc)?,
            declared: definition.functionality,
        });
    }
    match found.never_exits {
        Some(at) => Err(CheckFault::E26(at)),
        None => Ok(()),
    }
}
