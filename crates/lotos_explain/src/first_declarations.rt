//! Where a name is declared first that is declared twice.
ghost use Rattle.std.specs.Prelude.{◌≡◌, IfOk, IfSome, true};
ghost use Rattle.lotos_text.specs.AstOf.{definition_view, definitions_view};
ghost use Rattle.lotos_check.specs.Scope.{declared_names};
ghost use Rattle.lotos_explain.specs.FirstDeclarations.{IsFirstGate, IsFirstProcess};
ghost use Rattle.lotos_explain.specs.InnerGates.{IsNamedAt};
ghost use Rattle.lotos_explain.specs.SimilarNames.{IsAmongAt};

use crate::inner_gates::offset_of;
use crate::similar_gates::is_among_at;
use lotos_check::add_definitions;
use lotos_text::{Definition, Placed, Specification};
use std::alloc::{AllocError, Global};

/// The offset of the first gate that has this name, in a list of formal gates in which this gate is. There may be one
/// although none is returned.
///
/// # Errors
///
/// If an allocation fails.
pub fn first_gate(
    alloc: Global,
    specification: &Specification,
    gate: &Placed,
) -> Result<Option<usize>, AllocError>
    ensures { IfOk result (λ found. IfSome found
        (IsFirstGate (definition_view specification.now.whole) gate.now)) }
{
    let mut definitions = Vec::new(alloc);
    add_definitions(&specification.whole, &mut definitions)?;
    for definition in &definitions {
        if is_among_at(definition.formals.as_slice(), gate.at) {
            return Ok(offset_of(definition.formals.as_slice(), gate.name.text()));
        }
    }
    Ok(None)
}

/// The offset of the first process that has this name, in a `where` that declares this one. There may be one although
/// none is returned.
///
/// # Errors
///
/// If an allocation fails.
pub fn first_process(
    alloc: Global,
    specification: &Specification,
    process: &Placed,
) -> Result<Option<usize>, AllocError>
    ensures { IfOk result (λ found. IfSome found
        (IsFirstProcess (definition_view specification.now.whole) process.now)) }
{
    let mut definitions = Vec::new(alloc);
    add_definitions(&specification.whole, &mut definitions)?;
    for definition in &definitions {
        if declares_at(definition.inner.as_slice(), process.at) {
            return Ok(declared_first(definition.inner.as_slice(), process));
        }
    }
    Ok(None)
}

/// Whether the name of one of the definitions has the offset.
fn declares_at(definitions: &[Definition], at: usize) -> bool
    ensures { result ≡ true → IsAmongAt (declared_names (definitions_view definitions.now)) at }
{
    for definition in definitions {
        if definition.name.at == at {
            return true;
        }
    }
    false
}

/// The offset of the first of the definitions that has the name.
fn declared_first(definitions: &[Definition], process: &Placed) -> Option<usize>
    ensures { IfSome result (IsNamedAt (declared_names (definitions_view definitions.now)) process.now.name) }
{
    for definition in definitions {
        if definition.name.name == process.name {
            return Some(definition.name.at);
        }
    }
    None
}
