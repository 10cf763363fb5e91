//! The static check: all passes over a specification.
ghost use Rattle.std.specs.Prelude.{◌≡◌, ◌<◌, ℕ, IfErr, IfOk, length, map};
ghost use Rattle.lotos_text.specs.OffsetsInside.{IsInside};
ghost use Rattle.lotos_text.specs.AstOf.{definition_view};
ghost use Rattle.lotos_check.specs.Acceptance.{AreRanks, IsAccepted, IsStaticFault, IsFlattened, IsNotAccepted, IsProcessOfBody};
ghost use Rattle.lotos_check.specs.FaultOffsets.{IsOffsetWithin};
ghost use Rattle.lotos_check.specs.CheckedView.{process_of, ranks_of, system_of};

use crate::body_resolution::resolve_specification;
use crate::checked::Checked;
use crate::definition_order::add_definitions;
use crate::duplicates::check_distinct;
use crate::fault::CheckFault;
use crate::functionality_check::check_functionality;
use crate::guardedness::{Ranking, rank_processes};
use crate::name_lists::copy_names;
use crate::resolved::{Code, Process};
use crate::resolved_body::{ResolvedBody, box_code};
use lotos_text::{Definition, Specification};
use std::alloc::{AllocError, Global};

/// Checks the static rules of a specification, and returns it with its processes numbered and its calls by number.
///
/// # Errors
///
/// Four passes are made, and the first that finds a fault returns the one that is first in the text: E20 and E24; E21
/// to E23; E25 and E26; E27. E99 if an allocation fails.
pub fn check(alloc: Global, specification: &Specification) -> Result<Checked, CheckFault>
    ensures faulty { IfErr result (IsStaticFault (definition_view specification.now.whole)) }
    ensures not_accepted { IfErr result (IsNotAccepted (definition_view specification.now.whole)) }
    ensures inside { IfErr result (λ fault. (n : ℕ) → IsInside n (definition_view specification.now.whole) →
        IsOffsetWithin n fault) }
    ensures accepted { IfOk result (λ c. IsAccepted (definition_view specification.now.whole) (system_of c)) }
    ensures ranks { IfOk result (λ c. AreRanks (system_of c).processes (ranks_of c)) }
{
    let whole = &specification.whole;
    check_distinct(alloc, whole)?;
    let mut definitions = Vec::new(alloc);
    add_definitions(whole, &mut definitions)?;
    let found = resolve_specification(alloc, whole)?;
    check_functionality(alloc, definitions.as_slice(), found.as_slice())?;
    let gates = copy_names(alloc, whole.formals.as_slice())?;
    let (start, processes) = flatten(alloc, definitions.as_slice(), found)?;
    match rank_processes(alloc, processes.as_slice())? {
        Ranking::Guarded(ranks) => Ok(Checked {
            gates,
            start,
            processes,
            ranks,
        }),
        Ranking::Unguarded(set) => Err(CheckFault::E27 {
            name: definitions[set[0] + 1].name.copy(alloc)?,
            set,
        }),
    }
}

/// The code of the first definition, which is the specification, and the processes of the others.
pub(crate) fn flatten(
    alloc: Global,
    definitions: &[&Definition],
    found: Vec<ResolvedBody>,
) -> Result<(Box<Code>, Vec<Process>), AllocError>
    requires some { 0 < length found.items }
    requires sized { length definitions.now ≡ length found.items }
    ensures { IfOk result
        (λ p. IsFlattened (map (λ d. definition_view d.now) definitions.now) found.items
        p.0.value p.1.items) }
{
    let mut start = box_code(alloc, Code::Stop)?;
    let mut processes = Vec::new(alloc);
    let mut index = 0;
    for one in found {
        if index == 0 {
            start = one.code;
        } else {
            processes.push(make_process(alloc, definitions[index], one)?)?;
        }
        index += 1;
    }
    Ok((start, processes))
}

/// The process of a definition, given the resolution of its body.
fn make_process(
    alloc: Global,
    definition: &Definition,
    found: ResolvedBody,
) -> Result<Process, AllocError>
    ensures { IfOk result (λ process.
        IsProcessOfBody (definition_view definition.now) found (process_of process)) }
{
    let name = definition.name.name.copy(alloc)?;
    let formals = copy_names(alloc, definition.formals.as_slice())?;
    Ok(Process {
        name,
        formals,
        functionality: definition.functionality,
        body: Box::into_inner(found.code),
    })
}
