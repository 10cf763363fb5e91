//! Specifications, checked ones and tables, retried after an allocation failure.
ghost use Rattle.std.specs.Prelude.{IfOk};
ghost use Rattle.lotos_text.specs.AstOf.{definition_view};
ghost use Rattle.lotos_check.specs.Acceptance.{IsAccepted};
ghost use Rattle.lotos_check.specs.CheckedView.{system_of};

use crate::retry_heap::{Heap, Stop};
use lotos_check::{AcceptFault, AcceptedText, CheckFault, Checked, accept, accept_pair, check};
use lotos_normal::NormalTable;
use lotos_terms::Table;
use lotos_text::{Specification, TextFault, parse};
use std::alloc::{AllocError, Global};

pub fn parsed(heap: &Heap, text: &str) -> Result<Specification, TextFault> {
    heap.retried(|| parse(heap.alloc, text.as_bytes()))
}

/// The checked specification, of one that is parsed.
pub fn checked(heap: &Heap, specification: &Specification) -> Result<Checked, CheckFault>
    ensures { IfOk result (λ system.
        IsAccepted (definition_view specification.now.whole) (system_of system)) }
{
    heap.retried(|| check(heap.alloc, specification))
}

/// The checked specification of a text.
pub fn accepted(heap: &Heap, text: &str) -> Result<Checked, AcceptFault> {
    Ok(heap.retried(|| accept(heap.alloc, text.as_bytes()))?.system)
}

/// The two specifications of a text, parsed and checked.
pub fn accepted_pair(heap: &Heap, text: &str) -> Result<(AcceptedText, AcceptedText), AcceptFault> {
    heap.retried(|| accept_pair(heap.alloc, text.as_bytes()))
}

/// The checked specification of a text with its first gate hidden.
pub fn hidden(heap: &Heap, text: &str) -> Result<Checked, Stop> {
    heap.retried(|| Ok(hide_first(heap.alloc, accepted(heap, text)?)?))
}

/// The specification with its first gate hidden.
fn hide_first(alloc: Global, system: Checked) -> Result<Checked, AllocError> {
    let mut gates = Vec::new(alloc);
    if let Some(gate) = system.gates().first() {
        gates.push(gate.copy(alloc)?)?;
    }
    system.with_hidden(alloc, gates.as_slice())
}

/// The table of a text.
pub fn table_of(heap: &Heap, text: &str) -> Result<Box<Table>, Stop> {
    heap.retried(|| {
        let table = Table::new(heap.alloc, accepted(heap, text)?)?;
        Ok(Box::new(heap.alloc, table)?)
    })
}

/// The normal table of a text.
pub fn normal_table_of(heap: &Heap, text: &str) -> Result<Box<NormalTable>, Stop> {
    heap.retried(|| {
        let table = NormalTable::new(heap.alloc, accepted(heap, text)?)?;
        Ok(Box::new(heap.alloc, table)?)
    })
}
