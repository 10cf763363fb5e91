//! Internal steps that a hiding passes on or makes.
ghost use Rattle.std.specs.Prelude.{◌≡◌, ◌<◌, ◌⊎◌, ℕ, IfOk, MatchOption, length};
ghost use Rattle.lotos_check.specs.Guard.{IsAscending};
ghost use Rattle.lotos_check.specs.NameLists.{In};
ghost use Rattle.lotos_store.specs.declared.label.Label.TheVariants as labels;
ghost use Rattle.lotos_terms.specs.TableView.{Grows, IsSoundView};
ghost use Rattle.lotos_origins.specs.OriginSearch.{IsHiddenStep, LeadsBy, LeadsInternally};

use crate::internal_steps::has_internal_step;
use crate::origin::Origin;
use crate::origin_search::Finding;
use lotos_normal::NormalTable;
use lotos_store::{Gate, Label, Step, Term, is_listed};
use std::alloc::AllocError;

/// The internal step from the body of a hiding to the target, or the first of the hidden gates with a step there. One
/// of the two is there.
pub(crate) fn look_in_hiding(
    table: &mut NormalTable,
    gates: &[Gate],
    body: Term,
    target: Term,
) -> Result<Finding, AllocError>
    requires ascends { IsAscending gates.now }
    requires body { body < length table.old.terms }
    requires some { (LeadsInternally table.old body target) ⊎
        ((g : ℕ) × In g gates.now × LeadsBy table.old (labels.Gate g) body target) }
    ensures grows { Grows table.old table.new }
    ensures sound { IsSoundView table.new }
    ensures found { IfOk result (IsHiddenStep table.new gates.now body target) }
{
    let steps = table.successors(body)?;
    if has_internal_step(steps, target) {
        return Ok(Finding::Inner {
            from: body,
            to: target,
        });
    }
    match first_hidden(steps, gates, target) {
        Some(gate) => Ok(Finding::Made(Origin::Hidden(gate))),
        None => unreachable!(),
    }
}

/// The gate of the first step that leads to the target and has a gate of the list.
fn first_hidden(steps: &[Step], gates: &[Gate], target: Term) -> Option<Gate>
    requires { IsAscending gates.now }
    ensures { MatchOption result ((g : ℕ) → In g gates.now → In (labels.Gate g, target) steps.now → ⊥)
        (λ g. In g gates.now × In (labels.Gate g, target) steps.now) }
{
    for step in steps {
        if let Some(gate) = hidden_gate(*step, gates, target) {
            return Some(gate);
        }
    }
    None
}

/// The gate of the step, if it is in the list and the step leads to the target.
fn hidden_gate(step: Step, gates: &[Gate], target: Term) -> Option<Gate>
    requires { IsAscending gates.now }
    ensures { MatchOption result ((g : ℕ) → In g gates.now → step ≡ (labels.Gate g, target) → ⊥)
        (λ g. In g gates.now × (step ≡ (labels.Gate g, target))) }
{
    let gate = gate_of(step.label)?;
    if step.target.number() == target.number() && is_listed(gates, gate) {
        return Some(gate);
    }
    None
}

/// The gate of a label, if it is one.
fn gate_of(label: Label) -> Option<Gate>
    ensures { MatchOption result ((g : ℕ) → label ≡ labels.Gate g → ⊥) (λ g. label ≡ labels.Gate g) }
{
    match label {
        Label::Gate(gate) => Some(gate),
        _ => None,
    }
}
