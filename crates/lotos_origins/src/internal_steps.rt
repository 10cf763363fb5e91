//! Internal steps among the steps of a term.
ghost use Rattle.std.specs.Prelude.{◌≡◌, ◌<◌, ◌⊎◌, IfOk, MatchBool, length};
ghost use Rattle.lotos_check.specs.NameLists.{In};
ghost use Rattle.lotos_store.specs.declared.label.Label.TheVariants as labels;
ghost use Rattle.lotos_terms.specs.TableView.{Grows, IsSoundView};
ghost use Rattle.lotos_origins.specs.OriginSearch.{LeadsInternally};

use lotos_normal::NormalTable;
use lotos_store::{Label, Step, Term};
use std::alloc::AllocError;

/// Whether an internal step leads from the term to the target.
pub(crate) fn leads_internally(
    table: &mut NormalTable,
    from: Term,
    to: Term,
) -> Result<bool, AllocError>
    requires { from < length table.old.terms }
    ensures grows { Grows table.old table.new }
    ensures sound { IsSoundView table.new }
    ensures leads { IfOk result (λ b. MatchBool b (LeadsInternally table.new from to)
        (LeadsInternally table.new from to → ⊥)) }
{
    let steps = table.successors(from)?;
    Ok(has_internal_step(steps, to))
}

/// Whether one of the steps is internal and leads to the target.
pub(crate) fn has_internal_step(steps: &[Step], target: Term) -> bool
    ensures { MatchBool result (In (labels.Internal, target) steps.now)
        (In (labels.Internal, target) steps.now → ⊥) }
{
    for step in steps {
        if is_internal_step(*step, target) {
            return true;
        }
    }
    false
}

/// Whether the step is internal and leads to the target.
fn is_internal_step(step: Step, target: Term) -> bool
    ensures { MatchBool result (step ≡ (labels.Internal, target)) (step ≡ (labels.Internal, target) → ⊥) }
{
    match step.label {
        Label::Internal => step.target.number() == target.number(),
        _ => false,
    }
}
