//! Which labels are observed.
ghost use Rattle.std.specs.Prelude.{◌≡◌, MatchBool, false};
ghost use Rattle.lotos_store.specs.declared.label.Label.TheVariants.{Internal};
ghost use Rattle.lotos_listing.specs.ObservedLabels.{IsObserved};

use lotos_terms::Label;

/// Whether a step with the label is observed: every step if `strong`, otherwise every step but an internal one.
pub fn is_observed(label: Label, strong: bool) -> bool
    ensures observed { MatchBool result (IsObserved strong label) (IsObserved strong label → ⊥) }
    ensures internal { MatchBool result (IsObserved strong label) ((strong ≡ false) × (label ≡ Internal)) }
{
    strong || label != Label::Internal
}
