//! Laws of the definitions, each as the contract of an empty function.
ghost use Rattle.std.specs.Prelude.{◌≡◌, ◌↔◌, ℕ, Bool, List};
ghost use Rattle.lotos_pattern.specs.NfaStates.{HasState, IsPlaceValue, Place};
ghost use Rattle.lotos_pattern.specs.Patterns.{Pattern};
ghost use Rattle.lotos_pattern.specs.Spelling.{PatternOf, Text};

/// Words spell at most one pattern.
pub fn pattern_is_unique()
    ensures { (strong : Bool) (words : List Text) (p q : Pattern) →
        PatternOf strong words p → PatternOf strong words q → p ≡ q }
{}

/// A place is determined by its NFA states.
pub fn one_place()
    ensures { (a b : Place) → IsPlaceValue a → IsPlaceValue b →
        ((k : ℕ) → HasState a k ↔ HasState b k) → a ≡ b }
{}
