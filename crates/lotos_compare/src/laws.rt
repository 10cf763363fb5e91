//! Laws of comparisons, each as the contract of an empty function.
ghost use Rattle.std.specs.Prelude.{◌≡◌, ◌⊎◌, ◌↔◌, ◌++◌, ◌∷◌, [], List, false, true};
ghost use Rattle.lotos_listing.specs.Order.{Before, Label as Text};
ghost use Rattle.lotos_sets.specs.Behaviours.{Behaviour};
ghost use Rattle.lotos_compare.specs.BoundedPairs.{BoundedPair};
ghost use Rattle.lotos_compare.specs.Comparisons.{AreAlike, AreFailuresIncluded, AreLivelocksIncluded};
ghost use Rattle.lotos_compare.specs.Comparisons.{IsFirstLineOf, IsLineOf, IsTraceIncluded, observations_of};
ghost use Rattle.lotos_compare.specs.Differences.{ComesBefore, ComparisonKind, IsObservedAlone, Line, comes};
ghost use Rattle.lotos_compare.specs.FoundLines.{IsFirstFault, IsFound};
ghost use Rattle.lotos_compare.specs.declared.compare_fault.CompareFault.{CompareFault};
ghost use Rattle.lotos_compare.specs.declared.compare_fault.CompareFault.TheVariants.{Memory};
ghost use Rattle.lotos_compare.specs.declared.line.Comparison.{Comparison};

/// Without refusals, a comparison has no line exactly if no sequence can be observed of one of the two alone; if it asks
/// for one direction, exactly if none can be observed of the first alone.
pub fn no_line_means_equal_traces()
    ensures equal { (b c : Behaviour) →
        AreAlike b c (record { within = false; refusals = false }) ↔
        (IsTraceIncluded b c × IsTraceIncluded c b) }
    ensures within { (b c : Behaviour) →
        AreAlike b c (record { within = true; refusals = false }) ↔ IsTraceIncluded b c }
{}

/// With refusals, a comparison has no line exactly if, besides, after no sequence one of the two alone may refuse some
/// set of labels or do internal steps for ever; if it asks for one direction, exactly if the first alone does none of
/// these.
pub fn no_line_means_equal_failures()
    ensures equal { (b c : Behaviour) → AreAlike b c (record { within = false; refusals = true }) ↔
        ((IsTraceIncluded b c × AreFailuresIncluded b c × AreLivelocksIncluded b c) ×
        (IsTraceIncluded c b × AreFailuresIncluded c b × AreLivelocksIncluded c b)) }
    ensures within { (b c : Behaviour) → AreAlike b c (record { within = true; refusals = true }) ↔
        (IsTraceIncluded b c × AreFailuresIncluded b c × AreLivelocksIncluded b c) }
{}

/// A comparison of a behaviour with itself has no line.
pub fn same_behaviour_has_no_line()
    ensures { (b : Behaviour) (kind : ComparisonKind) → AreAlike b b kind }
{}

/// The lines of a comparison are in a strict order, so it has at most one first line.
pub fn lines_come_in_order()
    ensures total { (b c : Behaviour) (kind : ComparisonKind) (l m : Line) → IsLineOf b c kind l →
        IsLineOf b c kind m → ComesBefore l m ⊎ ((l ≡ m) ⊎ ComesBefore m l) }
    ensures irreflexive { (l : Line) → ComesBefore l l → ⊥ }
    ensures transitive { (l m n : Line) → ComesBefore l m → ComesBefore m n → ComesBefore l n }
    ensures unique { (b c : Behaviour) (kind : ComparisonKind) (l m : Line) → IsFirstLineOf b c kind l →
        IsFirstLineOf b c kind m → l ≡ m }
{}

/// The sequence of the first line about a label, with this label, is the first of the sequences that can be observed of
/// one of the two alone; if the comparison asks for one direction, of the first alone.
pub fn first_line_is_of_the_first_sequence()
    ensures either { (b c : Behaviour) (kind : ComparisonKind) (line : Line) (l : Text) →
        kind.within ≡ false → IsFirstLineOf b c kind line → line.difference ≡ comes l → (s : List Text) →
        IsObservedAlone (observations_of b) (observations_of c) s ⊎
        IsObservedAlone (observations_of c) (observations_of b) s → Before s (line.sequence ++ l ∷ []) → ⊥ }
    ensures first { (b c : Behaviour) (kind : ComparisonKind) (line : Line) (l : Text) →
        IsFirstLineOf b c kind line → line.difference ≡ comes l → (s : List Text) →
        IsObservedAlone (observations_of b) (observations_of c) s → Before s (line.sequence ++ l ∷ []) → ⊥ }
{}

/// Of one question there cannot be both an answer and a stop, unless memory runs out. A line is returned only if the
/// search stops at no sequence that it explores before it looks for the line, and it stops only at a sequence that it
/// explores before it looks for any line.
pub fn line_and_stop_exclude_each_other()
    ensures { (q : BoundedPair) (kind : ComparisonKind) (found : Comparison) (fault : CompareFault) →
        IsFound q kind found → IsFirstFault q kind fault → fault ≡ Memory }
{}
