//! Whether a pattern matches a sequence of labels, by `lotos_pattern`.
ghost use Rattle.std.specs.Prelude.{false, IfErr, IfOk, MatchOption};
ghost use Rattle.lotos_pattern.specs.Patterns.{Viable};
ghost use Rattle.lotos_pattern.specs.Places.{IsPlaceOf};
ghost use Rattle.lotos_pattern.specs.Spelling.{texts_of};
ghost use Rattle.lotos_pattern.specs.PatternFaults.{IsCause, SpellsNone};
ghost use Rattle.uses.specs.PatternMatching.{IsAnswer};

use lotos_pattern::laws::pattern_is_unique;
use lotos_pattern::{End, Pattern, PatternFault, Place};
use std::alloc::Global;

/// Whether the pattern that the words spell matches the sequence, given by the printed texts of its labels. Internal
/// steps are not observed, so no sequence with the label `i` is matched.
///
/// [`End::IfRefuses`] means that the pattern matches the sequence and demands that its end refuses a set of labels: the
/// sequence counts only if the term where it ends has no internal step and none with a label of the set, which its
/// labels do not show. Without such a demand the result is [`End::Yes`] or [`End::No`].
///
/// # Errors
///
/// The first fault of the words if they spell no pattern, and E99 if an allocation fails.
pub fn matches(alloc: Global, words: &[&str], sequence: &[&str]) -> Result<End, PatternFault>
    ensures answer { IfOk result (IsAnswer (texts_of words.now) (texts_of sequence.now)) }
    ensures cause { IfErr result (IsCause false (texts_of words.now)) }
    ensures nothing { IfErr result (SpellsNone false (texts_of words.now)) }
{
    pattern_is_unique();
    let pattern = Pattern::read(alloc, words, false)?;
    Ok(match place_of(&pattern, sequence) {
        Some(place) => pattern.accepts(place),
        None => End::No,
    })
}

/// The place of the sequence in the pattern; `None` if the pattern matches no sequence that starts with it.
fn place_of(pattern: &Pattern, sequence: &[&str]) -> Option<Place>
    ensures { MatchOption result (Viable pattern.now (texts_of sequence.now) → ⊥)
        (IsPlaceOf pattern.now (texts_of sequence.now)) }
{
    let mut place = pattern.begin();
    for label in sequence {
        place = pattern.step(place, label)?;
    }
    Some(place)
}
