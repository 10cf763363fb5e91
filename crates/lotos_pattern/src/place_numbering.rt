//! The numbers of places.
ghost use Rattle.std.specs.Prelude.{◌≡◌, ◌∷◌, ◌++◌, ◌≤◌, ℕ, [], true, IfOk, OnErr, OnOk, length, take};
ghost use Rattle.lotos_pattern.specs.NfaStates.{Place as PlaceOf};
ghost use Rattle.lotos_pattern.specs.PlaceNumbering.{IsNumbered};

use crate::place::{End, Place};
use indexmap::IndexSet;
use std::alloc::AllocError;

/// The number of a place, which is appended if it is new. If the allocation fails, the set is unchanged.
pub(crate) fn number_of(places: &mut IndexSet<Place>, place: Place) -> Result<usize, AllocError>
    ensures put { IfOk result (IsNumbered places.old.keys places.new.keys place) }
    ensures kept { OnErr result (places.new.keys ≡ places.old.keys) }
{
    equal_places();
    let (number, _) = places.insert_full(place)?;
    Ok(number)
}

/// Places that compare as equal are equal.
fn equal_places()
    ensures same { (a b : PlaceOf) → ⟦<Place as PartialEq>⟧.eq a b ≡ true → a ≡ b }
    ensures itself { (a : PlaceOf) → ⟦<Place as PartialEq>⟧.eq a a ≡ true }
{}

/// Puts an end after the first so many, in the place of all others.
pub(crate) fn put_end(ends: &mut Vec<End>, count: usize, end: End) -> Result<(), AllocError>
    ensures put { OnOk result (ends.new.items ≡ take count ends.old.items ++ end ∷ []) }
    ensures kept { OnErr result (ends.new.items ≡ take count ends.old.items) }
{
    ends.truncate(count);
    ends.push(end)?;
    Ok(())
}
