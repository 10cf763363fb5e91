//! The steps of a compiled pattern that are known.
ghost use Rattle.std.specs.Prelude.{◌≡◌, ℕ, [], IfOk, IfSome, None, Option, Some, slice_get};
ghost use Rattle.lotos_pattern.specs.StepRows.{AddsNone, AddsOnly, HasEntry, known_by, plain_rows};

use crate::place_number::PlaceNumber;
use std::alloc::{AllocError, Global};
use std::marker::Model;

/// For each place a row, which has an entry for each label; a row is empty until something of it is stored. An entry is
/// 0 if nothing is known, 1 if the label leads to no place, and `n + 2` if it leads to the place with the number `n`.
// A row is that of a place and not of an NFA state, so that one entry is read and not one for each of up to 257 states.
// The step to a number that does not fit in 32 bits is computed again whenever it is asked for: no failure is made up.
#[derive(Drop)]
pub(crate) struct StepRows {
    alloc: Global,
    rows: Vec<Vec<u32>>,
}

impl Model for StepRows {
    ghost use Rattle.std.specs.Prelude.{List, ℕ};
    ghost use Rattle.lotos_pattern.specs.StepRows.{plain_rows};

    ghost Value = { List (List ℕ) };

    ghost view = { λ r. plain_rows r.rows.items };
}

impl StepRows {
    /// No rows.
    pub fn new(alloc: Global) -> StepRows
        ensures { result ≡ [] }
    {
        StepRows {
            alloc,
            rows: Vec::new(alloc),
        }
    }

    /// The place that a label leads to from a place, if it is known; an inner `None` if it leads to none.
    pub fn get(&self, place: usize, label: usize) -> Option<Option<PlaceNumber>>
        ensures { IfSome result (HasEntry self.now place label) }
    {
        let row = self.rows.get(place)?;
        let entry = row.get(label)?;
        decode(*entry)
    }

    /// Stores the place that a label leads to from a place, or that it leads to none. A number that does not fit in an
    /// entry is not stored.
    pub fn store(
        &mut self,
        place: usize,
        label: usize,
        next: Option<PlaceNumber>,
        label_count: usize,
    ) -> Result<(), AllocError>
        ensures { AddsOnly self.old self.new place label next }
    {
        let Some(entry) = encode(next) else {
            return Ok(());
        };
        make_row(self.alloc, &mut self.rows, place, label_count)?;
        set_entry(&mut self.rows, place, label, entry);
        Ok(())
    }
}

/// The entry that says where a label leads, if it fits.
fn encode(next: Option<PlaceNumber>) -> Option<u32>
    ensures { IfSome result (λ entry. known_by entry ≡ Some next) }
{
    match next {
        None => Some(1),
        Some(place) => u32::try_from(place.number()).ok()?.checked_add(2),
    }
}

/// What an entry says.
fn decode(entry: u32) -> Option<Option<PlaceNumber>>
    ensures { result ≡ known_by entry }
{
    match entry {
        0 => None,
        1 => Some(None),
        _ => Some(Some(PlaceNumber::of_number((entry - 2) as usize))),
    }
}

/// Makes the row of a place, if it is not there yet.
fn make_row(
    alloc: Global,
    rows: &mut Vec<Vec<u32>>,
    place: usize,
    label_count: usize,
) -> Result<(), AllocError>
    ensures { AddsNone (plain_rows rows.old.items) (plain_rows rows.new.items) }
{
    add_empty_rows(alloc, rows, place)?;
    if place < rows.len() {
        if rows[place].is_empty() {
            let row = empty_entries(alloc, label_count)?;
            rows[place] = row;
        }
    }
    Ok(())
}

/// Appends empty rows until there is one for the place.
fn add_empty_rows(alloc: Global, rows: &mut Vec<Vec<u32>>, place: usize) -> Result<(), AllocError>
    ensures { AddsNone (plain_rows rows.old.items) (plain_rows rows.new.items) }
{
    for _ in rows.len()..place.saturating_add(1) {
        rows.push(Vec::new(alloc))?;
    }
    Ok(())
}

/// As many entries that say nothing.
fn empty_entries(alloc: Global, count: usize) -> Result<Vec<u32>, AllocError>
    ensures { IfOk result (λ row. (k entry : ℕ) → slice_get row.items k ≡ Some entry → entry ≡ 0) }
{
    let row = vec![in alloc; 0; count]?;
    Ok(row)
}

/// Sets an entry, if its row is there.
fn set_entry(rows: &mut Vec<Vec<u32>>, place: usize, label: usize, entry: u32)
    ensures { (next : Option ℕ) → known_by entry ≡ Some next →
        AddsOnly (plain_rows rows.old.items) (plain_rows rows.new.items) place label next }
{
    if let Some(row) = rows.get_mut(place) {
        if let Some(kept) = row.get_mut(label) {
            *kept = entry;
        }
    }
}
