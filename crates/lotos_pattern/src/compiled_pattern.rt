//! Patterns compiled against a list of labels.
ghost use Rattle.std.specs.Prelude.{◌≡◌, ◌⊎◌, ◌<◌, ◌≤◌, ℕ, IfOk, IfSome, List, length, map, string_bytes};
ghost use Rattle.lotos_pattern.specs.PatternLabels.{Label};
ghost use Rattle.lotos_pattern.specs.NfaStates.{HasState, IsPlaceValue, Place as PlaceOf};
ghost use Rattle.lotos_pattern.specs.Places.{Accepts, IsPlaceOf};
ghost use Rattle.lotos_pattern.specs.CompiledPatterns.{ArePlaces, IsFirstPlace, IsLabelAt, IsPlaceAfter, IsPlaceAt, KeepsPlaces, LeadsTo};

use crate::pattern::Pattern;
use crate::place::{End, Place};
use crate::place_number::PlaceNumber;
use crate::place_numbering::{number_of, put_end};
use crate::step_rows::StepRows;
use indexmap::IndexSet;
use std::alloc::{AllocError, Global};
use std::marker::Model;

/// A pattern compiled against a list of labels: a deterministic automaton that is made as far as it is asked for. Each
/// place that has come up has a number, and for each place and each label the place that follows is computed once. So
/// memory grows with the places that come up, and is four bytes for each label of one from which a label was followed.
// With `<while>` and sets a pattern can have more places than memory has room for, and a search meets few of them.
#[derive(Drop)]
pub struct CompiledPattern {
    pattern: Pattern,
    labels: Vec<String>,
    places: IndexSet<Place>,
    /// Whether the pattern matches, for each place; any others after these mean nothing.
    ends: Vec<End>,
    rows: StepRows,
}

impl Model for CompiledPattern {
    ghost use Rattle.std.specs.Prelude.{map, string_bytes};
    ghost use Rattle.lotos_pattern.specs.CompiledPatterns.{CompiledView, view_of};
    ghost use Rattle.lotos_pattern.specs.CompiledInvariant.{IsCompiled};
    ghost use Rattle.lotos_pattern.specs.CompiledCode.{compiled_view_code};

    ghost Value = { CompiledView };

    ghost coded = { compiled_view_code };

    ghost view = { λ c. view_of c.pattern (map string_bytes c.labels.items) c.places.keys };

    ghost invariant = { λ c. IsCompiled (view_of c.pattern (map string_bytes c.labels.items) c.places.keys)
        c.ends.items c.rows };
}

impl CompiledPattern {
    /// Compiles the pattern against these labels, which are given by their printed texts. A label has the number that
    /// is its index.
    pub fn new(
        alloc: Global,
        pattern: Pattern,
        labels: Vec<String>,
    ) -> Result<CompiledPattern, AllocError>
        ensures pattern { IfOk result (λ c. c.pattern ≡ pattern) }
        ensures labels { IfOk result (λ c. c.labels ≡ map string_bytes labels.items) }
    {
        let first = pattern.begin();
        let mut ends = Vec::new(alloc);
        ends.push(pattern.accepts(first))?;
        let mut places = IndexSet::new(alloc);
        number_of(&mut places, first)?;
        Ok(CompiledPattern {
            pattern,
            labels,
            places,
            ends,
            rows: StepRows::new(alloc),
        })
    }

    /// The pattern that was compiled.
    pub fn pattern(&self) -> &Pattern
        ensures { result.now ≡ self.now.pattern }
    {
        &self.pattern
    }

    /// Whether internal steps are observed.
    pub fn strong(&self) -> bool
        ensures { result ≡ self.now.pattern.strong }
    {
        self.pattern.strong()
    }

    /// How many labels the pattern is compiled against.
    pub fn label_count(&self) -> usize
        ensures { result ≡ length self.now.labels }
    {
        self.labels.len()
    }

    /// Does nothing. Its clause says what is true of every compiled pattern: no place has two numbers.
    pub fn recall_places(&self)
        ensures { ArePlaces self.now.places }
    {
        let _ = &self.pattern;
    }

    /// The place of the empty sequence.
    pub fn begin(&self) -> PlaceNumber
        ensures { (place : PlaceOf) × IsPlaceAt self.now result place × IsFirstPlace self.now.pattern place }
    {
        let _ = &self.pattern;
        PlaceNumber::of_number(0)
    }

    /// The place after one more label, given by its number; `None` if no sequence that the pattern matches goes on like
    /// this. What was asked before is looked up.
    // What is known is returned without an allocation or a hash. If memory runs out at a new step, all that was known
    // still is, and the same call can be made again.
    #[inline(always)]
    pub fn step(
        &mut self,
        place: PlaceNumber,
        label: usize,
    ) -> Result<Option<PlaceNumber>, AllocError>
        requires place { place < length self.old.places }
        requires label { label < length self.old.labels }
        ensures keeps { KeepsPlaces self.old self.new }
        ensures leads { IfOk result (λ next. (from : PlaceOf) (text : Label) →
            IsPlaceAt self.old place from → IsLabelAt self.old label text → LeadsTo self.new from text next) }
        ensures within { IfOk result (λ next. IfSome next (λ n. n < length self.new.places)) }
    {
        if let Some(next) = self.known_step(place, label) {
            return Ok(next);
        }
        self.compute_step(place, label)
    }

    /// Whether the sequence that has this place may end there.
    pub fn accepts(&self, place: PlaceNumber) -> End
        requires { place < length self.now.places }
        ensures { (from : PlaceOf) (r : List Label) → IsPlaceAt self.now place from →
            IsPlaceOf self.now.pattern r from → Accepts self.now.pattern r result }
    {
        self.ends[place.number()]
    }

    /// How many elements of the pattern can be done, the first ones: the most that are done at a place that has come up.
    pub fn most_done(&self) -> usize
        ensures most { (n k : ℕ) (place : PlaceOf) → IsPlaceAt self.now n place → k < 257 → HasState place k →
            k ≤ result }
        ensures attained { (result ≡ 0) ⊎ ((n : ℕ) × (place : PlaceOf) × IsPlaceAt self.now n place ×
            HasState place result) }
    {
        let mut most = 0;
        for number in 0..self.places.len() {
            most = self.places.get_index(number).unwrap().last_state(most);
        }
        most
    }

    /// The place that the label leads to, if it is known; an inner `None` if it leads to none.
    fn known_step(&self, place: PlaceNumber, label: usize) -> Option<Option<PlaceNumber>>
        ensures { IfSome result (λ next. (from : PlaceOf) (text : Label) →
            IsPlaceAt self.now place from → IsLabelAt self.now label text → LeadsTo self.now from text next) }
    {
        self.rows.get(place.number(), label)
    }

    /// The place after one more label, which is computed and stored.
    #[inline(never)]
    fn compute_step(
        &mut self,
        place: PlaceNumber,
        label: usize,
    ) -> Result<Option<PlaceNumber>, AllocError>
        requires place { place < length self.old.places }
        requires label { label < length self.old.labels }
        ensures keeps { KeepsPlaces self.old self.new }
        ensures leads { IfOk result (λ next. (from : PlaceOf) (text : Label) →
            IsPlaceAt self.old place from → IsLabelAt self.old label text → LeadsTo self.new from text next) }
    {
        let Some(to) = self.place_after(place, label) else {
            self.store_step(place, label, None)?;
            return Ok(None);
        };
        let number = self.number_place(to)?;
        self.store_step(place, label, Some(number))?;
        Ok(Some(number))
    }

    /// The place that the label leads to, as the pattern has it.
    fn place_after(&self, place: PlaceNumber, label: usize) -> Option<Place>
        requires place { place < length self.now.places }
        requires label { label < length self.now.labels }
        ensures leads { (from : PlaceOf) (text : Label) → IsPlaceAt self.now place from →
            IsLabelAt self.now label text → IsPlaceAfter self.now.pattern from text result }
        ensures place_value { IfSome result IsPlaceValue }
    {
        let from = self.place_at(place);
        self.pattern.step(from, self.labels[label].as_str())
    }

    /// The place that has this number.
    fn place_at(&self, place: PlaceNumber) -> Place
        requires { place < length self.now.places }
        ensures { IsPlaceAt self.now place result }
    {
        match self.places.get_index(place.number()) {
            Some(from) => *from,
            None => unreachable!(),
        }
    }

    /// The number of a place, which gets one if it has none.
    fn number_place(&mut self, place: Place) -> Result<PlaceNumber, AllocError>
        requires { IsPlaceValue place }
        ensures keeps { KeepsPlaces self.old self.new }
        ensures has { IfOk result (λ number. IsPlaceAt self.new number place) }
    {
        let end = self.pattern.accepts(place);
        put_end(&mut self.ends, self.places.len(), end)?;
        let number = number_of(&mut self.places, place)?;
        Ok(PlaceNumber::of_number(number))
    }

    /// Stores where the label leads.
    fn store_step(
        &mut self,
        place: PlaceNumber,
        label: usize,
        next: Option<PlaceNumber>,
    ) -> Result<(), AllocError>
        requires place { place < length self.old.places }
        requires leads { (from : PlaceOf) (text : Label) →
            IsPlaceAt self.old place from → IsLabelAt self.old label text → LeadsTo self.old from text next }
        ensures { self.new ≡ self.old }
    {
        let label_count = self.labels.len();
        self.rows.store(place.number(), label, next, label_count)
    }
}
