//! Patterns, and the places of sequences in them.
ghost use Rattle.std.specs.Prelude.{◌≡◌, ◌↔◌, ◌∷◌, ◌++◌, ◌<◌, ◌≤◌, ℕ, [], All, List, IfErr, IfOk, IfSome, MatchBool, MatchOption, length, option_map};
ghost use Rattle.lotos_pattern.specs.PatternLabels.{Label};
ghost use Rattle.lotos_pattern.specs.Patterns.{IsObservable, Matches, Viable, refusal};
ghost use Rattle.lotos_pattern.specs.ElementView.{CanOccur, element_of, lent_set_of};
ghost use Rattle.lotos_pattern.specs.Spelling.{PatternOf, texts_of};
ghost use Rattle.lotos_pattern.specs.PatternFaults.{IsCause, SpellsNone};
ghost use Rattle.lotos_pattern.specs.NfaStates.{HasState, IsPlaceValue};
ghost use Rattle.lotos_pattern.specs.Places.{Accepts, IsPlaceOf};
ghost use Rattle.lotos_pattern.specs.PlaceTransitions.{HasTransition, IsNextState, CanContinue, IsSuccessorPlace};
ghost use Rattle.lotos_pattern.specs.NfaTransitions.{HasStatesAfter, Leads};

use crate::element::{
    Element, Transition, copied_elements, exact_elements, last_refusal, min_accepting_state,
};
use crate::fault::PatternFault;
use crate::label_set::LabelSet;
use crate::pattern_parser::parse_elements;
use crate::place::{End, Place};
use std::alloc::{AllocError, Global};
use std::marker::Model;

/// A pattern matches the sequences of labels that are made of one segment for each of its elements in turn. Unless it
/// observes internal steps, none of the labels is `i`.
#[derive(Debug, Drop)]
pub struct Pattern {
    elements: Vec<Element>,
    /// Whether internal steps are observed.
    strong: bool,
}

impl Model for Pattern {
    ghost use Rattle.lotos_pattern.specs.Patterns.{Pattern};
    ghost use Rattle.lotos_pattern.specs.ElementView.{IsPattern, elements_of, pattern_of};

    ghost Value = { Pattern };

    ghost view = { λ p. pattern_of p.strong (elements_of p.elements.items) };

    ghost invariant = { λ p. IsPattern (pattern_of p.strong (elements_of p.elements.items)) };
}

impl Pattern {
    /// The pattern that the words spell, in any mix of cases (this project's profile). If internal steps are observed
    /// (`strong`), the internal action is a label like others.
    ///
    /// # Errors
    ///
    /// Words are read from the left, and the first fault is returned. Where an element has to begin, the faults are
    /// tried in this order: E43, if the pattern so far has a demand on the end; E44, if it has 256 elements; those of the
    /// word itself. E99 if an allocation fails.
    pub fn read(alloc: Global, words: &[&str], strong: bool) -> Result<Pattern, PatternFault>
        ensures pattern { IfOk result (PatternOf strong (texts_of words.now)) }
        ensures cause { IfErr result (IsCause strong (texts_of words.now)) }
        ensures nothing { IfErr result (SpellsNone strong (texts_of words.now)) }
    {
        let elements = parse_elements(alloc, words, strong)?;
        Ok(Pattern { elements, strong })
    }

    /// Whether internal steps are observed.
    pub fn strong(&self) -> bool
        ensures { result ≡ self.now.strong }
    {
        self.strong
    }

    /// A copy of the pattern.
    pub fn copied(&self, alloc: Global) -> Result<Pattern, AllocError>
        ensures { IfOk result (λ p. p ≡ self.now) }
    {
        let elements = copied_elements(alloc, self.elements.as_slice())?;
        let strong = self.strong;
        Ok(Pattern { elements, strong })
    }

    /// The set of labels that the end of a matched sequence must refuse, if the pattern demands that: the term where it
    /// ends must have no internal step, and none with a label of the set.
    pub fn refusal(&self) -> Option<&LabelSet>
        ensures { option_map lent_set_of result ≡ refusal self.now }
    {
        last_refusal(self.elements.as_slice())
    }

    /// The pattern that matches the sequence of these labels alone, and demands of the end what this one does.
    pub fn exactly(&self, alloc: Global, labels: &[&str]) -> Result<Pattern, AllocError>
        requires short { length labels.now ≤ 255 }
        requires observable { All (IsObservable self.now.strong) (texts_of labels.now) }
        ensures strong { IfOk result (λ p. p.strong ≡ self.now.strong) }
        ensures matches { IfOk result (λ p. (s : List Label) → Matches p s ↔ (s ≡ texts_of labels.now)) }
        ensures refusal { IfOk result (λ p. refusal p ≡ refusal self.now) }
    {
        let elements = exact_elements(alloc, labels, self.refusal())?;
        let strong = self.strong;
        Ok(Pattern { elements, strong })
    }

    /// Does nothing. Its clause says what is true of every pattern: each of its elements can occur.
    fn recall_observable(&self)
        ensures { All (CanOccur self.now.strong) self.now.elements }
    {
        let _ = &self.elements;
    }

    /// The place of the empty sequence.
    pub fn begin(&self) -> Place
        ensures begins { IsPlaceOf self.now [] result }
        ensures viable { Viable self.now [] }
        ensures states { HasStatesAfter self.now [] result }
        ensures place_value { IsPlaceValue result }
    {
        self.recall_observable();
        let mut place = Place::empty();
        place.add(0);
        place
    }

    /// The place after one more label, given by its printed text; `None` if no sequence that the pattern matches goes
    /// on like this.
    pub fn step(&self, place: Place, label: &str) -> Option<Place>
        ensures goes_on { (r : List Label) → IsPlaceOf self.now r place →
            MatchOption result (Viable self.now (r ++ label.now ∷ []) → ⊥)
            (λ q. Viable self.now (r ++ label.now ∷ []) × IsPlaceOf self.now (r ++ label.now ∷ []) q) }
        ensures states { (r : List Label) → HasStatesAfter self.now r place →
            IfSome result (HasStatesAfter self.now (r ++ label.now ∷ [])) }
        ensures place_value { IfSome result IsPlaceValue }
    {
        if is_unobservable(self.strong, label) {
            return None;
        }
        let next = self.successor_place(&place, label);
        if next.is_empty() { None } else { Some(next) }
    }

    /// Whether the sequence that has this place may end there.
    pub fn accepts(&self, place: Place) -> End
        ensures { (r : List Label) → IsPlaceOf self.now r place → Accepts self.now r result }
    {
        if !self.is_accepting(&place) {
            End::No
        } else if self.refusal().is_some() {
            End::IfRefuses
        } else {
            End::Yes
        }
    }

    /// The place after one more label, whether or not the label is observed.
    fn successor_place(&self, place: &Place, label: &str) -> Place
        ensures follows { IsSuccessorPlace self.now.elements place.now label.now result }
        ensures states { (k : ℕ) → HasState result k ↔
            ((j : ℕ) × HasState place.now j × Leads self.now.elements label.now j k) }
        ensures place_value { IsPlaceValue result }
    {
        let elements = self.elements.as_slice();
        let end = elements.len();
        let mut next = Place::empty();
        let mut state = place.first_state_from(0).unwrap_or(end);
        while state < end {
            let element = &elements[state];
            apply_transition(&mut next, element.transition_on(label), state);
            state = skip_empty_elements(element, place, state, end);
        }
        next
    }

    /// Whether the place has an accepting state.
    fn is_accepting(&self, place: &Place) -> bool
        ensures { MatchBool result (CanContinue self.now.elements place.now [])
            (CanContinue self.now.elements place.now [] → ⊥) }
    {
        place.has_state_from(min_accepting_state(self.elements.as_slice()))
    }
}

/// Whether the label is not observed.
fn is_unobservable(strong: bool, label: &str) -> bool
    ensures { MatchBool result (IsObservable strong label.now → ⊥) (IsObservable strong label.now) }
{
    !strong & (label == "i")
}

/// The next state to visit after `state`, which is reached: the one after it if the element may be empty, otherwise the
/// next state of the place, or `end` if there is none.
fn skip_empty_elements(element: &Element, place: &Place, state: usize, end: usize) -> usize
    requires { state < end }
    ensures { IsNextState (element_of element.now) place.now state end result }
{
    if element.may_be_empty() {
        state + 1
    } else {
        place.next_state(state + 1, end).unwrap_or(end)
    }
}

/// Adds the state that a transition leads to from `state`, if it leads to one.
fn apply_transition(place: &mut Place, transition: Transition, state: usize)
    requires { state < 256 }
    ensures states { HasTransition transition state place.old place.new }
    ensures place_value { IsPlaceValue place.old → IsPlaceValue place.new }
{
    match transition {
        Transition::Advance => place.add(state + 1),
        Transition::Stay => place.add(state),
        Transition::Reject => {}
    }
}
