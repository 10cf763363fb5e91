//! Places in a pattern, as sets of NFA states.

use std::marker::Model;

/// The number of states that a pattern can have: from 0 to 256 elements done.
const STATES: usize = 257;

/// The number of words of a place: enough for all states.
const WORDS: usize = 5;

/// The number of states in a word.
const BITS: usize = 64;

/// How much of a pattern a sequence has matched so far: a set of NFA states. A place is only valid for the pattern that
/// returned it.
// The array has a fixed size, so that no step allocates, and a bit for each state, so that a step goes from one state
// that is reached to the next.
#[derive(Clone, Copy, Debug, PartialEq, Eq, Hash)]
pub struct Place {
    /// For each state a bit, from the lowest of the first word on. State `k` means that `k` elements are done.
    bits: [u64; WORDS],
}

impl Model for Place {
    ghost use Rattle.lotos_pattern.specs.NfaStates.{Place};

    ghost Value = { Place };

    ghost view = { λ p. record { bits = p.bits } };

    ghost inverse = { λ v. record { bits = v.bits } };
}

impl Place {
    ghost use Rattle.std.specs.Prelude.{◌≡◌, ◌⊎◌, ◌↔◌, ◌<◌, ◌≤◌, ◌/◌, ℕ, MatchBool, MatchOption};
    ghost use Rattle.lotos_pattern.specs.NfaStates.{HasState, IsFirstState, IsPlaceValue};

    /// The empty set.
    pub(crate) fn empty() -> Place
        ensures none { (k : ℕ) → HasState result k → ⊥ }
        ensures place_value { IsPlaceValue result }
    {
        Place { bits: [0; WORDS] }
    }

    /// Adds a state.
    pub(crate) fn add(&mut self, state: usize)
        requires { state < 257 }
        ensures states { (k : ℕ) → HasState self.new k ↔ (HasState self.old k ⊎ (k ≡ state)) }
        ensures place_value { IsPlaceValue self.new }
    {
        self.bits[state / BITS] |= 1 << (state % BITS);
    }

    /// The first state from this one on, if there is one.
    pub(crate) fn first_state_from(&self, state: usize) -> Option<usize>
        ensures { MatchOption result ((k : ℕ) → state ≤ k → HasState self.now k → ⊥)
            (IsFirstState self.now state) }
    {
        let bits = self.bits.as_slice();
        let number = state / BITS;
        if number >= bits.len() {
            return None;
        }
        let first = self.first_state_in_word(state);
        if first.is_some() {
            return first;
        }
        for later in number + 1..bits.len() {
            let first = self.first_state_in_word(later * BITS);
            if first.is_some() {
                return first;
            }
        }
        None
    }

    /// The first state from this one on, if there is one. It may be missed if it is not below `end`: if both are in one
    /// word, only that word is read.
    pub(crate) fn next_state(&self, state: usize, end: usize) -> Option<usize>
        ensures { MatchOption result ((k : ℕ) → state ≤ k → HasState self.now k → end ≤ k)
            (IsFirstState self.now state) }
    {
        let number = state / BITS;
        if number < WORDS {
            if end / BITS == number {
                return self.first_state_in_word(state);
            }
        }
        self.first_state_from(state)
    }

    /// The first state from this one on in the same word, if there is one.
    fn first_state_in_word(&self, state: usize) -> Option<usize>
        requires { state / 64 < 5 }
        ensures { MatchOption result ((k : ℕ) → state ≤ k → k / 64 ≡ state / 64 → HasState self.now k → ⊥)
            (IsFirstState self.now state) }
    {
        let rest = self.bits[state / BITS] >> (state % BITS);
        if rest == 0 {
            return None;
        }
        Some(state + rest.trailing_zeros() as usize)
    }

    /// Whether the set has the state.
    fn has(&self, state: usize) -> bool
        ensures { MatchBool result (HasState self.now state) (HasState self.now state → ⊥) }
    {
        self.first_state_from(state) == Some(state)
    }

    /// The last state of the set, of those that a pattern can have, or `least` if the set has none after it.
    pub(crate) fn last_state(&self, least: usize) -> usize
        ensures least { least ≤ result }
        ensures last { (k : ℕ) → k < 257 → HasState self.now k → k ≤ result }
        ensures attained { (result ≡ least) ⊎ HasState self.now result }
    {
        let mut last = least;
        for state in least..STATES {
            if self.has(state) {
                last = state;
            }
        }
        last
    }

    /// Whether there is a state from this one on.
    pub(crate) fn has_state_from(&self, state: usize) -> bool
        ensures { MatchBool result ((k : ℕ) × (state ≤ k) × HasState self.now k)
            ((k : ℕ) → state ≤ k → HasState self.now k → ⊥) }
    {
        self.first_state_from(state).is_some()
    }

    /// Whether the set is empty.
    pub(crate) fn is_empty(&self) -> bool
        ensures { MatchBool result ((k : ℕ) → HasState self.now k → ⊥) ((k : ℕ) × HasState self.now k) }
    {
        self.first_state_from(0).is_none()
    }
}

/// Whether the pattern matches a sequence.
#[derive(Clone, Copy, Debug, PartialEq, Eq)]
pub enum End {
    /// It does not.
    No,
    /// It does.
    Yes,
    /// It does if the end of the sequence refuses the set that the pattern demands.
    IfRefuses,
}
