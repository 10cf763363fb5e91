//! Places by number.

use std::marker::Model;

/// A place of one compiled pattern, by its number there. Contracts see the number.
#[derive(Clone, Copy, Debug, PartialEq, Eq, PartialOrd, Ord, Hash)]
pub struct PlaceNumber {
    number: usize,
}

impl Model for PlaceNumber {
    ghost use Rattle.std.specs.Prelude.{ℕ};

    ghost Value = { ℕ };

    ghost view = { λ p. p.number };

    ghost inverse = { λ n. record { number = n } };
}

impl PlaceNumber {
    ghost use Rattle.std.specs.Prelude.{◌≡◌};

    pub(crate) fn of_number(number: usize) -> PlaceNumber
        ensures { result ≡ number }
    {
        PlaceNumber { number }
    }

    /// The number, below the number of places of the compiled pattern.
    pub(crate) fn number(self) -> usize
        ensures { result ≡ self }
    {
        self.number
    }
}
