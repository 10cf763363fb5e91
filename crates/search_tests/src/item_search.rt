//! The searches for the items of a listing, by depth and by length, as one.
ghost use Rattle.std.specs.Prelude.{List};
ghost use Rattle.lotos_check.specs.NameLists.{Name};

use lotos_length::LengthSearch;
use lotos_listing::{Found, Halt};
use lotos_search::Search;
use lotos_terms::Label;

/// A search for the items of a listing.
pub trait ItemSearch {
    ghost use Rattle.lotos_listing.specs.ListingSteps.{HasPrintedLabels};
    ghost use Rattle.lotos_listing.specs.Order.{Label as Text};
    ghost use Rattle.lotos_terms.specs.TableView.{IsPrintedAs};

    /// The names of the gates.
    ghost names: { Self → List Name };

    /// The next item, or `None` at the end of the listing.
    fn next_item(&mut self) -> Result<Option<Found>, Halt>
        ensures { HasPrintedLabels (names self.new) result };

    /// The text of a label: a gate's name, `exit` or `i`.
    fn label_text(&self, label: Label) -> &str
        requires { (text : Text) × IsPrintedAs (names self.now) label text };
}

impl ItemSearch for Search {
    ghost names = { λ s. s.question.names };

    fn next_item(&mut self) -> Result<Option<Found>, Halt> {
        self.next()
    }

    fn label_text(&self, label: Label) -> &str {
        self.label_text(label)
    }
}

impl ItemSearch for LengthSearch {
    ghost names = { λ s. s.question.matches.names };

    fn next_item(&mut self) -> Result<Option<Found>, Halt> {
        self.next()
    }

    fn label_text(&self, label: Label) -> &str {
        self.label_text(label)
    }
}
