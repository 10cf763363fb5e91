//! The searches for the items of a listing, by depth, by length and of a cover, as one.
use crate::listing_halt::ListingHalt;
use lotos_length::LengthSearch;
use lotos_length::laws::items_by_length_decrease_remaining;
use lotos_listing::laws::items_decrease_remaining;
use lotos_listing::{Found, Progress};
use lotos_search::Search;
use lotos_suite::CoverSearch;
use lotos_suite::laws::lines_decrease_remaining;
use lotos_text::Name;

/// A search for the items of a listing.
pub(crate) trait ListingSearch {
    ghost use Rattle.std.specs.Prelude.{◌≡◌, ◌<◌, IfOk, IfSome};
    ghost use Rattle.lotos_tool.specs.ListingQuestions.{ListingState, NextReturns, names_of, remaining_after};

    /// Its question; the last item that it returned, or else the mark; and its stage.
    ghost state: { Self → ListingState };

    /// The next item, or `None` at the end of the listing. Halts at the first sequence at which the listing stops, if no
    /// further item comes before it, and when memory runs out. The observer is told of each prefix but the empty one
    /// before the search explores it. After an item fewer sequences remain than before it.
    fn next_item<P: Progress>(&mut self, progress: &mut P) -> Result<Option<Found>, ListingHalt>
        ensures same { (state self.new).question ≡ (state self.old).question }
        ensures next_returns { NextReturns (state self.old) result (state self.new) }
        ensures fewer { IfOk result (λ o. IfSome o (λ _.
            remaining_after (state self.new) < remaining_after (state self.old))) };

    /// The names of the gates, in the order of their numbers.
    fn gates(&self) -> &[Name]
        ensures { result.now ≡ names_of (state self.now).question };
}

impl ListingSearch for Search {
    ghost use Rattle.lotos_tool.specs.ListingQuestions.{depth_state};

    ghost state = { depth_state };

    fn next_item<P: Progress>(&mut self, progress: &mut P) -> Result<Option<Found>, ListingHalt> {
        items_decrease_remaining();
        Ok(self.next_with_progress(progress)?)
    }

    fn gates(&self) -> &[Name] {
        self.gates()
    }
}

impl ListingSearch for LengthSearch {
    ghost use Rattle.lotos_tool.specs.ListingQuestions.{length_state};

    ghost state = { length_state };

    fn next_item<P: Progress>(&mut self, progress: &mut P) -> Result<Option<Found>, ListingHalt> {
        items_by_length_decrease_remaining();
        Ok(self.next_with_progress(progress)?)
    }

    fn gates(&self) -> &[Name] {
        self.gates()
    }
}

impl ListingSearch for CoverSearch {
    ghost use Rattle.lotos_tool.specs.ListingQuestions.{cover_state};

    ghost state = { cover_state };

    fn next_item<P: Progress>(&mut self, progress: &mut P) -> Result<Option<Found>, ListingHalt> {
        lines_decrease_remaining();
        self.recall_closed();
        Ok(self.next_with_progress(progress)?)
    }

    fn gates(&self) -> &[Name] {
        self.gates()
    }
}
