//! Searches that are begun again after their last item if they run out of memory.

use crate::lines::{Line, put};
use crate::retry_heap::{Heap, Stop};

/// More calls than any search here takes.
const MOST_CALLS: usize = 50;

/// What a call of a search returns.
pub enum NextResult {
    Item,
    End,
    Refusal,
}

/// A search for items, of which each is written as a line that a search can begin after.
pub trait Resumable: Drop {
    /// Writes what the next call returns, and stores an item as the last one.
    fn advance(&mut self, line: &mut Line, last: &mut Line) -> Result<NextResult, Stop>;

    /// Whether the next call returns that an earlier one failed.
    fn has_failed(&mut self) -> bool;
}

/// Writes the items after this one, and how they end. `begin` begins a search after an item, and is called again with the
/// last one if memory runs out.
pub fn write_items<S: Resumable, F: Fn(&str) -> Result<S, Stop>>(
    heap: &Heap,
    line: &mut Line,
    after: &str,
    begin: F,
) -> Result<(), Stop>
    requires { F.IsAlwaysCallable begin }
{
    let mut last = Line::new();
    put(&mut last, after)?;
    for _ in 0..MOST_CALLS {
        let mut search = begin(last.as_str())?;
        if write_part(&mut search, line, &mut last)? {
            return Ok(());
        }
        heap.count_failure();
    }
    Err(Stop::Row)
}

/// Writes the items of a search, and stores the last one, until the search ends or memory runs out. Returns whether it
/// ended.
fn write_part(search: &mut impl Resumable, line: &mut Line, last: &mut Line) -> Result<bool, Stop> {
    for _ in 0..MOST_CALLS {
        match search.advance(line, last)? {
            NextResult::Item => {}
            NextResult::End => return Ok(true),
            // A search that ran out of memory returns that it failed, again and again.
            NextResult::Refusal if search.has_failed() && search.has_failed() => return Ok(false),
            NextResult::Refusal => return Err(Stop::Row),
        }
    }
    Err(Stop::Row)
}

/// Writes that there are no more items.
pub fn write_end(line: &mut Line) -> Result<NextResult, Stop> {
    put(line, "end")?;
    Ok(NextResult::End)
}
