//! Lines of covers. A search that runs out of memory is begun again after its last line.

use crate::front_end::normal_table_of;
use crate::lines::{Line, print_rows, put_sequence};
use crate::mark_calls::mark_after;
use crate::resumed_search::{NextResult, Resumable, write_end, write_items};
use crate::retry_heap::{Heap, Stop};
use crate::set_calls::{HIDDEN_LOOP, SAME_PREFIX};
use lotos_automaton::AutomatonFault;
use lotos_suite::{CoverHalt, CoverSearch};
use lotos_terms::Label;
use lotos_text::Name;
use std::fmt::Write;

/// A specification, whether internal steps are observed, the most terms of a set, the most sets, and the line after
/// which the lines are written, empty for none.
type Row = (&'static str, bool, usize, usize, &'static str);

const SILENT: &str = "specification S : noexit behaviour i; stop endspec";

/// Sequences that lead to the same, of one length and of different ones.
const MERGING: &str =
    "specification S [a,b,c] : noexit behaviour b; c; a; stop [] a; (c; stop [] i; b; a; stop) endspec";

const ROWS: &[Row] = &[
    (HIDDEN_LOOP, false, 9, 9, ""),
    (HIDDEN_LOOP, false, 9, 9, "A A"),
    (HIDDEN_LOOP, true, 9, 9, ""),
    // A bound that the sets reach, and the next one.
    (HIDDEN_LOOP, false, 9, 3, ""),
    (HIDDEN_LOOP, false, 9, 2, ""),
    (SAME_PREFIX, false, 9, 9, ""),
    (SAME_PREFIX, false, 1, 9, ""),
    (SILENT, false, 9, 9, ""),
    (MERGING, false, 9, 9, ""),
];

pub fn rows(rt: &impl Print, heap: &Heap) -> Result<(), Stop> {
    print_rows(rt, heap, "cover: ", ROWS, write_row)
}

/// Writes the lines of a cover, and how it ends.
fn write_row(heap: &Heap, line: &mut Line, row: &Row) -> Result<(), Stop> {
    let (_, _, _, _, after) = *row;
    write_items(heap, line, after, |after| {
        let search = heap.retried(|| begin(heap, row, after))?;
        Ok(Cover { search, row: *row })
    })
}

/// The search for the lines after this one; after none if it is empty.
fn begin(heap: &Heap, row: &Row, after: &str) -> Result<Box<CoverSearch>, Stop> {
    let (text, strong, terms, states, _) = *row;
    let mark = mark_after(heap, after, strong)?;
    let table = Box::into_inner(normal_table_of(heap, text)?);
    let search = CoverSearch::begin(heap.alloc, table, strong, terms, states, mark);
    Ok(Box::new(heap.alloc, search)?)
}

/// A search for the lines of a cover, with its row.
#[derive(Drop)]
struct Cover {
    search: Box<CoverSearch>,
    row: Row,
}

impl Resumable for Cover {
    fn advance(&mut self, line: &mut Line, last: &mut Line) -> Result<NextResult, Stop> {
        let (_, _, terms, states, _) = self.row;
        let next = self.search.next();
        let gates = self.search.gates();
        match next {
            Ok(Some(found)) => write_line(gates, found.sequence.as_slice(), line, last),
            Ok(None) => write_end(line),
            Err(CoverHalt::Fault(AutomatonFault::OverTerms(labels))) => {
                write_halt(gates, labels.as_slice(), terms, "terms", line)
            }
            Err(CoverHalt::Fault(AutomatonFault::OverStates(labels))) => {
                write_halt(gates, labels.as_slice(), states, "states", line)
            }
            Err(CoverHalt::Fault(AutomatonFault::Memory)) => Ok(NextResult::Refusal),
            Err(CoverHalt::Failed) => Err(Stop::Row),
        }
    }

    fn has_failed(&mut self) -> bool {
        matches!(self.search.next(), Err(CoverHalt::Failed))
    }
}

/// Writes a line, and stores it as the last one.
fn write_line(
    gates: &[Name],
    labels: &[Label],
    line: &mut Line,
    last: &mut Line,
) -> Result<NextResult, Stop> {
    last.clear();
    put_sequence(last, gates, labels)?;
    write!(line, "{last}; ")?;
    Ok(NextResult::Item)
}

/// Writes that there are more of these than the bound, and the sequence at which there are.
fn write_halt(
    gates: &[Name],
    labels: &[Label],
    bound: usize,
    what: &str,
    line: &mut Line,
) -> Result<NextResult, Stop> {
    write!(line, "more than {bound} {what} at ")?;
    put_sequence(line, gates, labels)?;
    Ok(NextResult::End)
}
