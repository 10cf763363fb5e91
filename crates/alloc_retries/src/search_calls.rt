//! Listings, by depth and by length. A search that runs out of memory is begun again after its last item.
ghost use Rattle.std.specs.Prelude.{List};
ghost use Rattle.lotos_check.specs.NameLists.{Name};
ghost use Rattle.lotos_listing.specs.Question.{HaveTexts};

use crate::front_end::{normal_table_of, table_of};
use crate::lines::{Line, print_rows, put};
use crate::mark_calls::mark_after;
use crate::pattern_calls::pattern_of;
use crate::resumed_search::{NextResult, Resumable, write_end, write_items};
use crate::retry_heap::{Heap, Stop};
use lotos_length::LengthSearch;
use lotos_listing::{Found, Halt};
use lotos_search::Search;
use lotos_terms::Label;
use std::fmt::Write;

/// What bounds the sequences of a listing.
#[derive(Clone, Copy)]
enum Extent {
    /// The most steps of a derivation.
    Depth(u8),
    /// The most labels of a sequence, of derivations of any number of steps.
    Length(u8),
}

use Extent::{Depth, Length};

/// A specification, the words of a pattern, whether internal steps are observed, the extent of the sequences, the line
/// after which the listing starts, empty for none, and the most terms.
#[derive(Clone, Copy)]
struct Row(Text, &'static [Text], bool, Extent, Text, usize);

type Text = &'static str;

const DISABLING: Text = "specification S [a,b] : exit behaviour a; exit [> b; stop endspec";

const TWO_ENDS: Text = "specification S [a,b] : noexit behaviour i; a; stop [] a; b; stop endspec";

const ENABLING: Text =
    "specification S [a] : exit behaviour P[a] where process P [x] : exit := x; exit >> P[x] endproc endspec";

const HIDDEN: Text =
    "specification S [a,b] : noexit behaviour hide a in a; b; stop [] b; stop endspec";

const BRANCHES: Text =
    "specification S [a,b] : noexit behaviour a; stop [] b; stop [] b; a; stop endspec";

const REPEATED: Text = "specification S [a,b] : noexit behaviour a; b; b; stop endspec";

const SAME_GATE: Text =
    "specification S [a] : noexit behaviour P[a,a] where process P [x,y] : noexit := x; stop |[x]| y; x; stop endproc endspec";

const INTERLEAVED: Text =
    "specification S [a,b,c] : noexit behaviour (a; stop ||| b; stop) ||| c; stop endspec";

/// The sequences begin with A; an internal step leads back to the beginning, and B ends.
const LOOP: Text =
    "specification S [a,b] : noexit behaviour P[a,b] where process P [x,y] : noexit := x; (i; P[x,y] [] y; stop) endproc endspec";

/// A chain of parallel compositions, which is regrouped.
const CHAIN: Text =
    "specification S [a,b,c,d] : noexit behaviour a; stop ||| b; stop ||| c; stop ||| d; i; stop endspec";

const ENDS: &[Text] = &["<until>", "<deadlock>"];

const REPETITION: &[Text] = &["<while>", "A", "B", "A"];

const END_OF_CHAIN: &[Text] = &["D", "C", "<until>", "<deadlock>"];

const ROWS: &[Row] = &[
    Row(DISABLING, ENDS, false, Depth(2), "", 100),
    Row(DISABLING, ENDS, false, Depth(2), "B", 100),
    Row(TWO_ENDS, &["A", "<deadlock>"], false, Depth(2), "", 100),
    Row(ENABLING, &["A", "A", "A"], false, Depth(5), "", 100),
    Row(HIDDEN, ENDS, true, Depth(2), "", 100),
    Row(BRANCHES, &["<any>"], false, Depth(2), "", 1),
    Row(REPEATED, &["<while>", "<any>"], false, Depth(3), "", 100),
    Row(SAME_GATE, ENDS, false, Depth(2), "", 100),
    Row(INTERLEAVED, &["<until>", "exit"], false, Depth(4), "", 100),
    Row(LOOP, &["<while>", "<any>"], false, Length(2), "", 100),
    Row(LOOP, ENDS, false, Length(3), "A A", 100),
    Row(LOOP, &["<any>", "<any>"], true, Length(2), "", 100),
    Row(LOOP, &["B", "A"], false, Length(5), "", 100),
    Row(LOOP, REPETITION, false, Length(4), "", 100),
    Row(BRANCHES, &["<any>"], false, Length(1), "", 1),
    Row(CHAIN, END_OF_CHAIN, false, Length(4), "", 100),
];

pub fn rows(rt: &impl Print, heap: &Heap) -> Result<(), Stop> {
    print_rows(rt, heap, "listing: ", ROWS, write_row)
}

/// Writes the items of a listing, and how it ends.
fn write_row(heap: &Heap, line: &mut Line, row: &Row) -> Result<(), Stop> {
    let Row(_, _, _, extent, after, _) = *row;
    match extent {
        Depth(most) => write_items(
            heap,
            line,
            after,
            |after| begin::<Search>(heap, row, most, after),
        ),
        Length(most) => write_items(
            heap,
            line,
            after,
            |after| begin::<LengthSearch>(heap, row, most, after),
        ),
    }
}

fn begin<S: ItemSearch>(heap: &Heap, row: &Row, most: u8, after: &str) -> Result<Items<S>, Stop> {
    let search = heap.retried(|| S::begun(heap, row, most, after))?;
    Ok(Items { search })
}

/// A search for the items of a listing.
#[derive(Drop)]
struct Items<S> {
    search: Box<S>,
}

impl<S: ItemSearch> Resumable for Items<S> {
    fn advance(&mut self, line: &mut Line, last: &mut Line) -> Result<NextResult, Stop> {
        let search = &mut *self.search;
        match search.next_item() {
            Ok(Some(found)) => write_item(search, &found, line, last),
            Ok(None) => write_end(line),
            Err(Halt::OverTerms(labels)) => write_over(search, labels.as_slice(), line),
            Err(Halt::Memory) => Ok(NextResult::Refusal),
            Err(Halt::Failed) => Err(Stop::Row),
        }
    }

    fn has_failed(&mut self) -> bool {
        matches!(self.search.next_item(), Err(Halt::Failed))
    }
}

/// The searches for the items of a listing, by depth and by length, as one.
trait ItemSearch: Sized + Drop {
    ghost use Rattle.lotos_listing.specs.ListingSteps.{HasPrintedLabels};
    ghost use Rattle.lotos_listing.specs.Order.{Label as Text};
    ghost use Rattle.lotos_terms.specs.TableView.{IsPrintedAs};

    /// The names of the gates.
    ghost names: { Self → List Name };

    /// The search for the items after a line, or for all if that is empty, in a new table.
    fn begun(heap: &Heap, row: &Row, most: u8, after: &str) -> Result<Box<Self>, Stop>;

    /// The next item, or `None` at the end of the listing.
    fn next_item(&mut self) -> Result<Option<Found>, Halt>
        ensures { HasPrintedLabels (names self.new) result };

    /// The text of a label: a gate's name, `exit` or `i`.
    fn label_text(&self, label: Label) -> &str
        requires { (text : Text) × IsPrintedAs (names self.now) label text };
}

impl ItemSearch for Search {
    ghost names = { λ s. s.question.names };

    fn begun(heap: &Heap, row: &Row, most: u8, after: &str) -> Result<Box<Search>, Stop> {
        let Row(text, words, strong, _, _, terms) = *row;
        if terms == 0 {
            return Err(Stop::Row);
        }
        let pattern = pattern_of(heap, words, strong)?;
        let mark = mark_after(heap, after, strong)?;
        let table = Box::into_inner(table_of(heap, text)?);
        let search = Search::begin(heap.alloc, table, pattern, most, mark, terms)?;
        Ok(Box::new(heap.alloc, search)?)
    }

    fn next_item(&mut self) -> Result<Option<Found>, Halt> {
        self.next()
    }

    fn label_text(&self, label: Label) -> &str {
        self.label_text(label)
    }
}

impl ItemSearch for LengthSearch {
    ghost names = { λ s. s.question.matches.names };

    /// Each item has its run.
    fn begun(heap: &Heap, row: &Row, most: u8, after: &str) -> Result<Box<LengthSearch>, Stop> {
        let Row(text, words, strong, _, _, terms) = *row;
        let pattern = pattern_of(heap, words, strong)?;
        let mark = mark_after(heap, after, strong)?;
        let table = Box::into_inner(normal_table_of(heap, text)?);
        let search = LengthSearch::begin(heap.alloc, table, pattern, most, terms, mark, true)?;
        Ok(Box::new(heap.alloc, search)?)
    }

    fn next_item(&mut self) -> Result<Option<Found>, Halt> {
        self.next()
    }

    fn label_text(&self, label: Label) -> &str {
        self.label_text(label)
    }
}

/// Writes an item, and stores its sequence as the last one.
fn write_item<S: ItemSearch>(
    search: &S,
    found: &Found,
    line: &mut Line,
    last: &mut Line,
) -> Result<NextResult, Stop>
    requires sequence { HaveTexts (S.names search.now) found.now.sequence.items }
    requires word { HaveTexts (S.names search.now) found.now.word.items }
{
    last.clear();
    spell(last, search, found.sequence.as_slice())?;
    write!(line, "{last} : ")?;
    spell(line, search, found.word.as_slice())?;
    put(line, "; ")?;
    Ok(NextResult::Item)
}

/// Writes the prefix whose terms are more than the bound.
fn write_over<S: ItemSearch>(
    search: &S,
    prefix: &[Label],
    line: &mut Line,
) -> Result<NextResult, Stop>
    requires { HaveTexts (S.names search.now) prefix.now }
{
    put(line, "over ")?;
    spell(line, search, prefix)?;
    Ok(NextResult::End)
}

/// Writes a sequence of labels of the search, separated by one blank each.
fn spell<S: ItemSearch>(line: &mut Line, search: &S, labels: &[Label]) -> Result<(), Stop>
    requires { HaveTexts (S.names search.now) labels.now }
{
    if labels.is_empty() {
        put(line, "<empty>")?;
    }
    let mut is_first = true;
    for label in labels {
        if !is_first {
            put(line, " ")?;
        }
        put(line, search.label_text(*label))?;
        is_first = false;
    }
    Ok(())
}
