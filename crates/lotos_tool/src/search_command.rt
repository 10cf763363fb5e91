//! The command `search`, from the text to the lines of the listing.
ghost use Rattle.std.specs.Prelude.{◌≡◌, ◌≤◌, IfOk, false};
ghost use Rattle.lotos_check.specs.CheckedView.{system_of};
ghost use Rattle.lotos_command.specs.Request.{HasSearchBounds};
ghost use Rattle.lotos_outcome.specs.Calls.{Answered};
ghost use Rattle.lotos_outcome.specs.Outcomes.{is_unwritten};
ghost use Rattle.lotos_output.specs.ItemRuns.{runs_view};
ghost use Rattle.lotos_output.specs.NamedRuns.{writes_runs};
ghost use Rattle.lotos_tool.specs.ListingQuestions.{ListingState, depth_state, length_state};
ghost use Rattle.lotos_tool.specs.SearchOutcome.{AreSearchParts, IsSearchAskedOf, IsSearchFor, search_answering, search_meaning};
ghost use Rattle.lotos_tool.specs.WrittenItems.{AreRunsFor};
ghost use Rattle.lotos_command.specs.declared.command.Extent.TheVariants.{Depth, Length};

use crate::command::Command;
use crate::findings::{Listed, ListingPlace};
use crate::listing_output::{ListingOptions, nowhere, report_listing, unstarted, write_listing};
use crate::search_observer::Observed;
use lotos_check::Checked;
use lotos_command::{Extent, Runs, SearchRequest};
use lotos_device::{Sink, Source};
use lotos_length::LengthSearch;
use lotos_length::laws::begun_length_search_has_question;
use lotos_listing::{Mark, Searched};
use lotos_normal::NormalTable;
use lotos_outcome::{
    Ended, OutputProgress, Rejection, read_asked, read_mark, read_pattern, refuse_unknown_gates,
};
use lotos_output::ItemRuns;
use lotos_pattern::Pattern;
use lotos_report::{AskedWords, Visited, WordCommand, note_empty_pattern, note_first_labels};
use lotos_runs::laws::match_question_is_unique;
use lotos_search::Search;
use lotos_search::laws::begun_search_has_question;
use lotos_terms::Table;
use std::alloc::{AllocError, Global};
use std::io::Write;

/// What was read for a request.
#[derive(Drop)]
pub struct SearchParts {
    /// The specification that is asked.
    system: Checked,
    /// The pattern of the words.
    pattern: Pattern,
    /// The mark of the line, if one is given.
    mark: Option<Mark>,
}

/// Writes the items of the listing of an accepted specification, with their runs as is wanted.
fn list_items<W: Sink, P: OutputProgress>(
    alloc: Global,
    request: &SearchRequest,
    parts: SearchParts,
    runs: &mut ItemRuns,
    writer: &mut W,
    progress: &mut P,
) -> Ended<Listed, ListingPlace>
    requires bounds { HasSearchBounds request.now }
    requires runs { (search : ListingState) →
        IsSearchFor request.now (system_of parts.system) parts.pattern parts.mark search →
        AreRunsFor search.question request.now.runs (runs_view runs.old) }
    requires writer { (W.state writer.old).has_failed ≡ false }
    ensures ends { Answered (search_answering request.now)
        (IsSearchAskedOf request.now (system_of parts.system) parts.pattern parts.mark)
        (W.state writer.old).written (W.state writer.new).written result }
    ensures failed { (W.state writer.new).has_failed ≡ is_unwritten result }
{
    let options = ListingOptions {
        runs: request.runs,
        limit: request.limit,
    };
    match request.extent {
        Extent::Depth(depth) => match begin_by_depth(alloc, request, depth, parts) {
            Ok(mut search) => write_listing(alloc, options, runs, &mut search, writer, progress),
            Err(AllocError) => unstarted(),
        },
        Extent::Length(length) => match begin_by_length(alloc, request, length, parts) {
            Ok(mut search) => write_listing(alloc, options, runs, &mut search, writer, progress),
            Err(AllocError) => unstarted(),
        },
    }
}

/// How the runs of the listing of an accepted specification are written.
fn begin_runs(
    alloc: Global,
    request: &SearchRequest,
    parts: &SearchParts,
) -> Result<ItemRuns, AllocError>
    ensures { IfOk result (λ runs. (search : ListingState) →
        IsSearchFor request.now (system_of parts.now.system) parts.now.pattern parts.now.mark search →
        AreRunsFor search.question request.now.runs (runs_view runs)) }
{
    match_question_is_unique();
    ItemRuns::new(alloc, request.runs, &parts.system, &parts.pattern)
}

/// Begins the search of an accepted specification for the sequences of derivations of at most `depth` steps.
fn begin_by_depth(
    alloc: Global,
    request: &SearchRequest,
    depth: u8,
    parts: SearchParts,
) -> Result<Search, AllocError>
    requires some { 1 ≤ request.now.terms }
    requires extent { request.now.extent ≡ Depth depth }
    ensures { IfOk result (λ search.
        IsSearchFor request.now (system_of parts.system) parts.pattern parts.mark (depth_state search)) }
{
    begun_search_has_question();
    let SearchParts {
        system,
        pattern,
        mark,
    } = parts;
    let table = Table::new(alloc, system)?;
    table.recall_sound();
    Search::begin(alloc, table, pattern, depth, mark, request.terms)
}

/// Begins the search of an accepted specification for the sequences of at most `length` labels. The runs of the
/// sequences are asked for only if they are written.
fn begin_by_length(
    alloc: Global,
    request: &SearchRequest,
    length: u8,
    parts: SearchParts,
) -> Result<LengthSearch, AllocError>
    requires extent { request.now.extent ≡ Length length }
    ensures { IfOk result (λ search.
        IsSearchFor request.now (system_of parts.system) parts.pattern parts.mark (length_state search)) }
{
    begun_length_search_has_question();
    let SearchParts {
        system,
        pattern,
        mark,
    } = parts;
    let table = NormalTable::new(alloc, system)?;
    table.recall_sound();
    let with_runs = writes_runs(request.runs);
    LengthSearch::begin(
        alloc,
        table,
        pattern,
        length,
        request.terms,
        mark,
        with_runs,
    )
}

/// Whether lines have runs.
fn writes_runs(runs: Runs) -> bool
    ensures { result ≡ writes_runs runs }
{
    match runs {
        Runs::Omitted => false,
        Runs::Labels | Runs::Origins => true,
    }
}

/// `search` lists the sequences that match a pattern: what is observed of the derivations of at most the request's depth
/// of steps, or, if it has a length in place of a depth, the sequences of at most so many labels that are observed of any;
/// each once, shorter ones first, then in the order of their labels. With a mark only the sequences after it are listed.
/// It stops when as many lines as the limit are written, and at the first prefix that can still match and reaches more
/// terms than the request allows (normal forms, if it has a length).
impl Command for SearchRequest {
    ghost use Rattle.lotos_check.specs.CheckedView.{system_of};
    ghost use Rattle.lotos_command.specs.Request.{HasSearchBounds};
    ghost use Rattle.lotos_tool.specs.SearchOutcome.{AreSearchParts, search_meaning};

    type Parts = SearchParts;

    type Found = Listed;

    type Place = ListingPlace;

    ghost is_bounded = { HasSearchBounds };

    ghost meaning = { search_meaning };

    ghost are_parts = { λ request left left' parts.
        AreSearchParts request left left' (system_of parts.system) parts.pattern parts.mark };

    fn read_parts<R: Source, P: OutputProgress>(
        &self,
        alloc: Global,
        reader: &mut R,
        progress: &mut P,
    ) -> Result<SearchParts, Rejection> {
        let pattern = read_pattern(alloc, &self.words, self.strong)?;
        let mark = read_mark(alloc, &self.after, self.strong)?;
        let system = read_asked(alloc, &self.interface, reader, progress)?;
        refuse_unknown_gates(alloc, &self.words, self.known, &system)?;
        Ok(SearchParts {
            system,
            pattern,
            mark,
        })
    }

    fn write_answer<W: Sink, P: OutputProgress>(
        &self,
        alloc: Global,
        parts: SearchParts,
        writer: &mut W,
        progress: &mut P,
    ) -> Ended<Listed, ListingPlace> {
        match begin_runs(alloc, self, &parts) {
            Ok(mut runs) => list_items(alloc, self, parts, &mut runs, writer, progress),
            Err(AllocError) => unstarted(),
        }
    }

    fn nowhere(&self) -> ListingPlace {
        nowhere()
    }

    fn observed(&self) -> Observed<'_> {
        Observed {
            words: Some(AskedWords {
                command: WordCommand::Search,
                words: self.words.as_slice(),
                refuses_unknown: self.known,
            }),
            interface: &self.interface,
            reports_progress: self.progress,
            brief: self.brief,
            visited: Visited::Prefixes,
        }
    }

    fn report<E: Write>(
        &self,
        ended: &Ended<Listed, ListingPlace>,
        _searched: &Option<Searched>,
        err: &mut E,
    ) {
        report_listing(ended, self.terms, err);
    }

    fn note<E: Write>(&self, ended: &Ended<Listed, ListingPlace>, err: &mut E) {
        match ended {
            Ended::Done(listed) if listed.lines == 0 => {
                note_first_labels(self.words.as_slice(), err);
            }
            Ended::Done(_) => note_empty_pattern(self.words.as_slice(), err),
            _ => {}
        }
    }
}
