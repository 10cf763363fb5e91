//! The command `cover`, from the text to the lines of the cover.
ghost use Rattle.std.specs.Prelude.{IfOk};
ghost use Rattle.lotos_check.specs.CheckedView.{system_of};
ghost use Rattle.lotos_command.specs.Request.{HasCoverBounds};
ghost use Rattle.lotos_tool.specs.CoverOutcome.{AreCoverParts, IsCoverSearchFor, cover_meaning};

use crate::command::Command;
use crate::findings::{Listed, ListingPlace};
use crate::listing_output::{ListingOptions, nowhere, report_listing, unstarted, write_listing};
use crate::search_observer::Observed;
use lotos_check::Checked;
use lotos_command::{CoverRequest, Runs};
use lotos_device::{Sink, Source};
use lotos_listing::{Mark, Searched};
use lotos_normal::NormalTable;
use lotos_outcome::{Ended, OutputProgress, Rejection, Stop, read_asked, read_mark};
use lotos_output::ItemRuns;
use lotos_report::Visited;
use lotos_suite::CoverSearch;
use lotos_suite::laws::begun_cover_search_has_question;
use std::alloc::{AllocError, Global};
use std::io::Write;

/// Begins the search for the lines of the cover of an accepted specification.
fn begin_cover(
    alloc: Global,
    request: &CoverRequest,
    system: Checked,
    mark: Option<Mark>,
) -> Result<CoverSearch, AllocError>
    ensures { IfOk result (IsCoverSearchFor request.now (system_of system) mark) }
{
    begun_cover_search_has_question();
    let table = NormalTable::new(alloc, system)?;
    table.recall_sound();
    let search = CoverSearch::begin(
        alloc,
        table,
        request.strong,
        request.terms,
        request.states,
        mark,
    );
    Ok(search)
}

/// `cover` writes for each class of sequences after which the same can be observed the first of these sequences, with
/// each label that can come next; of the sequences made so those with which no longer one begins, each once, shorter ones
/// first, then in the order of their labels. With a mark only the lines after it are written. It stops when as many lines
/// as the limit are written. It writes nothing if some sequence reaches more normal forms than the request allows, or
/// leads to one set of them more than it allows.
impl Command for CoverRequest {
    ghost use Rattle.lotos_check.specs.CheckedView.{system_of};
    ghost use Rattle.lotos_command.specs.Request.{HasCoverBounds};
    ghost use Rattle.lotos_tool.specs.CoverOutcome.{AreCoverParts, cover_meaning};

    type Parts = (Option<Mark>, Checked);

    type Found = Listed;

    type Place = ListingPlace;

    ghost is_bounded = { HasCoverBounds };

    ghost meaning = { cover_meaning };

    ghost are_parts = { λ request left left' (mark, system). AreCoverParts request left left' (system_of system) mark };

    fn read_parts<R: Source, P: OutputProgress>(
        &self,
        alloc: Global,
        reader: &mut R,
        progress: &mut P,
    ) -> Result<(Option<Mark>, Checked), Rejection> {
        let mark = read_mark(alloc, &self.after, self.strong)?;
        let system = read_asked(alloc, &self.interface, reader, progress)?;
        Ok((mark, system))
    }

    fn write_answer<W: Sink, P: OutputProgress>(
        &self,
        alloc: Global,
        parts: (Option<Mark>, Checked),
        writer: &mut W,
        progress: &mut P,
    ) -> Ended<Listed, ListingPlace> {
        let (mark, system) = parts;
        match begin_cover(alloc, self, system, mark) {
            Ok(mut search) => {
                let options = ListingOptions {
                    runs: Runs::Omitted,
                    limit: self.limit,
                };
                let mut runs = ItemRuns::Omitted;
                write_listing(alloc, options, &mut runs, &mut search, writer, progress)
            }
            Err(AllocError) => unstarted(),
        }
    }

    fn nowhere(&self) -> ListingPlace {
        nowhere()
    }

    fn observed(&self) -> Observed<'_> {
        Observed {
            words: None,
            interface: &self.interface,
            reports_progress: self.progress,
            brief: self.brief,
            visited: Visited::Sets,
        }
    }

    fn report<E: Write>(
        &self,
        ended: &Ended<Listed, ListingPlace>,
        _searched: &Option<Searched>,
        err: &mut E,
    ) {
        let bound = match ended {
            Ended::Stopped {
                cause: Stop::States,
                ..
            } => self.states,
            _ => self.terms,
        };
        report_listing(ended, bound, err);
    }
}
