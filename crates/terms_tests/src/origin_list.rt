//! The origins of all internal steps of a term.
ghost use Rattle.std.specs.Prelude.{◌<◌, length};
ghost use Rattle.lotos_terms.specs.TableView.{Grows};

use super::possible_run::can_end;
use lotos_listing::LabelFlags;
use lotos_normal::NormalTable;
use lotos_origins::{Origin, find_origins, follow_run, follow_run_after, internal_origin};
use lotos_terms::{Label, Step, Term};
use std::alloc::{AllocError, Global};

/// What makes each internal step of the term, in the order of the steps.
pub fn origins_of(
    alloc: Global,
    table: &mut NormalTable,
    term: Term,
) -> Result<Vec<Origin>, AllocError>
    requires { term < length table.old.terms }
    ensures { Grows table.old table.new }
{
    let steps = Vec::from_slice(alloc, table.successors(term)?)?;
    let mut origins = Vec::new(alloc);
    for step in &steps {
        if let Label::Internal = step.label {
            origins.push(internal_origin(alloc, table, term, step.target)?)?;
        }
    }
    Ok(origins)
}

/// The origins of the internal steps of a derivation by the run from the term to one that has no step with a refused
/// label; `None` if there is no such derivation.
pub fn run_origins(
    alloc: Global,
    table: &mut NormalTable,
    start: Term,
    run: &[Label],
    refused: &LabelFlags,
) -> Result<Option<Vec<Origin>>, AllocError>
    requires { start < length table.old.terms }
    ensures { Grows table.old table.new }
{
    if can_end(alloc, table, start, run, refused)? {
        let origins = find_origins(alloc, table, start, run, refused)?;
        Ok(Some(origins))
    } else {
        Ok(None)
    }
}

/// Whether the run leads to the same terms if it is followed after another one, which has its first half and then all
/// of it.
pub fn has_same_ends_after_another(
    alloc: Global,
    table: &mut NormalTable,
    start: Term,
    run: &[Label],
) -> Result<bool, AllocError>
    requires { start < length table.old.terms }
    ensures { Grows table.old table.new }
{
    let mut other = Vec::from_slice(alloc, &run[..run.len() / 2])?;
    other.extend_from_slice(run)?;
    let other = other.as_slice();
    let alone = follow_run(alloc, table, start, run)?;
    let earlier = follow_run(alloc, table, start, other)?;
    let followed = follow_run_after(alloc, table, start, run, earlier, other)?;
    Ok(followed.ends() == alone.ends())
}
