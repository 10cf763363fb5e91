//! A run of a specification, by `lotos_terms`.
ghost use Rattle.std.specs.Prelude.{◌<◌, IfOk, length};
ghost use Rattle.lotos_terms.specs.TableView.{Grows, IsSoundView};
ghost use Rattle.uses.specs.TermRuns.{IsRunOf, IsStepIfAny};

use lotos_terms::laws::growth_is_transitive;
use lotos_terms::{Step, Table, Term};
use std::alloc::{AllocError, Global};

/// Follows the first step of each term from the start, for at most `depth` steps, and returns these steps: a run of the
/// specification. It ends early only at a deadlock. Internal steps and `exit` count. The contract does not say that the
/// first steps are taken.
///
/// # Errors
///
/// An allocation fails. Even then the table may have grown.
pub fn first_run(alloc: Global, table: &mut Table, depth: usize) -> Result<Vec<Step>, AllocError>
    ensures grows { Grows table.old table.new }
    ensures sound { IsSoundView table.new }
    ensures run { IfOk result (λ v. IsRunOf table.new table.new.start v.items depth) }
{
    growth_is_transitive();
    let mut run = Vec::new(alloc);
    let mut here = table.start();
    for _ in 0..depth {
        let next = first_step(table, here)?;
        match next {
            None => return Ok(run),
            Some(step) => {
                let to = step.target;
                run.push(step)?;
                here = to;
            }
        }
    }
    Ok(run)
}

/// The first step of a term; `None` at a deadlock.
fn first_step(table: &mut Table, here: Term) -> Result<Option<Step>, AllocError>
    requires { here < length table.old.terms }
    ensures grows { Grows table.old table.new }
    ensures sound { IsSoundView table.new }
    ensures step { IfOk result (IsStepIfAny table.new here) }
{
    match table.successors(here)?.first() {
        None => Ok(None),
        Some(step) => Ok(Some(*step)),
    }
}
