//! The position of a text's fault, by `lotos_text` and `lotos_check`.
ghost use Rattle.std.specs.Prelude.{◌≡◌, ◌≤◌, IfOk, IfSome, None, length};
ghost use Rattle.lotos_check.specs.AcceptedText.{IsRejectedFor, accept_offset};
ghost use Rattle.uses.specs.FaultPositions.{IsVerdict};

use lotos_check::{AcceptFault, accept};
use lotos_text::line_column;
use std::alloc::{AllocError, Global};

/// Whether a text is accepted, and if not, where its fault is.
#[derive(Clone, Copy, Debug, PartialEq, Eq)]
pub enum Verdict {
    /// It spells a specification that meets the static rules.
    Accepted,
    /// It is longer than a text may be, a fault without a position.
    TooLong,
    /// It has a fault at this line and column, each counted from 1; the column counts bytes.
    Faulty { line: usize, column: usize },
}

/// Whether a text is accepted, and if not, where its fault is: the one that [`accept`] returns.
///
/// # Errors
///
/// An allocation fails.
pub fn find_fault(alloc: Global, text: &[u8]) -> Result<Verdict, AllocError>
    ensures { IfOk result (IsVerdict text.now) }
{
    match accept(alloc, text) {
        Ok(_) => Ok(Verdict::Accepted),
        Err(fault) => fault_verdict(text, &fault),
    }
}

/// The verdict for a fault of the text.
fn fault_verdict(text: &[u8], fault: &AcceptFault) -> Result<Verdict, AllocError>
    requires fault { IsRejectedFor text.now fault.now }
    requires inside { IfSome (accept_offset fault.now) (λ at. at ≤ length text.now) }
    ensures { IfOk result (IsVerdict text.now) }
{
    match fault.at() {
        Some(at) => {
            let (line, column) = line_column(text, at);
            Ok(Verdict::Faulty { line, column })
        }
        None => unplaced_verdict(text, fault),
    }
}

/// The verdict for a fault without an offset.
fn unplaced_verdict(text: &[u8], fault: &AcceptFault) -> Result<Verdict, AllocError>
    requires fault { IsRejectedFor text.now fault.now }
    requires unplaced { accept_offset fault.now ≡ None }
    ensures { IfOk result (IsVerdict text.now) }
{
    match fault {
        AcceptFault::Text(_) => Ok(Verdict::TooLong),
        AcceptFault::Check(_) => unreachable!(),
        AcceptFault::Memory => Err(AllocError),
    }
}
