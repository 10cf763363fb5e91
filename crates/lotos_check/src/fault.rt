//! Why a specification breaks a static rule.
ghost use Rattle.std.specs.Prelude.{◌≡◌, alloc_error};
ghost use Rattle.lotos_check.specs.FaultOffsets.{offset_of};
ghost use Rattle.lotos_check.specs.declared.fault.CheckFault.TheVariants.{E99};

use lotos_text::{Functionality, Placed};
use std::alloc::{AllocError, AllocFailed};
use std::fmt;
use thiserror::Error;

/// Why a specification breaks a static rule. Each fault but E99 carries the name where it occurs, or the offset: bytes
/// from the start of the text.
#[derive(Debug, Drop, Error)]
pub enum CheckFault {
    /// One list of formal gates declares the gate twice; this is the second time.
    #[error("E20 gate {} is declared twice", .0.name.text())]
    E20(Placed),
    /// The gate is used where it is not declared.
    #[error("E21 gate {} is not declared", .0.name.text())]
    E21(Placed),
    /// No process with this name is visible.
    #[error("E22 process {} is not declared", .0.name.text())]
    E22(Placed),
    /// The call has another number of gates than the process that it names.
    #[error("E23 gates of {}: {formal} formal, {actual} actual", .call.name.text())]
    E23 {
        call: Placed,
        formal: usize,
        actual: usize,
    },
    /// One `where` declares the process twice; this is the second time.
    #[error("E24 process {} is declared twice", .0.name.text())]
    E24(Placed),
    /// The declared functionality is not that of the body.
    #[error("E25 {} {}", .name.name.text(), FunctionalityText(*.declared))]
    E25 {
        name: Placed,
        declared: Functionality,
    },
    /// The left operand of the `>>` at the offset has functionality noexit: it never terminates successfully.
    #[error("E26 left side of >> never exits")]
    E26(usize),
    /// Recursion is not guarded. `set` is the largest set of processes each of which has an unguarded call into it, by
    /// number and ascending; `name` is that of the first.
    #[error("E27 the unguarded calls of {} do not end", .name.name.text())]
    E27 {
        name: Placed,
        set: Vec<usize>,
    },
    /// Out of memory.
    #[error("E99 out of memory")]
    E99(AllocError),
}

impl CheckFault {
    /// The offset of the fault, in bytes from the start of the text; `None` for E99.
    pub fn at(&self) -> Option<usize>
        ensures { result ≡ offset_of self.now }
    {
        match self {
            CheckFault::E20(placed)
            | CheckFault::E21(placed)
            | CheckFault::E22(placed)
            | CheckFault::E24(placed) => Some(placed.at),
            CheckFault::E23 { call, .. } => Some(call.at),
            CheckFault::E25 { name, .. } | CheckFault::E27 { name, .. } => Some(name.at),
            CheckFault::E26(at) => Some(*at),
            CheckFault::E99(_) => None,
        }
    }
}

impl From<AllocError> for CheckFault {
    ghost from_gives = { λ x e. e ≡ E99 x };

    fn from(error: AllocError) -> CheckFault {
        CheckFault::E99(error)
    }
}

impl<T: Drop> From<AllocFailed<T>> for CheckFault {
    ghost from_gives = { λ _ e. e ≡ E99 alloc_error };

    fn from(_error: AllocFailed<T>) -> CheckFault {
        CheckFault::E99(AllocError)
    }
}

/// The text of E25: the declared functionality, and the other one, which is the body's.
#[derive(Clone, Copy, Debug)]
struct FunctionalityText(Functionality);

impl fmt::Display for FunctionalityText {
    fn fmt<W: fmt::Write>(&self, f: &mut fmt::Formatter<W>) -> fmt::Result {
        f.write_str(match self.0 {
            Functionality::Exit => "is declared exit and is noexit",
            Functionality::NoExit => "is declared noexit and is exit",
        })
    }
}
