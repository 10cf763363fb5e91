//! The heap, which retries calls that run out of memory, and why the program stops.
ghost use Rattle.std.specs.Prelude.{◌≡◌};

use lotos_automaton::AutomatonFault;
use lotos_check::{AcceptFault, CheckFault};
use lotos_command::CommandFault;
use lotos_compare::CompareFault;
use lotos_device::ReadFault;
use lotos_ends::EndsFault;
use lotos_ever::Halt;
use lotos_listing::MarkFault;
use lotos_pattern::PatternFault;
use lotos_sets::{FollowFault, SetFault};
use lotos_text::TextFault;
use std::alloc::{AllocError, AllocFailed, Global};
use std::cell::Cell;
use std::{fmt, io};

/// The heap, with the number of calls that ran out of memory.
#[derive(Drop)]
pub struct Heap {
    pub alloc: Global,
    failures: Cell<u64>,
}

impl Heap {
    pub fn new(alloc: Global) -> Heap {
        let failures = Cell::new(0);
        Heap { alloc, failures }
    }

    /// What the call returns. If it runs out of memory, that is counted, and it is made once more.
    pub fn retried<T: Drop, E: Retryable, F: Fn() -> Result<T, E>>(&self, call: F) -> Result<T, E>
        requires { F.IsAlwaysCallable call }
        ensures { F.post call result }
    {
        self.retried_on(&mut (), |_| call())
    }

    /// The same for a call that changes `state`. It may be made on what is there, and then on what a call left there.
    pub fn retried_on<S, T: Drop, E: Retryable, F: Fn(&mut S) -> Result<T, E>>(
        &self,
        state: &mut S,
        call: F,
    ) -> Result<T, E>
        requires first { (s : _) → s.now ≡ state.old → F.pre call s }
        requires again { (s : _) (r : _) (left : _) → s.now ≡ state.old → F.post call s r left →
            (t : _) → t.now ≡ left.now → F.pre call t }
        ensures { (s : _) × (left : _) × F.post call s result left × (left.now ≡ state.new) }
    {
        let answer = call(state);
        if !answer.as_ref().is_err_and(|error| error.is_refused()) {
            return answer;
        }
        self.count_failure();
        call(state)
    }

    /// Counts a call that ran out of memory.
    pub fn count_failure(&self) {
        self.failures.set(self.failures.get().saturating_add(1));
    }

    pub fn failures(&self) -> u64 {
        self.failures.get()
    }
}

/// What a call that is retried returns if it fails.
pub trait Retryable: Drop {
    /// Whether the call ran out of memory.
    fn is_refused(&self) -> bool;
}

impl<E: Fault> Retryable for E {
    fn is_refused(&self) -> bool {
        self.is_memory()
    }
}

impl Retryable for Stop {
    fn is_refused(&self) -> bool {
        matches!(self, Stop::Memory)
    }
}

/// A fault of the libraries.
pub trait Fault: Drop {
    /// Whether it is that memory ran out. Some have no other cause.
    fn is_memory(&self) -> bool {
        true
    }
}

impl Fault for AllocError {}

impl<T: Drop> Fault for AllocFailed<T> {}

impl Fault for TextFault {
    fn is_memory(&self) -> bool {
        matches!(self, TextFault::E99(_))
    }
}

impl Fault for CheckFault {
    fn is_memory(&self) -> bool {
        matches!(self, CheckFault::E99(_))
    }
}

impl Fault for AcceptFault {
    fn is_memory(&self) -> bool {
        matches!(self, AcceptFault::Memory)
    }
}

impl Fault for PatternFault {
    fn is_memory(&self) -> bool {
        matches!(self, PatternFault::E99(_))
    }
}

impl Fault for MarkFault {
    fn is_memory(&self) -> bool {
        matches!(self, MarkFault::E99(_))
    }
}

impl Fault for Halt {
    fn is_memory(&self) -> bool {
        matches!(self, Halt::Memory)
    }
}

impl Fault for EndsFault {
    fn is_memory(&self) -> bool {
        matches!(self, EndsFault::Memory)
    }
}

impl Fault for SetFault {
    fn is_memory(&self) -> bool {
        matches!(self, SetFault::Memory)
    }
}

impl Fault for AutomatonFault {
    fn is_memory(&self) -> bool {
        matches!(self, AutomatonFault::Memory)
    }
}

impl Fault for CompareFault {
    fn is_memory(&self) -> bool {
        matches!(self, CompareFault::Memory)
    }
}

impl Fault for FollowFault {
    fn is_memory(&self) -> bool {
        matches!(self, FollowFault::Memory)
    }
}

impl Fault for CommandFault {
    fn is_memory(&self) -> bool {
        matches!(self, CommandFault::Memory)
    }
}

impl Fault for ReadFault {
    fn is_memory(&self) -> bool {
        matches!(self, ReadFault::Memory)
    }
}

/// Why the program stops before its end.
#[derive(Clone, Copy, Debug, PartialEq, Eq)]
pub enum Stop {
    /// A call ran out of memory twice.
    Memory,
    /// A table has invalid arguments where valid ones are needed, or a search does not go on as it must.
    Row,
    /// A line is too long.
    Line,
    /// Standard output could not be written.
    Output,
}

impl<E: Fault> From<E> for Stop {
    fn from(fault: E) -> Stop {
        if fault.is_memory() {
            Stop::Memory
        } else {
            Stop::Row
        }
    }
}

impl From<fmt::Error> for Stop {
    fn from(_error: fmt::Error) -> Stop {
        Stop::Line
    }
}

impl From<io::Error> for Stop {
    fn from(_error: io::Error) -> Stop {
        Stop::Output
    }
}
