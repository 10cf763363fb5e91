//! The outcomes of commands, and their exit statuses.
ghost use Rattle.std.specs.Prelude.{◌≡◌, ◌==◌, MatchOption, None, Some};
ghost use Rattle.lotos_outcome.specs.Outcomes.{is_unwritten, is_write, refusal_of, status_of, stop_status};

use crate::refusal::Refusal;

/// How a command ended. `F` is what it finds, and `P` what is known of the place where it stopped.
#[derive(Debug, Drop)]
pub enum Ended<F, P> {
    /// Everything was written and flushed, and this was found.
    Done(F),
    /// Nothing was written, for this reason.
    Refused(Refusal),
    /// It stopped before its end, for this cause and at this place.
    Stopped { cause: Stop, place: P },
}

/// Why a command stopped before its end.
#[derive(Clone, Copy, Debug, PartialEq, Eq)]
pub enum Stop {
    /// As many lines as the limit were written.
    Limit,
    /// A sequence reaches more terms, or more normal forms, than the request allows.
    Terms,
    /// More states, or more sets of normal forms, were reached than the request allows.
    States,
    /// A suite has more lines than are written.
    Lines,
    /// Out of memory.
    Memory,
    /// The output could not be written or flushed.
    Write,
}

/// What a command finds if nothing stops it.
pub trait Finding {
    ghost use Rattle.std.specs.Prelude.{◌≡◌, Bool};

    /// Whether it is what was asked for.
    ghost is_yes: { Self → Bool };

    /// Whether it is what was asked for: then the exit status is 0, and otherwise 1.
    fn is_yes(&self) -> bool
        ensures { result ≡ is_yes self.now };
}

impl<F, P> Ended<F, P> {
    /// Why the command is refused, if it is.
    pub fn refusal(&self) -> Option<&Refusal>
        ensures { MatchOption result (refusal_of self.now ≡ None)
            (λ refusal. refusal_of self.now ≡ Some refusal.now) }
    {
        match self {
            Ended::Refused(refusal) => Some(refusal),
            _ => None,
        }
    }
}

impl<F: Finding, P> Ended<F, P> {
    /// The exit status: 0 if what was asked for was found, 1 if it was not, 2 if the command was refused, and that of the
    /// stop if it stopped: 3 at the limit, 4 for too many terms, states or lines, 5 out of memory, 6 for output that
    /// cannot be written.
    pub fn status(&self) -> u8
        ensures status { result ≡ status_of F.is_yes self.now }
        ensures output { is_unwritten self.now ≡ (result == 6) }
    {
        match self {
            Ended::Done(found) => { if found.is_yes() { 0 } else { 1 } }
            Ended::Refused(_) => 2,
            Ended::Stopped { cause, .. } => cause.status(),
        }
    }
}

impl Stop {
    /// The exit status of a command that stops for this cause.
    pub fn status(self) -> u8
        ensures status { result ≡ stop_status self }
        ensures output { is_write self ≡ (result == 6) }
    {
        match self {
            Stop::Limit => 3,
            Stop::Terms | Stop::States | Stop::Lines => 4,
            Stop::Memory => 5,
            Stop::Write => 6,
        }
    }
}
