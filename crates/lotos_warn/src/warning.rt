//! Warnings, their texts and their order.
ghost use Rattle.std.specs.Prelude.{◌≡◌, refl};
ghost use Rattle.std.proofs.lemmas.Cmp.{eq_by_cmp_equiv};
ghost use Rattle.std.specs.Cmp.{partial_equiv_from_equiv, partial_order_from_own_ties, partial_order_from_total};
ghost use Rattle.std.specs.Ordering.{as_partial_cmp, eq_by_cmp};
ghost use Rattle.lotos_warn.specs.WarningOrder.{context_of, offset_of, rank_of, side_rank, subject_of, warning_cmp, warning_total};

use crate::shown_name::{Shown, ShownName, ShownNames};
use lotos_text::{Name, Placed};
use std::cmp::Ordering;
use std::fmt;

/// A side of a parallel composition.
#[derive(Clone, Copy, Debug, PartialEq, Eq)]
pub enum Side {
    Left,
    Right,
}

impl Side {
    /// The left side first, after the other kinds of warnings.
    fn rank(self) -> usize
        ensures { result ≡ side_rank self }
    {
        match self {
            Side::Left => 5,
            Side::Right => 6,
        }
    }
}

/// What the static rules allow and is still likely to be a mistake.
///
/// Warnings are ordered by their offsets; at one offset by their kinds, those about the left side first, and then by
/// their names.
#[derive(Debug, Drop)]
pub enum Warning {
    /// No call names the process.
    UncalledProcess(Placed),
    /// Calls name the process, but none in the behaviour of the specification or in a process that is reached from there.
    UnreachedProcess(Placed),
    /// The specification or a process that is declared `exit`, and whose behaviour can never terminate.
    NeverExits(Placed),
    /// The specification, whose behaviour is not `stop`, and can still do nothing: it is in a deadlock from the start.
    DeadStart(Placed),
    /// A formal gate that the behaviour of its definition does not use.
    UnusedGate { gate: Placed, definition: ShownName },
    /// A gate in the list of a parallel composition, the first of its name there, that one side never offers.
    UnofferedGate { gate: Placed, side: Side },
    /// A gate in the list of a hiding that the behaviour inside does not use.
    UnusedHidden(Placed),
    /// A gate in the list of a hiding that both sides of a parallel composition inside offer, and on which neither that
    /// composition nor one around it inside the hiding synchronizes.
    UnsynchronizedHidden(Placed),
    /// A call outside of its process, by the name of the process, whose actual gates are the formal ones of the process in
    /// another order, and the formal ones. No other call from outside has these in their own order.
    ExchangedGates { process: Placed, gates: ShownNames },
}

impl Warning {
    /// The offset of the process in its definition or in a call, or of the gate in its list: bytes from the start of the
    /// text.
    pub fn at(&self) -> usize
        ensures { result ≡ offset_of self.now }
    {
        match self {
            Warning::UncalledProcess(process) => process.at,
            Warning::UnreachedProcess(process) => process.at,
            Warning::NeverExits(name) => name.at,
            Warning::DeadStart(name) => name.at,
            Warning::UnusedGate { gate, .. } => gate.at,
            Warning::UnofferedGate { gate, .. } => gate.at,
            Warning::UnusedHidden(gate) => gate.at,
            Warning::UnsynchronizedHidden(gate) => gate.at,
            Warning::ExchangedGates { process, .. } => process.at,
        }
    }

    fn rank(&self) -> usize
        ensures { result ≡ rank_of self.now }
    {
        match self {
            Warning::UncalledProcess(_) => 0,
            Warning::UnreachedProcess(_) => 1,
            Warning::NeverExits(_) => 2,
            Warning::DeadStart(_) => 3,
            Warning::UnusedGate { .. } => 4,
            Warning::UnofferedGate { side, .. } => side.rank(),
            Warning::UnusedHidden(_) => 7,
            Warning::UnsynchronizedHidden(_) => 8,
            Warning::ExchangedGates { .. } => 9,
        }
    }

    /// The process or the gate.
    fn subject(&self) -> &Name
        ensures { result.now ≡ subject_of self.now }
    {
        match self {
            Warning::UncalledProcess(process) => &process.name,
            Warning::UnreachedProcess(process) => &process.name,
            Warning::NeverExits(name) => &name.name,
            Warning::DeadStart(name) => &name.name,
            Warning::UnusedGate { gate, .. } => &gate.name,
            Warning::UnofferedGate { gate, .. } => &gate.name,
            Warning::UnusedHidden(gate) => &gate.name,
            Warning::UnsynchronizedHidden(gate) => &gate.name,
            Warning::ExchangedGates { process, .. } => &process.name,
        }
    }

    /// The definition of an unused gate or the formal gates of a call's process, as they are shown; of another warning its
    /// process or its gate.
    fn context(&self) -> &str
        ensures { result.now ≡ context_of self.now }
    {
        match self {
            Warning::UncalledProcess(process) => process.name.text(),
            Warning::UnreachedProcess(process) => process.name.text(),
            Warning::NeverExits(name) => name.name.text(),
            Warning::DeadStart(name) => name.name.text(),
            Warning::UnusedGate { definition, .. } => definition.text(),
            Warning::UnofferedGate { gate, .. } => gate.name.text(),
            Warning::UnusedHidden(gate) => gate.name.text(),
            Warning::UnsynchronizedHidden(gate) => gate.name.text(),
            Warning::ExchangedGates { gates, .. } => gates.text(),
        }
    }
}

impl PartialEq for Warning {
    ghost eq = { eq_by_cmp warning_cmp };

    ghost laws = { partial_equiv_from_equiv (eq_by_cmp_equiv warning_total) };

    fn eq(&self, other: &Warning) -> bool {
        self.cmp(other).is_eq()
    }
}

impl Eq for Warning {
    ghost laws = { eq_by_cmp_equiv warning_total };
}

impl PartialOrd for Warning {
    ghost partial_cmp = { as_partial_cmp warning_cmp };

    ghost laws = { partial_order_from_own_ties (partial_order_from_total warning_total) (λ v w. refl) };

    fn partial_cmp(&self, other: &Warning) -> Option<Ordering> {
        Some(self.cmp(other))
    }
}

impl Ord for Warning {
    ghost cmp = { warning_cmp };

    ghost total = { warning_total };

    ghost matches_partial_cmp = { λ v w. refl };

    ghost matches_eq = { λ v w. refl };

    fn cmp(&self, other: &Warning) -> Ordering {
        let subjects = self.subject().cmp(other.subject());
        let contexts = self.context().cmp(other.context());
        let ranks = self.rank().cmp(&other.rank());
        self.at()
            .cmp(&other.at())
            .then(ranks.then(subjects.then(contexts)))
    }
}

impl fmt::Display for Warning {
    fn fmt<W: fmt::Write>(&self, f: &mut fmt::Formatter<W>) -> fmt::Result {
        match self {
            Warning::UncalledProcess(process) => {
                write!(f, "process {} is never called", Shown(&process.name))
            }
            Warning::UnreachedProcess(process) => write!(
                f,
                "process {} is never reached from the behaviour of the specification",
                Shown(&process.name)
            ),
            Warning::NeverExits(name) => write!(
                f,
                "{} is declared exit, but can never terminate",
                Shown(&name.name)
            ),
            Warning::DeadStart(name) => write!(
                f,
                "the behaviour of {} can do nothing: no action, no internal step, no termination",
                Shown(&name.name)
            ),
            Warning::UnusedGate { gate, definition } => write!(
                f,
                "gate {} of {} is not used",
                Shown(&gate.name),
                definition.text()
            ),
            Warning::UnofferedGate { gate, side } => write!(
                f,
                "gate {} of `|[..]|` is never offered on the {}",
                Shown(&gate.name),
                side_text(*side)
            ),
            Warning::UnusedHidden(gate) => write!(
                f,
                "gate {} of `hide` is not used",
                Shown(&gate.name)
            ),
            Warning::UnsynchronizedHidden(gate) => write!(
                f,
                "gate {} of `hide` is offered on both sides of a parallel composition, which do not synchronize on it",
                Shown(&gate.name)
            ),
            Warning::ExchangedGates { process, gates } => write!(
                f,
                "the gates of {} have changed places: its own are {}",
                Shown(&process.name),
                gates.text()
            ),
        }
    }
}

fn side_text(side: Side) -> &'static str {
    match side {
        Side::Left => "left",
        Side::Right => "right",
    }
}
