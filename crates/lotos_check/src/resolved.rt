//! Behaviours with calls by number.

use lotos_text::{Functionality, Name};

/// A behaviour expression of a checked specification.
///
/// Calls are by the numbers of processes. The gates of a hide form and of a parallel expression are in the order of
/// their bytes, without repeats.
#[derive(Debug, Drop)]
pub enum Code {
    /// Inaction.
    Stop,
    /// Successful termination.
    Exit,
    /// Action prefix; `None` is the internal action.
    Prefix {
        action: Option<Name>,
        body: Box<Code>,
    },
    /// Choice.
    Choice {
        left: Box<Code>,
        right: Box<Code>,
    },
    /// Parallel composition; `None` synchronizes on all gates.
    Par {
        left: Box<Code>,
        sync: Option<Vec<Name>>,
        right: Box<Code>,
    },
    /// Hiding.
    Hide {
        gates: Vec<Name>,
        body: Box<Code>,
    },
    /// Enabling.
    Enable {
        left: Box<Code>,
        right: Box<Code>,
    },
    /// Disabling.
    Disable {
        left: Box<Code>,
        right: Box<Code>,
    },
    /// Process instantiation: the process, by its index in [`crate::Checked::processes`], and the actual gates in their
    /// order.
    Call {
        process: usize,
        gates: Vec<Name>,
    },
}

/// A process of a checked specification.
#[derive(Debug, Drop)]
pub struct Process {
    pub name: Name,
    /// The formal gates, in their order.
    pub formals: Vec<Name>,
    /// The declared functionality, which is that of the body.
    pub functionality: Functionality,
    pub body: Code,
}
