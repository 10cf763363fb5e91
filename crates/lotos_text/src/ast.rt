//! The AST of a specification.
//!
//! The forms are those of ISO 8807:1989: behaviour expressions and process definitions. Parentheses have no node.
ghost use Rattle.std.specs.Prelude.{◌≡◌, IfOk};

use crate::name::Name;
use std::alloc::{AllocError, Global};

/// A name with its offset in the text.
#[derive(Debug, Drop)]
pub struct Placed {
    pub name: Name,
    /// The offset of its first byte.
    pub at: usize,
}

impl Placed {
    /// A copy of the name with its offset. Fails if an allocation fails.
    pub fn copy(&self, alloc: Global) -> Result<Placed, AllocError>
        ensures { IfOk result (λ p. p ≡ self.now) }
    {
        let name = self.name.copy(alloc)?;
        Ok(Placed { name, at: self.at })
    }
}

/// What a prefix does first.
#[derive(Debug, Drop)]
pub enum Action {
    /// The internal action `i`.
    Internal,
    Gate(Placed),
}

/// What a definition declares of its termination. `noexit` promises that the behaviour never terminates successfully.
/// `exit` promises nothing: `P := x; P` may be declared `exit` and never ends.
#[derive(Clone, Copy, Debug, PartialEq, Eq)]
pub enum Functionality {
    Exit,
    NoExit,
}

/// The gates on which both sides of a parallel expression synchronize, besides termination, on which they always do.
#[derive(Debug, Drop)]
pub enum SyncSet {
    /// The gates in the list of `|[..]|`, in its order; none for `|||` and `|[]|`.
    Gates(Vec<Placed>),
    /// All gates, `||`.
    All,
}

/// A behaviour expression.
#[derive(Debug, Drop)]
pub enum Behaviour {
    /// Inaction, `stop`.
    Stop,
    /// Successful termination, `exit`.
    Exit,
    /// Action prefix, `action; body`.
    Prefix {
        action: Action,
        body: Box<Behaviour>,
    },
    /// Choice, `left [] right`.
    Choice {
        left: Box<Behaviour>,
        right: Box<Behaviour>,
    },
    /// Parallel composition, `left |[..]| right`, `left ||| right` or `left || right`.
    Par {
        left: Box<Behaviour>,
        sync: SyncSet,
        right: Box<Behaviour>,
    },
    /// Hiding, `hide gates in body`.
    Hide {
        gates: Vec<Placed>,
        body: Box<Behaviour>,
    },
    /// Enabling, `left >> right`.
    Enable {
        left: Box<Behaviour>,
        /// The offset of `>>`.
        at: usize,
        right: Box<Behaviour>,
    },
    /// Disabling, `left [> right`.
    Disable {
        left: Box<Behaviour>,
        right: Box<Behaviour>,
    },
    /// Process instantiation, `name [gates]`.
    Call {
        name: Placed,
        gates: Vec<Placed>,
    },
}

/// A specification or a process: its formal gates, its declared functionality, its behaviour, and the definitions of
/// its `where` in text order.
#[derive(Debug, Drop)]
pub struct Definition {
    pub name: Placed,
    pub formals: Vec<Placed>,
    pub functionality: Functionality,
    pub body: Behaviour,
    pub inner: Vec<Definition>,
}

/// A complete specification.
#[derive(Debug, Drop)]
pub struct Specification {
    pub whole: Definition,
}
