//! What is known of the processes of a system.
ghost use Rattle.std.specs.Prelude.{◌↔◌, ℕ, IfOk};
ghost use Rattle.lotos_check.specs.NameLists.{In};
ghost use Rattle.lotos_check.specs.CheckedView.{system_of};
ghost use Rattle.lotos_warn.specs.Additions.{IsCalledByBody, IsReachedIn};
ghost use Rattle.lotos_warn.specs.Termination.{IsExiting};

use crate::process_calls::{called_processes, reached_processes};
use crate::termination::exiting_processes;
use indexmap::IndexSet;
use lotos_check::Checked;
use std::alloc::{AllocError, Global};

/// The numbers of the processes of which something is known.
#[derive(Drop)]
pub(crate) struct ProcessSets {
    /// Those that are called anywhere in the specification.
    pub called: IndexSet<usize>,
    /// Those that are reached from its behaviour.
    pub reached: IndexSet<usize>,
    /// Those that may terminate.
    pub exiting: IndexSet<usize>,
}

impl ProcessSets {
    ghost use Rattle.std.specs.Prelude.{◌↔◌, ℕ, IfOk};
    ghost use Rattle.lotos_check.specs.NameLists.{In};
    ghost use Rattle.lotos_check.specs.CheckedView.{system_of};
    ghost use Rattle.lotos_warn.specs.Additions.{IsCalledByBody, IsReachedIn};
    ghost use Rattle.lotos_warn.specs.Termination.{IsExiting};

    /// The sets of a system.
    pub fn of(alloc: Global, system: &Checked) -> Result<ProcessSets, AllocError>
        ensures called { IfOk result (λ sets. (k : ℕ) →
            In k sets.called.keys ↔ IsCalledByBody (system_of system.now) k) }
        ensures reached { IfOk result (λ sets. (k : ℕ) →
            In k sets.reached.keys ↔ IsReachedIn (system_of system.now) k) }
        ensures exiting { IfOk result (λ sets. (k : ℕ) →
            In k sets.exiting.keys ↔ IsExiting (system_of system.now).processes k) }
    {
        let called = called_processes(alloc, system)?;
        let reached = reached_processes(alloc, system)?;
        let exiting = exiting_processes(alloc, system.processes())?;
        Ok(ProcessSets {
            called,
            reached,
            exiting,
        })
    }
}
