//! Checked specifications.
ghost use Rattle.std.specs.Prelude.{◌≡◌, ◌<◌, IfOk, Some, length, map, slice_get};
ghost use Rattle.lotos_check.specs.FlatOf.{flat_of, process_of};
ghost use Rattle.lotos_check.specs.CheckedInvariant.{IsCheckedSystem};

use crate::name_lists::{copy_as_set, remove_names};
use crate::resolved::{Code, Process};
use lotos_text::Name;
use std::alloc::{AllocError, Global};

/// A specification that meets the static rules, perhaps with gates hidden around its behaviour. Its processes are
/// numbered from 0 in the order of their definitions, each followed at once by its inner ones.
#[derive(Debug, Drop)]
pub struct Checked {
    pub(crate) gates: Vec<Name>,
    pub(crate) start: Box<Code>,
    pub(crate) processes: Vec<Process>,
    pub(crate) ranks: Vec<usize>,
    ghost kept: { ∥ IsCheckedSystem
        (record { formals = gates.items; start = flat_of start.value; processes = map process_of processes.items })
        ranks.items ∥₁ },
}

impl Checked {
    ghost use Rattle.lotos_check.specs.CheckedView.{ranks_of, system_of};
    ghost use Rattle.lotos_check.specs.HiddenGates.{IsHiddenIn};

    /// The formal gates of the specification, in their order.
    pub fn gates(&self) -> &[Name]
        ensures { result.now ≡ (system_of self.now).formals }
    {
        self.gates.as_slice()
    }

    /// The processes; the number of each is its index.
    pub fn processes(&self) -> &[Process]
        ensures { map process_of result.now ≡ (system_of self.now).processes }
    {
        self.processes.as_slice()
    }

    /// The behaviour of the specification. With the processes it meets the static rules.
    pub fn start(&self) -> &Code
        ensures start { flat_of result.now ≡ (system_of self.now).start }
        ensures kept { ∥ IsCheckedSystem (system_of self.now) (ranks_of self.now) ∥₁ }
    {
        &self.start
    }

    /// The specification with these gates hidden around its behaviour, so they are no formal gates of it any more.
    /// Names may repeat. A name that is no formal gate is hidden too, and never occurs. Fails if an allocation fails.
    pub fn with_hidden(self, alloc: Global, gates: &[Name]) -> Result<Checked, AllocError>
        ensures system { IfOk result (λ c. IsHiddenIn gates.now (system_of self) (system_of c)) }
        ensures ranks { IfOk result (λ c. ranks_of c ≡ ranks_of self) }
    {
        let hidden = copy_as_set(alloc, gates)?;
        let mut formals = self.gates;
        remove_names(&mut formals, gates);
        let start = Box::new(
            alloc,
            Code::Hide {
                gates: hidden,
                body: self.start,
            },
        )?;
        Ok(Checked {
            gates: formals,
            start,
            processes: self.processes,
            ranks: self.ranks,
        })
    }

    /// The rank of the process with this number. Every unguarded call in its body goes to a process of smaller rank.
    pub fn rank(&self, process: usize) -> usize
        requires { process < length (system_of self.now).processes }
        ensures entry { slice_get (ranks_of self.now) process ≡ Some result }
        ensures kept { ∥ IsCheckedSystem (system_of self.now) (ranks_of self.now) ∥₁ }
    {
        self.ranks[process]
    }
}
