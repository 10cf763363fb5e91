//! Warnings about accepted specifications.
//!
//! [`warnings`] takes the AST of an accepted specification and the checked one, and returns what the static rules allow
//! and is still likely to be a mistake: a process that no call names, or that is not reached from the behaviour, a
//! definition that is declared `exit` and never terminates, a behaviour of the specification that can do nothing, a
//! formal gate that is not used, a gate of a `hide` that nothing inside uses, a gate of a `hide` that both sides of a
//! parallel composition inside offer without synchronizing on it, a gate of a parallel composition that one side never
//! offers, and a call from outside of its process with the formal gates of the process in another order. The definitions that the contracts cite are in `specs/`.
#![tactic(auto)]

mod call_sites;
mod dead_start;
mod definition_warnings;
mod exchanged_gates;
mod first_labels;
mod gate_names;
pub mod laws;
mod offered_gates;
mod process_calls;
mod process_labels;
mod process_sets;
mod shown_name;
mod specification_warnings;
mod termination;
mod used_gates;
mod warning;

pub use shown_name::{ShownName, ShownNames};
pub use specification_warnings::warnings;
pub use warning::{Side, Warning};
