//! Test suites from the automaton of what can be observed: covers, and suites that miss nothing.
//!
//! Sequences have the same future if the same sequences can come after them. A cover has for each class of sequences with
//! the same future the first one (its access sequence), with each label that can come next; of the sequences made so,
//! which are the transition cover, its lines are those with which no longer one begins. [`CoverSearch`] returns them one
//! by one, in order. It finds the automaton (`lotos_automaton`), and goes through its transitions in the order of its
//! states, and of their labels (`cover_lines`), so the sequences come up in order.
//!
//! A suite for an automaton of what can be observed has lines that an implementation has to be able to do, and lines of
//! which it may not be able to do the last label. [`laws`] says which implementations pass all lines: of those with at
//! most so many states more than the automaton exactly the ones with the same sequences (Vasilevskii 1973, Chow 1978,
//! the W-method, for systems that may refuse labels). [`find_suite`] finds the lines: the first sequences that tell two
//! states apart (`apart_sequences`), and then the prefixes of the lines, length by length (`prefixes`, `suite_lines`).
#![tactic(auto)]

mod apart_sequences;
mod cover_halt;
mod cover_lines;
mod cover_search;
pub mod laws;
mod moves;
mod prefixes;
mod suite;
mod suite_alphabet;
mod suite_fault;
mod suite_lines;

pub use cover_halt::CoverHalt;
pub use cover_search::CoverSearch;
pub use suite::{SuiteLine, find_suite};
pub use suite_alphabet::suite_labels;
pub use suite_fault::SuiteFault;
