//! How each library is used, by one or two functions for each.
//!
//! Every function and its proof need only the public items, the public clauses and the laws of the libraries. The
//! definitions that the contracts cite are in `specs/`.
#![tactic(auto)]

mod fault_position;
mod pattern_matching;
mod resumed_listing;
mod term_run;

pub use fault_position::{Verdict, find_fault};
pub use pattern_matching::matches;
pub use resumed_listing::{ItemFault, item_after, second_item};
pub use term_run::first_run;
