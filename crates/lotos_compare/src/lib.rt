//! Comparisons of two specifications: where they differ in what can be observed of them.
//!
//! After a sequence of labels that can be observed of both, one of the two may go on with a label that cannot come next
//! in the other; it may refuse labels that the other does not; or it may do internal steps for ever and the other not.
//! Each of these is a line of the comparison. [`laws`] says which relations of the literature hold exactly if there is no
//! line: trace inclusion and equivalence, and inclusion and equality of stable failures and of livelocks.
//!
//! [`find_first_difference`] finds the first line about labels. A pair of sets of normal forms, one of each system, that
//! a sequence reaches decides all that comes after it; so it looks at each pair once, after the first sequence that
//! reaches it.
#![tactic(auto)]

mod common_gates;
mod compare_fault;
mod first_difference;
pub mod laws;
mod line;
mod paired_sets;
mod parting;
mod set_pair;

pub use compare_fault::CompareFault;
pub use first_difference::find_first_difference;
pub use line::{Comparison, DifferenceLine, Side};
