//! What makes an internal step: an `i` of the text, an action of a gate that a `hide` makes internal, or the
//! termination of the left operand of an enabling.
//!
//! The name of a hidden gate is the one that it has at its `hide`. Normal forms lose it, since there a hiding moves
//! under a relabelling. So [`internal_origin`] goes down terms as they are, from a step to a step of a part.
//! [`follow_run`] follows a run so, step by step, and a [`FollowedRun`] has the terms that it leads to, and the origins
//! of the internal steps on the way to each. [`find_origins`] takes the first that refuses some labels. [`find_round`]
//! follows a row and then turns of a loop, until the loop is back at a term that does as one at which a turn began.
//!
//! The definitions that the contracts cite are in `specs/`, the laws over them in [`laws`].
#![tactic(auto)]

mod alike;
mod followed_run;
mod hidden_steps;
mod internal_steps;
pub mod laws;
mod origin;
mod origin_search;
mod parts;
mod repeats;
mod rounds;
mod run_layers;
mod run_origins;
mod turns;
mod wrappers;

pub use followed_run::{FollowedRun, follow_run, follow_run_after};
pub use origin::Origin;
pub use origin_search::internal_origin;
pub use rounds::{Round, find_round};
pub use run_origins::find_origins;
