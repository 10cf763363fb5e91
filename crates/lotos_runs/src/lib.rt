//! Runs, the labels of the steps of derivations, and which of them are matches of a pattern.
//!
//! The searches over normal forms share this. The definitions say what the question of a search for a match is, which
//! runs are its matches and which match is the first. [`laws`] has what follows from them, and that the matches stay the
//! same if the start is regrouped. The lemmas say what bisimilar and regrouped terms have in common: the runs of
//! their derivations, and whether a derivation may end there. [`observe_run`] returns what is observed of a run.
#![tactic(auto)]

pub mod laws;
mod observed_run;

pub use observed_run::observe_run;
