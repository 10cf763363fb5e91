//! Tests of searches through public items: tables of listings, marks, small specifications against two oracles, first
//! matches, sets of normal forms, explorations of them, reduced graphs, first differences of two specifications, covers
//! against a third oracle, matches against a fourth, suites, what observers are told, and the examples of `uses`.
//!
//! They are a crate of their own, because a crate with tests inside is proved twice, and one crate, because each that
//! runs tests is linked with all libraries below.
#![tactic(auto)]

#[cfg(test)]
mod accepted_text;
#[cfg(test)]
mod call_tests;
#[cfg(test)]
mod comparison_tests;
#[cfg(test)]
mod cover_comparison;
#[cfg(test)]
mod cover_oracle;
#[cfg(test)]
mod cover_run;
#[cfg(test)]
mod cover_tests;
#[cfg(test)]
mod derivation_oracle;
#[cfg(test)]
mod end_oracle;
#[cfg(test)]
mod ended_match_comparison;
#[cfg(test)]
mod ended_match_run;
#[cfg(test)]
mod ended_match_tests;
#[cfg(test)]
mod exploration_tests;
#[cfg(test)]
mod fault_position_tests;
#[cfg(test)]
mod graph;
#[cfg(test)]
mod graph_question;
#[cfg(test)]
mod item_search;
#[cfg(test)]
mod lasso_walk;
#[cfg(test)]
mod length_oracle;
#[cfg(test)]
mod listing_run;
#[cfg(test)]
mod listing_tables;
#[cfg(test)]
mod mark_tests;
#[cfg(test)]
mod match_oracle;
#[cfg(test)]
mod match_tests;
#[cfg(test)]
mod named_match_run;
#[cfg(test)]
mod named_match_tests;
#[cfg(test)]
mod oracle_comparison;
#[cfg(test)]
mod pattern_matching_tests;
#[cfg(test)]
mod progress_tests;
#[cfg(test)]
mod reduction_tests;
#[cfg(test)]
mod regrouped_match_tests;
#[cfg(test)]
mod resumed_listing_tests;
#[cfg(test)]
mod row_label;
#[cfg(test)]
mod run_oracle;
#[cfg(test)]
mod samples;
#[cfg(test)]
mod set_bound_tests;
#[cfg(test)]
mod set_count_tests;
#[cfg(test)]
mod set_sequence_tests;
#[cfg(test)]
mod set_texts;
#[cfg(test)]
mod set_walk;
#[cfg(test)]
mod set_walk_error;
#[cfg(test)]
mod suite_tests;
#[cfg(test)]
mod term_run_tests;
