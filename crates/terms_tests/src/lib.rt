//! Tests of terms through the public items of `lotos_terms`: worked rows, the steps of a table against an oracle, a slow
//! reading of the inference rules over terms of its own, and how soon normal forms recur. And tests of what can still come,
//! through the public items of `lotos_ends`: worked rows, and an oracle that goes over all normal forms again and again.
//! And worked rows of the labels that the end of a sequence must not have, through the `LabelFlags` of `lotos_listing`, and
//! of what makes internal steps, through the public items of `lotos_origins`.
//!
//! They are a crate of their own, because a crate with tests inside is proved twice, and one crate, because each that
//! runs tests is linked with all libraries below.
#![tactic(auto)]

#[cfg(test)]
mod accepted_text;
#[cfg(test)]
mod demanded_ends_tests;
#[cfg(test)]
mod end_states_tests;
#[cfg(test)]
mod ends_comparison;
#[cfg(test)]
mod ends_oracle;
#[cfg(test)]
mod form_step_tests;
#[cfg(test)]
mod gate_names;
#[cfg(test)]
mod graph;
#[cfg(test)]
mod label_set;
#[cfg(test)]
mod large_terms;
#[cfg(test)]
mod lasso_tests;
#[cfg(test)]
mod lasso_walk;
#[cfg(test)]
mod normal_step_tests;
#[cfg(test)]
mod operator_tests;
#[cfg(test)]
mod oracle;
#[cfg(test)]
mod oracle_comparison;
#[cfg(test)]
mod origin_list;
#[cfg(test)]
mod origin_tests;
#[cfg(test)]
mod possible_run;
#[cfg(test)]
mod protocols;
#[cfg(test)]
mod recurrence_tests;
#[cfg(test)]
mod refused_label_tests;
#[cfg(test)]
mod regrouping_tests;
#[cfg(test)]
mod round_tests;
#[cfg(test)]
mod step_tests;
#[cfg(test)]
mod term_equality;
#[cfg(test)]
mod term_list;
#[cfg(test)]
mod term_list_error;
#[cfg(test)]
mod texts;
#[cfg(test)]
mod walk_tests;
