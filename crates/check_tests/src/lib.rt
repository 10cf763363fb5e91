//! Tests of the static rules, of explanations and of warnings through the public items of their crates: specifications
//! with their systems, their faults, the lines that explain these, or their warnings, each worked out by hand.
//!
//! They are a crate of their own, because a crate with tests inside is proved twice, and one crate, because each that
//! runs tests is linked with all libraries below.
#![tactic(auto)]

#[cfg(test)]
mod check_tests;
#[cfg(test)]
mod dead_start_tests;
#[cfg(test)]
mod duplicate_tests;
#[cfg(test)]
mod gate_scope_tests;
#[cfg(test)]
mod guardedness_tests;
#[cfg(test)]
mod hidden_gates_tests;
#[cfg(test)]
mod long_texts;
#[cfg(test)]
mod long_warning_tests;
#[cfg(test)]
mod mistakes;
#[cfg(test)]
mod names;
#[cfg(test)]
mod pair_tests;
#[cfg(test)]
mod places;
#[cfg(test)]
mod table_texts;
#[cfg(test)]
mod warning_lines;
#[cfg(test)]
mod warning_tests;
