//! Tests of patterns through the public items of `lotos_pattern`: words and what they spell, and sequences with their
//! places, each worked out by hand or from the definition.
#![tactic(auto)]

#[cfg(test)]
mod compiled_long_tests;
#[cfg(test)]
mod compiled_tests;
#[cfg(test)]
mod compiled_walks;
#[cfg(test)]
mod demand_fault_tests;
#[cfg(test)]
mod ever_pattern_tests;
#[cfg(test)]
mod exact_tests;
#[cfg(test)]
mod fault_tests;
#[cfg(test)]
mod language_tests;
#[cfg(test)]
mod long_tests;
#[cfg(test)]
mod place_tests;
#[cfg(test)]
mod refusal_tests;
#[cfg(test)]
mod sequence_ends;
#[cfg(test)]
mod spelling_tests;
