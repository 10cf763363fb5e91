//! Tests of the lexer and the parser through their crate's public items: texts with their tokens, their ASTs or their
//! faults, each worked out by hand.
//!
//! They are a crate of their own, because a crate with tests inside is proved twice.
#![tactic(auto)]

#[cfg(test)]
mod ast_tests;
#[cfg(test)]
mod lexer_tests;
#[cfg(test)]
mod name_tests;
#[cfg(test)]
mod nesting_tests;
#[cfg(test)]
mod pair_tests;
#[cfg(test)]
mod reserved_words;
#[cfg(test)]
mod table_texts;
#[cfg(test)]
mod text_fault_tests;
