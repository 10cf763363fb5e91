//! Patterns of sequences of labels.
//!
//! A [`Pattern`] is read from words. A sequence has a [`Place`] in it as long as it can still be extended to one that
//! the pattern matches, and an [`End`] says whether the pattern matches the sequence itself. [`check_label_words`] looks
//! at words that are a sequence of labels by themselves. The definitions that the contracts cite are in `specs/`, the
//! laws over them in [`laws`].
#![tactic(auto)]

mod compiled_pattern;
mod element;
mod ever_pattern;
mod fault;
mod label_names;
mod label_set;
mod label_words;
pub mod laws;
mod pattern;
mod pattern_parser;
mod place;
mod place_number;
mod place_numbering;
mod step_rows;

pub use compiled_pattern::CompiledPattern;
pub use ever_pattern::{EndKind, EverPattern};
pub use fault::PatternFault;
pub use label_names::{is_word, split_names};
pub use label_set::LabelSet;
pub use label_words::{WordFault, check_label_words};
pub use pattern::Pattern;
pub use place::{End, Place};
pub use place_number::PlaceNumber;
