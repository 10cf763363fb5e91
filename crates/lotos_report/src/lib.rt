//! What the program says on standard error.
//!
//! [`Messages`] is where messages go, and a [`MutedStream`] drops them. `report_end` and the functions beside it write a
//! message each; hints and warnings say what may be meant, and [`ProgressReport`] how far a search is. No contract speaks
//! of what is written there. Nothing here can fail: errors of the stream are ignored, and what there is no memory for is
//! left out.
#![tactic(auto)]

mod answer_notes;
mod element_hints;
mod fault_explanations;
mod hints;
mod messages;
mod muted_stream;
mod name_hints;
mod no_match;
mod option_hints;
mod progress_report;
mod warning_lines;
mod word_explanations;

pub use answer_notes::{note_empty_pattern, note_first_labels};
pub use fault_explanations::explain_fault;
pub use hints::{AskedWords, RefusedCommand, WordCommand, hint_after_fault, hint_after_refusal};
pub use messages::{
    ListingStop, Messages, report_end, report_failure, report_keyboard, report_label,
    report_no_difference, report_stop, report_stop_unwritten, report_terms_of, report_text,
    report_too_many_pairs, report_too_many_states, report_too_many_terms, report_unread_arguments,
};
pub use muted_stream::MutedStream;
pub use name_hints::{NameHint, NamePlaces, first_name_hint, warn_of_names};
pub use no_match::report_no_match;
pub use progress_report::{Counts, ProgressReport, Visited, report_counts};
pub use warning_lines::write_warnings;
