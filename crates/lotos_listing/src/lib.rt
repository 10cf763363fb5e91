//! What a listing is: sequences of labels in one strict order, those that derivations put into it, and the walk that
//! finds them.
//!
//! The definitions are those of derivations and of what is observed of them, of the order of sequences, of listings and
//! of their members. A [`PrefixTree`] is walked by [`next_hit`], one length after the other, each length in order. A
//! [`Mark`] is a sequence after which a listing starts, since the order of sequences depends only on their labels.
//! [`LabelFlags`] are sets of a system's labels, such as those of which the end of a sequence must have none.
//! [`compile`] compiles a pattern against the labels of a system, and [`place_after`] follows it, label by label;
//! [`is_observed`] tells which labels are observed, and [`labels_of_words`] which labels words name.
#![tactic(auto)]

mod alphabet;
mod fault;
mod found;
mod label_flags;
pub mod laws;
mod mark;
mod named_labels;
mod observed_label;
mod order;
mod place_step;
mod prefix_walk;
mod progress;
mod stage;

pub use alphabet::{compile, label_number};
pub use fault::MarkFault;
pub use found::{Found, Halt};
pub use label_flags::{LabelFlags, has_step_with};
pub use mark::{Mark, is_after_mark, side_of_mark};
pub use named_labels::labels_of_words;
pub use observed_label::is_observed;
pub use order::compare;
pub use place_step::place_after;
pub use prefix_walk::{PrefixTree, next_hit};
pub use progress::{NoProgress, Progress, Searched};
pub use stage::Stage;
