//! The output of the commands: lines, and the flush after them.
//!
//! [`format_sequence`], [`format_sequence_after`], [`append_run`], [`append_round`], [`format_next`], [`format_labels`],
//! [`format_marked_line`], [`format_marked`] and [`format_processes`] compose the text of a sequence and the lines of
//! each command; [`append_named_run`] and [`append_named_round`] write internal steps by what makes them, and
//! [`format_automaton`] an automaton. [`ItemRuns`] writes the runs of a listing's items. [`flush_stopped`], [`write_and_flush`] and [`write_whole`] end the output with one
//! flush, and tell whether it failed.
#![tactic(auto)]

mod automaton_text;
mod item_runs;
mod named_runs;
mod output_flush;
mod output_lines;
mod run_names;

pub use automaton_text::{count_transitions, format_automaton};
pub use item_runs::ItemRuns;
pub use named_runs::{append_named_round, append_named_run};
pub use output_flush::{flush_stopped, write_and_flush, write_whole};
pub use output_lines::{
    append_round, append_run, format_labels, format_marked, format_marked_line, format_next,
    format_processes, format_sequence, format_sequence_after,
};
pub use run_names::RunNames;
