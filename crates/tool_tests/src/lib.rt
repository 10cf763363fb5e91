//! Tests of the command over readers and writers in memory, through the public items of its crates.
//!
//! They are a crate of their own, because a crate with tests inside is proved twice.
#![tactic(auto)]

#[cfg(test)]
mod after_runs;
#[cfg(test)]
mod argument_runs;
#[cfg(test)]
mod byte_output_tests;
#[cfg(test)]
mod check_runs;
#[cfg(test)]
mod command_calls;
#[cfg(test)]
mod compare_messages;
#[cfg(test)]
mod compare_runs;
#[cfg(test)]
mod cover_runs;
#[cfg(test)]
mod diagnosis_runs;
#[cfg(test)]
mod ever_runs;
#[cfg(test)]
mod expected_output;
#[cfg(test)]
mod grammar_runs;
#[cfg(test)]
mod graph_runs;
#[cfg(test)]
mod help;
#[cfg(test)]
mod help_texts;
#[cfg(test)]
mod hidden_runs;
#[cfg(test)]
mod hints;
#[cfg(test)]
mod hostile;
#[cfg(test)]
mod interface_runs;
#[cfg(test)]
mod large_inputs;
#[cfg(test)]
mod large_runs;
#[cfg(test)]
mod memory_devices;
#[cfg(test)]
mod message_numbers;
#[cfg(test)]
mod message_texts;
#[cfg(test)]
mod never_runs;
#[cfg(test)]
mod output_failures;
#[cfg(test)]
mod program_run;
#[cfg(test)]
mod progress_runs;
#[cfg(test)]
mod quoted_words;
#[cfg(test)]
mod refusal_texts;
#[cfg(test)]
mod report_intervals;
#[cfg(test)]
mod rows;
#[cfg(test)]
mod runs;
#[cfg(test)]
mod search_runs;
#[cfg(test)]
mod suite_runs;
#[cfg(test)]
mod terminals;
#[cfg(test)]
mod text_input_tests;
#[cfg(test)]
mod unknown_names;
#[cfg(test)]
mod worked_rows;
#[cfg(test)]
mod worked_texts;
#[cfg(test)]
mod wrapped_device_tests;
#[cfg(test)]
mod wrong_words;
