//! Explanations of refused specifications, and of names that are no gates, for people.
//!
//! [`explain_text_fault`] and [`explain_check_fault`] write the line of the text with a mark under the place of the
//! fault, what is there, which words, signs and names could be there, and what to do. What they say of the text is what
//! [`line_of`], [`describe_token`], [`expected_tokens`], [`similar_gate_in_scope`], [`similar_process_in_scope`] and
//! [`functionality_cause`] return, whose contracts cite the definitions in `specs/`. [`similar_name`], [`hidden_gate`]
//! and [`formal_gate`] find what could be meant by a name that is no gate of a specification.
#![tactic(auto)]

mod advice;
mod body_ends;
mod call_bindings;
mod continuations;
mod enclosing_definitions;
mod expectations;
mod explanation;
mod first_declarations;
mod functionality_causes;
mod inner_gates;
mod inner_processes;
mod line_bounds;
mod neighbour_advice;
mod open_constructs;
mod rule_explanation;
mod shown_text;
mod similar_gates;
mod similar_names;
mod similar_processes;
mod slips;
mod token_description;
mod unguarded_calls;

pub use call_bindings::called_definition;
pub use expectations::expected_tokens;
pub use explanation::explain_text_fault;
pub use first_declarations::{first_gate, first_process};
pub use functionality_causes::{Cause, Leaf, functionality_cause};
pub use inner_gates::{formal_gate, hidden_gate, specification_gate};
pub use line_bounds::{LineBounds, line_of};
pub use open_constructs::open_constructs_at;
pub use rule_explanation::explain_check_fault;
pub use similar_gates::{similar_gate_at_call, similar_gate_in_scope};
pub use similar_names::{similar_name, similar_word};
pub use similar_processes::similar_process_in_scope;
pub use token_description::{Description, describe_token};
pub use unguarded_calls::{UnguardedCall, unguarded_ring};
