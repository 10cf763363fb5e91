//! The static rules of basic LOTOS.
//!
//! Basic LOTOS is the part of ISO 8807:1989 without data types. [`accept`] takes a text, parses it and checks it, and
//! returns the AST beside the [`Checked`] specification; [`parse_text`] and [`check_parsed`] are its two halves.
//! [`accept_pair`] takes a text of two specifications.
//!
//! [`check`] takes the AST of a specification that `lotos_text` parsed. It returns a [`Checked`] specification, with its
//! processes numbered and its calls by number, or the first [`CheckFault`]: a name that is declared twice; a name that is
//! not declared, or a call with another number of gates; a functionality that is not the declared one; recursion that is
//! not guarded. [`add_definitions`] lists the definitions of an AST. The definitions that the contracts cite are in
//! `specs/`, the laws over them in [`laws`]. [`Checked::with_hidden`] hides gates of a checked specification.
#![tactic(auto)]

mod accepted_text;
mod body_resolution;
mod call_graph;
mod checked;
mod definition_order;
mod duplicates;
mod fault;
mod functionality_check;
mod gate_scope;
mod guardedness;
pub mod laws;
mod name_lists;
mod pass_laws;
mod process_scope;
mod resolution;
mod resolved;
mod resolved_body;
mod static_check;

pub use accepted_text::{AcceptFault, AcceptedText, accept, accept_pair, check_parsed, parse_text};
pub use checked::Checked;
pub use definition_order::add_definitions;
pub use fault::CheckFault;
pub use resolved::{Code, Process};
pub use static_check::check;
