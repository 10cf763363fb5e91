//! The parser of basic LOTOS.
//!
//! Basic LOTOS is the part of ISO 8807:1989 without data types. A text is a list of bytes: [`tokens`] lexes it,
//! [`parse`] returns the AST of the specification that it spells, [`parse_pair`] those of two, and [`line_column`] turns
//! an offset into a line and a column. The definitions that the contracts cite are in `specs/`, the laws over them in [`laws`].
#![tactic(auto)]

mod ast;
mod ast_builders;
mod behaviour_parser;
mod fault;
pub mod laws;
mod lexer;
mod name;
mod operators;
mod parse_fault;
mod parse_primitives;
mod parser;
mod position;
mod token;

pub use ast::{Action, Behaviour, Definition, Functionality, Placed, Specification, SyncSet};
pub use fault::TextFault;
pub use lexer::{TEXT_LIMIT, tokens};
pub use name::Name;
pub use parser::{NESTING_LIMIT, parse, parse_pair};
pub use position::line_column;
pub use token::{Sign, Token, TokenKind, Word};
