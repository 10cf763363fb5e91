//! What a command reads, why it is refused, and how it ends.
//!
//! [`read_pattern`], [`read_ever_pattern`], [`read_mark`], [`read_signed_mark`], [`read_asked`], [`read_specification`]
//! and [`refuse_unknown_gates`] each return a part of a question, or the [`Rejection`] of that part. [`Ended`] is how a call of
//! a command ended, [`Refusal`] why it was refused, [`Stop`] why it stopped before its end, and [`Ended::status`] the exit
//! status. `specs/Calls.antt` says for every command what an end means: what was read, what was written, and whether a
//! device failed. A command adds its [`Finding`], where it may stop, and the meaning of both.
#![tactic(auto)]

mod interface;
mod outcome;
mod output_progress;
mod question_parts;
mod refusal;
mod rejection;
mod shown;
mod specification_input;
mod unknown_gates;
mod unknown_name;

pub use outcome::{Ended, Finding, Stop};
pub use output_progress::OutputProgress;
pub use question_parts::{
    borrow_texts, read_ever_pattern, read_mark, read_pattern, read_signed_mark,
    refuse_unknown_gates,
};
pub use refusal::Refusal;
pub use rejection::{Rejection, end_of};
pub use shown::{GivenName, NumberText, PositionText};
pub use specification_input::{
    read_asked, read_asked_pair, read_input, read_specification, reject,
};
pub use unknown_name::{UnknownName, unknown_names};
