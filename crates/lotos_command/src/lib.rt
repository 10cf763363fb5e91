//! The command line of `lotosseq`.
//!
//! [`request`] reads the words with clap. It returns a [`Request`], or the help or the version that they ask for, or why
//! they fit no command, or that memory ran out. `specs/CommandRules.antt` describes the command line in clap's own
//! definitions.
#![tactic(auto)]

mod command;
mod command_line;
mod help;
mod request_reading;

pub use command::{
    AfterRequest, CommandFault, CompareRequest, CoverRequest, DiagnoseRequest, EverRequest, Extent,
    GraphRequest, Interface, Request, Runs, SearchRequest, SuiteRequest,
};
pub use request_reading::request;
