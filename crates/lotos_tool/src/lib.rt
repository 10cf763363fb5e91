//! The command `lotosseq` as a library: from the words of the command line and the bytes of a specification to the
//! lines of the output and the exit status.
//!
//! [`request`] reads the words, [`check_text`] reads a text and writes its processes, [`answer`] reads a text and writes
//! the answer to the question of a [`Command`], which is a request for a listing, a match, what can come after a sequence,
//! a cover, an automaton, a test suite, or the first difference of two specifications, and [`run`] does what the words ask
//! for and returns the exit status. [`run_args`] runs the program on the arguments of a process, and [`run_process`] on its
//! standard streams too. Readers and writers are a [`Source`] and a [`Sink`]; [`FromRead`] and [`FromWrite`] make them from
//! std's.
#![tactic(auto)]

mod after_command;
mod arguments;
mod check_command;
mod command;
mod compare_command;
mod cover_command;
mod diagnosis;
mod ever_command;
mod exploration;
mod findings;
mod graph_command;
mod halt;
mod listing_halt;
mod listing_output;
mod listing_search;
mod process;
mod program;
mod search_command;
mod search_observer;
mod suite_command;

pub use arguments::run_args;
pub use check_command::check_text;
pub use command::{Command, answer};
pub use findings::{
    AutomatonSize, Compared, ComparedPlace, Continuation, Listed, ListingPlace, Occurrence,
    Processes,
};
pub use lotos_command::{
    AfterRequest, CommandFault, CompareRequest, CoverRequest, DiagnoseRequest, EverRequest, Extent,
    GraphRequest, Interface, Request, SearchRequest, SuiteRequest, request,
};
pub use lotos_compare::Side;
pub use lotos_device::{DeviceFailed, FromRead, FromWrite, Sink, Source};
pub use lotos_listing::{NoProgress, Progress, Searched};
pub use lotos_outcome::{Ended, Finding, OutputProgress, Refusal, Rejection, Stop};
pub use lotos_report::Messages;
pub use process::{Streams, run_process};
pub use program::{report_command_fault, run};
pub use search_command::SearchParts;
pub use search_observer::Observed;
