//! The program `lotosseq`: passes its arguments and its standard streams to the library, and exits with the status that
//! the library returns.
#![tactic(auto)]

use lotos_tool::{Streams, run_process};
use std::env;
use std::process::ExitCode;

fn main(rt: HostRuntime) -> ExitCode {
    let streams = Streams {
        input: rt.stdin(),
        output: rt.stdout(),
        errors: rt.stderr(),
        spare: rt.stderr(),
    };
    ExitCode::from(run_process(rt.alloc(), env::args(&rt), streams))
}
