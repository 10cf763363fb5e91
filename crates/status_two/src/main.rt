//! The program `lotosseq` with another stored run, which ends with status 2: its 400 words are more than a pattern may
//! have, and nothing is written.
#![tactic(auto)]

use lotos_tool::{Streams, run_process};
use std::env;
use std::process::ExitCode;

fn main(rt: HostRuntime) -> ExitCode {
    let streams = Streams {
        input: rt.stdin(),
        output: rt.stdout(),
        errors: rt.stderr(),
        spare: rt.stderr(),
    };
    ExitCode::from(run_process(rt.alloc(), env::args(&rt), streams))
}
