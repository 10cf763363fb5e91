//! The program `lotosseq` with another stored run, which ends with status 1. Two processes of 260 actions, side by side,
//! have at least 261 * 261 = 68,121 states, and none of them terminates successfully.
#![tactic(auto)]

use lotos_tool::{Streams, run_process};
use std::env;
use std::process::ExitCode;

fn main(rt: HostRuntime) -> ExitCode {
    let streams = Streams {
        input: rt.stdin(),
        output: rt.stdout(),
        errors: rt.stderr(),
        spare: rt.stderr(),
    };
    ExitCode::from(run_process(rt.alloc(), env::args(&rt), streams))
}
