//! The program `lotosseq` with another stored run, which ends with status 0. Forty internal steps three times, side by
//! side, reach 41 * 41 * 41 = 68,921 terms, just as many as are allowed.
#![tactic(auto)]

use lotos_tool::{Streams, run_process};
use std::env;
use std::process::ExitCode;

fn main(rt: HostRuntime) -> ExitCode {
    let streams = Streams {
        input: rt.stdin(),
        output: rt.stdout(),
        errors: rt.stderr(),
        spare: rt.stderr(),
    };
    ExitCode::from(run_process(rt.alloc(), env::args(&rt), streams))
}
