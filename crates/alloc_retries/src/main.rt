//! Makes public calls that allocate, over tables of arguments, and writes what they return. `docs/ARCHITECTURE.md` says
//! which calls are left out.
//!
//! A call that runs out of memory is retried with the same arguments, and the second result is written. So the output
//! is the same whichever one allocation fails, as long as the call reports the failure and leaves its borrowed
//! arguments unchanged. The number of retried calls is written to standard error.
#![tactic(auto)]

mod after_calls;
mod ast_lines;
mod automaton_calls;
mod check_calls;
mod compare_calls;
mod compiled_calls;
mod cover_calls;
mod end_calls;
mod explain_calls;
mod front_end;
mod lexing_calls;
mod lines;
mod mark_calls;
mod match_calls;
mod pattern_calls;
mod read_calls;
mod request_calls;
mod resumed_search;
mod retry_heap;
mod search_calls;
mod set_calls;
mod system_lines;
mod table_calls;
mod warn_calls;

use retry_heap::{Heap, Stop};
use std::process::ExitCode;

fn main(rt: HostRuntime) -> ExitCode {
    let heap = Heap::new(rt.alloc());
    let done = all(&rt, &heap);
    let failures = heap.failures();
    let said = match done {
        Ok(()) => eprintln!(rt; "calls that were refused memory: {failures}"),
        Err(stop) => eprintln!(rt; "stopped: {stop:?}"),
    };
    if done.is_ok() && said.is_ok() {
        ExitCode::SUCCESS
    } else {
        ExitCode::FAILURE
    }
}

fn all(rt: &impl Print, heap: &Heap) -> Result<(), Stop> {
    lexing_calls::rows(rt, heap)?;
    check_calls::rows(rt, heap)?;
    explain_calls::rows(rt, heap)?;
    warn_calls::rows(rt, heap)?;
    pattern_calls::rows(rt, heap)?;
    compiled_calls::rows(rt, heap)?;
    mark_calls::rows(rt, heap)?;
    search_calls::rows(rt, heap)?;
    match_calls::rows(rt, heap)?;
    end_calls::rows(rt, heap)?;
    set_calls::rows(rt, heap)?;
    after_calls::rows(rt, heap)?;
    automaton_calls::rows(rt, heap)?;
    cover_calls::rows(rt, heap)?;
    compare_calls::rows(rt, heap)?;
    request_calls::rows(rt, heap)?;
    read_calls::rows(rt, heap)
}
