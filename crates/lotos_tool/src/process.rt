//! The program as a process: its arguments and its standard streams.
ghost use Rattle.std.specs.Prelude.{◌≡◌, MatchResult, false, map, string_bytes};
ghost use Rattle.std.specs.Vec.Iter.{into_iter_items};
ghost use Rattle.lotos_device.specs.DeviceStates.{SinkState, SourceState};
ghost use Rattle.lotos_tool.specs.ProgramRuns.{ProgramRan};

use crate::arguments::run_args;
use lotos_device::{FromRead, FromWrite};
use lotos_report::Messages;
use std::alloc::Global;
use std::env::Args;
use std::io::{self, IsTerminal, LineWriter, Read, Write};

/// A message's line of at most so many bytes is written by one call, so that the lines of programs that share standard
/// error stay whole; a pipe takes as many at once. Without memory for them a line is written in parts.
const LINE: usize = 4096;

/// The standard streams of a process.
#[derive(Drop)]
pub struct Streams<I, O, E> {
    pub input: I,
    pub output: O,
    pub errors: E,
    /// The stream of errors once more, for when there is no memory to keep the lines of messages whole.
    pub spare: E,
}

/// Runs the command that the arguments of a process ask for, as `run_args` does, on its standard streams, and returns the
/// exit status.
pub fn run_process<I: Read + IsTerminal + Drop, O: Write + Drop, E: Write + IsTerminal + Drop>(
    alloc: Global,
    args: io::Result<Args>,
    streams: Streams<I, O, E>,
) -> u8
    ensures { (from : SourceState) × (to : SinkState) × MatchResult args
        (λ words. ProgramRan (map string_bytes (into_iter_items words))
        (record { remaining = I.remaining streams.input; given = 0; has_failed = false }) from
        (record { written = O.contents streams.output; has_failed = false }) to result)
        (λ _. result ≡ 5) }
{
    let Streams {
        input,
        output,
        errors,
        spare,
    } = streams;
    let keyboard = input.is_terminal();
    let terminal = errors.is_terminal();
    let stream = match LineWriter::with_capacity(alloc, LINE, errors) {
        Ok(stream) => stream,
        Err(_) => LineWriter::with_capacity(alloc, 0, spare).unwrap(),
    };
    let mut messages = Messages {
        stream,
        terminal,
        keyboard,
    };
    let mut reader = FromRead::new(input);
    let mut out = FromWrite::new(output);
    run_args(alloc, args, &mut reader, &mut out, &mut messages)
}
