//! Runs on the arguments of a process: those that cannot be read, and those of the test itself.

use super::memory_devices::{ArrayWriter, SliceReader};
use lotos_device::{FromRead, FromWrite};
use lotos_tool::{Messages, run, run_args};
use std::alloc::{AllocError, Global};
use std::env;
use std::env::Args;
use std::io::{Error, ErrorKind};
use std::process::Abort;

/// Why arguments cannot be read, and the message.
const UNREAD: &[(ErrorKind, &[u8])] = &[
    (
        ErrorKind::InvalidData,
        b"lotosseq: an argument is not Unicode\n",
    ),
    (ErrorKind::OutOfMemory, b"lotosseq: E99 out of memory\n"),
];

/// Runs arguments that cannot be read for this cause, and expects the message, and that nothing is read or written.
fn expect_unread(rt: &impl Abort, alloc: Global, cause: ErrorKind, message: &[u8]) {
    let mut reader = FromRead::new(SliceReader::new(b"specification", 1));
    let mut out = FromWrite::new(ArrayWriter::new(4096));
    let mut messages = no_messages();
    let args = Err(Error::from(cause));
    let status = run_args(alloc, args, &mut reader, &mut out, &mut messages);
    assert_eq!(rt; messages.stream.got(), message);
    assert_eq!(rt; status, 5);
    assert_eq!(rt; reader.into_inner().reads, 0);
    assert!(rt; out.into_inner().got().is_empty());
}

#[test]
fn arguments_that_cannot_be_read(rt: HostRuntime) {
    for (cause, message) in UNREAD {
        expect_unread(&rt, rt.alloc(), *cause, *message);
    }
}

/// No messages yet, to a stream that is no terminal.
fn no_messages() -> Messages<ArrayWriter> {
    Messages {
        stream: ArrayWriter::new(4096),
        terminal: false,
        keyboard: false,
    }
}

/// The arguments as a list.
fn words_of(alloc: Global, args: Args) -> Result<Vec<String>, AllocError> {
    let mut words = Vec::new(alloc);
    for word in args {
        words.push(word)?;
    }
    Ok(words)
}

/// The status and the messages of a run with these words.
fn run_words(alloc: Global, words: &[String]) -> Result<(u8, ArrayWriter), AllocError> {
    let mut texts = Vec::new(alloc);
    for word in words {
        texts.push(word.as_str())?;
    }
    let mut reader = FromRead::new(SliceReader::new(b"", 1));
    let mut out = FromWrite::new(ArrayWriter::new(4096));
    let mut messages = no_messages();
    let status = run(
        alloc,
        texts.as_slice(),
        &mut reader,
        &mut out,
        &mut messages,
    );
    Ok((status, messages.stream))
}

/// The arguments of a test are no words of a command, so the run is refused as one with the same words is.
#[test]
fn arguments_of_the_test(rt: HostRuntime) -> Result<(), AllocError> {
    let Ok(args) = env::args(&rt) else {
        return Ok(());
    };
    let words = words_of(rt.alloc(), args)?;
    let (status, message) = run_words(rt.alloc(), words.as_slice())?;
    let mut reader = FromRead::new(SliceReader::new(b"", 1));
    let mut out = FromWrite::new(ArrayWriter::new(4096));
    let mut messages = no_messages();
    let found = run_args(
        rt.alloc(),
        env::args(&rt),
        &mut reader,
        &mut out,
        &mut messages,
    );
    assert_eq!(rt; found, status);
    assert_eq!(rt; messages.stream.got(), message.got());
    assert_eq!(rt; found, 2);
    Ok(())
}
