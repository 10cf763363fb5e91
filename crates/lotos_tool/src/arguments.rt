//! The program over the arguments of a process.
ghost use Rattle.std.specs.Prelude.{◌≡◌, IfOk, MatchResult, false, map, string_bytes};
ghost use Rattle.std.specs.Vec.Iter.{into_iter_items};
ghost use Rattle.lotos_tool.specs.ProgramRuns.{NoArgumentRead, ProgramRan};

use crate::program::run;
use lotos_device::{Sink, Source};
use lotos_outcome::{Stop, borrow_texts};
use lotos_report::{Messages, report_failure, report_unread_arguments};
use std::alloc::{AllocError, Global};
use std::env::Args;
use std::io::{self, Write};

/// Runs the command that the arguments of a process ask for, as `run` does, and returns the exit status. Arguments
/// that could not be read, because memory ran out or one of them is not Unicode, are reported as such, with status 5.
pub fn run_args<R: Source, W: Sink, E: Write>(
    alloc: Global,
    args: io::Result<Args>,
    reader: &mut R,
    out: &mut W,
    messages: &mut Messages<E>,
) -> u8
    requires reader { (R.state reader.old).has_failed ≡ false }
    requires out { (W.state out.old).has_failed ≡ false }
    ensures { MatchResult args
        (λ words. ProgramRan (map string_bytes (into_iter_items words))
        (R.state reader.old) (R.state reader.new) (W.state out.old) (W.state out.new) result)
        (λ _. NoArgumentRead (R.state reader.old) (R.state reader.new)
        (W.state out.old) (W.state out.new) result) }
{
    let args = match args {
        Ok(args) => args,
        Err(error) => return report_no_arguments(&error, messages),
    };
    let Ok(words) = words_of(alloc, args) else {
        return report_no_words(messages);
    };
    run_words(alloc, words.as_slice(), reader, out, messages)
}

/// The arguments as a list.
fn words_of(alloc: Global, args: Args) -> Result<Vec<String>, AllocError>
    ensures { IfOk result (λ words. words.items ≡ into_iter_items args) }
{
    let mut words = Vec::new(alloc);
    for word in args {
        words.push(word)?;
    }
    Ok(words)
}

/// Runs the command that these words ask for.
fn run_words<R: Source, W: Sink, E: Write>(
    alloc: Global,
    words: &[String],
    reader: &mut R,
    out: &mut W,
    messages: &mut Messages<E>,
) -> u8
    requires reader { (R.state reader.old).has_failed ≡ false }
    requires out { (W.state out.old).has_failed ≡ false }
    ensures { ProgramRan (map string_bytes words.now)
        (R.state reader.old) (R.state reader.new) (W.state out.old) (W.state out.new) result }
{
    match borrow_texts(alloc, words) {
        Ok(texts) => run(alloc, texts.as_slice(), reader, out, messages),
        Err(AllocError) => report_no_words(messages),
    }
}

/// Reports why the arguments could not be read, and returns the status.
fn report_no_arguments<E: Write>(error: &io::Error, messages: &mut Messages<E>) -> u8
    ensures { result ≡ 5 }
{
    report_unread_arguments(&mut messages.stream, error.kind());
    5
}

/// Reports that memory ran out before the words were read, and returns the status.
fn report_no_words<E: Write>(messages: &mut Messages<E>) -> u8
    ensures { result ≡ 5 }
{
    report_failure(&mut messages.stream, Stop::Memory);
    5
}
