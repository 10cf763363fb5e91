//! The command `check`, from the text to the lines of its processes.
ghost use Rattle.std.specs.Prelude.{◌≡◌, false};
ghost use Rattle.lotos_check.specs.CheckedView.{system_of};
ghost use Rattle.lotos_outcome.specs.Calls.{Answered, Call};
ghost use Rattle.lotos_outcome.specs.Outcomes.{is_unwritten};
ghost use Rattle.lotos_tool.specs.CheckOutcome.{check_answering, check_meaning};

use crate::findings::Processes;
use lotos_check::Checked;
use lotos_device::{Sink, Source};
use lotos_outcome::{Ended, Stop, end_of, read_specification};
use lotos_output::{format_processes, write_whole};
use std::alloc::Global;

/// Reads a specification, checks it, and writes a line for each of its processes: its name, the number of its formal
/// gates, and `exit` or `noexit`. The processes come in the order of their definitions, each followed at once by its
/// inner ones.
///
/// A refusal is returned with nothing written. All lines are composed before the first byte is written; if no write
/// fails, one flush follows. A check stops only for [`Stop::Memory`] and [`Stop::Write`]. At most one byte more than a
/// text may have is taken from the reader, whatever it returns. Neither the reader nor the writer may have failed before.
pub fn check_text<R: Source, W: Sink>(
    alloc: Global,
    reader: &mut R,
    writer: &mut W,
) -> Ended<Processes, ()>
    requires reader { (R.state reader.old).has_failed ≡ false }
    requires writer { (W.state writer.old).has_failed ≡ false }
    ensures { Call check_meaning (R.state reader.old) (R.state reader.new) (W.state writer.old)
        (W.state writer.new) result }
{
    match read_specification(alloc, reader) {
        Ok(system) => write_processes(alloc, &system, writer),
        Err(rejection) => end_of(rejection, ()),
    }
}

/// Writes a line for each process of an accepted specification, and flushes the output if no write fails.
pub fn write_processes<W: Sink>(
    alloc: Global,
    system: &Checked,
    writer: &mut W,
) -> Ended<Processes, ()>
    requires { (W.state writer.old).has_failed ≡ false }
    ensures ends { Answered check_answering (λ asked. asked ≡ system_of system.now)
        (W.state writer.old).written (W.state writer.new).written result }
    ensures failed { (W.state writer.new).has_failed ≡ is_unwritten result }
{
    let processes = system.processes();
    let found = Processes {
        count: processes.len() as u64,
    };
    match format_processes(alloc, processes) {
        Ok(lines) => write_whole(writer, lines.as_slice(), found, ()),
        Err(_) => Ended::Stopped {
            cause: Stop::Memory,
            place: (),
        },
    }
}
