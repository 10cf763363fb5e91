//! The end of the output: the flush.
ghost use Rattle.std.specs.Prelude.{◌≡◌, if◌then◌else◌, false, OnErr, OnOk, is_err};
ghost use Rattle.std.specs.Io.KnownBytes.{Appends, Keeps};
ghost use Rattle.lotos_device.specs.ByteOutput.{AppendsBeginning};
ghost use Rattle.lotos_outcome.specs.Outcomes.{is_unwritten};
ghost use Rattle.lotos_output.specs.WholeOutput.{EndsWhole};

use lotos_device::{DeviceFailed, Sink, write_bytes};
use lotos_outcome::{Ended, Stop};

/// Flushes output that stopped for this cause. Returns the cause, or [`Stop::Write`] if the flush fails.
pub fn flush_stopped<W: Sink>(writer: &mut W, cause: Stop) -> Stop
    requires { (W.state writer.old).has_failed ≡ false }
    ensures kept { Keeps (W.state writer.old).written (W.state writer.new).written }
    ensures returned { result ≡ (if (W.state writer.new).has_failed then Stop.Write else cause) }
{
    match writer.flush() {
        Ok(()) => cause,
        Err(DeviceFailed) => Stop::Write,
    }
}

/// Writes the bytes, which are the whole output, and flushes it once if no write fails.
pub fn write_and_flush<W: Sink>(writer: &mut W, bytes: &[u8]) -> Result<(), DeviceFailed>
    requires { (W.state writer.old).has_failed ≡ false }
    ensures whole { OnOk result
        (Appends (W.state writer.old).written (W.state writer.new).written bytes.now) }
    ensures beginning { OnErr result
        (AppendsBeginning (W.state writer.old).written (W.state writer.new).written bytes.now) }
    ensures failed { (W.state writer.new).has_failed ≡ is_err result }
{
    write_bytes(writer, bytes)?;
    writer.flush()
}

/// Writes the bytes, which are all that a command writes, and flushes them. The command ends with what it found, or, if
/// the output fails, at this place.
pub fn write_whole<F: Drop, P: Drop, W: Sink>(
    writer: &mut W,
    bytes: &[u8],
    found: F,
    place: P,
) -> Ended<F, P>
    requires { (W.state writer.old).has_failed ≡ false }
    ensures whole { EndsWhole bytes.now found place (W.state writer.old).written
        (W.state writer.new).written result }
    ensures failed { (W.state writer.new).has_failed ≡ is_unwritten result }
{
    match write_and_flush(writer, bytes) {
        Ok(()) => Ended::Done(found),
        Err(DeviceFailed) => Ended::Stopped {
            cause: Stop::Write,
            place,
        },
    }
}
