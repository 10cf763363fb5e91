//! The loop that writes all bytes.
ghost use Rattle.std.specs.Prelude.{◌≡◌, false, OnOk, OnErr};
ghost use Rattle.std.specs.Io.KnownBytes.{Appends};
ghost use Rattle.lotos_device.specs.DeviceContracts.{SetsFailed};
ghost use Rattle.lotos_device.specs.ByteOutput.{AppendsPart};

use crate::device::{DeviceFailed, Sink};

/// Writes all the bytes, as many at a time as the writer takes. If the writer fails, it has taken a proper prefix of
/// them.
pub fn write_bytes<W: Sink>(writer: &mut W, bytes: &[u8]) -> Result<(), DeviceFailed>
    requires { (W.state writer.old).has_failed ≡ false }
    ensures whole { OnOk result
        (Appends (W.state writer.old).written (W.state writer.new).written bytes.now) }
    ensures part { OnErr result
        (AppendsPart (W.state writer.old).written (W.state writer.new).written bytes.now) }
    ensures flag { SetsFailed (W.state writer.old).has_failed (W.state writer.new).has_failed result }
{
    let mut at = 0;
    while at < bytes.len() {
        at += writer.write(&bytes[at..])?;
    }
    Ok(())
}
