//! The loop that reads a whole text, within a limit on its length.
ghost use Rattle.std.specs.Prelude.{◌≡◌, ◌+◌, ◌≤◌, false, IfOk, IsErrOf, length};
ghost use Rattle.lotos_device.specs.TextInput.{ReadsAll, TakesAtMost, TakesExactly, is_device_fault};

use crate::device::{DeviceFailed, Source};
use std::alloc::{AllocError, Global};

/// The most bytes that one read may move.
const CHUNK_SIZE: usize = 4096;

/// Why a text could not be read.
#[derive(Clone, Copy, Debug, PartialEq, Eq)]
pub enum ReadFault {
    /// A read of the source failed.
    Device,
    /// The source has more bytes left than the limit.
    TooLong,
    /// Out of memory.
    Memory,
}

impl From<AllocError> for ReadFault {
    ghost use Rattle.std.specs.Prelude.{◌≡◌};
    ghost use Rattle.lotos_device.specs.declared.text_input.ReadFault.TheVariants.{Memory};

    ghost from_gives = { λ _ e. e ≡ Memory };

    fn from(_error: AllocError) -> ReadFault {
        ReadFault::Memory
    }
}

/// Reads all that the reader has left, if that is at most `limit` bytes. It takes at most one byte more, whatever the
/// reader gives; if it takes that byte, the text is too long.
///
/// Any limit is allowed, also `usize::MAX`. No vector grows to 2^63 bytes: under a limit that large, memory runs out
/// before a text is too long.
pub fn read_text<R: Source>(
    alloc: Global,
    reader: &mut R,
    limit: usize,
) -> Result<Vec<u8>, ReadFault>
    requires { (R.state reader.old).has_failed ≡ false }
    ensures whole { IfOk result (λ text.
        ReadsAll (R.state reader.old).remaining (R.state reader.new).remaining limit text.items) }
    ensures given { (R.state reader.new).given ≤ (R.state reader.old).given + (limit + 1) }
    ensures whole_given { IfOk result (λ text.
        (R.state reader.new).given ≡ (R.state reader.old).given + length text.items) }
    ensures one_more_given { IsErrOf result ReadFault.TooLong →
        (R.state reader.new).given ≡ (R.state reader.old).given + (limit + 1) }
    ensures failed { (R.state reader.new).has_failed ≡ is_device_fault result }
    ensures too_long { IsErrOf result ReadFault.TooLong →
        TakesExactly (R.state reader.old).remaining (R.state reader.new).remaining (limit + 1) }
    ensures memory { IsErrOf result ReadFault.Memory →
        TakesAtMost (R.state reader.old).remaining (R.state reader.new).remaining (limit + 1) }
    ensures device { IsErrOf result ReadFault.Device →
        TakesAtMost (R.state reader.old).remaining (R.state reader.new).remaining limit }
{
    let mut text = Vec::new(alloc);
    let mut piece = [0; CHUNK_SIZE];
    loop {
        let room = (CHUNK_SIZE - 1).min(limit - text.len()) + 1;
        let count = match reader.read(&mut piece[..room]) {
            Ok(0) => return Ok(text),
            Ok(count) => count,
            Err(DeviceFailed) => return Err(ReadFault::Device),
        };
        text.extend_from_slice(&piece[..count])?;
        if text.len() > limit {
            return Err(ReadFault::TooLong);
        }
    }
}
