// Std's readers and writers, to the end of the bytes that are wanted.
ghost use Rattle.std.specs.Prelude.{◌≡◌, [], IsOk};
ghost use Rattle.sx_io.specs.Streams.{IsFrontOf, WritesThrough};

use crate::{SinkStop, StoreStop};
use std::alloc::Global;
use std::io::{ErrorKind, Read, Write};

/// Reads to the end, or to the first `most` bytes.
///
/// An `Err` of the reader is `Failed`, but for want of memory.
pub(crate) fn read_front<R: Read + Drop>(
    alloc: Global,
    reader: R,
    most: usize,
) -> Result<Vec<u8>, StoreStop>
    ensures front { IsFrontOf (R.remaining reader) most result }
{
    let mut bytes = Vec::new(alloc);
    match reader.take(most as u64).read_to_end(&mut bytes) {
        Ok(_) => Ok(bytes),
        Err(error) if error.kind() == ErrorKind::OutOfMemory => Err(StoreStop::NoMemory),
        Err(_) => Err(StoreStop::Failed),
    }
}

/// Writes all the bytes, in as many pieces as the writer takes them.
///
/// It fails at the first `Err` of the writer, and where the writer takes nothing of a piece.
pub(crate) fn write_whole<W: Write>(writer: &mut W, bytes: &[u8]) -> Result<(), SinkStop>
    ensures nothing { bytes.now ≡ [] → IsOk result }
    ensures through { WritesThrough (W.contents writer.old) (W.contents writer.new) bytes.now result }
{
    let mut taken = 0;
    'pieces: while taken < bytes.len() {
        match writer.write(&bytes[taken..]) {
            Ok(count) if count > 0 => taken += count,
            _ => return Err(SinkStop::Failed),
        }
    }
    Ok(())
}
