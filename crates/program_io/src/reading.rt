//! An input read to its end.
ghost use Rattle.std.specs.Prelude.{◌≡◌, ◌≤◌, IfErr, IfOk, IfSome, OnOk, vec_len};
ghost use Rattle.std.specs.Io.KnownBytes.{IsAtEnd};
ghost use Rattle.program_io.specs.StoppedReads.{IsReadBy, StopsWith};

use crate::fault::ReadFault;
use faults::OrMemory;
use std::alloc::Global;
use std::io::Read;

/// The most bytes that are read of one input, 64 MiB.
pub const MOST_BYTES: usize = 67_108_864;

/// The most reads that one input is given to come to its end.
pub const MOST_READS: u32 = 1_000_000;

/// The most bytes that are asked for at once.
pub(crate) const PIECE: usize = 8192;

/// All that the reader has left.
///
/// # Errors
/// `Fault` where a read fails, where [`MOST_READS`] reads haven't come to the end, or where there are more
/// than [`MOST_BYTES`] bytes; `Memory` where an allocation for them failed. The reader then gave what was read so far,
/// at most [`MOST_BYTES`] bytes, and one more where there are too many.
pub fn read_all<R: Read>(alloc: Global, reader: &mut R) -> Result<Vec<u8>, OrMemory<ReadFault>>
    // It gives the reader's bytes whole.
    ensures bytes { IfOk result (λ bytes. IfSome (R.remaining reader.old) (λ all. bytes.items ≡ all)) }
    ensures end { OnOk result (IsAtEnd (R.remaining reader.new)) }
    ensures size { IfOk result (λ bytes. vec_len bytes ≤ MOST_BYTES) }
    // It gives the whole only if fewer reads than are made at most can have brought it.
    ensures reads { IfOk result (λ bytes. IsReadBy bytes.items) }
    // Else it fails within its bounds. 'Too many bytes' comes only if there are. 'Too many reads' comes only if the
    // input had at least 1,000,000 bytes, and no more than 1,000,000 reads can bring.
    ensures err { IfErr result (StopsWith (R.remaining reader.old) (R.remaining reader.new)) }
{
    let mut bytes = Vec::new(alloc);
    let mut buffer = [0u8; PIECE];
    for reads in 0..MOST_READS {
        let room = buffer.len().min(MOST_BYTES + 1 - bytes.len());
        let count = match reader.read(&mut buffer[..room]) {
            Ok(count) => count,
            Err(error) => return Err(OrMemory::Fault(ReadFault::from(error))),
        };
        if count == 0 {
            return Ok(bytes);
        }
        if count > MOST_BYTES - bytes.len() {
            return Err(OrMemory::Fault(ReadFault::TooManyBytes));
        }
        bytes.extend_from_slice(&buffer[..count])?;
    }
    Err(OrMemory::Fault(ReadFault::TooManyReads))
}
