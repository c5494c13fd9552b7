//! One read from a stream and one write to one, noted as they went.
ghost use Rattle.std.specs.Prelude.{◌≡◌, length, take, IfSome, IfOk, OnOk};
ghost use Rattle.cx_base.specs.Counts.{Rose};
ghost use Rattle.cx_desk.specs.Noted.{gave_of};
ghost use Rattle.cx_system.specs.Streams.{ReadsNoted, WritesNoted, ReadsTold, WritesTold};

use cx_desk::{Failed, Transcript};
use std::io::{Read, Write};

/// Counts one more fault; at its last value the count stays.
pub fn count_fault(count: &mut u64)
    ensures { Rose count.old count.new }
{
    *count = count.saturating_add(1);
}

/// Reads from a stream, and notes what came; none where that fails.
pub fn read_on<R: Read>(stream: &mut R, into: &mut [u8], gave: &mut Transcript) -> Option<usize>
    ensures noted { ReadsNoted into.new (gave_of gave.old) result (gave_of gave.new) }
    ensures told { ReadsTold (R.remaining stream.old) (R.remaining stream.new) result into.new }
{
    match stream.read(into) {
        Ok(count) => {
            gave.note(&into[..count]);
            Some(count)
        }
        Err(_) => None,
    }
}

/// Writes to a stream, and notes what it took; a stream that takes nothing has failed.
#[inline(never)]
pub fn put_on<W: Write>(
    stream: &mut W,
    took: &mut Transcript,
    faults: &mut u64,
    piece: &[u8],
) -> Result<usize, Failed>
    ensures noted { WritesNoted piece.now (gave_of took.old) faults.old result (gave_of took.new) faults.new }
    ensures told { WritesTold (W.contents stream.old) (W.contents stream.new) result piece.now }
{
    match stream.write(piece) {
        Ok(count) if count > 0 => {
            took.note(&piece[..count]);
            Ok(count)
        }
        _ => {
            count_fault(faults);
            Err(Failed)
        }
    }
}
