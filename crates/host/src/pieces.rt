// A piece of what a reader gives.
ghost use Rattle.std.specs.Prelude.{◌≡◌, ◌≤◌, [], length, take, IfOk, OnErr, OnOk};
ghost use Rattle.std.specs.Io.{ReadsAtMost};
ghost use Rattle.std.specs.Io.KnownBytes.{Consumes, IsAtEnd, Keeps};
ghost use Rattle.host.specs.declared.host.TheConstants.{MAX_PIECE_BYTES};

use crate::host::MAX_PIECE_BYTES;
use std::io;
use std::io::Read;

// One call of the reader, which is made again where a signal interrupted it.
fn read_once<R: Read>(reader: &mut R, piece: &mut [u8]) -> io::Result<usize>
    ensures within { ReadsAtMost result piece.new }
    ensures same { length piece.new ≡ length piece.old }
    ensures came { IfOk result (λ count. Consumes (R.remaining reader.old) (R.remaining reader.new) (take count piece.new)) }
    ensures end { IfOk result (λ count. count ≡ 0 → 1 ≤ length piece.old → IsAtEnd (R.remaining reader.new)) }
    ensures kept { OnErr result (Keeps (R.remaining reader.old) (R.remaining reader.new)) }
{
    for _ in 0..u64::MAX {
        match reader.read(piece) {
            Ok(count) => return Ok(count),
            Err(error) => match error.kind() {
                io::ErrorKind::Interrupted => {}
                _ => return Err(error),
            },
        }
    }
    Err(io::Error::from(io::ErrorKind::Interrupted))
}

// Reads into the beginning of a piece, and tells how many bytes came. There is room for them before the call, so that none is lost for want of
// memory. What is behind the bytes that came last is zeroed, and nothing else.
fn fill<R: Read>(reader: &mut R, piece: &mut Vec<u8>) -> io::Result<usize>
    ensures few { IfOk result (λ count. count ≤ MAX_PIECE_BYTES) }
    ensures within { IfOk result (λ count. count ≤ length piece.new.items) }
    ensures came { IfOk result (λ count. Consumes (R.remaining reader.old) (R.remaining reader.new) (take count piece.new.items)) }
    ensures end { IfOk result (λ count. count ≡ 0 → IsAtEnd (R.remaining reader.new)) }
    ensures kept { OnErr result (Keeps (R.remaining reader.old) (R.remaining reader.new)) }
{
    piece.resize(MAX_PIECE_BYTES, 0)?;
    read_once(reader, piece.as_mut_slice())
}

/// What comes next of a reader, in the place of what `piece` held.
pub fn take_piece<R: Read>(reader: &mut R, piece: &mut Vec<u8>) -> io::Result<()>
    ensures few { length piece.new.items ≤ MAX_PIECE_BYTES }
    ensures failed { OnErr result (piece.new.items ≡ []) }
    // Where it is known what the reader will give, these are its next bytes, and it gives the others later.
    ensures came { OnOk result (Consumes (R.remaining reader.old) (R.remaining reader.new) piece.new.items) }
    // No bytes are its end.
    ensures end { OnOk result (piece.new.items ≡ [] → IsAtEnd (R.remaining reader.new)) }
    // And a call that failed loses none.
    ensures kept { OnErr result (Keeps (R.remaining reader.old) (R.remaining reader.new)) }
{
    match fill(reader, piece) {
        Ok(count) => {
            piece.truncate(count);
            Ok(())
        }
        Err(error) => {
            piece.clear();
            Err(error)
        }
    }
}
