//! How a header lies in the one sector of its area.
ghost use Rattle.std.specs.Prelude.{◌≡◌, ◌+◌, ◌≤◌, ◌++◌, length, take, drop, replicate};
ghost use Rattle.sector_disk.specs.declared.TheConstants.{SECTOR_BYTES};
ghost use Rattle.gate_cell.specs.declared.frame.TheConstants.{LENGTH_BYTES};
ghost use Rattle.gate_cell.specs.Layout.{IsFrame};

use gate_cell::LENGTH_BYTES;
use sector_disk::SECTOR_BYTES;

// Writes these bytes over those at an offset.
fn place(bytes: &mut [u8], at: usize, new: &[u8])
    requires { at + length new.now ≤ length bytes.old }
    ensures { bytes.new ≡ take at bytes.old ++ new.now ++ drop (at + length new.now) bytes.old }
{
    bytes[at..at + new.len()].copy_from_slice(new);
}

// Fills it with zeros.
fn clear(bytes: &mut [u8])
    ensures { bytes.new ≡ replicate (length bytes.old) 0 }
{
    bytes.fill(0);
}

/// Makes a sector of it that frames this value. It takes no memory.
pub fn frame_into(frame: &mut [u8], value: &[u8])
    requires sector { length frame.old ≡ SECTOR_BYTES }
    requires short { LENGTH_BYTES + length value.now ≤ SECTOR_BYTES }
    ensures { IsFrame value.now frame.new }
{
    clear(frame);
    place(frame, 0, &(value.len() as u64).to_be_bytes());
    place(frame, LENGTH_BYTES, value);
}
