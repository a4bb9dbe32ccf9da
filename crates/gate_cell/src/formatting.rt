//! A first value under a gate, in the first so many sectors of a disk.
ghost use Rattle.std.specs.Prelude.{◌≡◌, ◌-◌, ◌*◌, ◌≤◌, length, take, drop, OnOk, OnErr};
ghost use Rattle.sector_disk.specs.declared.TheConstants.{SECTOR_BYTES};
ghost use Rattle.sector_disk.specs.Disk.{SameSetup};
ghost use Rattle.gate_cell.specs.Calls.{HasStopped};
ghost use Rattle.gate_cell.specs.CellFault.{HasDeviceCause};
ghost use Rattle.gate_cell.specs.Layout.{room_on, value_in, value_on, named, frame_size, IsFrame, IsGate, IsSettled};

use crate::access::{make_sure, write_sectors};
use crate::fault::CellFault;
use crate::frame::gate_bytes;
use sector_disk::Disk;

/// Makes a first value of this frame in the first `size` sectors: in area 0, under a gate of zeros. No device call is
/// counted after it.
pub fn lay_out<D: Disk>(disk: &mut D, size: usize, frame: &[u8]) -> Result<(), CellFault>
    requires big { 3 ≤ size }
    requires within { size ≤ D.sector_count disk.old }
    requires frame { IsFrame (value_in frame.now) frame.now }
    requires room { length (value_in frame.now) ≤ room_on size }
    ensures settled { OnOk result (IsSettled (D.content disk.new) (D.may_leave disk.new) size 0
        (length (value_in frame.now))) }
    ensures value { OnOk result (value_on size (D.content disk.new) ≡ value_in frame.now) }
    ensures gate { OnOk result (IsGate 0 (D.content disk.new)) }
    ensures frame { OnOk result (IsFrame (value_in frame.now)
        (take (frame_size (length (value_in frame.now))) (named size (D.content disk.new)))) }
    ensures behind { OnOk result (drop (SECTOR_BYTES * size) (D.content disk.new)
        ≡ drop (SECTOR_BYTES * size) (D.content disk.old)) }
    ensures setup { SameSetup D.sector_count D.armed disk.old disk.new }
    ensures cause { HasDeviceCause (D.failure_count disk.old) (D.failure_count disk.new) result }
    ensures uncounted { OnOk result (D.call_count disk.new ≡ 0) }
    ensures none_failed { OnOk result (D.failed_call disk.new ≡ 0) }
    ensures stopped { OnErr result (HasStopped D.call_count D.failed_call 3 disk.old disk.new) }
{
    write_sectors(disk, 1, frame)?;
    write_sectors(disk, 0, &gate_bytes(0))?;
    make_sure(disk)?;
    disk.recount();
    Ok(())
}
