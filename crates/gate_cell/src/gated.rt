//! A value under a gate, in the first so many sectors of a disk. What lies behind them is none of its business, and stays.
ghost use Rattle.std.specs.Prelude.{◌≡◌, ◌+◌, ◌-◌, ◌*◌, ◌≤◌, ◌%◌, ◌⊎◌, length, get_or, take, OnOk, OnErr, IfOk};
ghost use Rattle.sector_disk.specs.declared.TheConstants.{SECTOR_BYTES};
ghost use Rattle.sector_disk.specs.Clock.{Only, LeavesOnly};
ghost use Rattle.sector_disk.specs.Disk.{SameSetup};
ghost use Rattle.gate_cell.specs.Calls.{HasStopped, count_after_calls};
ghost use Rattle.gate_cell.specs.CellFault.{HasDeviceCause};
ghost use Rattle.gate_cell.specs.Layout.{room_on, value_in, value_on, named, length_in, frame_size, IsFrame, IsGate, IsSettled};
ghost use Rattle.gate_cell.specs.Stands.{Looks, PutLeaves};

use crate::access::{look, make_sure, write_through};
use crate::fault::CellFault;
use crate::frame::{area_of, gate_bytes, length_of};
use sector_disk::{Disk, SECTOR_BYTES};

/// Puts a value, framed, in the place of the one in the first `size` sectors: it goes to the area that the gate doesn't
/// name, and once it is on the disk the gate names that area.
pub fn put_value<D: Disk>(
    disk: &mut D,
    size: usize,
    active: usize,
    frame: &[u8],
) -> Result<(), CellFault>
    requires big { 3 ≤ size }
    requires within { size ≤ D.sector_count disk.old }
    requires which { active ≤ 1 }
    requires gate { get_or (D.content disk.old) 0 0 % 2 ≡ active }
    requires durable { Only (D.content disk.old) (D.may_leave disk.old) }
    requires frame { IsFrame (value_in frame.now) frame.now }
    requires room { length (value_in frame.now) ≤ room_on size }
    // The sectors stand for what they stood for or for the new value, and all that lies behind them stays.
    ensures any_moment { LeavesOnly D.moment D.left_since disk.old disk.new
        (PutLeaves size (D.content disk.old) (value_in frame.now)) }
    ensures settled { OnOk result (IsSettled (D.content disk.new) (D.may_leave disk.new) size (1 - active)
        (length (value_in frame.now))) }
    ensures value { OnOk result (value_on size (D.content disk.new) ≡ value_in frame.now) }
    ensures gate { OnOk result (IsGate (1 - active) (D.content disk.new)) }
    ensures frame { OnOk result (IsFrame (value_in frame.now)
        (take (frame_size (length (value_in frame.now))) (named size (D.content disk.new)))) }
    ensures setup { SameSetup D.sector_count D.armed disk.old disk.new }
    ensures cause { HasDeviceCause (D.failure_count disk.old) (D.failure_count disk.new) result }
    ensures calls { OnOk result
        (D.call_count disk.new ≡ count_after_calls 4 (D.call_count disk.old)) }
    ensures stopped { OnErr result (HasStopped D.call_count D.failed_call 4 disk.old disk.new) }
{
    let other = 1 - active;
    write_through(disk, 1 + other * area_of(size), frame)?;
    write_through(disk, 0, &gate_bytes(other as u8))?;
    Ok(())
}

/// The area that a gate names, and the length that stands at its front.
#[derive(Clone, Copy, Drop)]
pub struct Found {
    /// The number of the area: 0 or 1.
    pub active: usize,
    /// The length, which may be more than the area has room for.
    pub value_len: usize,
}

/// Finds out where the value in the first `size` sectors is. It syncs before it reads: what it finds is what a crash
/// leaves.
pub fn find_in<D: Disk>(disk: &mut D, size: usize) -> Result<Found, CellFault>
    requires big { 3 ≤ size }
    requires within { size ≤ D.sector_count disk.old }
    ensures active { IfOk result (λ found. get_or (D.content disk.old) 0 0 % 2 ≡ found.active) }
    ensures long { IfOk result (λ found.
        length_in (named size (D.content disk.old)) ≡ found.value_len) }
    ensures durable { OnOk result (Only (D.content disk.new) (D.may_leave disk.new)) }
    ensures looks { Looks D.content D.may_leave D.moment D.left_since disk.old disk.new }
    ensures setup { SameSetup D.sector_count D.armed disk.old disk.new }
    ensures cause { HasDeviceCause (D.failure_count disk.old) (D.failure_count disk.new) result }
    ensures calls { OnOk result
        (D.call_count disk.new ≡ count_after_calls 3 (D.call_count disk.old)) }
    ensures stopped { OnErr result (HasStopped D.call_count D.failed_call 3 disk.old disk.new) }

    // Where it got past its first call, nothing is in doubt, though it was refused.
    ensures settled { OnErr result
        ((D.call_count disk.new ≡ count_after_calls 1 (D.call_count disk.old))
        ⊎ Only (D.content disk.new) (D.may_leave disk.new)) }
{
    make_sure(disk)?;
    let mut gate = [0; SECTOR_BYTES];
    look(disk, 0, &mut gate)?;
    let active = (gate[0] % 2) as usize;
    let mut front = [0; SECTOR_BYTES];
    look(disk, 1 + active * area_of(size), &mut front)?;
    Ok(Found {
        active,
        value_len: length_of(&front),
    })
}

/// Finds out where the value is whose areas are the whole disk.
pub fn find_value<D: Disk>(disk: &mut D) -> Result<Found, CellFault>
    requires { 3 ≤ D.sector_count disk.old }
    ensures active { IfOk result (λ found. get_or (D.content disk.old) 0 0 % 2 ≡ found.active) }
    ensures long { IfOk result (λ found.
        length_in (named (D.sector_count disk.old) (D.content disk.old)) ≡ found.value_len) }
    ensures durable { OnOk result (Only (D.content disk.new) (D.may_leave disk.new)) }
    ensures looks { Looks D.content D.may_leave D.moment D.left_since disk.old disk.new }
    ensures setup { SameSetup D.sector_count D.armed disk.old disk.new }
    ensures cause { HasDeviceCause (D.failure_count disk.old) (D.failure_count disk.new) result }
    ensures calls { OnOk result
        (D.call_count disk.new ≡ count_after_calls 3 (D.call_count disk.old)) }
    ensures stopped { OnErr result (HasStopped D.call_count D.failed_call 3 disk.old disk.new) }

    // Where it got past its first call, nothing is in doubt, though it was refused.
    ensures settled { OnErr result
        ((D.call_count disk.new ≡ count_after_calls 1 (D.call_count disk.old))
        ⊎ Only (D.content disk.new) (D.may_leave disk.new)) }
{
    let size = disk.sectors();
    find_in(disk, size)
}
