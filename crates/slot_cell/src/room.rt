//! How many sectors a slot has, and how many bytes.
ghost use Rattle.std.specs.Prelude.{◌≡◌, ◌≤◌};
ghost use Rattle.slot_cell.specs.declared.TheConstants.{LEAST_SPLIT_SECTORS};
ghost use Rattle.slot_cell.specs.SplitLayout.{slot_sectors, slot_room_on};

use crate::HEADER_SECTORS;
use gate_cell::{LENGTH_BYTES, MAX_VALUE_BYTES};
use sector_disk::SECTOR_BYTES;

/// The sectors of one of the two slots.
pub fn slot_sectors_of(sectors: usize) -> usize
    requires { LEAST_SPLIT_SECTORS ≤ sectors }
    ensures { result ≡ slot_sectors sectors }
{
    (sectors - HEADER_SECTORS) / 2
}

/// The most bytes that fit a slot of a disk of so many sectors.
pub fn slot_room_of(sectors: usize) -> usize
    requires { LEAST_SPLIT_SECTORS ≤ sectors }
    ensures { result ≡ slot_room_on sectors }
{
    let slot = slot_sectors_of(sectors);
    if slot > MAX_VALUE_BYTES / SECTOR_BYTES {
        MAX_VALUE_BYTES
    } else {
        SECTOR_BYTES * slot - LENGTH_BYTES
    }
}
