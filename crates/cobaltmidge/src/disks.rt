//! The disks of a run, which are in memory.

ghost use Rattle.std.specs.Prelude.{◌≡◌, ◌*◌, ◌^◌, ◌<◌, length, map, replicate, IfOk};
ghost use Rattle.std.specs.List.{AllByRecursion};
ghost use Rattle.protocol.specs.Node.Common.{SECTOR_BYTES, SECTORS, sectors_of};
ghost use Rattle.sector_disk.specs.MemDisk.{failures_of};

use sector_disk::MemDisk;
use std::alloc::{AllocError, Global};
use world::SECTORS;

/// A disk in memory of so many sectors, which never failed. (What it holds is left out of the contract: of a given number, a
/// proof that has it in reach would write out all the zeros.)
fn empty_disk(alloc: Global, sectors: usize) -> Result<MemDisk, AllocError>
    requires { SECTOR_BYTES * sectors < 2 ^ 64 }
    ensures unfailed { IfOk result (λ disk. failures_of disk ≡ 0) }
    ensures sectors { IfOk result (λ disk. sectors_of disk ≡ sectors) }
{
    MemDisk::new(alloc, sectors)
}

/// Such a disk for each of so many nodes, with room for the records of a node.
pub(crate) fn empty_disks(alloc: Global, nodes: usize) -> Result<Vec<MemDisk>, AllocError>
    ensures each { IfOk result (λ disks. length disks.items ≡ nodes) }
    ensures unfailed { IfOk result (λ disks. map failures_of disks.items ≡ replicate nodes 0) }
    ensures sectors { IfOk result
        (λ disks. AllByRecursion (λ disk. sectors_of disk ≡ SECTORS) disks.items) }
{
    let mut disks = Vec::with_capacity(alloc, nodes)?;
    for _node in 0..nodes {
        disks.push(empty_disk(alloc, SECTORS)?)?;
    }
    Ok(disks)
}
