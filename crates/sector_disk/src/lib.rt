//! A disk of sectors that may crash at any moment: what a read gives now, and what a crash may leave.
//!
//! `Disk` is the model that everything above rests on. `MemDisk` is a disk in memory that obeys armed faults. Its parts
//! are open for disks of another kind: `Sectors`, the bytes and what is in doubt of them, and `FaultSchedule`, the counts
//! and the faults that are armed. `Past` keeps, for proofs alone, what a value has been: a clock over it needs no memory.
#![tactic(auto)]

mod disk;
mod doubt;
mod fault;
mod memory;
mod past;
mod schedule;
mod sectors;

pub use disk::{ArmedFault, Disk};
pub use doubt::Doubt;
pub use fault::DiskFault;
pub use memory::MemDisk;
pub use past::Past;
pub use schedule::FaultSchedule;
pub use sectors::{Sectors, is_in_range};

/// Bytes of a sector.
pub const SECTOR_BYTES: usize = 512;

/// Where counts stop: 2^63 - 1.
pub const GREATEST_COUNT: u64 = (1 << 63) - 1;
