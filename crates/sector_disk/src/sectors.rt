//! The bytes of a disk, and what is in doubt of them.
ghost use Rattle.std.specs.Prelude.{◌≡◌, ◌+◌, ◌*◌, ◌/◌, ◌^◌, ◌<◌, ◌≤◌, ◌++◌, ◌↔◌, false, length, take, drop, replicate, IsTrue, IfOk};
ghost use Rattle.sector_disk.specs.declared.TheConstants.{SECTOR_BYTES};
ghost use Rattle.sector_disk.specs.Disk.{IsInRange, IsOverwritten, OneStepFrom, SameOutside};
ghost use Rattle.sector_disk.specs.Doubt.{NoneInDoubt, marked};
ghost use Rattle.sector_disk.specs.Images.{IsSettledBy};

use crate::SECTOR_BYTES;
use crate::doubt::Doubt;
use std::alloc::{AllocError, Global};

/// Whole sectors, with a flag for each that says whether it is in doubt.
#[derive(Drop)]
pub struct Sectors {
    /// What reads give, sector after sector.
    pub bytes: Vec<u8>,
    /// Which of them are in doubt.
    pub doubt: Doubt,
    ghost whole: { length bytes.items ≡ SECTOR_BYTES * length doubt.flags.items },
    ghost addressable: { SECTOR_BYTES * length doubt.flags.items < 2 ^ 64 },
}

/// Whether so many bytes are whole sectors of a disk of so many.
pub fn is_in_range(sectors: usize, first: usize, len: usize) -> bool
    requires { SECTOR_BYTES * sectors < 2 ^ 64 }
    ensures { IsTrue result ↔ IsInRange sectors first len }
{
    len % SECTOR_BYTES == 0 && first <= sectors && len <= SECTOR_BYTES * (sectors - first)
}

/// Puts bytes in the place of those at an offset.
pub fn overwrite(bytes: &mut [u8], at: usize, new: &[u8])
    requires { at + length new.now ≤ length bytes.old }
    ensures { IsOverwritten bytes.old at new.now bytes.new }
{
    bytes[at..at + new.len()].copy_from_slice(new);
}

// Fills so many bytes at an offset.
fn fill_range(bytes: &mut [u8], at: usize, count: usize, fill: u8)
    requires { at + count ≤ length bytes.old }
    ensures { bytes.new ≡ take at bytes.old ++ replicate count fill ++ drop (at + count) bytes.old }
{
    bytes[at..at + count].fill(fill);
}

// Fills each sector in doubt.
fn fill_doubtful(bytes: &mut [u8], in_doubt: &[bool], fill: u8)
    requires { length bytes.old ≡ SECTOR_BYTES * length in_doubt.now }
    ensures { IsSettledBy fill in_doubt.now bytes.old bytes.new }
{
    for (k, doubtful) in in_doubt.iter().enumerate() {
        if *doubtful {
            fill_range(bytes, SECTOR_BYTES * k, SECTOR_BYTES, fill);
        }
    }
}

impl Sectors {
    ghost use Rattle.sector_disk.specs.SectorsLeft.{left_of};

    /// So many sectors of zeros, none of them in doubt.
    pub fn new(alloc: Global, count: usize) -> Result<Sectors, AllocError>
        requires { SECTOR_BYTES * count < 2 ^ 64 }
        ensures bytes { IfOk result
            (λ sectors. sectors.bytes.items ≡ replicate (SECTOR_BYTES * count) 0) }
        ensures flags { IfOk result (λ sectors. sectors.doubt.flags.items ≡ replicate count false) }
    {
        Ok(Sectors {
            bytes: Vec::from_elem(alloc, 0, SECTOR_BYTES * count)?,
            doubt: Doubt::new(alloc, count)?,
        })
    }

    /// So many bytes of whole sectors are in doubt from now on, and hold what they held.
    pub fn mark(&mut self, first: usize, len: usize)
        requires { IsInRange (length self.old.doubt.flags.items) first len }
        ensures flags { self.new.doubt.flags.items
            ≡ marked first (len / SECTOR_BYTES) self.old.doubt.flags.items }
        ensures bytes { self.new.bytes ≡ self.old.bytes }
        ensures crash { OneStepFrom (left_of self.old) (left_of self.new)
            (SameOutside (SECTOR_BYTES * first) len) }
    {
        self.doubt.mark(first, len / SECTOR_BYTES);
    }

    /// Bytes of whole sectors are written, and these are in doubt from now on.
    pub fn write(&mut self, first: usize, bytes: &[u8])
        requires { IsInRange (length self.old.doubt.flags.items) first (length bytes.now) }
        ensures flags { self.new.doubt.flags.items
            ≡ marked first (length bytes.now / SECTOR_BYTES) self.old.doubt.flags.items }
        ensures bytes { IsOverwritten self.old.bytes.items (SECTOR_BYTES * first) bytes.now
            self.new.bytes.items }
        ensures elsewhere { SameOutside (SECTOR_BYTES * first) (length bytes.now)
            self.old.bytes.items self.new.bytes.items }
        ensures crash { OneStepFrom (left_of self.old) (left_of self.new)
            (SameOutside (SECTOR_BYTES * first) (length bytes.now)) }
    {
        self.doubt.mark(first, bytes.len() / SECTOR_BYTES);
        overwrite(&mut self.bytes, SECTOR_BYTES * first, bytes);
    }

    /// A crash fills the sectors in doubt. After it none is.
    pub fn settle(&mut self, fill: u8)
        ensures filled { IsSettledBy fill self.old.doubt.flags.items self.old.bytes.items
            self.new.bytes.items }
        ensures none { NoneInDoubt self.new.doubt.flags.items }
        ensures len { length self.new.doubt.flags.items ≡ length self.old.doubt.flags.items }
    {
        fill_doubtful(&mut self.bytes, &self.doubt.flags, fill);
        self.doubt.clear();
    }
}
