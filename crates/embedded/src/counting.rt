//! A disk of one's own: another disk, with a count of what it did.

ghost use Rattle.std.specs.Prelude.{◌≡◌, IsErrOf};

use cobaltmidge::{ArmedFault, Disk, DiskFault};
use std::alloc::AllocError;

/// Hands each call on to a disk, and counts those that the disk made.
#[derive(Drop)]
pub struct CountingDisk<D: Disk> {
    disk: D,
    pub reads: u64,
    pub writes: u64,
    pub syncs: u64,
}

impl<D: Disk> CountingDisk<D> {
    pub fn new(disk: D) -> CountingDisk<D> {
        CountingDisk {
            disk,
            reads: 0,
            writes: 0,
            syncs: 0,
        }
    }
}

/// Counts one more, unless the call was out of range: a disk is then as it was.
fn count(calls: &mut u64, answer: &Result<(), DiskFault>)
    ensures { IsErrOf answer.now DiskFault.Range → calls.new ≡ calls.old }
{
    match answer {
        Err(DiskFault::Range) => {}
        _ => *calls = calls.saturating_add(1),
    }
}

impl<D: Disk> Disk for CountingDisk<D> {
    ghost sector_count = { λ own. D.sector_count own.disk };

    ghost content = { λ own. D.content own.disk };

    ghost armed = { λ own. D.armed own.disk };

    ghost call_count = { λ own. D.call_count own.disk };

    ghost failed_call = { λ own. D.failed_call own.disk };

    ghost failure_count = { λ own. D.failure_count own.disk };

    ghost moment = { λ own. D.moment own.disk };

    ghost may_leave = { λ own. D.may_leave own.disk };

    ghost settles_to = { λ own. D.settles_to own.disk };

    ghost left_since = { λ own. D.left_since own.disk };

    fn sectors(&self) -> usize {
        self.disk.sectors()
    }

    fn failures(&self) -> u64 {
        self.disk.failures()
    }

    fn calls(&self) -> u64 {
        self.disk.calls()
    }

    fn failed_call(&self) -> u64 {
        self.disk.failed_call()
    }

    fn read(&mut self, first: usize, into: &mut [u8]) -> Result<(), DiskFault> {
        let answer = self.disk.read(first, into);
        count(&mut self.reads, &answer);
        answer
    }

    fn write(&mut self, first: usize, bytes: &[u8]) -> Result<(), DiskFault> {
        let answer = self.disk.write(first, bytes);
        count(&mut self.writes, &answer);
        answer
    }

    fn sync(&mut self) -> Result<(), DiskFault> {
        let answer = self.disk.sync();
        count(&mut self.syncs, &answer);
        answer
    }

    fn crash(&mut self, fill: Option<u8>) {
        self.disk.crash(fill)
    }

    fn arm(&mut self, fault: ArmedFault) -> Result<(), AllocError> {
        self.disk.arm(fault)
    }

    fn recount(&mut self) {
        self.disk.recount()
    }

    ghost includes_now = { λ own t c. D.includes_now own.disk t c };

    ghost only_now = { λ own c. D.only_now own.disk c };

    ghost content_may_stay = { λ own. D.content_may_stay own.disk };

    ghost is_whole = { λ own. D.is_whole own.disk };

    ghost is_addressable = { λ own. D.is_addressable own.disk };

    ghost is_countable = { λ own. D.is_countable own.disk };
}
