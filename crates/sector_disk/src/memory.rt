//! A disk in memory, which obeys armed faults.
ghost use Rattle.std.specs.Prelude.{◌≡◌, ◌*◌, ◌/◌, ◌^◌, ◌<◌, ◌++◌, ◌↔◌, [], ◌∷◌, false, length, take, drop, replicate, IsSome, IfOk, OnOk, OnErr, IsErrOf};
ghost use Rattle.std.proofs.Common.{inl};
ghost use Rattle.sector_disk.specs.declared.TheConstants.{SECTOR_BYTES};
ghost use Rattle.sector_disk.specs.Clock.{Only, TimePasses};
ghost use Rattle.sector_disk.specs.Disk.{IsInRange, SameOutside, IsOverwritten, OneStepFrom, IsQuiet, IsCounted, SameCounts, SameSetup};
ghost use Rattle.sector_disk.specs.Images.{may_lose_nothing};
ghost use Rattle.sector_disk.specs.Past.{now_alone};

use crate::SECTOR_BYTES;
use crate::disk::{ArmedFault, Disk};
use crate::fault::DiskFault;
use crate::past::Past;
use crate::schedule::FaultSchedule;
use crate::sectors::{Sectors, is_in_range};
use std::alloc::{AllocError, Global};

/// A disk in memory. A call takes time by the sectors that it touches, and none but `arm` takes memory.
///
/// The device call whose count since the last recount is that of an armed fault fails; of several faults armed for one
/// call the first counts. A write that fails leaves its range in doubt and its content as it was; a read or a sync that
/// fails does nothing. Once `GREATEST_COUNT` calls have failed, no further fault is obeyed.
pub struct MemDisk {
    sectors: Sectors,
    schedule: FaultSchedule,
    past: Past<Sectors>,
}

// Written out, since each crate above would go through a derived one again.
impl Drop for MemDisk {
    fn drop(self) {
        let Self {
            sectors,
            schedule,
            past,
        } = self;
    }
}

impl MemDisk {
    ghost use Rattle.sector_disk.specs.MemDisk.{content_of, doubt_of, faults_of};
    ghost use Rattle.sector_disk.specs.Schedule.{no_faults};

    /// A disk of so many sectors of zeros, on which nothing is in doubt or armed. It makes the room for every call but
    /// `arm`, and refuses for want of memory (1) alone.
    pub fn new(alloc: Global, sectors: usize) -> Result<MemDisk, AllocError>
        requires { SECTOR_BYTES * sectors < 2 ^ 64 }
        ensures content { IfOk result
            (λ disk. content_of disk ≡ replicate (SECTOR_BYTES * sectors) 0) }
        ensures settled { IfOk result (λ disk. doubt_of disk ≡ replicate sectors false) }
        ensures faults { IfOk result (λ disk. faults_of disk ≡ no_faults) }
    {
        Ok(MemDisk {
            sectors: Sectors::new(alloc, sectors)?,
            schedule: FaultSchedule::new(alloc),
            past: Past::new(),
        })
    }
}

impl Disk for MemDisk {
    ghost use Rattle.sector_disk.specs.MemDisk.{content_of, doubt_of, faults_of, sectors_of, failures_of, calls_of, failed_call_of, armed_of, may_leave_of, moment_of, left_since_of, settles_to_of, past_of};
    ghost use Rattle.sector_disk.specs.SectorsLeft.{left_of};
    ghost use Rattle.sector_disk.specs.Doubt.{marked, NoneInDoubt};
    ghost use Rattle.sector_disk.specs.Schedule.{fault_met, after_call, after_crash, after_arming, after_recount};

    ghost sector_count = { sectors_of };

    ghost content = { content_of };

    ghost armed = { armed_of };

    ghost call_count = { calls_of };

    ghost failed_call = { failed_call_of };

    ghost failure_count = { failures_of };

    ghost moment = { moment_of };

    ghost may_leave = { may_leave_of };

    ghost settles_to = { settles_to_of };

    ghost left_since = { left_since_of };

    ghost includes_now = { λ disk t c le now. inl (le, now) };

    ghost only_now = { λ disk c left. now_alone left_of (may_leave_of disk) (past_of disk) c left };

    ghost content_may_stay = { λ disk. may_lose_nothing (content_of disk) (doubt_of disk) };

    ghost is_whole = { λ disk. disk.sectors.whole };

    ghost is_countable = { λ disk. disk.schedule.calls_countable };

    ghost is_addressable = { λ disk. disk.sectors.addressable };

    fn sectors(&self) -> usize {
        self.sectors.doubt.flags.len()
    }

    fn failures(&self) -> u64 {
        self.schedule.failures
    }

    fn calls(&self) -> u64 {
        self.schedule.calls
    }

    fn failed_call(&self) -> u64 {
        self.schedule.failed_call
    }

    fn read(&mut self, first: usize, into: &mut [u8]) -> Result<(), DiskFault>
        ensures range { IsErrOf result DiskFault.Range
            ↔ ¬ (IsInRange (sectors_of self.old) first (length into.old)) }
        ensures out_of_range { IsErrOf result DiskFault.Range → self.new ≡ self.old }
        ensures bytes { OnOk result
            (into.new ≡ take (length into.old)
            (drop (SECTOR_BYTES * first) (content_of self.old))) }
        ensures same_bytes { OnErr result (into.new ≡ into.old) }
        ensures quiet { IsQuiet content_of may_leave_of self.old self.new }
        ensures time { TimePasses moment_of left_since_of may_leave_of self.old self.new }
        ensures counted { IsCounted failures_of calls_of failed_call_of self.old self.new result }
        ensures setup { SameSetup sectors_of armed_of self.old self.new }

        // It fails exactly where a fault is armed.
        ensures fails { IsErrOf result DiskFault.Device
            ↔ (IsInRange (sectors_of self.old) first (length into.old)
            × IsSome (fault_met (faults_of self.old))) }
        // But for a 21 the call is counted, and a fault that it meets is noted.
        ensures faults { ¬ (IsErrOf result DiskFault.Range)
            → faults_of self.new ≡ after_call (faults_of self.old) }
        ensures doubt { doubt_of self.new ≡ doubt_of self.old }
    {
        if !is_in_range(self.sectors.doubt.flags.len(), first, into.len()) {
            return Err(DiskFault::Range);
        }
        if self.schedule.count_call() {
            return Err(DiskFault::Device);
        }
        let at = SECTOR_BYTES * first;
        into.copy_from_slice(&self.sectors.bytes[at..at + into.len()]);
        Ok(())
    }

    fn write(&mut self, first: usize, bytes: &[u8]) -> Result<(), DiskFault>
        ensures range { IsErrOf result DiskFault.Range
            ↔ ¬ (IsInRange (sectors_of self.old) first (length bytes.now)) }
        ensures out_of_range { IsErrOf result DiskFault.Range → self.new ≡ self.old }
        ensures written { OnOk result
            (IsOverwritten (content_of self.old) (SECTOR_BYTES * first) bytes.now
            (content_of self.new)) }
        ensures elsewhere { SameOutside (SECTOR_BYTES * first) (length bytes.now)
            (content_of self.old) (content_of self.new) }
        ensures crash { OneStepFrom (may_leave_of self.old) (may_leave_of self.new)
            (SameOutside (SECTOR_BYTES * first) (length bytes.now)) }
        ensures time { TimePasses moment_of left_since_of may_leave_of self.old self.new }
        ensures counted { IsCounted failures_of calls_of failed_call_of self.old self.new result }
        ensures setup { SameSetup sectors_of armed_of self.old self.new }

        // It fails exactly where a fault is armed. Its range is then in doubt, and the content is as it was.
        ensures fails { IsErrOf result DiskFault.Device
            ↔ (IsInRange (sectors_of self.old) first (length bytes.now)
            × IsSome (fault_met (faults_of self.old))) }
        ensures failed { IsErrOf result DiskFault.Device
            → content_of self.new ≡ content_of self.old }
        ensures faults { ¬ (IsErrOf result DiskFault.Range)
            → faults_of self.new ≡ after_call (faults_of self.old) }
        ensures doubt { ¬ (IsErrOf result DiskFault.Range)
            → doubt_of self.new
            ≡ marked first (length bytes.now / SECTOR_BYTES) (doubt_of self.old) }
    {
        if !is_in_range(self.sectors.doubt.flags.len(), first, bytes.len()) {
            return Err(DiskFault::Range);
        }
        self.past.note(&self.sectors);
        if self.schedule.count_call() {
            self.sectors.mark(first, bytes.len());
            return Err(DiskFault::Device);
        }
        self.sectors.write(first, bytes);
        Ok(())
    }

    fn sync(&mut self) -> Result<(), DiskFault>
        ensures range { ¬ (IsErrOf result DiskFault.Range) }
        ensures durable { OnOk result (Only (content_of self.old) (may_leave_of self.new)) }
        ensures quiet { IsQuiet content_of may_leave_of self.old self.new }
        ensures time { TimePasses moment_of left_since_of may_leave_of self.old self.new }
        ensures counted { IsCounted failures_of calls_of failed_call_of self.old self.new result }
        ensures setup { SameSetup sectors_of armed_of self.old self.new }

        // It fails exactly where a fault is armed, and then does nothing.
        ensures fails { IsErrOf result DiskFault.Device ↔ IsSome (fault_met (faults_of self.old)) }
        ensures faults { faults_of self.new ≡ after_call (faults_of self.old) }
        ensures doubt { OnOk result (NoneInDoubt (doubt_of self.new)) }
        ensures failed { OnErr result (doubt_of self.new ≡ doubt_of self.old) }
    {
        if self.schedule.count_call() {
            return Err(DiskFault::Device);
        }
        self.past.note(&self.sectors);
        self.sectors.doubt.clear();
        Ok(())
    }

    fn crash(&mut self, fill: Option<u8>)
        ensures left { may_leave_of self.old (content_of self.new) }

        // Each sector in doubt holds copies of the fill byte: the one given, or that of the last fault met, or 0.
        ensures filled { settles_to_of self.old fill (content_of self.new) }
        ensures durable { Only (content_of self.new) (may_leave_of self.new) }
        ensures time { TimePasses moment_of left_since_of may_leave_of self.old self.new }
        ensures counts { SameCounts failures_of calls_of failed_call_of self.old self.new }
        ensures setup { SameSetup sectors_of armed_of self.old self.new }

        ensures faults { faults_of self.new ≡ after_crash (faults_of self.old) }
        ensures doubt { NoneInDoubt (doubt_of self.new) }
    {
        self.past.note(&self.sectors);
        self.sectors.settle(fill.unwrap_or(self.schedule.fill));
        self.schedule.fill = 0;
    }

    fn arm(&mut self, fault: ArmedFault) -> Result<(), AllocError>
        ensures quiet { IsQuiet content_of may_leave_of self.old self.new }
        ensures time { TimePasses moment_of left_since_of may_leave_of self.old self.new }
        ensures counts { SameCounts failures_of calls_of failed_call_of self.old self.new }
        ensures size { sectors_of self.new ≡ sectors_of self.old }
        ensures armed { OnOk result (armed_of self.new ≡ armed_of self.old ++ fault ∷ []) }
        ensures not_armed { OnErr result (armed_of self.new ≡ armed_of self.old) }

        ensures faults { OnOk result
            (faults_of self.new ≡ after_arming fault (faults_of self.old)) }
        ensures same_faults { OnErr result (faults_of self.new ≡ faults_of self.old) }
        ensures doubt { doubt_of self.new ≡ doubt_of self.old }
    {
        self.schedule.arm(fault)
    }

    fn recount(&mut self)
        ensures quiet { IsQuiet content_of may_leave_of self.old self.new }
        ensures time { TimePasses moment_of left_since_of may_leave_of self.old self.new }
        ensures failures { failures_of self.new ≡ failures_of self.old }
        ensures counted { calls_of self.new ≡ 0 }
        ensures none_failed { failed_call_of self.new ≡ 0 }
        ensures setup { SameSetup sectors_of armed_of self.old self.new }

        // What is armed stays armed, for the counts that begin now.
        ensures faults { faults_of self.new ≡ after_recount (faults_of self.old) }
        ensures doubt { doubt_of self.new ≡ doubt_of self.old }
    {
        self.schedule.recount();
    }
}
