//! The counts of a disk's calls and failures, and the failures that are to come.
ghost use Rattle.std.specs.Prelude.{◌≡◌, ◌<◌, ◌≤◌, ◌↔◌, false, IsTrue, IsSome, OnOk, OnErr, find, ◌==◌};
ghost use Rattle.sector_disk.specs.declared.TheConstants.{GREATEST_COUNT};
ghost use Rattle.sector_disk.specs.Schedule.{fault_at, IsNoneBefore};

use crate::GREATEST_COUNT;
use crate::disk::ArmedFault;
use std::alloc::{AllocError, Global};

/// Faults armed for device calls, by the count of calls since the last recount.
#[derive(Drop)]
pub struct FaultSchedule {
    /// In the order of arming.
    pub armed: Vec<ArmedFault>,
    /// Device calls since the last recount.
    pub calls: u64,
    /// All calls that failed.
    pub failures: u64,
    /// The last call that met a fault since the last recount, or 0.
    pub failed_call: u64,
    /// The byte by which a crash fills, unless it is given one: that of the last fault met since the last crash, or 0.
    pub fill: u8,
    // No fault is armed for a call that comes before this one. So a call looks at what is armed only where that may be for it.
    next: u64,
    pub ghost none_before: { IsNoneBefore next calls armed.items },
    ghost calls_countable: { calls ≤ GREATEST_COUNT },
    ghost failures_countable: { failures ≤ GREATEST_COUNT },
}

// The first fault that is armed for the call with this count.
fn armed_for(armed: &[ArmedFault], call: u64) -> Option<ArmedFault>
    ensures { result ≡ find (λ fault. fault.call == call) armed.now }
{
    for fault in armed {
        if fault.call == call {
            return Some(*fault);
        }
    }
    None
}

// The first call behind so many for which a fault is armed; where there is none, one that never comes.
fn next_armed(armed: &[ArmedFault], calls: u64) -> u64
    ensures { IsNoneBefore result calls armed.now }
{
    let mut next = u64::MAX;
    for fault in armed {
        if fault.call > calls {
            next = next.min(fault.call);
        }
    }
    next
}

// The fault that the call with this count meets, where so many calls have failed.
fn fault_due(armed: &[ArmedFault], call: u64, failures: u64) -> Option<ArmedFault>
    ensures { result ≡ fault_at armed.now call failures }
{
    if failures < GREATEST_COUNT {
        armed_for(armed, call)
    } else {
        None
    }
}

impl FaultSchedule {
    ghost use Rattle.sector_disk.specs.FaultSchedule.{state_of};
    ghost use Rattle.sector_disk.specs.Schedule.{no_faults, fault_met, after_call, after_failing, after_recount, after_arming};

    /// Nothing is armed or counted.
    pub fn new(alloc: Global) -> FaultSchedule
        ensures { state_of result ≡ no_faults }
    {
        FaultSchedule {
            armed: Vec::new(alloc),
            calls: 0,
            failures: 0,
            failed_call: 0,
            fill: 0,
            next: u64::MAX,
        }
    }

    /// Arms a fault behind the others.
    pub fn arm(&mut self, fault: ArmedFault) -> Result<(), AllocError>
        ensures ok { OnOk result (state_of self.new ≡ after_arming fault (state_of self.old)) }
        ensures err { OnErr result (state_of self.new ≡ state_of self.old) }
    {
        self.armed.push(fault)?;
        self.next = self.next.min(fault.call);
        Ok(())
    }

    /// Counts a device call, and says whether it fails.
    pub fn count_call(&mut self) -> bool
        ensures fails { IsTrue result ↔ IsSome (fault_met (state_of self.old)) }
        ensures counted { state_of self.new ≡ after_call (state_of self.old) }
    {
        if self.calls < GREATEST_COUNT {
            self.calls += 1;
            if self.calls < self.next {
                return false;
            }
            self.next = next_armed(&self.armed, self.calls);
        }
        match fault_due(&self.armed, self.calls, self.failures) {
            Some(fault) => {
                self.failures += 1;
                self.failed_call = self.calls;
                self.fill = fault.fill;
                true
            }
            None => false,
        }
    }

    /// The call that was counted last has failed, for a cause that wasn't armed. Says whether that could be counted: not
    /// where so many have failed that counts stop.
    pub fn fail(&mut self) -> bool
        ensures counted { IsTrue result
            → state_of self.new ≡ after_failing (state_of self.old) }
        ensures counted_out { IsTrue result ↔ self.old.failures < GREATEST_COUNT }
        ensures same { result ≡ false → self.new ≡ self.old }
    {
        if self.failures >= GREATEST_COUNT {
            return false;
        }
        self.failures += 1;
        self.failed_call = self.calls;
        true
    }

    /// Begins the count of calls anew.
    pub fn recount(&mut self)
        ensures { state_of self.new ≡ after_recount (state_of self.old) }
    {
        self.next = next_armed(&self.armed, 0);
        self.calls = 0;
        self.failed_call = 0;
    }
}
