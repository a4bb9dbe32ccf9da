//! Jobs, and what they came to.

ghost use Rattle.std.specs.Prelude.{◌≡◌, ◌<◌, length, slice_get, Some, IfOk, MatchResult};
ghost use Rattle.kahn_net.specs.Common.{Code, network_of};
ghost use Rattle.proc_step.specs.Turns.{IsOwnTurn};

use crate::outcome::{Outcome, take_turn};
use kahn_net::{History, ProcState};
use net_check::Net;
use std::alloc::{AllocError, Global};
use std::sync::Arc;
use thiserror::Error;

/// The number of the one refusal.
const NO_MEMORY: u8 = 1;

/// What a process is to do: a share of its network and so of its code, its number there, the version of its node, the
/// state from which it goes on, the items at hand for each channel from which it gets, in order,
/// and the places of room on each channel on which it puts. Items and room are lists by channel
/// number; where one is too short, there is nothing at hand and no room.
#[derive(Debug)]
pub struct Job {
    pub net: Arc<Net>,
    pub process: usize,
    pub version: u64,
    pub state: ProcState,
    pub items: Vec<History>,
    pub room: Vec<usize>,
    pub ghost named: { process < length net.value.program.processes.items },
}

// Written out, since each crate above would go through a derived one again.
impl Drop for Job {
    fn drop(self) {
        let Self {
            net,
            process,
            version,
            state,
            items,
            room,
        } = self;
    }
}

/// A share of a job that was run, with what the process's own turn on it came to: the state after it, how many items it
/// took from each channel, and what it sent on each.
#[derive(Debug, Drop)]
pub struct Done {
    pub job: Arc<Job>,
    pub state: ProcState,
    pub taken: Vec<usize>,
    pub sent: Vec<History>,
    // It is a turn on all input histories on which the process stands so, and whose next items are those at hand.
    pub ghost turn: { ∥ IsOwnTurn job.value.net.value.program job.value.process job.value.state
        job.value.items.items job.value.room.items state taken.items sent.items ∥₁ },
}

/// Want of memory (1), with the share of the job.
#[derive(Debug, Drop, Error)]
#[error("no memory")]
pub struct JobFault {
    pub job: Arc<Job>,
}

impl JobFault {
    /// The refusal's number.
    pub fn number(&self) -> u8
        ensures { result ≡ 1 }
    {
        NO_MEMORY
    }
}

impl Job {
    /// The node of the process.
    pub fn node(&self) -> u8
        ensures { (code : Code) → slice_get
            (network_of self.now.net.value.program).codes self.now.process ≡ Some code
            → result ≡ code.node }
    {
        self.net.program.processes[self.process].node
    }

    // What the process's turn comes to.
    fn outcome(&self, alloc: Global) -> Result<Outcome, AllocError>
        ensures { IfOk result (λ after. ∥ IsOwnTurn self.now.net.value.program self.now.process
            self.now.state self.now.items.items self.now.room.items after.state after.taken.items
            after.sent.items ∥₁) }
    {
        let net: &Net = &self.net;
        let code = &net.codes[self.process];
        take_turn(alloc, code, &self.state, &self.items, &self.room)
    }

    /// Makes the process's turn: as many of its acts as the items at hand and the room allow, until it finishes, or its
    /// next act is held back for want of an item or of a place. The job is shared, so that whoever granted it need not copy
    /// it. Refuses for want of memory alone, and then hands the share back.
    pub fn run(job: Arc<Job>, alloc: Global) -> Result<Done, JobFault>
        ensures { MatchResult result (λ done. done.job ≡ job) (λ fault. fault.job ≡ job) }
    {
        match job.outcome(alloc) {
            Ok(after) => Ok(Done {
                job,
                state: after.state,
                taken: after.taken,
                sent: after.sent,
            }),
            Err(_) => Err(JobFault { job }),
        }
    }
}
