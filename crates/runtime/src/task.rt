// A job that is out, and what came of it.
ghost use Rattle.std.specs.Prelude.{◌≡◌, ◌⊎◌, true, IfOk};
ghost use Rattle.node_memory.specs.JobView.{shared_view};
ghost use Rattle.protocol.specs.World.Common.{event_node, node_in, Install, ReplyView};
ghost use Rattle.replay.specs.declared.kept.Maker.TheVariants as who;
ghost use Rattle.run_log.specs.Answers.{IsToldEvent};
ghost use Rattle.run_log.specs.SeatCounts.{seat_numbers};
ghost use Rattle.station.specs.DoneView.{done_view};
ghost use Rattle.std.proofs.Props.{props};
ghost use Rattle.std.specs.Sync.Mutex.{mutex_guard_value};

use crate::entered::Entered;
use crate::hub_run::HubRun;
use crate::over::Over;
use crate::refusal::Refusal;
use crate::seat::NodeSeat;
use crate::threads::NodeSeats;
use crate::turned::Grant;
use marks::MarksName;
use outlet::Outlet;
use proc_code::Instruction;
use proc_step::{Done, Job};
use run_log::HubFault;
use slot_cell::SlotCell;
use std::alloc::Global;
use std::sync::Arc;

/// A job that was granted, with the seats of its node, by which what comes of it is brought back. It can't be dropped: it is run
/// (`Task::run`), or left behind once the run is stopped (`Task::leave`).
pub(crate) struct Task<ThisRun: HubRun, ItsMarks: MarksName> {
    seats: NodeSeats<ThisRun, ItsMarks>,
    // How many jobs of the node were granted before.
    nth: u64,
    job: Arc<Job>,
    // The job is of a process of this node.
    pub ghost home: { node_in (shared_view job).code ≡ seats.seat.node },
}

/// A job that was run, or for which there was no memory. It can't be dropped either: it is brought back (`Ran::bring_back`).
pub(crate) struct Ran<ThisRun: HubRun, ItsMarks: MarksName> {
    seats: NodeSeats<ThisRun, ItsMarks>,
    nth: u64,
    done: Result<Done, Refusal>,
    pub ghost home: { IfOk done (λ come. event_node (Install (done_view come)) ≡ seats.seat.node) } by { Prim.hlevel props },
}

/// The most instructions of a job for which no other thread is woken: some 50 microseconds, ten times what it takes to wake one.
const SHORT: usize = 10_000;

// How often an instruction is carried out at most in one pass through its process's loop.
fn most_passes(code: &[Instruction]) -> usize {
    let mut passes: usize = 1;
    for instruction in code {
        if let Instruction::Repeat { times, .. } = instruction {
            passes = passes.saturating_mul(usize::from(*times).max(1));
        }
    }
    passes
}

// How many instructions a job takes at most: a pass for each item at hand, and two (`Machine::play` of `proc_step`).
fn most_instructions(job: &Job) -> usize {
    let Some(code) = job.net.codes.get(job.process) else {
        return usize::MAX;
    };
    let mut passes: usize = 2;
    for items in &job.items {
        passes = passes.saturating_add(items.len());
    }
    passes
        .saturating_mul(code.instructions.len())
        .saturating_mul(most_passes(&code.instructions))
}

impl<ThisRun: HubRun, ItsMarks: MarksName> Task<ThisRun, ItsMarks> {
    /// A job that was granted to the node of these seats, behind so many.
    pub fn new(
        seats: NodeSeats<ThisRun, ItsMarks>,
        nth: u64,
        grant: Grant,
    ) -> Task<ThisRun, ItsMarks>
        requires home { node_in (shared_view grant.job).code ≡ seats.seat.node }
    {
        Task {
            seats,
            nth,
            job: grant.into_job(),
        }
    }

    /// The job's node.
    pub fn node(&self) -> u8 {
        self.seats.seat.node()
    }

    /// How many jobs of the node were granted before.
    pub fn nth(&self) -> u64 {
        self.nth
    }

    /// Whether the job is run by whichever thread is on duty, whose other turns wait meanwhile. How long it takes at most is known
    /// before it is run, so nobody has to watch how long it takes. A node's first job is its own thread's in any case.
    pub fn is_short(&self) -> bool {
        self.nth > 0 && most_instructions(&self.job) <= SHORT
    }

    /// Runs the job.
    pub fn run(self, alloc: Global) -> Ran<ThisRun, ItsMarks> {
        let Task { seats, nth, job } = self;
        let done = match Job::run(job, alloc) {
            Ok(done) => Ok(done),
            Err(_) => Err(Refusal::new(HubFault::NoMemory)),
        };
        Ran { seats, nth, done }
    }

    /// The node's seat at the hub. The job is left behind, which it may be once the run is stopped.
    pub fn leave(self, _over: &Over<ThisRun>) -> NodeSeat<ThisRun> {
        let Task {
            seats,
            nth: _,
            job: _,
        } = self;
        seats.into_seat()
    }
}

impl<ThisRun: HubRun, ItsMarks: MarksName> Ran<ThisRun, ItsMarks> {
    /// The job's node.
    pub fn node(&self) -> u8
        ensures { result ≡ self.now.seats.seat.node }
    {
        self.seats.seat.node()
    }

    /// How many jobs of the node were granted before.
    pub fn nth(&self) -> u64 {
        self.nth
    }

    /// What came of the job is taken in. Where that is refused, or there was no memory to run it, the run is stopped.
    pub fn bring_back<C: SlotCell, O: Outlet>(
        self,
        alloc: Global,
        entered: &mut Entered<'_, C, O, ThisRun>,
    ) -> NodeSeats<ThisRun, ItsMarks>
        ensures node { result.seat.node ≡ self.seats.seat.node }
        ensures brought { ∥ ((reply : ReplyView) × IsToldEvent ThisRun.rooms ThisRun.script ThisRun.opening
            (who.Node self.seats.seat.node) reply (seat_numbers self.seats.seat.count) (seat_numbers result.seat.count))
            ⊎ ((mutex_guard_value entered.new.locked).log.stopped ≡ true) ∥₁ }
    {
        let Ran {
            seats,
            nth: _,
            done,
        } = self;
        let NodeSeats { mut seat, marks } = seats;
        match done {
            Ok(done) => {
                if let Err(held) = entered.install(alloc, &mut seat, done) {
                    entered.refuse(Refusal::new(held.fault));
                }
            }
            Err(refusal) => entered.refuse(refusal),
        }
        NodeSeats { seat, marks }
    }
}
