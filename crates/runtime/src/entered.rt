// A hub's lock, held for calls in a row.
ghost use Rattle.std.specs.Prelude.{◌≡◌, false, true, is_some, length, IfErr, IfOk, OnErr};
ghost use Rattle.std.specs.Sync.Mutex.{mutex_guard_value};
ghost use Rattle.journal.specs.Histories.{Begins, seen};
ghost use Rattle.protocol.specs.World.Common.{event_node, Install, released_of};
ghost use Rattle.replay.specs.Armed.{OfWorld};
ghost use Rattle.replay.specs.declared.kept.Maker.TheVariants as who;
ghost use Rattle.run_log.specs.Answers.{IsToldEvent, IsToldFault, IsToldTurn};
ghost use Rattle.run_log.specs.SeatCounts.{seat_numbers};
ghost use Rattle.station.specs.DoneView.{done_view};
ghost use Rattle.station.specs.ReplyView.{reply_view};
ghost use Rattle.station.specs.declared.event.Event.TheVariants as event;
ghost use Rattle.runtime.specs.Marked.{HasLeftAsMuch, IsGrantAt, leaves_by, may_leave_by};
ghost use Rattle.runtime.specs.Shown.{IsShownEvent, IsShownFault, IsShownTurn};
ghost use Rattle.world.specs.WholeView.{world_of};

use crate::bounds::RunBounds;
use crate::hub_run::HubRun;
use crate::locked::Locked;
use crate::over::Over;
use crate::refusal::Refusal;
use crate::seat::{DriverSeat, NodeSeat};
use crate::seen::Seen;
use crate::sleepers::Sleepers;
use crate::turned::Turned;
use kahn_net::MAX_COUNT;
use outlet::Outlet;
use proc_step::Done;
use run_log::{FaultAnswer, HeldBack, HubFault, TurnAnswer};
use slot_cell::SlotCell;
use std::alloc::{AllocError, Global};
use std::sync::MutexGuard;
use world::{Event, Freed, Reply};

/// The lock of a hub: who has it calls for a seat as often as it wants, and gives it back by `leave`, which wakes whoever has
/// something to do by then. Where it is only let go of, nobody is woken.
#[derive(Drop)]
pub struct Entered<'hub, C: SlotCell, O: Outlet, ThisRun: HubRun> {
    pub(crate) locked: MutexGuard<'hub, Locked<C, O, ThisRun>>,
    pub(crate) sleepers: &'hub Sleepers,
    pub(crate) found: Seen,
}

impl<'hub, C: SlotCell, O: Outlet, ThisRun: HubRun> Entered<'hub, C, O, ThisRun> {
    pub(crate) fn new(
        locked: MutexGuard<'hub, Locked<C, O, ThisRun>>,
        sleepers: &'hub Sleepers,
    ) -> Entered<'hub, C, O, ThisRun> {
        let found = locked.seen();
        Entered {
            locked,
            sleepers,
            found,
        }
    }

    /// The event that is next for the seat's node, `Late`, `Widened`, `Nothing` or `Stopped`.
    pub fn turn(
        &mut self,
        alloc: Global,
        seat: &mut NodeSeat<ThisRun>,
    ) -> Result<TurnAnswer, HubFault>
        ensures node { seat.new.node ≡ seat.old.node }
        // It is counted at the seat. A job that is granted is of a process of the seat's node. The reply is that of an event of this
        // node, and a silence its own, in a world to which a history of this run leads.
        ensures told { IfOk result (λ answer. IsToldTurn ThisRun.rooms ThisRun.script ThisRun.opening seat.old.node answer
            (seat_numbers seat.old.count) (seat_numbers seat.new.count)) }
        // And where a history is kept, the seat is shown that of this very run: what it was shown before, and behind it this answer.
        ensures shown { ThisRun.keeps ≡ true → IfOk result
            (λ answer. IsShownTurn seat.old.node answer (seen seat.old.reader) (seen seat.new.reader)) }
        // Also where the call is refused, what the seat was shown before stays shown.
        ensures begins { ThisRun.keeps ≡ true → Begins (seen seat.old.reader) (seen seat.new.reader) }
        ensures refused { OnErr result
            (seat_numbers seat.new.count ≡ seat_numbers seat.old.count) }
        // Where the answer doesn't say that an item may have left, none has.
        ensures left { may_leave_by result ≡ false → HasLeftAsMuch (world_of (mutex_guard_value self.new.locked).log.armed.world)
            (world_of (mutex_guard_value self.old.locked).log.armed.world) }
    {
        let NodeSeat {
            node,
            made,
            count,
            reader,
        } = seat;
        if *made >= MAX_COUNT {
            return Err(HubFault::PastNumber);
        }
        let answer = self.locked.turn(alloc, *node, count, reader)?;
        match &answer {
            TurnAnswer::Reply(reply) => {
                *made += 1;
                if let Reply::Released(_) = reply {
                    self.locked.left = self.locked.left.saturating_add(1);
                }
            }
            TurnAnswer::Widened(_) => *made += 1,
            TurnAnswer::Nothing | TurnAnswer::Late | TurnAnswer::Stopped => {}
        }
        Ok(answer)
    }

    /// The same for a worker, who tells the hub of a refusal.
    pub(crate) fn take_turn(
        &mut self,
        alloc: Global,
        seat: &mut NodeSeat<ThisRun>,
    ) -> Result<Turned, Refusal>
        ensures node { seat.new.node ≡ seat.old.node }
        // A job that was granted is of a process of the node.
        ensures home { IfOk result (IsGrantAt seat.old.node) }
        ensures left { leaves_by result ≡ false → HasLeftAsMuch (world_of (mutex_guard_value self.new.locked).log.armed.world)
            (world_of (mutex_guard_value self.old.locked).log.armed.world) }
    {
        match self.turn(alloc, seat) {
            Ok(answer) => Ok(Turned::of(answer)),
            Err(fault) => Err(Refusal::new(fault)),
        }
    }

    /// What came of a job of the seat's node comes back. A refusal hands it back.
    pub fn install(
        &mut self,
        alloc: Global,
        seat: &mut NodeSeat<ThisRun>,
        done: Done,
    ) -> Result<Reply, HeldBack>
        requires home { event_node (Install (done_view done)) ≡ seat.old.node }
        ensures node { seat.new.node ≡ seat.old.node }
        ensures told { IfOk result (λ reply. IsToldEvent ThisRun.rooms ThisRun.script ThisRun.opening
            (who.Node seat.old.node) (reply_view reply) (seat_numbers seat.old.count) (seat_numbers seat.new.count)) }
        ensures shown { ThisRun.keeps ≡ true → IfOk result (λ reply. IsShownEvent (who.Node seat.old.node)
            (OfWorld (Install (done_view done))) (reply_view reply) (seen seat.old.reader) (seen seat.new.reader)) }
        ensures begins { ThisRun.keeps ≡ true → Begins (seen seat.old.reader) (seen seat.new.reader) }
        ensures refused { OnErr result
            (seat_numbers seat.new.count ≡ seat_numbers seat.old.count) }
        ensures handed_back { IfErr result (λ held. held.event ≡ event.Install done) }
    {
        let NodeSeat {
            node,
            made,
            count,
            reader,
        } = seat;
        if *made >= MAX_COUNT {
            return Err(HeldBack {
                event: Event::Install(done),
                fault: HubFault::PastNumber,
            });
        }
        let reply = self.locked.install(alloc, *node, done, count, reader)?;
        *made += 1;
        Ok(reply)
    }

    /// The event of the script's next line, `NotYet`, `NoMore` or `Stopped`.
    pub fn fault(
        &mut self,
        alloc: Global,
        seat: &mut DriverSeat<ThisRun>,
    ) -> Result<FaultAnswer, HubFault>
        // It is counted at the seat. The reply is that of the script's next line, and a silence the driver's, in a world to which a
        // history of this run leads.
        ensures told { IfOk result (λ answer. IsToldFault ThisRun.rooms ThisRun.script ThisRun.opening answer
            (seat_numbers seat.old.count) (seat_numbers seat.new.count)) }
        ensures shown { ThisRun.keeps ≡ true
            → IfOk result (λ answer. IsShownFault answer (seen seat.old.reader) (seen seat.new.reader)) }
        ensures begins { ThisRun.keeps ≡ true → Begins (seen seat.old.reader) (seen seat.new.reader) }
        ensures refused { OnErr result
            (seat_numbers seat.new.count ≡ seat_numbers seat.old.count) }
    {
        self.locked.fault(alloc, seat)
    }

    /// The run is stopped, since a call was refused.
    pub(crate) fn refuse(&mut self, refusal: Refusal)
        ensures { (mutex_guard_value self.new.locked).log.stopped ≡ true }
    {
        let _fault = refusal.tell(&mut *self.locked);
    }

    /// That the run is stopped, if it is.
    pub fn over(&self) -> Option<Over<ThisRun>>
        ensures { is_some result ≡ (mutex_guard_value self.now.locked).log.stopped }
    {
        Over::seen(&self.locked)
    }

    /// The run is stopped where it is over: nothing is left to do, the rounds are over, or each output has the items that are asked for.
    pub fn end_if_over(&mut self, run: &RunBounds<'_, ThisRun>) {
        self.locked.end_if_over(run);
    }

    /// How far an output has come. Its type keeps that the channel's history has so many items in some approximation.
    pub fn freed(&self, channel: u8) -> Result<Freed, AllocError>
        ensures { IfOk result (λ freed. (freed.output ≡ channel) × (freed.number
            ≡ length (released_of channel (world_of (mutex_guard_value self.now.locked).log.armed.world).stations))) }
    {
        self.locked.log.freed(channel)
    }

    /// How the hub stands.
    pub fn seen(&self) -> Seen {
        self.locked.seen()
    }

    /// The round.
    pub fn round(&self) -> u64 {
        self.locked.log.moment().round
    }

    /// The round of the script's next line.
    pub fn line_round(&self) -> Option<u64> {
        self.locked.log.line_round()
    }

    /// Whether no turn and no line of the script makes an event any more.
    pub fn is_stopped(&self) -> bool {
        self.locked.log.is_stopped()
    }

    /// Whether a further round began, a line was passed or channels got more room since the lock was taken: then others have
    /// something to do.
    pub fn has_moved_on(&self) -> bool {
        self.locked.log.moment() != self.found.moment
    }

    /// Gives the lock back, wakes whoever has something to do by now, and says how the hub stands.
    pub fn leave(self) -> Seen {
        let Entered {
            mut locked,
            sleepers,
            found,
        } = self;
        let seen = locked.seen();
        let woken = locked.woken(found);
        drop(locked);
        sleepers.wake(woken);
        seen
    }
}
