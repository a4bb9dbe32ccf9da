// What is under a hub's lock.
ghost use Rattle.std.specs.Prelude.{◌≡◌, ◌<◌, ◌≤◌, false, true, Some, IfErr, IfOk, OnErr, OnOk};
ghost use Rattle.journal.specs.Histories.{Begins, journal_id, journal_of, seen, written};
ghost use Rattle.protocol.specs.World.Common.{are_quiet, event_node, Install};
ghost use Rattle.replay.specs.Armed.{OfWorld};
ghost use Rattle.replay.specs.declared.kept.Maker.TheVariants as who;
ghost use Rattle.run_log.specs.Answers.{IsToldEvent, IsToldFault, IsToldTurn};
ghost use Rattle.run_log.specs.RunLogs.{happened_in};
ghost use Rattle.run_log.specs.SeatCounts.{seat_numbers, seat_parts};
ghost use Rattle.runtime.specs.Beginning.{first_lines, BeginsByDriver};
ghost use Rattle.runtime.specs.Causes.{is_cause, is_caused, last_round};
ghost use Rattle.runtime.specs.Ending.{is_over};
ghost use Rattle.runtime.specs.Marked.{HasLeftAsMuch, may_leave_by};
ghost use Rattle.runtime.specs.Shown.{IsShownEvent, IsShownFault, IsShownTurn};
ghost use Rattle.station.specs.DoneView.{done_view};
ghost use Rattle.station.specs.ReplyView.{reply_view};
ghost use Rattle.station.specs.declared.event.Event.TheVariants as event;
ghost use Rattle.world.specs.WholeView.{world_of};

use crate::bounds::RunBounds;
use crate::cause::Cause;
use crate::ending::end_by;
use crate::hub_run::HubRun;
use crate::quiet::Quiet;
use crate::seat::{DriverSeat, fault};
use crate::seen::Seen;
use crate::sleepers::Woken;
use crate::until::Until;
use crate::workers::Workers;
use journal::{Journal, Reader};
use outlet::Outlet;
use proc_step::Done;
use run_log::{FaultAnswer, HeldBack, HubFault, RunLog, SeatCount, TurnAnswer};
use slot_cell::SlotCell;
use std::alloc::Global;
use wire::NODES;
use world::Reply;

/// What is under a hub's lock.
#[derive(Drop)]
pub(crate) struct Locked<C: SlotCell, O: Outlet, ThisRun: HubRun> {
    pub log: RunLog<C, O, ThisRun>,
    // What is written of the history, for those to whom it is shown.
    pub journal: Journal,
    pub left: u64,
    // Who takes the turns of the nodes whose seats are at their desks.
    pub workers: Workers,
    // What the driver waited for last.
    pub until: Until,
    // How the hub stands as far as who watches the run was told, if anybody was.
    pub told: Option<Seen>,
    // Why the run is stopped, once it is.
    pub cause: Option<Cause>,
    // The rounds after which it is over.
    pub rounds: u64,
    pub ghost begins: { ThisRun.begun ≡ true → ThisRun.keeps ≡ true
        → BeginsByDriver (first_lines ThisRun.script) (happened_in log) },
    pub ghost caused: { log.stopped ≡ true → is_caused (is_over ThisRun.channels ThisRun.bounds) ThisRun.may_stop
        (world_of log.armed.world) cause ≡ true },
    pub ghost same_rounds: { rounds ≡ ThisRun.bounds.rounds },
    pub ghost same_journal: { journal_id journal ≡ ThisRun.journal },
    pub ghost written: { ThisRun.keeps ≡ true → ∥ written journal ≡ log.lines.items ∥₁ },
    pub ghost in_rounds: { (world_of log.armed.world).round
        ≤ last_round ThisRun.opening ThisRun.script ThisRun.bounds },
}

/// The history is written in its journal, where it is kept.
pub(crate) fn write<C: SlotCell, O: Outlet, ThisRun: HubRun>(
    log: &RunLog<C, O, ThisRun>,
    journal: &mut Journal,
)
    requires grows { ThisRun.keeps ≡ true → Begins (written journal.old) log.now.lines.items }
    ensures same { journal_id journal.new ≡ journal_id journal.old }
    ensures written { ThisRun.keeps ≡ true → written journal.new ≡ log.now.lines.items }
{
    if let Some(lines) = log.kept() {
        journal.write(lines);
    }
}

// The same, and it is shown to a reader.
fn show<C: SlotCell, O: Outlet, ThisRun: HubRun>(
    log: &RunLog<C, O, ThisRun>,
    journal: &mut Journal,
    reader: &mut Reader,
)
    requires here { journal_id journal.old ≡ ThisRun.journal }
    requires reads_here { journal_of reader.old ≡ ThisRun.journal }
    requires grows { ThisRun.keeps ≡ true → Begins (written journal.old) log.now.lines.items }
    ensures same { journal_id journal.new ≡ journal_id journal.old }
    ensures written { ThisRun.keeps ≡ true → written journal.new ≡ log.now.lines.items }
    ensures reads_here { journal_of reader.new ≡ ThisRun.journal }
    ensures shown { ThisRun.keeps ≡ true → seen reader.new ≡ log.now.lines.items }
    ensures began { ThisRun.keeps ≡ true → Begins (seen reader.old) (written journal.old) }
    ensures begins { ThisRun.keeps ≡ true → Begins (seen reader.old) (seen reader.new) }
{
    if let Some(lines) = log.kept() {
        journal.show(lines, reader);
    }
}

impl<C: SlotCell, O: Outlet, ThisRun: HubRun> Locked<C, O, ThisRun> {
    /// The run is stopped for this cause, unless it is stopped already.
    pub fn end(&mut self, cause: Cause)
        requires cause { is_cause (is_over ThisRun.channels ThisRun.bounds) ThisRun.may_stop
            (world_of self.old.log.armed.world) cause ≡ true }
        ensures stopped { self.new.log.stopped ≡ true }
        ensures same { self.new.log.armed ≡ self.old.log.armed }
        ensures noted { self.old.log.stopped ≡ false → self.new.cause ≡ Some cause }
        // The first one stays.
        ensures first { self.old.log.stopped ≡ true → self.new.cause ≡ self.old.cause }
    {
        if !self.log.is_stopped() {
            self.log.stop();
            self.cause = Some(cause);
        }
    }

    // The run is stopped where its rounds are over.
    fn end_by_rounds(&mut self)
        ensures over { self.new.log.stopped ≡ false
            → (world_of self.new.log.armed.world).round < ThisRun.bounds.rounds }
        ensures same { self.new.log.armed ≡ self.old.log.armed }
    {
        if self.rounds <= self.log.world().round() {
            self.end(Cause::Over);
        }
    }

    // The run is stopped where nothing is left to do. Whether that is so.
    pub fn end_if_complete(&mut self) -> bool
        ensures quiet { result ≡ are_quiet (world_of self.old.log.armed.world) }
        ensures stops { result ≡ true → self.new.log.stopped ≡ true }
    {
        let complete = self.log.is_complete();
        if complete {
            self.end(Cause::Over);
        }
        complete
    }

    /// The run is stopped where it is over.
    pub fn end_if_over(&mut self, run: &RunBounds<'_, ThisRun>)
        ensures { is_over ThisRun.channels ThisRun.bounds (world_of self.old.log.armed.world) ≡ true
            → self.new.log.stopped ≡ true }
    {
        let complete = self.log.is_complete();
        let end = end_by(run.channels, self.log.world(), run.bounds, complete);
        if !end.goes_on() {
            self.end(Cause::Over);
        }
    }

    /// The event that is next for a node, `Late`, `Widened`, `Nothing` or `Stopped`.
    pub fn turn(
        &mut self,
        alloc: Global,
        node: u8,
        count: &mut SeatCount<ThisRun>,
        reader: &mut Reader,
    ) -> Result<TurnAnswer, HubFault>
        requires part { 0 < seat_parts count.old }
        requires here { journal_of reader.old ≡ ThisRun.journal }
        ensures parts { seat_parts count.new ≡ seat_parts count.old }
        ensures here { journal_of reader.new ≡ ThisRun.journal }
        ensures shown { ThisRun.keeps ≡ true
            → IfOk result (λ answer. IsShownTurn node answer (seen reader.old) (seen reader.new)) }
        // Also where it is refused, what was shown before stays shown.
        ensures begins { ThisRun.keeps ≡ true → Begins (seen reader.old) (seen reader.new) }
        ensures told { IfOk result (λ answer. IsToldTurn ThisRun.rooms ThisRun.script ThisRun.opening node answer
            (seat_numbers count.old) (seat_numbers count.new)) }
        ensures refused { OnErr result (seat_numbers count.new ≡ seat_numbers count.old) }
        // Where the answer doesn't say that an item may have left, none has.
        ensures left { may_leave_by result ≡ false → HasLeftAsMuch (world_of self.new.log.armed.world)
            (world_of self.old.log.armed.world) }
    {
        self.end_by_rounds();
        let answer = self.log.turn(alloc, node, count);
        show(&self.log, &mut self.journal, reader);
        answer
    }

    /// What came of a job of this node comes back. A refusal hands it back.
    pub fn install(
        &mut self,
        alloc: Global,
        node: u8,
        done: Done,
        count: &mut SeatCount<ThisRun>,
        reader: &mut Reader,
    ) -> Result<Reply, HeldBack>
        requires part { 0 < seat_parts count.old }
        requires home { event_node (Install (done_view done)) ≡ node }
        requires here { journal_of reader.old ≡ ThisRun.journal }
        ensures parts { seat_parts count.new ≡ seat_parts count.old }
        ensures here { journal_of reader.new ≡ ThisRun.journal }
        ensures shown { ThisRun.keeps ≡ true → IfOk result (λ reply. IsShownEvent (who.Node node)
            (OfWorld (Install (done_view done))) (reply_view reply) (seen reader.old) (seen reader.new)) }
        ensures begins { ThisRun.keeps ≡ true → Begins (seen reader.old) (seen reader.new) }
        ensures told { IfOk result (λ reply. IsToldEvent ThisRun.rooms ThisRun.script ThisRun.opening (who.Node node)
            (reply_view reply) (seat_numbers count.old) (seat_numbers count.new)) }
        ensures refused { OnErr result (seat_numbers count.new ≡ seat_numbers count.old) }
        ensures handed_back { IfErr result (λ held. held.event ≡ event.Install done) }
    {
        let reply = self.log.install(alloc, node, done, count);
        show(&self.log, &mut self.journal, reader);
        reply
    }

    /// The event of the script's next line, `NotYet`, `NoMore` or `Stopped`.
    pub fn fault(
        &mut self,
        alloc: Global,
        seat: &mut DriverSeat<ThisRun>,
    ) -> Result<FaultAnswer, HubFault>
        ensures told { IfOk result (λ answer. IsToldFault ThisRun.rooms ThisRun.script ThisRun.opening answer
            (seat_numbers seat.old.count) (seat_numbers seat.new.count)) }
        ensures shown { ThisRun.keeps ≡ true
            → IfOk result (λ answer. IsShownFault answer (seen seat.old.reader) (seen seat.new.reader)) }
        ensures begins { ThisRun.keeps ≡ true → Begins (seen seat.old.reader) (seen seat.new.reader) }
        ensures refused { OnErr result
            (seat_numbers seat.new.count ≡ seat_numbers seat.old.count) }
    {
        self.end_by_rounds();
        let DriverSeat {
            made,
            count,
            reader,
        } = seat;
        let answer = fault(alloc, &mut self.log, made, count);
        show(&self.log, &mut self.journal, reader);
        answer
    }

    pub fn seen(&self) -> Seen {
        Seen {
            moment: self.log.moment(),
            left: self.left,
        }
    }

    // Whether there may be something to do for a node whose seats are at its desk.
    fn is_due(&self, node: u8) -> bool {
        match self.workers.quiet(node) {
            Some(quiet) => self.log.moment() != quiet.moment
                || !quiet.deaf && self.log.has_packet(node),
            None => true,
        }
    }

    /// The first node for which there may be something to do, of those whose seats are at their desks. So what a node sends is heard by
    /// those before it at once. (A round is over once each node has let its turn pass, so no node waits longer.) Where the driver has
    /// something to do it goes first, so there is none then, nor where a line of the script is late.
    pub fn next_due(&self) -> Option<u8> {
        if self.log.is_line_late() || self.wakes_driver() {
            return None;
        }
        for node in 0..NODES as u8 {
            if self.workers.is_present(node) && self.is_due(node) {
                return Some(node);
            }
        }
        None
    }

    /// There was nothing to do for a node.
    pub fn rests(&mut self, node: u8) {
        let quiet = Quiet {
            moment: self.log.moment(),
            deaf: self.log.has_packet(node),
        };
        self.workers.rests(node, Some(quiet));
    }

    /// Whether a node's thread has something to do: the run is stopped, a job waits for it, or it is on duty. Where nobody is on duty
    /// and there may be something to do for some node, it is from now on.
    pub fn wakes_worker(&mut self, node: u8) -> bool {
        if self.log.is_stopped() || self.workers.has_job(node) {
            return true;
        }
        if self.workers.is_vacant() && self.next_due().is_some() {
            self.workers.takes_duty(node);
        }
        self.workers.is_on_duty(node)
    }

    /// Whether what the driver waits for has come, or the run is stopped.
    pub fn wakes_driver(&self) -> bool {
        let has_left = match self.until.left {
            Some(left) => self.left >= left,
            None => false,
        };
        self.log.is_stopped() || has_left || self.log.moment().round >= self.until.round
    }

    /// Whether the hub stands otherwise than somebody was told, or the run is stopped.
    pub fn has_news(&self, told: Seen) -> bool {
        self.log.is_stopped() || self.seen() != told
    }

    // Whether there is news for who watches the run: that it is stopped, or what was to be told to them, if anybody asked.
    fn wakes_watch(&self) -> bool {
        match self.told {
            Some(told) => self.has_news(told),
            None => self.log.is_stopped(),
        }
    }

    /// The threads of nodes that are woken: those for which jobs wait, and where nobody is on duty, that of a node for which there may
    /// be something to do, which is on duty from now on. (It sleeps: a thread that is neither on duty nor asleep has the seats of its node.)
    pub fn woken_workers(&mut self) -> [bool; NODES] {
        if self.workers.is_vacant() {
            if let Some(node) = self.next_due() {
                self.workers.appoints(node);
            }
        }
        self.workers.take_woken()
    }

    /// Whom it wakes that the hub stood so before, and stands as it does now. Where a round is over, the run may be too.
    pub fn woken(&mut self, before: Seen) -> Woken {
        if self.log.moment() != before.moment {
            let _complete = self.end_if_complete();
        }
        if self.log.is_stopped() {
            return Woken::all();
        }
        Woken {
            nodes: self.woken_workers(),
            driver: self.wakes_driver(),
            watch: self.wakes_watch(),
        }
    }
}
