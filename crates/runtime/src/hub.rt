// A world that threads share.
ghost use Rattle.std.specs.Prelude.{◌≡◌, ◌+◌, ◌<◌, ◌≤◌, true, [], replicate, vec_len, IfErr, IfOk, OnErr, false};
ghost use Rattle.std.specs.Vec.{vec_capacity};
ghost use Rattle.journal.specs.Histories.{Begins, journal_id, seen, written};
ghost use Rattle.protocol.specs.World.Common.{event_node, Install, WorldView};
ghost use Rattle.replay.specs.Armed.{OfWorld, armed_at_first};
ghost use Rattle.replay.specs.Replay.{LeadsTo};
ghost use Rattle.replay.specs.declared.kept.Maker.TheVariants as who;
ghost use Rattle.run_log.specs.Answers.{IsToldEvent, IsToldFault, IsToldTurn};
ghost use Rattle.run_log.specs.ArmedWorlds.{armed_view};
ghost use Rattle.run_log.specs.LedgerNames.{HaveParts, names_of};
ghost use Rattle.run_log.specs.Counts.{numbers_in};
ghost use Rattle.run_log.specs.Happened.{HasRun};
ghost use Rattle.run_log.specs.Lines.{happenings};
ghost use Rattle.run_log.specs.RunLogs.{happened_in};
ghost use Rattle.runtime.specs.Beginning.{first_lines, BeginsByDriver};
ghost use Rattle.run_log.specs.Numbers.{added};
ghost use Rattle.runtime.specs.Causes.{is_cause, is_caused, last_round};
ghost use Rattle.runtime.specs.Ending.{HasBeenComplete, is_over};
ghost use Rattle.runtime.specs.Seats.{AreOfNodes, AreShown, numbers_of_seats};
ghost use Rattle.runtime.specs.Shown.{IsShownEvent, IsShownFault, IsShownTurn};
ghost use Rattle.run_log.specs.SeatCounts.{seat_numbers};
ghost use Rattle.station.specs.DoneView.{done_view};
ghost use Rattle.station.specs.ReplyView.{reply_view};
ghost use Rattle.world.specs.WholeView.{nodes_in, rooms_in, world_of};
ghost use Rattle.world.specs.WorldView.{rooms};
ghost use Rattle.station.specs.declared.event.Event.TheVariants as event;

use crate::cause::Cause;
use crate::entered::Entered;
use crate::hub_run::HubRun;
use crate::locked::{Locked, write};
use crate::over::Over;
use crate::refusal::Refusal;
use crate::seat::{DriverSeat, NodeSeat, driver_seat, node_seat};
use crate::seen::Seen;
use crate::sleepers::{Sleepers, Woken};
use crate::status::Status;
use crate::until::Until;
use crate::workers::Workers;
use journal::Journal;
use outlet::Outlet;
use proc_step::Done;
use replay::ScriptedEvent;
use run_log::{
    ArmedWorld, FaultAnswer, HeldBack, History, HubFault, RunLog, TurnAnswer, UnusedLedgers,
    no_deliveries,
};
use slot_cell::SlotCell;
use std::alloc::{AllocError, Global};
use std::sync::{CondvarTimeouts, Mutex, Wait};
use std::time::{Clock, Duration};
use world::{Reply, World};

/// A world with its history, under one lock, and where those sleep who wait for it.
#[derive(Drop)]
pub struct Hub<C: SlotCell, O: Outlet, ThisRun: HubRun> {
    locked: Mutex<Locked<C, O, ThisRun>>,
    sleepers: Sleepers,
}

/// What a hub asks memory for before it takes a world.
#[derive(Drop)]
pub(crate) struct HubParts<ThisRun: HubRun> {
    pub deliveries: Vec<u64>,
    pub sleepers: Sleepers,
    pub seats: Vec<NodeSeat<ThisRun>>,
}

impl<ThisRun: HubRun> HubParts<ThisRun> {
    /// That of a hub over a world of so many stations, with as many seats as are said.
    pub(crate) fn new(
        alloc: Global,
        stations: usize,
        nodes: u8,
    ) -> Result<HubParts<ThisRun>, AllocError>
        ensures deliveries { IfOk result (λ parts. parts.deliveries.items ≡ replicate stations 0) }
        ensures none { IfOk result (λ parts. parts.seats.items ≡ []) }
        ensures room { IfOk result (λ parts. nodes ≤ vec_capacity parts.seats) }
    {
        Ok(HubParts {
            deliveries: no_deliveries(alloc, stations)?,
            sleepers: Sleepers::new(alloc, nodes)?,
            seats: Vec::with_capacity(alloc, usize::from(nodes))?,
        })
    }
}

/// The log of a run, with a seat for each of so many nodes, by number, and the driver's, over what it asks memory for: so a world
/// isn't lost for want of memory.
pub(crate) fn open_log<C: SlotCell, O: Outlet, ThisRun: HubRun>(
    alloc: Global,
    world: World<C, O>,
    deliveries: Vec<u64>,
    script: Vec<ScriptedEvent>,
    nodes: u8,
    ledgers: UnusedLedgers,
    journal: &mut Journal,
    seats: Vec<NodeSeat<ThisRun>>,
    keeps: bool,
) -> (
    RunLog<C, O, ThisRun>,
    Vec<NodeSeat<ThisRun>>,
    DriverSeat<ThisRun>,
)
    requires opening { world_of world ≡ ThisRun.opening }
    requires rooms { rooms_in world ≡ ThisRun.rooms }
    requires script { script.items ≡ ThisRun.script }
    requires names { names_of ledgers ≡ ThisRun.names }
    requires parts { HaveParts ledgers ThisRun.seats }
    requires seats { ThisRun.seats ≡ nodes + 1 }
    requires deliveries { deliveries.items ≡ replicate (nodes_in world) 0 }
    requires none { seats.items ≡ [] }
    requires room { nodes ≤ vec_capacity seats }
    requires keeps { keeps ≡ ThisRun.keeps }
    requires journal { journal_id journal.old ≡ ThisRun.journal }
    ensures same_journal { journal_id journal.new ≡ journal_id journal.old }
    ensures unwritten { written journal.new ≡ written journal.old }
    ensures none { happened_in result.0 ≡ [] }
    ensures first { armed_view result.0.armed ≡ armed_at_first ThisRun.opening }
    ensures unpassed { result.0.passed ≡ 0 }
    ensures running { result.0.stopped ≡ false }
    ensures seats { vec_len result.1 ≡ nodes }
    ensures numbered { AreOfNodes nodes result.1.items }
{
    let mut seats = seats;
    let armed = ArmedWorld::over(alloc, world, deliveries);
    let (totals, mut all) = ledgers.open::<ThisRun>();
    for node in 0..nodes {
        seats.push_reserved(node_seat(node, all.split_off(), journal.reader()));
    }
    let log = RunLog::new(alloc, armed, script, totals, keeps);
    (log, seats, driver_seat(all, journal.reader()))
}

impl<C: SlotCell, O: Outlet, ThisRun: HubRun> Hub<C, O, ThisRun> {
    /// A hub over the world with which its run begins, with a seat for each of so many nodes, by number, and the driver's. It keeps
    /// a history of the run, which is over after so many rounds. Refuses for want of memory alone.
    pub fn new(
        alloc: Global,
        world: World<C, O>,
        script: Vec<ScriptedEvent>,
        nodes: u8,
        rounds: u64,
        ledgers: UnusedLedgers,
        journal: Journal,
    ) -> Result<
        (
            Hub<C, O, ThisRun>,
            Vec<NodeSeat<ThisRun>>,
            DriverSeat<ThisRun>,
        ),
        AllocError,
    >
        requires opening { world_of world ≡ ThisRun.opening }
        requires rooms { rooms_in world ≡ ThisRun.rooms }
        requires script { script.items ≡ ThisRun.script }
        requires names { names_of ledgers ≡ ThisRun.names }
        requires parts { HaveParts ledgers ThisRun.seats }
        requires seats { ThisRun.seats ≡ nodes + 1 }
        requires keeps { ThisRun.keeps ≡ true }
        requires unbegun { ThisRun.begun ≡ false }
        requires rounds { rounds ≡ ThisRun.bounds.rounds }
        requires journal { journal_id journal ≡ ThisRun.journal }
        requires unwritten { written journal ≡ [] }
        ensures seats { IfOk result (λ hub. vec_len hub.1 ≡ nodes) }
        ensures numbered { IfOk result (λ hub. AreOfNodes nodes hub.1.items) }
    {
        let HubParts {
            deliveries,
            sleepers,
            seats,
        } = HubParts::new(alloc, world.nodes(), nodes)?;
        let mut journal = journal;
        let (log, seats, driver) = open_log(
            alloc,
            world,
            deliveries,
            script,
            nodes,
            ledgers,
            &mut journal,
            seats,
            true,
        );
        Ok((Hub::over(log, journal, sleepers, rounds), seats, driver))
    }

    /// A hub over a log that goes on.
    pub(crate) fn over(
        log: RunLog<C, O, ThisRun>,
        journal: Journal,
        sleepers: Sleepers,
        rounds: u64,
    ) -> Hub<C, O, ThisRun>
        requires journal { journal_id journal ≡ ThisRun.journal }
        requires unwritten { written journal ≡ [] }
        requires begun { ThisRun.begun ≡ true → ThisRun.keeps ≡ true
            → BeginsByDriver (first_lines ThisRun.script) (happened_in log) }
        requires running { log.stopped ≡ false }
        requires rounds { rounds ≡ ThisRun.bounds.rounds }
        requires in_rounds { (world_of log.armed.world).round
            ≤ last_round ThisRun.opening ThisRun.script ThisRun.bounds }
    {
        let mut journal = journal;
        write(&log, &mut journal);
        Hub {
            locked: Mutex::new(Locked {
                log,
                journal,
                left: 0,
                workers: Workers::new(),
                until: Until::never(),
                told: None,
                cause: None,
                rounds,
            }),
            sleepers,
        }
    }

    /// The lock, for calls in a row.
    pub fn enter<R: Wait>(&self, rt: &R) -> Entered<'_, C, O, ThisRun> {
        Entered::new(self.locked.lock(rt), &self.sleepers)
    }

    /// So many nodes, from 0 on, have their seats at their desks from now on, so that the threads of all take their turns.
    pub fn open_desks<R: Wait>(&self, rt: &R, nodes: u8) {
        let mut locked = self.locked.lock(rt);
        for node in 0..nodes {
            locked.workers.comes_back(node);
        }
    }

    /// The lock, once there is something to do for a node's thread: it is on duty, a job waits for it, or the run is stopped. A wait
    /// makes no event.
    pub(crate) fn enter_worker<R: Wait>(&self, rt: &R, node: u8) -> Entered<'_, C, O, ThisRun> {
        let mut locked = self.locked.lock(rt);
        if let Some(place) = self.sleepers.node(node) {
            for _ in rt.forever() {
                if locked.wakes_worker(node) {
                    break;
                }
                locked = place.wait(rt, locked);
            }
        }
        Entered::new(locked, &self.sleepers)
    }

    /// The lock, once the run is stopped, or what the driver waits for has come. What it waited for before held the nodes up, so it
    /// wakes who takes their turns.
    pub fn enter_driver<R: Wait>(&self, rt: &R, until: Until) -> Entered<'_, C, O, ThisRun> {
        let mut locked = self.locked.lock(rt);
        locked.until = until;
        for _ in rt.forever() {
            if locked.wakes_driver() {
                break;
            }
            let nodes = locked.woken_workers();
            self.sleepers.wake_nodes(nodes);
            locked = self.sleepers.driver().wait(rt, locked);
        }
        Entered::new(locked, &self.sleepers)
    }

    // The lock, once the hub stands otherwise than who watches the run was told last, or the run is stopped; at once where it was told
    // nothing yet. One watch alone may wait by this, since what it was told stands under the lock.
    pub(crate) fn enter_watch<R: Wait>(
        &self,
        rt: &R,
        told: Option<Seen>,
    ) -> Entered<'_, C, O, ThisRun> {
        let mut locked = self.locked.lock(rt);
        locked.told = told;
        if let Some(told) = told {
            for _ in rt.forever() {
                if locked.has_news(told) {
                    break;
                }
                locked = self.sleepers.watch().wait(rt, locked);
            }
        }
        Entered::new(locked, &self.sleepers)
    }

    // The lock, once the run is stopped, or at most so much later. (It may come earlier.)
    pub(crate) fn enter_end<R: Wait + Clock>(
        &self,
        rt: &R,
        at_most: Duration,
    ) -> Entered<'_, C, O, ThisRun> {
        let mut locked = self.locked.lock(rt);
        if !locked.log.is_stopped() {
            let (woken, _timed_out) = self.sleepers.watch().wait_timeout(rt, locked, at_most);
            locked = woken;
        }
        Entered::new(locked, &self.sleepers)
    }

    /// The event that is next for the seat's node, `Late`, `Widened`, `Nothing` or `Stopped`.
    pub fn turn<R: Wait>(
        &self,
        rt: &R,
        alloc: Global,
        seat: &mut NodeSeat<ThisRun>,
    ) -> Result<TurnAnswer, HubFault>
        ensures node { seat.new.node ≡ seat.old.node }
        // It is counted at the seat. A job that is granted is of a process of the seat's node. The reply is that of an event of this
        // node, and a silence its own, in a world to which a history of this run leads.
        ensures told { IfOk result (λ answer. IsToldTurn ThisRun.rooms ThisRun.script ThisRun.opening seat.old.node answer
            (seat_numbers seat.old.count) (seat_numbers seat.new.count)) }
        // Where a history is kept, the seat is shown that of this very run: what it was shown before, and behind it this answer.
        ensures shown { ThisRun.keeps ≡ true → IfOk result
            (λ answer. IsShownTurn seat.old.node answer (seen seat.old.reader) (seen seat.new.reader)) }
        // Also where the call is refused, what the seat was shown before stays shown.
        ensures begins { ThisRun.keeps ≡ true → Begins (seen seat.old.reader) (seen seat.new.reader) }
        ensures refused { OnErr result
            (seat_numbers seat.new.count ≡ seat_numbers seat.old.count) }
    {
        let mut entered = self.enter(rt);
        let answer = entered.turn(alloc, seat)?;
        entered.leave();
        Ok(answer)
    }

    /// What came of a job of the seat's node comes back. A refusal hands it back.
    pub fn install<R: Wait>(
        &self,
        rt: &R,
        alloc: Global,
        seat: &mut NodeSeat<ThisRun>,
        done: Done,
    ) -> Result<Reply, HeldBack>
        requires home { event_node (Install (done_view done)) ≡ seat.old.node }
        ensures node { seat.new.node ≡ seat.old.node }
        ensures told { IfOk result (λ reply. IsToldEvent ThisRun.rooms ThisRun.script ThisRun.opening
            (who.Node seat.old.node) (reply_view reply) (seat_numbers seat.old.count) (seat_numbers seat.new.count)) }
        ensures shown { ThisRun.keeps ≡ true → IfOk result (λ reply. IsShownEvent (who.Node seat.old.node)
            (OfWorld (Install (done_view done))) (reply_view reply) (seen seat.old.reader) (seen seat.new.reader)) }
        ensures begins { ThisRun.keeps ≡ true → Begins (seen seat.old.reader) (seen seat.new.reader) }
        ensures refused { OnErr result
            (seat_numbers seat.new.count ≡ seat_numbers seat.old.count) }
        ensures handed_back { IfErr result (λ held. held.event ≡ event.Install done) }
    {
        let mut entered = self.enter(rt);
        let reply = entered.install(alloc, seat, done)?;
        entered.leave();
        Ok(reply)
    }

    /// The event of the script's next line, `NotYet`, `NoMore` or `Stopped`.
    pub fn fault<R: Wait>(
        &self,
        rt: &R,
        alloc: Global,
        seat: &mut DriverSeat<ThisRun>,
    ) -> Result<FaultAnswer, HubFault>
        // It is counted at the seat. The reply is that of the script's next line, and a silence the driver's, in a world to which a
        // history of this run leads.
        ensures told { IfOk result (λ answer. IsToldFault ThisRun.rooms ThisRun.script ThisRun.opening answer
            (seat_numbers seat.old.count) (seat_numbers seat.new.count)) }
        ensures shown { ThisRun.keeps ≡ true
            → IfOk result (λ answer. IsShownFault answer (seen seat.old.reader) (seen seat.new.reader)) }
        ensures begins { ThisRun.keeps ≡ true → Begins (seen seat.old.reader) (seen seat.new.reader) }
        ensures refused { OnErr result
            (seat_numbers seat.new.count ≡ seat_numbers seat.old.count) }
    {
        let mut entered = self.enter(rt);
        let answer = entered.fault(alloc, seat)?;
        entered.leave();
        Ok(answer)
    }

    /// How the run stands. The hub is stopped where nothing is left to do.
    pub fn status<R: Wait>(&self, rt: &R) -> Status
        // It was so of a world to which a history of this run leads.
        ensures { result.complete ≡ true → HasBeenComplete ThisRun.rooms ThisRun.script ThisRun.opening }
    {
        let mut locked = self.locked.lock(rt);
        let complete = locked.end_if_complete();
        let status = Status {
            round: locked.log.moment().round,
            complete,
            stopped: locked.log.is_stopped(),
        };
        drop(locked);
        if status.stopped {
            self.sleepers.wake(Woken::all());
        }
        status
    }

    /// How many events were made by all seats together.
    pub fn entries<R: Wait>(&self, rt: &R) -> u64 {
        self.locked.lock(rt).log.made()
    }

    // The run is stopped for this cause, unless it is already, and everybody is woken.
    fn end<R: Wait>(&self, rt: &R, cause: Cause)
        requires { (world : WorldView) → is_cause (is_over ThisRun.channels ThisRun.bounds) ThisRun.may_stop world cause
            ≡ true }
    {
        self.locked.lock(rt).end(cause);
        self.sleepers.wake(Woken::all());
    }

    /// From now on no turn and no line of the script makes an event. What comes of a job that is out may still come back. Who calls it is one
    /// who may stop the run, as its name says.
    pub fn stop<R: Wait>(&self, rt: &R)
        requires { ThisRun.may_stop ≡ true }
    {
        self.end(rt, Cause::Asked);
    }

    /// The same, since a call was refused. It answers why, and that the run is stopped.
    pub(crate) fn refuse<R: Wait>(&self, rt: &R, refusal: Refusal) -> (HubFault, Over<ThisRun>)
        ensures { result.0 ≡ refusal.fault }
    {
        let mut locked = self.locked.lock(rt);
        let fault = refusal.tell(&mut *locked);
        let over = Over::seen(&locked);
        drop(locked);
        self.sleepers.wake(Woken::all());
        match over {
            Some(over) => (fault, over),
            // It is stopped by now.
            None => unreachable!(),
        }
    }

    /// The world, with the history that leads to it from the one with which the run began, if one was kept. Where these are all seats, the history
    /// has as many events, and as many answers of each kind, as they got.
    pub fn close(
        self,
        seats: Vec<NodeSeat<ThisRun>>,
        driver: DriverSeat<ThisRun>,
    ) -> (World<C, O>, History)
        // Kept or not, a history leads there.
        ensures run { HasRun ThisRun.rooms ThisRun.script ThisRun.opening (world_of result.0) }
        ensures leads { ThisRun.keeps ≡ true → LeadsTo ThisRun.rooms ThisRun.script ThisRun.opening
            (happenings result.1.lines.items) (world_of result.0) }
        ensures numbers { vec_len seats + 1 ≡ ThisRun.seats → ThisRun.keeps ≡ true
            → numbers_in result.1.lines.items result.1.stops
            ≡ added (numbers_of_seats seats.items) (seat_numbers driver.count) }
        // What a seat was shown begins this history: so each answer that it got stands there.
        ensures shown { ThisRun.keeps ≡ true → AreShown result.1.lines.items seats.items driver }
    {
        let Hub { locked, .. } = self;
        let Locked {
            log,
            mut journal,
            ..
        } = locked.into_inner();
        let mut all = driver.with_all(seats, &mut journal);
        log.close(&mut all)
    }

    /// The world, its history if one was kept, and why the run is stopped, for a driver who was told that it is.
    pub(crate) fn close_stopped(
        self,
        driver: DriverSeat<ThisRun>,
    ) -> (World<C, O>, History, Option<Cause>)
        ensures run { HasRun ThisRun.rooms ThisRun.script ThisRun.opening (world_of result.0) }
        ensures leads { ThisRun.keeps ≡ true → LeadsTo ThisRun.rooms ThisRun.script ThisRun.opening
            (happenings result.1.lines.items) (world_of result.0) }
        ensures begun { ThisRun.begun ≡ true → ThisRun.keeps ≡ true
            → BeginsByDriver (first_lines ThisRun.script) (happenings result.1.lines.items) }
        ensures cause { 0 < (seat_numbers driver.count).stops
            → is_caused (is_over ThisRun.channels ThisRun.bounds) ThisRun.may_stop (world_of result.0) result.2
            ≡ true }
        ensures rounds { (world_of result.0).round ≤ last_round ThisRun.opening ThisRun.script ThisRun.bounds }
    {
        let Hub { locked, .. } = self;
        let Locked { log, cause, .. } = locked.into_inner();
        let DriverSeat { mut count, .. } = driver;
        let (world, history) = log.close(&mut count);
        (world, history, cause)
    }
}
