// A run by threads, from its world to its history.
ghost use Rattle.std.specs.Prelude.{◌≡◌, ◌+◌, ◌≤◌, [], false, true, length};
ghost use Rattle.journal.specs.Histories.{journal_id, written};
ghost use Rattle.marks.specs.Seats.{table_of};
ghost use Rattle.protocol.specs.Node.Common.{MAX_CHANNELS, network_of};
ghost use Rattle.replay.specs.Replay.{LeadsTo};
ghost use Rattle.run_log.specs.LedgerNames.{HaveParts, names_of};
ghost use Rattle.run_log.specs.Happened.{HasRun};
ghost use Rattle.run_log.specs.Lines.{happenings};
ghost use Rattle.runtime.specs.Beginning.{first_lines, BeginsByDriver, HasBegun};
ghost use Rattle.runtime.specs.Causes.{last_round};
ghost use Rattle.runtime.specs.Ending.{IsOver, was_refused};
ghost use Rattle.runtime.specs.declared.ending.RunEnd.TheVariants.{Refused, Stopped};
ghost use Rattle.world.specs.WholeView.{net_in, rooms_in, world_of};
ghost use Rattle.world.specs.WorldView.{rooms};

use crate::bounds::{Bounds, RunBounds};
use crate::driving::{Driven, begin, first_lines};
use crate::ending::{Ended, RunEnd, end_for};
use crate::hub::{Hub, HubParts, open_log};
use crate::hub_run::HubRun;
use crate::run_watch::RunWatch;
use crate::seat::{DriverSeat, NodeSeat};
use crate::threads::{DriverSeats, NodeSeats, SharedRun, unled};
use crate::until::Until;
use crate::watching::run_watched;
use crate::working::raise_marks;
use journal::Journal;
use kahn_net::Channel;
use marks::{MarksName, Opened, Seat};
use net_check::Net;
use outlet::Outlet;
use replay::ScriptedEvent;
use run_log::{HubFault, RunLog, UnusedLedgers};
use slot_cell::SlotCell;
use std::alloc::{AllocError, Global};
use std::marker::Brand;
use std::sync::{Arc, Wait};
use std::thread::Threads;
use world::World;

// The seats of each node, side by side. The marks of its outputs are raised to how far these have come by now: a world that goes on has
// outputs by which items have left.
fn list_seats<C: SlotCell, O: Outlet, ThisRun: HubRun, ItsMarks: MarksName, R: Wait>(
    rt: &R,
    alloc: Global,
    shared: &SharedRun<C, O, ThisRun, ItsMarks>,
    seats: Vec<NodeSeat<ThisRun>>,
    marks_seats: Vec<Seat<ItsMarks>>,
) -> Result<Vec<NodeSeats<ThisRun, ItsMarks>>, AllocError> {
    let entered = shared.hub.enter_driver(rt, Until::now());
    let mut node_seats = Vec::with_capacity(alloc, seats.len())?;
    for (seat, mut marks) in seats.into_iter().zip(marks_seats) {
        raise_marks(&entered, &shared.marks, &mut marks)?;
        node_seats.push(NodeSeats { seat, marks })?;
    }
    Ok(node_seats)
}

// A run of which a line of round 0 was refused.
fn refused_at_once<C: SlotCell, O: Outlet, ThisRun: HubRun>(
    log: RunLog<C, O, ThisRun>,
    driver: DriverSeat<ThisRun>,
    fault: HubFault,
) -> Ended<C, O>
    ensures run { HasRun ThisRun.rooms ThisRun.script ThisRun.opening (world_of result.world) }
    ensures leads { ThisRun.keeps ≡ true → LeadsTo ThisRun.rooms ThisRun.script ThisRun.opening
        (happenings result.history.lines.items) (world_of result.world) }
    ensures end { result.end ≡ Refused fault }
{
    let DriverSeat { mut count, .. } = driver;
    let (world, history) = log.close(&mut count);
    Ended {
        world,
        history,
        end: RunEnd::Refused(fault),
    }
}

// The end of a run that began.
fn close<C: SlotCell, O: Outlet, ThisRun: HubRun, ItsMarks: MarksName>(
    shared: SharedRun<C, O, ThisRun, ItsMarks>,
    driven: Driven<ThisRun>,
    run: &RunBounds<'_, ThisRun>,
) -> Ended<C, O>
    requires begun { ThisRun.begun ≡ true }
    ensures run { HasRun ThisRun.rooms ThisRun.script ThisRun.opening (world_of result.world) }
    ensures leads { ThisRun.keeps ≡ true → LeadsTo ThisRun.rooms ThisRun.script ThisRun.opening
        (happenings result.history.lines.items) (world_of result.world) }
    ensures over { IsOver ThisRun.channels ThisRun.bounds (world_of result.world) result.end }
    ensures stopped { result.end ≡ Stopped → ThisRun.may_stop ≡ true }
    ensures rounds { (world_of result.world).round ≤ last_round ThisRun.opening ThisRun.script ThisRun.bounds }
    ensures begun { ThisRun.keeps ≡ true
        → BeginsByDriver (first_lines ThisRun.script) (happenings result.history.lines.items) }
{
    let SharedRun { hub, .. } = shared;
    let Driven { seat, end, .. } = driven;
    let (world, history, cause) = hub.close_stopped(seat);
    let end = end_for(run, &world, end, cause);
    Ended {
        world,
        history,
        end,
    }
}

// The run of this hub's name and these marks'.
fn play<
    C: SlotCell + Send,
    O: Outlet + Send,
    ThisRun: HubRun + Send + Sync,
    ItsMarks: MarksName + Send + Sync,
    W: RunWatch + Sync,
    R: Threads + Wait + Sync,
>(
    rt: &R,
    alloc: Global,
    net: &Net,
    channels: &[Channel],
    bounds: Bounds,
    world: World<C, O>,
    script: Vec<ScriptedEvent>,
    ledgers: UnusedLedgers,
    journal: Journal,
    opened: Opened,
    watch: &W,
    nodes: u8,
    keeps: bool,
) -> Ended<C, O>
    requires few { length channels.now ≤ MAX_CHANNELS }
    requires channels { channels.now ≡ ThisRun.channels }
    requires bounds { bounds ≡ ThisRun.bounds }
    requires opening { world_of world ≡ ThisRun.opening }
    requires rooms { rooms_in world ≡ ThisRun.rooms }
    requires script { script.items ≡ ThisRun.script }
    requires names { names_of ledgers ≡ ThisRun.names }
    requires parts { HaveParts ledgers ThisRun.seats }
    requires seats { ThisRun.seats ≡ nodes + 1 }
    requires table { table_of opened ≡ ItsMarks.table }
    requires keeps { keeps ≡ ThisRun.keeps }
    requires watch { ThisRun.may_stop ≡ W.may_stop }
    requires begun { ThisRun.begun ≡ true }
    requires journal { journal_id journal ≡ ThisRun.journal }
    requires unwritten { written journal ≡ [] }
    ensures run { HasRun ThisRun.rooms ThisRun.script ThisRun.opening (world_of result.world) }
    ensures leads { ThisRun.keeps ≡ true → LeadsTo ThisRun.rooms ThisRun.script ThisRun.opening
        (happenings result.history.lines.items) (world_of result.world) }
    ensures over { IsOver ThisRun.channels ThisRun.bounds (world_of result.world) result.end }
    ensures stopped { result.end ≡ Stopped → W.may_stop ≡ true }
    ensures rounds { was_refused result.end ≡ false
        → (world_of result.world).round ≤ last_round ThisRun.opening ThisRun.script ThisRun.bounds }
    ensures begun { ThisRun.keeps ≡ true
        → HasBegun ThisRun.script (happenings result.history.lines.items) result.end }
{
    let Ok(parts) = HubParts::new(alloc, world.nodes(), nodes) else {
        return Ended::unbegun(alloc, world, HubFault::NoMemory);
    };
    let Ok((marks, mut marks_seats)) = opened.named::<ItsMarks>(alloc) else {
        return Ended::unbegun(alloc, world, HubFault::NoMemory);
    };
    let Some(driver_marks) = marks_seats.pop() else {
        return Ended::unbegun(alloc, world, HubFault::NoMemory);
    };
    let HubParts {
        deliveries,
        sleepers,
        seats,
    } = parts;
    let lines = first_lines(&script);
    let mut journal = journal;
    let (mut log, seats, mut driver) = open_log::<C, O, ThisRun>(
        alloc,
        world,
        deliveries,
        script,
        nodes,
        ledgers,
        &mut journal,
        seats,
        keeps,
    );
    let DriverSeat { made, count, .. } = &mut driver;
    let begun = begin(alloc, &mut log, made, count, lines);
    if let Err(fault) = begun {
        return refused_at_once(log, driver, fault);
    }
    let hub = Hub::over(log, journal, sleepers, bounds.rounds);
    let run = RunBounds::<ThisRun>::new(channels, bounds);
    let shared = SharedRun { hub, marks };
    let driver_seats = DriverSeats {
        seat: driver,
        marks: driver_marks,
    };
    let driven = match list_seats(rt, alloc, &shared, seats, marks_seats) {
        Ok(node_seats) => run_watched(
            rt,
            alloc,
            &shared,
            node_seats,
            driver_seats,
            &run,
            net,
            watch,
        )
        .driven,
        Err(_) => unled(rt, &shared, driver_seats),
    };
    close(shared, driven, &run)
}

/// Runs a world with a thread for each node, and one, which calls, for the script, until nothing is left to do or it comes to its
/// bounds, or is stopped by who watches it (`RunWatch`; `&NoWatch` where nobody does). It returns once the watch has. The world
/// comes back in each case, with the history that leads to it from the one that was handed in, and why the run ended. Where no
/// history is to be kept there is none in memory, and it comes back empty. The run is refused for want of memory (1), also where a
/// node's thread can't be made, and where a count would pass 2^63 - 1 (44). One that is refused before it begins isn't watched.
pub fn run_world<
    C: SlotCell + Send,
    O: Outlet + Send,
    W: RunWatch + Sync,
    R: Threads + Wait + Sync,
>(
    rt: &R,
    alloc: Global,
    world: World<C, O>,
    script: Vec<ScriptedEvent>,
    watch: &W,
    bounds: Bounds,
    keeps_history: bool,
) -> Ended<C, O>
    // Kept or not, a history leads there.
    ensures run { HasRun (rooms_in world) script.items (world_of world) (world_of result.world) }
    ensures leads { keeps_history ≡ true → LeadsTo (rooms_in world) script.items (world_of world)
        (happenings result.history.lines.items) (world_of result.world) }
    // The world is as the end says: nothing is left to do, the rounds are over, or each output has its items.
    ensures over { IsOver (network_of (net_in world).value.program).channels bounds (world_of result.world)
        result.end }
    // Where the run came to its end, the events of the script's lines of round 0 come before all others.
    ensures begun { keeps_history ≡ true
        → HasBegun script.items (happenings result.history.lines.items) result.end }
    // It ends by a stop only where who watches it may stop it.
    ensures stopped { result.end ≡ Stopped → W.may_stop ≡ true }
    // No round begins behind the last one.
    ensures rounds { was_refused result.end ≡ false
        → (world_of result.world).round ≤ last_round (world_of world) script.items bounds }
{
    let Ok(net) = Arc::try_clone(world.net()) else {
        return Ended::unbegun(alloc, world, HubFault::NoMemory);
    };
    let Ok(opened) = Opened::new(alloc, &net) else {
        return Ended::unbegun(alloc, world, HubFault::NoMemory);
    };
    let Ok(journal) = Journal::new(alloc) else {
        return Ended::unbegun(alloc, world, HubFault::NoMemory);
    };
    // (A network has at most 16 nodes.)
    let nodes = world.nodes() as u8;
    let ledgers = UnusedLedgers::new(u64::from(nodes) + 1);
    let channels = net.program.channels.as_slice();
    play::<C, O, Brand, Brand, W, R>(
        rt,
        alloc,
        &net,
        channels,
        bounds,
        world,
        script,
        ledgers,
        journal,
        opened,
        watch,
        nodes,
        keeps_history,
    )
}
