// A thread for each node.
ghost use Rattle.std.specs.Prelude.{◌≡◌, vec_len, OnOk};
ghost use denote.Param.Send.{IsSend};

use crate::bounds::RunBounds;
use crate::desks::Desks;
use crate::driving::{Driven, drive};
use crate::hub::Hub;
use crate::hub_run::HubRun;
use crate::job_watch::JobWatch;
use crate::over::Over;
use crate::refusal::Refusal;
use crate::seat::{DriverSeat, NodeSeat};
use crate::working::work;
use marks::{Marks, MarksName, Seat};
use outlet::Outlet;
use run_log::HubFault;
use slot_cell::SlotCell;
use std::alloc::Global;
use std::sync::Wait;
use std::thread;
use std::thread::{JoinHandle, Scope, Threads};

/// A node's seat at the hub, and its seat at the marks.
#[derive(Drop)]
pub struct NodeSeats<ThisRun: HubRun, ItsMarks: MarksName> {
    pub seat: NodeSeat<ThisRun>,
    pub marks: Seat<ItsMarks>,
}

impl<ThisRun: HubRun, ItsMarks: MarksName> NodeSeats<ThisRun, ItsMarks> {
    /// The seat at the hub alone.
    pub(crate) fn into_seat(self) -> NodeSeat<ThisRun> {
        let NodeSeats { seat, .. } = self;
        seat
    }
}

/// The driver's.
#[derive(Drop)]
pub struct DriverSeats<ThisRun: HubRun, ItsMarks: MarksName> {
    pub seat: DriverSeat<ThisRun>,
    pub marks: Seat<ItsMarks>,
}

/// What the threads of a run share.
#[derive(Drop)]
pub struct SharedRun<C: SlotCell, O: Outlet, ThisRun: HubRun, ItsMarks: MarksName> {
    pub hub: Hub<C, O, ThisRun>,
    pub marks: Marks<ItsMarks>,
}

// Starts the worker of a node, if a thread can be made.
fn start<
    's,
    E,
    C: SlotCell + Send + 's,
    O: Outlet + Send + 's,
    ThisRun: HubRun + Send + Sync + 's,
    ItsMarks: MarksName + Send + Sync + 's,
    W: JobWatch + Sync + 's,
    R: Wait + Sync + 's,
>(
    rt: &'s R,
    alloc: Global,
    scope: &Scope<'s, E>,
    shared: &'s SharedRun<C, O, ThisRun, ItsMarks>,
    desks: &'s Desks<ThisRun, ItsMarks>,
    node: u8,
    watch: &'s W,
) -> Option<JoinHandle<Over<ThisRun>>> {
    scope
        .spawn(move || work(rt, alloc, &shared.hub, &shared.marks, desks, node, watch))
        .ok()
}

// Starts a worker for each node.
fn start_all<
    's,
    E,
    C: SlotCell + Send + 's,
    O: Outlet + Send + 's,
    ThisRun: HubRun + Send + Sync + 's,
    ItsMarks: MarksName + Send + Sync + 's,
    W: JobWatch + Sync + 's,
    R: Wait + Sync + 's,
>(
    rt: &'s R,
    alloc: Global,
    scope: &Scope<'s, E>,
    shared: &'s SharedRun<C, O, ThisRun, ItsMarks>,
    desks: &'s Desks<ThisRun, ItsMarks>,
    nodes: u8,
    watch: &'s W,
    running: &mut Vec<JoinHandle<Over<ThisRun>>>,
) {
    for node in 0..nodes {
        if let Some(handle) = start(rt, alloc, scope, shared, desks, node, watch) {
            let _ = running.push(handle);
        }
    }
}

// Drives where each node has its worker, and else stops the hub.
fn lead<C: SlotCell, O: Outlet, ThisRun: HubRun, ItsMarks: MarksName, R: Wait>(
    rt: &R,
    alloc: Global,
    shared: &SharedRun<C, O, ThisRun, ItsMarks>,
    driver: DriverSeats<ThisRun, ItsMarks>,
    run: &RunBounds<'_, ThisRun>,
    all_work: bool,
) -> Driven<ThisRun> {
    if !all_work {
        return unled(rt, shared, driver);
    }
    let DriverSeats { seat, mut marks } = driver;
    drive(rt, alloc, &shared.hub, seat, &shared.marks, &mut marks, run)
}

/// A driver who doesn't drive, for want of memory.
pub(crate) fn unled<C: SlotCell, O: Outlet, ThisRun: HubRun, ItsMarks: MarksName, R: Wait>(
    rt: &R,
    shared: &SharedRun<C, O, ThisRun, ItsMarks>,
    driver: DriverSeats<ThisRun, ItsMarks>,
) -> Driven<ThisRun> {
    let DriverSeats { seat, .. } = driver;
    let refusal = Refusal::new(HubFault::NoMemory);
    Driven::refused(rt, &shared.hub, seat, refusal)
}

/// What came of the threads: the seats that came back, the driver's, and why the driver ended, if a call of its own was refused.
#[derive(Drop)]
pub struct Joined<ThisRun: HubRun> {
    pub seats: Vec<NodeSeat<ThisRun>>,
    pub driven: Driven<ThisRun>,
}

// Starts a worker for each of so many nodes, drives on the thread that calls, and joins them. (A worker of which a call is refused tells the hub
// why.)
fn run_at_desks<
    C: SlotCell + Send,
    O: Outlet + Send,
    ThisRun: HubRun + Send + Sync,
    ItsMarks: MarksName + Send + Sync,
    W: JobWatch + Sync,
    R: Threads + Wait + Sync,
>(
    rt: &R,
    alloc: Global,
    shared: &SharedRun<C, O, ThisRun, ItsMarks>,
    desks: &Desks<ThisRun, ItsMarks>,
    nodes: u8,
    driver: DriverSeats<ThisRun, ItsMarks>,
    run: &RunBounds<'_, ThisRun>,
    watch: &W,
) -> Driven<ThisRun> {
    let count = usize::from(nodes);
    let Ok(mut running) = Vec::with_capacity(alloc, count) else {
        return unled(rt, shared, driver);
    };
    shared.hub.open_desks(rt, nodes);
    thread::scope(
        thread::scope_env(),
        rt,
        |scope| -> Driven<ThisRun>
            requires { IsSend C.row × IsSend O.row × IsSend ThisRun.row × IsSend ItsMarks.row }
        {
            start_all(rt, alloc, scope, shared, desks, nodes, watch, &mut running);
            let all_work = running.len() == count;
            let driven = lead(rt, alloc, shared, driver, run, all_work);
            while let Some(handle) = running.pop() {
                let _ended = handle.join(rt);
            }
            driven
        },
    )
}

// Puts the seats to desks, lets the nodes' threads work there, and gives back what stands there then, as far as there is room for it.
fn run_seats<
    C: SlotCell + Send,
    O: Outlet + Send,
    ThisRun: HubRun + Send + Sync,
    ItsMarks: MarksName + Send + Sync,
    W: JobWatch + Sync,
    R: Threads + Wait + Sync,
>(
    rt: &R,
    alloc: Global,
    shared: &SharedRun<C, O, ThisRun, ItsMarks>,
    seats: Vec<NodeSeats<ThisRun, ItsMarks>>,
    driver: DriverSeats<ThisRun, ItsMarks>,
    run: &RunBounds<'_, ThisRun>,
    watch: &W,
    back: &mut Vec<NodeSeat<ThisRun>>,
) -> Driven<ThisRun> {
    // (A network has at most 16 nodes.)
    let Ok(nodes) = u8::try_from(seats.len()) else {
        return unled(rt, shared, driver);
    };
    let Ok(desks) = Desks::new(alloc, seats) else {
        return unled(rt, shared, driver);
    };
    let driven = run_at_desks(rt, alloc, shared, &desks, nodes, driver, run, watch);
    desks.clear(&driven.over, back);
    driven
}

// What came of the threads, where so many seats should have come back.
fn join_all<ThisRun: HubRun>(
    seats: Vec<NodeSeat<ThisRun>>,
    driven: Driven<ThisRun>,
    count: usize,
) -> Joined<ThisRun>
    ensures seats { OnOk result.driven.end (vec_len result.seats ≡ count) }
{
    if seats.len() == count {
        return Joined { seats, driven };
    }
    let Driven { seat, end, over } = driven;
    let fault = match end {
        Ok(()) => HubFault::NoMemory,
        Err(fault) => fault,
    };
    Joined {
        seats,
        driven: Driven {
            seat,
            end: Err(fault),
            over,
        },
    }
}

/// Lets each node work on a thread of its own, and drives on the thread that calls. It ends with the hub stopped. Where no call is
/// refused all seats come back. Refuses for want of memory, also where a thread can't be made, and where a seat's call was refused.
pub fn run_threads<
    C: SlotCell + Send,
    O: Outlet + Send,
    ThisRun: HubRun + Send + Sync,
    ItsMarks: MarksName + Send + Sync,
    W: JobWatch + Sync,
    R: Threads + Wait + Sync,
>(
    rt: &R,
    alloc: Global,
    shared: &SharedRun<C, O, ThisRun, ItsMarks>,
    seats: Vec<NodeSeats<ThisRun, ItsMarks>>,
    driver: DriverSeats<ThisRun, ItsMarks>,
    run: &RunBounds<'_, ThisRun>,
    watch: &W,
) -> Joined<ThisRun>
    ensures seats { OnOk result.driven.end (vec_len result.seats ≡ vec_len seats) }
{
    let count = seats.len();
    let mut back = Vec::new(alloc);
    if back.reserve(count).is_err() {
        let driven = unled(rt, shared, driver);
        return join_all(back, driven, count);
    }
    let driven = run_seats(rt, alloc, shared, seats, driver, run, watch, &mut back);
    join_all(back, driven, count)
}
