// The threads of a run, and who watches it beside them.
ghost use Rattle.std.specs.Prelude.{◌≡◌};
ghost use denote.Param.Send.{IsSend};

use crate::bounds::RunBounds;
use crate::hub_run::HubRun;
use crate::job_watch::NoWatch;
use crate::run_handle::Watched;
use crate::run_watch::RunWatch;
use crate::threads::{DriverSeats, Joined, NodeSeats, SharedRun, run_threads};
use marks::{MarksName, Seat};
use net_check::Net;
use outlet::Outlet;
use slot_cell::SlotCell;
use std::alloc::Global;
use std::sync::Wait;
use std::thread;
use std::thread::Threads;

// Watches from this thread, by a seat of the marks.
fn watch_at<C: SlotCell, O: Outlet, ThisRun: HubRun, ItsMarks: MarksName, W: RunWatch, R: Wait>(
    rt: &R,
    shared: &SharedRun<C, O, ThisRun, ItsMarks>,
    seat: Seat<ItsMarks>,
    net: &Net,
    watch: &W,
)
    requires { ThisRun.may_stop ≡ W.may_stop }
{
    let mut run = Watched::new(shared, seat, net);
    watch.watch(rt, &mut run);
}

// The threads of a run, and one more for who watches it. (Where none can be made for it, it watches once the others are joined.)
fn run_beside<
    C: SlotCell + Send,
    O: Outlet + Send,
    ThisRun: HubRun + Send + Sync,
    ItsMarks: MarksName + Send + Sync,
    W: RunWatch + Sync,
    R: Threads + Wait + Sync,
>(
    rt: &R,
    alloc: Global,
    shared: &SharedRun<C, O, ThisRun, ItsMarks>,
    seats: Vec<NodeSeats<ThisRun, ItsMarks>>,
    driver: DriverSeats<ThisRun, ItsMarks>,
    run: &RunBounds<'_, ThisRun>,
    net: &Net,
    watch: &W,
) -> Joined<ThisRun>
    requires { ThisRun.may_stop ≡ W.may_stop }
{
    let reader = shared.marks.reader();
    let (_watched, joined) = thread::join(
        rt,
        ||
            requires { ThisRun.may_stop ≡ W.may_stop }
        { watch_at(rt, shared, reader, net, watch) },
        || -> Joined<ThisRun>
            requires { IsSend C.row × IsSend O.row × IsSend ThisRun.row × IsSend ItsMarks.row }
        { run_threads(rt, alloc, shared, seats, driver, run, &NoWatch) },
    );
    joined
}

/// The threads of a run, as `run_threads` has them, and beside them who watches it.
pub(crate) fn run_watched<
    C: SlotCell + Send,
    O: Outlet + Send,
    ThisRun: HubRun + Send + Sync,
    ItsMarks: MarksName + Send + Sync,
    W: RunWatch + Sync,
    R: Threads + Wait + Sync,
>(
    rt: &R,
    alloc: Global,
    shared: &SharedRun<C, O, ThisRun, ItsMarks>,
    seats: Vec<NodeSeats<ThisRun, ItsMarks>>,
    driver: DriverSeats<ThisRun, ItsMarks>,
    run: &RunBounds<'_, ThisRun>,
    net: &Net,
    watch: &W,
) -> Joined<ThisRun>
    requires { ThisRun.may_stop ≡ W.may_stop }
{
    if watch.watches() {
        run_beside(rt, alloc, shared, seats, driver, run, net, watch)
    } else {
        run_threads(rt, alloc, shared, seats, driver, run, &NoWatch)
    }
}
