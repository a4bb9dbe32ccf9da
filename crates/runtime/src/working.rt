// What a node's thread does at the hub.
ghost use Rattle.std.specs.Prelude.{◌≡◌, false, IfOk, OnOk};
ghost use Rattle.std.specs.Sync.Mutex.{mutex_guard_value};
ghost use Rattle.marks.specs.Seats.{known, node_of, owners_of};
ghost use Rattle.runtime.specs.Marked.{AreMarked, HasLeftAsMuch, IsGrantAt, IsMarkedBehind};
ghost use Rattle.world.specs.WholeView.{world_of};

use crate::desks::{Desk, Desks};
use crate::entered::Entered;
use crate::hub::Hub;
use crate::hub_run::HubRun;
use crate::job_watch::JobWatch;
use crate::over::Over;
use crate::refusal::Refusal;
use crate::seat::NodeSeat;
use crate::task::{Ran, Task};
use crate::threads::NodeSeats;
use crate::turned::Turned;
use marks::{Marks, MarksName, Seat};
use outlet::Outlet;
use run_log::HubFault;
use slot_cell::SlotCell;
use std::alloc::{AllocError, Global};
use std::sync::Wait;

// The marks of the node's outputs are raised to how far these have come.
pub(crate) fn raise_marks<C: SlotCell, O: Outlet, ThisRun: HubRun, ItsMarks: MarksName>(
    entered: &Entered<'_, C, O, ThisRun>,
    marks: &Marks<ItsMarks>,
    seat: &mut Seat<ItsMarks>,
) -> Result<(), AllocError>
    ensures node { node_of seat.new ≡ node_of seat.old }
    ensures marked { OnOk result (AreMarked (owners_of marks.now) (node_of seat.old) (known seat.new)
        (world_of (mutex_guard_value entered.now.locked).log.armed.world)) }
{
    for number in 0..marks.channels() {
        let Ok(output) = u8::try_from(number) else {
            // (A network has at most 256 channels.)
            return Ok(());
        };
        if marks.owns(seat, output) {
            let freed = entered.freed(output)?;
            marks.raise(seat, freed);
        }
    }
    Ok(())
}

// How many turns in a row a node takes at most while it has the lock.
const TURNS: u32 = 256;

// Turns in a row, until a job is granted, nothing is to be done, or others have something to do. It answers what the last one came to, and
// whether an item may have left by any.
fn take_turns<C: SlotCell, O: Outlet, ThisRun: HubRun>(
    alloc: Global,
    entered: &mut Entered<'_, C, O, ThisRun>,
    seat: &mut NodeSeat<ThisRun>,
    left: &mut bool,
) -> Result<Turned, Refusal>
    requires { left.old ≡ false }
    ensures node { seat.new.node ≡ seat.old.node }
    ensures home { IfOk result (IsGrantAt seat.old.node) }
    ensures left { left.new ≡ false → HasLeftAsMuch (world_of (mutex_guard_value entered.new.locked).log.armed.world)
        (world_of (mutex_guard_value entered.old.locked).log.armed.world) }
{
    for _ in 0..TURNS {
        match entered.take_turn(alloc, seat) {
            Ok(Turned::Acts { left: has_left }) => *left = *left || has_left,
            turned => return turned,
        }
        if entered.has_moved_on() {
            break;
        }
    }
    Ok(Turned::Acts { left: false })
}

// Takes turns in a row, and raises the marks of the node's outputs where an item may have left by any of them. Where a call is refused the
// run is stopped.
fn take_marked_turns<C: SlotCell, O: Outlet, ThisRun: HubRun, ItsMarks: MarksName>(
    alloc: Global,
    entered: &mut Entered<'_, C, O, ThisRun>,
    marks: &Marks<ItsMarks>,
    seats: &mut NodeSeats<ThisRun, ItsMarks>,
) -> Turned
    ensures node { seats.new.seat.node ≡ seats.old.seat.node }
    ensures home { IsGrantAt seats.old.seat.node result }
    // Behind the turns no mark is behind what has left.
    ensures marked { IsMarkedBehind (HasLeftAsMuch (world_of (mutex_guard_value entered.new.locked).log.armed.world)
        (world_of (mutex_guard_value entered.old.locked).log.armed.world))
        (AreMarked (owners_of marks.now) (node_of seats.old.marks) (known seats.new.marks)
        (world_of (mutex_guard_value entered.new.locked).log.armed.world)) (mutex_guard_value entered.new.locked).log.stopped }
{
    let NodeSeats {
        seat,
        marks: marks_seat,
    } = seats;
    let mut left = false;
    let turned = match take_turns(alloc, entered, seat, &mut left) {
        Ok(turned) => turned,
        Err(refusal) => {
            entered.refuse(refusal);
            Turned::Waits
        }
    };
    if left {
        if let Err(_) = raise_marks(entered, marks, marks_seat) {
            entered.refuse(Refusal::new(HubFault::NoMemory));
        }
    }
    turned
}

// Takes a node's turns by the seats at its desk, until a job is granted, nothing is to be done, or others have something to do. The job, if
// one was granted.
fn serve_node<C: SlotCell, O: Outlet, ThisRun: HubRun, ItsMarks: MarksName>(
    alloc: Global,
    entered: &mut Entered<'_, C, O, ThisRun>,
    marks: &Marks<ItsMarks>,
    desk: &mut Desk<ThisRun, ItsMarks>,
    node: u8,
) -> Option<Task<ThisRun, ItsMarks>> {
    let Some(mut seats) = desk.seats.take() else {
        entered.locked.rests(node);
        return None;
    };
    match take_marked_turns(alloc, entered, marks, &mut seats) {
        Turned::Granted(grant) => {
            let nth = entered.locked.workers.goes_out(node);
            return Some(Task::new(seats, nth, grant));
        }
        Turned::Acts { left: _ } => entered.locked.workers.rests(node, None),
        Turned::Waits => entered.locked.workers.rests(node, None),
        Turned::Rests => entered.locked.rests(node),
    }
    desk.seats = Some(seats);
    None
}

// What a node's thread does next.
enum Step<ThisRun: HubRun, ItsMarks: MarksName> {
    /// It runs this job.
    Run(Task<ThisRun, ItsMarks>),
    /// It takes the lock again, once there is something to do for it.
    GoOn,
    /// It ends, since the run is stopped.
    End(Over<ThisRun>),
}

// Who runs a job that was granted to a node while this thread is on duty. A short one this thread runs, and is on duty meanwhile; it is
// too short for another thread to be woken. One that may be long is the node's own thread's, and the others' turns go on meanwhile: by
// this thread, or, where it is its own, by one that it wakes as it leaves.
fn assign<C: SlotCell, O: Outlet, ThisRun: HubRun, ItsMarks: MarksName>(
    entered: &mut Entered<'_, C, O, ThisRun>,
    desk: &mut Desk<ThisRun, ItsMarks>,
    node: u8,
    own: u8,
    task: Task<ThisRun, ItsMarks>,
) -> Step<ThisRun, ItsMarks> {
    if task.is_short() {
        return Step::Run(task);
    }
    if node == own {
        entered.locked.workers.leaves_duty(own);
        return Step::Run(task);
    }
    match desk.task.replace(task) {
        None => {
            entered.locked.workers.gives_job(node);
            Step::GoOn
        }
        // A node has one seat, so one job of it is out at a time. If two were, this thread would run one of them.
        Some(former) => Step::Run(former),
    }
}

// Takes the turns of all nodes whose seats are at their desks, in ascending order, until a job is granted, nothing is to be done, or a
// round is over.
fn serve<C: SlotCell, O: Outlet, ThisRun: HubRun, ItsMarks: MarksName, R: Wait>(
    rt: &R,
    alloc: Global,
    entered: &mut Entered<'_, C, O, ThisRun>,
    marks: &Marks<ItsMarks>,
    desks: &mut Vec<Desk<ThisRun, ItsMarks>>,
    own: u8,
) -> Step<ThisRun, ItsMarks> {
    for _ in rt.forever() {
        let Some(node) = entered.locked.next_due() else {
            break;
        };
        let Some(desk) = desks.get_mut(usize::from(node)) else {
            break;
        };
        if let Some(task) = serve_node(alloc, entered, marks, desk, node) {
            return assign(entered, desk, node, own, task);
        }
        if entered.has_moved_on() {
            return Step::GoOn;
        }
    }
    entered.locked.workers.leaves_duty(own);
    Step::GoOn
}

// What a node's thread finds under the lock: a job that waits for it, the end of the run, or that it is on duty.
fn find_step<C: SlotCell, O: Outlet, ThisRun: HubRun, ItsMarks: MarksName, R: Wait>(
    rt: &R,
    alloc: Global,
    entered: &mut Entered<'_, C, O, ThisRun>,
    marks: &Marks<ItsMarks>,
    desks: &mut Vec<Desk<ThisRun, ItsMarks>>,
    own: u8,
) -> Step<ThisRun, ItsMarks> {
    if let Some(desk) = desks.get_mut(usize::from(own)) {
        if let Some(task) = desk.task.take() {
            entered.locked.workers.takes_job(own);
            return Step::Run(task);
        }
    }
    if let Some(over) = entered.over() {
        return Step::End(over);
    }
    serve(rt, alloc, entered, marks, desks, own)
}

// A stay under the lock, once there is something to do for a node's thread.
fn stay<C: SlotCell, O: Outlet, ThisRun: HubRun, ItsMarks: MarksName, R: Wait>(
    rt: &R,
    alloc: Global,
    hub: &Hub<C, O, ThisRun>,
    marks: &Marks<ItsMarks>,
    desks: &Desks<ThisRun, ItsMarks>,
    own: u8,
) -> Step<ThisRun, ItsMarks> {
    let mut entered = hub.enter_worker(rt, own);
    let mut open = desks.open(rt);
    let step = find_step(rt, alloc, &mut entered, marks, &mut open, own);
    drop(open);
    entered.leave();
    step
}

// What came of a job is brought back, and the seats of its node to their desk. The thread goes on duty, if nobody is.
fn bring_back<C: SlotCell, O: Outlet, ThisRun: HubRun, ItsMarks: MarksName, R: Wait>(
    rt: &R,
    alloc: Global,
    hub: &Hub<C, O, ThisRun>,
    desks: &Desks<ThisRun, ItsMarks>,
    own: u8,
    ran: Ran<ThisRun, ItsMarks>,
) {
    let node = ran.node();
    let mut entered = hub.enter(rt);
    let seats = ran.bring_back(alloc, &mut entered);
    let mut open = desks.open(rt);
    if let Some(desk) = open.get_mut(usize::from(node)) {
        desk.seats = Some(seats);
    }
    drop(open);
    entered.locked.workers.comes_back(node);
    entered.locked.workers.takes_duty(own);
    entered.leave();
}

// Runs a job outside the lock, and brings back what came of it.
fn run_task<C: SlotCell, O: Outlet, ThisRun: HubRun, ItsMarks: MarksName, W: JobWatch, R: Wait>(
    rt: &R,
    alloc: Global,
    hub: &Hub<C, O, ThisRun>,
    desks: &Desks<ThisRun, ItsMarks>,
    own: u8,
    watch: &W,
    task: Task<ThisRun, ItsMarks>,
) {
    let node = task.node();
    let nth = task.nth();
    watch.before_run(rt, node, nth);
    let ran = task.run(alloc);
    bring_back(rt, alloc, hub, desks, own, ran);
    watch.after_install(rt, node, nth);
}

/// Works as a node's thread until the run is stopped, and answers that it is. It runs the node's jobs outside the lock; and while it is on
/// duty, it takes the turns of all nodes whose seats are at their desks, raises the marks of what leaves, and runs their short jobs. Where
/// a call is refused, it stops the run for it. A job that was granted can't be lost: its type has it run, and what came of it taken in.
pub fn work<C: SlotCell, O: Outlet, ThisRun: HubRun, ItsMarks: MarksName, W: JobWatch, R: Wait>(
    rt: &R,
    alloc: Global,
    hub: &Hub<C, O, ThisRun>,
    marks: &Marks<ItsMarks>,
    desks: &Desks<ThisRun, ItsMarks>,
    own: u8,
    watch: &W,
) -> Over<ThisRun> {
    for _ in rt.forever() {
        match stay(rt, alloc, hub, marks, desks, own) {
            Step::Run(task) => run_task(rt, alloc, hub, desks, own, watch, task),
            Step::GoOn => {}
            Step::End(over) => return over,
        }
    }
    unreachable!()
}
