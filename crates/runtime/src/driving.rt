// What the driver's thread does at the hub.
ghost use Rattle.std.specs.Prelude.{◌≡◌, ◌<◌, [], true, false, Err, IsTrue, OnOk};
ghost use Rattle.run_log.specs.ArmedWorlds.{armed_view};
ghost use Rattle.run_log.specs.RunLogs.{happened_in};
ghost use Rattle.run_log.specs.SeatCounts.{seat_numbers, seat_parts};
ghost use Rattle.run_log.specs.declared.answer.FaultAnswer.TheVariants as faults;
ghost use Rattle.std.proofs.Props.{props};
ghost use Rattle.runtime.specs.Beginning.{first_lines, BeginsByDriver};
ghost use Rattle.runtime.specs.Turning.{ArePassed, progress, was_passed};

use crate::bounds::{Bounds, RunBounds};
use crate::hub::Hub;
use crate::hub_run::HubRun;
use crate::over::Over;
use crate::refusal::Refusal;
use crate::seat::{DriverSeat, fault};
use crate::seen::Seen;
use crate::until::Until;
use kahn_net::{Channel, Port};
use marks::{Marks, MarksName, Seat};
use outlet::Outlet;
use replay::ScriptedEvent;
use run_log::{FaultAnswer, HubFault, Run, RunLog, SeatCount};
use slot_cell::SlotCell;
use std::alloc::Global;
use std::sync::Wait;

// How many items have to leave at least until so many of each output have, as the marks tell it. None where no number is asked for.
fn count_missing<ItsMarks: MarksName>(
    channels: &[Channel],
    marks: &Marks<ItsMarks>,
    seat: &mut Seat<ItsMarks>,
    items: Option<u64>,
) -> Option<u64> {
    let items = items?;
    let mut missing: u64 = 0;
    for (number, channel) in channels.iter().enumerate() {
        if let Port::Outside = channel.consumer {
            let left = match u8::try_from(number) {
                Ok(number) => marks.read(seat, number),
                // (A network has at most 256 channels.)
                Err(_) => 0,
            };
            missing = missing.saturating_add(items.saturating_sub(left));
        }
    }
    Some(missing)
}

/// How many lines at a script's head are of round 0.
pub(crate) fn first_lines(script: &[ScriptedEvent]) -> usize
    ensures { result ≡ first_lines script.now }
{
    for (number, line) in script.iter().enumerate() {
        if line.round > 0 {
            return number;
        }
    }
    script.len()
}

// Whether a line was passed.
fn was_passed(answer: &FaultAnswer) -> bool
    ensures { result ≡ was_passed answer.now }
{
    match answer {
        FaultAnswer::Reply(_) => true,
        FaultAnswer::NotYet | FaultAnswer::NoMore | FaultAnswer::Stopped => false,
    }
}

// Whether the answer is that the run is stopped.
fn is_stopped(answer: &FaultAnswer) -> bool
    ensures { IsTrue result → answer.now ≡ faults.Stopped }
{
    match answer {
        FaultAnswer::Stopped => true,
        FaultAnswer::Reply(_) | FaultAnswer::NotYet | FaultAnswer::NoMore => false,
    }
}

/// Makes the events of the script's lines of round 0, of which there are so many, in a log in which nothing is written yet, for a seat
/// that made so many events.
pub(crate) fn begin<C: SlotCell, O: Outlet, ThisRun: Run>(
    alloc: Global,
    log: &mut RunLog<C, O, ThisRun>,
    made: &mut u64,
    count: &mut SeatCount<ThisRun>,
    lines: usize,
) -> Result<(), HubFault>
    requires part { 0 < seat_parts count.old }
    requires counts { made.old ≡ (seat_numbers count.old).entries }
    requires none { happened_in log.old ≡ [] }
    requires running { log.old.stopped ≡ false }
    requires unpassed { log.old.passed ≡ 0 }
    requires lines { lines ≡ first_lines ThisRun.script }
    ensures parts { seat_parts count.new ≡ seat_parts count.old }
    ensures counts { made.new ≡ (seat_numbers count.new).entries }
    ensures running { log.new.stopped ≡ false }
    ensures begun { OnOk result (ThisRun.keeps ≡ true → BeginsByDriver lines (happened_in log.new)) }
    ensures passed { OnOk result (ArePassed ThisRun.rooms ThisRun.script lines
        (progress (armed_view log.old.armed) 0) (progress (armed_view log.new.armed) log.new.passed)) }
{
    for _line in 0..lines {
        let answer = fault(alloc, log, made, count)?;
        if !was_passed(&answer) {
            // A line of round 0 is due from the beginning on.
            unreachable!();
        }
    }
    Ok(())
}

// What the driver waits for behind a line: the round of the next one, the last round, and where items are asked for, that as many have
// left as are missing.
fn wait_until(next: Option<u64>, bounds: Bounds, seen: Seen, missing: Option<u64>) -> Until {
    let round = match next {
        Some(round) => round.min(bounds.rounds),
        None => bounds.rounds,
    };
    let left = match missing {
        Some(missing) => Some(seen.left.saturating_add(missing)),
        None => None,
    };
    Until { round, left }
}

// Goes through the script until the run is stopped, which it is told by its seat.
fn go_through<C: SlotCell, O: Outlet, ThisRun: HubRun, ItsMarks: MarksName, R: Wait>(
    rt: &R,
    alloc: Global,
    hub: &Hub<C, O, ThisRun>,
    seat: &mut DriverSeat<ThisRun>,
    marks: &Marks<ItsMarks>,
    marks_seat: &mut Seat<ItsMarks>,
    run: &RunBounds<'_, ThisRun>,
) -> Result<Over<ThisRun>, Refusal>
    ensures told { OnOk result (0 < (seat_numbers seat.new.count).stops) }
{
    let bounds = run.bounds;
    let mut until = Until::now();
    let mut all_left = false;
    for _ in rt.forever() {
        let mut entered = hub.enter_driver(rt, until);
        if all_left {
            entered.end_if_over(run);
        }
        let answer = match entered.fault(alloc, seat) {
            Ok(answer) => answer,
            Err(fault) => return Err(Refusal::new(fault)),
        };
        let over = entered.over();
        let next = entered.line_round();
        let seen = entered.leave();
        if let Some(over) = over {
            if is_stopped(&answer) {
                return Ok(over);
            }
        }
        let missing = count_missing(run.channels, marks, marks_seat, bounds.items);
        all_left = missing == Some(0);
        until = if all_left || was_passed(&answer) {
            Until::now()
        } else {
            wait_until(next, bounds, seen, missing)
        };
    }
    unreachable!()
}

/// The driver's seat once the run is stopped, and whether a call was refused before.
#[derive(Drop)]
pub struct Driven<ThisRun: HubRun> {
    pub seat: DriverSeat<ThisRun>,
    pub end: Result<(), HubFault>,
    pub over: Over<ThisRun>,
    // Where none was, it was told that the run is stopped.
    pub ghost told: { OnOk end (0 < (seat_numbers seat.count).stops) } by { Prim.hlevel props },
}

impl<ThisRun: HubRun> Driven<ThisRun> {
    /// That of a driver of whom a call was refused, or who doesn't drive at all. The run is stopped for it.
    pub(crate) fn refused<C: SlotCell, O: Outlet, R: Wait>(
        rt: &R,
        hub: &Hub<C, O, ThisRun>,
        seat: DriverSeat<ThisRun>,
        refusal: Refusal,
    ) -> Driven<ThisRun>
        ensures { result.end ≡ Err refusal.fault }
    {
        let (fault, over) = hub.refuse(rt, refusal);
        Driven {
            seat,
            end: Err(fault),
            over,
        }
    }
}

/// The driver's work: the script's lines, each once its round has come, until the run is stopped. It stops it where its rounds are over, and where
/// each output has the items that are asked for; and where a call of its own is refused.
pub fn drive<C: SlotCell, O: Outlet, ThisRun: HubRun, ItsMarks: MarksName, R: Wait>(
    rt: &R,
    alloc: Global,
    hub: &Hub<C, O, ThisRun>,
    seat: DriverSeat<ThisRun>,
    marks: &Marks<ItsMarks>,
    marks_seat: &mut Seat<ItsMarks>,
    run: &RunBounds<'_, ThisRun>,
) -> Driven<ThisRun> {
    let mut seat = seat;
    match go_through(rt, alloc, hub, &mut seat, marks, marks_seat, run) {
        Ok(over) => Driven {
            seat,
            end: Ok(()),
            over,
        },
        Err(refusal) => Driven::refused(rt, hub, seat, refusal),
    }
}
