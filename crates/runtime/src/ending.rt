// What a run came to, and why it ended.
ghost use Rattle.std.specs.Prelude.{◌≡◌, ◌≤◌, [], if◌then◌else◌, true, nat_le, not, length, map, OnErr, OnOk};
ghost use Rattle.std.specs.List.{list_all};
ghost use Rattle.protocol.specs.Node.Common.{MAX_CHANNELS};
ghost use Rattle.protocol.specs.World.Common.{are_quiet, released_of, goes_outside, output_channels};
ghost use Rattle.run_log.specs.Lines.{happenings};
ghost use Rattle.runtime.specs.Causes.{is_caused};
ghost use Rattle.runtime.specs.Ending.{IsOver, goes_on, is_over, was_refused};
ghost use Rattle.runtime.specs.declared.ending.RunEnd.TheVariants.{Refused, Stopped};
ghost use Rattle.world.specs.WholeView.{world_of};

use crate::bounds::{Bounds, RunBounds};
use crate::cause::Cause;
use crate::hub_run::HubRun;
use kahn_net::{Channel, Port};
use outlet::Outlet;
use run_log::{History, HubFault};
use slot_cell::SlotCell;
use std::alloc::Global;
use world::World;

/// Why a run ended.
#[derive(Clone, Copy, Debug, PartialEq, Eq)]
pub enum RunEnd {
    /// Nothing is left to do.
    Complete,
    /// The rounds are over.
    Rounds,
    /// Each output has the items that are asked for.
    Items,
    /// A call was refused.
    Refused(HubFault),
    /// Somebody stopped it before any of these, who may: who watches it, or by a call of `Hub::stop`.
    Stopped,
}

impl RunEnd {
    /// Whether it is none of the reasons for which a run is over.
    pub(crate) fn goes_on(self) -> bool
        ensures { result ≡ goes_on self }
    {
        match self {
            RunEnd::Stopped => true,
            RunEnd::Complete | RunEnd::Rounds | RunEnd::Items | RunEnd::Refused(_) => false,
        }
    }
}

/// Why a run by threads ended, by whether a call of the driver was refused, and else by the cause for which it is stopped.
pub(crate) fn end_for<C: SlotCell, O: Outlet, ThisRun: HubRun>(
    run: &RunBounds<'_, ThisRun>,
    world: &World<C, O>,
    driven: Result<(), HubFault>,
    cause: Option<Cause>,
) -> RunEnd
    requires caused { OnOk driven (is_caused (is_over ThisRun.channels ThisRun.bounds) ThisRun.may_stop
        (world_of world.now) cause ≡ true) }
    ensures over { IsOver ThisRun.channels ThisRun.bounds (world_of world.now) result }
    ensures stopped { result ≡ Stopped → ThisRun.may_stop ≡ true }
    ensures refused { OnErr driven (was_refused result ≡ true) }
{
    if let Err(fault) = driven {
        return RunEnd::Refused(fault);
    }
    match cause {
        Some(Cause::Over) | Some(Cause::Asked) => end_of(run.channels, world, run.bounds),
        Some(Cause::Refused(fault)) => RunEnd::Refused(fault),
        // A run that is stopped is so for a cause.
        None => unreachable!(),
    }
}

/// What a run came to: its world, the history that leads to it, and why it ended.
#[derive(Drop)]
pub struct Ended<C: SlotCell, O: Outlet> {
    pub world: World<C, O>,
    pub history: History,
    pub end: RunEnd,
}

impl<C: SlotCell, O: Outlet> Ended<C, O> {
    /// A run that didn't begin.
    pub(crate) fn unbegun(alloc: Global, world: World<C, O>, fault: HubFault) -> Ended<C, O>
        ensures same { result.world ≡ world }
        ensures none { happenings result.history.lines.items ≡ [] }
        ensures refused { result.end ≡ Refused fault }
    {
        Ended {
            world,
            history: History {
                lines: Vec::new(alloc),
                stops: 0,
            },
            end: RunEnd::Refused(fault),
        }
    }
}

// Whether so many items have left by a channel, if its items go outside.
fn has_left<C: SlotCell, O: Outlet>(
    number: u8,
    channel: &Channel,
    world: &World<C, O>,
    items: u64,
) -> bool
    ensures { result ≡ (if goes_outside channel.now.consumer
        then nat_le items (length (released_of number (world_of world.now).stations))
        else true) }
{
    match channel.consumer {
        Port::Outside => items <= world.released(number).len() as u64,
        Port::Process(_) => true,
    }
}

/// Whether so many items have left by each output.
pub fn have_left<C: SlotCell, O: Outlet>(
    channels: &[Channel],
    world: &World<C, O>,
    items: u64,
) -> bool
    requires { length channels.now ≤ MAX_CHANNELS }
    ensures { result ≡ list_all (λ stream. nat_le items (length stream))
        (map (λ channel. released_of channel (world_of world.now).stations)
        (output_channels 0 channels.now)) }
{
    for (number, channel) in channels.iter().enumerate() {
        if !has_left(number as u8, channel, world, items) {
            return false;
        }
    }
    true
}

/// Why a run is over, or that it isn't (`Stopped`), where it is known whether nothing is left to do.
pub(crate) fn end_by<C: SlotCell, O: Outlet>(
    channels: &[Channel],
    world: &World<C, O>,
    bounds: Bounds,
    complete: bool,
) -> RunEnd
    requires few { length channels.now ≤ MAX_CHANNELS }
    requires complete { complete ≡ are_quiet (world_of world.now) }
    ensures over { IsOver channels.now bounds (world_of world.now) result }
    ensures exact { goes_on result ≡ not (is_over channels.now bounds (world_of world.now)) }
{
    if complete {
        return RunEnd::Complete;
    }
    if bounds.rounds <= world.round() {
        return RunEnd::Rounds;
    }
    match bounds.items {
        Some(items) => {
            if have_left(channels, world, items) {
                RunEnd::Items
            } else {
                RunEnd::Stopped
            }
        }
        None => RunEnd::Stopped,
    }
}

/// Why a run ended of which no call was refused: asked of the world to which it came.
pub fn end_of<C: SlotCell, O: Outlet>(
    channels: &[Channel],
    world: &World<C, O>,
    bounds: Bounds,
) -> RunEnd
    requires { length channels.now ≤ MAX_CHANNELS }
    ensures over { IsOver channels.now bounds (world_of world.now) result }
    // That a run was stopped is told only where none of the other reasons is so.
    ensures exact { goes_on result ≡ not (is_over channels.now bounds (world_of world.now)) }
{
    end_by(channels, world, bounds, world.complete())
}
