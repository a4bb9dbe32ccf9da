// A run that goes on, as who watches it has it.

use crate::hub_run::HubRun;
use crate::seen::Seen;
use crate::threads::SharedRun;
use marks::{MarksName, Seat};
use net_check::Net;
use outlet::Outlet;
use slot_cell::SlotCell;
use std::sync::Wait;
use std::time::{Clock, Duration};

/// A run that goes on: whoever has this reads how many items have left, and may stop the run.
pub trait RunHandle {
    ghost use Rattle.std.specs.Prelude.{◌≡◌, ◌≢◌, ◌≤◌, ◌⊎◌, ℕ, Bool, true, List, Option, None, IsSome};
    ghost use Rattle.std.specs.List.{Contains};
    ghost use Rattle.marks.specs.Known.{BeginsWith, greatest};
    ghost use Rattle.marks.specs.Owners.{owner_at};

    /// Whether the run may be stopped by this.
    ghost may_stop: { Bool };

    /// The owner of each channel: of an output its node.
    ghost owners: { Self → List (Option ℕ) };

    /// The numbers of items that left by a channel, in order, as far as this was told.
    ghost told: { Self → ℕ → List ℕ };

    /// How many items have left by an output, as its node last said: 0 where the channel is no output, and as long as none has left
    /// in this run. It is never less than what this read there before, and rises no more once the run is over. It waits for nobody.
    fn left(&mut self, channel: u8) -> u64
        ensures no_output { owner_at (owners self.old) channel ≡ None → result ≡ 0 }
        ensures was_raised { (result ≡ 0) ⊎ Contains (told self.new channel) result }
        ensures is_greatest { IsSome (owner_at (owners self.old) channel)
            → result ≡ greatest (told self.new channel) }
        ensures rises { IsSome (owner_at (owners self.old) channel)
            → greatest (told self.old channel) ≤ result }
        ensures grows { BeginsWith (told self.new channel) (told self.old channel) }
        ensures others { (other : ℕ) → other ≢ channel
            → told self.new other ≡ told self.old other }
        ensures same { owners self.new ≡ owners self.old };

    /// The network.
    fn net(&self) -> &Net;

    /// The round.
    fn round<R: Wait>(&self, rt: &R) -> u64;

    /// Whether the run is over: no turn and no line of the script makes an event any more.
    fn is_over<R: Wait>(&self, rt: &R) -> bool;

    /// Ends the run, where it may be stopped by this. What comes of a job that is out is taken in all the same.
    fn stop<R: Wait>(&self, rt: &R)
        requires { may_stop ≡ true };

    /// Sleeps until the run has moved on since the last call: an item has left, a round began, a line of the script was passed,
    /// channels got more room, or the run is over. Whether it goes on. The first call doesn't sleep.
    fn wait_for_news<R: Wait>(&mut self, rt: &R) -> bool
        ensures others { (channel : ℕ) → told self.new channel ≡ told self.old channel }
        ensures same { owners self.new ≡ owners self.old };

    /// Sleeps until the run is over, and at most so long. It may wake earlier. Whether the run goes on.
    fn wait_for_end<R: Wait + Clock>(&self, rt: &R, at_most: Duration) -> bool;
}

/// The threads' run, with a seat that reads its marks.
#[derive(Drop)]
pub(crate) struct Watched<'run, C: SlotCell, O: Outlet, ThisRun: HubRun, ItsMarks: MarksName> {
    shared: &'run SharedRun<C, O, ThisRun, ItsMarks>,
    seat: Seat<ItsMarks>,
    net: &'run Net,
    // How the hub stood when it was last waited for news.
    seen: Option<Seen>,
}

impl<'run, C: SlotCell, O: Outlet, ThisRun: HubRun, ItsMarks: MarksName> Watched<
    'run,
    C,
    O,
    ThisRun,
    ItsMarks,
> {
    pub(crate) fn new(
        shared: &'run SharedRun<C, O, ThisRun, ItsMarks>,
        seat: Seat<ItsMarks>,
        net: &'run Net,
    ) -> Watched<'run, C, O, ThisRun, ItsMarks> {
        Watched {
            shared,
            seat,
            net,
            seen: None,
        }
    }
}

impl<C: SlotCell, O: Outlet, ThisRun: HubRun, ItsMarks: MarksName> RunHandle
    for Watched<'_, C, O, ThisRun, ItsMarks> {
    ghost use Rattle.marks.specs.Seats.{known, owners_of};

    ghost may_stop = { ThisRun.may_stop };

    ghost owners = { λ run. owners_of run.shared.now.marks };

    ghost told = { λ run. known run.seat };

    fn left(&mut self, channel: u8) -> u64 {
        let shared = self.shared;
        shared.marks.read(&mut self.seat, channel)
    }

    fn net(&self) -> &Net {
        self.net
    }

    fn round<R: Wait>(&self, rt: &R) -> u64 {
        self.shared.hub.enter(rt).round()
    }

    fn is_over<R: Wait>(&self, rt: &R) -> bool {
        self.shared.hub.enter(rt).is_stopped()
    }

    fn stop<R: Wait>(&self, rt: &R) {
        self.shared.hub.stop(rt);
    }

    fn wait_for_news<R: Wait>(&mut self, rt: &R) -> bool {
        let shared = self.shared;
        let entered = shared.hub.enter_watch(rt, self.seen);
        let seen = entered.seen();
        let goes_on = !entered.is_stopped();
        drop(entered);
        self.seen = Some(seen);
        goes_on
    }

    fn wait_for_end<R: Wait + Clock>(&self, rt: &R, at_most: Duration) -> bool {
        !self.shared.hub.enter_end(rt, at_most).is_stopped()
    }
}
