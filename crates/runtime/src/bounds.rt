// Where a run ends.
ghost use Rattle.std.specs.Prelude.{◌≡◌, ◌≤◌, length};
ghost use Rattle.protocol.specs.Node.Common.{MAX_CHANNELS};

use crate::hub_run::HubRun;
use kahn_net::Channel;
use std::marker::PhantomData;

/// Where a run ends: after so many rounds, or once so many items of each output have left.
#[derive(Clone, Copy, Debug, PartialEq, Eq)]
pub struct Bounds {
    pub rounds: u64,
    pub items: Option<u64>,
}

/// The bounds of a run, and the channels of its network, of which its outputs are some.
#[derive(Drop)]
pub struct RunBounds<'net, ThisRun: HubRun> {
    pub channels: &'net [Channel],
    pub bounds: Bounds,
    pub of: PhantomData<ThisRun>,
    pub ghost few: { length channels.now ≤ MAX_CHANNELS },
    pub ghost same: { (channels.now ≡ ThisRun.channels) × (bounds ≡ ThisRun.bounds) },
}

impl<'net, ThisRun: HubRun> RunBounds<'net, ThisRun> {
    /// Those of this run.
    pub fn new(channels: &'net [Channel], bounds: Bounds) -> RunBounds<'net, ThisRun>
        requires few { length channels.now ≤ MAX_CHANNELS }
        requires channels { channels.now ≡ ThisRun.channels }
        requires bounds { bounds ≡ ThisRun.bounds }
        ensures same { (result.channels ≡ channels.entry) × (result.bounds ≡ bounds) }
    {
        RunBounds {
            channels,
            bounds,
            of: PhantomData,
        }
    }
}
