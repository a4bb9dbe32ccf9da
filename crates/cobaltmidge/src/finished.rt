//! What a run came to.

ghost use Rattle.std.specs.Prelude.{◌≡◌, ℕ, IsTrue, MatchOption};
ghost use Rattle.protocol.specs.World.Common.{are_quiet, released_of};
ghost use Rattle.protocol.specs.World.Quiet.{AreWhole};
ghost use Rattle.world.specs.WholeView.{world_of};
ghost use Rattle.cobaltmidge.specs.Names.{IsOutputNamed};

use crate::ending::RunWorld;
use crate::network::Network;
use crate::reason::{Reason, reason_of};
use crate::settings::Settings;
use outlet::Outlet;
use runtime::{History, RunEnd};

/// What a run came to: the world at its end, of which what left is the same for good. `World::apply` would go on from there, and
/// `World::close` hands out disks and outlets.
#[derive(Drop)]
pub struct Finished<'a, O: Outlet> {
    pub network: &'a Network,
    pub world: RunWorld<O>,
    /// What happened, where that was to be kept (`Run::history`), and else nothing. `write_history` makes a text of it.
    pub history: History,
    /// Why it ended.
    pub end: RunEnd,
    /// How it went.
    pub settings: Settings,
}

impl<'a, O: Outlet> Finished<'a, O> {
    /// What has left by the output of this name, in order, if there is one.
    pub fn output(&self, name: &str) -> Option<&[i64]>
        ensures { MatchOption result
            ((number : ℕ) → IsOutputNamed self.now.network.now.net.value name.now number → ⊥)
            (λ items. (number : ℕ) × IsOutputNamed self.now.network.now.net.value name.now number
            × (items.now ≡ released_of number (world_of self.now.world).stations)) }
    {
        match self.network.output(name) {
            Some(channel) => Some(self.world.released(channel)),
            None => None,
        }
    }

    /// Whether nothing is left to do.
    pub fn complete(&self) -> bool
        ensures quiet { result ≡ are_quiet (world_of self.now.world) }
        // And then each stream that has left is its channel's whole history, in the network's least solution.
        ensures whole { IsTrue result → AreWhole (world_of self.now.world) }
    {
        self.world.complete()
    }

    /// Why it ended, in words and with numbers.
    pub fn reason(&self) -> Reason<'_> {
        reason_of(&self.network.net, &self.world, self.end, self.settings)
    }
}
