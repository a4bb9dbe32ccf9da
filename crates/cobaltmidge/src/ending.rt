//! Where a run ends.

ghost use Rattle.std.specs.Prelude.{◌≡◌, ◌≤◌, length, map};
ghost use Rattle.protocol.specs.Node.Common.{MAX_CHANNELS};
ghost use Rattle.protocol.specs.World.Common.{released_of, output_channels};
ghost use Rattle.world.specs.WholeView.{world_of};
ghost use Rattle.cobaltmidge.specs.Runs.{cut_at};

use kahn_net::Channel;
use outlet::Outlet;
use runtime::{Ended, have_left};
use sector_disk::MemDisk;
use slot_cell::SplitCell;
use world::World;

/// The world of a run: of nodes on disks in memory.
pub type RunWorld<O> = World<SplitCell<MemDisk>, O>;

/// What a run came to: such a world, what happened, where that was to be kept, and why the run ended.
pub type RunEnded<O> = Ended<SplitCell<MemDisk>, O>;

/// Where what has left is cut: at so many items, where that is asked for and each output has them.
pub fn cut<O: Outlet>(channels: &[Channel], world: &RunWorld<O>, items: Option<u64>) -> Option<u64>
    requires { length channels.now ≤ MAX_CHANNELS }
    ensures { result ≡ cut_at items
        (map (λ channel. released_of channel (world_of world.now).stations)
        (output_channels 0 channels.now)) }
{
    match items {
        Some(items) => {
            if have_left(channels, world, items) {
                Some(items)
            } else {
                None
            }
        }
        None => None,
    }
}
