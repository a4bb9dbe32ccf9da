//! What a run came to of which what left is kept in a folder.

ghost use Rattle.std.specs.Prelude.{◌≡◌, ℕ, ◌≤◌, IfOk, MatchOption, Some, length, slice_get};
ghost use Rattle.protocol.specs.Node.Common.{MAX_CHANNELS};
ghost use Rattle.world.specs.WholeView.{world_of};
ghost use Rattle.cobaltmidge.specs.Released.{AreReleased, lists_of};
ghost use Rattle.cobaltmidge.specs.Names.{IsOutputNamed};

use crate::ending::RunWorld;
use crate::network::Network;
use crate::reason::Reason;
use outlet::Outlet;
use runtime::{History, RunEnd};
use std::alloc::{AllocError, Global};

/// What a run came to of which what left is kept in a folder. Its files are closed, and the folder's lock is let go of.
#[derive(Drop)]
pub struct KeptRun<'a> {
    pub network: &'a Network,
    /// For each channel what has left by it; nothing for one that is no output.
    pub lists: Vec<Vec<i64>>,
    /// Whether nothing is left to do.
    pub complete: bool,
    /// What happened, where that was to be kept (`Run::history`), and else nothing.
    pub history: History,
    /// Why it ended.
    pub end: RunEnd,
    /// The same in words and with numbers.
    pub reason: Reason<'a>,
    pub ghost each: { length lists.items ≡ length network.now.net.value.program.channels.items },
}

impl<'a> KeptRun<'a> {
    /// What has left by the output of this name, in order, if there is one.
    pub fn output(&self, name: &str) -> Option<&[i64]>
        ensures { MatchOption result
            ((number : ℕ) → IsOutputNamed self.now.network.now.net.value name.now number → ⊥)
            (λ items. (number : ℕ) × IsOutputNamed self.now.network.now.net.value name.now number
            × (slice_get (lists_of self.now.lists.items) number ≡ Some items.now)) }
    {
        let Some(channel) = self.network.output(name) else {
            return None;
        };
        Some(self.lists[usize::from(channel)].as_slice())
    }
}

/// What has left by each channel.
pub(crate) fn lists_of<O: Outlet>(
    alloc: Global,
    world: &RunWorld<O>,
    channels: usize,
) -> Result<Vec<Vec<i64>>, AllocError>
    requires { channels ≤ MAX_CHANNELS }
    ensures each { IfOk result (λ lists. length lists.items ≡ channels) }
    ensures released { IfOk result (λ lists. AreReleased channels (world_of world.now) (lists_of lists.items)) }
{
    let mut lists = Vec::new(alloc);
    for channel in 0..channels {
        lists.push(Vec::from_slice(alloc, world.released(channel as u8))?)?;
    }
    Ok(lists)
}
