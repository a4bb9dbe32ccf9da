// How far processes are run again.

ghost use Rattle.std.specs.Prelude.{◌≡◌, ◌≤◌, IfOk};
ghost use Rattle.folder_status.specs.Endings.{limit_of, limits_from};
ghost use Rattle.folder_status.specs.declared.limits.TheConstants.{MOST_MORE};

use crate::kept::KeptOutput;
use ckpt_codec::MAX_RETAINED_ITEMS;
use kahn_net::Channel;
use std::alloc::{AllocError, Global};
use world::DEFAULT_ROOM;

/// So many items more than its file holds an output is let have at most.
pub const MOST_MORE: u64 = 1_048_576;

/// How many items may lie on a channel between two processes at first: as many as in a run that goes on.
pub(crate) fn first_room(channels: usize) -> u64 {
    (DEFAULT_ROOM as u64).min((MAX_RETAINED_ITEMS / channels.max(1)) as u64)
}

// The limit of a channel.
fn limit_of(kept: &[KeptOutput], inner: u64, more: u64, channel: usize) -> u64
    requires { more ≤ MOST_MORE }
    ensures { result ≡ limit_of kept.now inner more channel }
{
    for output in kept {
        if usize::from(output.channel) == channel {
            return output.items.len() as u64 + more;
        }
    }
    inner
}

/// By channel how far the processes are run: an output has so many items more than its file at most, and between two processes lie at most as
/// many as `inner` says.
pub(crate) fn list_limits(
    alloc: Global,
    channels: &[Channel],
    kept: &[KeptOutput],
    inner: u64,
    more: u64,
) -> Result<Vec<u64>, AllocError>
    requires { more ≤ MOST_MORE }
    ensures { IfOk result (λ limits. limits.items ≡ limits_from kept.now inner more 0 channels.now) }
{
    let mut limits = Vec::with_capacity(alloc, channels.len())?;
    for (number, _) in channels.iter().enumerate() {
        limits.push(limit_of(kept, inner, more, number))?;
    }
    Ok(limits)
}
