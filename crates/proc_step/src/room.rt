//! What is sent in a turn, and the room for it.

ghost use Rattle.std.specs.Prelude.{◌≡◌, ◌↔◌, ◌<◌, IsTrue, IfOk, OnOk, length, slice_index, slice_set, [], ◌∷◌, ◌++◌};
ghost use Rattle.kahn_net.specs.Common.{history_of};
ghost use Rattle.proc_step.specs.Turns.{nothing_sent};

use kahn_net::History;
use std::alloc::{AllocError, Global};

/// Nothing sent yet on any channel.
pub fn empty_histories(alloc: Global, room: &[usize]) -> Result<Vec<History>, AllocError>
    ensures { IfOk result (λ sent. sent.items ≡ nothing_sent room.now) }
{
    let mut sent = Vec::new(alloc);
    for _ in room {
        sent.push(History::new(alloc))?;
    }
    Ok(sent)
}

/// Whether a channel has room for one more item.
pub fn has_room(sent: &[History], room: &[usize], channel: usize) -> bool
    requires { length sent.now ≡ length room.now }
    ensures { IsTrue result ↔ (length (history_of sent.now channel)
        < slice_index room.now channel) }
{
    if channel < room.len() {
        let items = &sent[channel];
        items.len() < room[channel]
    } else {
        false
    }
}

/// Sends an item on a channel.
pub fn send(sent: &mut [History], channel: usize, item: i64) -> Result<(), AllocError>
    requires { channel < length sent.old }
    ensures { OnOk result (sent.new
        ≡ slice_set sent.old channel (history_of sent.old channel ++ item ∷ [])) }
{
    let items = &mut sent[channel];
    items.push(item)
}
