// What comes of a channel, or of what is said of one.
ghost use Rattle.std.specs.Prelude.{◌≡◌, ◌<◌, length, IfSome, OnErr, OnOk};
ghost use Rattle.protocol.specs.Node.Common.{taking};
ghost use Rattle.protocol.specs.Node.Delivering.{acknowledged, changed_at, inbox_place, outbox_place};

use crate::popping::take_next;
use kahn_net::MAX_COUNT;
use protocol::{Inbox, MAX_INBOX_ITEMS, Outbox};
use std::alloc::AllocError;
use window_link::Arrival;

// An item of a position came to an inbox. While there is no place for it, its window doesn't see it.
fn take_item(inbox: &mut Inbox, position: u64, item: i64) -> Result<(), AllocError>
    ensures ok { OnOk result (inbox.new ≡ taking position item inbox.old) }
    ensures err { OnErr result (inbox.new ≡ inbox.old) }
{
    if inbox.log.len() >= MAX_INBOX_ITEMS || inbox.log.end() >= MAX_COUNT {
        return Ok(());
    }
    if let Arrival::Taken = inbox.window.arrival(position) {
        return take_next(inbox, position, item);
    }
    inbox.window.take(position, item);
    Ok(())
}

// The place of the inbox of a channel.
fn inbox_place(inboxes: &[Inbox], channel: u16) -> Option<usize>
    ensures place { result ≡ inbox_place inboxes.now channel }
    ensures below { IfSome result (λ place. place < length inboxes.now) }
{
    inboxes
        .iter()
        .position(|inbox| u16::from(inbox.channel) == channel)
}

// The place of the window of a channel that goes to another node.
fn outbox_place(outboxes: &[Outbox], channel: u16) -> Option<usize>
    ensures place { result ≡ outbox_place outboxes.now channel }
    ensures below { IfSome result (λ place. place < length outboxes.now) }
{
    outboxes
        .iter()
        .position(|outbox| u16::from(outbox.channel) == channel)
}

/// An item of a channel came. It is taken where it is the next one, with those that were held behind it, and held where it
/// overtook others. It is dropped where it came before, lies past the window, where there is no place for it, and where
/// no such channel comes to the node.
pub(crate) fn hear_item(
    inboxes: &mut [Inbox],
    channel: u16,
    position: u64,
    item: i64,
) -> Result<(), AllocError>
    ensures ok { OnOk result (inboxes.new ≡ changed_at (taking position item) inboxes.old
        (inbox_place inboxes.old channel)) }
    ensures err { OnErr result (inboxes.new ≡ inboxes.old) }
{
    match inbox_place(inboxes, channel) {
        Some(place) => {
            take_item(&mut inboxes[place], position, item)?;
            Ok(())
        }
        None => Ok(()),
    }
}

/// An acknowledgement came of a channel that goes to another node.
pub(crate) fn hear_acknowledgement(outboxes: &mut [Outbox], channel: u16, epoch: u64, next: u64)
    ensures { outboxes.new ≡ changed_at (acknowledged epoch next) outboxes.old
        (outbox_place outboxes.old channel) }
{
    if let Some(place) = outbox_place(outboxes, channel) {
        outboxes[place].window.on_ack(epoch, next);
    }
}
