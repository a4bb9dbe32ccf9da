//! A node restores an image.
ghost use Rattle.std.specs.Prelude.{◌≡◌, ◌<◌, ◌≤◌, map, IfOk};
ghost use Rattle.kahn_net.specs.Syntax.{network_of};
ghost use Rattle.record.specs.Ends.{received_of};
ghost use Rattle.record.specs.Moves.{with_epoch};
ghost use Rattle.protocol.specs.Node.Layout.{incoming_on, outgoing_on};
ghost use Rattle.protocol.specs.Node.Recovering.{restored_from, restored_inbox, restored_mode, restored_outbox, IsRestorable};
ghost use Rattle.rollback_core.specs.RestoredView.{recovery_mode, restored_view};
ghost use Rattle.kahn_net.specs.declared.limits.TheConstants.{MAX_COUNT};

use layout::{is_incoming, is_outgoing};
use net_check::Net;
use protocol::{Inbox, Outbox, WINDOW};
use record::{Image, Record};
use retained::Log;
use std::alloc::{AllocError, Global};
use window_link::{RecvWindow, SendWindow};

/// What a node has in memory that restored an image: where it stands, and its ends of channels between nodes, by their
/// numbers. Nothing has come since, and nothing is under way.
#[derive(Drop)]
pub struct Restored {
    pub current: Image,
    pub inboxes: Vec<Inbox>,
    pub outboxes: Vec<Outbox>,
}

/// How a node comes back.
#[derive(Drop)]
pub enum Recovery {
    /// It runs, from its permanent image.
    Running(Restored),
    /// It holds another's tentative image, and waits for the verdict.
    InDoubt,
}

// The inbox of a channel of which an image received so many items, in this epoch.
fn restored_inbox(
    alloc: Global,
    image: &Image,
    epoch: u64,
    channel: u8,
) -> Result<Inbox, AllocError>
    requires count { received_of image.now channel ≤ MAX_COUNT }
    requires epoch { epoch ≤ MAX_COUNT }
    ensures { IfOk result (λ inbox. inbox ≡ restored_inbox image.now epoch channel) }
{
    let next = image.received(channel);
    let mut window = RecvWindow::new(alloc, WINDOW)?;
    window.set_back(next, epoch);
    Ok(Inbox {
        channel,
        window,
        log: Log::starting_at(alloc, next),
        undone: 0,
    })
}

fn restored_outbox(image: &Image, channel: u8) -> Outbox
    ensures { result ≡ restored_outbox image.now channel }
{
    Outbox {
        channel,
        window: SendWindow::new(WINDOW),
        restored: image.sent(channel),
    }
}

fn restored_inboxes(
    alloc: Global,
    net: &Net,
    home: u8,
    image: &Image,
    epoch: u64,
) -> Result<Vec<Inbox>, AllocError>
    requires counts { IsRestorable image.now }
    requires epoch { epoch ≤ MAX_COUNT }
    ensures { IfOk result (λ inboxes. inboxes.items
        ≡ map (restored_inbox image.now epoch) (incoming_on (network_of net.now.program) home)) }
{
    let mut inboxes = Vec::with_capacity(alloc, net.program.channels.len())?;
    for channel in 0..net.program.channels.len() {
        if is_incoming(net, home, channel) {
            inboxes.push(restored_inbox(alloc, image, epoch, channel as u8)?)?;
        }
    }
    Ok(inboxes)
}

fn restored_outboxes(
    alloc: Global,
    net: &Net,
    home: u8,
    image: &Image,
) -> Result<Vec<Outbox>, AllocError>
    ensures { IfOk result (λ outboxes. outboxes.items
        ≡ map (restored_outbox image.now) (outgoing_on (network_of net.now.program) home)) }
{
    let mut outboxes = Vec::with_capacity(alloc, net.program.channels.len())?;
    for channel in 0..net.program.channels.len() {
        if is_outgoing(net, home, channel) {
            outboxes.push(restored_outbox(image, channel as u8))?;
        }
    }
    Ok(outboxes)
}

/// A node restores this image, in this epoch. Refuses for want of memory alone.
pub fn restore(
    alloc: Global,
    net: &Net,
    home: u8,
    image: &Image,
    epoch: u64,
) -> Result<Restored, AllocError>
    requires counts { IsRestorable image.now }
    requires epoch { epoch ≤ MAX_COUNT }
    ensures { IfOk result (λ restored. restored_view restored
        ≡ restored_from (network_of net.now.program) home image.now epoch) }
{
    Ok(Restored {
        current: image.copy(alloc)?,
        inboxes: restored_inboxes(alloc, net, home, image, epoch)?,
        outboxes: restored_outboxes(alloc, net, home, image)?,
    })
}

/// How a node with this record comes back in its next epoch. It waits for the verdict exactly where it holds another's
/// tentative image, and else runs from its permanent one; an image of its own, of which nothing was decided, it has no
/// more. Refuses for want of memory alone.
pub fn recover(alloc: Global, net: &Net, home: u8, kept: &Record) -> Result<Recovery, AllocError>
    requires counts { IsRestorable kept.now.permanent }
    requires epoch { kept.now.epoch < MAX_COUNT }
    ensures { IfOk result (λ recovery. recovery_mode recovery
        ≡ restored_mode (network_of net.now.program) home (with_epoch kept.now)) }
{
    match &kept.tentative {
        Some(held) if held.initiator != kept.node => Ok(Recovery::InDoubt),
        _ => Ok(Recovery::Running(restore(alloc, net, home, &kept.permanent, kept.epoch + 1)?)),
    }
}
