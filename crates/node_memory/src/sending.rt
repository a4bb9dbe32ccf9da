// What a node sends to the others.
ghost use Rattle.std.specs.Prelude.{◌≡◌, ◌+◌, ◌<◌, ◌≤◌, ◌++◌, length, map, IfOk, OnOk};
ghost use Rattle.std.specs.List.{flat_map};
ghost use Rattle.protocol.specs.Node.Common.{network_of, first_due, inbox_packets, MAX_COUNT};
ghost use Rattle.protocol.specs.Node.Telling.{undone_packet, undone_packets};
ghost use Rattle.protocol.specs.Node.Sending.{data_packets, items_due, outbox_packets};

use datagram::{Body, Packet};
use layout::{consumer_node, producer_node};
use net_check::Net;
use protocol::{Inbox, Outbox};
use record::Image;
use retained::Log;
use std::alloc::{AllocError, Global};

// Adds what is said of a channel from another node.
fn add_answers(
    packets: &mut Vec<Packet>,
    net: &Net,
    home: u8,
    permanent: &Image,
    inbox: &Inbox,
) -> Result<(), AllocError>
    ensures { OnOk result (packets.new.items ≡ packets.old.items
        ++ inbox_packets (network_of net.now.program) home permanent.now inbox.now) }
{
    let to = producer_node(net, usize::from(inbox.channel));
    let channel = u16::from(inbox.channel);
    let ack = inbox.window.ack();
    packets.push(Packet {
        from: home,
        to,
        body: Body::Ack {
            channel,
            epoch: ack.epoch,
            next: ack.next,
        },
    })?;
    packets.push(Packet {
        from: home,
        to,
        body: Body::Kept {
            channel,
            count: permanent.received(inbox.channel),
        },
    })?;
    Ok(())
}

// How much of a channel to another node the image had put that the node restored, in this epoch.
fn undone_packet(net: &Net, home: u8, epoch: u64, outbox: &Outbox) -> Packet
    ensures { result ≡ undone_packet (network_of net.now.program) home epoch outbox.now }
{
    Packet {
        from: home,
        to: consumer_node(net, usize::from(outbox.channel)),
        body: Body::Undone {
            channel: u16::from(outbox.channel),
            epoch,
            sent: outbox.restored,
        },
    }
}

fn add_undone(
    packets: &mut Vec<Packet>,
    net: &Net,
    home: u8,
    epoch: u64,
    outboxes: &[Outbox],
) -> Result<(), AllocError>
    ensures { OnOk result (packets.new.items ≡ packets.old.items
        ++ map (undone_packet (network_of net.now.program) home epoch) outboxes.now) }
{
    for outbox in outboxes {
        packets.push(undone_packet(net, home, epoch, outbox))?;
    }
    Ok(())
}

/// Adds what is said of each channel to another node by a node that restored an image, in this epoch: nothing in the first.
pub(crate) fn add_all_undone(
    packets: &mut Vec<Packet>,
    net: &Net,
    home: u8,
    epoch: u64,
    outboxes: &[Outbox],
) -> Result<(), AllocError>
    ensures { OnOk result (packets.new.items ≡ packets.old.items
        ++ undone_packets (network_of net.now.program) home epoch outboxes.now) }
{
    if epoch == 0 {
        return Ok(());
    }
    add_undone(packets, net, home, epoch, outboxes)
}

// Adds these items of a channel, the first one of this position.
fn add_items(
    packets: &mut Vec<Packet>,
    home: u8,
    to: u8,
    channel: u8,
    first: u64,
    items: &[i64],
) -> Result<(), AllocError>
    requires { 0 < length items.now → first + length items.now ≤ MAX_COUNT }
    ensures { OnOk result (packets.new.items ≡ packets.old.items
        ++ data_packets home to channel first items.now) }
{
    for (offset, item) in items.iter().enumerate() {
        packets.push(Packet {
            from: home,
            to,
            body: Body::Data {
                channel: u16::from(channel),
                position: first + offset as u64,
                item: *item,
            },
        })?;
    }
    Ok(())
}

// A copy of the items of a log that are due.
fn copy_due(alloc: Global, outbox: &Outbox, log: &Log) -> Result<Vec<i64>, AllocError>
    ensures due { IfOk result (λ items. items.items ≡ items_due outbox.now log.now) }
    ensures within { IfOk result (λ items. 0 < length items.items
        → first_due outbox.now log.now + length items.items ≤ MAX_COUNT) }
{
    let due = outbox.window.due(log.base(), log.end());
    log.copy_since(alloc, due.start, (due.end - due.start) as usize)
}

// Adds the items of a log that are due.
fn add_due(
    alloc: Global,
    packets: &mut Vec<Packet>,
    home: u8,
    to: u8,
    outbox: &Outbox,
    log: &Log,
) -> Result<(), AllocError>
    ensures { OnOk result (packets.new.items ≡ packets.old.items
        ++ data_packets home to outbox.now.channel (first_due outbox.now log.now)
        (items_due outbox.now log.now)) }
{
    let first = outbox.window.due(log.base(), log.end()).start;
    let items = copy_due(alloc, outbox, log)?;
    add_items(packets, home, to, outbox.channel, first, items.as_slice())
}

// Adds the items of a channel to another node that are due.
fn add_outgoing(
    alloc: Global,
    packets: &mut Vec<Packet>,
    net: &Net,
    home: u8,
    current: &Image,
    outbox: &Outbox,
) -> Result<(), AllocError>
    ensures { OnOk result (packets.new.items ≡ packets.old.items
        ++ outbox_packets (network_of net.now.program) home current.now outbox.now) }
{
    match current.log(outbox.channel) {
        Some(log) => {
            let to = consumer_node(net, usize::from(outbox.channel));
            add_due(alloc, packets, home, to, outbox, log)
        }
        None => Ok(()),
    }
}

/// Adds what is said of the channels from other nodes.
pub(crate) fn add_all_answers(
    packets: &mut Vec<Packet>,
    net: &Net,
    home: u8,
    permanent: &Image,
    inboxes: &[Inbox],
) -> Result<(), AllocError>
    ensures { OnOk result (packets.new.items ≡ packets.old.items
        ++ flat_map (inbox_packets (network_of net.now.program) home permanent.now)
        inboxes.now) }
{
    for inbox in inboxes {
        add_answers(packets, net, home, permanent, inbox)?;
    }
    Ok(())
}

/// Adds the items of the channels to other nodes that are due.
pub(crate) fn add_all_outgoing(
    alloc: Global,
    packets: &mut Vec<Packet>,
    net: &Net,
    home: u8,
    current: &Image,
    outboxes: &[Outbox],
) -> Result<(), AllocError>
    ensures { OnOk result (packets.new.items ≡ packets.old.items
        ++ flat_map (outbox_packets (network_of net.now.program) home current.now)
        outboxes.now) }
{
    for outbox in outboxes {
        add_outgoing(alloc, packets, net, home, current, outbox)?;
    }
    Ok(())
}
