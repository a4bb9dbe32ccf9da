// What a node in doubt says in its turn.
ghost use Rattle.std.specs.Prelude.{◌≡◌, ◌<◌, map, IfOk};
ghost use Rattle.protocol.specs.Node.Common.{network_of, incoming_on, InDoubt, kept_packet, turn_packets};
ghost use Rattle.protocol.specs.Node.Common.{MAX_CHANNELS};

use datagram::{Body, Packet};
use layout::{is_incoming, producer_node};
use net_check::Net;
use node_memory::add_verdicts;
use record::{Image, Record};
use std::alloc::{AllocError, Global};

// How much of a channel from another node is kept for good.
fn kept_packet(net: &Net, home: u8, permanent: &Image, channel: usize) -> Packet
    requires { channel < MAX_CHANNELS }
    ensures { result ≡ kept_packet (network_of net.now.program) home permanent.now channel }
{
    Packet {
        from: home,
        to: producer_node(net, channel),
        body: Body::Kept {
            channel: channel as u16,
            count: permanent.received(channel as u8),
        },
    }
}

// How much of each channel from another node is kept for good.
fn kept_packets(
    alloc: Global,
    net: &Net,
    home: u8,
    permanent: &Image,
) -> Result<Vec<Packet>, AllocError>
    ensures { IfOk result (λ packets. packets.items
        ≡ map (kept_packet (network_of net.now.program) home permanent.now)
        (incoming_on (network_of net.now.program) home)) }
{
    let mut packets = Vec::with_capacity(alloc, net.program.channels.len())?;
    for channel in 0..net.program.channels.len() {
        if is_incoming(net, home, channel) {
            packets.push(kept_packet(net, home, permanent, channel))?;
        }
    }
    Ok(packets)
}

/// What a node in doubt says, with this record.
pub(crate) fn packets_in_doubt(
    alloc: Global,
    net: &Net,
    home: u8,
    kept: &Record,
) -> Result<Vec<Packet>, AllocError>
    ensures { IfOk result (λ packets. packets.items
        ≡ turn_packets (network_of net.now.program) home kept.now InDoubt) }
{
    let mut packets = kept_packets(alloc, net, home, &kept.permanent)?;
    add_verdicts(&mut packets, home, kept)?;
    Ok(packets)
}
