// From bytes to a packet.
ghost use Rattle.std.specs.Prelude.{◌≡◌, option_map, IfOk, IsErrOf};
ghost use Rattle.datagram.specs.declared.packet.Packet.{Packet as PacketValue};
ghost use Rattle.datagram.specs.PacketText.{IsPacketText, BeginsAsTook};
ghost use Rattle.datagram.specs.Reading.{Reads, data_body, counts_body, kept_body, ask_body, refused_body, need_at, needs_at, need_list_at, took_at, plain_body_at, body_at, packet_at, whole_at, IsReadUnlessMemory};

use crate::fault::PacketFault;
use crate::fields::{
    channel_of, count_of, item_of, need_of, needs_count_of, positive_of, reason_of,
};
use crate::needs::Needs;
use crate::packet::{Body, LAST_NODE, Need, Packet, Reason};
use std::alloc::Global;

fn data_of(bytes: &[u8]) -> Option<(u16, u64, i64, &[u8])>
    ensures { option_map (λ x. ((x.0, (x.1, x.2)), x.3.now)) result ≡ data_body.read bytes.now }
{
    let (channel, rest) = channel_of(bytes)?;
    let (position, rest) = count_of(rest)?;
    let (item, rest) = item_of(rest)?;
    Some((channel, position, item, rest))
}

fn counts_of(bytes: &[u8]) -> Option<(u16, u64, u64, &[u8])>
    ensures { option_map (λ x. ((x.0, (x.1, x.2)), x.3.now)) result ≡ counts_body.read bytes.now }
{
    let (channel, rest) = channel_of(bytes)?;
    let (first, rest) = count_of(rest)?;
    let (second, rest) = count_of(rest)?;
    Some((channel, first, second, rest))
}

fn kept_of(bytes: &[u8]) -> Option<(u16, u64, &[u8])>
    ensures { option_map (λ x. ((x.0, x.1), x.2.now)) result ≡ kept_body.read bytes.now }
{
    let (channel, rest) = channel_of(bytes)?;
    let (count, rest) = count_of(rest)?;
    Some((channel, count, rest))
}

fn ask_of(bytes: &[u8]) -> Option<(u64, u16, u64, &[u8])>
    ensures { option_map (λ x. ((x.0, (x.1, x.2)), x.3.now)) result ≡ ask_body.read bytes.now }
{
    let (number, rest) = positive_of(bytes)?;
    let (channel, rest) = channel_of(rest)?;
    let (count, rest) = positive_of(rest)?;
    Some((number, channel, count, rest))
}

fn refused_of(bytes: &[u8]) -> Option<(u64, u16, Reason, &[u8])>
    ensures { option_map (λ x. ((x.0, (x.1, x.2)), x.3.now)) result ≡ refused_body.read bytes.now }
{
    let (number, rest) = positive_of(bytes)?;
    let (channel, rest) = channel_of(rest)?;
    let (reason, rest) = reason_of(rest)?;
    Some((number, channel, reason, rest))
}

// The need at the front.
fn need_or_fault(bytes: &[u8]) -> Result<(Need, &[u8]), PacketFault>
    ensures { Reads (λ x. (x.0, x.1.now)) result (need_at bytes.now) }
{
    need_of(bytes).ok_or(PacketFault::BadPacket)
}

// So many needs.
fn needs_of(alloc: Global, count: u16, bytes: &[u8]) -> Result<(Needs, &[u8]), PacketFault>
    ensures { Reads (λ x. (x.0, x.1.now)) result (needs_at count bytes.now) }
{
    let mut needs = Needs::new(alloc);
    let mut rest = bytes;
    for _ in 0..count {
        let (need, after) = need_or_fault(rest)?;
        needs.push(need)?;
        rest = after;
    }
    Ok((needs, rest))
}

// A count, and so many needs with ascending channels.
#[tactic(auto, unfolding(crate::specs::Reading::need_list_at))]
fn need_list_of(alloc: Global, bytes: &[u8]) -> Result<(Needs, &[u8]), PacketFault>
    ensures { Reads (λ x. (x.0, x.1.now)) result (need_list_at bytes.now) }
{
    let (count, rest) = needs_count_of(bytes).ok_or(PacketFault::BadPacket)?;
    let (needs, rest) = needs_of(alloc, count, rest)?;
    if !needs.ascends() {
        return Err(PacketFault::BadPacket);
    }
    Ok((needs, rest))
}

fn took_of(alloc: Global, bytes: &[u8]) -> Result<(Body, &[u8]), PacketFault>
    ensures { Reads (λ x. (x.0, x.1.now)) result (took_at bytes.now) }
{
    let (number, channel, count, rest) = ask_of(bytes).ok_or(PacketFault::BadPacket)?;
    let (needs, rest) = need_list_of(alloc, rest)?;
    let body = Body::Took {
        number,
        channel,
        count,
        needs,
    };
    Ok((body, rest))
}

// What a packet of a kind without a list says.
fn plain_body_of(kind: u8, bytes: &[u8]) -> Option<(Body, &[u8])>
    ensures { option_map (λ x. (x.0, x.1.now)) result ≡ plain_body_at kind bytes.now }
{
    match kind {
        1 => {
            let (channel, position, item, rest) = data_of(bytes)?;
            Some((
                Body::Data {
                    channel,
                    position,
                    item,
                },
                rest,
            ))
        }
        2 => {
            let (channel, epoch, next, rest) = counts_of(bytes)?;
            Some((
                Body::Ack {
                    channel,
                    epoch,
                    next,
                },
                rest,
            ))
        }
        3 => {
            let (channel, count, rest) = kept_of(bytes)?;
            Some((Body::Kept { channel, count }, rest))
        }
        4 => {
            let (number, channel, count, rest) = ask_of(bytes)?;
            Some((
                Body::Ask {
                    number,
                    channel,
                    count,
                },
                rest,
            ))
        }
        6 => {
            let (number, channel, count, rest) = ask_of(bytes)?;
            Some((
                Body::Covered {
                    number,
                    channel,
                    count,
                },
                rest,
            ))
        }
        7 => {
            let (number, channel, reason, rest) = refused_of(bytes)?;
            Some((
                Body::Refused {
                    number,
                    channel,
                    reason,
                },
                rest,
            ))
        }
        8 => {
            let (number, rest) = positive_of(bytes)?;
            Some((Body::Query { number }, rest))
        }
        9 => {
            let (number, rest) = positive_of(bytes)?;
            Some((Body::Commit { number }, rest))
        }
        10 => {
            let (number, rest) = positive_of(bytes)?;
            Some((Body::Ended { number }, rest))
        }
        11 => {
            let (number, rest) = positive_of(bytes)?;
            Some((Body::Settled { number }, rest))
        }
        12 => {
            let (channel, epoch, sent, rest) = counts_of(bytes)?;
            Some((
                Body::Undone {
                    channel,
                    epoch,
                    sent,
                },
                rest,
            ))
        }
        _ => None,
    }
}

#[tactic(auto, unfolding(crate::specs::Reading::body_at))]
fn body_of(alloc: Global, kind: u8, bytes: &[u8]) -> Result<(Body, &[u8]), PacketFault>
    ensures read { Reads (λ x. (x.0, x.1.now)) result (body_at kind bytes.now) }
    ensures memory { IsErrOf result PacketFault.NoMemory → kind ≡ 5 }
{
    if kind == 5 {
        return took_of(alloc, bytes);
    }
    plain_body_of(kind, bytes).ok_or(PacketFault::BadPacket)
}

// The packet at the front.
#[tactic(auto, unfolding(crate::specs::Reading::packet_at))]
fn packet_of(alloc: Global, bytes: &[u8]) -> Result<(Packet, &[u8]), PacketFault>
    ensures read { Reads (λ x. (x.0, x.1.now)) result (packet_at bytes.now) }
    ensures memory { IsErrOf result PacketFault.NoMemory → BeginsAsTook bytes.now }
{
    let [kind, from, to, rest @ ..] = bytes else {
        return Err(PacketFault::BadPacket);
    };
    let (from, to) = (*from, *to);
    if from > LAST_NODE || to > LAST_NODE || from == to {
        return Err(PacketFault::BadPacket);
    }
    let (body, rest) = body_of(alloc, *kind, rest)?;
    Ok((Packet { from, to, body }, rest))
}

// The packet that takes all the bytes.
#[tactic(auto, unfolding(crate::specs::Reading::whole_at))]
fn whole_packet_of(alloc: Global, bytes: &[u8]) -> Result<Packet, PacketFault>
    ensures read { Reads (λ packet. packet) result (whole_at bytes.now) }
    ensures memory { IsErrOf result PacketFault.NoMemory → BeginsAsTook bytes.now }
{
    let (packet, rest) = packet_of(alloc, bytes)?;
    if !rest.is_empty() {
        return Err(PacketFault::BadPacket);
    }
    Ok(packet)
}

/// The packet that these bytes spell, all of them.
///
/// Refuses with `BadPacket` (33) where they spell none, and with `NoMemory` (1), which only a `Took` meets.
pub fn read_packet(alloc: Global, bytes: &[u8]) -> Result<Packet, PacketFault>
    // These bytes spell the packet that is answered.
    ensures found { IfOk result (λ packet. IsPacketText packet bytes.now) }

    // The packet that they spell is answered, or memory runs out.
    ensures only { (packet : PacketValue) → IsPacketText packet bytes.now
        → IsReadUnlessMemory packet result }

    // Bytes that are bad spell no packet.
    ensures refused { IsErrOf result PacketFault.BadPacket
        → (packet : PacketValue) → ¬ (IsPacketText packet bytes.now) }

    // So what is answered is a function of the bytes, unless memory runs out.
    ensures whole { Reads (λ packet. packet) result (whole_at bytes.now) }

    // Only a `Took` takes memory.
    ensures memory { IsErrOf result PacketFault.NoMemory → BeginsAsTook bytes.now }
{
    whole_packet_of(alloc, bytes)
}
