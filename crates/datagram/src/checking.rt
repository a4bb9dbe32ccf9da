// Whether a packet is one that has a spelling.
ghost use Rattle.std.specs.Prelude.{◌↔◌, IsTrue, All};
ghost use Rattle.datagram.specs.PacketText.{IsChannel, IsCount, IsPositive, IsNeed, AreNeeds, IsBody, IsPacket};

use crate::needs::Needs;
use crate::packet::{Body, LAST_CHANNEL, LAST_NODE, MOST_NEEDS, Need, Packet};
use kahn_net::MAX_COUNT;

fn is_channel(channel: u16) -> bool
    ensures { IsTrue result ↔ IsChannel channel }
{
    channel <= LAST_CHANNEL
}

fn is_count(count: u64) -> bool
    ensures { IsTrue result ↔ IsCount count }
{
    count <= MAX_COUNT
}

fn is_positive(number: u64) -> bool
    ensures { IsTrue result ↔ IsPositive number }
{
    1 <= number && number <= MAX_COUNT
}

fn is_need(need: Need) -> bool
    ensures { IsTrue result ↔ IsNeed need }
{
    is_channel(need.channel) && is_positive(need.count)
}

fn are_each_needs(needs: &[Need]) -> bool
    ensures { IsTrue result ↔ All IsNeed needs.now }
{
    needs.iter().all(|need| is_need(*need))
}

fn are_needs(needs: &Needs) -> bool
    ensures { IsTrue result ↔ AreNeeds needs.now }
{
    needs.len() <= MOST_NEEDS as usize && are_each_needs(needs.as_slice()) && needs.is_ascending()
}

fn are_counts(channel: u16, first: u64, second: u64) -> bool
    ensures { IsTrue result ↔ (IsChannel channel × IsCount first × IsCount second) }
{
    is_channel(channel) && is_count(first) && is_count(second)
}

fn is_ask(number: u64, channel: u16, count: u64) -> bool
    ensures { IsTrue result ↔ (IsPositive number × IsChannel channel × IsPositive count) }
{
    is_positive(number) && is_channel(channel) && is_positive(count)
}

fn is_body(body: &Body) -> bool
    ensures { IsTrue result ↔ IsBody body.now }
{
    match body {
        Body::Data {
            channel,
            position,
            item,
        } => {
            let _item = *item;
            is_channel(*channel) && is_count(*position)
        }
        Body::Ack {
            channel,
            epoch,
            next,
        } => are_counts(*channel, *epoch, *next),
        Body::Kept { channel, count } => is_channel(*channel) && is_count(*count),
        Body::Ask {
            number,
            channel,
            count,
        } => is_ask(*number, *channel, *count),
        Body::Took {
            number,
            channel,
            count,
            needs,
        } => is_ask(*number, *channel, *count) && are_needs(needs),
        Body::Covered {
            number,
            channel,
            count,
        } => is_ask(*number, *channel, *count),
        Body::Refused {
            number,
            channel,
            reason: _,
        } => is_positive(*number) && is_channel(*channel),
        Body::Query { number } => is_positive(*number),
        Body::Commit { number } => is_positive(*number),
        Body::Ended { number } => is_positive(*number),
        Body::Settled { number } => is_positive(*number),
        Body::Undone {
            channel,
            epoch,
            sent,
        } => are_counts(*channel, *epoch, *sent),
    }
}

/// Whether a packet is one that has a spelling, so that `write_packet` may be called.
pub fn is_packet(packet: &Packet) -> bool
    ensures { IsTrue result ↔ IsPacket packet.now }
{
    packet.from <= LAST_NODE
        && packet.to <= LAST_NODE
        && packet.from != packet.to
        && is_body(&packet.body)
}
