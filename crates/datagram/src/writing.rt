// From a packet to bytes.
ghost use Rattle.std.specs.Prelude.{◌≡◌, ◌++◌, [], ◌∷◌, length, IfOk, OnOk};
ghost use Rattle.std.specs.List.{flat_map};
ghost use Rattle.datagram.specs.PacketText.{IsPacket, IsBody, IsPacketText, AreNeeds, number_text, item_text, need_text, needs_text, body_text, kind_of, packet_text, reason_number};

use crate::needs::Needs;
use crate::packet::{Body, Need, Packet, Reason};
use byteorder::{BigEndian, ByteOrder};
use smallvec::SmallVec;
use std::alloc::{AllocError, Global};

/// The spelling of a packet. Up to 24 bytes lie in the value itself, which is enough for each packet but a `Took` of needs.
pub type PacketBytes = SmallVec<u8, 24>;

#[tactic(auto, unfolding(crate::specs::PacketText::number_text))]
fn put_u16(out: &mut PacketBytes, number: u16) -> Result<(), AllocError>
    ensures { OnOk result (out.new.items ≡ out.old.items ++ number_text 2 number) }
{
    let mut bytes = [0; 2];
    BigEndian::write_u16(&mut bytes, number);
    out.extend_from_slice(&bytes)?;
    Ok(())
}

#[tactic(auto, unfolding(crate::specs::PacketText::number_text))]
fn put_u64(out: &mut PacketBytes, number: u64) -> Result<(), AllocError>
    ensures { OnOk result (out.new.items ≡ out.old.items ++ number_text 8 number) }
{
    let mut bytes = [0; 8];
    BigEndian::write_u64(&mut bytes, number);
    out.extend_from_slice(&bytes)?;
    Ok(())
}

#[tactic(auto, unfolding(crate::specs::PacketText::item_text))]
fn put_item(out: &mut PacketBytes, item: i64) -> Result<(), AllocError>
    ensures { OnOk result (out.new.items ≡ out.old.items ++ item_text item) }
{
    let mut bytes = [0; 8];
    BigEndian::write_i64(&mut bytes, item);
    out.extend_from_slice(&bytes)?;
    Ok(())
}

fn put_need(out: &mut PacketBytes, need: Need) -> Result<(), AllocError>
    ensures { OnOk result (out.new.items ≡ out.old.items ++ need_text need) }
{
    put_u16(out, need.channel)?;
    put_u64(out, need.count)?;
    Ok(())
}

// Each need in turn.
fn put_needs(out: &mut PacketBytes, needs: &[Need]) -> Result<(), AllocError>
    ensures { OnOk result (out.new.items ≡ out.old.items ++ flat_map need_text needs.now) }
{
    for need in needs {
        put_need(out, *need)?;
    }
    Ok(())
}

// A count, and so many needs.
fn put_need_list(out: &mut PacketBytes, needs: &Needs) -> Result<(), AllocError>
    requires { AreNeeds needs.now }
    ensures { OnOk result (out.new.items ≡ out.old.items ++ needs_text needs.now) }
{
    put_u16(out, needs.len() as u16)?;
    put_needs(out, needs.as_slice())?;
    Ok(())
}

// A channel and two counts.
fn put_counts(
    out: &mut PacketBytes,
    channel: u16,
    first: u64,
    second: u64,
) -> Result<(), AllocError>
    ensures { OnOk result (out.new.items ≡ out.old.items
        ++ (number_text 2 channel ++ (number_text 8 first ++ number_text 8 second))) }
{
    put_u16(out, channel)?;
    put_u64(out, first)?;
    put_u64(out, second)?;
    Ok(())
}

// The number of an instance, a channel and a count.
fn put_ask(out: &mut PacketBytes, number: u64, channel: u16, count: u64) -> Result<(), AllocError>
    ensures { OnOk result (out.new.items ≡ out.old.items
        ++ (number_text 8 number ++ (number_text 2 channel ++ number_text 8 count))) }
{
    put_u64(out, number)?;
    put_u16(out, channel)?;
    put_u64(out, count)?;
    Ok(())
}

fn put_data(out: &mut PacketBytes, channel: u16, position: u64, item: i64) -> Result<(), AllocError>
    ensures { OnOk result (out.new.items ≡ out.old.items
        ++ (number_text 2 channel ++ (number_text 8 position ++ item_text item))) }
{
    put_u16(out, channel)?;
    put_u64(out, position)?;
    put_item(out, item)?;
    Ok(())
}

fn put_kept(out: &mut PacketBytes, channel: u16, count: u64) -> Result<(), AllocError>
    ensures { OnOk result (out.new.items ≡ out.old.items
        ++ (number_text 2 channel ++ number_text 8 count)) }
{
    put_u16(out, channel)?;
    put_u64(out, count)?;
    Ok(())
}

fn number_of_reason(reason: Reason) -> u8
    ensures { result ≡ reason_number reason }
{
    match reason {
        Reason::Busy => 1,
        Reason::Behind => 2,
        Reason::Recovering => 3,
        Reason::TooLarge => 4,
    }
}

fn put_refused(
    out: &mut PacketBytes,
    number: u64,
    channel: u16,
    reason: Reason,
) -> Result<(), AllocError>
    ensures { OnOk result (out.new.items ≡ out.old.items
        ++ (number_text 8 number ++ (number_text 2 channel ++ reason_number reason ∷ []))) }
{
    put_u64(out, number)?;
    put_u16(out, channel)?;
    out.push(number_of_reason(reason))?;
    Ok(())
}

fn put_took(
    out: &mut PacketBytes,
    number: u64,
    channel: u16,
    count: u64,
    needs: &Needs,
) -> Result<(), AllocError>
    requires { AreNeeds needs.now }
    ensures { OnOk result (out.new.items ≡ out.old.items
        ++ (number_text 8 number ++ (number_text 2 channel
        ++ (number_text 8 count ++ needs_text needs.now)))) }
{
    put_ask(out, number, channel, count)?;
    put_need_list(out, needs)?;
    Ok(())
}

fn put_body(out: &mut PacketBytes, body: &Body) -> Result<(), AllocError>
    requires { IsBody body.now }
    ensures { OnOk result (out.new.items ≡ out.old.items ++ body_text body.now) }
{
    match body {
        Body::Data {
            channel,
            position,
            item,
        } => put_data(out, *channel, *position, *item),
        Body::Ack {
            channel,
            epoch,
            next,
        } => put_counts(out, *channel, *epoch, *next),
        Body::Kept { channel, count } => put_kept(out, *channel, *count),
        Body::Ask {
            number,
            channel,
            count,
        } => put_ask(out, *number, *channel, *count),
        Body::Took {
            number,
            channel,
            count,
            needs,
        } => put_took(out, *number, *channel, *count, needs),
        Body::Covered {
            number,
            channel,
            count,
        } => put_ask(out, *number, *channel, *count),
        Body::Refused {
            number,
            channel,
            reason,
        } => put_refused(out, *number, *channel, *reason),
        Body::Query { number } => put_u64(out, *number),
        Body::Commit { number } => put_u64(out, *number),
        Body::Ended { number } => put_u64(out, *number),
        Body::Settled { number } => put_u64(out, *number),
        Body::Undone {
            channel,
            epoch,
            sent,
        } => put_counts(out, *channel, *epoch, *sent),
    }
}

fn number_of_kind(body: &Body) -> u8
    ensures { result ≡ kind_of body.now }
{
    match body {
        Body::Data { .. } => 1,
        Body::Ack { .. } => 2,
        Body::Kept { .. } => 3,
        Body::Ask { .. } => 4,
        Body::Took { .. } => 5,
        Body::Covered { .. } => 6,
        Body::Refused { .. } => 7,
        Body::Query { .. } => 8,
        Body::Commit { .. } => 9,
        Body::Ended { .. } => 10,
        Body::Settled { .. } => 11,
        Body::Undone { .. } => 12,
    }
}

// How many bytes spell a packet: three, and then eight for a count or an item, two for a channel, and ten for each need.
#[tactic(auto, using(crate::proofs::Lengths::body_len))]
fn text_len(packet: &Packet) -> usize
    requires { IsBody packet.now.body }
    ensures { result ≡ length (packet_text packet.now) }
{
    match &packet.body {
        Body::Data { .. }
        | Body::Ack { .. }
        | Body::Ask { .. }
        | Body::Covered { .. }
        | Body::Undone { .. } => 21,
        Body::Took { needs, .. } => 23 + 10 * needs.len(),
        Body::Refused { .. } => 14,
        Body::Kept { .. } => 13,
        Body::Query { .. } | Body::Commit { .. } | Body::Ended { .. } | Body::Settled { .. } => 11,
    }
}

/// The spelling of a packet. A long one lies in memory of just its length. Refuses for want of memory alone.
pub fn write_packet(alloc: Global, packet: &Packet) -> Result<PacketBytes, AllocError>
    requires { IsPacket packet.now }
    ensures { IfOk result (λ text. IsPacketText packet.now text.items) }
{
    let mut out = SmallVec::with_capacity(alloc, text_len(packet))?;
    out.push(number_of_kind(&packet.body))?;
    out.push(packet.from)?;
    out.push(packet.to)?;
    put_body(&mut out, &packet.body)?;
    Ok(out)
}
