// What is in flight between the nodes.
ghost use Rattle.std.specs.Prelude.{◌≡◌, ◌<◌, [], ℕ, true, All, List, IfOk, IsSome, IsTrue, OnErr, OnOk, FitsSigned, if◌then◌else◌, is_some, length, map, option_map, slice_get};
ghost use Rattle.std.specs.Int.{w64};
ghost use Rattle.std.specs.List.{AllZip, position_from};
ghost use Rattle.protocol.specs.Node.Common.{IsPacket, IsWritable};
ghost use Rattle.protocol.specs.Node.Sending.{FitsItem};
ghost use Rattle.protocol.specs.World.Common.{act_reply, has_happened, can_act, due_bytes, sending_of, traffic_acted};
ghost use Rattle.protocol.specs.World.Common.{is_due, all_sent, flights_to, traffic_of, traffic_without, NODES};
ghost use Rattle.protocol.specs.World.Replies.{ActTakesMemory};
ghost use Rattle.station.specs.Coming.{HasRoomIn, IsReadyFor, IsReadyIn, sent_then, taken_by};
ghost use Rattle.station.specs.ReplyView.{reply_view};
ghost use Rattle.wire.specs.Staging.{HasNoLessRoom};
ghost use Rattle.wire.specs.Traffic.{AreNodes, traffic_armed, traffic_delayed, traffic_repeated};
ghost use Rattle.wire.specs.declared.sending.Sending.{Sending as SendingValue};
ghost use Rattle.wire.specs.Wire.{WireState, in_flight};

use crate::event::Reply;
use datagram::{Body, Packet, write_packet};
use node::{Outcome, Refusal, Said};
use protocol::NetworkAct;
use std::alloc::{AllocError, Global};
use wire::{Batch, Bytes, Rule, Sending, Wire};

// Whether there is a packet at a place, of those in flight to a node.
fn is_there(wire: &Wire, to: u8, place: usize) -> bool
    requires { to < NODES }
    ensures there { result ≡ is_some (slice_get (flights_to (traffic_of wire.now) to) place) }
    ensures below { IsTrue result → place < length (in_flight wire.now to) }
{
    place < wire.len(to)
}

/// The place of the first packet that is due, if there is one.
pub(crate) fn first_due(wire: &Wire, to: u8, round: u64) -> Option<usize>
    requires { to < NODES }
    ensures { result ≡ position_from (is_due round) 0 (flights_to (traffic_of wire.now) to) }
{
    wire.first_due(to, round)
}

/// The bytes of the packet at a place, if there is one and it is due.
pub(crate) fn due_packet(wire: &Wire, to: u8, place: usize, round: u64) -> Option<&[u8]>
    requires { to < NODES }
    ensures bytes { option_map (λ bytes. bytes.now) result
        ≡ due_bytes round (slice_get (flights_to (traffic_of wire.now) to) place) }
    ensures below { IsSome result → place < length (in_flight wire.now to) }
{
    if wire.is_due(to, place, round) {
        wire.packet(to, place)
    } else {
        None
    }
}

// The packet at a place is gone.
fn lose(wire: &mut Wire, to: u8, place: usize) -> Reply
    requires { to < NODES }
    ensures reply { reply_view result
        ≡ act_reply (is_some (slice_get (flights_to (traffic_of wire.old) to) place)) }
    ensures traffic { traffic_of wire.new ≡ (if has_happened (reply_view result)
        then traffic_without (traffic_of wire.old) to place else traffic_of wire.old) }
{
    if !is_there(wire, to, place) {
        return Reply::NotDue;
    }
    wire.lose(to, place);
    Reply::Acted
}

// A copy of the packet at a place goes last.
fn repeat(alloc: Global, wire: &mut Wire, to: u8, place: usize) -> Result<Reply, AllocError>
    requires { to < NODES }
    ensures reply { IfOk result (λ reply. reply_view reply
        ≡ act_reply (is_some (slice_get (flights_to (traffic_of wire.old) to) place))) }
    ensures traffic { IfOk result (λ reply. traffic_of wire.new
        ≡ (if has_happened (reply_view reply)
        then traffic_repeated (traffic_of wire.old) to place else traffic_of wire.old)) }
    ensures refused { OnErr result (traffic_of wire.new ≡ traffic_of wire.old) }
{
    if !is_there(wire, to, place) {
        return Ok(Reply::NotDue);
    }
    wire.repeat(alloc, to, place)?;
    Ok(Reply::Acted)
}

// The packet at a place is due so many rounds later.
fn delay(wire: &mut Wire, to: u8, place: usize, rounds: u64) -> Reply
    requires { to < NODES }
    ensures reply { reply_view result
        ≡ act_reply (is_some (slice_get (flights_to (traffic_of wire.old) to) place)) }
    ensures traffic { traffic_of wire.new ≡ (if has_happened (reply_view result)
        then traffic_delayed (traffic_of wire.old) to place rounds else traffic_of wire.old) }
{
    if !is_there(wire, to, place) {
        return Reply::NotDue;
    }
    wire.delay(to, place, rounds);
    Reply::Acted
}

// A rule is armed for a packet that is still to be sent.
fn arm_packet(wire: &mut Wire, rule: Rule) -> Result<Reply, AllocError>
    ensures reply { IfOk result (λ reply. reply_view reply ≡ act_reply true) }
    ensures traffic { IfOk result (λ reply. traffic_of wire.new
        ≡ (if has_happened (reply_view reply)
        then traffic_armed (traffic_of wire.old) rule else traffic_of wire.old)) }
    ensures refused { OnErr result (traffic_of wire.new ≡ traffic_of wire.old) }
{
    wire.arm(rule)?;
    Ok(Reply::Acted)
}

/// The network does this to the packet at a place of those in flight to a node, or arms a rule for one that is still to be sent.
pub(crate) fn act_by_network(
    alloc: Global,
    wire: &mut Wire,
    to: u8,
    place: usize,
    act: NetworkAct,
) -> Result<Reply, AllocError>
    requires { to < NODES }
    ensures reply { IfOk result (λ reply. reply_view reply
        ≡ act_reply (can_act act (slice_get (flights_to (traffic_of wire.old) to) place))) }
    ensures traffic { IfOk result (λ reply. traffic_of wire.new
        ≡ (if has_happened (reply_view reply)
        then traffic_acted act (traffic_of wire.old) to place else traffic_of wire.old)) }
    ensures refused { OnErr result ((traffic_of wire.new ≡ traffic_of wire.old)
        × ActTakesMemory act) }
{
    match act {
        NetworkAct::Lose => Ok(lose(wire, to, place)),
        NetworkAct::Repeat => repeat(alloc, wire, to, place),
        NetworkAct::Delay { rounds } => Ok(delay(wire, to, place, rounds)),
        NetworkAct::ArmPacket { from, nth, change } => {
            let rule = Rule {
                from,
                to,
                nth,
                change,
            };
            arm_packet(wire, rule)
        }
    }
}

// An item is a number of 64 bits, as its type says.
fn note_item(item: i64)
    ensures { FitsSigned w64 item }
{
    let _ = item;
}

// So is the item of a packet, if it has one.
fn note_body(body: &Body)
    ensures { FitsItem body.now }
{
    if let Body::Data { item, .. } = body {
        note_item(*item);
    }
}

// A packet as it is sent.
fn spell(alloc: Global, packet: &Packet) -> Result<Sending, AllocError>
    requires { IsWritable packet.now }
    ensures sending { IfOk result (λ sending. sending ≡ sending_of packet.now) }
    ensures allowed { IsPacket packet.now }
{
    note_body(&packet.body);
    let bytes = write_packet(alloc, packet)?;
    Ok(Sending {
        from: packet.from,
        to: packet.to,
        packet: Bytes::new(bytes),
    })
}

/// These packets as they are sent.
pub(crate) fn spell_all(alloc: Global, packets: &[Packet]) -> Result<Vec<Sending>, AllocError>
    requires { All IsWritable packets.now }
    ensures sendings { IfOk result (λ sendings. sendings.items ≡ map sending_of packets.now) }
    ensures allowed { OnOk result (All IsPacket packets.now) }
{
    let mut sendings = Vec::with_capacity(alloc, packets.len())?;
    for packet in packets {
        sendings.push(spell(alloc, packet)?)?;
    }
    Ok(sendings)
}

// These packets are made ready to be sent in this round, with room for them; nothing is made of none. The same is in flight as
// before, and room that there was is there.
fn make_ready(
    alloc: Global,
    wire: &mut Wire,
    packets: &[Packet],
    round: u64,
) -> Result<Option<Batch>, AllocError>
    requires { All IsWritable packets.now }
    ensures same { traffic_of wire.new ≡ traffic_of wire.old }
    ensures more { OnOk result (AllZip HasNoLessRoom wire.old.queues wire.new.queues) }
    ensures ready { IfOk result (λ batch. IsReadyFor wire.new round (map sending_of packets.now) batch) }
{
    if packets.is_empty() {
        return Ok(None);
    }
    let sendings = spell_all(alloc, packets)?;
    let batch = wire.stage(alloc, sendings, round)?;
    wire.make_room(&batch)?;
    Ok(Some(batch))
}

/// What an event sends where it is made, and where its record is too large: made ready, with room for each.
#[derive(Drop)]
pub(crate) struct Ready {
    made: Option<Batch>,
    declined: Option<Batch>,
}

/// Nothing is sent.
pub(crate) fn nothing() -> Ready
    ensures { (wire : WireState) (round : ℕ) → (IsReadyFor wire round [] result.made)
        × (IsReadyFor wire round [] result.declined) }
{
    Ready {
        made: None,
        declined: None,
    }
}

/// What is said is made ready to be sent in this round. The same is in flight as before. Refuses for want of memory alone: so an
/// event has all memory that sending takes before it changes anything.
pub(crate) fn prepare(
    alloc: Global,
    wire: &mut Wire,
    said: &Said,
    round: u64,
) -> Result<Ready, AllocError>
    requires made { All IsWritable said.now.made.items }
    requires declined { All IsWritable said.now.declined.items }
    ensures same { traffic_of wire.new ≡ traffic_of wire.old }
    ensures made { IfOk result (λ ready. IsReadyFor wire.new round
        (map sending_of said.now.made.items) ready.made) }
    ensures declined { IfOk result (λ ready. IsReadyFor wire.new round
        (map sending_of said.now.declined.items) ready.declined) }
{
    let made = make_ready(alloc, wire, &said.made, round)?;
    let declined = make_ready(alloc, wire, &said.declined, round)?;
    Ok(Ready { made, declined })
}

// Sends a batch, if there is one.
fn send(wire: &mut Wire, batch: Option<Batch>)
    requires { HasRoomIn wire.old.queues batch }
    ensures { (round : ℕ) (packets : List SendingValue) → All AreNodes packets
        → IsReadyIn (traffic_of wire.old) round packets batch
        → traffic_of wire.new ≡ all_sent round packets (traffic_of wire.old) }
{
    if let Some(batch) = batch {
        wire.send_batch(batch);
    }
}

// The packet at a place is gone, and a batch is sent, if there is one.
fn lose_and_send(wire: &mut Wire, to: u8, place: usize, batch: Option<Batch>)
    requires node { to < NODES }
    requires there { place < length (in_flight wire.old to) }
    requires room { HasRoomIn wire.old.queues batch }
    ensures { (round : ℕ) (packets : List SendingValue) → All AreNodes packets
        → IsReadyIn (traffic_of wire.old) round packets batch
        → traffic_of wire.new
        ≡ all_sent round packets (traffic_without (traffic_of wire.old) to place) }
{
    match batch {
        Some(batch) => wire.lose_and_send(to, place, batch),
        None => wire.lose(to, place),
    }
}

/// Sends what is ready, by what came of the event.
pub(crate) fn send_by(wire: &mut Wire, ready: Ready, outcome: Outcome)
    requires made { HasRoomIn wire.old.queues ready.made }
    requires declined { HasRoomIn wire.old.queues ready.declined }
    ensures { (round : ℕ) (made declined : List SendingValue) → All AreNodes made
        → All AreNodes declined → IsReadyIn (traffic_of wire.old) round made ready.made
        → IsReadyIn (traffic_of wire.old) round declined ready.declined
        → traffic_of wire.new ≡ all_sent round (sent_then outcome made declined) (traffic_of wire.old) }
{
    match outcome {
        Outcome::Made => send(wire, ready.made),
        Outcome::Refused(Refusal::TooLarge) => send(wire, ready.declined),
        Outcome::NotDue | Outcome::Refused(Refusal::Spent) | Outcome::Failed => {}
    }
}

/// The packet that came is gone, and what is ready is sent, by what came of the event.
pub(crate) fn take_by(wire: &mut Wire, to: u8, place: usize, ready: Ready, outcome: Outcome)
    requires node { to < NODES }
    requires there { place < length (in_flight wire.old to) }
    requires made { HasRoomIn wire.old.queues ready.made }
    requires declined { HasRoomIn wire.old.queues ready.declined }
    ensures { (round : ℕ) (made declined : List SendingValue) → All AreNodes made
        → All AreNodes declined → IsReadyIn (traffic_of wire.old) round made ready.made
        → IsReadyIn (traffic_of wire.old) round declined ready.declined
        → traffic_of wire.new ≡ all_sent round (sent_then outcome made declined)
        (taken_by outcome (traffic_of wire.old) to place) }
{
    match outcome {
        Outcome::Made => lose_and_send(wire, to, place, ready.made),
        Outcome::Refused(Refusal::TooLarge) => lose_and_send(wire, to, place, ready.declined),
        Outcome::Refused(Refusal::Spent) | Outcome::Failed => wire.lose(to, place),
        Outcome::NotDue => {}
    }
}
