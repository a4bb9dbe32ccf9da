// All that is in flight.
ghost use Rattle.std.specs.Prelude.{◌≡◌, ◌<◌, ◌++◌, [], ◌∷◌, ℕ, List, All, IsTrue, replicate, length, slice_get, option_map, IfOk, OnOk, OnErr};
ghost use Rattle.std.specs.List.{AllZip, position_from};
ghost use Rattle.wire.specs.RoomFor.{FindsRoom};
ghost use Rattle.wire.specs.Staging.{behind, by_no_rule, ruled, IsFree, HasNoLessRoom, HasRoom, HasRoomFor, IsBatch, IsReady};
ghost use Rattle.wire.specs.declared.sending.Sending.{Sending as SendingValue};
ghost use Rattle.wire.specs.Queue.{is_due, without, with_delay, with_copy};
ghost use Rattle.wire.specs.Wire.{queue_at, in_flight, room_for, with_queue, with_room, is_due_at};
ghost use Rattle.wire.specs.Traffic.{AreNodes, empty_queue, queues_traffic, traffic_of, opening_traffic, traffic_without, traffic_delayed, traffic_repeated, traffic_armed, all_sent};

use crate::direct::{are_free, make_room_for, put_all};
use crate::queue::{NODES, Queue};
use crate::rule::Rule;
use crate::rules::Rules;
use crate::sending::Sending;
use crate::staging::{Batch, join_all, reserve_all, staged};
use std::alloc::{AllocError, Global};
use std::marker::Model;

/// The packets in flight to each node, in the order in which they were sent, and the rules that were armed.
pub struct Wire {
    queues: Vec<Queue>,
    rules: Rules,
}

// Written out, since each crate above would go through a derived one again.
impl Drop for Wire {
    fn drop(self) {
        let Self { queues, rules } = self;
    }
}

impl Model for Wire {
    ghost use Rattle.std.specs.Prelude.{◌≡◌, length};
    ghost use Rattle.wire.specs.declared.queue.TheConstants.{NODES};
    ghost use Rattle.wire.specs.Wire.{WireState};

    ghost Value = { WireState };

    ghost view = { λ wire. record { queues = wire.queues.items; rules = wire.rules } };

    ghost invariant = { λ wire. length wire.queues.items ≡ NODES };
}

// So many queues with nothing in them.
fn empty_queues(alloc: Global) -> Result<Vec<Queue>, AllocError>
    ensures { IfOk result (λ queues. queues_traffic queues.items ≡ replicate NODES empty_queue) }
{
    let mut queues = Vec::with_capacity(alloc, NODES)?;
    for _ in 0..NODES {
        queues.push(Queue::new(alloc))?;
    }
    Ok(queues)
}

impl Wire {
    /// Nothing is in flight, and no rule is armed.
    pub fn new(alloc: Global) -> Result<Wire, AllocError>
        ensures { IfOk result (λ wire. traffic_of wire ≡ opening_traffic) }
    {
        Ok(Wire {
            queues: empty_queues(alloc)?,
            rules: Rules::new(alloc),
        })
    }

    /// How many packets are in flight to a node.
    pub fn len(&self, to: u8) -> usize
        requires { to < NODES }
        ensures { result ≡ length (in_flight self.now to) }
    {
        self.queues[to as usize].len()
    }

    /// The packet at a place, from 0, of those in flight to a node.
    pub fn packet(&self, to: u8, place: usize) -> Option<&[u8]>
        requires { to < NODES }
        ensures { option_map (λ bytes. bytes.now) result
            ≡ option_map (λ f. f.packet) (slice_get (in_flight self.now to) place) }
    {
        self.queues[to as usize].packet(place)
    }

    /// The place of the first packet that is due in a round, of those in flight to a node.
    pub fn first_due(&self, to: u8, round: u64) -> Option<usize>
        requires { to < NODES }
        ensures { result ≡ position_from (is_due round) 0 (in_flight self.now to) }
    {
        self.queues[to as usize].first_due(round)
    }

    /// Whether there is a packet at a place, and it is due in this round.
    pub fn is_due(&self, to: u8, place: usize, round: u64) -> bool
        requires { to < NODES }
        ensures { result ≡ is_due_at round (slice_get (in_flight self.now to) place) }
    {
        self.queues[to as usize].is_due(place, round)
    }

    /// The packet at a place is gone.
    pub fn lose(&mut self, to: u8, place: usize)
        requires node { to < NODES }
        requires there { place < length (in_flight self.old to) }
        ensures left { self.new ≡ with_queue self.old to (without (queue_at self.old to) place) }
        ensures traffic { traffic_of self.new ≡ traffic_without (traffic_of self.old) to place }
    {
        let queue = &mut self.queues[to as usize];
        let _lost = queue.take(place);
    }

    /// The packet at a place is due so many rounds later.
    pub fn delay(&mut self, to: u8, place: usize, rounds: u64)
        requires node { to < NODES }
        requires there { place < length (in_flight self.old to) }
        ensures late { let queue = queue_at self.old to in self.new ≡ with_queue self.old to
            (record queue { flights = with_delay queue.flights place rounds }) }
        ensures traffic { traffic_of self.new
            ≡ traffic_delayed (traffic_of self.old) to place rounds }
    {
        let queue = &mut self.queues[to as usize];
        queue.delay(place, rounds);
    }

    /// A copy of the packet at a place goes last. It is due in the round of its original. Refuses for want of memory
    /// alone, and then the same is in flight as before.
    pub fn repeat(&mut self, alloc: Global, to: u8, place: usize) -> Result<(), AllocError>
        requires node { to < NODES }
        requires there { place < length (in_flight self.old to) }
        ensures ok { let queue = queue_at self.old to in
            OnOk result (self.new ≡ with_queue self.old to (record {
              flights = with_copy queue.flights place;
              counts = queue.counts;
              room = room_for self.new to;
            })) }
        ensures err { OnErr result (self.new ≡ with_room self.old to (room_for self.new to)) }
        ensures traffic { OnOk result (traffic_of self.new
            ≡ traffic_repeated (traffic_of self.old) to place) }
        ensures refused { OnErr result (traffic_of self.new ≡ traffic_of self.old) }
    {
        let queue = &mut self.queues[to as usize];
        queue.repeat(alloc, place)
    }

    /// Arms a rule. It says nothing of packets that were sent before. Refuses for want of memory alone, and is then as
    /// it was.
    pub fn arm(&mut self, rule: Rule) -> Result<(), AllocError>
        ensures ok { OnOk result (self.new
            ≡ record (self.old) { rules = self.old.rules ++ rule ∷ [] }) }
        ensures err { OnErr result (self.new ≡ self.old) }
        ensures traffic { OnOk result (traffic_of self.new
            ≡ traffic_armed (traffic_of self.old) rule) }
        ensures refused { OnErr result (traffic_of self.new ≡ traffic_of self.old) }
    {
        self.rules.arm(rule)
    }

    /// Sends these packets in this round, one after the other, as the rules have it: all of them or none. Takes all memory
    /// first, and refuses for want of memory alone: then the same is in flight as before.
    pub fn send_all(
        &mut self,
        alloc: Global,
        packets: Vec<Sending>,
        round: u64,
    ) -> Result<(), AllocError>
        requires { All AreNodes packets.items }
        ensures ok { OnOk result (traffic_of self.new
            ≡ all_sent round packets.items (traffic_of self.old)) }
        ensures err { OnErr result (traffic_of self.new ≡ traffic_of self.old) }
    {
        let batch = self.stage(alloc, packets, round)?;
        self.make_room(&batch)?;
        self.send_batch(batch);
        Ok(())
    }

    // Whether no rule is for any of these. More than a few may be said to have one.
    fn are_free(&self, packets: &[Sending]) -> bool
        requires { All AreNodes packets.now }
        ensures { IsTrue result → All (IsFree (traffic_of self.now) (length packets.now)) packets.now }
    {
        self.rules.is_empty() || are_free(&self.queues, &self.rules, packets)
    }

    /// Makes these packets ready to be sent one after the other in a round, as the rules have it. Changes nothing, and refuses
    /// for want of memory alone. Where no rule is for any of them, and they are few, it takes none.
    pub fn stage(
        &self,
        alloc: Global,
        packets: Vec<Sending>,
        round: u64,
    ) -> Result<Batch, AllocError>
        requires { All AreNodes packets.items }
        ensures ready { IfOk result
            (λ batch. IsReady (traffic_of self.now) round packets.items batch) }
        ensures batch { IfOk result (λ batch. IsBatch batch) }
    {
        if self.are_free(&packets) {
            return Ok(Batch {
                straight: packets,
                round,
                queues: Vec::new(alloc),
            });
        }
        Ok(Batch {
            straight: Vec::new(alloc),
            round,
            queues: staged(alloc, &self.queues, &self.rules, packets, round)?,
        })
    }

    /// Makes room for what is ready to be sent, so that sending it needs no memory. The same is in flight as before, and room
    /// that there was is there.
    pub fn make_room(&mut self, batch: &Batch) -> Result<(), AllocError>
        requires { IsBatch batch.now }
        ensures traffic { traffic_of self.new ≡ traffic_of self.old }
        ensures room { OnOk result (HasRoomFor self.new.queues batch.now) }
        ensures more { AllZip HasNoLessRoom self.old.queues self.new.queues }
    {
        if batch.queues.is_empty() {
            return make_room_for(&mut self.queues, &batch.straight);
        }
        reserve_all(&mut self.queues, &batch.queues)
    }

    // Puts these packets last one after the other, where there is room, as if no rule were armed.
    fn put_straight(&mut self, packets: Vec<Sending>, round: u64)
        requires nodes { All AreNodes packets.items }
        requires room { All (FindsRoom self.old.queues (length packets.items)) packets.items }
        ensures { traffic_of self.new ≡ by_no_rule round packets.items (traffic_of self.old) }
    {
        put_all(&mut self.queues, packets, round);
    }

    // Puts what is to go last in each queue there, where there is room.
    fn join_queues(&mut self, more: Vec<Queue>)
        requires { AllZip HasRoom self.old.queues more.items }
        ensures joined { traffic_of self.new ≡ behind (queues_traffic self.old.queues)
            (ruled self.old.rules more.items) }
        ensures count { length self.old.queues ≡ NODES }
    {
        join_all(&mut self.queues, more);
    }

    /// Sends what is ready, where there is room.
    pub fn send_batch(&mut self, batch: Batch)
        requires { HasRoomFor self.old.queues batch }
        ensures { (round : ℕ) (packets : List SendingValue) → All AreNodes packets
            → IsReady (traffic_of self.old) round packets batch
            → traffic_of self.new ≡ all_sent round packets (traffic_of self.old) }
    {
        if batch.queues.is_empty() {
            self.put_straight(batch.straight, batch.round);
        } else {
            self.join_queues(batch.queues);
        }
    }

    /// The packet at a place is gone, and what is ready is sent, where there is room.
    pub fn lose_and_send(&mut self, to: u8, place: usize, batch: Batch)
        requires node { to < NODES }
        requires there { place < length (in_flight self.old to) }
        requires room { HasRoomFor self.old.queues batch }
        ensures { (round : ℕ) (packets : List SendingValue) → All AreNodes packets
            → IsReady (traffic_of self.old) round packets batch
            → traffic_of self.new
            ≡ all_sent round packets (traffic_without (traffic_of self.old) to place) }
    {
        self.lose(to, place);
        self.send_batch(batch);
    }
}
