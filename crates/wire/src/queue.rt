// The packets in flight to one node.
ghost use Rattle.std.specs.Prelude.{◌≡◌, ◌+◌, ◌-◌, ◌≤◌, ◌<◌, ◌++◌, [], length, slice_get, slice_index, option_map, replicate, Some, OnOk, OnErr};
ghost use Rattle.std.specs.List.{position_from};
ghost use Rattle.std.specs.VecDeque.{deque_len, deque_capacity};
ghost use Rattle.wire.specs.Queue.{flight, is_due, without, with_delay, with_copy, counted};

use crate::bytes::Bytes;
use crate::rule::capped_sum;
use crate::rules::Rules;
use crate::sending::Sending;
use std::alloc::{AllocError, Global};
use std::collections::VecDeque;
use std::marker::Model;

/// How many nodes there are: their numbers are below.
pub const NODES: usize = 16;

/// A packet in flight, and the round in which it is due.
#[derive(Debug, Drop)]
pub struct Flight {
    /// Its bytes.
    pub packet: Bytes,
    /// The first round in which it is due.
    pub due: u64,
}

/// The packets in flight to one node, in order, and how many each node sent to it.
#[derive(Drop)]
pub(crate) struct Queue {
    flights: VecDeque<Flight>,
    counts: [u64; NODES],
}

impl Model for Queue {
    ghost use Rattle.std.specs.Prelude.{◌-◌};
    ghost use Rattle.std.specs.VecDeque.{deque_len, deque_capacity};
    ghost use Rattle.wire.specs.Queue.{QueueState};

    ghost Value = { QueueState };

    ghost view = { λ queue. record {
      flights = queue.flights.items;
      counts = queue.counts;
      room = deque_capacity queue.flights - deque_len queue.flights;
    } };
}

// Puts so many of a packet last, the given one behind its copies. Where it refuses, some copies may stand there.
fn put_copies(
    alloc: Global,
    flights: &mut VecDeque<Flight>,
    packet: Bytes,
    copies: u64,
    due: u64,
) -> Result<(), AllocError>
    ensures { OnOk result (flights.new.items
        ≡ flights.old.items ++ replicate copies (flight packet due)) }
{
    if copies == 0 {
        return Ok(());
    }
    for _ in 0..copies - 1 {
        let packet = packet.copy(alloc)?;
        flights.push_back(Flight { packet, due })?;
    }
    flights.push_back(Flight { packet, due })?;
    Ok(())
}

// Puts packets last, where there is room.
fn put_last(flights: &mut VecDeque<Flight>, mut more: VecDeque<Flight>)
    requires { deque_len flights.old + deque_len more ≤ deque_capacity flights.old }
    ensures items { flights.new.items ≡ flights.old.items ++ more.items }
    ensures capacity { deque_capacity flights.old ≤ deque_capacity flights.new }
    ensures len { deque_len flights.new ≡ deque_len flights.old + deque_len more }
{
    let _ = flights.append(&mut more);
}

impl Queue {
    ghost use Rattle.wire.specs.Wire.{is_due_at, nth_in};
    ghost use Rattle.wire.specs.Traffic.{AreNodes, queue_sent, queue_traffic};
    ghost use Rattle.wire.specs.Staging.{joined, unsent, HasRoom};

    pub(crate) fn new(alloc: Global) -> Queue
        ensures { (result.flights ≡ []) × (result.counts ≡ replicate NODES 0) }
    {
        Queue {
            flights: VecDeque::new(alloc),
            counts: [0; NODES],
        }
    }

    // A queue that counts on from here, with nothing in flight.
    pub(crate) fn unsent(&self, alloc: Global) -> Queue
        ensures { queue_traffic result ≡ unsent (queue_traffic self.now) }
    {
        Queue {
            flights: VecDeque::new(alloc),
            counts: self.counts,
        }
    }

    // Puts another queue's packets last, where there is room, and counts as it does.
    pub(crate) fn join(&mut self, more: Queue)
        requires { HasRoom self.old more }
        ensures { queue_traffic self.new ≡ joined (queue_traffic self.old) (queue_traffic more) }
    {
        let counts = more.counts;
        self.counts = counts;
        put_last(&mut self.flights, more.flights);
    }

    pub(crate) fn len(&self) -> usize
        ensures { result ≡ length self.now.flights }
    {
        self.flights.len()
    }

    pub(crate) fn packet(&self, place: usize) -> Option<&[u8]>
        ensures { option_map (λ bytes. bytes.now) result
            ≡ option_map (λ f. f.packet) (slice_get self.now.flights place) }
    {
        let found = self.flights.get(place)?;
        Some(found.packet.as_slice())
    }

    pub(crate) fn first_due(&self, round: u64) -> Option<usize>
        ensures { result ≡ position_from (is_due round) 0 self.now.flights }
    {
        self.flights.iter().position(|flight| flight.due <= round)
    }

    pub(crate) fn is_due(&self, place: usize, round: u64) -> bool
        ensures { result ≡ is_due_at round (slice_get self.now.flights place) }
    {
        match self.flights.get(place) {
            Some(flight) => flight.due <= round,
            None => false,
        }
    }

    pub(crate) fn reserve(&mut self, places: usize) -> Result<(), AllocError>
        ensures same { self.new ≡ record (self.old) { room = self.new.room } }
        ensures more { self.old.room ≤ self.new.room }
        ensures ok { OnOk result (places ≤ self.new.room) }
    {
        self.flights.reserve(places)
    }

    // One packet more was sent by this node.
    fn note_sent(&mut self, from: u8)
        requires { from < NODES }
        ensures { self.new ≡ record (self.old) { counts = counted self.old.counts from } }
    {
        self.counts[from as usize] = capped_sum(self.counts[from as usize], 1);
    }

    // Puts last what the rules make of a packet, the next one from its node to that of this queue, and counts it. Where
    // it refuses, the queue is to be dropped: some copies may stand there.
    pub(crate) fn add(
        &mut self,
        alloc: Global,
        rules: &Rules,
        sending: Sending,
        round: u64,
    ) -> Result<(), AllocError>
        requires { AreNodes sending }
        ensures { OnOk result (queue_traffic self.new
            ≡ queue_sent rules.now sending.from sending.to sending.packet round
            (queue_traffic self.old)) }
    {
        let Sending { from, to, packet } = sending;
        let fate = rules.fate(from, to, self.next_number(from));
        let due = capped_sum(round, fate.delay);
        put_copies(alloc, &mut self.flights, packet, fate.copies, due)?;
        self.note_sent(from);
        Ok(())
    }

    // Puts a packet last that no rule is for, where there is room, and counts it.
    pub(crate) fn put(&mut self, sending: Sending, round: u64)
        requires nodes { AreNodes sending }
        requires room { 1 ≤ self.old.room }
        ensures sent { queue_traffic self.new
            ≡ queue_sent [] sending.from sending.to sending.packet round
            (queue_traffic self.old) }
        ensures room { self.old.room ≤ self.new.room + 1 }
    {
        let Sending { from, packet, .. } = sending;
        let due = capped_sum(round, 0);
        self.flights.push_back_reserved(Flight { packet, due });
        self.note_sent(from);
    }

    // Puts a copy of a packet last.
    pub(crate) fn repeat(&mut self, alloc: Global, place: usize) -> Result<(), AllocError>
        requires { place < length self.old.flights }
        ensures ok { OnOk result (self.new ≡ record {
          flights = with_copy self.old.flights place;
          counts = self.old.counts;
          room = self.new.room;
        }) }
        ensures err { OnErr result (self.new ≡ record (self.old) { room = self.new.room }) }
    {
        let original = &self.flights[place];
        let copy = Flight {
            packet: original.packet.copy(alloc)?,
            due: original.due,
        };
        self.flights.push_back(copy)?;
        Ok(())
    }

    pub(crate) fn take(&mut self, place: usize) -> Flight
        requires { place < length self.old.flights }
        ensures taken { slice_get self.old.flights place ≡ Some result }
        ensures left { self.new ≡ without self.old place }
    {
        // the first one is taken more often than any other, and no packet moves for it
        if place == 0 {
            return self.flights.pop_front().unwrap();
        }
        self.flights.remove(place).unwrap()
    }

    pub(crate) fn delay(&mut self, place: usize, rounds: u64)
        requires { place < length self.old.flights }
        ensures { self.new ≡ record (self.old) {
          flights = with_delay self.old.flights place rounds;
        } }
    {
        let flight = &mut self.flights[place];
        flight.due = capped_sum(flight.due, rounds);
    }

    pub(crate) fn count(&self, from: u8) -> u64
        requires { from < NODES }
        ensures { result ≡ slice_index self.now.counts from }
    {
        self.counts[from as usize]
    }

    // Which packet from a node the next one is, from 1.
    pub(crate) fn next_number(&self, from: u8) -> u64
        requires { from < NODES }
        ensures { result ≡ nth_in self.now.counts from }
    {
        capped_sum(self.count(from), 1)
    }
}
