// The window of a link's receiver.
ghost use Rattle.std.specs.Prelude.{◌≡◌, ◌≤◌, ◌<◌, ◌↔◌, ◌++◌, [], ◌∷◌, None, Some, IfOk, IsTrue, drop, length, replicate, slice_get, slice_set};
ghost use Rattle.window_link.specs.Windows.{ack_of, arrival_at, held_at, popped, received};

use crate::sending::LARGEST_WINDOW;
use circular_buffer::HeapCircularBuffer;
use kahn_net::MAX_COUNT;
use std::alloc::{AllocError, Global};
use std::marker::Model;

/// What became of an item that came.
#[derive(Clone, Copy, Debug, PartialEq, Eq)]
pub enum Arrival {
    /// It is the next one: the caller takes it.
    Taken,
    /// It overtook others: the window holds it until those before it have come.
    Held,
    /// It is dropped.
    Dropped,
}

/// What a receiver tells its sender: its epoch, and the position that it takes next.
#[derive(Clone, Copy, Debug, PartialEq, Eq)]
pub struct Ack {
    /// The receiver's epoch.
    pub epoch: u64,
    /// The position that it takes next.
    pub next: u64,
}

/// Which position of a channel the receiver takes next, in which epoch, and the items that overtook it.
///
/// It has a place for each of so many positions, the next one being the first. An item of one of these is held until its
/// turn comes.
pub struct RecvWindow {
    epoch: u64,
    next: u64,
    // the place k is for the position `next + k`
    held: HeapCircularBuffer<Option<i64>>,
}

// Written out, since each crate above would go through a derived one again.
impl Drop for RecvWindow {
    fn drop(self) {
        let Self { epoch, next, held } = self;
    }
}

impl Model for RecvWindow {
    ghost use Rattle.window_link.specs.Windows.{Receiver, IsReceiver};

    ghost Value = { Receiver };

    ghost view = { λ window. record {
      epoch = window.epoch;
      next = window.next;
      held = window.held.items;
    } };

    ghost invariant = { λ window. IsReceiver window.epoch window.next window.held };
}

// Fills an empty ring with free places.
fn fill(held: &mut HeapCircularBuffer<Option<i64>>, size: usize)
    requires { (held.old.items ≡ []) × (held.old.capacity ≡ size) }
    ensures { (held.new.items ≡ replicate size None) × (held.new.capacity ≡ size) }
{
    for _place in 0..size {
        held.push_back(None);
    }
}

fn is_free(held: &HeapCircularBuffer<Option<i64>>, place: usize) -> bool
    ensures { IsTrue result ↔ (slice_get held.now.items place ≡ Some None) }
{
    held.get(place) == Some(&None)
}

// Lets go of the first place: the others move up, and the last one is free.
fn advance(held: &mut HeapCircularBuffer<Option<i64>>)
    requires { (length held.old.items ≡ held.old.capacity) × (1 ≤ held.old.capacity) }
    ensures { (held.new.items ≡ drop 1 held.old.items ++ None ∷ [])
        × (held.new.capacity ≡ held.old.capacity) }
{
    held.pop_front();
    held.push_back(None);
}

fn put(held: &mut HeapCircularBuffer<Option<i64>>, place: usize, item: i64)
    requires { place < length held.old.items }
    ensures { (held.new.items ≡ slice_set held.old.items place (Some item))
        × (held.new.capacity ≡ held.old.capacity) }
{
    if let Some(free) = held.get_mut(place) {
        *free = Some(item);
    }
}

impl RecvWindow {
    /// The window of a channel from its first position on, in epoch 0, with so many places. Refuses for want of memory;
    /// no other call takes any.
    pub fn new(alloc: Global, size: u64) -> Result<RecvWindow, AllocError>
        requires { (1 ≤ size) × (size ≤ LARGEST_WINDOW) }
        ensures { IfOk result
            (λ window. window ≡ record { epoch = 0; next = 0; held = replicate size None }) }
    {
        let mut held = HeapCircularBuffer::with_capacity(alloc, size as usize)?;
        fill(&mut held, size as usize);
        Ok(RecvWindow {
            epoch: 0,
            next: 0,
            held,
        })
    }

    /// For how many positions it has a place.
    pub fn size(&self) -> usize
        ensures value { result ≡ length self.now.held }
        ensures within { (1 ≤ result) × (result ≤ LARGEST_WINDOW) }
    {
        self.held.capacity()
    }

    /// What would become of an item of this position.
    pub fn arrival(&self, position: u64) -> Arrival
        ensures { result ≡ arrival_at self.now position }
    {
        if position < self.next || position >= MAX_COUNT {
            return Arrival::Dropped;
        }
        if !is_free(&self.held, (position - self.next) as usize) {
            return Arrival::Dropped;
        }
        if position == self.next {
            return Arrival::Taken;
        }
        Arrival::Held
    }

    /// The item of a position came. Tells what becomes of it: the next one is taken, one that overtook others is held,
    /// and one of a position below the next one, past the window, or that is held already is dropped.
    pub fn take(&mut self, position: u64, item: i64) -> Arrival
        ensures answer { result ≡ (received self.old position item).answer }
        ensures window { self.new ≡ (received self.old position item).window }
    {
        let arrival = self.arrival(position);
        match arrival {
            Arrival::Taken => {
                advance(&mut self.held);
                self.next += 1;
            }
            Arrival::Held => put(&mut self.held, (position - self.next) as usize, item),
            Arrival::Dropped => {}
        }
        arrival
    }

    /// The item that is held so many places behind the next position: of the next one at 0.
    pub fn held_at(&self, place: usize) -> Option<i64>
        ensures { result ≡ held_at self.now place }
    {
        match self.held.get(place) {
            Some(held) => *held,
            None => None,
        }
    }

    /// The item of the next position, if it is held. The position behind it is the next one then.
    pub fn pop(&mut self) -> Option<i64>
        ensures item { result ≡ (popped self.old).item }
        ensures window { self.new ≡ (popped self.old).window }
    {
        if self.next == MAX_COUNT {
            return None;
        }
        let item = self.held_at(0)?;
        advance(&mut self.held);
        self.next += 1;
        Some(item)
    }

    /// What the sender is told.
    pub fn ack(&self) -> Ack
        ensures value { result ≡ ack_of self.now }
        ensures within { (result.epoch ≤ MAX_COUNT) × (result.next ≤ MAX_COUNT) }
    {
        Ack {
            epoch: self.epoch,
            next: self.next,
        }
    }

    /// The receiver goes on from this position in this epoch, and holds nothing.
    pub fn set_back(&mut self, next: u64, epoch: u64)
        requires { (next ≤ MAX_COUNT) × (epoch ≤ MAX_COUNT) }
        ensures { self.new ≡ record {
          epoch = epoch;
          next = next;
          held = replicate (length self.old.held) None;
        } }
    {
        let size = self.size();
        let RecvWindow { held, .. } = self;
        held.clear();
        fill(held, size);
        self.epoch = epoch;
        self.next = next;
    }
}
