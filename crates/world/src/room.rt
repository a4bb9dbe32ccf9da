// The rooms of channels, which are set.
ghost use Rattle.std.specs.Prelude.{◌≡◌, OnErr, OnOk, slice_index, slice_set};
ghost use Rattle.protocol.specs.Node.Sharing.{IsRoom, even_rooms};
ghost use Rattle.protocol.specs.World.Common.{with_rooms};
ghost use Rattle.world.specs.WholeView.{arrived_in, closed_in, net_in, stations_in, wire_in, world_of};

use crate::world::World;
use ckpt_codec::MAX_RETAINED_ITEMS;
use outlet::Outlet;
use protocol::{MIN_ROOM, Rooms};
use slot_cell::SlotCell;
use thiserror::Error;

/// No room that a channel may have. It is from `MIN_ROOM` to `MAX_RETAINED_ITEMS` items.
#[derive(Clone, Copy, Debug, PartialEq, Eq, Error)]
#[error("the room of a channel isn't from 64 to 57344 items")]
pub struct RoomOutOfRange;

// Refuses a number of items out of range.
fn within_range(items: usize) -> Result<(), RoomOutOfRange>
    ensures within { OnOk result (IsRoom items) }
    ensures refused { OnErr result (¬ (IsRoom items)) }
{
    if items < MIN_ROOM || items > MAX_RETAINED_ITEMS {
        return Err(RoomOutOfRange);
    }
    Ok(())
}

impl<C: SlotCell, O: Outlet> World<C, O> {
    /// How many items a channel retains at most, where its share of a record isn't less.
    pub fn room(&self, channel: u8) -> usize
        ensures { result ≡ slice_index (world_of self.now).rooms channel }
    {
        self.channel_rooms.of(channel)
    }

    /// How many items each channel retains at most, by its number.
    pub fn rooms(&self) -> &Rooms
        ensures { result.now ≡ (world_of self.now).rooms }
    {
        &self.channel_rooms
    }

    /// Sets how many items each channel retains at most: from `MIN_ROOM` to `MAX_RETAINED_ITEMS`. It bounds what jobs that are
    /// granted from now on may put. A job that is out keeps the room that it was given, and a log that holds more takes
    /// nothing until it has shrunk. A number out of range is refused, and nothing is changed. Takes no memory.
    pub fn set_room(&mut self, items: usize) -> Result<(), RoomOutOfRange>
        // The rooms are what differs, and nothing else.
        ensures set { OnOk result (world_of self.new ≡ with_rooms (even_rooms items) (world_of self.old)) }
        ensures unchanged { OnErr result (world_of self.new ≡ world_of self.old) }
        ensures same { (net_in self.new ≡ net_in self.old) × (arrived_in self.new ≡ arrived_in self.old)
            × (stations_in self.new ≡ stations_in self.old) × (wire_in self.new ≡ wire_in self.old) }
        ensures same_closed { closed_in self.new ≡ closed_in self.old }
        // Refused are exactly the numbers out of range.
        ensures within { OnOk result (IsRoom items) }
        ensures refused { OnErr result (¬ (IsRoom items)) }
    {
        within_range(items)?;
        self.channel_rooms = Rooms::even(items);
        Ok(())
    }

    /// Sets how many items one channel retains at most, as `set_room` does for all.
    pub fn set_room_of(&mut self, channel: u8, items: usize) -> Result<(), RoomOutOfRange>
        // Its room is what differs, and nothing else.
        ensures set { OnOk result (world_of self.new
            ≡ with_rooms (slice_set (world_of self.old).rooms channel items) (world_of self.old)) }
        ensures unchanged { OnErr result (world_of self.new ≡ world_of self.old) }
        ensures same { (net_in self.new ≡ net_in self.old) × (arrived_in self.new ≡ arrived_in self.old)
            × (stations_in self.new ≡ stations_in self.old) × (wire_in self.new ≡ wire_in self.old) }
        ensures same_closed { closed_in self.new ≡ closed_in self.old }
        ensures within { OnOk result (IsRoom items) }
        ensures refused { OnErr result (¬ (IsRoom items)) }
    {
        within_range(items)?;
        self.channel_rooms.set(channel, items);
        Ok(())
    }
}
