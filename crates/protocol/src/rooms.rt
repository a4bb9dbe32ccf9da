//! The rooms of channels.
ghost use Rattle.std.specs.Prelude.{◌≡◌, slice_index, slice_set};
ghost use Rattle.protocol.specs.Node.Sharing.{AreRooms, IsRoom, even_rooms, wider, wider_at};

use ckpt_codec::MAX_RETAINED_ITEMS;
use kahn_net::MAX_CHANNELS;
use std::marker::Model;

/// The room of each channel, by its number: how many items a job may leave its log with, from `MIN_ROOM` to `MAX_RETAINED_ITEMS`.
#[derive(Clone, Copy, Debug, PartialEq, Eq)]
pub struct Rooms {
    items: [u16; MAX_CHANNELS],
}

impl Model for Rooms {
    ghost use Rattle.std.specs.Prelude.{List, ℕ};
    ghost use Rattle.protocol.specs.Node.Sharing.{AreRooms};

    ghost Value = { List ℕ };

    ghost view = { λ rooms. rooms.items };

    ghost invariant = { λ rooms. AreRooms rooms.items };

    ghost inverse = { λ items. record { items = items } };
}

// Twice the room of a channel, and no more than a record has.
fn wider(room: usize) -> usize
    requires { IsRoom room }
    ensures value { result ≡ wider room }
    ensures room { IsRoom result }
{
    if room < MAX_RETAINED_ITEMS / 2 {
        room * 2
    } else {
        MAX_RETAINED_ITEMS
    }
}

impl Rooms {
    /// The same room for each channel.
    pub fn even(items: usize) -> Rooms
        requires { IsRoom items }
        ensures { result ≡ even_rooms items }
    {
        Rooms {
            items: [items as u16; MAX_CHANNELS],
        }
    }

    /// The room of a channel.
    pub fn of(&self, channel: u8) -> usize
        ensures value { result ≡ slice_index self.now channel }
        ensures room { IsRoom result }
    {
        usize::from(self.items[usize::from(channel)])
    }

    /// Gives a channel so much.
    pub fn set(&mut self, channel: u8, items: usize)
        requires { IsRoom items }
        ensures { self.new ≡ slice_set self.old channel items }
    {
        self.items[usize::from(channel)] = items as u16;
    }

    /// Gives a channel twice its room, up to `MAX_RETAINED_ITEMS`.
    pub fn widen(&mut self, channel: u8)
        ensures { self.new ≡ wider_at channel self.old }
    {
        let items = wider(self.of(channel));
        self.set(channel, items);
    }

    /// Each number that a channel may have has a room that a channel may be given.
    pub fn are_rooms(&self)
        ensures { AreRooms self.now }
    {
        let _items = &self.items;
    }
}
