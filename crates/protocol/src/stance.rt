//! How a process stands in its world.

/// How a process stands while no channel gets more room.
#[derive(Clone, Copy, Debug, PartialEq, Eq)]
pub enum Stance {
    /// It goes on: it is ready, its job is out, its node comes back, or something is under way that lets it.
    GoesOn,
    /// It has finished, or its node can grant no job any more.
    Ended,
    /// It gets from this channel, of which nothing is at hand, and nothing is under way.
    Waits { channel: usize },
    /// It puts on this channel, whose log has no place, and nothing is on its way out of it. With more room for the channel
    /// there would be one.
    Held { channel: usize },
    /// It puts on this channel likewise, but the log has all the items that it may have, whatever room the channel gets.
    Full { channel: usize },
}
