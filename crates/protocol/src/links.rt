//! The ends of channels between nodes, as a node has them in memory.

use retained::Log;
use window_link::{RecvWindow, SendWindow};

/// What came of a channel from another node, and wasn't got yet.
///
/// The log begins behind what the node's process has got, and ends where the window goes on.
pub struct Inbox {
    pub channel: u8,
    /// Which position of the channel is taken next.
    pub window: RecvWindow,
    /// What came, and wasn't got yet.
    pub log: Log,
    /// The last epoch of the channel's sender of which this end was told, and that was handled: 0 before the first, and
    /// where the node came back since.
    pub undone: u64,
}

// Written out, since each crate above would go through a derived one again.
impl Drop for Inbox {
    fn drop(self) {
        let Self {
            channel,
            window,
            log,
            undone,
        } = self;
    }
}

/// The end of a channel on which the node puts, and from which another node gets. The items to be sent lie in the log of the
/// node's image.
#[derive(Clone, Copy, Debug)]
pub struct Outbox {
    pub channel: u8,
    /// Which positions of the channel are under way.
    pub window: SendWindow,
    /// How many items the image had put that the node restored last: 0 where it never restored one.
    pub restored: u64,
}
