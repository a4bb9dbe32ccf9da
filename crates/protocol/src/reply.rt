//! What comes of an event.

use crate::outcome::Refusal;

/// What came of an event. `J` is what stands for the job that was granted, `R` what stands for the item that left: a world answers
/// with the things themselves, and a history keeps less.
#[derive(Clone, Copy, Debug, PartialEq, Eq)]
pub enum Reply<J, R> {
    /// The packet came to the node. It is no longer in flight, and may have changed nothing.
    Delivered,
    /// It spells no packet, or one that isn't for this node or names what isn't there: it is gone (33). In a world this can't
    /// happen, since all that is in flight was sent by its nodes.
    Dropped,
    /// A job was granted.
    Granted(J),
    /// The turn was taken in.
    Installed,
    /// What came back isn't of the job that is out. It is gone.
    Discarded,
    Sent,
    Started,
    Decided,
    /// A start was refused: its record would be too large (22), or its number would pass 2^63 - 1 (44); or a recovery, whose
    /// epoch would (44).
    Refused(Refusal),
    /// An item left.
    Released(R),
    /// The outlet failed. It took the item or didn't.
    OutletFailed,
    Crashed,
    /// The node runs again, from its permanent image.
    Recovered,
    /// The node is up again, and holds another's tentative image: it waits for the verdict.
    InDoubt,
    /// The device failed in this event, and the node is down.
    Down,
    /// What was to be prepared is, or the network has done so.
    Acted,
    Idled,
    /// The event can't happen now, or its node isn't of this world. Nothing is changed.
    NotDue,
}

/// The item that left, by its place: how many have left by this output then.
#[derive(Clone, Copy, Debug, PartialEq, Eq)]
pub struct Leaving {
    pub output: u8,
    pub number: u64,
}
