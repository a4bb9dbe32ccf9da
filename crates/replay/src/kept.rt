// What a history keeps, but for jobs.

use protocol::{Leaving, PlainEvent, Reply};

/// Who makes an event: a node in its turn, or the driver, who goes through the script.
#[derive(Clone, Copy, Debug, PartialEq, Eq)]
pub enum Maker {
    Node(u8),
    Driver,
}

/// An answer as it is kept: of a grant without its job, which the world of before fixes, and of a release without its shares.
pub type KeptReply = Reply<(), Leaving>;

/// Why no event was made.
#[derive(Clone, Copy, Debug, PartialEq, Eq)]
pub enum Silence {
    /// To let its turn pass is all that the node could do, and it has done so in this round.
    Nothing(u8),
    /// The next line of the script is of an earlier round, and comes before the node's turn.
    Late(u8),
    /// The next line of the script isn't due yet.
    NotYet,
    /// The script has no line left.
    NoMore,
}

/// What comes at a node's turn.
#[derive(Clone, Copy)]
pub enum NextTurn {
    /// Nothing: to let its turn pass is all that the node could do, and it has done so in this round.
    Rest,
    /// More room for this channel: the node could but let its turn pass, and a process of its own is held at a put since that
    /// channel needs more.
    Widen(u8),
    /// The event that is next for the node.
    Make,
}

/// A crash at the end of a delivery.
#[derive(Clone, Copy, Debug, PartialEq, Eq)]
pub struct ArmedCrash {
    pub node: u8,
    /// Of the node's deliveries since the world began, from 1, over its crashes: also those of which the packet was dropped or in
    /// which its device failed.
    pub delivery: u64,
    /// The byte by which the node's disk is settled.
    pub fill: u8,
    /// It may be recovered so many rounds later.
    pub rounds: u64,
}

/// An event of a run, other than that a turn comes back: of its world, or that a crash is armed, of which a world by itself knows
/// nothing.
#[derive(Clone, Copy, Debug, PartialEq, Eq)]
pub enum RunEvent {
    World(PlainEvent),
    /// The node is to crash at the end of a delivery.
    ArmCrash(ArmedCrash),
}

/// A line of a script: an event, and the round from which it is due.
#[derive(Clone, Copy, Debug, PartialEq, Eq)]
pub struct ScriptedEvent {
    pub round: u64,
    pub event: RunEvent,
}
