// The history of a run, line by line.
use proc_step::Job;
use replay::{KeptReply, Maker, RunEvent, Silence};
use std::mem::size_of;
use std::sync::Arc;

/// An event as it is kept: of a turn that came back a share of its job, since what was taken and sent is the process's own turn
/// on that.
#[derive(Drop)]
pub enum KeptEvent {
    Plain(RunEvent),
    Install(Arc<Job>),
}

/// An event, with who made it and what was answered.
#[derive(Drop)]
pub struct Entry {
    pub maker: Maker,
    pub event: KeptEvent,
    pub reply: KeptReply,
}

/// What a node does most, and was answered as it mostly is.
#[derive(Clone, Copy, Debug, PartialEq, Eq)]
pub enum UsualEvent {
    /// The first packet of those in flight to the node came to it.
    Deliver,
    Grant,
    Send,
    Start,
    Decide,
    Idle,
}

/// A usual event of a node so often, one time after another.
#[derive(Clone, Copy, Debug, PartialEq, Eq)]
pub struct Usual {
    pub node: u8,
    pub event: UsualEvent,
    pub times: u8,
}

/// How many usual events have room in one line.
pub const USUALS: usize = 5;

/// An event so often, one time after another, each time with the same answer.
#[derive(Drop)]
pub struct LongLine {
    pub entry: Entry,
    pub times: u64,
}

/// A line of a history. Runs have one for each event or for a few of them, so it takes 16 bytes.
#[derive(Drop)]
pub enum Line {
    /// Usual events, one behind another. Where fewer stand here the last ones have no times.
    Few([Usual; USUALS]),
    /// So many items in a row left by an output of this node. The first one has this number.
    Left {
        node: u8,
        output: u8,
        times: u32,
        first: u64,
    },
    /// A turn of this node came back, and was taken in, or was of a job that isn't out.
    CameBack {
        node: u8,
        is_taken: bool,
        job: Arc<Job>,
    },
    /// Any other event.
    Long(Box<LongLine>),
    /// So often no event was made for this reason, between two events.
    Silent {
        reason: Silence,
        count: u64,
    },
    /// This channel needed more room, and got it.
    Widened(u8),
}

const _: () = prove!(size_of::<Line>() == 16);

/// All that happened in a run, where it was kept, and how often a seat was answered `Stopped`.
pub struct History {
    pub lines: Vec<Line>,
    pub stops: u64,
}

// Written out, since each crate above would go through a derived one again.
impl Drop for History {
    fn drop(self) {
        let Self { lines, stops } = self;
    }
}
