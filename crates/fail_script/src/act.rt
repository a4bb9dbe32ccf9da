//! What a script's lines do.

/// What one line breaks, or does.
#[derive(Clone, Copy, Debug)]
pub enum Act {
    /// The packet of this count, from 1, of those that go from one node to another isn't put in flight.
    Lose {
        from: u8,
        to: u8,
        count: u32,
    },
    /// It is put in flight twice.
    Repeat {
        from: u8,
        to: u8,
        count: u32,
    },
    /// It is due so many rounds later.
    Delay {
        from: u8,
        to: u8,
        count: u32,
        rounds: u32,
    },
    /// The node crashes now. What its disk has in doubt is filled with this byte, and it may be recovered so many
    /// rounds later; so for the next two.
    Crash {
        node: u8,
        fill: u8,
        rounds: u32,
    },
    /// The node crashes at the end of its delivery of this count, from 1.
    CrashAtDelivery {
        node: u8,
        count: u32,
        fill: u8,
        rounds: u32,
    },
    /// The node's disk stops at its device call of this count, from 1.
    StopAtCall {
        node: u8,
        count: u32,
        fill: u8,
        rounds: u32,
    },
    /// The node's device call of this count fails.
    FailCall {
        node: u8,
        count: u32,
    },
    /// The node begins a checkpoint.
    Start {
        node: u8,
    },
}

/// A line: what it does, once the world has come to its round.
#[derive(Clone, Copy, Debug)]
pub struct ScriptLine {
    pub round: u32,
    pub act: Act,
}

/// A script: its lines, whose rounds don't fall.
#[derive(Drop, Debug)]
pub struct Script {
    pub lines: Vec<ScriptLine>,
}
