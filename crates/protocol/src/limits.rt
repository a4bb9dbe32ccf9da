//! Limits of a node's events and of a round.

/// The most items of a channel in a job, and the most places of room.
pub const MAX_JOB_ITEMS: usize = 64;

/// The most jobs that are counted in a round.
pub const MAX_GRANTS: u8 = 64;

/// The most items of an inbox: what came of a channel from another node, and wasn't got yet.
pub const MAX_INBOX_ITEMS: usize = 1_024;

/// How many positions of a channel between nodes may be under way.
pub const WINDOW: u64 = 64;

/// How many items a channel retains at most, unless the world is told otherwise. Each checkpoint writes what is
/// retained, so a small number makes checkpoints quick; a network that has more on a channel at once needs more.
pub const DEFAULT_ROOM: usize = 4_096;

/// The least room of a channel: as many items as a job puts there at most.
pub const MIN_ROOM: usize = 64;
