//! What a network may have at most, and how far its counts go.

/// The most nodes of a network: they are numbered from 0 to 15.
pub const MAX_NODES: u8 = 16;

/// The most processes of a network.
pub const MAX_PROCESSES: usize = 64;

/// The most channels of a network, inputs and outputs among them.
pub const MAX_CHANNELS: usize = 256;

/// The most variables of a process.
pub const MAX_VARIABLES: usize = 64;

/// The most units of a process, which measure the length of its statements.
pub const MAX_UNITS: usize = 4_096;

/// The most items of an input that is read from a text, and of a history that is computed whole.
pub const MAX_HISTORY_ITEMS: usize = 1_048_576;

/// The greatest count of items: no position, number, epoch or round passes it either.
pub const MAX_COUNT: u64 = (1 << 63) - 1;

/// The most times that a repetition makes its block.
pub const MAX_TIMES: u16 = 1_000;

/// The most times that a repetition makes its block for each time that the outermost one round it is begun.
pub const MAX_NESTED_TIMES: u32 = 1_000_000;

/// The most repetitions round a statement.
pub const MAX_REPEATS: usize = 64;
