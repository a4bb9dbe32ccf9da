//! The limits of a script.

/// The most bytes of a script.
pub const MAX_SCRIPT_BYTES: usize = 1_048_576;

/// The last round at which a line may stand.
pub const MAX_ROUND: u32 = 1_000_000;

/// The greatest count of packets, of deliveries or of device calls that a line may name.
pub const MAX_COUNT: u32 = 1_000_000_000;

/// The greatest byte by which a crash fills what is in doubt.
pub const MAX_FILL: u32 = 255;

/// The most rounds for which a packet may be late or a node down.
pub const MAX_ROUNDS: u32 = 1_000_000;

// The greatest number of a node that a line is read with: no network has as many, so a greater one is read as this.
pub(crate) const BEYOND_NODES: u8 = 255;

// The least number that 32 bits don't hold.
pub(crate) const PAST_NUMBERS: u64 = 1 << 32;
