// How a hub stands.

use run_log::Moment;

/// How a hub stood at some moment, as far as anybody waits for it.
#[derive(Clone, Copy, Debug, PartialEq, Eq)]
pub struct Seen {
    pub moment: Moment,
    /// How many items have left, all outputs together. It stays at 2^64 - 1.
    pub left: u64,
}
