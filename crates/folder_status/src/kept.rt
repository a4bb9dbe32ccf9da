//! What the file of an output held.

/// What the file of an output held when it was read.
#[derive(Debug, Drop)]
pub struct KeptOutput {
    /// The output's channel.
    pub channel: u8,
    /// The items of its lines.
    pub items: Vec<i64>,
    /// How many bytes stood behind the last line feed: the beginning of a line.
    pub cut_off: u64,
}
