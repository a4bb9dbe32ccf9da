//! An item that left.

/// An item, and the output by which it left, by the channel's number.
#[derive(Clone, Copy, Debug, PartialEq, Eq)]
pub struct Departure {
    pub output: u8,
    pub item: i64,
}
