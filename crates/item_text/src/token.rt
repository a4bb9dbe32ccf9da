//! How far an item has been read.

/// What stands at the end of the bytes read so far.
#[derive(Clone, Copy, Debug)]
pub enum Token {
    /// A separator, or nothing yet.
    Between,
    /// A `-` with no digit behind it.
    Minus,
    /// Digits, behind a `-` or none, and the number that they write.
    Digits { negative: bool, magnitude: u64 },
}
