//! How items are spelled outside.

/// How the items of a run are spelled, those that come and those that leave.
#[derive(Clone, Copy, Debug, PartialEq, Eq)]
pub enum Form {
    /// As numbers in decimal: separators stand between those that come, and each that leaves is a line.
    Decimal,
    /// As eight bytes each, in two's complement, the least significant byte first, with nothing between them.
    Binary,
}
