//! The versions of a record's spelling.

/// The first version: a record has one decision at most.
pub const FIRST_VERSION: u8 = 1;

/// The version in which records are written: a record has up to `record::MAX_DECISIONS` decisions. Both are read.
pub const VERSION: u8 = 2;
