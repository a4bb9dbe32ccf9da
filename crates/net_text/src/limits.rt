//! How long texts and names may be, and how deep a text may nest.

/// The most bytes of a network's text.
pub const MAX_TEXT_BYTES: usize = 1_048_576;

/// The most bytes of an inputs text.
pub const MAX_INPUTS_BYTES: usize = 16_777_216;

/// The most bytes of a name.
pub const MAX_NAME_BYTES: usize = 64;

/// The most blocks, parentheses and minus signs that may be open around a place of a network's text.
pub const MAX_NESTING: usize = 64;
