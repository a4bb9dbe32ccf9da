//! Why the items of a stream can't be read on.

ghost use Rattle.std.specs.Prelude.{◌≡◌};
ghost use Rattle.item_text.specs.Faults.{number_of, line_of};

use thiserror::Error;

/// What is wrong with the items of a stream, and the line on which it is found: 1 plus the line feeds before it.
#[derive(Clone, Copy, Debug, PartialEq, Eq, Error)]
pub enum ItemFault {
    /// Refusal 2: a character that can't stand at its place.
    #[error("line {line}: bad token")]
    BadToken { line: u64 },
    /// Refusal 4: a digit that takes its number past the signed 64 bits.
    #[error("line {line}: number out of range")]
    NumberRange { line: u64 },
}

impl ItemFault {
    /// The refusal's number: 2 for `BadToken`, 4 for `NumberRange`.
    pub fn number(self) -> u8
        ensures { result ≡ number_of self }
    {
        match self {
            ItemFault::BadToken { .. } => 2,
            ItemFault::NumberRange { .. } => 4,
        }
    }

    /// The line on which it is found.
    pub fn line(self) -> u64
        ensures { result ≡ line_of self }
    {
        match self {
            ItemFault::BadToken { line } | ItemFault::NumberRange { line } => line,
        }
    }
}
