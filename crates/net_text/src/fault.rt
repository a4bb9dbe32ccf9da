//! Why a text can't be read.

ghost use Rattle.std.specs.Prelude.{◌≡◌};
ghost use Rattle.net_text.specs.Faults.{number_of, line_of};
ghost use Rattle.net_text.specs.declared.fault.TextFault.TheVariants.{NoMemory};

use std::alloc::{AllocError, AllocFailed};
use thiserror::Error;

/// What is wrong with a text, and the line on which it is found: 1 plus the line feeds before it.
#[derive(Clone, Copy, Debug, PartialEq, Eq, Error)]
pub enum TextFault {
    /// Refusal 1. The text says nothing of it.
    #[error("no memory")]
    NoMemory,
    /// Refusal 2: a character that begins no token, or that can't stand at its place.
    #[error("line {line}: bad token")]
    BadToken { line: usize },
    /// Refusal 3: a token, or the end of the text, at which the text can't go on.
    #[error("line {line}: unexpected")]
    Unexpected { line: usize },
    /// Refusal 4: a number that doesn't fit the signed 64 bits, or a repetition's that isn't from 1 to 1000.
    #[error("line {line}: number out of range")]
    NumberRange { line: usize },
    /// Refusal 5: a name of more than 64 bytes, a text past its limit, or a token that opens the
    /// 65th block, parenthesis or minus sign.
    #[error("line {line}: too long")]
    TooLong { line: usize },
}

impl TextFault {
    /// The refusal's number.
    pub fn number(self) -> u8
        ensures { result ≡ number_of self }
    {
        match self {
            TextFault::NoMemory => 1,
            TextFault::BadToken { .. } => 2,
            TextFault::Unexpected { .. } => 3,
            TextFault::NumberRange { .. } => 4,
            TextFault::TooLong { .. } => 5,
        }
    }

    /// The line, but for want of memory.
    pub fn line(self) -> Option<usize>
        ensures { result ≡ line_of self }
    {
        match self {
            TextFault::NoMemory => None,
            TextFault::BadToken { line }
            | TextFault::Unexpected { line }
            | TextFault::NumberRange { line }
            | TextFault::TooLong { line } => Some(line),
        }
    }
}

impl From<AllocError> for TextFault {
    ghost from_gives = { λ _ e. e ≡ NoMemory };

    fn from(_: AllocError) -> Self {
        TextFault::NoMemory
    }
}

impl<T: Drop> From<AllocFailed<T>> for TextFault {
    ghost from_gives = { λ _ e. e ≡ NoMemory };

    fn from(_: AllocFailed<T>) -> Self {
        TextFault::NoMemory
    }
}
