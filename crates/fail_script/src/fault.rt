//! Why a script can't be read.

ghost use Rattle.std.specs.Prelude.{◌≡◌};
ghost use Rattle.fail_script.specs.Faults.{number_of, line_of};
ghost use Rattle.fail_script.specs.declared.fault.ScriptFault.TheVariants.{NoMemory};

use std::alloc::{AllocError, AllocFailed};
use thiserror::Error;

/// What is wrong with a script, and on which line, from 1.
#[derive(Clone, Copy, Debug, PartialEq, Eq, Error)]
pub enum ScriptFault {
    /// Refusal 1. The script says nothing of it.
    #[error("no memory")]
    NoMemory,
    /// Refusal 70: a line of no form, a number out of its range, a round below that of a line before, or a script that is
    /// too long, on line 1.
    #[error("line {line}: no line of a script")]
    BadLine { line: usize },
    /// Refusal 71: a line that is right but for a node that the network doesn't have.
    #[error("line {line}: unknown node")]
    UnknownNode { line: usize },
}

impl ScriptFault {
    /// The refusal's number.
    pub fn number(self) -> u8
        ensures { result ≡ number_of self }
    {
        match self {
            ScriptFault::NoMemory => 1,
            ScriptFault::BadLine { .. } => 70,
            ScriptFault::UnknownNode { .. } => 71,
        }
    }

    /// The line, but for want of memory.
    pub fn line(self) -> Option<usize>
        ensures { result ≡ line_of self }
    {
        match self {
            ScriptFault::NoMemory => None,
            ScriptFault::BadLine { line } | ScriptFault::UnknownNode { line } => Some(line),
        }
    }
}

impl From<AllocError> for ScriptFault {
    ghost from_gives = { λ _ e. e ≡ NoMemory };

    fn from(_: AllocError) -> Self {
        ScriptFault::NoMemory
    }
}

impl<T: Drop> From<AllocFailed<T>> for ScriptFault {
    ghost from_gives = { λ _ e. e ≡ NoMemory };

    fn from(_: AllocFailed<T>) -> Self {
        ScriptFault::NoMemory
    }
}
