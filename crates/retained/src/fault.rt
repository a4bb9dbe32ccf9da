// Why a log refuses.
ghost use Rattle.std.specs.Prelude.{◌≡◌};
ghost use Rattle.retained.specs.Faults.{refusal_number};

use std::alloc::{AllocError, AllocFailed};
use thiserror::Error;

/// Why a log took no item. It is as it was.
#[derive(Clone, Copy, Debug, PartialEq, Eq, Error)]
pub enum LogFault {
    /// There is no memory. Refusal 1.
    #[error("no memory")]
    NoMemory,
    /// What was to be added doesn't all fit: a log holds at most `MAX_LOG_ITEMS`, and its end is at most
    /// `MAX_COUNT`. Refusal 50.
    #[error("the log is full")]
    Full,
}

impl LogFault {
    /// The refusal's number: 1 for `NoMemory`, 50 for `Full`.
    pub fn number(&self) -> u8
        ensures { result ≡ refusal_number self.now }
    {
        match self {
            LogFault::NoMemory => 1,
            LogFault::Full => 50,
        }
    }
}

impl From<AllocError> for LogFault {
    ghost use Rattle.retained.specs.declared.fault.LogFault.TheVariants.{NoMemory};

    ghost from_gives = { λ _ e. e ≡ NoMemory };

    fn from(_: AllocError) -> Self {
        LogFault::NoMemory
    }
}

impl<T: Drop> From<AllocFailed<T>> for LogFault {
    ghost use Rattle.retained.specs.declared.fault.LogFault.TheVariants.{NoMemory};

    ghost from_gives = { λ _ e. e ≡ NoMemory };

    fn from(_: AllocFailed<T>) -> Self {
        LogFault::NoMemory
    }
}
