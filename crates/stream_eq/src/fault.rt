//! Why the solver gives no answer.

ghost use Rattle.std.specs.Prelude.{◌≡◌};
ghost use Rattle.stream_eq.specs.Faults.{number_of};
ghost use Rattle.stream_eq.specs.declared.fault.Fault.TheVariants.{NoMemory};

use std::alloc::{AllocError, AllocFailed};
use thiserror::Error;

/// Why the solver gives no answer.
#[derive(Clone, Copy, Debug, PartialEq, Eq, Error)]
pub enum Fault {
    /// Refusal 1.
    #[error("no memory")]
    NoMemory,
    /// Refusal 19: a history of more than 1,048,576 items.
    #[error("history too long")]
    Long,
}

impl Fault {
    /// The refusal's number.
    pub fn number(self) -> u8
        ensures { result ≡ number_of self }
    {
        match self {
            Fault::NoMemory => 1,
            Fault::Long => 19,
        }
    }
}

impl From<AllocError> for Fault {
    ghost from_gives = { λ _ e. e ≡ NoMemory };

    fn from(_: AllocError) -> Self {
        Fault::NoMemory
    }
}

impl<T: Drop> From<AllocFailed<T>> for Fault {
    ghost from_gives = { λ _ e. e ≡ NoMemory };

    fn from(_: AllocFailed<T>) -> Self {
        Fault::NoMemory
    }
}
