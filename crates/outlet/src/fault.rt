// Why an outlet refuses.
ghost use Rattle.std.specs.Prelude.{◌≡◌};
ghost use Rattle.outlet.specs.Faults.{refusal_number};

use std::alloc::{AllocError, AllocFailed};
use thiserror::Error;

/// Why an outlet refused an item.
#[derive(Clone, Copy, Debug, PartialEq, Eq, Error)]
pub enum OutletFault {
    /// There is no memory. The item wasn't taken. Refusal 1.
    #[error("no memory")]
    NoMemory,
    /// The outlet failed. The item may have been taken all the same. Refusal 60.
    #[error("the outlet failed")]
    Failed,
}

impl OutletFault {
    /// The refusal's number: 1 for `NoMemory`, 60 for `Failed`.
    pub fn number(&self) -> u8
        ensures { result ≡ refusal_number self.now }
    {
        match self {
            OutletFault::NoMemory => 1,
            OutletFault::Failed => 60,
        }
    }
}

impl From<AllocError> for OutletFault {
    ghost use Rattle.outlet.specs.declared.fault.OutletFault.TheVariants.{NoMemory};

    ghost from_gives = { λ _ e. e ≡ NoMemory };

    fn from(_: AllocError) -> Self {
        OutletFault::NoMemory
    }
}

impl<T: Drop> From<AllocFailed<T>> for OutletFault {
    ghost use Rattle.outlet.specs.declared.fault.OutletFault.TheVariants.{NoMemory};

    ghost from_gives = { λ _ e. e ≡ NoMemory };

    fn from(_: AllocFailed<T>) -> Self {
        OutletFault::NoMemory
    }
}
