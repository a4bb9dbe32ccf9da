//! Why a run comes to no end.

ghost use Rattle.std.specs.Prelude.{◌≡◌};
ghost use Rattle.cobaltmidge.specs.Failing.{hub_fault, run_fault_number, store_fault};

use ckpt_store::StoreFault;
use runtime::HubFault;
use thiserror::Error;

/// Why a run comes to no end.
#[derive(Clone, Copy, Debug, PartialEq, Eq, Error)]
pub enum RunFault {
    /// Refusal 1: memory is missing, also for a thread.
    #[error("no memory")]
    NoMemory,
    /// Refusal 20: a disk failed while the world was made.
    #[error("a disk failed while the world was made")]
    Device,
    /// Refusal 44: each node has a thread, or the history is kept, and a count of it would pass 2^63 - 1.
    #[error("a count of the history would pass 2^63 - 1")]
    PastNumber,
}

impl RunFault {
    /// The refusal's number.
    pub fn number(self) -> u8
        ensures { result ≡ run_fault_number self }
    {
        match self {
            RunFault::NoMemory => 1,
            RunFault::Device => 20,
            RunFault::PastNumber => 44,
        }
    }
}

/// A refusal of a store, while a world is made. (Of these only two are met: a disk of a run has room for each record.)
pub(crate) fn store_fault(fault: StoreFault) -> RunFault
    ensures { result ≡ store_fault fault }
{
    match fault {
        StoreFault::NoMemory => RunFault::NoMemory,
        _ => RunFault::Device,
    }
}

/// A refusal of the hub.
pub(crate) fn hub_fault(fault: HubFault) -> RunFault
    ensures { result ≡ hub_fault fault }
{
    match fault {
        HubFault::NoMemory => RunFault::NoMemory,
        HubFault::PastNumber => RunFault::PastNumber,
    }
}
