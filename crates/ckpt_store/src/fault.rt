//! Why a store refuses.
ghost use Rattle.std.specs.Prelude.{◌≡◌};
ghost use Rattle.ckpt_store.specs.StoreFault.{refusal_number, is_failure, of_cell, of_codec};
ghost use Rattle.ckpt_store.specs.declared.fault.StoreFault.TheVariants.{NoMemory};

use ckpt_codec::CodecFault;
use gate_cell::CellFault;
use std::alloc::{AllocError, AllocFailed};
use thiserror::Error;

/// Why a call of a store was refused.
#[derive(Clone, Copy, Debug, PartialEq, Eq, Error)]
pub enum StoreFault {
    /// There is no memory. The store is as it was. Refusal 1.
    #[error("no memory")]
    NoMemory,
    /// The device failed. From now on the store answers `Reopen`. Refusal 20.
    #[error("the device failed")]
    Device,
    /// The record's spelling is longer than a record may be, or than the cell has room for. Refusal 22.
    #[error("the record is too large")]
    TooLarge,
    /// The store crashed, or its device failed, and it has not been reopened since. Refusal 23.
    #[error("the store has to be opened again")]
    Reopen,
    /// The value ends where a record goes on. Refusal 30.
    #[error("truncated")]
    Truncated,
    /// The value's first byte is another version's. Refusal 31.
    #[error("another version")]
    Version,
    /// The value has a number that can't stand where it does, or something behind the record. Refusal 32.
    #[error("malformed")]
    Malformed,
    /// Another instance's image is held. Refusal 40.
    #[error("another instance is held")]
    HoldsOther,
    /// The number isn't above the highest seen of its initiator. Refusal 41.
    #[error("a past number")]
    PastNumber,
    /// This instance isn't held. Refusal 42.
    #[error("not held")]
    NotHeld,
    /// A decision of the node's own isn't settled. Refusal 43.
    #[error("a decision is unsettled")]
    Unsettled,
    /// There is no next number. Refusal 44.
    #[error("the numbers are spent")]
    Spent,
}

impl StoreFault {
    /// The refusal's number.
    pub fn number(&self) -> u8
        ensures { result ≡ refusal_number self.now }
    {
        match self {
            StoreFault::NoMemory => 1,
            StoreFault::Device => 20,
            StoreFault::TooLarge => 22,
            StoreFault::Reopen => 23,
            StoreFault::Truncated => 30,
            StoreFault::Version => 31,
            StoreFault::Malformed => 32,
            StoreFault::HoldsOther => 40,
            StoreFault::PastNumber => 41,
            StoreFault::NotHeld => 42,
            StoreFault::Unsettled => 43,
            StoreFault::Spent => 44,
        }
    }

    /// Whether the device failed.
    pub(crate) fn is_failure(&self) -> bool
        ensures { result ≡ is_failure self.now }
    {
        matches!(self, StoreFault::Device)
    }
}

impl From<CellFault> for StoreFault {
    ghost from_gives = { λ fault e. e ≡ of_cell fault };

    fn from(fault: CellFault) -> Self {
        match fault {
            CellFault::NoMemory => StoreFault::NoMemory,
            CellFault::Device => StoreFault::Device,
            CellFault::TooLarge => StoreFault::TooLarge,
            CellFault::Reopen => StoreFault::Reopen,
        }
    }
}

impl From<CodecFault> for StoreFault {
    ghost from_gives = { λ fault e. e ≡ of_codec fault };

    fn from(fault: CodecFault) -> Self {
        match fault {
            CodecFault::NoMemory => StoreFault::NoMemory,
            CodecFault::Truncated => StoreFault::Truncated,
            CodecFault::Version => StoreFault::Version,
            CodecFault::Malformed => StoreFault::Malformed,
        }
    }
}

impl From<AllocError> for StoreFault {
    ghost from_gives = { λ _ e. e ≡ NoMemory };

    fn from(_: AllocError) -> Self {
        StoreFault::NoMemory
    }
}

impl<T: Drop> From<AllocFailed<T>> for StoreFault {
    ghost from_gives = { λ _ e. e ≡ NoMemory };

    fn from(_: AllocFailed<T>) -> Self {
        StoreFault::NoMemory
    }
}
