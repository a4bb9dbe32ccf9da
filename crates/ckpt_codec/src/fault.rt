// Why bytes aren't read as a record.
ghost use Rattle.std.specs.Prelude.{◌≡◌};
ghost use Rattle.ckpt_codec.specs.Faults.{refusal_number};

use std::alloc::{AllocError, AllocFailed};
use thiserror::Error;

/// Why bytes gave no record.
#[derive(Clone, Copy, Debug, PartialEq, Eq, Error)]
pub enum CodecFault {
    /// There is no memory for the record. Refusal 1.
    #[error("no memory")]
    NoMemory,
    /// The bytes end where a record goes on. Refusal 30.
    #[error("truncated")]
    Truncated,
    /// The first byte is another version's. Refusal 31.
    #[error("another version")]
    Version,
    /// A value can't stand where it does, or something follows the record. Refusal 32.
    #[error("malformed")]
    Malformed,
}

impl CodecFault {
    /// The refusal's number.
    pub fn number(&self) -> u8
        ensures { result ≡ refusal_number self.now }
    {
        match self {
            CodecFault::NoMemory => 1,
            CodecFault::Truncated => 30,
            CodecFault::Version => 31,
            CodecFault::Malformed => 32,
        }
    }
}

impl From<AllocError> for CodecFault {
    ghost use Rattle.ckpt_codec.specs.declared.fault.CodecFault.TheVariants.{NoMemory};

    ghost from_gives = { λ _ e. e ≡ NoMemory };

    fn from(_: AllocError) -> Self {
        CodecFault::NoMemory
    }
}

impl<T: Drop> From<AllocFailed<T>> for CodecFault {
    ghost use Rattle.ckpt_codec.specs.declared.fault.CodecFault.TheVariants.{NoMemory};

    ghost from_gives = { λ _ e. e ≡ NoMemory };

    fn from(_: AllocFailed<T>) -> Self {
        CodecFault::NoMemory
    }
}
