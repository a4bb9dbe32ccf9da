// Why the bytes of a file were not read.

use std::alloc::{AllocError, AllocFailed};
use thiserror::Error;

/// Why the items of a file were not read.
#[derive(Clone, Copy, Debug, PartialEq, Eq, Error)]
pub enum LinesFault {
    /// There is no memory for the items.
    #[error("no memory")]
    NoMemory,
    /// A line that ends with a line feed is not the line of an item. It is the first such line.
    #[error("line {line} is not an item")]
    NotAnItem {
        // from 1 on
        line: u64,
    },
}

impl From<AllocError> for LinesFault {
    ghost use Rattle.output_file.specs.declared.fault.LinesFault.TheVariants.{NoMemory};
    ghost use Rattle.std.specs.Prelude.{◌≡◌};

    ghost from_gives = { λ _ e. e ≡ NoMemory };

    fn from(_: AllocError) -> Self {
        LinesFault::NoMemory
    }
}

impl<T: Drop> From<AllocFailed<T>> for LinesFault {
    ghost use Rattle.output_file.specs.declared.fault.LinesFault.TheVariants.{NoMemory};
    ghost use Rattle.std.specs.Prelude.{◌≡◌};

    ghost from_gives = { λ _ e. e ≡ NoMemory };

    fn from(_: AllocFailed<T>) -> Self {
        LinesFault::NoMemory
    }
}
