//! Why a disk refuses.
ghost use Rattle.std.specs.Prelude.{◌≡◌};
ghost use Rattle.sector_disk.specs.DiskFault.{refusal_number};

use thiserror::Error;

/// Why a call of a disk was refused.
#[derive(Clone, Copy, Debug, PartialEq, Eq, Error)]
pub enum DiskFault {
    /// The device failed. A write that failed leaves its range in doubt. Refusal 20.
    #[error("the device failed")]
    Device,
    /// The bytes aren't whole sectors of this disk. Nothing changed. Refusal 21.
    #[error("not whole sectors of this disk")]
    Range,
}

impl DiskFault {
    /// The refusal's number: 20 for `Device`, 21 for `Range`.
    pub fn number(&self) -> u8
        ensures { result ≡ refusal_number self.now }
    {
        match self {
            DiskFault::Device => 20,
            DiskFault::Range => 21,
        }
    }
}
