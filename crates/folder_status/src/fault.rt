//! Why nothing is told of a folder.

ghost use Rattle.std.specs.Prelude.{◌≡◌};
ghost use Rattle.folder_status.specs.Causes.{fault_line, fault_number, of_unread};

use host::HostFault;
use std::alloc::{AllocError, AllocFailed};
use thiserror::Error;

/// Why nothing is told of a folder. It reads as what a run prints that is refused for its folder.
#[derive(Clone, Copy, Debug, PartialEq, Eq, Error)]
pub enum StatusFault {
    /// There is no memory (1).
    #[error("no memory")]
    NoMemory,
    /// The folder isn't there or lacks a file; its texts are no network's or none of its inputs'; or a line is no item's (80).
    #[error("state: refusal 80")]
    OtherState,
    /// A file holds an item that the processes don't put at its place (81).
    #[error("state: refusal 81")]
    ItemDiffers,
    /// A file of the folder can't be read (82).
    #[error("state: refusal 82")]
    Unread,
}

/// The same, with what there is to say of it: the file, and why in words.
#[derive(Debug, Drop)]
pub struct StatusRefused {
    pub fault: StatusFault,
    /// None where there is nothing more to say, or no memory for it.
    pub words: Option<String>,
}

impl From<AllocError> for StatusRefused {
    ghost use Rattle.std.specs.Prelude.{◌≡◌};
    ghost use Rattle.folder_status.specs.declared.fault.StatusFault.TheVariants.{NoMemory};

    ghost from_gives = { λ _ refused. refused.fault ≡ NoMemory };

    fn from(_: AllocError) -> Self {
        StatusRefused {
            fault: StatusFault::NoMemory,
            words: None,
        }
    }
}

impl<T: Drop> From<AllocFailed<T>> for StatusRefused {
    ghost use Rattle.std.specs.Prelude.{◌≡◌};
    ghost use Rattle.folder_status.specs.declared.fault.StatusFault.TheVariants.{NoMemory};

    ghost from_gives = { λ _ refused. refused.fault ≡ NoMemory };

    fn from(_: AllocFailed<T>) -> Self {
        StatusRefused {
            fault: StatusFault::NoMemory,
            words: None,
        }
    }
}

impl StatusFault {
    /// The refusal's number.
    pub fn number(self) -> u8
        ensures { result ≡ fault_number self }
    {
        match self {
            StatusFault::NoMemory => 1,
            StatusFault::OtherState => 80,
            StatusFault::ItemDiffers => 81,
            StatusFault::Unread => 82,
        }
    }

    /// The line that tells of it, with its line feed.
    pub fn line(self) -> &'static str
        ensures { result.now ≡ fault_line self }
    {
        match self {
            StatusFault::NoMemory => "no memory\n",
            StatusFault::OtherState => "state: refusal 80\n",
            StatusFault::ItemDiffers => "state: refusal 81\n",
            StatusFault::Unread => "state: refusal 82\n",
        }
    }

    /// What it comes to that the host doesn't read a file of a folder.
    pub(crate) fn of_unread(fault: HostFault) -> StatusFault
        ensures { result ≡ of_unread fault }
    {
        match fault {
            HostFault::NoMemory => StatusFault::NoMemory,
            HostFault::NotThere | HostFault::NoFolder => StatusFault::OtherState,
            HostFault::IsThere | HostFault::InUse | HostFault::NotEmpty | HostFault::Other => {
                StatusFault::Unread
            }
        }
    }
}

// These words as a line, where there is memory for them.
fn line_of(words: Result<String, AllocError>) -> Option<String> {
    let Ok(mut line) = words else {
        return None;
    };
    match line.push_str("\n") {
        Ok(()) => Some(line),
        Err(_) => None,
    }
}

/// A refusal with these words, where there is memory for them.
pub(crate) fn refused(fault: StatusFault, words: Result<String, AllocError>) -> StatusRefused
    ensures { result.fault ≡ fault }
{
    StatusRefused {
        fault,
        words: line_of(words),
    }
}
